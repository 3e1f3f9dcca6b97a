//! The first place at which a code point may not stand.
ghost use Rattle.std.specs.Prelude.{◌≡◌, ◌<◌, length, IfOk};
ghost use Rattle.idn_cause.specs.Causes.{barred_place, is_hyphen_out_of_place, misplaced_hyphen};

use idn_class::{Class, Properties, class_of_by};
use idn_label::is_hyphen_at;
use std::alloc::{AllocError, Global};

/// The place of the first code point that may not be registered.
pub(crate) fn barred_place(
    alloc: Global,
    label: &[u32],
    properties: Properties,
) -> Result<Option<usize>, AllocError>
    ensures { IfOk result (λ place. place ≡ barred_place properties label.now) }
{
    for place in 0..label.len() {
        match class_of_by(alloc, label[place], properties)? {
            Class::Disallowed | Class::Unassigned => return Ok(Some(place)),
            Class::Pvalid | Class::Contextj | Class::Contexto => {}
        }
    }
    Ok(None)
}

/// The first place at which a hyphen is out of place.
pub(crate) fn misplaced_hyphen(label: &[u32]) -> Option<usize>
    ensures { result ≡ misplaced_hyphen label.now }
{
    for place in 0..label.len() {
        if is_hyphen_out_of_place(label, place) {
            return Some(place);
        }
    }
    None
}

fn is_hyphen_out_of_place(label: &[u32], place: usize) -> bool
    requires { place < length label.now }
    ensures { result ≡ is_hyphen_out_of_place label.now place }
{
    let is_barred = (place == 0)
        | (place + 1 == label.len())
        | (place == 2) & is_hyphen_at(label, 3);
    is_hyphen_at(label, place) & is_barred
}
