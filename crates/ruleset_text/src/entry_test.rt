//! Whether a source and variants in memory are an entry that a line may spell.
ghost use Rattle.std.specs.Prelude.{◌≡◌, true, false, map, None};
ghost use Rattle.std.specs.List.{list_all};
ghost use Rattle.idn_text.specs.Points.{is_scalar_value as is_scalar};
ghost use Rattle.ruleset_text.specs.EntryForms.{mapped as form_of};
ghost use Rattle.ruleset_text.specs.EntryText.{IsForm};
ghost use Rattle.ruleset_text.specs.inner.FormTests as tests;

use crate::definition_form::has_rule;
use crate::entry_form::Mapped;
use crate::names::{Name, is_name};

/// Whether they are: there is a source, and each is a sequence of scalar values, whose names are names, and which has
/// one type at most.
pub fn is_entry(mapped: &[Mapped]) -> bool
    ensures yes { result ≡ true → IsForm (map form_of mapped.now) None }
    ensures no { result ≡ false → ¬ IsForm (map form_of mapped.now) None }
{
    is_some_mapped(mapped)
}

fn is_some_mapped(mapped: &[Mapped]) -> bool
    ensures { result ≡ tests.is_entry mapped.now }
{
    0 < mapped.len() && are_mapped(mapped)
}

fn are_mapped(mapped: &[Mapped]) -> bool
    ensures { result ≡ list_all (λ m. tests.is_mapped (form_of m)) mapped.now }
{
    mapped.iter().all(|one| is_mapped(one))
}

fn is_mapped(mapped: &Mapped) -> bool
    ensures { result ≡ tests.is_mapped (form_of mapped.now) }
{
    is_sequence(&mapped.points)
        && may_have_type(mapped.marked, &mapped.type_name)
        && has_rule(&mapped.condition)
}

fn is_sequence(points: &[u32]) -> bool
    ensures { result ≡ tests.is_sequence points.now }
{
    0 < points.len() && are_scalar_values(points)
}

fn are_scalar_values(points: &[u32]) -> bool
    ensures { result ≡ list_all is_scalar points.now }
{
    points.iter().all(|point| is_scalar_value(*point))
}

fn is_scalar_value(point: u32) -> bool
    ensures { result ≡ is_scalar point }
{
    char::from_u32(point).is_some()
}

/// Whether a type may stand beside a mark, or where there is none.
fn may_have_type(marked: bool, type_name: &Option<Name>) -> bool
    ensures { result ≡ tests.may_have_type marked type_name.now }
{
    match type_name {
        None => true,
        Some(name) => !marked && is_name(name.as_slice()),
    }
}
