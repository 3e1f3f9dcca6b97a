//! Where a label is not in Normalization Form C.
ghost use Rattle.std.specs.Prelude.{◌≡◌, slice_get, IfOk};
ghost use Rattle.idn_text.specs.Points.{AreScalarValues};
ghost use Rattle.idn_cause.specs.Causes.{changed_at, changed_place, shared};

use crate::cause::Cause;
use idn_label::{chars_of, code_point_at};
use std::alloc::{AllocError, Global};
use unicode_normalization::slice::extend_nfc;

/// The first place at which a label and its Normalization Form C differ, where they do, and what both have there.
pub(crate) fn changed_at(alloc: Global, label: &[u32]) -> Result<Option<Cause>, AllocError>
    requires { AreScalarValues label.now }
    ensures { IfOk result (λ cause. cause ≡ changed_at label.now (changed_place label.now)) }
{
    let chars = chars_of(alloc, label)?;
    let mut composed = Vec::new(alloc);
    extend_nfc(&mut composed, &chars)?;
    if composed.as_slice() == chars.as_slice() {
        return Ok(None);
    }
    let place = shared(&chars, &composed);
    let point = code_point_at(label, place);
    Ok(Some(Cause::Changed(place, point, get(&composed, place))))
}

/// How many characters two texts share at their start.
#[tactic(auto, using(crate::proofs::CausePlaces::shared_ends))]
fn shared(a: &[char], b: &[char]) -> usize
    ensures { result ≡ shared a.now b.now }
{
    let mut at = 0;
    while at < a.len() && at < b.len() && a[at] == b[at] {
        at += 1;
    }
    at
}

/// The code point at a place of a text, if it has one.
fn get(text: &[char], place: usize) -> Option<u32>
    ensures { result ≡ slice_get text.now place }
{
    match text.get(place) {
        Some(c) => Some(*c as u32),
        None => None,
    }
}
