//! Why a label is refused: one rule is looked at, that of its fault.
ghost use Rattle.std.specs.Prelude.{◌≡◌, IfOk};
ghost use Rattle.std.specs.Result.{IsOk};
ghost use Rattle.idn_text.specs.Points.{AreScalarValues};
ghost use Rattle.idn_cause.specs.Causes.{IsFoundWithoutMemory, barred_at, barred_place, cause_of, condition_at};
ghost use Rattle.idn_cause.specs.Causes.{hyphen_at, leading_place, point_at};

use crate::cause::Cause;
use crate::lengths::length_at;
use crate::normalization::changed_at;
use crate::places::{barred_place, misplaced_hyphen};
use idn_class::{
    BidiClass, Broken, Properties, barring_line, broken_condition, leading_mark, misplaced_joiner,
    misplaced_other,
};
use idn_label::code_point_at;
use idn_text::Refusal;
use std::alloc::{AllocError, Global};

/// What gives a label this fault: the first place at which the rule is broken. `None` where no cause is told for the
/// fault. Memory is taken only for a code point that may not be registered, or whose class no look-up tells; for
/// Normalization Form C; and for the A-label of a label that is not all ASCII.
#[cold]
#[tactic(auto, unfolding(crate::specs::Causes::cause_of))]
pub fn cause_of(
    alloc: Global,
    label: &[u32],
    refusal: Refusal,
    properties: Properties,
) -> Result<Option<Cause>, AllocError>
    requires { AreScalarValues label.now }
    ensures cause { IfOk result (λ cause. cause ≡ cause_of properties label.now refusal) }
    ensures no_memory { IsFoundWithoutMemory refusal → IsOk result }
{
    let cause = match refusal {
        Refusal::Disallowed | Refusal::Unassigned => {
            barred_at(
                alloc,
                label,
                barred_place(alloc, label, properties)?,
                properties,
            )?
        }
        Refusal::NotNfc => changed_at(alloc, label)?,
        Refusal::Hyphen => hyphen_at(label, misplaced_hyphen(label)),
        Refusal::LeadingMark => point_at(label, leading_place(label)),
        Refusal::ContextJ => point_at(label, misplaced_joiner(label, properties)),
        Refusal::ContextO => point_at(label, misplaced_other(label)),
        Refusal::Bidi => { condition_at(label, broken_condition(label, properties), properties) }
        Refusal::LabelTooLong => length_at(alloc, label)?,
        _ => None,
    };
    Ok(cause)
}

/// The code point at a place, with the line that bars it.
fn barred_at(
    alloc: Global,
    label: &[u32],
    place: Option<usize>,
    properties: Properties,
) -> Result<Option<Cause>, AllocError>
    ensures { IfOk result (λ cause. cause ≡ barred_at properties label.now place) }
{
    let Some(place) = place else {
        return Ok(None);
    };
    let point = code_point_at(label, place);
    match barring_line(alloc, point, properties)? {
        Some(line) => Ok(Some(Cause::Barred(place, point, line))),
        None => Ok(None),
    }
}

/// A hyphen at a place.
fn hyphen_at(label: &[u32], place: Option<usize>) -> Option<Cause>
    ensures { result ≡ hyphen_at label.now place }
{
    match place {
        Some(place) => Some(Cause::Hyphen(place, label.len())),
        None => None,
    }
}

/// The first place, where a combining mark stands there.
fn leading_place(label: &[u32]) -> Option<usize>
    ensures { result ≡ leading_place label.now }
{
    if leading_mark(label) { Some(0) } else { None }
}

/// The code point at a place.
fn point_at(label: &[u32], place: Option<usize>) -> Option<Cause>
    ensures { result ≡ point_at label.now place }
{
    match place {
        Some(place) => Some(Cause::Point(place, code_point_at(label, place))),
        None => None,
    }
}

/// A condition with the code point that breaks it.
pub(crate) fn condition_at(
    label: &[u32],
    broken: Option<Broken>,
    properties: Properties,
) -> Option<Cause>
    ensures { result ≡ condition_at properties label.now broken }
{
    match broken {
        Some(broken) => {
            let point = code_point_at(label, broken.place);
            Some(Cause::Condition(broken, point, BidiClass::of(point, properties)))
        }
        None => None,
    }
}
