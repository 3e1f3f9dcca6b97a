//! Why a name is refused where its A-labels are decoded.
ghost use Rattle.std.specs.Prelude.{◌≡◌, ◌≤◌, Some, length, map, IfOk};
ghost use Rattle.std.specs.Char.{to_ascii_lowercase};
ghost use Rattle.idna.specs.Labels.{labels_of};
ghost use Rattle.idn_label.specs.Decode.{decoded_labels};
ghost use Rattle.idn_label.specs.Steps.{begins_with_prefix};
ghost use Rattle.idn_cause.specs.NameLabels.{first_failing_label};
ghost use Rattle.idn_cause.specs.NameCauses.{breaks_none, broken_at_label, cause_at_label, label_of_number, of_decoded};
ghost use Rattle.idn_cause.specs.NameCauses.{is_decoded, name_cause, whole_name_cause};
ghost use Rattle.std.specs.Result.{IsOk};

use crate::a_label::{ALabelCause, a_label_cause, is_a_label};
use crate::cause::Cause;
use crate::label::condition_at;
use idn_class::{Properties, broken_in_name};
use idn_label::{decode_labels, has_ace_prefix_in_any_case, label_end, name_fault, to_lowercase};
use idn_text::{MAX_LINE_LEN, Refusal};
use std::alloc::{AllocError, Global};

/// What gives a name its fault: the first label that is refused, counted from 0, and the cause. Where each label is
/// decoded, but the name as a whole breaks the Bidi rule, it is the first decoded label that breaks a condition.
#[derive(Drop)]
pub struct NameCause {
    /// The number of the label, at most 1,024.
    pub label: u16,
    /// Why it is refused, in lower case.
    pub cause: ALabelCause,
}

/// What gives a name this fault, as the answer of decoding has it. `None` where no cause is told for the fault. It
/// takes memory, but not for an empty name.
#[cold]
#[tactic(auto, unfolding(crate::specs::NameCauses::name_cause), using(crate::proofs::NameSteps::empty_names))]
pub fn name_cause(
    alloc: Global,
    name: &[u32],
    refusal: Refusal,
    properties: Properties,
) -> Result<Option<NameCause>, AllocError>
    requires { length name.now ≤ MAX_LINE_LEN }
    ensures cause { IfOk result (λ cause. cause ≡ name_cause properties name.now refusal) }
    ensures no_memory { refusal ≡ Refusal.Empty → IsOk result }
{
    if matches!(refusal, Refusal::Empty) {
        return Ok(None);
    }
    let mut start = 0;
    let mut number: u16 = 0;
    'labels: loop {
        let end = label_end(name, start);
        let label = &name[start..end];
        if !is_decoded(alloc, label, properties)? {
            return cause_at_label(alloc, number, label, refusal, properties);
        }
        if end == name.len() {
            return whole_name_cause(alloc, name, refusal, properties);
        }
        start = end + 1;
        number += 1;
    }
}

/// The cause of a fault of the whole name, each label of which is decoded.
#[tactic(auto, using(crate::proofs::NameSteps::whole_names))]
fn whole_name_cause(
    alloc: Global,
    name: &[u32],
    refusal: Refusal,
    properties: Properties,
) -> Result<Option<NameCause>, AllocError>
    requires { length name.now ≤ MAX_LINE_LEN }
    ensures { IfOk result (λ cause. cause ≡
        whole_name_cause properties name.now refusal (decoded_labels properties (labels_of name.now))) }
{
    let Refusal::Bidi = refusal else {
        return Ok(None);
    };
    match decode_labels(alloc, name, properties) {
        Err(refusal) => match refusal {
            Refusal::Memory => Err(AllocError),
            _ => Ok(None),
        },
        Ok(decoded) => match name_fault(&decoded, properties) {
            Some(_) => Ok(broken_label(name, &decoded, properties)),
            None => Ok(None),
        },
    }
}

/// The first label that breaks a condition of the Bidi rule, once a name is decoded, and the first condition that it
/// breaks.
fn broken_label(name: &[u32], decoded: &[u32], properties: Properties) -> Option<NameCause>
    requires { length decoded.now ≤ MAX_LINE_LEN }
    ensures { result ≡ broken_at_label properties name.now
        (first_failing_label (breaks_none properties) 0 (labels_of decoded.now)) }
{
    let mut start = 0;
    let mut number: u16 = 0;
    'labels: loop {
        let end = label_end(decoded, start);
        let label = &decoded[start..end];
        if let Some(cause) = condition_at(label, broken_in_name(label, properties), properties) {
            return Some(NameCause {
                label: number,
                cause: of_decoded(is_coded(name, number), cause),
            });
        }
        if end == decoded.len() {
            return None;
        }
        start = end + 1;
        number += 1;
    }
}

/// A cause in a label of a decoded name, which was an A-label or stays as it is.
fn of_decoded(is_coded: bool, cause: Cause) -> ALabelCause
    ensures { result ≡ of_decoded is_coded cause }
{
    if is_coded {
        ALabelCause::Decoded(cause)
    } else {
        ALabelCause::Copied(cause)
    }
}

/// Whether the label of a number begins with `xn--` in any ASCII case.
fn is_coded(name: &[u32], number: u16) -> bool
    ensures { result ≡ begins_with_prefix (label_of_number number (labels_of name.now)) }
{
    let mut start = 0;
    let mut before = number;
    'labels: loop {
        let end = label_end(name, start);
        if before == 0 {
            return has_ace_prefix_in_any_case(&name[start..end]);
        }
        if end == name.len() {
            return false;
        }
        start = end + 1;
        before -= 1;
    }
}

/// Whether a label is decoded, or stays as it is.
#[tactic(auto, using(crate::proofs::NameSteps::decoded_labels))]
fn is_decoded(alloc: Global, label: &[u32], properties: Properties) -> Result<bool, AllocError>
    requires { length label.now ≤ MAX_LINE_LEN }
    ensures { IfOk result (λ decoded. decoded ≡ is_decoded properties label.now) }
{
    if !has_ace_prefix_in_any_case(label) {
        return Ok(true);
    }
    let lower = lowercase_of(alloc, label)?;
    is_a_label(alloc, &lower, properties)
}

/// The cause of the fault of the label of this number.
fn cause_at_label(
    alloc: Global,
    number: u16,
    label: &[u32],
    refusal: Refusal,
    properties: Properties,
) -> Result<Option<NameCause>, AllocError>
    requires { length label.now ≤ MAX_LINE_LEN }
    ensures { IfOk result (λ cause. cause ≡ cause_at_label properties refusal (Some (number, label.now))) }
{
    let lower = lowercase_of(alloc, label)?;
    match a_label_cause(alloc, &lower, refusal, properties)? {
        Some(cause) => Ok(Some(NameCause {
            label: number,
            cause,
        })),
        None => Ok(None),
    }
}

/// A label with its ASCII capitals in lower case.
fn lowercase_of(alloc: Global, label: &[u32]) -> Result<Vec<u32>, AllocError>
    ensures { IfOk result (λ lower. lower.items ≡ map to_ascii_lowercase label.now) }
{
    let mut lower = Vec::with_capacity(alloc, label.len())?;
    for point in label {
        lower.push(to_lowercase(*point))?;
    }
    Ok(lower)
}
