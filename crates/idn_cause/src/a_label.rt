//! Why what begins with `xn--` is refused.
ghost use Rattle.std.specs.Prelude.{◌≡◌, ◌<◌, ◌≤◌, length, drop, bytes_eq, IfOk, IfSome};
ghost use Rattle.std.specs.Result.{is_ok};
ghost use Rattle.idn_text.specs.Points.{AreScalarValues};
ghost use Rattle.idn_label.specs.FirstFault.{first_fault};
ghost use Rattle.idn_label.specs.Register.{confirmed, u_label_answer};
ghost use Rattle.idn_cause.specs.ALabelCauses.{a_label_cause, code_fault, decoded_cause, other_a_label, past_ascii};
ghost use Rattle.idn_cause.specs.ALabelCauses.{undecoded_cause};

use crate::cause::Cause;
use crate::label::cause_of;
use arrayvec::ArrayVec;
use idn_class::{MAX_LABEL_LEN, Properties};
use idn_label::{ALabel, code_point_at, decoded_code, test_label_by};
use idn_text::{MAX_LINE_LEN, Refusal};
use std::alloc::{AllocError, Global};

/// What gives an A-label its fault. Places are counted from 0, in code points.
#[derive(Drop)]
pub enum ALabelCause {
    /// Nothing stands after `xn--`.
    NoCode,
    /// A place and the code point there, the first that is not ASCII.
    NotAscii(usize, u32),
    /// What stands after `xn--` is no Punycode.
    NoPunycode,
    /// The A-label of what it stands for, which is another one.
    Other(ArrayVec<u8, MAX_LABEL_LEN>),
    /// The cause of the same fault of what it stands for.
    Decoded(Cause),
    /// The cause in a label of a name that is no A-label, where the name as a whole has the fault.
    Copied(Cause),
}

/// What gives a label that begins with `xn--` this fault, as the answers of registration and decoding have it. `None`
/// where no cause is told for the fault. It takes memory.
#[cold]
#[tactic(auto, unfolding(crate::specs::ALabelCauses::a_label_cause))]
pub fn a_label_cause(
    alloc: Global,
    given: &[u32],
    refusal: Refusal,
    properties: Properties,
) -> Result<Option<ALabelCause>, AllocError>
    requires { length given.now ≤ MAX_LINE_LEN }
    ensures { IfOk result (λ cause. cause ≡ a_label_cause properties given.now refusal) }
{
    let code = code_of(given);
    match decoded_code(alloc, code)? {
        Some(label) => decoded_cause(alloc, given, &label, refusal, properties),
        None => Ok(undecoded_cause(code, refusal)),
    }
}

/// Whether what begins with `xn--` is the A-label of a label that may be registered.
#[tactic(auto, using(crate::proofs::NameSteps::a_labels))]
pub(crate) fn is_a_label(
    alloc: Global,
    given: &[u32],
    properties: Properties,
) -> Result<bool, AllocError>
    requires { length given.now ≤ MAX_LINE_LEN }
    ensures { IfOk result (λ is. is ≡ is_ok (u_label_answer properties given.now)) }
{
    match decoded_code(alloc, code_of(given))? {
        Some(label) => is_confirmed(alloc, given, &label, properties),
        None => Ok(false),
    }
}

/// Whether a label may be registered, and its A-label is the one given.
#[tactic(auto, using(crate::proofs::NameSteps::confirmed_labels))]
pub(crate) fn is_confirmed(
    alloc: Global,
    given: &[u32],
    label: &[u32],
    properties: Properties,
) -> Result<bool, AllocError>
    ensures { IfOk result (λ is. is ≡ is_ok (confirmed properties given.now label.now)) }
{
    match test_label_by(alloc, label, properties) {
        Ok(a_label) => Ok(is_same(&a_label, given)),
        Err(Refusal::Memory) => Err(AllocError),
        Err(_) => Ok(false),
    }
}

/// What stands after the four code points of the prefix.
pub(crate) fn code_of(given: &[u32]) -> &[u32]
    ensures { result.now ≡ drop 4 given.now }
{
    if given.len() <= 4 { &[] } else { &given[4..] }
}

/// The cause where the code stands for no label.
fn undecoded_cause(code: &[u32], refusal: Refusal) -> Option<ALabelCause>
    ensures { result ≡ undecoded_cause code.now refusal }
{
    match refusal {
        Refusal::BadALabel => Some(code_fault(code)),
        _ => None,
    }
}

/// Why a code stands for no label.
fn code_fault(code: &[u32]) -> ALabelCause
    ensures { result ≡ code_fault code.now }
{
    if code.is_empty() {
        return ALabelCause::NoCode;
    }
    match past_ascii(code) {
        Some(place) => ALabelCause::NotAscii(place + 4, code_point_at(code, place)),
        None => ALabelCause::NoPunycode,
    }
}

/// The place of the first code point that is not ASCII.
fn past_ascii(code: &[u32]) -> Option<usize>
    ensures place { result ≡ past_ascii code.now }
    ensures within { IfSome result (λ place. place < length code.now) }
{
    for place in 0..code.len() {
        if code[place] >= 128 {
            return Some(place);
        }
    }
    None
}

/// The cause where the code stands for this label.
fn decoded_cause(
    alloc: Global,
    given: &[u32],
    label: &[u32],
    refusal: Refusal,
    properties: Properties,
) -> Result<Option<ALabelCause>, AllocError>
    requires { AreScalarValues label.now }
    ensures { IfOk result (λ cause. cause ≡ decoded_cause properties given.now label.now refusal) }
{
    match refusal {
        Refusal::BadALabel => other_a_label(alloc, given, label, properties),
        _ => match cause_of(alloc, label, refusal, properties)? {
            Some(cause) => Ok(Some(ALabelCause::Decoded(cause))),
            None => Ok(None),
        },
    }
}

/// The A-label of a label without a fault, where it is another than the one given.
fn other_a_label(
    alloc: Global,
    given: &[u32],
    label: &[u32],
    properties: Properties,
) -> Result<Option<ALabelCause>, AllocError>
    ensures { IfOk result (λ cause. cause ≡ other_a_label given.now label.now (first_fault properties label.now)) }
{
    match test_label_by(alloc, label, properties) {
        Ok(a_label) if is_same(&a_label, given) => Ok(None),
        Ok(a_label) => Ok(Some(ALabelCause::Other(octets_of(&a_label)))),
        Err(Refusal::Memory) => Err(AllocError),
        Err(_) => Ok(None),
    }
}

/// Whether an A-label is this one.
fn is_same(a_label: &ALabel, given: &[u32]) -> bool
    ensures { result ≡ bytes_eq a_label.now.bytes given.now }
{
    let octets = a_label.as_str().as_bytes();
    if octets.len() != given.len() {
        return false;
    }
    for place in 0..octets.len() {
        if u32::from(octets[place]) != given[place] {
            return false;
        }
    }
    true
}

/// The octets of an A-label.
fn octets_of(a_label: &ALabel) -> ArrayVec<u8, MAX_LABEL_LEN>
    ensures { result.items ≡ a_label.now.bytes }
{
    let mut octets = ArrayVec::new();
    let Ok(()) = octets.try_extend_from_slice(a_label.as_str().as_bytes()) else {
        unreachable!()
    };
    octets
}
