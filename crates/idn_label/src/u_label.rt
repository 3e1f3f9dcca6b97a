//! What an A-label stands for (RFC 5891 section 5.3).
ghost use Rattle.std.specs.Prelude.{◌≡◌, ◌≢◌, ◌<◌, ◌≤◌, ◌+◌, not, length};
ghost use Rattle.std.specs.Prelude.{drop, true, Ok, Err, IfOk, IfErr, OnOk, IfSome, MatchOption};
ghost use Rattle.std.specs.Char.{is_ascii_uppercase};
ghost use Rattle.std.specs.List.{list_all};
ghost use Rattle.std.specs.Result.{IsErr, IsErrAnd};
ghost use Rattle.idna.specs.Validity.{is_all_ascii};
ghost use Rattle.idn_text.specs.Points.{AreScalarValues};
ghost use Rattle.idn_class.specs.Facts.{AreFactsOf};
ghost use Rattle.idn_label.specs.Answers.{Gives};
ghost use Rattle.idn_label.specs.Memory.{NeedsNoMemoryDecoded};
ghost use Rattle.idn_label.specs.Register.{decoded_code, u_label_answer};
ghost use Rattle.idn_label.specs.Steps.{begins_with_prefix, lowercase};

use crate::a_label::ascii_text;
use crate::code_points::points_of;
use crate::first_fault::{check_label, check_registrable};
use crate::unit::{Unit, is_all_ascii, to_lowercase};
use arrayvec::{ArrayString, ArrayVec};
use idn_class::{Facts, MAX_LABEL_LEN, Properties};
use idn_punycode::DecodedLabel;
use idn_text::{MAX_LINE_LEN, Refusal};
use idna::{Errors, punycode};
use std::alloc::{AllocError, Global};

/// Leaves in `label` what an A-label in any ASCII case stands for, in place of what stood there, and tells its facts. A
/// label that passes the test has no capital, so its code need not be put into lower case first.
#[tactic(auto, using(crate::proofs::ALabels::in_any_case))]
pub(crate) fn u_label_in_any_case<U: Unit>(
    alloc: Global,
    given: &[U],
    label: &mut DecodedLabel,
    properties: Properties,
) -> Result<Facts, Refusal>
    requires prefix { begins_with_prefix (U.codes given.now) ≡ true }
    requires short { length given.now ≤ MAX_LINE_LEN }
    ensures answer { Gives (λ _. label.new) result (u_label_answer properties (lowercase (U.codes given.now))) }
    ensures facts { IfOk result (λ facts. AreFactsOf facts label.new) }
    ensures shorter { OnOk result (length label.new < length given.now) }
    ensures no_memory { NeedsNoMemoryDecoded (lowercase (U.codes given.now)) → result ≢ Err Refusal.Memory }
{
    match tested_u_label(alloc, given, label, properties) {
        Ok(facts) => Ok(facts),
        Err(refusal) if has_no_capital(given) => Err(refusal),
        Err(_) if !is_all_ascii(given) => Err(Refusal::BadALabel),
        // A label put into lower case has no capital.
        Err(_) => tested_u_label(alloc, &lowercase_of(given), label, properties),
    }
}

/// Whether a label has no ASCII capital. It looks at each code point, which is faster than to stop at the first
/// capital.
pub(crate) fn has_no_capital<U: Unit>(label: &[U]) -> bool
    ensures { result ≡ list_all (λ c. not (is_ascii_uppercase c)) (U.codes label.now) }
{
    let mut has_none = true;
    for unit in label {
        has_none &= to_lowercase(unit.code_point()) == unit.code_point();
    }
    has_none
}

/// A label in ASCII, in lower case.
pub fn lowercase_of<U: Unit>(label: &[U]) -> ArrayVec<u8, MAX_LINE_LEN>
    requires ascii { is_all_ascii (U.codes label.now) ≡ true }
    requires short { length label.now ≤ MAX_LINE_LEN }
    ensures { result.items ≡ lowercase (U.codes label.now) }
{
    let mut lower = ArrayVec::new();
    for unit in label {
        lower.push(to_lowercase(unit.code_point()) as u8);
    }
    lower
}

/// Leaves in `label` what an A-label put into lower case stands for, in place of what stood there, and tells its facts;
/// if it is refused, this is why where it has no capital. One that is short need not be encoded again to be compared:
/// Punycode in lower case is the only one of what it stands for (RFC 3492 sections 1.1 and 5).
#[tactic(auto, using(crate::proofs::ALabels::refused))]
pub(crate) fn tested_u_label<U: Unit>(
    alloc: Global,
    given: &[U],
    label: &mut DecodedLabel,
    properties: Properties,
) -> Result<Facts, Refusal>
    requires prefix { begins_with_prefix (U.codes given.now) ≡ true }
    requires short { length given.now ≤ MAX_LINE_LEN }
    ensures passes { OnOk result (u_label_answer properties (lowercase (U.codes given.now)) ≡ Ok label.new) }
    ensures facts { IfOk result (λ facts. AreFactsOf facts label.new) }
    ensures fault { IfErr result (λ refusal. list_all (λ c. not (is_ascii_uppercase c)) (U.codes given.now) ≡ true
        → refusal ≢ Refusal.Memory → u_label_answer properties (U.codes given.now) ≡ Err refusal) }
    ensures shorter { OnOk result (length label.new < length given.now) }
    ensures no_memory { NeedsNoMemoryDecoded (U.codes given.now) → result ≢ Err Refusal.Memory }
{
    // The A-label of a label that may be registered is short.
    if given.len() > MAX_LABEL_LEN {
        return refuse(alloc, given, properties);
    }
    let Ok(facts) = label.decode(code_of(given)) else {
        return Err(Refusal::BadALabel);
    };
    if is_all_ascii(label.as_slice()) {
        return refuse(alloc, given, properties);
    }
    check_label(alloc, label.as_slice(), facts, properties)?;
    Ok(facts)
}

/// What stands after the prefix of an A-label.
#[inline]
#[tactic(auto, using(crate::proofs::LowerCase::past_prefix))]
pub(crate) fn code_of<U: Unit>(given: &[U]) -> &[U]
    requires { begins_with_prefix (U.codes given.now) ≡ true }
    ensures codes { U.codes result.now ≡ drop 4 (U.codes given.now) }
    ensures shorter { length result.now + 4 ≡ length given.now }
{
    let (_, code) = given.split_at(4);
    code
}

/// Refuses what is the A-label of no label which may be registered, and tells why.
#[tactic(auto, using(crate::proofs::AnswerLemmas::confirming), unfolding(crate::specs::Register::u_label_answer))]
pub(crate) fn refuse<U: Unit, T>(
    alloc: Global,
    given: &[U],
    properties: Properties,
) -> Result<T, Refusal>
    requires prefix { begins_with_prefix (U.codes given.now) ≡ true }
    requires short { length given.now ≤ MAX_LINE_LEN }
    requires of_none { IsErr (u_label_answer properties (U.codes given.now)) }
    ensures { IsErrAnd result (λ refusal. refusal ≢ Refusal.Memory →
        u_label_answer properties (U.codes given.now) ≡ Err refusal) }
{
    if let Some(label) = decoded_code(alloc, code_of(given))? {
        check_registrable(alloc, &label, properties)?;
    }
    Err(Refusal::BadALabel)
}

/// What the code after the prefix stands for (RFC 3492 section 6.2). `None` where it is empty, not all ASCII or no
/// Punycode. It takes memory.
#[tactic(auto, unfolding(crate::specs::Register::decoded_code))]
pub fn decoded_code<U: Unit>(alloc: Global, code: &[U]) -> Result<Option<Vec<u32>>, AllocError>
    requires { length code.now ≤ MAX_LINE_LEN }
    ensures label { IfOk result (λ label. MatchOption label (decoded_code (U.codes code.now) ≡ Err Refusal.BadALabel)
        (λ points. decoded_code (U.codes code.now) ≡ Ok points.items)) }
    ensures scalar_values { IfOk result (λ label. IfSome label (λ points. AreScalarValues points.items)) }
{
    if code.is_empty() || !is_all_ascii(code) {
        return Ok(None);
    }
    let text: ArrayString<MAX_LINE_LEN> = ascii_text(code);
    match punycode::decode(alloc, text.as_str()) {
        Ok(label) => Ok(Some(points_of(alloc, &label)?)),
        Err(Errors::Invalid) => Ok(None),
        Err(Errors::OutOfMemory) => Err(AllocError),
    }
}
