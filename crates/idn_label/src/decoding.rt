//! Decoding of the A-labels of a name (RFC 5891 section 5.3).
ghost use Rattle.std.specs.Prelude.{◌≡◌, ◌≢◌, ◌<◌, ◌≤◌, ◌*◌, ℕ};
ghost use Rattle.std.specs.Prelude.{List, chars, length, take, IsUtf8, IfOk, Ok, Err, All};
ghost use Rattle.idna.specs.Labels.{labels_of};
ghost use Rattle.idn_label.specs.ALabel.{a_label_of};
ghost use Rattle.idn_label.specs.Answers.{Gives};
ghost use Rattle.idn_label.specs.Decode.{decode_answer, decode_utf8_answer, decoded_name};
ghost use Rattle.idn_label.specs.FirstFault.{IsRegistrable};
ghost use Rattle.idn_label.specs.inner.DecodedNames.{TellsLeftToRight, decoded_utf8};
ghost use Rattle.idn_label.specs.Memory.{DecodesWithoutMemory};

use crate::bidi_name::{name_fault, utf8_name_fault};
use crate::full_stops::label_end;
use crate::octets::characters_of;
use crate::u_label::u_label_in_any_case;
use crate::unit::{FULL_STOP, has_ace_prefix_in_any_case};
use idn_class::{Facts, Properties};
use idn_punycode::DecodedLabel;
use idn_text::{MAX_LINE_LEN, Refusal, put_points};
use std::alloc::Global;

/// Writes into `room` the UTF-8 (RFC 3629) of what `decode_name_by` makes of a name in UTF-8 by these properties, and
/// returns how many octets these are: by Unicode's the Bidi rule is asked of the whole name. Other bytes are refused as
/// `NotUtf8`; where the name is refused, what is left in `room` says nothing.
/// There must be room for four octets for each of the name. `u_label` is room for what an A-label stands for: what
/// stood there before says nothing. A name without A-labels takes no memory, nor does an A-label in most cases: one of
/// more than 63 octets does, one of a label in ASCII, and one of a label with a code point of which no look-up says the
/// class, or for which the quick check of NFC is Maybe.
// A full stop is one octet, and no octet of another code point: labels are cut, and copied, as octets.
pub fn decode_utf8(
    alloc: Global,
    name: &[u8],
    u_label: &mut DecodedLabel,
    room: &mut [u8],
    properties: Properties,
) -> Result<usize, Refusal>
    requires short { length name.now ≤ MAX_LINE_LEN }
    requires room { 4 * length name.now ≤ length room.old }
    ensures answer { Gives (λ len. take len room.new) result (decode_utf8_answer properties name.now) }
    ensures short { IfOk result (λ len. len ≤ 4 * length name.now) }
    ensures length { length room.new ≡ length room.old }
    ensures no_memory { All DecodesWithoutMemory (labels_of name.now) → result ≢ Err Refusal.Memory }
{
    let characters = characters_of(name)?;
    let (len, facts) = decode_utf8_labels(alloc, name, u_label, room, properties)?;
    match utf8_name_fault(&room[..len], characters, facts, properties) {
        None => Ok(len),
        Some(refusal) => Err(refusal),
    }
}

/// The name with each label decoded, as `decode_utf8` leaves it, before the rule of the whole name is asked, and the
/// facts of what its A-labels stand for.
#[tactic(auto, using(crate::proofs::ALabels::scalars))]
fn decode_utf8_labels(
    alloc: Global,
    name: &[u8],
    u_label: &mut DecodedLabel,
    room: &mut [u8],
    properties: Properties,
) -> Result<(usize, Facts), Refusal>
    requires utf8 { IsUtf8 name.now }
    requires short { length name.now ≤ MAX_LINE_LEN }
    requires room { 4 * length name.now ≤ length room.old }
    ensures answer { Gives (λ (len, _). take len room.new) result (decoded_utf8 properties name.now) }
    ensures left_to_right { IfOk result (λ (_, facts).
        TellsLeftToRight properties facts (labels_of (chars name.now))) }
    ensures short { IfOk result (λ (len, _). len ≤ 4 * length name.now) }
    ensures length { length room.new ≡ length room.old }
    ensures no_memory { All DecodesWithoutMemory (labels_of name.now) → result ≢ Err Refusal.Memory }
{
    let mut len = 0;
    let mut facts = Facts::none();
    let mut start = 0;
    'labels: loop {
        let end = label_end(name, start);
        let label = &name[start..end];
        if has_ace_prefix_in_any_case(label) {
            facts = facts.joined(u_label_in_any_case(alloc, label, u_label, properties)?);
            len = put_points(u_label.as_slice(), room, len);
        } else {
            room[len..len + label.len()].copy_from_slice(label);
            len += label.len();
        }
        if end == name.len() {
            return Ok((len, facts));
        }
        room[len] = b'.';
        len += 1;
        start = end + 1;
    }
}

/// The name with each A-label turned into what it stands for (RFC 5891 section 5.3). A label that begins with `xn--` in
/// any ASCII case is put into lower case and decoded, or refuses the name as `BadALabel` or by the first fault of what
/// it stands for; any other label stays as it is. The first refused label decides. `Memory` says nothing of the name.
/// Only tests call this: a run calls `decode_utf8`, which gives the same answer for the bytes of a line.
// A number that no UTF-8 can hold stays, too, so the name isn't written as UTF-8 to be decoded.
pub fn decode_name(alloc: Global, name: &[u32]) -> Result<Vec<u32>, Refusal>
    requires { length name.now ≤ MAX_LINE_LEN }
    ensures answer { Gives (λ decoded. decoded.items) result (decode_answer Properties.Profile name.now) }
    ensures shorter { IfOk result (λ decoded. length decoded.items ≤ length name.now) }

    // The A-label of a label that may be registered is decoded to that label.
    ensures back { (registered : List ℕ) → IsRegistrable Properties.Profile registered →
        name.now ≡ a_label_of registered → Gives (λ decoded. decoded.items) result (Ok registered) }
{
    decode_name_by(alloc, name, Properties::Profile)
}

/// The same by these properties. By Unicode's the decoded name has to meet the Bidi rule as a whole, else it is refused
/// as `Bidi`: if a code point of it is R, AL or AN, each of its labels meets the rule (RFC 5893, section 2), also those
/// that stay as they are.
#[tactic(auto, using(crate::proofs::BidiNames::decoded_whole))]
pub fn decode_name_by(
    alloc: Global,
    name: &[u32],
    properties: Properties,
) -> Result<Vec<u32>, Refusal>
    requires { length name.now ≤ MAX_LINE_LEN }
    ensures answer { Gives (λ decoded. decoded.items) result (decode_answer properties name.now) }
    ensures shorter { IfOk result (λ decoded. length decoded.items ≤ length name.now) }

    // The A-label of a label that may be registered is decoded to that label.
    ensures back { (registered : List ℕ) → IsRegistrable properties registered →
        name.now ≡ a_label_of registered → Gives (λ decoded. decoded.items) result (Ok registered) }
{
    let decoded = decode_labels(alloc, name, properties)?;
    match name_fault(&decoded, properties) {
        None => Ok(decoded),
        Some(refusal) => Err(refusal),
    }
}

/// The name with each A-label turned into what it stands for, or the first refusal of a label. The rule of the whole
/// name is not asked.
pub fn decode_labels(
    alloc: Global,
    name: &[u32],
    properties: Properties,
) -> Result<Vec<u32>, Refusal>
    requires { length name.now ≤ MAX_LINE_LEN }
    ensures answer { Gives (λ decoded. decoded.items) result (decoded_name properties name.now) }
    ensures shorter { IfOk result (λ decoded. length decoded.items ≤ length name.now) }
{
    let mut decoded = Vec::with_capacity(alloc, name.len())?;
    let mut u_label = DecodedLabel::new();
    let mut start = 0;
    'labels: loop {
        let end = label_end(name, start);
        let label = if has_ace_prefix_in_any_case(&name[start..end]) {
            u_label_in_any_case(alloc, &name[start..end], &mut u_label, properties)?;
            u_label.as_slice()
        } else {
            &name[start..end]
        };
        decoded.extend_from_slice(label)?;
        if end == name.len() {
            return Ok(decoded);
        }
        decoded.push(FULL_STOP)?;
        start = end + 1;
    }
}
