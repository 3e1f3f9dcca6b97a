//! Labels that a zone has since they were registered under other rules, and what the names of a zone stand for.
ghost use Rattle.std.specs.Prelude.{◌≡◌, ◌≢◌, ◌≤◌, take, chars, length, false, true, not, None, Some, Ok, Err};
ghost use Rattle.std.specs.Prelude.{IfOk, IfErr, IfSome, IfNone, OnOk, OnSome};
ghost use Rattle.std.specs.Bool.{OnTrue, OnFalse};
ghost use Rattle.std.specs.Char.{is_ascii_uppercase};
ghost use Rattle.std.specs.List.{list_all};
ghost use Rattle.std.specs.Option.{is_none};
ghost use Rattle.idna.specs.Validity.{is_all_ascii};
ghost use Rattle.idn_text.specs.Points.{AreScalarValues, utf8_of};
ghost use Rattle.idn_label.specs.Answers.{Gives, and_then};
ghost use Rattle.idn_label.specs.Memory.{RegistersWithoutMemory, StandsWithoutMemory};
ghost use Rattle.idn_label.specs.OldNames.{before_mark, has_mark, is_old_point, old_answer, old_fault, old_utf8_fault};
ghost use Rattle.idn_label.specs.OldNames.{stands_for};
ghost use Rattle.idn_label.specs.OldNames.{GivesInZone, unless_refused, zone_in_utf8, zone_utf8_answer};
ghost use Rattle.idn_label.specs.Register.{register_answer, register_utf8_answer};

use crate::code_points::read_points;
use crate::first_fault::encoded;
use crate::registration::{put, register_utf8};
use crate::u_label::{code_of, lowercase_of};
use crate::unit::{Unit, has_ace_prefix, is_all_ascii, is_ldh, is_ldh_point};
use idn_class::{MAX_LABEL_LEN, Properties};
use idn_punycode::DecodedLabel;
use idn_text::{MAX_LINE_LEN, Refusal, put_points};
use std::alloc::Global;

/// The most octets of a label in UTF-8 (RFC 3629): four for each code point.
pub const MAX_U_LABEL_LEN: usize = 4 * MAX_LABEL_LEN;

/// What stands after an old label on its line: a tab and `old`.
pub const MARK: &[u8; 4] = b"\told";

/// How a label of a zone stands by the rules of registration.
#[derive(Clone, Copy, Debug, PartialEq, Eq)]
pub enum Standing {
    /// It may be registered.
    Registrable,
    /// It may not be registered, but may have been under other rules.
    Old,
}

/// Writes into `room` the UTF-8 (RFC 3629) of a label of a zone, and returns how many octets these are and how the
/// label stands: what may be registered, or the A-label of it, is answered as `register_utf8` tells it, by what it
/// stands for. Else it is in ASCII, its capitals become small, and then it is the name of a label that may be
/// registered or of an old one, or it is refused as `register_utf8` refuses it. Other bytes are refused as `NotUtf8`.
/// Where it is refused, what is left in `room` says nothing. There must be room for 252 octets. No memory is taken
/// where `register_utf8` takes none for the label as it stands, nor, if it is in ASCII, for the same in small letters.
/// `points` and `u_label` are room for the work: what stood there before says nothing.
pub fn zone_label_utf8(
    alloc: Global,
    line: &[u8],
    points: &mut [u32; MAX_LINE_LEN],
    u_label: &mut DecodedLabel,
    room: &mut [u8],
    properties: Properties,
) -> Result<(usize, Standing), Refusal>
    requires short { length line.now ≤ MAX_LINE_LEN }
    requires room { MAX_U_LABEL_LEN ≤ length room.old }
    ensures answer { GivesInZone (λ len. take len room.new) result (zone_utf8_answer properties line.now) }
    ensures short { IfOk result (λ found. found.0 ≤ MAX_U_LABEL_LEN) }
    ensures length { length room.new ≡ length room.old }
    ensures no_memory { StandsWithoutMemory (chars line.now) → result ≢ Err Refusal.Memory }
{
    let refusal = match u_label_utf8(alloc, line, points, u_label, room, properties) {
        Ok(len) => return Ok((len, Standing::Registrable)),
        Err(refusal) => refusal,
    };
    unless_memory(refusal)?;
    if !is_all_ascii(line) {
        return Err(refusal);
    }
    let name = lowercase_of(line);
    named_label_utf8(
        alloc,
        name.as_slice(),
        refusal,
        points,
        u_label,
        room,
        properties,
    )
}

/// Writes into `room` the UTF-8 of what a name in lower case stands for, and returns how many octets these are and how
/// that label stands. If it is neither one that may be registered nor an old one, it is refused by this refusal.
fn named_label_utf8(
    alloc: Global,
    name: &[u8],
    refusal: Refusal,
    points: &mut [u32; MAX_LINE_LEN],
    u_label: &mut DecodedLabel,
    room: &mut [u8],
    properties: Properties,
) -> Result<(usize, Standing), Refusal>
    requires short { length name.now ≤ MAX_LINE_LEN }
    requires ascii { is_all_ascii name.now ≡ true }
    requires lower { list_all (λ c. not (is_ascii_uppercase c)) name.now ≡ true }
    requires room { MAX_U_LABEL_LEN ≤ length room.old }
    ensures answer { GivesInZone (λ len. take len room.new) result (zone_in_utf8
        (unless_refused name.now (register_answer properties name.now) (old_answer name.now refusal))) }
    ensures short { IfOk result (λ found. found.0 ≤ MAX_U_LABEL_LEN) }
    ensures length { length room.new ≡ length room.old }
    ensures no_memory { RegistersWithoutMemory (chars name.now) → refusal ≢ Refusal.Memory →
        result ≢ Err Refusal.Memory }
{
    match u_label_utf8(alloc, name, points, u_label, room, properties) {
        Ok(len) => return Ok((len, Standing::Registrable)),
        Err(other) => unless_memory(other)?,
    }
    match old_label_utf8(name, u_label, room) {
        Some(len) => Ok((len, Standing::Old)),
        None => Err(refusal),
    }
}

/// That a refusal says something of what is refused.
fn unless_memory(refusal: Refusal) -> Result<(), Refusal>
    ensures told { OnOk result (refusal ≢ Refusal.Memory) }
    ensures memory { IfErr result (λ other. (other ≡ Refusal.Memory) × (refusal ≡ Refusal.Memory)) }
{
    match refusal {
        Refusal::Memory => Err(Refusal::Memory),
        _ => Ok(()),
    }
}

/// Writes into `room` the UTF-8 of what a label that may be registered, or its A-label, stands for, and returns how
/// many octets these are. It refuses as `register_utf8` does.
fn u_label_utf8(
    alloc: Global,
    label: &[u8],
    points: &mut [u32; MAX_LINE_LEN],
    u_label: &mut DecodedLabel,
    room: &mut [u8],
    properties: Properties,
) -> Result<usize, Refusal>
    requires short { length label.now ≤ MAX_LINE_LEN }
    requires room { MAX_U_LABEL_LEN ≤ length room.old }
    ensures answer { Gives (λ len. take len room.new) result
        (and_then (register_utf8_answer properties label.now)
        (λ a_label. Ok (utf8_of (stands_for (chars label.now))))) }
    ensures short { IfOk result (λ len. len ≤ MAX_U_LABEL_LEN) }
    ensures length { length room.new ≡ length room.old }
    ensures no_memory { RegistersWithoutMemory (chars label.now) → result ≢ Err Refusal.Memory }
{
    register_utf8(alloc, label, points, u_label, room, properties)?;
    if has_ace_prefix(label) {
        Ok(put_points(u_label.as_slice(), room, 0))
    } else {
        Ok(put(label, room))
    }
}

/// Writes into `room` the UTF-8 of what a name in lower case stands for, if that is an old label, and returns how many
/// octets these are.
fn old_label_utf8(name: &[u8], label: &mut DecodedLabel, room: &mut [u8]) -> Option<usize>
    requires ascii { is_all_ascii name.now ≡ true }
    requires lower { list_all (λ c. not (is_ascii_uppercase c)) name.now ≡ true }
    requires room { MAX_U_LABEL_LEN ≤ length room.old }
    ensures old { OnSome result (old_fault (stands_for name.now) ≡ None) }
    ensures written { IfSome result (λ len. take len room.new ≡ utf8_of (stands_for name.now)) }
    ensures short { IfSome result (λ len. len ≤ MAX_U_LABEL_LEN) }
    ensures other { IfNone result (is_none (old_fault (stands_for name.now)) ≡ false) }
    ensures length { length room.new ≡ length room.old }
{
    if name.is_empty() || name.len() > MAX_LABEL_LEN {
        return None;
    }
    if names_another(name, label) {
        if !are_old_points(label.as_slice()) {
            return None;
        }
        return Some(put_points(label.as_slice(), room, 0));
    }
    if !is_ldh(name) {
        return None;
    }
    Some(put(name, room))
}

/// What stands before the mark of an old label, if the body of a line ends in it.
#[inline]
pub fn before_mark(body: &[u8]) -> Option<&[u8]>
    ensures marked { IfSome result (λ label. (has_mark body.now ≡ true) × (label.now ≡ before_mark body.now)) }
    ensures other { IfNone result (has_mark body.now ≡ false) }
{
    body.strip_suffix(MARK)
}

/// Returns the first fault of a label in UTF-8 (RFC 3629) that is to be an old one: no code point; of ASCII other than
/// lower-case letters, digits and hyphens; more than 63 code points, or a name of more than 63 octets in the zone; or
/// the name of another label. Other bytes are refused as `NotUtf8`. Takes no memory. `room` is room for the work: what
/// stood there before says nothing.
pub fn test_old_utf8(label: &[u8], room: &mut [u32; MAX_LINE_LEN]) -> Result<(), Refusal>
    requires short { length label.now ≤ MAX_LINE_LEN }
    ensures passes { OnOk result (old_utf8_fault label.now ≡ None) }
    ensures fault { IfErr result (λ refusal. old_utf8_fault label.now ≡ Some refusal) }
    ensures no_memory { result ≢ Err Refusal.Memory }
{
    let Some((count, _)) = read_points(label, room) else {
        return Err(Refusal::NotUtf8);
    };
    check_old(&room[..count])
}

/// Returns the first fault of a label that is to be an old one.
fn check_old(label: &[u32]) -> Result<(), Refusal>
    requires { AreScalarValues label.now }
    ensures passes { OnOk result (old_fault label.now ≡ None) }
    ensures fault { IfErr result (λ refusal. old_fault label.now ≡ Some refusal) }
    ensures no_memory { result ≢ Err Refusal.Memory }
{
    if label.is_empty() {
        return Err(Refusal::Empty);
    }
    if !are_old_points(label) {
        return Err(Refusal::Disallowed);
    }
    if !is_all_ascii(label) {
        // Punycode of scalar values is decoded to them.
        return match encoded(label) {
            Some(_) => Ok(()),
            None => Err(Refusal::LabelTooLong),
        };
    }
    if label.len() > MAX_LABEL_LEN {
        return Err(Refusal::LabelTooLong);
    }
    if names_another(label, &mut DecodedLabel::new()) {
        return Err(Refusal::Hyphen);
    }
    Ok(())
}

/// Whether each code point is one that an old label may have.
fn are_old_points(label: &[u32]) -> bool
    ensures { result ≡ list_all is_old_point label.now }
{
    label.iter().all(|c| is_old_point(*c))
}

/// Of ASCII a lower-case letter, a digit or the hyphen, or any code point past ASCII.
fn is_old_point(c: u32) -> bool
    ensures { result ≡ is_old_point c }
{
    is_ldh_point(c) || c >= 128
}

/// Whether a name without capitals stands for another label than itself, which is then left in `label` and isn't all
/// ASCII.
fn names_another<U: Unit>(name: &[U], label: &mut DecodedLabel) -> bool
    requires lower { list_all (λ c. not (is_ascii_uppercase c)) (U.codes name.now) ≡ true }
    requires short { length name.now ≤ 63 }
    ensures another { OnTrue result (stands_for (U.codes name.now) ≡ label.new) }
    ensures past_ascii { OnTrue result (is_all_ascii label.new ≡ false) }
    ensures scalar_values { OnTrue result (AreScalarValues label.new) }
    ensures itself { OnFalse result (stands_for (U.codes name.now) ≡ U.codes name.now) }
{
    if !has_ace_prefix(name) {
        return false;
    }
    let Ok(_) = label.decode(code_of(name)) else {
        return false;
    };
    // The name of a label in ASCII is that label.
    !is_all_ascii(label.as_slice())
}
