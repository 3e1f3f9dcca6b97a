//! The Bidi rule of a whole name (RFC 5893, section 2): if one of its labels holds R, AL or AN, all of them meet it.
ghost use Rattle.std.specs.Prelude.{◌≡◌, ◌≢◌, ◌<◌, ◌≤◌, ◌-◌, chars, drop, true, false, length, slice_index};
ghost use Rattle.std.specs.Prelude.{IsTrue, IsUtf8, IfNone, IfSome};
ghost use Rattle.std.specs.Int.{bit_at};
ghost use Rattle.std.specs.List.{list_all, list_any};
ghost use Rattle.ucd_bidi.specs.BidiClass.{bidi_class};
ghost use Rattle.idna.specs.BidiRule.{is_rtl, passes_bidi_rule};
ghost use Rattle.idna.specs.Labels.{labels_of};
ghost use Rattle.idna.specs.Validity.{passes_bidi};
ghost use Rattle.idn_label.specs.Decode.{name_fault};
ghost use Rattle.idn_label.specs.inner.BidiNames.{EachPassesIfRtl, PassesIfRtl, begins_rtl};
ghost use Rattle.idn_label.specs.inner.BidiNames.{EndsPassing, MeetsRule, TellsCharacters};
ghost use Rattle.idn_label.specs.inner.BidiNames.{are_character, is_lowercase, is_rtl_letter, is_rtl_letter_or_mark};
ghost use Rattle.idn_label.specs.inner.Octets.{is_tail, tell_left_to_right};

use crate::bidi::passes_bidi_rule;
use crate::full_stops::label_end;
use crate::ldh::ldh_end;
use crate::octets::Characters;
use arrayvec::ArrayVec;
use idn_class::{Fact, Facts, Properties};
use idn_text::{MAX_LINE_LEN, Refusal, character_at};
use ucd_bidi::BidiClass;

/// What is decoded from a line has at most four octets for each of its own.
pub(crate) const MAX_DECODED_LEN: usize = 4096;

/// The most characters of a label that is read into a small room, which takes few instructions to clear. A U-label has
/// no more.
const SHORT_LEN: usize = 64;

/// The fault of a name in UTF-8 of which each label is decoded, by what the octets of the given name told, and by the
/// facts of what its A-labels stand for. What begins right-to-left, and did not so before, was an A-label, and has met
/// the rule by itself.
#[inline]
pub(crate) fn utf8_name_fault(
    name: &[u8],
    given: Characters,
    facts: Facts,
    properties: Properties,
) -> Option<Refusal>
    requires utf8 { IsUtf8 name.now }
    requires short { length name.now ≤ MAX_DECODED_LEN }
    requires left_to_right { tell_left_to_right given facts ≡ true →
        list_any (λ c. is_rtl (bidi_class c)) (chars name.now) ≡ false }
    requires tested { properties ≡ Properties.Unicode → given ≢ Characters.Any →
        EachPassesIfRtl (chars name.now) }
    ensures { result ≡ name_fault properties (labels_of (chars name.now)) }
{
    match properties {
        Properties::Profile => None,
        Properties::Unicode if tell_left_to_right(given, facts) => None,
        Properties::Unicode if passes_in_utf8(name, !matches!(given, Characters::Any)) => None,
        Properties::Unicode => Some(Refusal::Bidi),
    }
}

/// Whether nothing in a name is R, AL or AN once it is decoded.
#[inline]
fn tell_left_to_right(given: Characters, facts: Facts) -> bool
    ensures { result ≡ tell_left_to_right given facts }
{
    match given {
        Characters::Ascii | Characters::LeftToRight => !facts.contains(Fact::RightToLeft),
        Characters::Any => false,
    }
}

/// The same of numbers.
pub fn name_fault(name: &[u32], properties: Properties) -> Option<Refusal>
    requires { length name.now ≤ MAX_LINE_LEN }
    ensures { result ≡ name_fault properties (labels_of name.now) }
{
    match properties {
        Properties::Profile => None,
        Properties::Unicode if passes_in_numbers(name) => None,
        Properties::Unicode => Some(Refusal::Bidi),
    }
}

/// Whether the labels of a name in UTF-8 pass together. Most names of which this is asked hold R, AL or AN, so each
/// label is asked first.
#[inline(never)]
fn passes_in_utf8(name: &[u8], are_rtl_tested: bool) -> bool
    requires utf8 { IsUtf8 name.now }
    requires short { length name.now ≤ MAX_DECODED_LEN }
    requires tested { are_rtl_tested ≡ true → EachPassesIfRtl (chars name.now) }
    ensures { result ≡ passes_bidi (labels_of (chars name.now)) }
{
    each_utf8_label_passes(name, are_rtl_tested) || !holds_rtl_in_utf8(name)
}

/// Whether a character of a name in UTF-8 is R, AL or AN.
fn holds_rtl_in_utf8(name: &[u8]) -> bool
    requires { IsUtf8 name.now }
    ensures { result ≡ list_any (λ c. is_rtl (bidi_class c)) (chars name.now) }
{
    let mut at = 0;
    while at < name.len() {
        let Some((c, next)) = character_at(name, at) else {
            unreachable!()
        };
        if is_rtl(c) {
            return true;
        }
        at = next;
    }
    false
}

/// Whether each label of a name in UTF-8 meets the rule.
fn each_utf8_label_passes(name: &[u8], are_rtl_tested: bool) -> bool
    requires utf8 { IsUtf8 name.now }
    requires short { length name.now ≤ MAX_DECODED_LEN }
    requires tested { are_rtl_tested ≡ true → EachPassesIfRtl (chars name.now) }
    ensures { result ≡ list_all passes_bidi_rule (labels_of (chars name.now)) }
{
    let mut start = 0;
    'labels: loop {
        let Some(end) = passing_end(name, start, are_rtl_tested) else {
            return false;
        };
        if end == name.len() {
            return true;
        }
        start = end + 1;
    }
}

/// The place where the label that begins at `start` ends, if it meets the rule.
#[inline]
fn passing_end(name: &[u8], start: usize, are_rtl_tested: bool) -> Option<usize>
    requires begins { start ≤ length name.now }
    requires utf8 { IsUtf8 (drop start name.now) }
    requires short { length name.now ≤ MAX_DECODED_LEN }
    requires tested { are_rtl_tested ≡ true → EachPassesIfRtl (chars (drop start name.now)) }
    ensures passes { IfSome result (EndsPassing name.now start) }
    ensures fails { IfNone result (list_all passes_bidi_rule (labels_of (chars (drop start name.now))) ≡ false) }
{
    // Most labels are told octet by octet, as far as they go, and need not be searched for a full stop first.
    let told = told_end(name, start, are_rtl_tested);
    if told == name.len() || name[told] == b'.' {
        return Some(told);
    }
    let end = label_end(name, told);
    if utf8_label_passes(&name[start..end], are_rtl_tested) {
        Some(end)
    } else {
        None
    }
}

/// The end of what stands at the beginning of a label and meets the rule by its octets.
#[inline]
fn told_end(name: &[u8], start: usize, are_rtl_tested: bool) -> usize
    requires { start ≤ length name.now }
    ensures { MeetsRule name.now start result }
{
    if start < name.len() && is_lowercase(name[start]) {
        ldh_part_end(name, start)
    } else if are_rtl_tested {
        start
    } else {
        rtl_part_end(name, start)
    }
}

/// Whether a label in UTF-8 meets the rule.
#[inline]
fn utf8_label_passes(label: &[u8], are_rtl_tested: bool) -> bool
    requires utf8 { IsUtf8 label.now }
    requires short { length label.now ≤ MAX_DECODED_LEN }
    requires tested { are_rtl_tested ≡ true → PassesIfRtl (chars label.now) }
    ensures { result ≡ passes_bidi_rule (chars label.now) }
{
    if are_rtl_tested && begins_rtl(label) {
        return true;
    }
    read_label_passes(label)
}

/// The end of the lower-case letters, digits and hyphens of ASCII at a place where a letter stands, unless the last one
/// is a hyphen.
#[inline]
fn ldh_part_end(name: &[u8], start: usize) -> usize
    requires within { start < length name.now }
    requires letter { is_lowercase (slice_index name.now start) ≡ true }
    ensures { MeetsRule name.now start result }
{
    let end = ldh_end(name, start);
    if name[end - 1] == b'-' { start } else { end }
}

#[inline]
fn is_lowercase(octet: u8) -> bool
    ensures { result ≡ is_lowercase octet }
{
    matches!(octet, 0x61..=0x7A)
}

/// The end of the letters of Hebrew and Arabic with their marks, digits and hyphens of ASCII at a place, if a letter is
/// first: less the hyphens at its end. In what order letters and marks stand is no matter to the rule.
#[inline]
fn rtl_part_end(name: &[u8], start: usize) -> usize
    requires { start ≤ length name.now }
    ensures { MeetsRule name.now start result }
{
    let mut end = start;
    let mut at = start;
    'parts: loop {
        if at + 1 < name.len() && is_rtl_letter(name[at], name[at + 1]) {
            at += 2;
            while at + 1 < name.len() && is_rtl_letter_or_mark(name[at], name[at + 1]) {
                at += 2;
            }
            end = at;
        } else if at == start || at == name.len() {
            return end;
        } else if name[at].is_ascii_digit() {
            at += 1;
            end = at;
        } else if name[at] == b'-' {
            at += 1;
        } else {
            return end;
        }
    }
}

/// Whether two octets are a letter, R or AL, of those that are told by their octets.
#[inline]
fn is_rtl_letter(first: u8, second: u8) -> bool
    ensures { IsTrue result → are_character is_rtl_letter first second ≡ true }
{
    has_bit(rtl_letters(first), second)
}

/// Whether two octets are such a letter, or a nonspacing mark (NSM).
#[inline]
fn is_rtl_letter_or_mark(first: u8, second: u8) -> bool
    ensures { IsTrue result → are_character is_rtl_letter_or_mark first second ≡ true }
{
    has_bit(rtl_letters_and_marks(first), second)
}

/// Whether an octet is not the first of its character, and the character has its bit among those that begin as it does.
#[inline]
fn has_bit(bits: u64, second: u8) -> bool
    ensures tail { IsTrue result → is_tail second ≡ true }
    ensures bit { IsTrue result → bit_at bits (second - 0x80) ≡ 1 }
{
    matches!(second, 0x80..=0xBF) && bits >> u32::from(second - 0x80) & 1 == 1
}

/// The letters among the 64 characters of two octets that begin with this one, by a bit each: U+0590 to U+06FF.
#[inline]
fn rtl_letters(first: u8) -> u64
    ensures { TellsCharacters is_rtl_letter first result }
{
    match first {
        0xD6 => 0x4000_0000_0001_0000,
        0xD7 => 0xFFFF_FFFF_FFFF_FC49,
        0xD8 => 0xFFFF_FFFF_F800_2900,
        0xD9 => 0xFFFE_E000_0000_07FF,
        0xDA => 0xFFFF_FFFF_FFFF_FFFF,
        0xDB => 0xFC00_C060_003F_FFFF,
        _ => 0,
    }
}

/// The letters and the nonspacing marks among them.
#[inline]
fn rtl_letters_and_marks(first: u8) -> u64
    ensures { TellsCharacters is_rtl_letter_or_mark first result }
{
    match first {
        0xD6 => 0xFFFF_FFFF_FFFF_0000,
        0xD7 => 0xFFFF_FFFF_FFFF_FFFF,
        0xD8 => 0xFFFF_FFFF_FFFF_2900,
        0xD9 => 0xFFFF_E000_FFFF_FFFF,
        0xDA => 0xFFFF_FFFF_FFFF_FFFF,
        0xDB => 0xFC00_FDFF_9FFF_FFFF,
        _ => 0,
    }
}

/// Whether a label in UTF-8 begins with R, AL or AN.
#[inline]
fn begins_rtl(label: &[u8]) -> bool
    requires { IsUtf8 label.now }
    ensures { result ≡ begins_rtl (chars label.now) }
{
    if label.is_empty() {
        return false;
    }
    let Some((first, _)) = character_at(label, 0) else {
        unreachable!()
    };
    is_rtl(first)
}

/// Whether a label in UTF-8 meets the rule, character by character.
// Not inlined: most labels do not come here, and need not its room.
#[inline(never)]
fn read_label_passes(label: &[u8]) -> bool
    requires utf8 { IsUtf8 label.now }
    requires short { length label.now ≤ MAX_DECODED_LEN }
    ensures { result ≡ passes_bidi_rule (chars label.now) }
{
    let mut room: ArrayVec<char, SHORT_LEN> = ArrayVec::new();
    if read_characters(label, &mut room) {
        passes_bidi_rule(&room)
    } else {
        long_label_passes(label)
    }
}

/// The same of a label of any length.
// Not inlined: other labels need not its room.
#[inline(never)]
fn long_label_passes(label: &[u8]) -> bool
    requires utf8 { IsUtf8 label.now }
    requires short { length label.now ≤ MAX_DECODED_LEN }
    ensures { result ≡ passes_bidi_rule (chars label.now) }
{
    let mut room: ArrayVec<char, MAX_DECODED_LEN> = ArrayVec::new();
    read_characters(label, &mut room) && passes_bidi_rule(&room)
}

/// Leaves the characters of a label in UTF-8 in `room`, in place of what stood there, or says that they are too many.
fn read_characters<const LEN: usize>(label: &[u8], room: &mut ArrayVec<char, LEN>) -> bool
    requires { IsUtf8 label.now }
    ensures read { IsTrue result → room.new.items ≡ chars label.now }
    ensures fits { length label.now ≤ LEN → IsTrue result }
{
    room.clear();
    let mut at = 0;
    while at < label.len() {
        let Some((c, next)) = character_at(label, at) else {
            unreachable!()
        };
        if room.is_full() {
            return false;
        }
        room.push(c);
        at = next;
    }
    true
}

/// Whether the labels of a name pass together. A number that is no character has the class of a letter, L.
fn passes_in_numbers(name: &[u32]) -> bool
    requires { length name.now ≤ MAX_LINE_LEN }
    ensures { result ≡ passes_bidi (labels_of name.now) }
{
    let mut characters: ArrayVec<char, MAX_LINE_LEN> = ArrayVec::new();
    for c in name {
        characters.push(char::from_u32(*c).unwrap_or('a'));
    }
    passes_bidi(&characters)
}

/// Criterion 9 of UTS 46, section 4.1, of all labels of a name.
fn passes_bidi(name: &[char]) -> bool
    ensures { result ≡ passes_bidi (labels_of name.now) }
{
    !holds_rtl(name) || each_label_passes(name)
}

/// Whether a code point of a name is R, AL or AN.
fn holds_rtl(name: &[char]) -> bool
    ensures { result ≡ list_any (λ c. is_rtl (bidi_class c)) name.now }
{
    name.iter().any(|c| is_rtl(*c))
}

/// Whether a character is R, AL or AN.
#[inline]
fn is_rtl(c: char) -> bool
    ensures { result ≡ is_rtl (bidi_class c) }
{
    // None is before Hebrew, nor from Devanagari to the presentation forms but for one mark among the spaces. So most
    // characters need no look-up.
    if c < '\u{590}' {
        return false;
    }
    if c >= '\u{900}' && c <= '\u{200E}' {
        return false;
    }
    if c >= '\u{2010}' && c <= '\u{FB1C}' {
        return false;
    }
    matches!(
        BidiClass::for_char(c),
        BidiClass::RightToLeft | BidiClass::ArabicLetter | BidiClass::ArabicNumber
    )
}

/// Whether each label of a name meets the rule.
fn each_label_passes(name: &[char]) -> bool
    ensures { result ≡ list_all passes_bidi_rule (labels_of name.now) }
{
    let mut start = 0;
    'labels: loop {
        let end = label_end(name, start);
        if !passes_bidi_rule(&name[start..end]) {
            return false;
        }
        if end == name.len() {
            return true;
        }
        start = end + 1;
    }
}
