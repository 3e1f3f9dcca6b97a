//! One look at the octets of a text: whether they are UTF-8 (RFC 3629), and whether they tell that none of its
//! characters is R, AL or AN.
ghost use Rattle.std.specs.Prelude.{◌≡◌, ◌<◌, ◌≤◌, ◌+◌, true, drop, length, map, slice_range};
ghost use Rattle.std.specs.Prelude.{IsTrue, IsUtf8, IfErr, IfNone, IfOk, IfSome, OnErr, OnOk};
ghost use Rattle.std.specs.Str.{IsAscii};
ghost use Rattle.std.specs.Simd.Lanes.{mask_l};
ghost use Rattle.idn_label.specs.inner.Octets.{Describes, IsFirstPastAscii, IsLeftToRightCharacter};
ghost use Rattle.idn_label.specs.inner.Octets.{are_left_to_right_three, are_left_to_right_two, is_past_ascii};

use crate::full_stops::CHUNK_LEN;
use idn_text::Refusal;
use std::simd::prelude::*;
use std::str;

/// How many octets are read at once of a text that is shorter than a chunk.
const SHORT_CHUNK_LEN: usize = 8;

/// What the octets of a text in UTF-8 tell of its characters.
#[derive(Clone, Copy, PartialEq, Eq)]
pub(crate) enum Characters {
    /// All of them are ASCII.
    Ascii,
    /// None of them is R, AL or AN.
    LeftToRight,
    /// No more than that they are characters.
    Any,
}

/// What the characters of a text are, or that it is no UTF-8: one walk over its octets tells both.
#[inline]
pub(crate) fn characters_of(text: &[u8]) -> Result<Characters, Refusal>
    ensures utf8 { OnOk result (IsUtf8 text.now) }
    ensures described { IfOk result (λ characters. Describes characters text.now) }
    ensures other { OnErr result (¬ (IsUtf8 text.now)) }
    ensures refusal { IfErr result (λ refusal. refusal ≡ Refusal.NotUtf8) }
{
    match first_past_ascii(text, 0) {
        None => Ok(Characters::Ascii),
        Some(start) => characters_past_ascii(text, start),
    }
}

/// The same of a text that is ASCII up to a place.
// Not inlined: most texts are ASCII, and need not its room.
#[inline(never)]
fn characters_past_ascii(text: &[u8], start: usize) -> Result<Characters, Refusal>
    requires { IsFirstPastAscii text.now 0 start }
    ensures utf8 { OnOk result (IsUtf8 text.now) }
    ensures described { IfOk result (λ characters. Describes characters text.now) }
    ensures other { OnErr result (¬ (IsUtf8 text.now)) }
    ensures refusal { IfErr result (λ refusal. refusal ≡ Refusal.NotUtf8) }
{
    let mut at = start;
    while at < text.len() {
        if text[at] < 0x80 {
            let Some(next) = first_past_ascii(text, at) else {
                return Ok(Characters::LeftToRight);
            };
            at = next;
        } else if let Some(end) = left_to_right_end(text, at) {
            at = end;
        } else {
            return match str::from_utf8(&text[at..]) {
                Ok(_) => Ok(Characters::Any),
                Err(_) => Err(Refusal::NotUtf8),
            };
        }
    }
    Ok(Characters::LeftToRight)
}

/// The end of the character past ASCII at a place, if its octets tell that it is none of R, AL and AN.
#[inline(always)]
fn left_to_right_end(text: &[u8], at: usize) -> Option<usize>
    requires { at < length text.now }
    ensures { IfSome result (IsLeftToRightCharacter text.now at) }
{
    let first = text[at];
    if first < 0xE0 {
        let second = *text.get(at + 1)?;
        if are_left_to_right_two(first, second) {
            Some(at + 2)
        } else {
            None
        }
    } else {
        let third = *text.get(at + 2)?;
        if are_left_to_right_three(first, text[at + 1], third) {
            Some(at + 3)
        } else {
            None
        }
    }
}

/// Whether two octets are the UTF-8 of a character past ASCII that stands before Hebrew.
#[inline]
fn are_left_to_right_two(first: u8, second: u8) -> bool
    ensures { IsTrue result → are_left_to_right_two first second ≡ true }
{
    matches!(
        (first, second),
        (0xC2..=0xD5, 0x80..=0xBF) | (0xD6, 0x80..=0x8F)
    )
}

/// Whether three octets are the UTF-8 of a character from Devanagari on and before the surrogates, but for U+200F.
#[inline]
fn are_left_to_right_three(first: u8, second: u8, third: u8) -> bool
    ensures { IsTrue result → are_left_to_right_three first second third ≡ true }
{
    matches!(
        (first, second, third),
        (0xE1 | 0xE3..=0xEC, 0x80..=0xBF, 0x80..=0xBF)
            | (0xE0, 0xA4..=0xBF, 0x80..=0xBF)
            | (0xE2, 0x80, 0x80..=0x8E)
            | (0xE2, 0x81..=0xBF, 0x80..=0xBF)
            | (0xED, 0x80..=0x9F, 0x80..=0xBF)
    )
}

/// The place of the first octet from `start` on that is no ASCII.
#[inline]
fn first_past_ascii(text: &[u8], start: usize) -> Option<usize>
    requires { start ≤ length text.now }
    ensures found { IfSome result (IsFirstPastAscii text.now start) }
    ensures none { IfNone result (IsAscii (drop start text.now)) }
{
    if text.len() >= CHUNK_LEN {
        first_in_chunks::<CHUNK_LEN>(text, start)
    } else if text.len() >= SHORT_CHUNK_LEN {
        first_in_chunks::<SHORT_CHUNK_LEN>(text, start)
    } else {
        first_in_few(text, start)
    }
}

/// The same of a text of `N` octets or more, so that a whole chunk can always be read.
#[inline(always)]
fn first_in_chunks<const N: usize>(text: &[u8], start: usize) -> Option<usize>
    requires begins { start ≤ length text.now }
    requires wide { N ≤ length text.now }
    requires some { 0 < N }
    requires few { N < 64 }
    ensures found { IfSome result (IsFirstPastAscii text.now start) }
    ensures none { IfNone result (IsAscii (drop start text.now)) }
{
    let mut at = start;
    while text.len() - at >= N {
        let others = octets_past_ascii::<N>(text, at);
        if others != 0 {
            return Some(at + others.trailing_zeros() as usize);
        }
        at += N;
    }
    // The last chunk is that of the last octets, also where some of these stand before `at`.
    let last = text.len() - N;
    let others = octets_past_ascii::<N>(text, last) >> (at - last);
    if others == 0 {
        return None;
    }
    Some(at + others.trailing_zeros() as usize)
}

/// By a bit each, which of `N` octets from a place on are no ASCII.
#[inline(always)]
fn octets_past_ascii<const N: usize>(text: &[u8], at: usize) -> u64
    requires within { at + N ≤ length text.now }
    requires few { N < 64 }
    ensures { result ≡ mask_l (map is_past_ascii (slice_range text.now at (at + N))) }
{
    let octets = Simd::<u8, N>::from_slice(&text[at..]);
    octets.simd_ge(Simd::splat(0x80)).to_bitmask()
}

/// The same of a short text, octet by octet.
fn first_in_few(text: &[u8], start: usize) -> Option<usize>
    requires { start ≤ length text.now }
    ensures found { IfSome result (IsFirstPastAscii text.now start) }
    ensures none { IfNone result (IsAscii (drop start text.now)) }
{
    for at in start..text.len() {
        if text[at] >= 0x80 {
            return Some(at);
        }
    }
    None
}
