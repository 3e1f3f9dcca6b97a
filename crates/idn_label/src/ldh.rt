//! Lower-case letters, digits and hyphens of ASCII (LDH, RFC 5890 section 2.3.1) in octets, many at once.
ghost use Rattle.std.specs.Prelude.{◌≡◌, ◌≤◌, length, map, not};
ghost use Rattle.std.specs.Simd.Lanes.{mask_l};
ghost use Rattle.idn_label.specs.LdhEnds.{IsLdhEnd};
ghost use Rattle.idn_label.specs.Steps.{is_ldh_point};

use crate::full_stops::CHUNK_LEN;
use crate::unit::is_ldh_point;
use std::simd::prelude::*;

/// The place of the first octet from `start` on that is no lower-case letter, digit or hyphen of ASCII, or the text's
/// end. Where that is can't be foretold, so octets are looked at in chunks, which takes few turns.
#[inline]
pub fn ldh_end(text: &[u8], start: usize) -> usize
    requires { start ≤ length text.now }
    ensures { IsLdhEnd text.now start result }
{
    if text.len() < CHUNK_LEN {
        return ldh_end_in_few(text, start);
    }
    let mut at = start;
    while at < text.len() {
        // The last chunk is that of the last octets, also where some of these stand before `at`.
        let from = at.min(text.len() - CHUNK_LEN);
        let others = others_of(u8x16::from_slice(&text[from..])) >> (at - from);
        if others != 0 {
            return at + others.trailing_zeros() as usize;
        }
        at = from + CHUNK_LEN;
    }
    text.len()
}

/// The place of the first octet from `start` on that is no lower-case letter, digit or hyphen of ASCII, or the text's
/// end: found octet by octet.
fn ldh_end_in_few(text: &[u8], start: usize) -> usize
    requires { start ≤ length text.now }
    ensures { IsLdhEnd text.now start result }
{
    for at in start..text.len() {
        if !is_ldh_point(u32::from(text[at])) {
            return at;
        }
    }
    text.len()
}

/// By a bit each, the octets that are no lower-case letters, digits or hyphens.
#[inline(always)]
fn others_of(octets: u8x16) -> u64
    ensures { result ≡ mask_l (map (λ c. not (is_ldh_point c)) octets) }
{
    let are_no_letters = (octets - u8x16::splat(b'a')).simd_ge(u8x16::splat(26));
    let are_no_digits = (octets - u8x16::splat(b'0')).simd_ge(u8x16::splat(10));
    let are_no_hyphens = (octets - u8x16::splat(b'-')).simd_ge(u8x16::splat(1));
    (are_no_letters & are_no_digits & are_no_hyphens).to_bitmask()
}
