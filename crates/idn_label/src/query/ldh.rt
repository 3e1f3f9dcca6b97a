//! Names of letters, digits and hyphens of ASCII (LDH, RFC 5890 section 2.3.1). Most names are such, and their lookup
//! takes no memory and one pass.
ghost use Rattle.std.specs.Prelude.{◌≡◌, ◌≢◌, ◌<◌, ◌≤◌, ◌+◌, ◌-◌};
ghost use Rattle.std.specs.Prelude.{◌++◌, ◌↔◌, Bool, not, true, length, map, take};
ghost use Rattle.std.specs.Prelude.{replicate, slice_range, Err, IfOk, IfSome, IsSome};
ghost use Rattle.std.specs.Char.{to_ascii_lowercase};
ghost use Rattle.std.specs.List.{AllWithin};
ghost use Rattle.std.specs.Simd.Lanes.{mask_l};
ghost use Rattle.idna.specs.Labels.{is_full_stop};
ghost use Rattle.idn_label.specs.Answers.{Gives};
ghost use Rattle.idn_label.specs.Lookup.{utf8_answer};
ghost use Rattle.idn_label.specs.LdhNames.{IsLdhName, is_name_point};
ghost use Rattle.idn_label.specs.Steps.{lowercase};

use crate::full_stops::CHUNK_LEN;
use crate::query::lengths::{MAX_QUERY_LEN, has_label_length, may_end};
use crate::unit::has_ace_prefix_in_any_case;
use idn_text::Refusal;
use std::simd::prelude::*;

/// Half of the octets that are read at once.
const HALF_LEN: usize = 8;

/// Writes into `room` what `lookup_utf8` answers of such a name, the name in lower case, and returns its length; or
/// `LookupLength`. `None` says nothing of the name, and another way then gives the answer: an octet is no ASCII letter,
/// digit, hyphen or full stop, a label begins with `xn--` in any ASCII case, or the name is too long for any query.
#[tactic(auto, using(crate::proofs::LdhNames::cut_nothing))]
pub(crate) fn ldh_query(name: &[u8], room: &mut [u8]) -> Option<Result<usize, Refusal>>
    requires { MAX_QUERY_LEN ≤ length room.old }
    ensures answer { IfSome result (λ answer. (std3 : Bool) →
        Gives (λ len. take len room.new) answer (utf8_answer name.now std3)) }
    ensures short { IfSome result (λ answer. IfOk answer (λ len. len ≤ 254)) }
    ensures no_memory { IfSome result (λ answer. answer ≢ Err Refusal.Memory) }
    ensures told { IsLdhName name.now → IsSome result }
    ensures length { length room.new ≡ length room.old }
{
    if name.len() > MAX_QUERY_LEN {
        return None;
    }
    // Where the label begins to which the next octet belongs, and whether all labels before it have 1 to 63 octets.
    let mut start = 0;
    let mut have_lengths = true;
    let mut at = 0;
    'chunks: while at < name.len() {
        let end = name.len().min(at + CHUNK_LEN);
        // A bit for each octet from `at` on: whether it is a full stop.
        let mut stops = lowercase_chunk(name, at, end, room)?;
        'labels: while stops != 0 {
            let count = stops.trailing_zeros() as usize;
            let stop = at + count;
            // The octets after the label are asked too, which never change the answer: whether a label has four can't
            // be foretold, but hardly one has a hyphen third.
            if has_ace_prefix_in_any_case(&name[start..]) {
                return None;
            }
            have_lengths &= has_label_length(start, stop);
            start = stop + 1;
            at = start;
            stops = stops >> count >> 1;
        }
        at = end;
    }
    if has_ace_prefix_in_any_case(&name[start..]) {
        return None;
    }
    if have_lengths & may_end(start, name.len()) {
        Some(Ok(name.len()))
    } else {
        Some(Err(Refusal::LookupLength))
    }
}

/// Writes the octets of a name from `at` to `end`, at most 16, in lower case into the same places of `room`, where
/// those before them stand, and tells the full stops among them by a bit each; or `None`, where one is no ASCII letter,
/// digit, hyphen or full stop. What stood in `room` after them may be lost.
#[inline(always)]
fn lowercase_chunk(name: &[u8], at: usize, end: usize, room: &mut [u8]) -> Option<u64>
    requires order { at ≤ end }
    requires within { end ≤ length name.now }
    requires few { end ≤ at + CHUNK_LEN }
    requires room { length name.now ≤ length room.old }
    requires wide { CHUNK_LEN ≤ length room.old }
    requires begun { take at room.old ≡ take at (lowercase name.now) }
    ensures lower { IfSome result (λ _. take end room.new ≡ take end (lowercase name.now)) }
    ensures stops { IfSome result (λ stops.
        stops ≡ mask_l (map is_full_stop (slice_range (lowercase name.now) at end))) }
    ensures points { IsSome result
        ↔ AllWithin (λ c. is_name_point (to_ascii_lowercase c) ≡ true) name.now (end - CHUNK_LEN) end }
{
    let (lower, stops, others) = lowercase_lanes(lanes_before(name, end));
    if others != 0 {
        return None;
    }
    let start = end.saturating_sub(CHUNK_LEN);
    lower.copy_to_slice(&mut room[start..]);
    // Octets before `at` were told by an earlier chunk.
    Some(stops >> (at - start))
}

/// The 16 octets of a name before `end`. Where there are fewer, letters stand after them: most short names have eight
/// octets or more, and these are copied by two moves of eight, which overlap, since a copy of a length that can't be
/// foretold takes far longer.
#[inline(always)]
fn lanes_before(name: &[u8], end: usize) -> u8x16
    requires { end ≤ length name.now }
    ensures { result ≡ slice_range name.now (end - CHUNK_LEN) end ++ replicate (CHUNK_LEN - end) 97 }
{
    if end >= CHUNK_LEN {
        return u8x16::from_slice(&name[end - CHUNK_LEN..end]);
    }
    let mut octets = [b'a'; CHUNK_LEN];
    if end < HALF_LEN {
        octets[..end].copy_from_slice(&name[..end]);
    } else {
        octets[..HALF_LEN].copy_from_slice(&name[..HALF_LEN]);
        octets[end - HALF_LEN..end].copy_from_slice(&name[end - HALF_LEN..end]);
    }
    u8x16::from_array(octets)
}

/// By a bit each, the full stops among octets and those that are no ASCII letters, digits, hyphens or full stops; and,
/// if there are none of these, the octets in lower case: each but a capital has the bit that makes a letter lower-case.
#[inline(always)]
fn lowercase_lanes(octets: u8x16) -> (u8x16, u64, u64)
    ensures lower { result.2 ≡ 0 → result.0 ≡ lowercase octets }
    ensures stops { result.1 ≡ mask_l (map is_full_stop (lowercase octets)) }
    ensures others { result.2 ≡ mask_l (map (λ c. not (is_name_point (to_ascii_lowercase c))) octets) }
{
    let lower = octets | u8x16::splat(0x20);
    let are_no_letters = (lower - u8x16::splat(b'a')).simd_ge(u8x16::splat(26));
    // From the hyphen to the nine lie the full stop, the slash and the digits.
    let are_others = (octets - u8x16::splat(b'-')).simd_ge(u8x16::splat(13))
        | octets.simd_eq(u8x16::splat(b'/'));
    let stops = octets.simd_eq(u8x16::splat(b'.'));
    (
        lower,
        stops.to_bitmask(),
        (are_no_letters & are_others).to_bitmask(),
    )
}
