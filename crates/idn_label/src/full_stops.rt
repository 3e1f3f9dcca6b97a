//! The search for the full stop after a label of a name.
ghost use Rattle.std.specs.Prelude.{◌≤◌, length};
ghost use Rattle.idn_label.specs.LabelEnds.{EndsLabel};

use crate::unit::{FULL_STOP, Unit};
use std::simd::prelude::*;

/// How many octets are read at once.
pub(crate) const CHUNK_LEN: usize = 16;

/// The place where the label that begins at `start` ends: at the first full stop from there on, or with the name.
#[inline]
pub fn label_end<U: Unit>(name: &[U], start: usize) -> usize
    requires { start ≤ length name.now }
    ensures { EndsLabel (U.codes name.now) start result }
{
    if name.len() >= CHUNK_LEN {
        if let Some(octets) = U::as_octets(name) {
            return end_in_octets(octets, start);
        }
    }
    for at in start..name.len() {
        if name[at].code_point() == FULL_STOP {
            return at;
        }
    }
    name.len()
}

/// The place where the label that begins at `start` ends, in a name of 16 octets or more, so that a whole chunk can
/// always be read. How many of them a label has can't be foretold: they are searched in chunks, which takes few turns.
fn end_in_octets(name: &[u8], start: usize) -> usize
    requires begins { start ≤ length name.now }
    requires wide { CHUNK_LEN ≤ length name.now }
    ensures { EndsLabel name.now start result }
{
    let mut at = start;
    while at < name.len() {
        // The last chunk is that of the last octets, also where some of these stand before `at`.
        let from = at.min(name.len() - CHUNK_LEN);
        let octets = u8x16::from_slice(&name[from..]);
        let stops = octets.simd_eq(u8x16::splat(b'.')).to_bitmask() >> (at - from);
        if stops != 0 {
            return at + stops.trailing_zeros() as usize;
        }
        at = from + CHUNK_LEN;
    }
    name.len()
}
