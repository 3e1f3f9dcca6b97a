//! What two labels share at their start.
ghost use Rattle.std.specs.Prelude.{◌≡◌, ◌≤◌, length, take};
ghost use Rattle.idn_class.specs.Shared.{IsLongestShared};

use std::simd::prelude::*;

/// How many code points are compared at once.
const CHUNK_LEN: usize = 8;

/// How many code points two labels share at their start.
pub fn shared_len(a: &[u32], b: &[u32]) -> usize
    ensures same { take result a.now ≡ take result b.now }
    ensures within_a { result ≤ length a.now }
    ensures within_b { result ≤ length b.now }
    ensures longest { IsLongestShared a.now b.now result }
{
    let len = a.len().min(b.len());
    let mut at = 0;
    while len - at >= CHUNK_LEN {
        let others = u32x8::from_slice(&a[at..])
            .simd_ne(u32x8::from_slice(&b[at..]))
            .to_bitmask();
        if others != 0 {
            return at + others.trailing_zeros() as usize;
        }
        at += CHUNK_LEN;
    }
    while at < len && a[at] == b[at] {
        at += 1;
    }
    at
}
