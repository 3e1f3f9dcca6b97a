//! The order of two lines, which is that of their bytes.
ghost use Rattle.std.specs.Prelude.{◌≡◌, ◌≢◌, ◌<◌, ◌≤◌, length, take, slice_index, IfSome};
ghost use Rattle.variant_list.specs.Labels.{label_cmp};

use std::cmp::Ordering;
use std::simd::prelude::*;

/// How many bytes are compared at once.
const CHUNK_LEN: usize = 16;

/// The order of what two texts begin with, so many bytes of each. Where they differ can't be foretold, so bytes after
/// these may be looked at, too. They change nothing.
#[inline]
pub(crate) fn order_of(one: &[u8], one_len: usize, other: &[u8], other_len: usize) -> Ordering
    requires one { one_len ≤ length one.now }
    requires other { other_len ≤ length other.now }
    ensures { result ≡ label_cmp (take one_len one.now) (take other_len other.now) }
{
    if let Some(at) = first_difference(one, other) {
        if at < one_len && at < other_len {
            return one[at].cmp(&other[at]);
        }
    }
    let (one, other) = (&one[..one_len], &other[..other_len]);
    one.cmp(&other)
}

/// The first place where two texts differ, if that is in a first chunk that both have.
#[inline]
fn first_difference(one: &[u8], other: &[u8]) -> Option<usize>
    ensures in_one { IfSome result (λ at. at < length one.now) }
    ensures in_other { IfSome result (λ at. at < length other.now) }
    ensures same { IfSome result (λ at. take at one.now ≡ take at other.now) }
    ensures differs { IfSome result (λ at. slice_index one.now at ≢ slice_index other.now at) }
{
    if one.len() < CHUNK_LEN || other.len() < CHUNK_LEN {
        return None;
    }
    let others = u8x16::from_slice(one)
        .simd_ne(u8x16::from_slice(other))
        .to_bitmask();
    if others == 0 {
        return None;
    }
    Some(others.trailing_zeros() as usize)
}
