//! What may be wrong with an entry by itself.
ghost use Rattle.std.specs.Prelude.{◌≡◌, ◌&&◌, ◌+◌, ◌<◌, ◌≤◌, ◌^◌, bytes_eq, find, length, not, slice_get, take};
ghost use Rattle.std.specs.Prelude.{Some, IfOk};
ghost use Rattle.std.specs.List.{range_with_len};
ghost use Rattle.ruleset_text.specs.Classes.{is_bad_point as is_bad};
ghost use Rattle.variant_table.specs.Conditions as conditions;
ghost use Rattle.variant_table.specs.Entries.{Variant, entry_from, full_replacements};

use crate::sequences::Sequences;
use idn_class::Properties;
use label_patterns::Condition;
use ruleset_text::is_bad_point;
use std::alloc::{AllocError, Global};

/// The first of `count` code points, from `first` on, that has a class that no table may hold.
pub fn first_bad(
    alloc: Global,
    first: u32,
    count: usize,
    properties: Properties,
) -> Result<Option<u32>, AllocError>
    requires { first + count ≤ 2 ^ 32 }
    ensures { IfOk result (λ found. found ≡ find (is_bad properties) (range_with_len first count)) }
{
    for offset in 0..count {
        let point = first + offset as u32;
        if is_bad_point(alloc, properties, point)? {
            return Ok(Some(point));
        }
    }
    Ok(None)
}

/// The number of the first variant that is given again: it is equal to the source, or to a variant before it, unless
/// both have a condition and the two conditions differ. The source has the number 0.
pub fn given_again(sequences: &Sequences) -> Option<usize>
    requires { 0 < length sequences.now }
    ensures { result ≡ conditions.given_again (entry_from sequences.now) }
{
    for number in 1..sequences.len() {
        if stands_before(sequences, number) {
            return Some(number);
        }
    }
    None
}

/// Whether the variant of this number is equal to the source or to a variant before it.
// Always inline, since it is asked for each variant.
#[inline(always)]
fn stands_before(sequences: &Sequences, number: usize) -> bool
    requires some { 0 < number }
    requires within { number < length sequences.now }
    ensures { (v : Variant) × (slice_get sequences.now number ≡ Some v) ×
        (result ≡ conditions.stands_in (take number (full_replacements (entry_from sequences.now))) v) }
{
    let wanted = sequences.get(number);
    if sequences.get(0) == wanted {
        return true;
    }
    let condition = sequences.condition(number);
    for other in 1..number {
        if is_again(sequences, other, wanted, condition) {
            return true;
        }
    }
    false
}

/// Whether the variant of this number has the sequence, unless both have a condition and the two conditions differ.
fn is_again(
    sequences: &Sequences,
    number: usize,
    wanted: &[u32],
    condition: Option<Condition>,
) -> bool
    requires { number < length sequences.now }
    ensures { (v : Variant) × (slice_get sequences.now number ≡ Some v) ×
        (result ≡ (bytes_eq v.sequence wanted.now && not (conditions.differ v.condition condition))) }
{
    sequences.get(number) == wanted && !differ(sequences.condition(number), condition)
}

/// Whether these are two conditions, which differ.
fn differ(left: Option<Condition>, right: Option<Condition>) -> bool
    ensures { result ≡ conditions.differ left right }
{
    match (left, right) {
        (Some(left), Some(right)) => left != right,
        _ => false,
    }
}
