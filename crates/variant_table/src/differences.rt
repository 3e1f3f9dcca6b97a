//! The pairs of variants of a table whose conditions one way aren't those of the other way.
ghost use Rattle.std.specs.Prelude.{◌≡◌, ◌≤◌, ◌<◌, ◌-◌, ◌&&◌, not, [], bytes_eq, length, slice_get, IfOk, OnOk, Some};
ghost use Rattle.std.specs.List.Sorted.{IsStrictlySortedBy};
ghost use Rattle.variant_table.specs.Differences.{differ_by, difference_at, differences_at, differences_of, has_beyond};
ghost use Rattle.variant_table.specs.Differences.{has_under, is_same_condition};
ghost use Rattle.variant_table.specs.Entries.{Variant, replacements};
ghost use Rattle.variant_table.specs.Gaps.{inserted, pair_cmp, pairs_of};
ghost use Rattle.variant_table.specs.Places.{entry_with};

use crate::entry::Entry;
use crate::gaps::{Pair, add, in_vector};
use crate::ordered_entries::OrderedEntries;
use label_patterns::Condition;
use std::alloc::{AllocError, Global};
use std::collections::BTreeSet;

/// The differences of some entries, each once, by their first sequence, then by their second.
pub fn differences_in_order(
    alloc: Global,
    entries: &OrderedEntries,
) -> Result<Vec<Pair>, AllocError>
    ensures differences { IfOk result (λ pairs. pairs_of pairs.items ≡ differences_of entries.now) }
    ensures rising { IfOk result (λ pairs. IsStrictlySortedBy pair_cmp (pairs_of pairs.items)) }
{
    let mut found = BTreeSet::new(alloc);
    for number in 0..entries.len() {
        add_differences(alloc, entries, &entries.get(number), &mut found)?;
    }
    in_vector(alloc, found)
}

/// Adds the differences between an entry and its variants.
fn add_differences(
    alloc: Global,
    entries: &OrderedEntries,
    entry: &Entry,
    found: &mut BTreeSet<Pair>,
) -> Result<(), AllocError>
    ensures { OnOk result (pairs_of found.new.keys ≡
        inserted (pairs_of found.old.keys) (differences_at entries.now entry.now)) }
{
    for number in 1..entry.replacements() {
        add_difference(alloc, entries, entry, entry.replacement(number), found)?;
    }
    Ok(())
}

/// Adds the pair of an entry and its variant, if it is a difference.
fn add_difference(
    alloc: Global,
    entries: &OrderedEntries,
    entry: &Entry,
    variant: &[u32],
    found: &mut BTreeSet<Pair>,
) -> Result<(), AllocError>
    ensures { OnOk result (pairs_of found.new.keys ≡
        inserted (pairs_of found.old.keys) (difference_at entries.now entry.now variant.now)) }
{
    if differ(entries, entry, variant) {
        add(alloc, found, entry.source(), variant)?;
    }
    Ok(())
}

/// Whether a variant of an entry comes after the source, has the source as a variant, and not under the same
/// conditions.
fn differ(entries: &OrderedEntries, entry: &Entry, variant: &[u32]) -> bool
    ensures { result ≡ differ_by entry.now variant.now (entry_with entries.now variant.now) }
{
    let Some(back) = entries.find(variant) else {
        return false;
    };
    let source = entry.source();
    source.cmp(&variant).is_lt()
        && back.has_variant(source)
        && (has_beyond(entry, variant, &back, source) || has_beyond(&back, source, entry, variant))
}

/// Whether an entry has a variant under a condition under which another entry doesn't have a variant of its own.
fn has_beyond(entry: &Entry, variant: &[u32], other: &Entry, reverse: &[u32]) -> bool
    ensures { result ≡ has_beyond entry.now variant.now other.now reverse.now }
{
    for number in 1..entry.replacements() {
        if is_beyond(entry, number, variant, other, reverse) {
            return true;
        }
    }
    false
}

/// Whether it is so of the variant of this number.
fn is_beyond(entry: &Entry, number: usize, variant: &[u32], other: &Entry, reverse: &[u32]) -> bool
    requires some { 1 ≤ number }
    requires number { number < length (replacements entry.now) }
    ensures { (x : Variant) × (slice_get entry.now.variants (number - 1) ≡ Some x)
        × (result ≡ (bytes_eq variant.now x.sequence && not (has_under reverse.now x.condition other.now))) }
{
    variant == entry.replacement(number) && !has_under(reverse, entry.condition(number), other)
}

/// Whether an entry has a variant under this condition, or under none.
fn has_under(variant: &[u32], condition: Option<Condition>, entry: &Entry) -> bool
    ensures { result ≡ has_under variant.now condition entry.now }
{
    for number in 1..entry.replacements() {
        if is_under(variant, condition, entry, number) {
            return true;
        }
    }
    false
}

/// Whether it is so of the variant of this number.
fn is_under(variant: &[u32], condition: Option<Condition>, entry: &Entry, number: usize) -> bool
    requires some { 1 ≤ number }
    requires number { number < length (replacements entry.now) }
    ensures { (x : Variant) × (slice_get entry.now.variants (number - 1) ≡ Some x)
        × (result ≡ (bytes_eq variant.now x.sequence && is_same_condition condition x.condition)) }
{
    variant == entry.replacement(number) && is_same(condition, entry.condition(number))
}

/// Whether both are none, or the same is asked of the same rule.
fn is_same(left: Option<Condition>, right: Option<Condition>) -> bool
    ensures { result ≡ is_same_condition left right }
{
    left == right
}
