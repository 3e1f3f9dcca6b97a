//! The pairs that a table lacks to be symmetric and transitive.
ghost use Rattle.std.specs.Prelude.{◌≡◌, [], ◌∷◌, IfOk, OnOk};
ghost use Rattle.std.specs.BTreeSet.{insert_key};
ghost use Rattle.std.specs.List.Sorted.{IsStrictlySortedBy};
ghost use Rattle.variant_table.specs.Gaps.{pair_cmp, pairs_of, inserted, reverse_gaps, wanted_gap, further_gaps};
ghost use Rattle.variant_table.specs.Gaps.{gaps_through, gaps_of_entry, gaps_of};

use crate::entry::Entry;
use crate::ordered_entries::OrderedEntries;
use std::alloc::{AllocError, Global};
use std::collections::BTreeSet;

/// Two sequences.
pub type Pair = (Vec<u32>, Vec<u32>);

/// The gaps of some entries, each once, by their first sequence, then by their second.
pub fn gaps_in_order(alloc: Global, entries: &OrderedEntries) -> Result<Vec<Pair>, AllocError>
    ensures gaps { IfOk result (λ gaps. pairs_of gaps.items ≡ gaps_of entries.now) }
    ensures rising { IfOk result (λ gaps. IsStrictlySortedBy pair_cmp (pairs_of gaps.items)) }
{
    let mut gaps = BTreeSet::new(alloc);
    for number in 0..entries.len() {
        add_gaps_of_entry(alloc, entries, &entries.get(number), &mut gaps)?;
    }
    in_vector(alloc, gaps)
}

pub(crate) fn in_vector(alloc: Global, gaps: BTreeSet<Pair>) -> Result<Vec<Pair>, AllocError>
    ensures gaps { IfOk result (λ list. list.items ≡ gaps.keys) }
    ensures rising { IfOk result (λ list. IsStrictlySortedBy pair_cmp (pairs_of list.items)) }
{
    // Not by `collect`, which goes on even if the memory that it reserves in advance is refused.
    let mut list = Vec::with_capacity(alloc, gaps.len())?;
    list.extend(gaps.into_iter())?;
    Ok(list)
}

/// Adds the gaps that the variants of an entry require.
fn add_gaps_of_entry(
    alloc: Global,
    entries: &OrderedEntries,
    entry: &Entry,
    gaps: &mut BTreeSet<Pair>,
) -> Result<(), AllocError>
    ensures { OnOk result (pairs_of gaps.new.keys ≡
        inserted (pairs_of gaps.old.keys) (gaps_of_entry entries.now entry.now)) }
{
    for number in 1..entry.replacements() {
        add_gaps_through(alloc, entries, entry, entry.replacement(number), gaps)?;
    }
    Ok(())
}

/// Adds the gaps that one variant of an entry requires: the reverse pair, and the pairs with the
/// variants of that variant.
fn add_gaps_through(
    alloc: Global,
    entries: &OrderedEntries,
    entry: &Entry,
    variant: &[u32],
    gaps: &mut BTreeSet<Pair>,
) -> Result<(), AllocError>
    ensures { OnOk result (pairs_of gaps.new.keys ≡
        inserted (pairs_of gaps.old.keys) (gaps_through entries.now entry.now variant.now)) }
{
    match entries.find(variant) {
        None => add(alloc, gaps, variant, entry.source()),
        Some(next) => {
            add_reverse(alloc, entry, variant, &next, gaps)?;
            add_further(alloc, entry, &next, gaps)
        }
    }
}

fn add_reverse(
    alloc: Global,
    entry: &Entry,
    variant: &[u32],
    next: &Entry,
    gaps: &mut BTreeSet<Pair>,
) -> Result<(), AllocError>
    ensures { OnOk result (pairs_of gaps.new.keys ≡
        inserted (pairs_of gaps.old.keys) (reverse_gaps entry.now variant.now next.now)) }
{
    if next.has_variant(entry.source()) {
        return Ok(());
    }
    add(alloc, gaps, variant, entry.source())
}

fn add_further(
    alloc: Global,
    entry: &Entry,
    next: &Entry,
    gaps: &mut BTreeSet<Pair>,
) -> Result<(), AllocError>
    ensures { OnOk result (pairs_of gaps.new.keys ≡
        inserted (pairs_of gaps.old.keys) (further_gaps entry.now next.now)) }
{
    for number in 1..next.replacements() {
        add_wanted(alloc, entry, next.replacement(number), gaps)?;
    }
    Ok(())
}

/// Adds the pair of an entry and a sequence, unless the entry has it.
fn add_wanted(
    alloc: Global,
    entry: &Entry,
    sequence: &[u32],
    gaps: &mut BTreeSet<Pair>,
) -> Result<(), AllocError>
    ensures { OnOk result (pairs_of gaps.new.keys ≡
        inserted (pairs_of gaps.old.keys) (wanted_gap entry.now sequence.now)) }
{
    if sequence == entry.source() || entry.has_variant(sequence) {
        return Ok(());
    }
    add(alloc, gaps, entry.source(), sequence)
}

/// Adds a gap, unless it is already there.
pub(crate) fn add(
    alloc: Global,
    gaps: &mut BTreeSet<Pair>,
    first: &[u32],
    second: &[u32],
) -> Result<(), AllocError>
    ensures { OnOk result (pairs_of gaps.new.keys ≡
        insert_key pair_cmp (pairs_of gaps.old.keys) (first.now, second.now)) }
{
    let gap = (
        Vec::from_slice(alloc, first)?,
        Vec::from_slice(alloc, second)?,
    );
    gaps.insert(gap)?;
    Ok(())
}
