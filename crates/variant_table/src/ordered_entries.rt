//! Entries with different sources, and the order of their sources.
ghost use Rattle.std.specs.Prelude.{◌≡◌, ◌≢◌, ◌↔◌, ◌<◌, ◌^◌, [], length, nat_eq, slice_get, slice_index};
ghost use Rattle.std.specs.Prelude.{Some, IfOk, IsTrue, OnErr, false};
ghost use Rattle.std.specs.Cmp.Lexicographic.{slice_cmp};
ghost use Rattle.std.specs.List.{starts_with};
ghost use Rattle.std.specs.Ordering.{nat_cmp};
ghost use Rattle.variant_table.specs.Entries.{entry_from};
ghost use Rattle.variant_table.specs.inner.Order.{IsOrderOf, IsPlaceFor, begins_at as begins_at_place, HasNoLonger};
ghost use Rattle.variant_table.specs.Places.{entry_with};
ghost use Rattle.variant_table.specs.inner.ReadingSteps.{if_new, with_new_source};

use crate::entries::Entries;
use crate::entry::Entry;
use crate::sequences::Sequences;
use std::alloc::{AllocError, Global};
use std::cmp::Ordering;
use std::marker::Model;

/// Entries with different sources, and their numbers in the order of their sources.
#[derive(Drop)]
pub struct OrderedEntries {
    entries: Entries,
    order: Vec<u16>,
}

impl Model for OrderedEntries {
    ghost use Rattle.std.specs.Prelude.{List};
    ghost use Rattle.variant_table.specs.inner.Order.{IsOrderOf};
    ghost use Rattle.variant_table.specs.Places.{EntryValue};

    ghost Value = { List EntryValue };

    ghost view = { λ r. r.entries };

    ghost invariant = { λ r. IsOrderOf r.entries r.order.items };
}

impl OrderedEntries {
    pub fn new(alloc: Global) -> Self
        ensures { result ≡ [] }
    {
        OrderedEntries {
            entries: Entries::new(alloc),
            order: Vec::new(alloc),
        }
    }

    pub fn len(&self) -> usize
        ensures { result ≡ length self.now }
    {
        self.entries.len()
    }

    /// The entry of this number.
    pub fn get(&self, number: usize) -> Entry<'_>
        requires { number < length self.now }
        ensures { slice_get self.now number ≡ Some result }
    {
        self.entries.get(number)
    }

    /// The entry with this source.
    pub fn find(&self, source: &[u32]) -> Option<Entry<'_>>
        ensures { result ≡ entry_with self.now source.now }
    {
        self.look_up(source).entry
    }

    /// The entry with this source, and whether a longer source begins with it.
    pub fn look_up(&self, source: &[u32]) -> LookUp<'_>
        ensures entry { result.entry ≡ entry_with self.now source.now }
        ensures longer { (result.has_longer ≡ false) ↔ HasNoLonger self.now source.now }
    {
        match search(&self.entries, &self.order, source) {
            SourcePlace::Found(place) => LookUp {
                entry: Some(self.entries.get(self.order[place] as usize)),
                has_longer: begins_at(&self.entries, &self.order, place + 1, source),
            },
            SourcePlace::Absent(place) => LookUp {
                entry: None,
                has_longer: begins_at(&self.entries, &self.order, place, source),
            },
        }
    }

    /// Adds the entry of these sequences, of which the first is the source, and answers whether the source is new. If
    /// another entry has it, or memory was refused, nothing changes.
    pub fn push(&mut self, sequences: &Sequences) -> Result<bool, AllocError>
        requires some { 0 < length sequences.now }
        requires room { length self.old < 2 ^ 16 }
        ensures read { IfOk result (λ new. with_new_source self.old (entry_from sequences.now) ≡ if_new new self.new) }
        ensures known { IfOk result (λ new. new ≡ false → self.new ≡ self.old) }
        ensures err { OnErr result (self.new ≡ self.old) }
    {
        let SourcePlace::Absent(place) = search(&self.entries, &self.order, sequences.get(0)) else {
            return Ok(false);
        };
        let entry = self.entries.len() as u16;
        self.order.reserve(1)?;
        self.entries.push(sequences)?;
        self.order.insert(place, entry).unwrap();
        Ok(true)
    }
}

/// What a search for a sequence finds among the sources.
#[derive(Drop)]
pub struct LookUp<'a> {
    /// The entry whose source it is.
    pub entry: Option<Entry<'a>>,
    /// Whether a longer source begins with it.
    pub has_longer: bool,
}

/// Where a source stands in the order of the sources.
#[derive(Clone, Copy, PartialEq, Eq)]
enum SourcePlace {
    /// At this place.
    Found(usize),
    /// Nowhere: it would stand at this place.
    Absent(usize),
}

/// The place of a source in the order of the sources.
fn search(entries: &Entries, order: &[u16], source: &[u32]) -> SourcePlace
    requires { IsOrderOf entries.now order.now }
    ensures { IsPlaceFor entries.now order.now source.now result }
{
    let mut low = 0;
    let mut high = order.len();
    // The last source is compared first, since the sources of most tables rise.
    let mut place = high.saturating_sub(1);
    while low < high {
        match order_of(entries.get(order[place] as usize).source(), source) {
            Ordering::Less => low = place + 1,
            Ordering::Equal => return SourcePlace::Found(place),
            Ordering::Greater => high = place,
        }
        place = low + (high - low) / 2;
    }
    SourcePlace::Absent(low)
}

/// The order of two sequences. Most differ in their first code points, which are compared alone first.
#[inline]
fn order_of(one: &[u32], other: &[u32]) -> Ordering
    ensures { result ≡ slice_cmp nat_cmp one.now other.now }
{
    if differ_first(one, other) {
        return one[0].cmp(&other[0]);
    }
    one.cmp(&other)
}

/// Whether two sequences have first code points, and these differ.
#[inline]
fn differ_first(one: &[u32], other: &[u32]) -> bool
    ensures some { IsTrue result → (0 < length one.now) × (0 < length other.now) }
    ensures differ { IsTrue result → slice_index one.now 0 ≢ slice_index other.now 0 }
{
    !one.is_empty() && !other.is_empty() && one[0] != other[0]
}

/// Whether there is a source at this place of the order that begins with a sequence.
fn begins_at(entries: &Entries, order: &[u16], place: usize, sequence: &[u32]) -> bool
    requires { IsOrderOf entries.now order.now }
    ensures { result ≡ begins_at_place entries.now order.now place sequence.now }
{
    place < order.len() && begins_with(entries.get(order[place] as usize).source(), sequence)
}

/// Whether a source begins with a sequence.
#[inline]
fn begins_with(source: &[u32], sequence: &[u32]) -> bool
    ensures { result ≡ starts_with nat_eq source.now sequence.now }
{
    !differ_first(source, sequence) && source.starts_with(sequence)
}
