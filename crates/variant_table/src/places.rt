//! The entries at a place of a label.
ghost use Rattle.std.specs.Prelude.{◌≡◌, ◌≤◌, length};
ghost use Rattle.std.specs.Iterator.{YieldsFirst, item_count};
ghost use Rattle.variant_table.specs.Places.{entries_at as entries_at_place};

use crate::entry::Entry;
use crate::ordered_entries::{LookUp, OrderedEntries};
use ruleset_text::SEQUENCE_LIMIT;
use std::marker::Model;

/// The entries of a table whose source begins a label at a place, by rising source length. It is an
/// iterator of at most 8 items, and takes no memory.
#[derive(Drop)]
pub struct EntriesAt<'a> {
    entries: &'a OrderedEntries,
    label: &'a [u32],
    place: usize,
    /// The sources longer than this are still to come; at the limit there are none.
    len: usize,
}

impl<'a> Model for EntriesAt<'a> {
    ghost use Rattle.std.specs.Prelude.{List, ◌≤◌, length};
    ghost use Rattle.variant_table.specs.Places.{EntryValue, entries_longer};

    ghost Value = { List EntryValue };

    ghost view = { λ s. entries_longer s.entries.now s.label.now s.place s.len };

    ghost invariant = { λ s. (s.place ≤ length s.label.now) × (s.len ≤ 8) };
}

impl<'a> EntriesAt<'a> {
    pub(crate) fn new(entries: &'a OrderedEntries, label: &'a [u32], place: usize) -> Self
        requires { place ≤ length label.now }
        ensures { result ≡ entries_at_place entries.now label.now place }
    {
        EntriesAt {
            entries,
            label,
            place,
            len: 0,
        }
    }

    /// The next entry: that of the next length for which there is one. If no longer source begins with
    /// the code points so far, no further length is tried.
    fn next_entry(&mut self) -> Option<Entry<'a>>
        ensures { YieldsFirst (λ s. s) self.old result self.new }
    {
        while self.len < SEQUENCE_LIMIT && self.place + self.len < self.label.len() {
            self.len += 1;
            let sequence = &self.label[self.place..self.place + self.len];
            let LookUp { entry, has_longer } = self.entries.look_up(sequence);
            if !has_longer {
                self.len = SEQUENCE_LIMIT;
            }
            if let Some(entry) = entry {
                return Some(entry);
            }
        }
        None
    }
}

impl<'a> Iterator for EntriesAt<'a> {
    type Item = Entry<'a>;

    ghost next_gives = { YieldsFirst (λ s. s) };

    ghost remaining = { item_count (λ s. s) };

    fn next(&mut self) -> Option<Entry<'a>> {
        self.next_entry()
    }
}
