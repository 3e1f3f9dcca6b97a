//! Entries in memory, in the order in which they were added.
ghost use Rattle.std.specs.Prelude.{◌≡◌, ◌<◌, [], ◌∷◌, ◌++◌, length, slice_get, Some, OnOk, OnErr};
ghost use Rattle.variant_table.specs.Entries.{entry_from};

use crate::entry::Entry;
use crate::sequences::{Sequences, Span};
use std::alloc::{AllocError, Global};
use std::marker::Model;

/// Entries, each a part of one list of sequences.
#[derive(Drop)]
pub struct Entries {
    sequences: Sequences,
    spans: Vec<Span>,
}

impl Model for Entries {
    ghost use Rattle.std.specs.Prelude.{List, length};
    ghost use Rattle.variant_table.specs.Places.{EntryValue};
    ghost use Rattle.variant_table.specs.inner.Held.{entries_of, AreEntriesBelow};

    ghost Value = { List EntryValue };

    ghost view = { λ e. entries_of e.sequences e.spans.items };

    ghost invariant = { λ e. AreEntriesBelow (length e.sequences) e.spans.items };
}

impl Entries {
    pub fn new(alloc: Global) -> Self
        ensures { result ≡ [] }
    {
        Entries {
            sequences: Sequences::new(alloc),
            spans: Vec::new(alloc),
        }
    }

    pub fn len(&self) -> usize
        ensures { result ≡ length self.now }
    {
        self.spans.len()
    }

    /// The entry of this number.
    pub fn get(&self, number: usize) -> Entry<'_>
        requires { number < length self.now }
        ensures { slice_get self.now number ≡ Some result }
    {
        Entry::new(&self.sequences, self.spans[number])
    }

    /// Adds the entry of these sequences, of which the first is the source. An `Err` changes nothing.
    pub fn push(&mut self, sequences: &Sequences) -> Result<(), AllocError>
        requires { 0 < length sequences.now }
        ensures ok { OnOk result (self.new ≡ self.old ++ entry_from sequences.now ∷ []) }
        ensures err { OnErr result (self.new ≡ self.old) }
    {
        let start = self.sequences.len();
        self.sequences.append(sequences)?;
        let end = self.sequences.len();
        self.spans.push(Span { start, end })?;
        Ok(())
    }
}
