//! A table as far as it is made, to which entries are added.
ghost use Rattle.std.specs.Prelude.{◌≡◌, [], map, None, OnErr, OnOk};
ghost use Rattle.idn_class.specs.declared.properties.Properties.{Properties};
ghost use Rattle.ruleset_text.specs.Definitions.{nothing_defined};
ghost use Rattle.ruleset_text.specs.EntryForms.{mapped as form_of};
ghost use Rattle.ruleset_text.specs.EntryText.{IsForm};
ghost use Rattle.variant_table.specs.Building.{AddsEntry};
ghost use Rattle.variant_table.specs.Entries.{empty_table};
ghost use Rattle.variant_table.specs.inner.Drafts.{AreFoundOf, IsCountedDraft, draft_table, form_with};
ghost use Rattle.variant_table.specs.inner.Held.{IsCounted};

use crate::checks::given_again;
use crate::fault::EntryFault;
use crate::forms::take_sequences;
use crate::lengths::left_after_entry;
use crate::ordered_entries::OrderedEntries;
use crate::sequences::Sequences;
use crate::version::Version;
use idn_class::Properties;
use ruleset_text::{Definitions, FoundFaults, Mapped};
use std::alloc::{AllocError, Global};

/// What a table has so far, without a fault.
#[derive(Drop)]
pub struct TableDraft {
    pub version: Version,
    pub definitions: Definitions,
    pub entries: OrderedEntries,
    /// The sequences of the entry that is being added. Their memory is used again for each entry.
    pub sequences: Sequences,
    /// How many bytes the canonical text may have more, where the version limits them.
    pub left: usize,
}

impl TableDraft {
    /// A table of this version with nothing in it yet.
    pub fn new(alloc: Global, version: Version, properties: Properties) -> Self
        ensures table { draft_table result ≡ empty_table properties version }
        ensures counted { IsCountedDraft result }
    {
        TableDraft {
            version,
            definitions: Definitions::new(alloc, properties),
            entries: OrderedEntries::new(alloc),
            sequences: Sequences::new(alloc),
            left: left_after_head(version),
        }
    }

    /// Adds the entry of a source and its variants, unless it has a fault. These were found of it by itself. An `Err`
    /// changes nothing.
    pub fn add_entry(&mut self, mapped: &[Mapped], found: FoundFaults) -> Result<(), EntryFault>
        requires form { IsForm (map form_of mapped.now) None }
        requires found { AreFoundOf self.old.definitions (form_with mapped.now None) found }
        requires counted { IsCountedDraft self.old }
        ensures added { AddsEntry (draft_table self.old) (map form_of mapped.now) result (draft_table self.new) }
        ensures table { OnErr result (draft_table self.new ≡ draft_table self.old) }
        ensures left { OnErr result (self.new.left ≡ self.old.left) }
        ensures counted { OnOk result (IsCountedDraft self.new) }
    {
        if self.entries.len() >= self.version.entry_limit() || found.limit {
            return Err(EntryFault::Limit);
        }
        let Some(left) = left_after_entry(self.version, mapped, self.left) else {
            return Err(EntryFault::Limit);
        };
        if found.name {
            return Err(EntryFault::NoSuchName);
        }
        if found.class {
            return Err(EntryFault::BadClass);
        }
        take_sequences(&mut self.sequences, &self.definitions, mapped)?;
        if let Some(again) = given_again(&self.sequences) {
            return Err(EntryFault::SameVariant(again));
        }
        if !self.entries.push(&self.sequences)? {
            return Err(EntryFault::SameSource);
        }
        self.left = left;
        Ok(())
    }
}

/// How many bytes a canonical text may have after its version line, where the version limits them.
fn left_after_head(version: Version) -> usize
    ensures { (properties : Properties) → IsCounted version (nothing_defined properties) result [] }
{
    version.text_limit() - version.head().len()
}
