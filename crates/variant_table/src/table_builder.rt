//! Making a ruleset part by part, without a text.

use crate::entry_faults::faults_of_entry;
use crate::fault::EntryFault;
use crate::table::Table;
use crate::table_draft::TableDraft;
use crate::version::Version;
use idn_class::Properties;
use ruleset_text::{Definition, DefinitionFault, Definitions, Mapped, is_entry};
use std::alloc::{AllocError, Global};
use std::marker::Model;

/// A ruleset that is being made. What a definition or an entry names is defined before it; else their order is free.
#[derive(Drop)]
pub struct TableBuilder {
    alloc: Global,
    draft: TableDraft,
}

impl Model for TableBuilder {
    ghost use Rattle.variant_table.specs.Entries.{TableValue};
    ghost use Rattle.variant_table.specs.TableCodes.{table_code};
    ghost use Rattle.variant_table.specs.inner.Drafts.{IsBuilt, draft_table};

    ghost Value = { TableValue };

    ghost coded = { table_code };

    ghost view = { λ b. draft_table b.draft };

    ghost invariant = { λ b. IsBuilt b.draft };
}

impl TableBuilder {
    ghost use Rattle.std.specs.Prelude.{◌≡◌, map, OnErr, OnOk};
    ghost use Rattle.ruleset_text.specs.DefinitionForms.{Adds};
    ghost use Rattle.ruleset_text.specs.DefinitionTrees as trees;
    ghost use Rattle.ruleset_text.specs.EntryForms.{mapped as form_of};
    ghost use Rattle.variant_table.specs.Building.{AddsEntry};
    ghost use Rattle.variant_table.specs.declared.version.Version.TheVariants.{Three};
    ghost use Rattle.variant_table.specs.DefinitionLines.{room_for_definitions};
    ghost use Rattle.variant_table.specs.Entries.{empty_table};

    /// A ruleset with nothing in it yet, by these properties.
    pub fn new(alloc: Global, properties: Properties) -> Self
        ensures { result ≡ empty_table properties Three }
    {
        TableBuilder {
            alloc,
            draft: TableDraft::new(alloc, Version::Three, properties),
        }
    }

    /// What is defined so far.
    pub fn definitions(&self) -> &Definitions
        ensures { result.now ≡ self.now.definitions }
    {
        &self.draft.definitions
    }

    /// Adds a definition, unless it has a fault: `Syntax` is told of one that no line spells, and else the first fault,
    /// as of a line. An `Err` changes nothing.
    pub fn define(&mut self, definition: Definition) -> Result<(), DefinitionFault>
        ensures added { Adds (room_for_definitions self.old) self.old.definitions (trees.definition definition) result
            self.new.definitions }
        ensures others { OnOk result (self.new ≡ record self.old { definitions = self.new.definitions }) }
        ensures err { OnErr result (self.new ≡ self.old) }
    {
        let room = self.draft.left + self.draft.definitions.canonical_len();
        self.draft.definitions.push(self.alloc, room, definition)?;
        self.draft.left = room - self.draft.definitions.canonical_len();
        Ok(())
    }

    /// Adds the entry of a source and its variants, unless it has a fault: `Syntax` is told of one that no line spells,
    /// and else the first fault, as of a line. An `Err` changes nothing.
    pub fn add_entry(&mut self, mapped: &[Mapped]) -> Result<(), EntryFault>
        ensures added { AddsEntry self.old (map form_of mapped.now) result self.new }
        ensures err { OnErr result (self.new ≡ self.old) }
    {
        if !is_entry(mapped) {
            return Err(EntryFault::Syntax);
        }
        let found = faults_of_entry(self.alloc, &self.draft.definitions, mapped)?;
        self.draft.add_entry(mapped, found)
    }

    /// The table.
    pub fn finish(self) -> Table
        ensures { result ≡ self }
    {
        Table::of_draft(self.draft)
    }
}
