//! Variant tables of a registry: their notation, rulesets that are made without a text, the entries that begin at a
//! place of a label, the canonical text, the pairs that a table lacks, and the types that no action names.
#![tactic(auto)]

mod canonical;
mod checks;
mod definition_lines;
mod differences;
mod entries;
mod entry;
mod entry_faults;
mod fault;
mod forms;
mod gaps;
mod idle_types;
pub mod laws;
mod lengths;
mod ordered_entries;
mod places;
mod reading;
mod sequences;
mod table;
mod table_builder;
mod table_draft;
mod version;

pub use canonical::write_sequence;
pub use entry::Entry;
pub use fault::{EntryFault, TableFault, TableRefusal};
pub use forms::look_up_condition;
pub use places::EntriesAt;
pub use table::Table;
pub use table_builder::TableBuilder;
pub use version::Notation;
