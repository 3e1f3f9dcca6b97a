//! Reading the lines of a ruleset: variant types, sets, rules, demands and actions, and the forms of entries.
#![tactic(auto)]

mod action;
mod action_reading;
mod canonical;
mod classes;
mod definition;
mod definition_faults;
mod definition_form;
mod definition_line;
mod definition_reading;
mod definitions;
mod definitions_text;
mod entry_form;
mod entry_laws;
mod entry_notes;
mod entry_parts;
mod entry_reading;
mod entry_test;
mod fault;
mod keyword;
mod laws;
mod lexemes;
mod limits;
mod named_condition;
mod names;
mod pattern_form;
mod pieces;
mod placed;
mod reading;
mod signs;
mod spans;
mod token;
mod tokens;

pub use action::{NamedAction, NamedTrigger, TriggerKind};
pub use action_reading::disposition_of;
pub use canonical::{push_pattern, push_spans};
pub use classes::is_bad_point;
pub use definition::{Definition, DemandKind};
pub use definition_line::DefinitionLine;
pub use definitions::{Definitions, Demand};
pub use entry_form::{EntryForm, Mapped};
pub use entry_laws::{canonical_entries_are_read_back, reading_an_entry_is_exact};
pub use entry_notes::{EntryNotes, LinePoint, SEQUENCE_LIMIT};
pub use entry_parts::EntryParts;
pub use entry_reading::read_entry;
pub use entry_test::is_entry;
pub use fault::{DefinitionFault, DefinitionRefusal, FaultPlace, FoundFaults, ReadError};
pub use keyword::Keyword;
pub use laws::{
    a_line_stops_where_no_definition_goes_on, canonical_lines_are_read_back,
    canonical_text_is_read_back, definitions_compute_the_entries, definitions_compute_the_examples,
    definitions_compute_the_lines, places_are_told_of_definitions_that_are_refused,
    reading_a_definition_is_exact, reading_a_pattern_is_exact, reading_spans_is_exact,
    the_first_condition_of_a_definition_is_told, the_first_lexeme_is_told,
    tokens_past_limits_are_marked, what_lines_define_has_no_fault,
};
pub use lexemes::without_blanks;
pub use named_condition::NamedCondition;
pub use names::{Name, PREDEFINED_TYPES, is_name, is_one_of, number_of, predefined_type};
pub use placed::PlacedLexemes;
