//! From what a ruleset in XML (RFC 7940) says to a table of version 3.
#![tactic(auto)]

mod actions;
mod document;
mod entries;
mod fault;
mod kept;
mod laws;
mod mapped;
mod names;
mod numbers;
mod points;
mod rules;
mod table;
mod taken;
mod types;
mod untyped;

pub use document::table_of_text;
pub use fault::{TableError, TableFault};
pub use laws::definitions_compute_the_examples;
pub use table::table_of;
