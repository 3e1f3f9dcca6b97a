//! The readings of a label: the ways to cut it into substitutions, each of which may stand in the place of some of its
//! code points. Of each label that it spells, two words of 64 bits say which kinds its readings have, and which they
//! lack.
#![tactic(auto)]

mod board;
mod columns;
mod label_substitutions;
pub mod laws;
mod readings;
mod substitutions_draft;

pub use board::Words;
pub use label_substitutions::{LabelSubstitutions, SubstitutionView};
pub use readings::Readings;
pub use substitutions_draft::SubstitutionsDraft;
