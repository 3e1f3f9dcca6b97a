//! Which labels are valid under a ruleset.
#![tactic(auto)]

mod actions;
mod cause;
mod causes;
mod cutting;
mod dead_prefix;
mod demands;
mod invalid;
mod itself;
mod label_rules;
mod laws;
mod longest;
mod segments;
mod single_places;
mod single_points;
mod source_predicate;
mod sources;
mod testing;
mod valid;
mod validity;

pub use actions::actions_of;
pub use cause::{ActionCause, ValidityCause};
pub use causes::invalid_cause;
pub use label_rules::RulesOfLabel;
pub use laws::{
    admitted_are_valid, cause_is_exact, dead_for_good, dispositions_of_examples_hold,
    examples_hold, furthest_is_told, labels_are_told_themselves, longest_first, nothing_is_asked,
    one_cut, readings_are_told, segmentations_agree, tests_agree, typeless_are_clear,
};
pub use segments::Segments;
pub use sources::{asks_nothing, furthest, is_made_of_sources};
pub use testing::ValidityTest;
pub use validity::{Admission, Validity};
