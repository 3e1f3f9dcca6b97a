//! Rulesets in XML (RFC 7940): what the tokens of a document say, as entries, classes, rules and actions.
#![tactic(auto)]

mod action_elements;
mod actions;
mod atoms;
mod attributes;
mod branches;
mod class_sets;
mod classes;
mod code_points;
mod combining;
mod definitions;
mod documents;
mod element;
mod entries;
mod facts;
mod fault;
mod joins;
mod known;
mod laws;
mod named_parts;
mod names;
mod nesting;
mod order;
mod order_error;
mod orders;
mod part_faults;
mod part_items;
mod parts;
mod properties;
mod property_names;
mod records;
mod rule_elements;
mod rule_error;
mod sections;
mod statements;
mod values;
mod words;

pub use action_elements::read_action;
pub use actions::{Renamed, named_action};
pub use branches::{Made, pattern_of_rule};
pub use class_sets::set_of;
pub use code_points::CodePoints;
pub use definitions::read_definition;
pub use documents::read_ruleset;
pub use element::{Element, Elements};
pub use entries::read_entries;
pub use fault::ReadError;
pub use joins::SetOperation;
pub use known::Known;
pub use laws::{
    a_document_says_one_ruleset, definitions_give_the_examples, rule_examples_hold,
    sets_have_one_form,
};
pub use names::NameKind;
pub use order::definition_order;
pub use order_error::OrderError;
pub use part_items::copied as copied_pattern;
pub use records::{
    Action, ClassTree, Condition, Count, Definition, Entry, Meaning, PartTree, Reference, Ruleset,
    Source, Trigger, Variant,
};
pub use rule_error::{RuleError, RuleFault};
pub use values::{count_of, point_of, points_of, span_between, span_of, spans_of};
