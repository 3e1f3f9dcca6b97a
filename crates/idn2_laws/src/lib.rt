//! The laws of what a run says. The program doesn't need this crate.
#![tactic(auto)]

mod laws;

pub use laws::{
    admitted_labels_are_listed, causes_are_told, collisions_are_decided, collisions_are_found,
    collisions_go_both_ways, conditions_alone_differ, demands_are_actions, dispositions_are_told,
    examples_hold, forms_say_the_same, keys_decide, listed_labels_are_mutual,
    not_valid_is_never_told, readings_decide, refusals_are_explained, refusals_are_read_back,
    regards_are_told, rulesets_answer_as_they_say, rulesets_say_the_same, said_is_read_back,
    spelled_labels_are_valid, tables_are_read_back, turns_find_the_same, types_decide,
};
