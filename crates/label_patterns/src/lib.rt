//! Patterns of labels: sets of code points, which parts of a label a pattern matches, and where a rule holds. A label
//! has at most 63 code points, so a set of its places is one word.
#![tactic(auto)]

mod asking;
mod barring;
mod condition;
mod contexts;
mod demands;
mod ends;
mod laws;
mod pattern_tree;
mod places;
mod point_set;
mod seen_label;
mod span;
mod starts;

pub use asking::{condition_holds, is_barred};
pub use barring::ignores_end;
pub use condition::{Condition, ConditionKind};
pub use contexts::{
    holding_points, holds, is_anchor, is_context_rule, places_after, places_before,
};
pub use demands::{first_end, occurs};
pub use laws::{
    barred_for_good, barring_stays, before_stays, matches_are_parts, matches_stay, tests_agree,
};
pub use pattern_tree::PatternTree;
pub use places::{both, either, has, point_places, with_place_if, without};
pub use point_set::PointSet;
pub use seen_label::{SeenLabel, renew_masks};
pub use span::Span;
