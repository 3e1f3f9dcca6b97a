//! The disposition of a label by the actions of a ruleset (RFC 7940, sections 7 and 8): from what the readings of the
//! label record, which variants with which types and which sources that stay, the first action that is triggered.
#![tactic(auto)]

mod action;
mod disposition;
mod fold;
mod kinds;
mod label_rules;
pub mod laws;
mod variant;

pub use action::{Action, TypeTrigger};
pub use disposition::Disposition;
pub use fold::disposition_of;
pub use kinds::{
    ACTIVATED, ALLOCATABLE, BLOCKED, INVALID, UNMAPPED, UNTYPED, VALID, kind_of_source,
    kind_of_variant,
};
pub use label_rules::LabelRules;
pub use variant::{
    VariantDisposition, disposition_of_variant, disposition_of_words, is_allocatable_in_some,
};
