//! Why a label that is made of sources may not be asked about.

use label_patterns::Condition;
use ruleset_text::DemandKind;

/// Why a label that is made of sources may not be asked about.
#[derive(Clone, Copy, PartialEq, Eq)]
pub enum ValidityCause {
    /// The longest-first cut of the label ends at this place of it, from 0. This is the condition of the longest source
    /// there, and the conditions of all sources there fail. Without one no source is there.
    NotEligible(usize, Option<Condition>),
    /// The label breaks the demand of this number, from 0, of this kind, and no earlier one.
    Broken(usize, DemandKind),
    /// The segmentations of the label record different types.
    Unclear,
    /// The action of this number, from 0, is the first one that the label triggers, and makes it invalid.
    Action(usize, ActionCause),
    /// The label triggers no action, and the first default action makes it invalid, since the source at this place of
    /// it, from 0, has the type invalid. It is the first one of the longest-first cut.
    DefaultAction(usize),
}

/// What of an action makes a label invalid.
#[derive(Clone, Copy, PartialEq, Eq)]
pub enum ActionCause {
    /// It asks for a rule.
    Rule(Condition),
    /// It asks for any of some types, and for no rule. At this place of the label, from 0, is the first source of the
    /// longest-first cut that has such a type; this is its number.
    Source(usize, u8),
    /// Any other.
    Other,
}
