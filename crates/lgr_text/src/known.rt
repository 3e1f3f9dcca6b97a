//! What is known where a class or a rule is read.

use crate::code_points::CodePoints;
use crate::records::Entry;
use label_patterns::PatternTree;
use ruleset_text::Name;

/// The entries, and what stands for the names of classes and rules that come before.
#[derive(Clone, Copy)]
pub struct Known<'a> {
    pub entries: &'a [Entry],
    pub set_names: &'a [Name],
    /// The set of the class of each name.
    pub sets: &'a [CodePoints],
    pub rule_names: &'a [Name],
    /// The pattern of the rule of each name.
    pub rules: &'a [PatternTree],
    /// The code points of which labels are made.
    pub points: &'a CodePoints,
}
