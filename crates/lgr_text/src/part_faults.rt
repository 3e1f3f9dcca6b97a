//! What is wrong with the order of the parts of a rule (RFC 7940, sections 6.3.8 and 6.4.1).
ghost use Rattle.std.specs.Prelude.{◌≡◌, ◌&&◌};
ghost use Rattle.label_patterns.specs.Rules.{is_context_rule as is_context};
ghost use Rattle.label_patterns.specs.Trees.{pattern};
ghost use Rattle.lgr_text.specs.Known.{known as known_of};
ghost use Rattle.lgr_text.specs.LabelEnds as ends;
ghost use Rattle.lgr_text.specs.PartMatches.{has_anchor as has_anchor_part, parts_label as parts_label_of};
ghost use Rattle.lgr_text.specs.PartMatches.{is_named, rule_named, then_fault, times_fault};
ghost use Rattle.lgr_text.specs.Records.{part as part_of};
ghost use Rattle.lgr_text.specs.inner.Faults.{IsFaultOf};

use crate::known::Known;
use crate::records::PartTree;
use crate::rule_error::{RuleError, RuleFault};
use label_patterns::{PatternTree, is_context_rule};
use ruleset_text::number_of;

/// That two parts may stand one after the other.
pub(crate) fn check_then(
    known: Known<'_>,
    first: &PartTree,
    rest: &PartTree,
) -> Result<(), RuleError>
    ensures { IsFaultOf (then_fault (known_of known.entry) (part_of first.now) (part_of rest.now)) result }
{
    if have_anchors(known, first, rest) {
        return Err(RuleError::Fault(RuleFault::NotSupported));
    }
    if !parts_label(known, first, rest) {
        return Ok(());
    }
    if has_anchor(known, first) || has_anchor(known, rest) {
        Err(RuleError::Fault(RuleFault::NotSupported))
    } else {
        Err(RuleError::Fault(RuleFault::Misplaced))
    }
}

/// That a part may be counted.
pub(crate) fn check_times(known: Known<'_>, part: &PartTree) -> Result<(), RuleError>
    ensures { IsFaultOf (times_fault (known_of known.entry) (part_of part.now)) result }
{
    if has_anchor(known, part) {
        return Err(RuleError::Fault(RuleFault::NotSupported));
    }
    if begins_label(known, part) || ends_label(known, part) {
        Err(RuleError::Fault(RuleFault::Misplaced))
    } else {
        Ok(())
    }
}

/// Whether the anchor stands in a part of a rule, or in a rule that it names.
pub(crate) fn has_anchor(known: Known<'_>, part: &PartTree) -> bool
    ensures { result ≡ has_anchor_part (known_of known.entry) (part_of part.now) }
{
    match part {
        PartTree::Anchor => true,
        PartTree::OfRule(rule) => is_named_context(known, rule.name.as_slice()),
        PartTree::Then(first, rest) => has_anchor(known, first) || has_anchor(known, rest),
        PartTree::Choice(left, right) => has_anchor(known, left) || has_anchor(known, right),
        PartTree::Times(_, part) => has_anchor(known, part),
        _ => false,
    }
}

/// Whether the rule of this name has the anchor.
fn is_named_context(known: Known<'_>, name: &[u8]) -> bool
    ensures { result ≡ (is_named (known_of known.entry) name.now
        && is_context (rule_named (known_of known.entry) name.now)) }
{
    let number = number_of(known.rule_names, name);
    number < known.rules.len() && is_context_rule(&known.rules[number])
}

/// Whether the anchor stands in both parts.
pub(crate) fn have_anchors(known: Known<'_>, first: &PartTree, rest: &PartTree) -> bool
    ensures { result ≡ (has_anchor_part (known_of known.entry) (part_of first.now)
        && has_anchor_part (known_of known.entry) (part_of rest.now)) }
{
    has_anchor(known, first) && has_anchor(known, rest)
}

/// Whether the end of a label stands in the first of two parts, or its start in the second.
fn parts_label(known: Known<'_>, first: &PartTree, rest: &PartTree) -> bool
    ensures { result ≡ parts_label_of (known_of known.entry) (part_of first.now) (part_of rest.now) }
{
    ends_label(known, first) || begins_label(known, rest)
}

/// Whether the start of a label is the first that a part matches.
fn begins_label(known: Known<'_>, part: &PartTree) -> bool
    ensures { result ≡ ends.begins_label (rule_named (known_of known.entry)) (part_of part.now) }
{
    match part {
        PartTree::Start => true,
        PartTree::OfRule(rule) => begins_named(known, rule.name.as_slice()),
        PartTree::Then(first, _) => begins_label(known, first),
        PartTree::Choice(left, right) => begins_label(known, left) || begins_label(known, right),
        PartTree::Times(_, part) => begins_label(known, part),
        _ => false,
    }
}

/// Whether the end of a label is the last that a part matches.
fn ends_label(known: Known<'_>, part: &PartTree) -> bool
    ensures { result ≡ ends.ends_label (rule_named (known_of known.entry)) (part_of part.now) }
{
    match part {
        PartTree::End => true,
        PartTree::OfRule(rule) => ends_named(known, rule.name.as_slice()),
        PartTree::Then(_, rest) => ends_label(known, rest),
        PartTree::Choice(left, right) => ends_label(known, left) || ends_label(known, right),
        PartTree::Times(_, part) => ends_label(known, part),
        _ => false,
    }
}

/// The same of the start and the rule of this name.
fn begins_named(known: Known<'_>, name: &[u8]) -> bool
    ensures { result ≡ ends.begins_pattern (rule_named (known_of known.entry) name.now) }
{
    let number = number_of(known.rule_names, name);
    number < known.rules.len() && begins_pattern(&known.rules[number])
}

/// The same of the end and the rule of this name.
fn ends_named(known: Known<'_>, name: &[u8]) -> bool
    ensures { result ≡ ends.ends_pattern (rule_named (known_of known.entry) name.now) }
{
    let number = number_of(known.rule_names, name);
    number < known.rules.len() && ends_pattern(&known.rules[number])
}

fn begins_pattern(tree: &PatternTree) -> bool
    ensures { result ≡ ends.begins_pattern (pattern tree.now) }
{
    match tree {
        PatternTree::Start => true,
        PatternTree::Group(part) => begins_pattern(part),
        PatternTree::Optional(part) => begins_pattern(part),
        PatternTree::Many(part) => begins_pattern(part),
        PatternTree::Then(first, _) => begins_pattern(first),
        PatternTree::Either(left, right) => begins_pattern(left) || begins_pattern(right),
        _ => false,
    }
}

fn ends_pattern(tree: &PatternTree) -> bool
    ensures { result ≡ ends.ends_pattern (pattern tree.now) }
{
    match tree {
        PatternTree::End => true,
        PatternTree::Group(part) => ends_pattern(part),
        PatternTree::Optional(part) => ends_pattern(part),
        PatternTree::Many(part) => ends_pattern(part),
        PatternTree::Then(_, rest) => ends_pattern(rest),
        PatternTree::Either(left, right) => ends_pattern(left) || ends_pattern(right),
        _ => false,
    }
}
