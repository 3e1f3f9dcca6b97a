//! Conditions that fail whatever follows a beginning of a label.
ghost use Rattle.std.specs.Prelude.{◌≡◌, ◌↔◌, ◌≤◌, length, IsTrue};
ghost use Rattle.label_patterns.specs.Barring.{ends_in_anchor as ends_in_anchor_pattern, OneEndsBefore, OneIsDone};
ghost use Rattle.label_patterns.specs.Laws.{IgnoresEnd};
ghost use Rattle.label_patterns.specs.Matches.{HasItsSets};
ghost use Rattle.label_patterns.specs.Rules.{branches, EndsBefore};
ghost use Rattle.label_patterns.specs.Trees.{pattern};

use crate::contexts::{is_anchor, places_before};
use crate::pattern_tree::PatternTree;
use crate::places::has;
use crate::seen_label::SeenLabel;

/// Whether `_` is the last item of the context.
fn ends_in_anchor(context: &PatternTree) -> bool
    ensures { result ≡ ends_in_anchor_pattern (pattern context.now) }
{
    match context {
        PatternTree::Anchor => true,
        PatternTree::Then(item, rest) => !is_anchor(item) && ends_in_anchor(rest),
        _ => false,
    }
}

/// Whether what stands before `_` in the context is found before a place of the label.
fn is_before(context: &PatternTree, seen: &SeenLabel, start: usize) -> bool
    requires known { HasItsSets (length seen.now.sets) (pattern context.now) }
    requires start { start ≤ length seen.now.label }
    ensures { IsTrue result ↔ EndsBefore seen.now (pattern context.now) start }
{
    has(places_before(context, seen), start)
}

/// Whether what stands before `_` in one of the rule's contexts is found before a place of the label.
pub fn one_ends_before(rule: &PatternTree, seen: &SeenLabel, start: usize) -> bool
    requires known { HasItsSets (length seen.now.sets) (pattern rule.now) }
    requires start { start ≤ length seen.now.label }
    ensures { IsTrue result ↔ OneEndsBefore seen.now (branches (pattern rule.now)) start }
{
    match rule {
        PatternTree::Either(context, others) => {
            is_before(context, seen, start) || one_ends_before(others, seen, start)
        }
        _ => is_before(rule, seen, start),
    }
}

/// Whether what stands before `_` is found before a place of the label, in one of the rule's contexts in which nothing
/// stands after `_`.
pub fn one_is_done(rule: &PatternTree, seen: &SeenLabel, start: usize) -> bool
    requires known { HasItsSets (length seen.now.sets) (pattern rule.now) }
    requires start { start ≤ length seen.now.label }
    ensures { IsTrue result ↔ OneIsDone seen.now (branches (pattern rule.now)) start }
{
    match rule {
        PatternTree::Either(context, others) => {
            is_done(context, seen, start) || one_is_done(others, seen, start)
        }
        _ => is_done(rule, seen, start),
    }
}

/// Whether nothing stands after `_` in the context, and what stands before it is found before a place of the label.
fn is_done(context: &PatternTree, seen: &SeenLabel, start: usize) -> bool
    requires known { HasItsSets (length seen.now.sets) (pattern context.now) }
    requires start { start ≤ length seen.now.label }
    ensures { IsTrue result ↔ (IsTrue (ends_in_anchor_pattern (pattern context.now)) ×
        EndsBefore seen.now (pattern context.now) start) }
{
    ends_in_anchor(context) && is_before(context, seen, start)
}

/// Whether a pattern doesn't ask for the end of the label.
pub fn ignores_end(tree: &PatternTree) -> bool
    ensures { IsTrue result ↔ IgnoresEnd (pattern tree.now) }
{
    match tree {
        PatternTree::End => false,
        PatternTree::Group(part) => ignores_end(part),
        PatternTree::Optional(part) => ignores_end(part),
        PatternTree::Many(part) => ignores_end(part),
        PatternTree::Then(first, rest) => ignores_end(first) && ignores_end(rest),
        PatternTree::Either(left, right) => ignores_end(left) && ignores_end(right),
        _ => true,
    }
}
