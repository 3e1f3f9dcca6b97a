//! The contexts of a rule, and where rules hold.
ghost use Rattle.std.specs.Prelude.{◌≡◌, ◌↔◌, ◌+◌, ◌<◌, ◌≤◌, length, IsTrue};
ghost use Rattle.label_patterns.specs.Matches.{HasItsSets};
ghost use Rattle.label_patterns.specs.Places.{Has};
ghost use Rattle.label_patterns.specs.Rules.{is_anchor as is_anchor_pattern, Before, EndsBefore, BeginsAfter, Holds};
ghost use Rattle.label_patterns.specs.Rules.{branches, HoldsInOne};
ghost use Rattle.label_patterns.specs.Rules as rules;
ghost use Rattle.label_patterns.specs.Trees.{pattern};

use crate::demands::occurs;
use crate::ends::ends;
use crate::pattern_tree::PatternTree;
use crate::places::{all_places, before, either, has};
use crate::seen_label::SeenLabel;
use crate::starts::starts;

/// The places of a label such that what is before one of them ends in what stands before `_` in the context.
pub fn places_before(context: &PatternTree, seen: &SeenLabel) -> u64
    requires { HasItsSets (length seen.now.sets) (pattern context.now) }
    ensures { (i : _) → Has result i ↔ ((i ≤ length seen.now.label) × EndsBefore seen.now (pattern context.now) i) }
{
    places_from(context, seen, all_places(seen.len()))
}

/// The places up to which what stands before `_` can be found, if it begins at one of `places`.
fn places_from(context: &PatternTree, seen: &SeenLabel, places: u64) -> u64
    requires { HasItsSets (length seen.now.sets) (pattern context.now) }
    ensures { (i : _) → Has result i ↔ ((k : _) × Has places k × Before seen.now (pattern context.now) k i) }
{
    match context {
        PatternTree::Anchor => places,
        PatternTree::Then(item, rest) => {
            if is_anchor(item) {
                places
            } else {
                places_from(rest, seen, ends(item, seen, places))
            }
        }
        _ => 0,
    }
}

/// The places of a label such that what is after one of them begins with what stands after `_` in the context.
pub fn places_after(context: &PatternTree, seen: &SeenLabel) -> u64
    requires { HasItsSets (length seen.now.sets) (pattern context.now) }
    ensures { (j : _) → Has result j ↔ ((j ≤ length seen.now.label) × BeginsAfter seen.now (pattern context.now) j) }
{
    match context {
        PatternTree::Anchor => all_places(seen.len()),
        PatternTree::Then(item, rest) => {
            if is_anchor(item) {
                starts(rest, seen, all_places(seen.len()))
            } else {
                places_after(rest, seen)
            }
        }
        _ => 0,
    }
}

/// Whether the pattern is `_` alone, which stands for the place that a context rule is about.
pub fn is_anchor(tree: &PatternTree) -> bool
    ensures { result ≡ is_anchor_pattern (pattern tree.now) }
{
    matches!(tree, PatternTree::Anchor)
}

/// Whether the pattern is that of a context rule: `_` stands in its first branch (RFC 7940, section 6.4). Any other is
/// that of a whole-label rule.
pub fn is_context_rule(rule: &PatternTree) -> bool
    ensures { result ≡ rules.is_context_rule (pattern rule.now) }
{
    match rule {
        PatternTree::Either(context, _) => is_context(context),
        _ => is_context(rule),
    }
}

/// Whether `_` is one of the items.
fn is_context(branch: &PatternTree) -> bool
    ensures { result ≡ rules.is_context (pattern branch.now) }
{
    match branch {
        PatternTree::Anchor => true,
        PatternTree::Then(item, rest) => is_anchor(item) || is_context(rest),
        _ => false,
    }
}

/// Whether one context holds for the part of the label from `start` to `end`.
fn context_holds(context: &PatternTree, seen: &SeenLabel, start: usize, end: usize) -> bool
    requires known { HasItsSets (length seen.now.sets) (pattern context.now) }
    requires start { start ≤ length seen.now.label }
    requires end { end ≤ length seen.now.label }
    ensures { IsTrue result ↔ (EndsBefore seen.now (pattern context.now) start ×
        BeginsAfter seen.now (pattern context.now) end) }
{
    has(places_before(context, seen), start) && has(places_after(context, seen), end)
}

/// Whether a rule holds for the part of the label from `start` to `end`.
pub fn holds(rule: &PatternTree, seen: &SeenLabel, start: usize, end: usize) -> bool
    requires known { HasItsSets (length seen.now.sets) (pattern rule.now) }
    requires start { start ≤ length seen.now.label }
    requires end { end ≤ length seen.now.label }
    ensures { IsTrue result ↔ Holds seen.now (pattern rule.now) start end }
{
    if is_context_rule(rule) {
        holds_in_one(rule, seen, start, end)
    } else {
        occurs(rule, seen)
    }
}

/// Whether one of the contexts holds for the part of the label from `start` to `end`.
fn holds_in_one(rule: &PatternTree, seen: &SeenLabel, start: usize, end: usize) -> bool
    requires known { HasItsSets (length seen.now.sets) (pattern rule.now) }
    requires start { start ≤ length seen.now.label }
    requires end { end ≤ length seen.now.label }
    ensures { IsTrue result ↔ HoldsInOne seen.now (branches (pattern rule.now)) start end }
{
    match rule {
        PatternTree::Either(context, others) => {
            context_holds(context, seen, start, end) || holds_in_one(others, seen, start, end)
        }
        PatternTree::Then(_, _) => context_holds(rule, seen, start, end),
        PatternTree::Anchor => true,
        _ => false,
    }
}

/// The places of a label such that one context holds for the code point that stands there.
fn points_in_context(context: &PatternTree, seen: &SeenLabel) -> u64
    requires { HasItsSets (length seen.now.sets) (pattern context.now) }
    ensures { (i : _) → Has result i ↔
        ((i < length seen.now.label) × EndsBefore seen.now (pattern context.now) i ×
        BeginsAfter seen.now (pattern context.now) (i + 1)) }
{
    before(places_after(context, seen), places_before(context, seen))
}

/// The places of a label such that a rule holds for the code point that stands there.
pub fn holding_points(rule: &PatternTree, seen: &SeenLabel) -> u64
    requires { HasItsSets (length seen.now.sets) (pattern rule.now) }
    ensures { (i : _) → Has result i ↔ ((i < length seen.now.label) × Holds seen.now (pattern rule.now) i (i + 1)) }
{
    if is_context_rule(rule) {
        points_in_one(rule, seen)
    } else if occurs(rule, seen) {
        seen.places_of_all()
    } else {
        0
    }
}

/// The places of a label such that one of the contexts holds for the code point that stands there.
fn points_in_one(rule: &PatternTree, seen: &SeenLabel) -> u64
    requires { HasItsSets (length seen.now.sets) (pattern rule.now) }
    ensures { (i : _) → Has result i ↔
        ((i < length seen.now.label) × HoldsInOne seen.now (branches (pattern rule.now)) i (i + 1)) }
{
    match rule {
        PatternTree::Either(context, others) => either(
            points_in_context(context, seen),
            points_in_one(others, seen),
        ),
        PatternTree::Then(_, _) => points_in_context(rule, seen),
        PatternTree::Anchor => seen.places_of_all(),
        _ => 0,
    }
}
