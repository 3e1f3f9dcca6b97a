//! Whether a pattern in memory is one that lines may spell.
ghost use Rattle.std.specs.Prelude.{◌≡◌};
ghost use Rattle.label_patterns.specs.Trees.{pattern};
ghost use Rattle.ruleset_text.specs.Rules as rules;
ghost use Rattle.ruleset_text.specs.inner.FormTests as tests;

use label_patterns::{PatternTree, is_anchor};

/// What the grammar may call a pattern. Each is also the next.
#[derive(Clone, Copy, PartialEq, Eq)]
pub enum PatternSort {
    Atom,
    Item,
    Branch,
    Whole,
}

/// A sign of a pattern that stands for no code point.
#[derive(Clone, Copy, PartialEq, Eq)]
pub enum PatternSign {
    Start,
    End,
    Anchor,
}

/// Whether the pattern is of this sort.
pub fn is_of_sort(sort: PatternSort, tree: &PatternTree) -> bool
    ensures { result ≡ tests.is_of_sort (tests.sort_of sort) (pattern tree.now) }
{
    match tree {
        PatternTree::Point(_) => true,
        PatternTree::Set(_) => true,
        PatternTree::Any => true,
        PatternTree::Start => !is_atom(sort),
        PatternTree::End => !is_atom(sort),
        PatternTree::Anchor => !is_atom(sort),
        PatternTree::Group(part) => is_of_sort(PatternSort::Whole, part),
        PatternTree::Optional(part) => !is_atom(sort) && is_of_sort(PatternSort::Atom, part),
        PatternTree::Many(part) => !is_atom(sort) && is_of_sort(PatternSort::Atom, part),
        PatternTree::Then(first, rest) => {
            may_have_items(sort)
                && is_of_sort(PatternSort::Item, first)
                && is_of_sort(PatternSort::Branch, rest)
        }
        PatternTree::Either(left, right) => {
            matches!(sort, PatternSort::Whole)
                && is_of_sort(PatternSort::Branch, left)
                && is_of_sort(PatternSort::Whole, right)
        }
    }
}

fn is_atom(sort: PatternSort) -> bool
    ensures { result ≡ tests.is_atom (tests.sort_of sort) }
{
    matches!(sort, PatternSort::Atom)
}

/// Whether several items may stand in it.
fn may_have_items(sort: PatternSort) -> bool
    ensures { result ≡ tests.may_have_items (tests.sort_of sort) }
{
    matches!(sort, PatternSort::Branch | PatternSort::Whole)
}

/// Whether the sign stands somewhere in the pattern.
pub fn has_sign(sign: PatternSign, tree: &PatternTree) -> bool
    ensures { result ≡ rules.has (tests.sign_of sign) (pattern tree.now) }
{
    match tree {
        PatternTree::Start => matches!(sign, PatternSign::Start),
        PatternTree::End => matches!(sign, PatternSign::End),
        PatternTree::Anchor => matches!(sign, PatternSign::Anchor),
        PatternTree::Group(part) => has_sign(sign, part),
        PatternTree::Optional(part) => has_sign(sign, part),
        PatternTree::Many(part) => has_sign(sign, part),
        PatternTree::Then(first, rest) => has_sign(sign, first) || has_sign(sign, rest),
        PatternTree::Either(left, right) => has_sign(sign, left) || has_sign(sign, right),
        _ => false,
    }
}

/// Whether it is a context rule, or has no `_`, as a whole-label rule.
pub fn is_rule_or_whole(tree: &PatternTree) -> bool
    ensures { result ≡ rules.is_rule_or_whole (pattern tree.now) }
{
    is_rule(tree) || !has_sign(PatternSign::Anchor, tree)
}

/// Whether it is contexts.
fn is_rule(tree: &PatternTree) -> bool
    ensures { result ≡ rules.is_rule (pattern tree.now) }
{
    match tree {
        PatternTree::Either(left, right) => is_context(left) && is_rule(right),
        PatternTree::Anchor => true,
        PatternTree::Then(_, _) => is_context(tree),
        _ => false,
    }
}

/// Whether it is a context.
fn is_context(tree: &PatternTree) -> bool
    ensures { result ≡ rules.is_context (pattern tree.now) }
{
    match tree {
        PatternTree::Anchor => true,
        PatternTree::Then(first, rest) => {
            if is_anchor(first) {
                is_after(rest)
            } else {
                is_before(first) && is_context(rest)
            }
        }
        _ => false,
    }
}

/// Whether it may stand before `_`.
fn is_before(tree: &PatternTree) -> bool
    ensures { result ≡ rules.is_before (pattern tree.now) }
{
    !has_sign(PatternSign::Anchor, tree) && !has_sign(PatternSign::End, tree)
}

/// Whether it may stand after `_`.
fn is_after(tree: &PatternTree) -> bool
    ensures { result ≡ rules.is_after (pattern tree.now) }
{
    !has_sign(PatternSign::Anchor, tree) && !has_sign(PatternSign::Start, tree)
}
