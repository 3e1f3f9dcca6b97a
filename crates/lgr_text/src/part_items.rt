//! The parts of a rule as items of a pattern (RFC 7940, sections 6.3 and 6.4).
ghost use Rattle.std.specs.Prelude.{◌≡◌, ◌<◌, ◌+◌, ◌++◌, ◌&&◌, ◌∷◌, ◌⊎◌, [], false, map, length, slice_index_or, None};
ghost use Rattle.std.specs.Prelude.{IfOk, OnOk};
ghost use Rattle.label_patterns.specs.Patterns as patterns;
ghost use Rattle.label_patterns.specs.Sets.{Rise};
ghost use Rattle.label_patterns.specs.Trees.{pattern};
ghost use Rattle.ruleset_text.specs.Grammar.{Is, Atom};
ghost use Rattle.lgr_text.specs.ClassMembers.{class_fault, HasSpans};
ghost use Rattle.lgr_text.specs.Known.{known as known_of, HaveSpans};
ghost use Rattle.lgr_text.specs.LabelEnds.{begins_label};
ghost use Rattle.lgr_text.specs.PartMatches.{has_anchor, name_fault, part_fault, rule_named};
ghost use Rattle.lgr_text.specs.PartMatches.{IsWellFormed};
ghost use Rattle.lgr_text.specs.Records.{class as class_of, part as part_of};
ghost use Rattle.lgr_text.specs.inner.Branches.{HaveBranches};
ghost use Rattle.lgr_text.specs.inner.Faults.{IsFaultOf};
ghost use Rattle.lgr_text.specs.inner.Items.{as_atom, choice_of, copies, further, in_sequence};
ghost use Rattle.lgr_text.specs.inner.Items.{is_atom as is_atom_pattern};
ghost use Rattle.lgr_text.specs.inner.Items.{is_never as is_never_pattern, never as never_pattern};
ghost use Rattle.lgr_text.specs.inner.Items.{nothing as nothing_pattern, turned};
ghost use Rattle.lgr_text.specs.inner.Items.{literal_items, ungrouped as ungrouped_pattern};
ghost use Rattle.lgr_text.specs.inner.Items.{AddsChoice, AddsClass, Appends, FitsLine, Follows, HaveSets};

use crate::class_sets::set_of;
use crate::joins::SetOperation;
use crate::known::Known;
use crate::part_faults::{check_then, check_times};
use crate::records::{ClassTree, Count, PartTree};
use crate::rule_error::{RuleError, RuleFault};
use label_patterns::{PatternTree, PointSet, Span};
use ruleset_text::number_of;
use std::alloc::{AllocError, Global};

/// The most spans of a set, since a line of the notation has the place for these: each takes 15 bytes at most.
const MOST_SPANS: usize = 500;

/// One pattern after another.
pub(crate) fn then(
    alloc: Global,
    first: PatternTree,
    rest: PatternTree,
) -> Result<PatternTree, AllocError>
    ensures { IfOk result (λ tree. pattern tree ≡ patterns.Then (pattern first) (pattern rest)) }
{
    Ok(PatternTree::Then(Box::new(alloc, first)?, Box::new(alloc, rest)?))
}

/// One pattern or another.
pub(crate) fn either(
    alloc: Global,
    left: PatternTree,
    right: PatternTree,
) -> Result<PatternTree, AllocError>
    ensures { IfOk result (λ tree. pattern tree ≡ patterns.Either (pattern left) (pattern right)) }
{
    Ok(PatternTree::Either(Box::new(alloc, left)?, Box::new(alloc, right)?))
}

/// A pattern in a group.
fn group(alloc: Global, tree: PatternTree) -> Result<PatternTree, AllocError>
    ensures { IfOk result (λ item. pattern item ≡ patterns.Group (pattern tree)) }
{
    Ok(PatternTree::Group(Box::new(alloc, tree)?))
}

/// The number of a set among those that patterns name, to which it is added if it is none of them.
fn number_of_set(sets: &mut Vec<PointSet>, set: PointSet) -> Result<usize, AllocError>
    ensures kept { OnOk result
        ((sets.new.items ≡ sets.old.items) ⊎ (sets.new.items ≡ sets.old.items ++ set ∷ [])) }
    ensures within { IfOk result (λ number. number < length sets.new.items) }
    ensures number { IfOk result (λ number. slice_index_or sets.new.items number [] ≡ set) }
{
    for number in 0..sets.len() {
        if sets[number].spans() == set.spans() {
            return Ok(number);
        }
    }
    sets.push(set)?;
    Ok(sets.len() - 1)
}

/// Spans as a set.
fn set_tree(
    alloc: Global,
    sets: &mut Vec<PointSet>,
    spans: &[Span],
) -> Result<PatternTree, AllocError>
    requires rise { Rise spans.now }
    requires fits { FitsLine spans.now }
    ensures sets { IfOk result (λ tree. AddsChoice spans.now sets.old.items sets.new.items (pattern tree)) }
    ensures atom { IfOk result (λ tree. Is Atom (pattern tree)) }
{
    let set = PointSet::new(Vec::from_slice(alloc, spans)?);
    let number = number_of_set(sets, set)?;
    Ok(PatternTree::Set(number))
}

/// Spans as a set, or as a choice between sets where they are too many for one.
fn choice_of_sets(
    alloc: Global,
    sets: &mut Vec<PointSet>,
    spans: &[Span],
) -> Result<PatternTree, AllocError>
    requires rise { Rise spans.now }
    requires some { 0 < length spans.now }
    ensures { IfOk result (λ tree. AddsChoice spans.now sets.old.items sets.new.items (pattern tree)) }
{
    if spans.len() <= MOST_SPANS {
        return set_tree(alloc, sets, spans);
    }
    let (first, others) = spans.split_at(MOST_SPANS);
    let left = set_tree(alloc, sets, first)?;
    let right = choice_of_sets(alloc, sets, others)?;
    either(alloc, left, right)
}

/// The items one after the other.
pub(crate) fn sequence_of(
    alloc: Global,
    mut items: Vec<PatternTree>,
) -> Result<PatternTree, AllocError>
    ensures { IfOk result (λ tree. pattern tree ≡ in_sequence (map pattern items.items)) }
{
    let Some(mut tree) = items.pop() else {
        return nothing(alloc);
    };
    while let Some(item) = items.pop() {
        tree = then(alloc, item, tree)?;
    }
    Ok(tree)
}

/// What matches the empty part of a label at each place, and nothing else.
fn nothing(alloc: Global) -> Result<PatternTree, AllocError>
    ensures { IfOk result (λ tree. pattern tree ≡ nothing_pattern) }
{
    let inner = group(alloc, never(alloc)?)?;
    Ok(PatternTree::Optional(Box::new(alloc, inner)?))
}

/// What no part of a label matches: a code point before the start.
fn never(alloc: Global) -> Result<PatternTree, AllocError>
    ensures { IfOk result (λ tree. pattern tree ≡ never_pattern) }
{
    then(alloc, PatternTree::Any, PatternTree::Start)
}

/// Whether two patterns, one after the other, are what no part of a label matches.
fn is_never(first: &PatternTree, rest: &PatternTree) -> bool
    ensures { result ≡ is_never_pattern (pattern first.now) (pattern rest.now) }
{
    matches!(first, PatternTree::Any) && matches!(rest, PatternTree::Start)
}

/// Makes the pattern one that may stand after the anchor, where no pattern has the start of a label: what no part of a
/// label matches becomes a code point after the end.
fn turn(tree: &mut PatternTree)
    ensures { pattern tree.new ≡ turned (pattern tree.old) }
{
    match tree {
        PatternTree::Group(part) => turn(part),
        PatternTree::Optional(part) => turn(part),
        PatternTree::Many(part) => turn(part),
        PatternTree::Then(first, rest) => {
            if is_never(first, rest) {
                **first = PatternTree::End;
                **rest = PatternTree::Any;
            } else {
                turn(first);
                turn(rest);
            }
        }
        PatternTree::Either(left, right) => {
            turn(left);
            turn(right);
        }
        _ => {}
    }
}

/// Appends what may stand after the anchor in the place of other items.
fn push_turned(items: &mut Vec<PatternTree>, others: Vec<PatternTree>) -> Result<(), RuleError>
    ensures items { OnOk result (map pattern items.new.items ≡
        map pattern items.old.items ++ map turned (map pattern others.items)) }
    ensures fault { IsFaultOf None result }
{
    for item in others {
        let mut item = item;
        turn(&mut item);
        push(items, item)?;
    }
    Ok(())
}

/// The items as one atom, to which `?` or `*` may be added.
fn atom_of(alloc: Global, mut items: Vec<PatternTree>) -> Result<PatternTree, AllocError>
    ensures { IfOk result (λ tree. pattern tree ≡ as_atom (map pattern items.items)) }
{
    match items.pop() {
        Some(item) if items.is_empty() && is_atom(&item) => Ok(item),
        Some(item) => {
            items.push(item)?;
            let inner = sequence_of(alloc, items)?;
            group(alloc, inner)
        }
        None => group(alloc, nothing(alloc)?),
    }
}

/// The pattern, in a group if `?` or `*` may not be added to it.
fn grouped(alloc: Global, tree: PatternTree) -> Result<PatternTree, AllocError>
    ensures { IfOk result (λ item. pattern item ≡ as_atom (pattern tree ∷ [])) }
{
    if is_atom(&tree) {
        Ok(tree)
    } else {
        group(alloc, tree)
    }
}

/// Whether `?` or `*` may be added to an item.
fn is_atom(tree: &PatternTree) -> bool
    ensures { result ≡ is_atom_pattern (pattern tree.now) }
{
    matches!(
        tree,
        PatternTree::Point(_) | PatternTree::Set(_) | PatternTree::Any | PatternTree::Group(_)
    )
}

/// The pattern once more.
///
/// `Err`: memory was refused.
pub fn copied(alloc: Global, tree: &PatternTree) -> Result<PatternTree, AllocError>
    ensures { IfOk result (λ copy. pattern copy ≡ pattern tree.now) }
{
    match tree {
        PatternTree::Point(point) => Ok(PatternTree::Point(*point)),
        PatternTree::Set(number) => Ok(PatternTree::Set(*number)),
        PatternTree::Any => Ok(PatternTree::Any),
        PatternTree::Start => Ok(PatternTree::Start),
        PatternTree::End => Ok(PatternTree::End),
        PatternTree::Anchor => Ok(PatternTree::Anchor),
        PatternTree::Group(part) => group(alloc, copied(alloc, part)?),
        PatternTree::Optional(part) => Ok(PatternTree::Optional(Box::new(
            alloc,
            copied(alloc, part)?,
        )?)),
        PatternTree::Many(part) => Ok(PatternTree::Many(Box::new(alloc, copied(alloc, part)?)?)),
        PatternTree::Then(first, rest) => {
            let first = copied(alloc, first)?;
            then(alloc, first, copied(alloc, rest)?)
        }
        PatternTree::Either(left, right) => {
            let left = copied(alloc, left)?;
            either(alloc, left, copied(alloc, right)?)
        }
    }
}

/// Appends an item.
pub(crate) fn push(items: &mut Vec<PatternTree>, item: PatternTree) -> Result<(), RuleError>
    ensures items { OnOk result (map pattern items.new.items ≡ map pattern items.old.items ++ pattern item ∷ []) }
    ensures fault { IsFaultOf None result }
{
    items.push(item)?;
    Ok(())
}

/// Appends copies of items.
pub(crate) fn push_copies(
    alloc: Global,
    items: &mut Vec<PatternTree>,
    others: &[PatternTree],
) -> Result<(), RuleError>
    ensures items { OnOk result (map pattern items.new.items ≡ map pattern items.old.items ++ map pattern others.now) }
    ensures fault { IsFaultOf None result }
{
    for other in others {
        let copy = copied(alloc, other)?;
        push(items, copy)?;
    }
    Ok(())
}

/// Appends what no part of a label matches, in a group.
fn push_never(alloc: Global, items: &mut Vec<PatternTree>) -> Result<(), RuleError>
    ensures items { OnOk result (map pattern items.new.items ≡
        map pattern items.old.items ++ patterns.Group never_pattern ∷ []) }
    ensures fault { IsFaultOf None result }
{
    let inner = never(alloc)?;
    push(items, group(alloc, inner)?)
}

/// Appends code points; what matches nothing, if one of them is in no label.
fn push_literal(
    alloc: Global,
    known: Known<'_>,
    items: &mut Vec<PatternTree>,
    literal: &[u32],
) -> Result<(), RuleError>
    ensures items { OnOk result (map pattern items.new.items ≡
        map pattern items.old.items ++ literal_items (known_of known.entry).points literal.now) }
    ensures fault { IsFaultOf None result }
{
    if known.points.has_all(literal) {
        push_points(items, literal)
    } else {
        push_never(alloc, items)
    }
}

/// Appends code points.
fn push_points(items: &mut Vec<PatternTree>, points: &[u32]) -> Result<(), RuleError>
    ensures items { OnOk result (map pattern items.new.items ≡
        map pattern items.old.items ++ map patterns.Point points.now) }
    ensures fault { IsFaultOf None result }
{
    for point in points {
        push(items, PatternTree::Point(*point))?;
    }
    Ok(())
}

/// Appends the set of a class, or a choice between sets; what matches nothing, if none of its code points is in labels.
fn push_class(
    alloc: Global,
    known: Known<'_>,
    items: &mut Vec<PatternTree>,
    sets: &mut Vec<PointSet>,
    class: &ClassTree,
) -> Result<(), RuleError>
    requires spans { HasSpans (class_of class.now) }
    requires entries { HaveSpans (known_of known).entries }
    ensures items { OnOk result (AddsClass (known_of known.entry) (class_of class.now)
        sets.old.items sets.new.items (map pattern items.old.items) (map pattern items.new.items)) }
    ensures fault { IsFaultOf (class_fault (known_of known.entry) (class_of class.now)) result }
{
    let class = set_of(alloc, known, class)?;
    let set = class.join(alloc, SetOperation::Intersection, known.points)?;
    if set.is_empty() {
        return push_never(alloc, items);
    }
    let choice = choice_of_sets(alloc, sets, set.spans())?;
    let item = grouped(alloc, choice)?;
    push(items, item)
}

/// Appends the pattern of the rule of this name, in a group.
fn push_rule(
    alloc: Global,
    known: Known<'_>,
    items: &mut Vec<PatternTree>,
    name: &[u8],
) -> Result<(), RuleError>
    ensures items { OnOk result (map pattern items.new.items ≡
        map pattern items.old.items ++ patterns.Group (rule_named (known_of known.entry) name.now) ∷ []) }
    ensures fault { IsFaultOf (name_fault (known_of known.entry) name.now) result }
{
    let rule = named_pattern(alloc, known, name)?;
    push(items, group(alloc, rule)?)
}

/// The pattern of the rule of this name.
pub(crate) fn named_pattern(
    alloc: Global,
    known: Known<'_>,
    name: &[u8],
) -> Result<PatternTree, RuleError>
    ensures rule { IfOk result (λ tree. pattern tree ≡ rule_named (known_of known.entry) name.now) }
    ensures fault { IsFaultOf (name_fault (known_of known.entry) name.now) result }
{
    let number = number_of(known.rule_names, name);
    if number >= known.rules.len() {
        return Err(RuleError::Fault(RuleFault::Undefined));
    }
    Ok(copied(alloc, &known.rules[number])?)
}

/// Appends a choice between items and other items.
fn push_choice(
    alloc: Global,
    items: &mut Vec<PatternTree>,
    left: Vec<PatternTree>,
    right: Vec<PatternTree>,
) -> Result<(), RuleError>
    ensures items { OnOk result (map pattern items.new.items ≡
        map pattern items.old.items ++ choice_of (map pattern left.items) (map pattern right.items) ∷ []) }
    ensures fault { IsFaultOf None result }
{
    let left = sequence_of(alloc, left)?;
    let right = ungrouped(sequence_of(alloc, right)?);
    let choice = either(alloc, left, right)?;
    push(items, group(alloc, choice)?)
}

/// What is in a group, or the pattern, if it is none.
fn ungrouped(tree: PatternTree) -> PatternTree
    ensures { pattern result ≡ ungrouped_pattern (pattern tree) }
{
    match tree {
        PatternTree::Group(inner) => Box::into_inner(inner),
        other => other,
    }
}

/// Appends items as often as a count says.
fn push_times(
    alloc: Global,
    items: &mut Vec<PatternTree>,
    count: Count,
    once: Vec<PatternTree>,
) -> Result<(), RuleError>
    ensures items { OnOk result (map pattern items.new.items ≡
        map pattern items.old.items ++
        (copies count.least (map pattern once.items) ++ further count (map pattern once.items))) }
    ensures fault { IsFaultOf None result }
{
    push_repeated(alloc, items, count.least, &once)?;
    let atom = Box::new(alloc, atom_of(alloc, once)?)?;
    match count.most {
        None => push(items, PatternTree::Many(atom)),
        Some(most) => {
            let optional = [PatternTree::Optional(atom)];
            push_repeated(alloc, items, most.saturating_sub(count.least), &optional)
        }
    }
}

/// Appends copies of items so many times.
fn push_repeated(
    alloc: Global,
    items: &mut Vec<PatternTree>,
    times: u32,
    others: &[PatternTree],
) -> Result<(), RuleError>
    ensures items { OnOk result (map pattern items.new.items ≡
        map pattern items.old.items ++ copies times (map pattern others.now)) }
    ensures fault { IsFaultOf None result }
{
    for _time in 0..times {
        push_copies(alloc, items, others)?;
    }
    Ok(())
}

/// Appends the items that match what a part of a rule matches.
pub(crate) fn push_part(
    alloc: Global,
    known: Known<'_>,
    items: &mut Vec<PatternTree>,
    sets: &mut Vec<PointSet>,
    part: &PartTree,
) -> Result<(), RuleError>
    requires part { IsWellFormed (part_of part.now) }
    requires none { has_anchor (known_of known) (part_of part.now) ≡ false }
    requires entries { HaveSpans (known_of known).entries }
    requires rules { HaveSets (length sets.old.items) (known_of known).rules }
    requires branches { HaveBranches (known_of known).rules }
    ensures items { OnOk result (Appends (known_of known.entry) sets.old.items sets.new.items
        (map pattern items.old.items) (map pattern items.new.items) (part_of part.now)) }
    ensures rules { OnOk result (HaveSets (length sets.new.items) (known_of known.entry).rules) }
    ensures fault { IsFaultOf (part_fault (known_of known.entry) (part_of part.now)) result }
{
    match part {
        PartTree::Literal(points) => push_literal(alloc, known, items, points),
        PartTree::Any => push(items, PatternTree::Any),
        PartTree::Of(class) => push_class(alloc, known, items, sets, class),
        PartTree::Start => push(items, PatternTree::Start),
        PartTree::End => push(items, PatternTree::End),
        PartTree::Anchor => push(items, PatternTree::Anchor),
        PartTree::OfRule(rule) => push_rule(alloc, known, items, rule.name.as_slice()),
        PartTree::Then(first, rest) => {
            check_then(known, first, rest)?;
            push_part(alloc, known, items, sets, first)?;
            push_part(alloc, known, items, sets, rest)
        }
        PartTree::Choice(left, right) => {
            let mut left_items = Vec::new(alloc);
            push_part(alloc, known, &mut left_items, sets, left)?;
            let mut right_items = Vec::new(alloc);
            push_part(alloc, known, &mut right_items, sets, right)?;
            push_choice(alloc, items, left_items, right_items)
        }
        PartTree::Times(count, part) => {
            check_times(known, part)?;
            let mut once = Vec::new(alloc);
            push_part(alloc, known, &mut once, sets, part)?;
            push_times(alloc, items, *count, once)
        }
    }
}

/// Appends the same of a part that doesn't begin a label, as they may stand after the anchor.
pub(crate) fn push_following(
    alloc: Global,
    known: Known<'_>,
    items: &mut Vec<PatternTree>,
    sets: &mut Vec<PointSet>,
    part: &PartTree,
) -> Result<(), RuleError>
    requires part { IsWellFormed (part_of part.now) }
    requires none { has_anchor (known_of known) (part_of part.now) ≡ false }
    requires entries { HaveSpans (known_of known).entries }
    requires rules { HaveSets (length sets.old.items) (known_of known).rules }
    requires branches { HaveBranches (known_of known).rules }
    requires start { begins_label (rule_named (known_of known)) (part_of part.now) ≡ false }
    ensures items { OnOk result (Follows (known_of known.entry) sets.old.items sets.new.items
        (map pattern items.old.items) (map pattern items.new.items) (part_of part.now)) }
    ensures rules { OnOk result (HaveSets (length sets.new.items) (known_of known.entry).rules) }
    ensures fault { IsFaultOf (part_fault (known_of known.entry) (part_of part.now)) result }
{
    let mut others = Vec::new(alloc);
    push_part(alloc, known, &mut others, sets, part)?;
    push_turned(items, others)
}
