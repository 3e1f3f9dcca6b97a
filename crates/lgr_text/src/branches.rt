//! The branches of a rule (RFC 7940, sections 6.3.4 and 6.4.1): a choice in which the anchor stands is one of patterns,
//! each of which has the anchor, by itself or from a rule that is named.
ghost use Rattle.std.specs.Prelude.{◌≡◌, ◌+◌, false, true, map, length, None, IfOk, IsTrue, OnOk};
ghost use Rattle.label_patterns.specs.Matches.{HasItsSets};
ghost use Rattle.label_patterns.specs.Rules.{is_context_rule};
ghost use Rattle.label_patterns.specs.Trees.{pattern};
ghost use Rattle.ruleset_text.specs.Grammar.{Is, Whole};
ghost use Rattle.ruleset_text.specs.Rules.{is_rule_or_whole};
ghost use Rattle.lgr_text.specs.Known.{known as known_of, HaveSpans};
ghost use Rattle.lgr_text.specs.PartAtoms.{fault_within, rule_atoms};
ghost use Rattle.lgr_text.specs.PartMatches.{has_anchor as has_anchor_part, part_fault};
ghost use Rattle.lgr_text.specs.PartMatches.{BeginsWith, IsWellFormed, Matching, MatchesAsPart, SaysRule};
ghost use Rattle.lgr_text.specs.Records.{part as part_of};
ghost use Rattle.lgr_text.specs.inner.Branches.{HasBranches, HaveBranches, MakesBranches};
ghost use Rattle.lgr_text.specs.inner.Branches.{followed as followed_by, joined as joined_of, preceded as preceded_by};
ghost use Rattle.lgr_text.specs.inner.Faults.{IsFaultOf};
ghost use Rattle.lgr_text.specs.inner.Items.{HaveSets};

use crate::atoms::left_after;
use crate::known::Known;
use crate::part_faults::{check_then, has_anchor, have_anchors};
use crate::part_items::{
    either, named_pattern, push, push_copies, push_following, push_part, sequence_of,
};
use crate::records::PartTree;
use crate::rule_error::{RuleError, RuleFault};
use label_patterns::{PatternTree, PointSet};
use std::alloc::{AllocError, Global};

/// The sets that patterns name, and how many atoms are left for further patterns.
#[derive(Drop)]
pub struct Made {
    pub sets: Vec<PointSet>,
    pub atoms_left: usize,
}

/// The branches of both patterns.
fn joined(alloc: Global, tree: PatternTree, others: PatternTree) -> Result<PatternTree, AllocError>
    ensures { IfOk result (λ both. pattern both ≡ joined_of (pattern tree) (pattern others)) }
{
    match tree {
        PatternTree::Either(branch, rest) => {
            let rest = joined(alloc, Box::into_inner(rest), others)?;
            Ok(PatternTree::Either(branch, Box::new(alloc, rest)?))
        }
        branch => either(alloc, branch, others),
    }
}

/// The items before each branch of a pattern.
fn preceded(
    alloc: Global,
    items: &[PatternTree],
    tree: PatternTree,
) -> Result<PatternTree, RuleError>
    ensures tree { IfOk result (λ row. pattern row ≡ preceded_by (map pattern items.now) (pattern tree)) }
    ensures fault { IsFaultOf None result }
{
    match tree {
        PatternTree::Either(branch, rest) => {
            let branch = preceded(alloc, items, Box::into_inner(branch))?;
            let rest = preceded(alloc, items, Box::into_inner(rest))?;
            Ok(either(alloc, branch, rest)?)
        }
        branch => {
            let mut row = Vec::new(alloc);
            push_copies(alloc, &mut row, items)?;
            push(&mut row, branch)?;
            Ok(sequence_of(alloc, row)?)
        }
    }
}

/// The items after each branch of a pattern.
fn followed(
    alloc: Global,
    tree: PatternTree,
    items: &[PatternTree],
) -> Result<PatternTree, RuleError>
    ensures tree { IfOk result (λ row. pattern row ≡ followed_by (map pattern items.now) (pattern tree)) }
    ensures fault { IsFaultOf None result }
{
    match tree {
        PatternTree::Either(branch, rest) => {
            let branch = followed(alloc, Box::into_inner(branch), items)?;
            let rest = followed(alloc, Box::into_inner(rest), items)?;
            Ok(either(alloc, branch, rest)?)
        }
        PatternTree::Then(item, rest) => {
            let rest = followed(alloc, Box::into_inner(rest), items)?;
            Ok(PatternTree::Then(item, Box::new(alloc, rest)?))
        }
        item => {
            let mut row = Vec::new(alloc);
            push(&mut row, item)?;
            push_copies(alloc, &mut row, items)?;
            Ok(sequence_of(alloc, row)?)
        }
    }
}

/// The pattern of a rule without an anchor.
fn plain_pattern(
    alloc: Global,
    known: Known<'_>,
    sets: &mut Vec<PointSet>,
    rule: &PartTree,
) -> Result<PatternTree, RuleError>
    requires rule { IsWellFormed (part_of rule.now) }
    requires none { has_anchor_part (known_of known) (part_of rule.now) ≡ false }
    requires entries { HaveSpans (known_of known).entries }
    requires rules { HaveSets (length sets.old.items) (known_of known).rules }
    requires branches { HaveBranches (known_of known).rules }
    ensures branches { IfOk result (λ tree. MakesBranches (known_of known.entry).points false
        sets.old.items sets.new.items (pattern tree) (Matching (known_of known.entry) (part_of rule.now))) }
    ensures rules { OnOk result (HaveSets (length sets.new.items) (known_of known.entry).rules) }
    ensures fault { IsFaultOf (part_fault (known_of known.entry) (part_of rule.now)) result }
{
    let mut items = Vec::new(alloc);
    push_part(alloc, known, &mut items, sets, rule)?;
    Ok(sequence_of(alloc, items)?)
}

/// The branches of a part of a rule that has the anchor: what stands beside a choice in a row stands in each of its
/// branches.
fn anchored_pattern(
    alloc: Global,
    known: Known<'_>,
    sets: &mut Vec<PointSet>,
    part: &PartTree,
) -> Result<PatternTree, RuleError>
    requires part { IsWellFormed (part_of part.now) }
    requires anchored { has_anchor_part (known_of known) (part_of part.now) ≡ true }
    requires entries { HaveSpans (known_of known).entries }
    requires rules { HaveSets (length sets.old.items) (known_of known).rules }
    requires branches { HaveBranches (known_of known).rules }
    ensures branches { IfOk result (λ tree. MakesBranches (known_of known.entry).points true
        sets.old.items sets.new.items (pattern tree) (Matching (known_of known.entry) (part_of part.now))) }
    ensures rules { OnOk result (HaveSets (length sets.new.items) (known_of known.entry).rules) }
    ensures fault { IsFaultOf (part_fault (known_of known.entry) (part_of part.now)) result }
{
    match part {
        PartTree::Then(first, rest) => {
            check_then(known, first, rest)?;
            let mut items = Vec::new(alloc);
            if has_anchor(known, first) {
                let tree = anchored_pattern(alloc, known, sets, first)?;
                push_following(alloc, known, &mut items, sets, rest)?;
                followed(alloc, tree, &items)
            } else {
                push_part(alloc, known, &mut items, sets, first)?;
                let tree = anchored_pattern(alloc, known, sets, rest)?;
                preceded(alloc, &items, tree)
            }
        }
        PartTree::Choice(left, right) => {
            if !have_anchors(known, left, right) {
                return Err(RuleError::Fault(RuleFault::NotSupported));
            }
            let tree = anchored_pattern(alloc, known, sets, left)?;
            let others = anchored_pattern(alloc, known, sets, right)?;
            Ok(joined(alloc, tree, others)?)
        }
        PartTree::OfRule(named) => named_pattern(alloc, known, named.name.as_slice()),
        PartTree::Anchor => Ok(PatternTree::Anchor),
        _ => Err(RuleError::Fault(RuleFault::NotSupported)),
    }
}

/// The pattern of a rule. The anchor of a condition may stand in it, once in each of its branches, one after the other
/// with other parts.
pub fn pattern_of_rule(
    alloc: Global,
    known: Known<'_>,
    made: &mut Made,
    rule: &PartTree,
) -> Result<PatternTree, RuleError>
    requires rule { IsWellFormed (part_of rule.now) }
    requires entries { HaveSpans (known_of known).entries }
    requires rules { HaveSets (length made.old.sets.items) (known_of known).rules }
    requires branches { HaveBranches (known_of known).rules }
    ensures known { IfOk result (λ tree. HasItsSets (length made.new.sets.items) (pattern tree)) }
    ensures branches { IfOk result (λ tree. HasBranches (pattern tree)) }
    ensures form { IfOk result (λ tree. Is Whole (pattern tree) × IsTrue (is_rule_or_whole (pattern tree))) }
    ensures anchor { IfOk result (λ tree.
        is_context_rule (pattern tree) ≡ has_anchor_part (known_of known.entry) (part_of rule.now)) }
    ensures pattern { IfOk result (λ tree.
        SaysRule (known_of known.entry) made.new.sets.items (pattern tree) (part_of rule.now)) }
    ensures part { IfOk result (λ tree.
        MatchesAsPart (known_of known.entry) made.new.sets.items (pattern tree) (part_of rule.now)) }
    ensures sets { OnOk result (BeginsWith made.new.sets.items made.old.sets.items) }
    ensures rules { OnOk result (HaveSets (length made.new.sets.items) (known_of known.entry).rules) }
    ensures atoms { OnOk result
        (made.new.atoms_left + rule_atoms (known_of known.entry) (part_of rule.now) ≡ made.old.atoms_left) }
    ensures fault { IsFaultOf
        (fault_within made.old.atoms_left (known_of known.entry) (part_of rule.now)) result }
{
    let Some(atoms_left) = left_after(known, rule, made.atoms_left) else {
        return Err(RuleError::Fault(RuleFault::Limit));
    };
    made.atoms_left = atoms_left;
    if has_anchor(known, rule) {
        anchored_pattern(alloc, known, &mut made.sets, rule)
    } else {
        plain_pattern(alloc, known, &mut made.sets, rule)
    }
}
