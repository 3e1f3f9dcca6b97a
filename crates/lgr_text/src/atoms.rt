//! How many atoms rules take.
ghost use Rattle.std.specs.Prelude.{◌≡◌, ◌+◌, ◌*◌, ◌≤◌, ℕ};
ghost use Rattle.label_patterns.specs.Trees.{pattern};
ghost use Rattle.lgr_text.specs.Known.{known as known_of};
ghost use Rattle.lgr_text.specs.PartAtoms.{anchored_atoms, branch_atoms, part_atoms, rule_atoms, times};
ghost use Rattle.lgr_text.specs.PartMatches.{rule_named};
ghost use Rattle.lgr_text.specs.Records.{part as part_of};
ghost use Rattle.lgr_text.specs.inner.Counts.{IsCount, IsLeftAfter};
ghost use Rattle.ruleset_text.specs.Limits.{atoms};

use crate::known::Known;
use crate::part_faults::has_anchor;
use crate::records::{Count, PartTree};
use label_patterns::PatternTree;
use ruleset_text::number_of;

/// How many atoms are left after a rule, if there are enough.
pub(crate) fn left_after(known: Known<'_>, rule: &PartTree, atoms_left: usize) -> Option<usize>
    ensures { IsLeftAfter (rule_atoms (known_of known.entry) (part_of rule.now)) atoms_left result }
{
    let atoms = atoms_of_rule(known, rule)?;
    atoms_left.checked_sub(atoms)
}

/// How many atoms a rule takes.
fn atoms_of_rule(known: Known<'_>, rule: &PartTree) -> Option<usize>
    ensures { IsCount (rule_atoms (known_of known.entry) (part_of rule.now)) result }
{
    if has_anchor(known, rule) {
        atoms_of_anchored(known, rule, Some(0))
    } else {
        atoms_of_part(known, rule)
    }
}

/// How many atoms the branches of a part that has the anchor take together, where so many stand beside each.
fn atoms_of_anchored(known: Known<'_>, part: &PartTree, beside: Option<usize>) -> Option<usize>
    ensures { (n : ℕ) → IsCount n beside →
        IsCount (anchored_atoms (known_of known.entry) n (part_of part.now)) result }
{
    match part {
        PartTree::Then(first, rest) => {
            if has_anchor(known, first) {
                let beside = sum(beside, atoms_of_part(known, rest));
                atoms_of_anchored(known, first, beside)
            } else {
                let beside = sum(beside, atoms_of_part(known, first));
                atoms_of_anchored(known, rest, beside)
            }
        }
        PartTree::Choice(left, right) => {
            let these = atoms_of_anchored(known, left, beside);
            let those = atoms_of_anchored(known, right, beside);
            sum(these, those)
        }
        PartTree::OfRule(rule) => {
            atoms_of_named_branches(known, rule.name.as_slice(), sum(beside, Some(1)))
        }
        _ => sum(beside, atoms_of_part(known, part)),
    }
}

/// How many atoms a part of a rule takes.
fn atoms_of_part(known: Known<'_>, part: &PartTree) -> Option<usize>
    ensures { IsCount (part_atoms (known_of known.entry) (part_of part.now)) result }
{
    match part {
        PartTree::Literal(points) => Some(points.len()),
        PartTree::OfRule(rule) => sum(Some(1), atoms_of_named(known, rule.name.as_slice())),
        PartTree::Then(first, rest) => {
            sum(atoms_of_part(known, first), atoms_of_part(known, rest))
        }
        PartTree::Choice(left, right) => {
            let both = sum(atoms_of_part(known, left), atoms_of_part(known, right));
            sum(Some(1), both)
        }
        PartTree::Times(count, part) => {
            let once = sum(Some(1), atoms_of_part(known, part));
            product(times_of(*count), once)
        }
        PartTree::Any | PartTree::Of(_) => Some(1),
        PartTree::Start | PartTree::End | PartTree::Anchor => Some(1),
    }
}

/// How often a part is written.
fn times_of(count: Count) -> usize
    ensures { result ≡ times count }
{
    match count.most {
        Some(most) => (most as usize).max(1),
        None => count.least as usize + 1,
    }
}

/// How many atoms the pattern of the rule of this name has; none, if there is no such rule.
fn atoms_of_named(known: Known<'_>, name: &[u8]) -> Option<usize>
    ensures { IsCount (atoms (rule_named (known_of known.entry) name.now)) result }
{
    let number = number_of(known.rule_names, name);
    if number < known.rules.len() {
        atoms_of(&known.rules[number])
    } else {
        Some(0)
    }
}

/// How many atoms the branches of the rule of this name take together, where so many stand beside each.
fn atoms_of_named_branches(known: Known<'_>, name: &[u8], beside: Option<usize>) -> Option<usize>
    ensures { (n : ℕ) → IsCount n beside →
        IsCount (branch_atoms n (rule_named (known_of known.entry) name.now)) result }
{
    let number = number_of(known.rule_names, name);
    if number < known.rules.len() {
        atoms_of_branches(&known.rules[number], beside)
    } else {
        beside
    }
}

/// How many atoms the branches of a pattern take together, where so many stand beside each.
fn atoms_of_branches(tree: &PatternTree, beside: Option<usize>) -> Option<usize>
    ensures { (n : ℕ) → IsCount n beside → IsCount (branch_atoms n (pattern tree.now)) result }
{
    match tree {
        PatternTree::Either(branch, others) => {
            let first = sum(beside, atoms_of(branch));
            let others = atoms_of_branches(others, beside);
            sum(first, others)
        }
        _ => sum(beside, atoms_of(tree)),
    }
}

/// How many atoms a pattern has.
fn atoms_of(tree: &PatternTree) -> Option<usize>
    ensures { IsCount (atoms (pattern tree.now)) result }
{
    match tree {
        PatternTree::Anchor => Some(0),
        PatternTree::Group(part) => sum(atoms_of(part), Some(1)),
        PatternTree::Optional(part) => atoms_of(part),
        PatternTree::Many(part) => atoms_of(part),
        PatternTree::Then(first, rest) => sum(atoms_of(first), atoms_of(rest)),
        PatternTree::Either(left, right) => sum(atoms_of(left), atoms_of(right)),
        PatternTree::Point(_) | PatternTree::Set(_) | PatternTree::Any => Some(1),
        PatternTree::Start | PatternTree::End => Some(1),
    }
}

/// Both together.
fn sum(left: Option<usize>, right: Option<usize>) -> Option<usize>
    ensures { (m n : ℕ) → IsCount m left → IsCount n right → IsCount (m + n) result }
{
    let left = left?;
    let right = right?;
    left.checked_add(right)
}

/// So many times as much.
fn product(times: usize, once: Option<usize>) -> Option<usize>
    requires { 1 ≤ times }
    ensures { (n : ℕ) → IsCount n once → IsCount (times * n) result }
{
    let once = once?;
    times.checked_mul(once)
}
