//! Asking the condition of a source or of a variant in a label.
ghost use Rattle.std.specs.Prelude.{◌↔◌, ◌≤◌, length, map, IsTrue};
ghost use Rattle.std.specs.List.{AllByRecursion};
ghost use Rattle.label_patterns.specs.Barring.{IsBarred, IsBarredBy};
ghost use Rattle.label_patterns.specs.Conditions.{ConditionHolds, rule_at};
ghost use Rattle.label_patterns.specs.Matches.{HasItsSets};
ghost use Rattle.label_patterns.specs.Rules.{is_context_rule as is_context_rule_pattern, Holds};
ghost use Rattle.label_patterns.specs.Trees.{pattern};

use crate::barring::{one_ends_before, one_is_done};
use crate::condition::{Condition, ConditionKind};
use crate::contexts::{holds, is_context_rule};
use crate::pattern_tree::PatternTree;
use crate::seen_label::SeenLabel;

/// Whether a condition, which names one of these rules by its number, holds for the part of the label from `start` to
/// `end`. Where there is none, it does.
pub fn condition_holds(
    condition: Option<Condition>,
    rules: &[PatternTree],
    seen: &SeenLabel,
    start: usize,
    end: usize,
) -> bool
    requires known { AllByRecursion (HasItsSets (length seen.now.sets)) (map pattern rules.now) }
    requires start { start ≤ length seen.now.label }
    requires end { end ≤ length seen.now.label }
    ensures { IsTrue result ↔ ConditionHolds (map pattern rules.now) seen.now condition start end }
{
    let Some(condition) = condition else {
        return true;
    };
    let holds = rule_holds(condition.rule as usize, rules, seen, start, end);
    match condition.kind {
        ConditionKind::When => holds,
        ConditionKind::Unless => !holds,
    }
}

/// Whether the rule of this number holds for the part of the label from `start` to `end`.
fn rule_holds(
    number: usize,
    rules: &[PatternTree],
    seen: &SeenLabel,
    start: usize,
    end: usize,
) -> bool
    requires known { AllByRecursion (HasItsSets (length seen.now.sets)) (map pattern rules.now) }
    requires start { start ≤ length seen.now.label }
    requires end { end ≤ length seen.now.label }
    ensures { IsTrue result ↔ Holds seen.now (rule_at (map pattern rules.now) number) start end }
{
    number < rules.len() && holds(&rules[number], seen, start, end)
}

/// Whether a condition fails for each part that begins at `start`, by what stands before that place alone. Of a
/// whole-label rule that is never told.
pub fn is_barred(
    condition: Option<Condition>,
    rules: &[PatternTree],
    seen: &SeenLabel,
    start: usize,
) -> bool
    requires known { AllByRecursion (HasItsSets (length seen.now.sets)) (map pattern rules.now) }
    requires start { start ≤ length seen.now.label }
    ensures { IsTrue result ↔ IsBarred (map pattern rules.now) seen.now condition start }
{
    let Some(condition) = condition else {
        return false;
    };
    let number = condition.rule as usize;
    number < rules.len() && is_barred_by(condition.kind, &rules[number], seen, start)
}

/// Whether no part that begins at `start` may stand there by this rule, by what stands before that place alone.
fn is_barred_by(kind: ConditionKind, rule: &PatternTree, seen: &SeenLabel, start: usize) -> bool
    requires known { HasItsSets (length seen.now.sets) (pattern rule.now) }
    requires start { start ≤ length seen.now.label }
    ensures { IsTrue result ↔ (IsTrue (is_context_rule_pattern (pattern rule.now)) ×
        IsBarredBy kind seen.now (pattern rule.now) start) }
{
    if !is_context_rule(rule) {
        return false;
    }
    match kind {
        ConditionKind::When => !one_ends_before(rule, seen, start),
        ConditionKind::Unless => one_is_done(rule, seen, start),
    }
}
