//! The rules of a table, asked of a label.
ghost use Rattle.std.specs.Prelude.{◌≡◌, length, map};
ghost use Rattle.std.specs.List.{AllByRecursion};
ghost use Rattle.label_patterns.specs.Conditions.{rule_at};
ghost use Rattle.label_patterns.specs.Matches.{HasItsSets};
ghost use Rattle.label_patterns.specs.Tests.{occurs_in};
ghost use Rattle.label_patterns.specs.Trees.{pattern};

use label_patterns::{PatternTree, SeenLabel, occurs};
use std::marker::Model;
use variant_dispositions::LabelRules;
use variant_table::Table;

/// The rules of a table, asked of one label, as actions do.
#[derive(Drop)]
pub struct RulesOfLabel<'a> {
    rules: &'a [PatternTree],
    seen: SeenLabel<'a>,
}

impl<'a> Model for RulesOfLabel<'a> {
    ghost use Rattle.std.specs.Prelude.{length, map};
    ghost use Rattle.std.specs.List.{AllByRecursion};
    ghost use Rattle.label_patterns.specs.Matches.{HasItsSets};
    ghost use Rattle.label_patterns.specs.Trees.{pattern};
    ghost use Rattle.valid_labels.specs.Actions.{AskedRules, asked_code};

    ghost Value = { AskedRules };

    ghost coded = { asked_code };

    ghost view = { λ r. record { rules = map pattern r.rules.now; seen = r.seen } };

    ghost invariant = { λ r. AllByRecursion (HasItsSets (length r.seen.sets)) (map pattern r.rules.now) };
}

impl<'a> RulesOfLabel<'a> {
    ghost use Rattle.std.specs.Prelude.{◌≡◌, ◌≤◌, length};
    ghost use Rattle.label_patterns.specs.inner.Masks.{AreMasks};
    ghost use Rattle.valid_labels.specs.Actions.{rules_of};

    /// The rules of a table, asked of a label of at most 63 code points. `masks` has the places of each of the table's
    /// sets in it.
    pub(crate) fn new(table: &'a Table, label: &'a [u32], masks: &'a [u64]) -> Self
        requires short { length label.now ≤ 63 }
        requires masks { AreMasks table.now.definitions.sets label.now masks.now }
        ensures { result ≡ rules_of table.now label.now }
    {
        let definitions = table.definitions();
        let sets = definitions.sets();
        RulesOfLabel {
            rules: definitions.rules(),
            seen: SeenLabel::of_masks(sets, label, masks),
        }
    }

    /// The label.
    pub(crate) fn seen(&self) -> &SeenLabel<'a>
        ensures { result.now ≡ self.now.seen }
    {
        &self.seen
    }
}

impl<'a> LabelRules for RulesOfLabel<'a> {
    ghost use Rattle.valid_labels.specs.Actions.{matches};

    ghost matched = { matches };

    fn matches(&self, rule: u8) -> bool {
        matches_rule(self.rules, rule as usize, &self.seen)
    }
}

/// Whether a label matches the rule of this number.
fn matches_rule(rules: &[PatternTree], number: usize, seen: &SeenLabel<'_>) -> bool
    requires { AllByRecursion (HasItsSets (length seen.now.sets)) (map pattern rules.now) }
    ensures { result ≡ occurs_in seen.now (rule_at (map pattern rules.now) number) }
{
    number < rules.len() && occurs(&rules[number], seen)
}
