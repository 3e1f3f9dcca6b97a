//! Finding the cause for which a label that is made of sources may not be asked about.
ghost use Rattle.std.specs.Prelude.{◌≡◌, ◌≤◌, length, map, IfOk};
ghost use Rattle.std.specs.List.{AllByRecursion};
ghost use Rattle.label_patterns.specs.Matches.{HasItsSets};
ghost use Rattle.ruleset_text.specs.DemandTrees.{demand};
ghost use Rattle.valid_labels.specs.Actions.{rules_of};
ghost use Rattle.valid_labels.specs.Causes.{broken_from, cause_of, cause_told, stopped_by as stopped_by_at};
ghost use Rattle.valid_labels.specs.Dispositions.{told_itself};

use crate::actions::actions_of;
use crate::cause::ValidityCause;
use crate::cutting::NO_STEPS;
use crate::demands::is_met;
use crate::invalid::invalid_by;
use crate::itself::{disposition_of_itself, is_invalid};
use crate::label_rules::RulesOfLabel;
use crate::longest::cut_end;
use crate::segments::recall_soundness;
use label_patterns::{Condition, SeenLabel, renew_masks};
use ruleset_text::Demand;
use std::alloc::{AllocError, Global};
use variant_dispositions::VariantDisposition;
use variant_table::Table;

/// Why a label of at most 63 code points that is made of sources of a table may not be asked about, if it is cut
/// longest first. `None` where it may. It is an `Err` only where memory was refused.
pub fn invalid_cause(
    alloc: Global,
    table: &Table,
    label: &[u32],
) -> Result<Option<ValidityCause>, AllocError>
    requires { length label.now ≤ 63 }
    ensures { IfOk result (λ cause. cause ≡ cause_of table.now label.now) }
{
    let sets = table.definitions().sets();
    let mut masks = vec![in alloc; 0; sets.len()]?;
    renew_masks(sets, label, 0, &mut masks);
    let rules = RulesOfLabel::new(table, label, &masks);
    cause_under(alloc, table, &rules, label)
}

/// The cause, by the rules of the table, which are asked of the label.
fn cause_under(
    alloc: Global,
    table: &Table,
    rules: &RulesOfLabel<'_>,
    label: &[u32],
) -> Result<Option<ValidityCause>, AllocError>
    requires short { length label.now ≤ 63 }
    requires rules { rules.now ≡ rules_of table.now label.now }
    ensures { IfOk result (λ cause. cause ≡ cause_of table.now label.now) }
{
    recall_soundness(table);
    let seen = rules.seen();
    let place = cut_end(table, seen, label, NO_STEPS);
    if place != label.len() {
        let condition = stopped_by(table, label, place);
        return Ok(Some(ValidityCause::NotEligible(place, condition)));
    }
    match broken_demand(table, seen) {
        Some(broken) => Ok(Some(broken)),
        None => cause_of_itself(alloc, table, rules, label),
    }
}

/// The cause of a label by its own disposition.
fn cause_of_itself(
    alloc: Global,
    table: &Table,
    rules: &RulesOfLabel<'_>,
    label: &[u32],
) -> Result<Option<ValidityCause>, AllocError>
    requires short { length label.now ≤ 63 }
    requires rules { rules.now ≡ rules_of table.now label.now }
    ensures { IfOk result (λ cause. cause ≡ cause_told table.now label.now (told_itself table.now label.now)) }
{
    let actions = actions_of(alloc, table.definitions())?;
    match disposition_of_itself(alloc, table, rules, label, &actions)? {
        Some(VariantDisposition::Unclear) => Ok(Some(ValidityCause::Unclear)),
        Some(VariantDisposition::Clear(disposition)) if is_invalid(disposition) => {
            invalid_by(alloc, table, rules, label, &actions)
        }
        _ => Ok(None),
    }
}

/// The condition of the longest source at a place. `None` where there is no source, or it has none.
fn stopped_by(table: &Table, label: &[u32], place: usize) -> Option<Condition>
    requires { place ≤ length label.now }
    ensures { result ≡ stopped_by_at table.now label.now place }
{
    let mut found = None;
    for entry in table.entries_at(label, place) {
        found = entry.condition(0);
    }
    found
}

/// The first demand of a table that a label breaks.
fn broken_demand(table: &Table, seen: &SeenLabel<'_>) -> Option<ValidityCause>
    requires { seen.now.sets ≡ table.now.definitions.sets }
    ensures { result ≡ broken_from seen.now 0 table.now.definitions.demands }
{
    let demands = table.definitions().demands();
    first_broken(demands, seen)
}

/// The first of these demands that a label breaks.
fn first_broken(demands: &[Demand], seen: &SeenLabel<'_>) -> Option<ValidityCause>
    requires { AllByRecursion (λ d. HasItsSets (length seen.now.sets) d.pattern) (map demand demands.now) }
    ensures { result ≡ broken_from seen.now 0 (map demand demands.now) }
{
    for number in 0..demands.len() {
        let wanted = &demands[number];
        if !is_met(wanted, seen) {
            return Some(ValidityCause::Broken(number, wanted.kind));
        }
    }
    None
}
