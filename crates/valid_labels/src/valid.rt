//! Which labels may be asked about, and which are valid.
ghost use Rattle.std.specs.Prelude.{◌≡◌, ◌↔◌, ◌≤◌, length, IfOk, IsTrue};
ghost use Rattle.std.specs.List.{AllByRecursion};
ghost use Rattle.label_patterns.specs.inner.Masks.{AreMasks};
ghost use Rattle.valid_labels.specs.Causes.{IsDisposed};
ghost use Rattle.valid_labels.specs.Demands.{IsMet};
ghost use Rattle.valid_labels.specs.Eligible.{IsEligible};
ghost use Rattle.valid_labels.specs.Actions.{actions_of};
ghost use Rattle.variant_table.specs.Segmentations.{seen_under};
ghost use Rattle.valid_labels.specs.Testing.{IsAdmission, IsValidity, admission_of};
ghost use Rattle.valid_labels.specs.Validity.{IsAdmitted, IsValid};
ghost use Rattle.valid_labels.specs.inner.Singles.{AreSingles, HasRoom};

use crate::dead_prefix::shortest_dead_prefix;
use crate::demands::are_met;
use crate::itself::{disposition_of_itself, is_invalid};
use crate::label_rules::RulesOfLabel;
use crate::longest::cut_end;
use crate::segments::Segments;
use crate::single_places::SinglePlaces;
use crate::sources::is_made_of_sources;
use crate::validity::{Admission, Validity};
use label_patterns::{PointSet, SeenLabel};
use std::alloc::{AllocError, Global};
use variant_dispositions::{Action, VariantDisposition};
use variant_table::Table;

/// Whether a label may be asked about, under a table that asks something. The actions are those of the table; `masks`
/// has the places of each of its sets in the label, and `singles` places at which single points stand. It is an `Err`
/// only where memory was refused.
pub fn admission(
    alloc: Global,
    segments: &Segments<'_>,
    actions: &[Action],
    label: &[u32],
    masks: &[u64],
    singles: &SinglePlaces,
) -> Result<Admission, AllocError>
    requires short { length label.now ≤ 63 }
    requires actions { actions.now ≡ actions_of segments.now.definitions }
    requires masks { AreMasks segments.now.definitions.sets label.now masks.now }
    requires room { HasRoom (length segments.now.definitions.rules) singles.now }
    requires singles { AreSingles (length label.now) segments.now label.now singles.now }
    ensures { IfOk result (IsAdmission segments.now label.now) }
{
    segments.recall_soundness();
    let table = segments.table();
    let rules = RulesOfLabel::new(table, label, masks);
    if !is_disposed(segments, rules.seen(), label, singles) {
        return Ok(refusal_of(table, label));
    }
    let told = disposition_of_itself(alloc, table, &rules, label, actions)?;
    Ok(admission_told(told))
}

/// Why a label may not be asked about that isn't admitted.
fn refusal_of(table: &Table, label: &[u32]) -> Admission
    requires short { length label.now ≤ 63 }
    requires refused { ¬ IsAdmitted table.now label.now }
    ensures { IsAdmission table.now label.now result }
{
    if is_made_of_sources(table, label) {
        Admission::NotAdmitted
    } else {
        Admission::NotCut
    }
}

/// Whether a label may be asked about of which nothing else is left to ask than what is told of itself.
fn admission_told(told: Option<VariantDisposition>) -> Admission
    ensures { result ≡ admission_of told }
{
    match told {
        Some(VariantDisposition::Clear(disposition)) if !is_invalid(disposition) => {
            Admission::Admitted(disposition)
        }
        _ => Admission::NotAdmitted,
    }
}

/// Whether a label is valid, and if it isn't, how long its shortest dead prefix is. `masks` has the places of each of
/// the table's sets in it, and `singles` places at which single points stand.
pub fn validity(
    segments: &Segments<'_>,
    sets: &[PointSet],
    label: &[u32],
    masks: &[u64],
    singles: &SinglePlaces,
) -> Validity
    requires short { length label.now ≤ 63 }
    requires sets { sets.now ≡ segments.now.definitions.sets }
    requires masks { AreMasks sets.now label.now masks.now }
    requires room { HasRoom (length segments.now.definitions.rules) singles.now }
    requires singles { AreSingles (length label.now) segments.now label.now singles.now }
    ensures { IsValidity segments.now label.now result }
{
    segments.recall_soundness();
    let seen = SeenLabel::of_masks(sets, label, masks);
    if is_disposed(segments, &seen, label, singles) {
        return Validity::Valid;
    }
    match shortest_dead_prefix(segments, &seen, label, singles) {
        Some(count) => Validity::DeadPrefix(count),
        None => Validity::NotValid,
    }
}

/// Whether a label is eligible, and meets the demands, so that its disposition counts.
fn is_disposed(
    segments: &Segments<'_>,
    seen: &SeenLabel<'_>,
    label: &[u32],
    singles: &SinglePlaces,
) -> bool
    requires short { length label.now ≤ 63 }
    requires seen { seen.now ≡ seen_under segments.now label.now }
    requires room { HasRoom (length segments.now.definitions.rules) singles.now }
    requires singles { AreSingles (length label.now) segments.now label.now singles.now }
    ensures { IsTrue result ↔ IsDisposed segments.now label.now }
{
    is_eligible(segments, seen, label, singles) && meets_demands(segments.table(), seen)
}

/// Whether a label is eligible.
fn is_eligible(
    segments: &Segments<'_>,
    seen: &SeenLabel<'_>,
    label: &[u32],
    singles: &SinglePlaces,
) -> bool
    requires short { length label.now ≤ 63 }
    requires seen { seen.now ≡ seen_under segments.now label.now }
    requires room { HasRoom (length segments.now.definitions.rules) singles.now }
    requires singles { AreSingles (length label.now) segments.now label.now singles.now }
    ensures { IsTrue result ↔ IsEligible segments.now label.now }
{
    segments.recall_soundness();
    let table = segments.table();
    let steps = singles.holding_steps(table.definitions().rules(), seen);
    cut_end(table, seen, label, steps) == label.len()
}

/// Whether a label meets the demands of a table.
fn meets_demands(table: &Table, seen: &SeenLabel<'_>) -> bool
    requires { seen.now.sets ≡ table.now.definitions.sets }
    ensures { IsTrue result ↔ AllByRecursion (IsMet seen.now) table.now.definitions.demands }
{
    let demands = table.definitions().demands();
    are_met(demands, seen)
}
