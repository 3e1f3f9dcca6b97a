//! The disposition of a label that is asked about, by its own segmentations.
ghost use Rattle.std.specs.Prelude.{◌≡◌, ◌≤◌, ◌<◌, ◌∷◌, [], length, IfOk, OnOk};
ghost use Rattle.reading_kinds.specs.Drafts.{with_substitutions};
ghost use Rattle.variant_table.specs.Segmentations.{seen_under};
ghost use Rattle.valid_labels.specs.Actions.{actions_of, rules_of};
ghost use Rattle.valid_labels.specs.Dispositions.{told_itself};
ghost use Rattle.valid_labels.specs.Staying.{staying_at, staying_of};
ghost use Rattle.valid_labels.specs.Tests.{is_invalid};

use crate::label_rules::RulesOfLabel;
use crate::longest::stands;
use crate::segments::recall_soundness;
use label_patterns::SeenLabel;
use reading_kinds::{LabelSubstitutions, Readings, SubstitutionsDraft};
use std::alloc::{AllocError, Global};
use variant_dispositions::{
    Action, Disposition, VariantDisposition, disposition_of_variant, kind_of_source,
};
use variant_table::Table;

/// What is told of a label of at most 63 code points by its own readings, in which each source stays as it is. `None`
/// where it has no segmentation. It is an `Err` only where memory was refused.
pub(crate) fn disposition_of_itself(
    alloc: Global,
    table: &Table,
    rules: &RulesOfLabel<'_>,
    label: &[u32],
    actions: &[Action],
) -> Result<Option<VariantDisposition>, AllocError>
    requires short { length label.now ≤ 63 }
    requires rules { rules.now ≡ rules_of table.now label.now }
    requires actions { actions.now ≡ actions_of table.now.definitions }
    ensures { IfOk result (λ told. told ≡ told_itself table.now label.now) }
{
    recall_soundness(table);
    let substitutions = staying_sources(alloc, table, rules.seen(), label)?;
    let mut readings = Readings::new(alloc, substitutions)?;
    Ok(disposition_of_variant(&mut readings, actions, label, rules))
}

/// Whether a disposition is that of no valid label.
pub(crate) fn is_invalid(disposition: Disposition) -> bool
    ensures { result ≡ is_invalid disposition }
{
    matches!(disposition, Disposition::Invalid)
}

/// The sources that stand in a label, place by place, each as a substitution of itself.
fn staying_sources(
    alloc: Global,
    table: &Table,
    seen: &SeenLabel<'_>,
    label: &[u32],
) -> Result<LabelSubstitutions, AllocError>
    requires short { length label.now ≤ 63 }
    requires seen { seen.now ≡ seen_under table.now label.now }
    ensures { IfOk result (λ substitutions. substitutions ≡ staying_of table.now label.now) }
{
    let mut draft = SubstitutionsDraft::new(alloc);
    for place in 0..label.len() {
        add_sources(&mut draft, table, seen, label, place)?;
        draft.end_place()?;
    }
    Ok(draft.finished())
}

/// Adds the sources that stand at a place.
fn add_sources(
    draft: &mut SubstitutionsDraft,
    table: &Table,
    seen: &SeenLabel<'_>,
    label: &[u32],
    place: usize,
) -> Result<(), AllocError>
    requires short { length label.now ≤ 63 }
    requires seen { seen.now ≡ seen_under table.now label.now }
    requires place { place < length label.now }
    ensures { OnOk result (draft.new ≡ with_substitutions draft.old (staying_at table.now label.now place)) }
{
    for entry in table.entries_at(label, place) {
        if stands(table, seen, label, place, &entry) {
            let source = entry.source();
            draft.add(source.len(), kind_of_source(entry.variant_type(0)), source)?;
        }
    }
    Ok(())
}
