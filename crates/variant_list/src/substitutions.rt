//! The substitutions of a label under a table: what may stand in the place of which of its code points.
ghost use Rattle.std.specs.Prelude.{◌≡◌, ◌+◌, ◌<◌, ◌≤◌, ◌↔◌, ℕ, List, map, length, slice_get, Some, Contains};
ghost use Rattle.std.specs.Prelude.{IfOk, OnOk};
ghost use Rattle.variant_table.specs.Entries.{replacements, whole};
ghost use Rattle.variant_table.specs.WellFormed.{IsWellFormed};
ghost use Rattle.reading_kinds.specs.Drafts.{with_substitutions};
ghost use Rattle.reading_kinds.specs.Readings.{AreSubstitutions, SubstitutionsSpell};
ghost use Rattle.variant_list.specs.Arising.{Gives, table_for};
ghost use Rattle.variant_list.specs.Substitutions.{substitutions_of_entry};
ghost use Rattle.variant_table.specs.Staying.{holds_for};
ghost use Rattle.variant_list.specs.Substitutions.{substitutions_at, substitutions_of};
ghost use Rattle.variant_list.specs.inner.Asking.{CanAsk};
ghost use Rattle.variant_list.specs.inner.Standing.{stands_by};

use label_patterns::{SeenLabel, condition_holds};
use reading_kinds::{LabelSubstitutions, SubstitutionsDraft};
use std::alloc::{AllocError, Global};
use variant_dispositions::{kind_of_source, kind_of_variant};
use variant_table::{Entry, Table};

/// Which cuts of a label into sources count.
#[derive(Clone, Copy, PartialEq, Eq)]
pub enum Cuts {
    /// Its segmentations: the condition of each source holds where it stands.
    Segmentations,
    /// Any: nothing is asked of a source. A label that the table refuses today may have some.
    Anyhow,
}

/// The substitutions of a label: those of each of its places are the replacements of each entry that may stand there,
/// as far as their conditions hold in the label.
pub fn substitutions_of<'a>(
    alloc: Global,
    table: &'a Table,
    label: &'a [u32],
    cuts: Cuts,
) -> Result<LabelSubstitutions, AllocError>
    requires { length label.now ≤ 63 }
    ensures substitutions { IfOk result (λ substitutions. substitutions ≡
        substitutions_of (table_for cuts table.now) label.now) }
    ensures gives { IfOk result (λ substitutions. (v : List ℕ) →
        SubstitutionsSpell substitutions v ↔ Gives cuts table.now label.now v) }
    ensures fit { IfOk result (λ substitutions. AreSubstitutions substitutions) }
    ensures places { IfOk result (λ substitutions. length substitutions ≡ length label.now) }
    ensures well_formed { IsWellFormed table.now.entries }
{
    // Only for the proof: the contract of `len` says that a table is well-formed, so no source is empty.
    let _entries = table.len();
    if !table.has_conditions() {
        let seen = None;
        return Substitutions {
            table,
            label,
            cuts,
            seen,
        }
        .found(alloc);
    }
    // The sets of the table are looked up in the label once, for all its conditions.
    let sets = table.definitions().sets();
    let mut masks = vec![in alloc; 0; sets.len()]?;
    let seen = Some(SeenLabel::new(sets, label, &mut masks));
    Substitutions {
        table,
        label,
        cuts,
        seen,
    }
    .found(alloc)
}

/// What tells the substitutions of a label under a table.
#[derive(Drop)]
struct Substitutions<'a> {
    table: &'a Table,
    label: &'a [u32],
    cuts: Cuts,
    /// The label as conditions are asked of it. Without it the table has no conditions.
    seen: Option<SeenLabel<'a>>,
}

impl<'a> Substitutions<'a> {
    /// The substitutions, place by place.
    fn found(&self, alloc: Global) -> Result<LabelSubstitutions, AllocError>
        requires asked { CanAsk self.now.table.now self.now.label.now self.now.seen }
        ensures { IfOk result (λ substitutions. substitutions ≡
            substitutions_of (table_for self.now.cuts self.now.table.now) self.now.label.now) }
    {
        let mut draft = SubstitutionsDraft::new(alloc);
        for place in 0..self.label.len() {
            self.add_at(&mut draft, place)?;
            draft.end_place()?;
        }
        Ok(draft.finished())
    }

    /// Adds the substitutions that begin at a place of the label.
    fn add_at(&self, draft: &mut SubstitutionsDraft, place: usize) -> Result<(), AllocError>
        requires asked { CanAsk self.now.table.now self.now.label.now self.now.seen }
        requires place { place < length self.now.label.now }
        ensures { OnOk result (draft.new ≡ with_substitutions draft.old
            (substitutions_at (table_for self.now.cuts self.now.table.now) self.now.label.now place)) }
    {
        for entry in self.table.entries_at(self.label, place) {
            if self.may_stand(&entry, place) {
                self.add_entry(draft, &entry, place)?;
            }
        }
        Ok(())
    }

    /// Whether an entry may be in a cut of the label, with its source at the place.
    fn may_stand(&self, entry: &Entry<'_>, place: usize) -> bool
        requires asked { CanAsk self.now.table.now self.now.label.now self.now.seen }
        requires in_table { Contains self.now.table.now.entries entry.now }
        requires within { place + length entry.now.source ≤ length self.now.label.now }
        ensures { result ≡ stands_by self.now.cuts self.now.table.now self.now.label.now place entry.now }
    {
        match self.cuts {
            Cuts::Segmentations => self.holds_for(entry, 0, place),
            Cuts::Anyhow => true,
        }
    }

    /// Adds the substitutions of an entry: its source may stay, and each variant whose condition holds may stand in its
    /// place.
    fn add_entry(
        &self,
        draft: &mut SubstitutionsDraft,
        entry: &Entry<'_>,
        place: usize,
    ) -> Result<(), AllocError>
        requires asked { CanAsk self.now.table.now self.now.label.now self.now.seen }
        requires in_table { Contains self.now.table.now.entries entry.now }
        requires within { place + length entry.now.source ≤ length self.now.label.now }
        ensures { OnOk result (draft.new ≡ with_substitutions draft.old
            (substitutions_of_entry self.now.table.now self.now.label.now place entry.now)) }
    {
        let source = entry.source();
        draft.add(source.len(), kind_of_source(entry.variant_type(0)), source)?;
        for number in 1..entry.replacements() {
            if self.holds_for(entry, number, place) {
                let kind = kind_of_variant(entry.variant_type(number));
                draft.add(source.len(), kind, entry.replacement(number))?;
            }
        }
        Ok(())
    }

    /// Whether the condition of the source or variant of this number holds for the source, which begins at this place.
    fn holds_for(&self, entry: &Entry<'_>, number: usize, place: usize) -> bool
        requires asked { CanAsk self.now.table.now self.now.label.now self.now.seen }
        requires number { number < length (replacements entry.now) }
        requires in_table { Contains self.now.table.now.entries entry.now }
        requires within { place + length entry.now.source ≤ length self.now.label.now }
        ensures { slice_get (map (λ r. holds_for self.now.table.now self.now.label.now place entry.now r.condition)
            (whole entry.now)) number ≡ Some result }
    {
        let Some(seen) = &self.seen else {
            return true;
        };
        let rules = self.table.definitions().rules();
        let end = place + entry.source().len();
        condition_holds(entry.condition(number), rules, seen, place, end)
    }
}
