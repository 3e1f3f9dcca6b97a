//! What goes together with the parts of a label, as substitutions: the variant graph of these spells the labels that
//! may collide with it at all.
ghost use Rattle.std.specs.Prelude.{◌≡◌, ◌-◌, ◌<◌, length, min, IfOk, OnOk};
ghost use Rattle.reading_kinds.specs.Drafts.{with_substitutions};
ghost use Rattle.std.specs.List.{flat_map};
ghost use Rattle.variant_table.specs.Places.{entries_at as listed_at};
ghost use Rattle.variant_list.specs.inner.NearSubstitutions.{put_for, near_source, near_variants, near_from};
ghost use Rattle.variant_list.specs.inner.Turned.{sequences_of};

use crate::reversed::Reversed;
use reading_kinds::{LabelSubstitutions, SubstitutionsDraft};
use ruleset_text::SEQUENCE_LIMIT;
use std::alloc::{AllocError, Global};
use variant_table::{Entry, Table};

/// The substitutions of the labels that are near a label: what goes together with each part of it.
pub(crate) fn near_substitutions_of(
    alloc: Global,
    table: &Table,
    reversed: &Reversed,
    label: &[u32],
) -> Result<LabelSubstitutions, AllocError>
    ensures { IfOk result
        (λ substitutions. substitutions ≡ near_from table.now reversed.now label.now 0 (length label.now)) }
{
    let mut draft = SubstitutionsDraft::new(alloc);
    for place in 0..label.len() {
        add_entries(&mut draft, table, label, place)?;
        add_variants(&mut draft, reversed, label, place)?;
        draft.end_place()?;
    }
    Ok(draft.finished())
}

/// Adds what stands in the place of the sources that begin at a place.
fn add_entries(
    draft: &mut SubstitutionsDraft,
    table: &Table,
    label: &[u32],
    place: usize,
) -> Result<(), AllocError>
    requires { place < length label.now }
    ensures { OnOk result
        (draft.new ≡ with_substitutions draft.old
        (flat_map near_source (listed_at table.now.entries label.now place))) }
{
    for entry in table.entries_at(label, place) {
        add_entry(draft, &entry)?;
    }
    Ok(())
}

/// Adds what stands in the place of a source.
fn add_entry(draft: &mut SubstitutionsDraft, entry: &Entry<'_>) -> Result<(), AllocError>
    ensures { OnOk result (draft.new ≡ with_substitutions draft.old (near_source entry.now)) }
{
    let covers = entry.source().len();
    for number in 0..entry.replacements() {
        draft.add(covers, 0, entry.replacement(number))?;
    }
    Ok(())
}

/// Adds the sources of which what begins at a place is a variant, as far as it isn't their source.
fn add_variants(
    draft: &mut SubstitutionsDraft,
    reversed: &Reversed,
    label: &[u32],
    place: usize,
) -> Result<(), AllocError>
    requires { place < length label.now }
    ensures { OnOk result
        (draft.new ≡ with_substitutions draft.old
        (near_variants reversed.now label.now place (min (length label.now - place) 8))) }
{
    let longest = (label.len() - place).min(SEQUENCE_LIMIT);
    for count in 0..longest {
        let end = place + count + 1;
        add_sources(draft, reversed.sources(&label[place..end]), count + 1)?;
    }
    Ok(())
}

/// Adds these sources in the place of so many code points.
fn add_sources(
    draft: &mut SubstitutionsDraft,
    sources: &[Vec<u32>],
    covers: usize,
) -> Result<(), AllocError>
    ensures { OnOk result (draft.new ≡ with_substitutions draft.old (put_for covers (sequences_of sources.now))) }
{
    for source in sources {
        draft.add(covers, 0, source)?;
    }
    Ok(())
}
