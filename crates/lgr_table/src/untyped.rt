//! Whether variants without a type need one of their own in a table.
ghost use Rattle.std.specs.Prelude.{◌≡◌, ◌∷◌, [], is_some, map, IfOk};
ghost use Rattle.std.specs.List.{list_any};
ghost use Rattle.lgr_text.specs.Records as records;
ghost use Rattle.lgr_text.specs.Repertoire.{has_types as have_types_in, sources};
ghost use Rattle.lgr_table.specs.Entries.{keeps, needs_type};
ghost use Rattle.lgr_table.specs.Tables.{may_stand};
ghost use Rattle.lgr_table.specs.inner.Wanted.{is_wanted, keeps_in, keeps_with};

use crate::kept::{is_reflexive, may_be};
use idn_class::Properties;
use label_patterns::Span;
use lgr_text::{Entry, Source, Variant};
use std::alloc::{AllocError, Global};

/// Which variants are looked for.
#[derive(Clone, Copy)]
pub(crate) enum Wanted {
    /// Those with a type.
    Typed,
    /// Those without a type.
    Untyped,
    /// Those without a type that are their source.
    Staying,
}

impl Wanted {
    /// Whether it is a variant of this source.
    fn is(self, source: &[u32], variant: &Variant) -> bool
        ensures { result ≡ is_wanted self source.now (records.variant variant.now) }
    {
        match self {
            Wanted::Typed => variant.type_name.is_some(),
            Wanted::Untyped => variant.type_name.is_none(),
            Wanted::Staying => variant.type_name.is_none() && is_reflexive(source, variant),
        }
    }
}

/// The line of a variant without a type, if those need one of their own.
pub(crate) fn untyped_line(
    alloc: Global,
    properties: Properties,
    entries: &[Entry],
) -> Result<Option<usize>, AllocError>
    ensures { IfOk result (λ line.
        is_some line ≡ needs_type (may_stand properties) (map records.entry entries.now)) }
{
    if !have_types(entries) {
        return Ok(None);
    }
    let staying = first_kept(alloc, properties, entries, Wanted::Staying)?;
    if staying.is_some() {
        return Ok(staying);
    }
    let typed = first_kept(alloc, properties, entries, Wanted::Typed)?;
    if typed.is_some() {
        return Ok(None);
    }
    let untyped = first_kept(alloc, properties, entries, Wanted::Untyped)?;
    Ok(untyped)
}

/// Whether some variant has a type.
fn have_types(entries: &[Entry]) -> bool
    ensures { result ≡ have_types_in (map records.entry entries.now) }
{
    for entry in entries {
        if has_types(&entry.variants) {
            return true;
        }
    }
    false
}

fn has_types(variants: &[Variant]) -> bool
    ensures { result ≡ list_any (λ v. is_some v.type_name) (map records.variant variants.now) }
{
    for variant in variants {
        if variant.type_name.is_some() {
            return true;
        }
    }
    false
}

/// The line of the first variant which the table keeps that is wanted.
fn first_kept(
    alloc: Global,
    properties: Properties,
    entries: &[Entry],
    wanted: Wanted,
) -> Result<Option<usize>, AllocError>
    ensures { IfOk result (λ line.
        is_some line ≡ keeps (may_stand properties) (is_wanted wanted) (map records.entry entries.now)) }
{
    for entry in entries {
        let line = kept_in(alloc, properties, entry, wanted)?;
        if line.is_some() {
            return Ok(line);
        }
    }
    Ok(None)
}

fn kept_in(
    alloc: Global,
    properties: Properties,
    entry: &Entry,
    wanted: Wanted,
) -> Result<Option<usize>, AllocError>
    ensures { IfOk result (λ line.
        is_some line ≡ keeps_in (may_stand properties) wanted (records.entry entry.now)) }
{
    for variant in &entry.variants {
        let kept = is_kept(alloc, properties, &entry.source, variant, wanted)?;
        if kept {
            return Ok(Some(variant.line));
        }
    }
    Ok(None)
}

/// Whether the table keeps the variant with one of these sources, of which it is wanted.
fn is_kept(
    alloc: Global,
    properties: Properties,
    source: &Source,
    variant: &Variant,
    wanted: Wanted,
) -> Result<bool, AllocError>
    ensures { IfOk result (λ kept. kept ≡ keeps_with (may_stand properties) wanted (records.variant variant.now)
        (sources (records.source source.now))) }
{
    match source {
        Source::Sequence(points) => is_kept_of(alloc, properties, points, variant, wanted),
        Source::Range(span) => is_kept_in_range(alloc, properties, *span, variant, wanted),
    }
}

fn is_kept_in_range(
    alloc: Global,
    properties: Properties,
    span: Span,
    variant: &Variant,
    wanted: Wanted,
) -> Result<bool, AllocError>
    ensures { IfOk result (λ kept. kept ≡ keeps_with (may_stand properties) wanted (records.variant variant.now)
        (sources (records.Range span))) }
{
    if span.last < span.first {
        return Ok(false);
    }
    let count = (span.last - span.first) as usize + 1;
    for offset in 0..count {
        let source = [span.first + offset as u32];
        let kept = is_kept_of(alloc, properties, &source, variant, wanted)?;
        if kept {
            return Ok(true);
        }
    }
    Ok(false)
}

fn is_kept_of(
    alloc: Global,
    properties: Properties,
    source: &[u32],
    variant: &Variant,
    wanted: Wanted,
) -> Result<bool, AllocError>
    ensures { IfOk result (λ kept. kept ≡ keeps_with (may_stand properties) wanted (records.variant variant.now)
        (source.now ∷ [])) }
{
    if !wanted.is(source, variant) {
        return Ok(false);
    }
    let stands = may_be(alloc, properties, source)?;
    if !stands {
        return Ok(false);
    }
    let kept = may_be(alloc, properties, &variant.points)?;
    Ok(kept)
}
