//! The code points that labels of a table have.
ghost use Rattle.std.specs.Prelude.{◌≡◌, ◌↔◌, ◌++◌, ◌∷◌, [], ℕ, IsTrue, IfOk, OnOk, map};
ghost use Rattle.label_patterns.specs.Sets.{is_in};
ghost use Rattle.lgr_text.specs.Records.{Range, entry as entry_of, source as source_of};
ghost use Rattle.lgr_text.specs.Repertoire.{sources};
ghost use Rattle.lgr_text.specs.Meanings.{IsKept};
ghost use Rattle.lgr_table.specs.Tables.{may_stand};
ghost use Rattle.lgr_table.specs.inner.Points.{spans_of};

use crate::kept::may_be;
use idn_class::Properties;
use label_patterns::Span;
use lgr_text::{CodePoints, Entry, Source};
use std::alloc::{AllocError, Global};

/// The code points of the sources that a table keeps.
pub(crate) fn points_of(
    alloc: Global,
    properties: Properties,
    entries: &[Entry],
) -> Result<CodePoints, AllocError>
    ensures { IfOk result (λ points. (c : ℕ) →
        IsTrue (is_in points c) ↔ IsKept (may_stand properties) (map entry_of entries.now) c) }
{
    let mut spans = Vec::new(alloc);
    for entry in entries {
        push_sources(alloc, properties, &mut spans, &entry.source)?;
    }
    CodePoints::of_spans(alloc, &spans)
}

/// Appends the code points of each source that a table keeps.
fn push_sources(
    alloc: Global,
    properties: Properties,
    spans: &mut Vec<Span>,
    source: &Source,
) -> Result<(), AllocError>
    ensures { OnOk result (spans.new.items ≡
        spans.old.items ++ spans_of (may_stand properties) (sources (source_of source.now))) }
{
    match source {
        Source::Range(span) => push_range(alloc, properties, spans, *span),
        Source::Sequence(points) => push_source(alloc, properties, spans, points),
    }
}

/// Appends each code point of a range that a table may hold.
fn push_range(
    alloc: Global,
    properties: Properties,
    spans: &mut Vec<Span>,
    span: Span,
) -> Result<(), AllocError>
    ensures { OnOk result (spans.new.items ≡
        spans.old.items ++ spans_of (may_stand properties) (sources (Range span))) }
{
    if span.last < span.first {
        return Ok(());
    }
    let count = (span.last - span.first) as usize + 1;
    for offset in 0..count {
        push_source(alloc, properties, spans, &[span.first + offset as u32])?;
    }
    Ok(())
}

/// Appends each code point of a source, if a table may hold all of them.
fn push_source(
    alloc: Global,
    properties: Properties,
    spans: &mut Vec<Span>,
    points: &[u32],
) -> Result<(), AllocError>
    ensures { OnOk result (spans.new.items ≡
        spans.old.items ++ spans_of (may_stand properties) (points.now ∷ [])) }
{
    if may_be(alloc, properties, points)? {
        push_points(spans, points)?;
    }
    Ok(())
}

/// Appends each of these code points.
fn push_points(spans: &mut Vec<Span>, points: &[u32]) -> Result<(), AllocError>
    ensures { OnOk result (spans.new.items ≡
        spans.old.items ++ map (λ c. record { first = c; last = c }) points.now) }
{
    for point in points {
        spans.push(Span {
            first: *point,
            last: *point,
        })?;
    }
    Ok(())
}
