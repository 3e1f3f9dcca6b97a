//! Sets of code points, and what classes make of them (RFC 7940, section 6.2).
ghost use Rattle.std.specs.Prelude.{◌≡◌, ◌+◌, ◌<◌, ◌≤◌, ◌||◌, ◌↔◌, [], ℕ, Bool, not, All, IfOk, OnOk, IsTrue};
ghost use Rattle.std.specs.List.{list_all};
ghost use Rattle.label_patterns.specs.declared.span.Span.{Span};
ghost use Rattle.label_patterns.specs.Sets.{is_in, is_in_span, Rise};
ghost use Rattle.lgr_text.specs.CodePoints.{AreApart, AreSpans, IsSpan, is_joined};
ghost use Rattle.lgr_text.specs.inner.Stretches.{BeginUpTo, EndFrom};

use crate::joins::SetOperation;
use label_patterns::Span;
use std::alloc::{AllocError, Global};
use std::marker::Model;

/// The last code point.
pub(crate) const LAST: u32 = 0x10_FFFF;

/// A set of code points, as spans that are sorted, disjoint and not adjacent.
#[derive(Drop)]
pub struct CodePoints {
    spans: Vec<Span>,
}

impl Model for CodePoints {
    ghost use Rattle.std.specs.Prelude.{List};
    ghost use Rattle.label_patterns.specs.declared.span.Span.{Span};
    ghost use Rattle.lgr_text.specs.CodePoints.{AreApart};

    ghost Value = { List Span };

    ghost view = { λ s. s.spans.items };

    ghost invariant = { λ s. AreApart s.spans.items };
}

impl CodePoints {
    /// The code points of these spans, which may come in any order, and overlap.
    pub fn of_spans(alloc: Global, spans: &[Span]) -> Result<Self, AllocError>
        requires { AreSpans spans.now }
        ensures { IfOk result (λ set. (c : ℕ) → is_in set c ≡ is_in spans.now c) }
    {
        let mut sorted = Vec::from_slice(alloc, spans)?;
        sorted.sort_by_key(|span| span.first)?;
        let mut joined = Vec::new(alloc);
        for span in &sorted {
            append(&mut joined, *span)?;
        }
        Ok(CodePoints { spans: joined })
    }

    /// All code points that are not in the set.
    pub fn complement(&self, alloc: Global) -> Result<Self, AllocError>
        ensures { IfOk result (λ set. (c : ℕ) → c ≤ 0x10FFFF → is_in set c ≡ not (is_in self.now c)) }
    {
        let every_point = [Span {
            first: 0,
            last: LAST,
        }];
        join(alloc, SetOperation::Difference, &every_point, &self.spans)
    }

    /// What an operation makes of two sets.
    pub fn join(
        &self,
        alloc: Global,
        operation: SetOperation,
        other: &Self,
    ) -> Result<Self, AllocError>
        ensures { IfOk result (λ set. (c : ℕ) →
            is_in set c ≡ is_joined operation (is_in self.now c) (is_in other.now c)) }
    {
        join(alloc, operation, &self.spans, &other.spans)
    }

    /// The set once more.
    pub fn copied(&self, alloc: Global) -> Result<Self, AllocError>
        ensures { IfOk result (λ set. set ≡ self.now) }
    {
        Ok(CodePoints {
            spans: Vec::from_slice(alloc, &self.spans)?,
        })
    }

    /// Whether a code point is in the set.
    pub fn has(&self, point: u32) -> bool
        ensures { result ≡ is_in self.now point }
    {
        self.spans
            .iter()
            .any(|span| span.first <= point && point <= span.last)
    }

    /// Whether these are all in the set.
    pub fn has_all(&self, points: &[u32]) -> bool
        ensures { result ≡ list_all (is_in self.now) points.now }
    {
        points.iter().all(|point| self.has(*point))
    }

    /// Whether no code point is in the set.
    pub fn is_empty(&self) -> bool
        ensures { IsTrue result ↔ (self.now ≡ []) }
    {
        self.spans.is_empty()
    }

    /// The spans, which rise.
    pub fn spans(&self) -> &[Span]
        ensures spans { result.now ≡ self.now }
        ensures rise { Rise self.now }
    {
        &self.spans
    }
}

/// Appends a span, of which no span begins after it, to spans that are apart. It becomes part of the last one where it
/// overlaps or follows that.
pub(crate) fn append(spans: &mut Vec<Span>, span: Span) -> Result<(), AllocError>
    requires apart { AreApart spans.old.items }
    requires order { BeginUpTo span.first spans.old.items }
    requires span { IsSpan span }
    ensures apart { OnOk result (AreApart spans.new.items) }
    ensures order { OnOk result (BeginUpTo span.first spans.new.items) }
    ensures members { OnOk result ((c : ℕ) → is_in spans.new.items c ≡ (is_in spans.old.items c || is_in_span c span)) }
{
    let Some(last) = spans.pop() else {
        spans.push(span)?;
        return Ok(());
    };
    if last.last + 1 < span.first {
        spans.push(last)?;
        spans.push(span)?;
    } else {
        spans.push(Span {
            first: last.first,
            last: last.last.max(span.last),
        })?;
    }
    Ok(())
}

/// What an operation makes of two sets, each by its spans.
fn join(
    alloc: Global,
    operation: SetOperation,
    left: &[Span],
    right: &[Span],
) -> Result<CodePoints, AllocError>
    requires left { AreApart left.now }
    requires right { AreApart right.now }
    ensures { IfOk result (λ set. (c : ℕ) → is_in set c ≡ is_joined operation (is_in left.now c) (is_in right.now c)) }
{
    let mut spans = Vec::new(alloc);
    let mut left_rest = left;
    let mut right_rest = right;
    let mut first = 0;
    while first <= LAST {
        let of_left = stretch_from(left_rest, first);
        let of_right = stretch_from(right_rest, first);
        let last = of_left.last.min(of_right.last);
        if operation.is_joined(of_left.is_in, of_right.is_in) {
            append(&mut spans, Span { first, last })?;
        }
        left_rest = after(left_rest, last);
        right_rest = after(right_rest, last);
        first = last + 1;
    }
    Ok(CodePoints { spans })
}

/// Code points one after the other, up to the last of them, which are all in a set, or all not.
#[derive(Clone, Copy)]
struct Stretch {
    is_in: bool,
    last: u32,
}

/// The stretch of a set from a code point on, by its spans that don't end before that.
fn stretch_from(spans: &[Span], first: u32) -> Stretch
    requires first { first ≤ LAST }
    requires spans { EndFrom first spans.now }
    ensures some { first ≤ result.last }
    ensures within { result.last ≤ LAST }
    ensures all { (c : ℕ) → first ≤ c → c ≤ result.last → is_in spans.now c ≡ result.is_in }
    ensures spans { EndFrom result.last spans.now }
{
    match spans {
        [] => Stretch {
            is_in: false,
            last: LAST,
        },
        [span, ..] => if span.first <= first {
            Stretch {
                is_in: true,
                last: span.last,
            }
        } else {
            Stretch {
                is_in: false,
                last: span.first - 1,
            }
        },
    }
}

/// The spans that don't end at a code point, of those that don't end before it.
fn after(spans: &[Span], point: u32) -> &[Span]
    requires { EndFrom point spans.now }
    ensures spans { EndFrom (point + 1) result.now }
    ensures members { (c : ℕ) → point < c → is_in result.now c ≡ is_in spans.now c }
{
    match spans {
        [span, others @ ..] if span.last == point => others,
        _ => spans,
    }
}
