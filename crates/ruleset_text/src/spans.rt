//! The spans of a set.
ghost use Rattle.std.specs.Prelude.{◌≡◌, ◌+◌, IfOk, IfSome};
ghost use Rattle.std.specs.Option.{option_map};
ghost use Rattle.ruleset_text.specs.declared.spans.Held.TheVariants.{Above};
ghost use Rattle.ruleset_text.specs.Spans as words;
ghost use Rattle.ruleset_text.specs.DefinitionPlaces.{span_faults};
ghost use Rattle.ruleset_text.specs.DefinitionReading.{spans_read};
ghost use Rattle.ruleset_text.specs.LineFaults as places;
ghost use Rattle.ruleset_text.specs.LineStops.{Gives};
ghost use Rattle.ruleset_text.specs.inner.Rising.{IsRising, part_point};

use crate::classes::bad_place;
use crate::fault::{FaultPlace, LineFaults, ReadError};
use crate::placed::PlacedLexemes;
use crate::tokens::without_prefix;
use idn_class::Properties;
use idn_text::hex_point;
use label_patterns::{PointSet, Span};
use std::alloc::{AllocError, Global};

/// What a lexeme is among spans.
#[derive(Clone, Copy, PartialEq, Eq)]
pub enum SpanPart {
    Point(u32),
    /// `..`
    Range,
    Other,
}

/// What is held after the spans that are complete.
#[derive(Clone, Copy, PartialEq, Eq)]
pub enum Held {
    /// Nothing: the next span begins with this number or above.
    Above(u64),
    /// A point that may begin a range.
    First(u32),
    /// The first point of a range.
    Range(u32),
}

/// A set, and its faults.
#[derive(Drop)]
pub struct ReadSet {
    pub set: PointSet,
    pub faults: LineFaults,
}

/// The set of the spans that lexemes spell, code points and ranges that rise, to the end of a line of `end` bytes.
pub fn read_spans(
    alloc: Global,
    properties: Properties,
    mut lexemes: PlacedLexemes<'_>,
    end: usize,
) -> Result<ReadSet, ReadError>
    ensures read { Gives (λ r. r.set) result (spans_read end lexemes.entry) }
    ensures faults { IfOk result (λ r. r.faults ≡ span_faults properties lexemes.entry) }
{
    let mut spans = Vec::new(alloc);
    let mut held = Held::Above(0);
    let mut faults = LineFaults::none();
    while let Some((place, lexeme)) = lexemes.next() {
        let part = part_of(lexeme);
        faults.class = faults.class.or(part_place(alloc, properties, part, place)?);
        let Some(next) = step(&mut spans, held, part)? else {
            return Err(ReadError::Stop(FaultPlace::Lexeme(place, lexeme.len())));
        };
        held = next;
    }
    match ended(spans, held)? {
        Some(set) => Ok(ReadSet { set, faults }),
        None => Err(ReadError::Stop(FaultPlace::End(end))),
    }
}

/// The place of an end of a span that no label can have.
fn part_place(
    alloc: Global,
    properties: Properties,
    part: SpanPart,
    place: usize,
) -> Result<Option<FaultPlace>, AllocError>
    ensures { IfOk result (λ found. found ≡ places.bad_place properties place (part_point part)) }
{
    match part {
        SpanPart::Point(point) => bad_place(alloc, properties, place, point),
        SpanPart::Range | SpanPart::Other => Ok(None),
    }
}

/// The spans with one part more, and what is then held; none if the part may not stand there.
fn step(spans: &mut Vec<Span>, held: Held, part: SpanPart) -> Result<Option<Held>, AllocError>
    requires { IsRising spans.old.items held }
    ensures step { IfOk result (λ found. words.step spans.old.items held part ≡
        option_map (words.state spans.new.items) found) }
    ensures rising { IfOk result (λ found. IfSome found (IsRising spans.new.items)) }
{
    match (held, part) {
        (Held::Above(low), SpanPart::Point(point)) => {
            Ok(if low <= point as u64 {
                Some(Held::First(point))
            } else {
                None
            })
        }
        (Held::First(first), SpanPart::Point(point)) => {
            if first >= point {
                return Ok(None);
            }
            spans.push(Span { first, last: first })?;
            Ok(Some(Held::First(point)))
        }
        (Held::First(first), SpanPart::Range) => Ok(Some(Held::Range(first))),
        (Held::Range(first), SpanPart::Point(last)) => {
            if first > last {
                return Ok(None);
            }
            spans.push(Span { first, last })?;
            Ok(Some(after(last)))
        }
        _ => Ok(None),
    }
}

/// What is held after a range that ends so.
fn after(last: u32) -> Held
    ensures { result ≡ Above (last + 1) }
{
    Held::Above(last as u64 + 1)
}

/// The set, if no span is left open.
fn ended(spans: Vec<Span>, held: Held) -> Result<Option<PointSet>, AllocError>
    requires { IsRising spans.items held }
    ensures { IfOk result (λ found. words.ended spans.items held ≡ found) }
{
    let mut spans = spans;
    match held {
        Held::Above(_) => Ok(if spans.is_empty() {
            None
        } else {
            Some(PointSet::new(spans))
        }),
        Held::First(first) => {
            spans.push(Span { first, last: first })?;
            Ok(Some(PointSet::new(spans)))
        }
        Held::Range(_) => Ok(None),
    }
}

pub fn part_of(lexeme: &[u8]) -> SpanPart
    ensures { result ≡ words.part_of lexeme.now }
{
    match lexeme {
        b".." => SpanPart::Range,
        _ => point_part(hex_point(without_prefix(lexeme))),
    }
}

fn point_part(point: Option<u32>) -> SpanPart
    ensures { result ≡ words.point_part point }
{
    match point {
        Some(point) => SpanPart::Point(point),
        None => SpanPart::Other,
    }
}
