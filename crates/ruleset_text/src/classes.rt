//! Code points that no label can have.
ghost use Rattle.std.specs.Prelude.{◌≡◌, IfOk, Some};
ghost use Rattle.label_patterns.specs.Trees.{pattern};
ghost use Rattle.ruleset_text.specs.Classes as classes;
ghost use Rattle.ruleset_text.specs.LineFaults as faults;

use crate::fault::FaultPlace;
use idn_class::{Class, Properties, class_of_by};
use label_patterns::{PatternTree, Span};
use std::alloc::{AllocError, Global};

/// Whether a code point has a class that no label can have.
#[inline(always)]
pub fn is_bad_point(alloc: Global, properties: Properties, point: u32) -> Result<bool, AllocError>
    ensures { IfOk result (λ bad. bad ≡ classes.is_bad_point properties point) }
{
    Ok(!is_label_class(class_of_by(alloc, point, properties)?))
}

/// Whether a pattern writes such a code point.
pub fn has_bad_point(
    alloc: Global,
    properties: Properties,
    tree: &PatternTree,
) -> Result<bool, AllocError>
    ensures { IfOk result (λ bad. bad ≡ classes.has_bad_point properties (pattern tree.now)) }
{
    match tree {
        PatternTree::Point(point) => is_bad_point(alloc, properties, *point),
        PatternTree::Group(part) => has_bad_point(alloc, properties, part),
        PatternTree::Optional(part) => has_bad_point(alloc, properties, part),
        PatternTree::Many(part) => has_bad_point(alloc, properties, part),
        PatternTree::Then(first, rest) => {
            Ok(has_bad_point(alloc, properties, first)? || has_bad_point(alloc, properties, rest)?)
        }
        PatternTree::Either(left, right) => {
            Ok(has_bad_point(alloc, properties, left)? || has_bad_point(alloc, properties, right)?)
        }
        _ => Ok(false),
    }
}

/// Whether an end of some span is such a code point.
pub fn has_bad_end(
    alloc: Global,
    properties: Properties,
    spans: &[Span],
) -> Result<bool, AllocError>
    ensures { IfOk result (λ bad. bad ≡ classes.has_bad_end properties spans.now) }
{
    for span in spans {
        if is_bad_span(alloc, properties, *span)? {
            return Ok(true);
        }
    }
    Ok(false)
}

fn is_bad_span(alloc: Global, properties: Properties, span: Span) -> Result<bool, AllocError>
    ensures { IfOk result (λ bad. bad ≡ classes.is_bad_span properties span) }
{
    Ok(is_bad_point(alloc, properties, span.first)? || is_bad_point(alloc, properties, span.last)?)
}

/// The place of such a code point.
pub fn bad_place(
    alloc: Global,
    properties: Properties,
    place: usize,
    point: u32,
) -> Result<Option<FaultPlace>, AllocError>
    ensures { IfOk result (λ found. found ≡ faults.bad_place properties place (Some point)) }
{
    let is_bad = is_bad_point(alloc, properties, point)?;
    Ok(is_bad.then_some(FaultPlace::Point(place, point)))
}

fn is_label_class(class: Class) -> bool
    ensures { result ≡ classes.is_label_class class }
{
    matches!(class, Class::Pvalid | Class::Contextj | Class::Contexto)
}
