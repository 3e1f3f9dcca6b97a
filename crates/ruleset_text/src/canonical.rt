//! The canonical text of patterns, of sets and of definitions.
ghost use Rattle.std.specs.Prelude.{◌≡◌, ◌<◌, ◌++◌, [], ◌∷◌, slice_index_or, OnOk};
ghost use Rattle.idn_text.specs.Points.{four_digits, hex_digit};
ghost use Rattle.label_patterns.specs.Trees.{pattern};
ghost use Rattle.ruleset_text.specs.Canonical as text;

use crate::names::Name;
use idn_text::hex_digit;
use label_patterns::{PatternTree, PointSet, Span};
use std::alloc::AllocError;

/// Appends the canonical text of a pattern, whose sets go by their number among the names.
pub fn push_pattern(out: &mut Vec<u8>, names: &[Name], tree: &PatternTree) -> Result<(), AllocError>
    ensures { OnOk result (out.new.items ≡ out.old.items ++ text.pattern_text names.now (pattern tree.now)) }
{
    match tree {
        PatternTree::Point(point) => push_point(out, *point),
        PatternTree::Set(number) => push_set(out, names, *number),
        PatternTree::Any => push_byte(out, b'.'),
        PatternTree::Start => push_byte(out, b'^'),
        PatternTree::End => push_byte(out, b'$'),
        PatternTree::Anchor => push_byte(out, b'_'),
        PatternTree::Group(part) => {
            push_byte(out, b'(')?;
            push_pattern(out, names, part)?;
            push_byte(out, b')')
        }
        PatternTree::Optional(part) => {
            push_pattern(out, names, part)?;
            push_byte(out, b'?')
        }
        PatternTree::Many(part) => {
            push_pattern(out, names, part)?;
            push_byte(out, b'*')
        }
        PatternTree::Then(first, rest) => {
            push_pattern(out, names, first)?;
            push_byte(out, b' ')?;
            push_pattern(out, names, rest)
        }
        PatternTree::Either(left, right) => {
            push_pattern(out, names, left)?;
            push_bytes(out, b" / ")?;
            push_pattern(out, names, right)
        }
    }
}

/// Appends the canonical text of the spans of a set, each after a blank.
pub fn push_spans(out: &mut Vec<u8>, set: &PointSet) -> Result<(), AllocError>
    ensures { OnOk result (out.new.items ≡ out.old.items ++ text.spans_text set.now) }
{
    for span in set.spans() {
        push_byte(out, b' ')?;
        push_span(out, *span)?;
    }
    Ok(())
}

/// Appends a span: its ends, or the code point that it is.
fn push_span(out: &mut Vec<u8>, span: Span) -> Result<(), AllocError>
    ensures { OnOk result (out.new.items ≡ out.old.items ++ text.span_text span) }
{
    push_point(out, span.first)?;
    if span.first == span.last {
        return Ok(());
    }
    push_bytes(out, b"..")?;
    push_point(out, span.last)
}

/// Appends `@` and the name of the set of this number.
fn push_set(out: &mut Vec<u8>, names: &[Name], number: usize) -> Result<(), AllocError>
    ensures { OnOk result (out.new.items ≡ out.old.items ++ text.set_text names.now number) }
{
    push_byte(out, b'@')?;
    if number < names.len() {
        push_bytes(out, names[number].as_slice())?;
    }
    Ok(())
}

/// Appends a code point, in at least four digits.
#[tactic(auto, unfolding(crate::specs::Canonical::point_text))]
fn push_point(out: &mut Vec<u8>, point: u32) -> Result<(), AllocError>
    ensures { OnOk result (out.new.items ≡ out.old.items ++ text.point_text point) }
{
    if point < 0x1_0000 {
        push_four(out, point)
    } else if point < 0x10_0000 {
        push_digit(out, point / 0x1_0000 % 16)?;
        push_four(out, point)
    } else {
        push_digit(out, point / 0x10_0000 % 16)?;
        push_digit(out, point / 0x1_0000 % 16)?;
        push_four(out, point)
    }
}

/// Appends the last four digits of a number.
fn push_four(out: &mut Vec<u8>, number: u32) -> Result<(), AllocError>
    ensures { OnOk result (out.new.items ≡ out.old.items ++ four_digits number) }
{
    push_digit(out, number / 0x1000 % 16)?;
    push_digit(out, number / 0x100 % 16)?;
    push_digit(out, number / 0x10 % 16)?;
    push_digit(out, number % 16)
}

fn push_digit(out: &mut Vec<u8>, value: u32) -> Result<(), AllocError>
    requires { value < 16 }
    ensures { OnOk result (out.new.items ≡ out.old.items ++ hex_digit value ∷ []) }
{
    push_byte(out, hex_digit(value))
}

/// Appends a byte.
pub fn push_byte(out: &mut Vec<u8>, byte: u8) -> Result<(), AllocError>
    ensures { OnOk result (out.new.items ≡ out.old.items ++ byte ∷ []) }
{
    out.push(byte)?;
    Ok(())
}

/// Appends bytes.
pub fn push_bytes(out: &mut Vec<u8>, bytes: &[u8]) -> Result<(), AllocError>
    ensures { OnOk result (out.new.items ≡ out.old.items ++ bytes.now) }
{
    out.extend_from_slice(bytes)
}
