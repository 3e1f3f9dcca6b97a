//! The cause of a wrong line of the registered labels. It is looked for only once the line is found, and only if causes
//! are wanted.
ghost use Rattle.std.specs.Prelude.{◌≡◌, ◌≤◌, ◌-◌, IfOk, OnErr, false, length, slice_get};
ghost use Rattle.std.specs.Result.{IsOk};
ghost use Rattle.std.specs.Option.{option_copied};
ghost use Rattle.answer_json.specs.Details.{given_len};
ghost use Rattle.idn2_refusals.specs.WrongLines.{MayTakeMemory, body_at, order_cause, points_at, told_of_wrong_line};
ghost use Rattle.idn2_refusals.specs.WrongLines.{without_mark, wrong_line_cause};

use crate::cause::{Explaining, LineCause, cause_of_body};
use arrayvec::ArrayVec;
use idn_cause::Cause;
use idn_class::{Properties, shared_len};
use idn_label::before_mark;
use idn_text::{MAX_LINE_LEN, Refusal, TextLines, decode_points, without_carriage_return};
use std::alloc::{AllocError, Global};

/// The cause of the line of this number, if causes are wanted and one is told.
pub(crate) fn cause_if_wanted(
    alloc: Global,
    wanted: bool,
    text: &[u8],
    number: u64,
    refusal: Refusal,
    properties: Properties,
) -> Result<Option<LineCause>, AllocError>
    ensures cause { IfOk result (λ cause. cause ≡ told_of_wrong_line properties wanted text.now number refusal) }
    ensures unwanted { wanted ≡ false → IsOk result }
    ensures memory { OnErr result (MayTakeMemory text.now number refusal) }
{
    if wanted {
        cause_of_wrong_line(alloc, text, number, refusal, properties)
    } else {
        Ok(None)
    }
}

/// The cause of the line of this number, if one is told. It takes no memory for the order of two labels, nor where the
/// file or the line is too long.
fn cause_of_wrong_line(
    alloc: Global,
    text: &[u8],
    number: u64,
    refusal: Refusal,
    properties: Properties,
) -> Result<Option<LineCause>, AllocError>
    ensures cause { IfOk result (λ cause. cause ≡ wrong_line_cause properties text.now number refusal) }
    ensures memory { OnErr result (MayTakeMemory text.now number refusal) }
{
    match refusal {
        Refusal::OutOfOrder => Ok(Some(cause_of_order(text, number))),
        Refusal::FileTooLong => Ok(None),
        _ => cause_of_body(
            alloc,
            body_at(text, number),
            refusal,
            &Explaining::RegisteredLine(properties),
        ),
    }
}

/// Where a label differs from the one on the line before it.
fn cause_of_order(text: &[u8], number: u64) -> LineCause
    ensures { result ≡ order_cause (points_at text.now (number - 1)) (points_at text.now number) }
{
    let mut before = ArrayVec::new();
    let mut label = ArrayVec::new();
    read_label(text, number.saturating_sub(1), &mut before);
    read_label(text, number, &mut label);
    let place = shared_len(label.as_slice(), before.as_slice());
    match point_at(label.as_slice(), place) {
        Some(point) => LineCause::OfLabel(Cause::Point(place, point)),
        None => LineCause::Ends(place),
    }
}

/// The code point at a place of a label, if it has one.
fn point_at(label: &[u32], place: usize) -> Option<u32>
    ensures { result ≡ slice_get label.now place }
{
    match label.get(place) {
        Some(point) => Some(*point),
        None => None,
    }
}

/// Leaves the code points of the line of this number in `points`, and none if it has none.
fn read_label(text: &[u8], number: u64, points: &mut ArrayVec<u32, MAX_LINE_LEN>)
    ensures { points.new.items ≡ points_at text.now number }
{
    match body_at(text, number) {
        Some(body) => {
            let _ = decode_points(body, points);
        }
        None => points.clear(),
    }
}

/// What is tested of the line of this number: neither its end, nor the mark of an old label. There is none past the
/// last line, and of one that is too long.
fn body_at(text: &[u8], number: u64) -> Option<&[u8]>
    ensures body { option_copied result ≡ body_at text.now number }
    ensures short { given_len (option_copied result) ≤ MAX_LINE_LEN }
{
    let line = TextLines::new(text).nth(number.saturating_sub(1) as usize)?;
    if line.len() > MAX_LINE_LEN {
        None
    } else {
        Some(without_mark(without_carriage_return(line)))
    }
}

/// What is tested of the body of a line.
fn without_mark(body: &[u8]) -> &[u8]
    ensures label { result.now ≡ without_mark body.now }
    ensures shorter { length result.now ≤ length body.now }
{
    match before_mark(body) {
        Some(label) => label,
        None => body,
    }
}
