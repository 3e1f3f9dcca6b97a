//! The objects of the block of a label: one for each of its variants, and a trailer.
ghost use Rattle.std.specs.Prelude.{◌≡◌, ◌≤◌, ◌+◌, ◌++◌, [], length, take};
ghost use Rattle.std.specs.Option.{option_copied};
ghost use Rattle.answer_json.specs.Answers.{line_of};
ghost use Rattle.answer_json.specs.Inputs.{told, told_len};
ghost use Rattle.answer_json.specs.Objects.{disposition_fields, end_fields, trailer, variant};
ghost use Rattle.answer_json.specs.Details.{given_len};
ghost use Rattle.answer_json.specs.inner.Texts.{fields_text};

use crate::details::put_flag_if;
use crate::ends::{begin_line, end_line};
use crate::input::Input;
use crate::member::{put_flag, put_number, put_text};
use crate::room::{MAX_OBJECT_LEN, ObjectRoom};

/// Whether a variant may be allocated (RFC 7940, section 7.3).
#[derive(Clone, Copy, PartialEq, Eq)]
pub enum Disposition {
    Allocatable,
    Blocked,
    /// Blocked, since its readings have different kinds (section 8.4).
    Unclear,
}

impl Disposition {
    ghost use Rattle.answer_json.specs.Objects.{disposition_text, is_unclear};

    /// The text of the disposition.
    fn text(self) -> &'static str
        ensures text { result.now ≡ disposition_text self }
        ensures short { length result.now ≤ 11 }
    {
        match self {
            Disposition::Allocatable => "allocatable",
            Disposition::Blocked | Disposition::Unclear => "blocked",
        }
    }

    /// Whether the readings have different kinds.
    fn is_unclear(self) -> bool
        ensures { result ≡ is_unclear self }
    {
        self == Disposition::Unclear
    }
}

/// Writes the object of a variant with its A-label, and a line feed. A table of version 1 gives no disposition.
pub fn write_variant<'a>(
    out: &'a mut ObjectRoom,
    line: u64,
    u_label: &[u8],
    a_label: &[u8],
    disposition: Option<Disposition>,
) -> &'a [u8]
    requires u_label { length u_label.now ≤ 252 }
    requires a_label { length a_label.now ≤ 63 }
    ensures { result.now ≡ line_of (variant line u_label.now a_label.now disposition) }
{
    let at = put_number(out, 0, "{\"line\":", line);
    let next = put_text(out, at, ",\"ulabel\":", u_label);
    let last = put_text(out, next, ",\"alabel\":", a_label);
    let end = put_disposition(out, last, disposition);
    end_line(out, end)
}

/// Writes a disposition, where there is one, and that it is unclear, where it is.
#[tactic(auto, using(crate::proofs::Members::one_field))]
fn put_disposition(out: &mut ObjectRoom, at: usize, disposition: Option<Disposition>) -> usize
    requires { at + 120 ≤ MAX_OBJECT_LEN }
    ensures fields { take result out.new ≡ take at out.old ++ fields_text (disposition_fields disposition) [] }
    ensures end { result ≤ at + 120 }
{
    match disposition {
        Some(disposition) => {
            let next = put_text(out, at, ",\"disposition\":", disposition.text().as_bytes());
            put_flag_if(out, next, ",\"unclear\":", disposition.is_unclear())
        }
        None => at,
    }
}

/// Writes the trailer of a block, and a line feed: how many variants it has, and the label after which there may be
/// more, where it was stopped.
pub fn write_trailer<'a>(
    out: &'a mut ObjectRoom,
    line: u64,
    input: &Input,
    count: u64,
    stop: Option<&[u8]>,
) -> &'a [u8]
    requires input { told_len input.now ≤ 1024 }
    requires stop { given_len (option_copied stop) ≤ 252 }
    ensures { result.now ≡ line_of (trailer line (told input.now) count (option_copied stop.entry)) }
{
    let at = begin_line(out, line, input);
    let next = put_number(out, at, ",\"count\":", count);
    let end = put_end(out, next, stop);
    end_line(out, end)
}

/// Writes whether a block is complete, and where it was stopped.
fn put_end(out: &mut ObjectRoom, at: usize, stop: Option<&[u8]>) -> usize
    requires short { given_len (option_copied stop) ≤ 252 }
    requires room { at + 1600 ≤ MAX_OBJECT_LEN }
    ensures fields { take result out.new ≡ take at out.old ++ fields_text (end_fields (option_copied stop.entry)) [] }
    ensures end { result ≤ at + 1600 }
{
    let next = put_flag(out, at, ",\"complete\":", stop.is_none());
    match stop {
        Some(label) => put_text(out, next, ",\"after\":", label),
        None => next,
    }
}
