//! The objects of lines that are answered by one text.
//!
//! Always inline: one call writes each kind of answer, and knows how the line is told.
ghost use Rattle.std.specs.Prelude.{◌≡◌, ◌≤◌, length, Some, None};
ghost use Rattle.answer_json.specs.Answers.{line_of};
ghost use Rattle.answer_json.specs.Inputs.{told, told_len};
ghost use Rattle.answer_json.specs.Objects.{decoded, least, looked_up, old_label, registered};

use crate::collision::{Regards, put_regards};
use crate::ends::{begin_line, end_line};
use crate::input::Input;
use crate::member::{put_flag, put_null, put_text};
use crate::room::ObjectRoom;

/// Writes the object of a line that is looked up, and a line feed.
#[inline(always)]
pub fn write_looked_up<'a>(
    out: &'a mut ObjectRoom,
    line: u64,
    input: &Input,
    ascii: &[u8],
) -> &'a [u8]
    requires input { told_len input.now ≤ 1024 }
    requires ascii { length ascii.now ≤ 254 }
    ensures { result.now ≡ line_of (looked_up line (told input.now) ascii.now) }
{
    let at = begin_line(out, line, input);
    let end = put_text(out, at, ",\"ascii\":", ascii);
    end_line(out, end)
}

/// Writes the object of a line that is answered by a U-label and its A-label, and a line feed.
#[inline(always)]
pub fn write_registered<'a>(
    out: &'a mut ObjectRoom,
    line: u64,
    input: &Input,
    u_label: &[u8],
    a_label: &[u8],
) -> &'a [u8]
    requires input { told_len input.now ≤ 1024 }
    requires u_label { length u_label.now ≤ 252 }
    requires a_label { length a_label.now ≤ 63 }
    ensures { result.now ≡ line_of (registered line (told input.now) u_label.now a_label.now) }
{
    let at = begin_line(out, line, input);
    let next = put_text(out, at, ",\"ulabel\":", u_label);
    let end = put_text(out, next, ",\"alabel\":", a_label);
    end_line(out, end)
}

/// Writes the object of a name that is decoded, and a line feed.
#[inline(always)]
pub fn write_decoded<'a>(
    out: &'a mut ObjectRoom,
    line: u64,
    input: &Input,
    unicode: &[u8],
) -> &'a [u8]
    requires input { told_len input.now ≤ 1024 }
    requires unicode { length unicode.now ≤ 4096 }
    ensures { result.now ≡ line_of (decoded line (told input.now) unicode.now) }
{
    let at = begin_line(out, line, input);
    let end = put_text(out, at, ",\"unicode\":", unicode);
    end_line(out, end)
}

/// Writes the object of a label of a zone that is answered by an old label, and a line feed.
#[inline(always)]
pub fn write_old_label<'a>(
    out: &'a mut ObjectRoom,
    line: u64,
    input: &Input,
    unicode: &[u8],
) -> &'a [u8]
    requires input { told_len input.now ≤ 1024 }
    requires unicode { length unicode.now ≤ 252 }
    ensures { result.now ≡ line_of (old_label line (told input.now) unicode.now) }
{
    let at = begin_line(out, line, input);
    let next = put_text(out, at, ",\"unicode\":", unicode);
    let end = put_flag(out, next, ",\"old\":", true);
    end_line(out, end)
}

/// Writes the object of a request that is answered by the least near label from its text on, and a line feed.
#[inline(always)]
pub fn write_least<'a>(
    out: &'a mut ObjectRoom,
    line: u64,
    input: &Input,
    label: &[u8],
    regards: Regards,
) -> &'a [u8]
    requires input { told_len input.now ≤ 1024 }
    requires label { length label.now ≤ 252 }
    ensures { result.now ≡ line_of (least line (told input.now) (Some (label.now, regards))) }
{
    let at = begin_line(out, line, input);
    let next = put_text(out, at, ",\"ulabel\":", label);
    let end = put_regards(out, next, regards);
    end_line(out, end)
}

/// Writes the object of a request that is answered by no label, and a line feed.
#[inline(always)]
pub fn write_no_least<'a>(out: &'a mut ObjectRoom, line: u64, input: &Input) -> &'a [u8]
    requires { told_len input.now ≤ 1024 }
    ensures { result.now ≡ line_of (least line (told input.now) None) }
{
    let at = begin_line(out, line, input);
    let end = put_null(out, at, ",\"ulabel\":");
    end_line(out, end)
}
