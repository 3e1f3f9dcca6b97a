//! The objects of refusals: of a line of input, and of a line of a table.
ghost use Rattle.std.specs.Prelude.{◌≡◌, ◌≤◌, ◌+◌, ◌++◌, [], Some, take};
ghost use Rattle.answer_json.specs.Answers.{line_of};
ghost use Rattle.answer_json.specs.Details.{HasShortTexts, details_of, refusal_fields};
ghost use Rattle.answer_json.specs.Inputs.{told, told_len};
ghost use Rattle.answer_json.specs.Objects.{refused, registered_fault, table_fault};
ghost use Rattle.answer_json.specs.inner.Texts.{refusal_text};

use crate::details::{put_action, put_demand, put_lengths, put_rule, put_where};
use crate::ends::{begin_line, end_line};
use crate::input::Input;
use crate::member::{put_number, put_opening, put_text};
use crate::refusal_members::RefusalMembers;
use crate::room::{MAX_OBJECT_LEN, ObjectRoom, put_byte};
use idn_text::Refusal;

/// Writes the object of a line that is refused, and a line feed.
pub fn write_refused<'a>(
    out: &'a mut ObjectRoom,
    line: u64,
    input: &Input,
    refusal: Refusal,
    members: &RefusalMembers,
) -> &'a [u8]
    requires input { told_len input.now ≤ 1024 }
    requires texts { HasShortTexts (details_of members.now) }
    ensures { result.now ≡ line_of (refused line (told input.now) refusal (details_of members.now)) }
{
    let at = begin_line(out, line, input);
    let end = put_refusal(out, at, refusal, members);
    end_line(out, end)
}

/// Writes the object of a line of a table that is refused, and a line feed.
pub fn write_table_fault<'a>(
    out: &'a mut ObjectRoom,
    line: u64,
    refusal: Refusal,
    members: &RefusalMembers,
) -> &'a [u8]
    requires { HasShortTexts (details_of members.now) }
    ensures { result.now ≡ line_of (table_fault line refusal (details_of members.now)) }
{
    let at = put_number(out, 0, "{\"table_line\":", line);
    let end = put_refusal(out, at, refusal, members);
    end_line(out, end)
}

/// Writes the object of a line of the registered labels that is refused, and a line feed.
pub fn write_registered_fault<'a>(
    out: &'a mut ObjectRoom,
    line: u64,
    refusal: Refusal,
    members: &RefusalMembers,
) -> &'a [u8]
    requires { HasShortTexts (details_of members.now) }
    ensures { result.now ≡ line_of (registered_fault line refusal (details_of members.now)) }
{
    let at = put_number(out, 0, "{\"registered_line\":", line);
    let end = put_refusal(out, at, refusal, members);
    end_line(out, end)
}

/// Writes the object of a refusal as a member.
fn put_refusal(out: &mut ObjectRoom, at: usize, refusal: Refusal, members: &RefusalMembers) -> usize
    requires texts { HasShortTexts (details_of members.now) }
    requires room { at + 6144 ≤ MAX_OBJECT_LEN }
    ensures object { take result out.new ≡
        take at out.old ++ refusal_text (Some (refusal_fields refusal (details_of members.now))) [] }
    ensures end { result ≤ at + 6144 }
{
    let object = put_opening(out, at, ",\"refusal\":");
    let text = put_number(out, object, "{\"number\":", refusal.number() as u64);
    let place = put_text(out, text, ",\"text\":", refusal.text().as_bytes());
    let rule = put_where(out, place, members);
    let demand = put_rule(out, rule, members);
    let action = put_demand(out, demand, members);
    let lengths = put_action(out, action, members);
    let end = put_lengths(out, lengths, members);
    put_byte(out, end, b'}')
}
