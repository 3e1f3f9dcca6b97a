//! The messages of refusals.

ghost use Rattle.std.specs.Prelude.{◌≡◌, ◌≤◌, ◌++◌, [], length, codes, decimal, Some};
ghost use Rattle.idn2_refusals.specs.CauseWords.{tail_text};
ghost use Rattle.idn2_refusals.specs.Messages.{told, line_message, message_with, table_message};

use crate::cause::LineCause;
use crate::cause_words::{ExplainedMessage, push_cause};
use crate::told_cause::told_cause;
use arrayvec::ArrayString;
use idn_text::Refusal;
use idn2_output::append;
use itoa::Buffer;

/// A message, for whose bytes there is space.
pub(crate) type Message = ArrayString<96>;

/// The message of a refused line.
pub(crate) fn line_message(number: u64, refusal: &Refusal) -> Message
    ensures { result.bytes ≡ line_message number refusal.now }
{
    message("idn2: line ", number, refusal)
}

/// The message of a line with the cause of its refusal, after the words that say whose line it is.
pub(crate) fn explained_message(
    before: &[u8],
    number: u64,
    refusal: &Refusal,
    cause: &LineCause,
) -> ExplainedMessage
    requires { length before.now ≤ 22 }
    ensures { result.items ≡ message_with before.now number refusal.now (tail_text refusal.now (Some cause.now)) }
{
    let mut message = ExplainedMessage::new();
    let mut digits = Buffer::new();
    append(&mut message, before);
    append(&mut message, digits.format(number).as_bytes());
    append(&mut message, b": ");
    append(&mut message, digits.format(refusal.number()).as_bytes());
    append(&mut message, b" ");
    append(&mut message, refusal.text().as_bytes());
    append(&mut message, b": ");
    push_cause(&mut message, &told_cause(refusal, cause));
    append(&mut message, b"\n");
    message
}

/// The message of a line of a table.
pub(crate) fn table_message(number: u64, refusal: &Refusal) -> Message
    ensures { result.bytes ≡ table_message number refusal.now [] }
{
    message("idn2: table line ", number, refusal)
}

/// The message of a line of registered labels.
pub(crate) fn registered_message(number: u64, refusal: &Refusal) -> Message
    ensures { result.bytes ≡ message_with (codes "idn2: registered line ") number refusal.now [] }
{
    message("idn2: registered line ", number, refusal)
}

fn message(before: &str, number: u64, refusal: &Refusal) -> Message
    requires { length before.now ≤ 22 }
    ensures { result.bytes ≡ before.now ++ (decimal number ++ (codes ": " ++ told refusal.now)) }
{
    let mut message = Message::new();
    let mut digits = Buffer::new();
    message.push_str(before);
    message.push_str(digits.format(number));
    message.push_str(": ");
    message.push_str(digits.format(refusal.number()));
    message.push_str(" ");
    message.push_str(refusal.text());
    message.push_str("\n");
    message
}
