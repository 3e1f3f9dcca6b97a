//! How the line that is answered is told.
ghost use Rattle.std.specs.Prelude.{◌≡◌, ◌≤◌, ◌+◌, ◌++◌, ◌∷◌, [], length, take};
ghost use Rattle.answer_json.specs.Inputs.{input_field, told, told_len};
ghost use Rattle.answer_json.specs.inner.Texts.{field_text};

use crate::member::{put_null, put_octets, put_text};
use crate::room::{MAX_OBJECT_LEN, ObjectRoom};
use std::str;

/// A line of input, without its end.
#[derive(Clone, Copy)]
pub enum Input<'a> {
    /// UTF-8, which is told as it is.
    Text(&'a [u8]),
    /// Bytes that are no UTF-8, which are told in hexadecimal digits.
    Octets(&'a [u8]),
    /// A line that is too long, of which no byte is kept.
    NotKept,
}

impl<'a> Input<'a> {
    ghost use Rattle.std.specs.Prelude.{◌≡◌, length, IsUtf8, Some};
    ghost use Rattle.answer_json.specs.Inputs.{told, told_len, told_of};

    /// A line that is UTF-8.
    #[tactic(auto, using(crate::proofs::Told::told_text))]
    pub fn of_utf8(line: &'a [u8]) -> Self
        requires { IsUtf8 line.now }
        ensures told { told result ≡ told_of (Some line.now) }
        ensures len { told_len result ≡ length line.now }
    {
        Input::Text(line)
    }

    /// A line of which the bytes are kept.
    #[tactic(auto, using(crate::proofs::Told::told_text, crate::proofs::Told::told_octets))]
    pub fn of(line: &'a [u8]) -> Self
        ensures told { told result ≡ told_of (Some line.now) }
        ensures len { told_len result ≡ length line.now }
    {
        match str::from_utf8(line) {
            Ok(_) => Input::Text(line),
            Err(_) => Input::Octets(line),
        }
    }
}

/// Writes a line of input as a member.
#[tactic(auto, unfolding(crate::specs::inner::Texts::field_text))]
#[inline(always)]
pub(crate) fn put_input(out: &mut ObjectRoom, at: usize, input: &Input) -> usize
    requires short { told_len input.now ≤ 1024 }
    requires room { at + 6200 ≤ MAX_OBJECT_LEN }
    ensures field { take result out.new ≡ take at out.old ++ 44 ∷ field_text (input_field (told input.now)) }
    ensures end { result ≤ at + 6200 }
{
    match input {
        Input::Text(text) => put_text(out, at, ",\"input\":", text),
        Input::Octets(octets) => put_octets(out, at, ",\"input_hex\":", octets),
        Input::NotKept => put_null(out, at, ",\"input\":"),
    }
}
