//! How an object begins and ends.
ghost use Rattle.std.specs.Prelude.{◌≡◌, ◌≤◌, ◌+◌, ◌++◌, ◌∷◌, [], take};
ghost use Rattle.answer_json.specs.Inputs.{input_field, told, told_len};
ghost use Rattle.answer_json.specs.Objects.{line_field};
ghost use Rattle.answer_json.specs.inner.Begun.{IsBegun};

use crate::input::{Input, put_input};
use crate::member::put_number;
use crate::room::{MAX_OBJECT_LEN, ObjectRoom, put_bytes};

/// Begins an object with a line's number and what the line is told as.
///
/// Always inline: how the line is told is mostly known where it is called.
#[inline(always)]
pub(crate) fn begin_line(out: &mut ObjectRoom, line: u64, input: &Input) -> usize
    requires { told_len input.now ≤ 1024 }
    ensures begun { IsBegun [] (line_field line ∷ input_field (told input.now) ∷ []) (take result out.new) }
    ensures end { result ≤ 6240 }
{
    let at = put_number(out, 0, "{\"line\":", line);
    put_input(out, at, input)
}

/// Ends an object and its line, and gives the line.
#[inline(always)]
pub(crate) fn end_line(out: &mut ObjectRoom, at: usize) -> &[u8]
    requires { at + 2 ≤ MAX_OBJECT_LEN }
    ensures { result.now ≡ take at out.old ++ 125 ∷ 10 ∷ [] }
{
    let end = put_bytes(out, at, b"}\n");
    &out[..end]
}
