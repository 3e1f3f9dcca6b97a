//! The lines of a text.
ghost use Rattle.std.specs.Prelude.{◌≡◌, ◌+◌, ◌≤◌, [], ◌∷◌, length};
ghost use Rattle.xml_text.specs.Files.{IsLineOf, max_bytes};
ghost use Rattle.xml_text.specs.LineEnds as ends;
ghost use Rattle.xml_text.specs.LineEnds.{line_feeds, line_feeds_after};

use crate::fault::Place;

/// The line after a text, counted from 1. Lines end in CR LF, LF or CR (section 2.11).
pub fn line_after(text: &[u8]) -> usize
    requires { length text.now ≤ max_bytes }
    ensures is { result ≡ ends.line_after 1 (line_feeds text.now) }
    ensures few { result ≤ length text.now + 1 }
{
    let mut line: usize = 1;
    let mut is_after_return = false;
    for byte in text {
        line = next_line(line, is_after_return, *byte);
        is_after_return = *byte == b'\r';
    }
    line
}

/// The line after a byte on this line.
fn next_line(line: usize, is_after_return: bool, byte: u8) -> usize
    requires { line ≤ max_bytes }
    ensures is { result ≡ ends.line_after line (line_feeds_after is_after_return (byte ∷ [])) }
    ensures few { result ≤ line + 1 }
{
    match byte {
        b'\r' => line + 1,
        b'\n' if !is_after_return => line + 1,
        _ => line,
    }
}

impl Place {
    /// The place of a byte of a text.
    pub fn new(text: &[u8], byte: usize) -> Self
        requires short { length text.now ≤ max_bytes }
        requires within { byte ≤ length text.now }
        ensures byte { result.byte ≡ byte }
        ensures line { IsLineOf text.now result }
    {
        Place {
            byte,
            line: line_after(&text[..byte]),
        }
    }
}
