//! The bytes of a line.

ghost use Rattle.std.specs.Prelude.{◌≡◌, ◌≤◌, length, Some};

use arrayvec::ArrayVec;

/// The most bytes of a line, a carriage return at its end counted. So no line has more code points.
pub const MAX_LINE_LEN: usize = 1024;

/// A line without its end: the line feed, and one carriage return before it, are left out. Only `next_line` gives it,
/// which only tests call.
#[derive(Drop)]
pub enum Body {
    Text(ArrayVec<u8, MAX_LINE_LEN>),
    /// A line of more than 1,024 bytes, a carriage return at its end counted.
    TooLong,
}

impl Body {
    ghost use Rattle.idn_text.specs.Bodies.{bytes_of};

    /// The body of a line that is not too long.
    pub(crate) fn of(text: &[u8]) -> Self
        requires { length text.now ≤ MAX_LINE_LEN }
        ensures { bytes_of result ≡ Some text.now }
    {
        match ArrayVec::try_from(text) {
            Ok(text) => Body::Text(text),
            Err(_) => unreachable!(),
        }
    }
}
