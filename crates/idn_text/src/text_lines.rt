//! The lines of a text in memory.

ghost use Rattle.std.specs.Prelude.{◌≡◌, [], ◌∷◌, MatchOption};
ghost use Rattle.std.specs.Str.Lines.{strip_carriage_return};
ghost use Rattle.idn_text.specs.Lines.{HasNoFeed, IsCutAtFeed, raw_lines};

use memchr::memchr;
use std::marker::Model;

/// The lines of a text, each as it stands there, without its line feed. A line is what stands before
/// a line feed, and after the last one a rest that is not empty.
#[derive(Drop)]
pub struct TextLines<'a> {
    rest: &'a [u8],
}

impl<'a> Model for TextLines<'a> {
    ghost use Rattle.std.specs.Prelude.{List, ℕ};
    ghost use Rattle.idn_text.specs.Lines.{raw_lines};

    ghost Value = { List (List ℕ) };

    ghost view = { λ lines. raw_lines lines.rest.now };
}

impl<'a> TextLines<'a> {
    /// The lines of a text.
    pub fn new(text: &'a [u8]) -> Self
        ensures { result ≡ raw_lines text.now }
    {
        TextLines { rest: text }
    }
}

impl<'a> Iterator for TextLines<'a> {
    type Item = &'a [u8];

    ghost use Rattle.std.specs.Iterator.{YieldsFirstRef, item_count};

    ghost next_gives = { YieldsFirstRef (λ lines. lines) };

    ghost remaining = { item_count (λ lines. lines) };

    fn next(&mut self) -> Option<&'a [u8]> {
        let (line, rest) = split_line(self.rest)?;
        self.rest = rest;
        Some(line)
    }
}

/// The first line of a text, and what follows its line feed, unless the text is empty.
fn split_line(text: &[u8]) -> Option<(&[u8], &[u8])>
    ensures { MatchOption result (raw_lines text.now ≡ [])
        (λ found. raw_lines text.now ≡ found.0.now ∷ raw_lines found.1.now) }
{
    match split_at_feed(text) {
        Some(parts) => Some(parts),
        None if text.is_empty() => None,
        None => Some((text, &[])),
    }
}

/// What stands before the first line feed, and what follows it, if there is one.
#[inline(always)]
pub(crate) fn split_at_feed(bytes: &[u8]) -> Option<(&[u8], &[u8])>
    ensures { MatchOption result (HasNoFeed bytes.now) (λ parts. IsCutAtFeed bytes.now parts.0.now parts.1.now) }
{
    let place = memchr(b'\n', bytes)?;
    Some((&bytes[..place], &bytes[place + 1..]))
}

/// A line without one carriage return at its end.
#[inline]
pub fn without_carriage_return(line: &[u8]) -> &[u8]
    ensures { result.now ≡ strip_carriage_return line.now }
{
    match line {
        [front @ .., b'\r'] => front,
        _ => line,
    }
}
