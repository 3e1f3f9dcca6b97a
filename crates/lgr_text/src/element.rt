//! The elements of a document, one after the other.
ghost use Rattle.std.specs.Prelude.{◌≡◌, ◌+◌, ◌<◌, ◌≤◌, List, ℕ, bytes_eq, false, length, map};
ghost use Rattle.std.specs.Prelude.{IfOk, IfSome, MatchOption};
ghost use Rattle.std.specs.List.{list_all, prefix_len};
ghost use Rattle.lgr_text.specs.Elements.{Content, Say, text_of};
ghost use Rattle.lgr_text.specs.Elements as contents;
ghost use Rattle.lgr_text.specs.declared.fault.ReadError.TheVariants.{Wrong};
ghost use Rattle.lgr_text.specs.inner.Reading.{AreOf, NextIs, Reads, after_blanks, closes, is_blank_said, is_open};
ghost use Rattle.lgr_text.specs.inner.Reading.{is_text};
ghost use Rattle.xml_text.specs.Tokens.{Open, Text, said as said_as};

use crate::fault::ReadError;
use xml_text::{Attribute, Said, Token, is_blank as is_blank_byte};

/// The elements of tokens, from left to right.
#[derive(Clone, Copy)]
pub struct Elements<'a> {
    /// What stands before the name of each element.
    pub prefix: &'a [u8],
    pub tokens: &'a [Token<'a>],
}

/// An element: its name without the prefix, its attributes, and the elements in it.
#[derive(Clone, Copy)]
pub struct Element<'a> {
    pub name: &'a [u8],
    pub attributes: &'a [Attribute<'a>],
    pub within: Elements<'a>,
    /// The line of its tag, counted from 1.
    pub line: usize,
}

impl<'a> Elements<'a> {
    /// The next element, if nothing but blanks stands before it; `None` if nothing but blanks is left.
    pub fn next(&mut self) -> Result<Option<Element<'a>>, ReadError>
        ensures next { (c : Content) → AreOf self.old c → NextIs self.new (after_blanks c) result }
        ensures prefix { self.new.prefix ≡ self.old.prefix }
        ensures shorter { IfOk result (λ found.
            IfSome found (λ e. length self.new.tokens.now < length self.old.tokens.now)) }
    {
        let Some((first, others)) = without_blank_texts(self.tokens).split_first() else {
            return Ok(None);
        };
        let wrong = ReadError::Wrong(line_of(first));
        let Some((full_name, attributes)) = opened(first.said()) else {
            return Err(wrong);
        };
        let Some(name) = full_name.strip_prefix(self.prefix) else {
            return Err(wrong);
        };
        let Some(len) = inner_len(others) else {
            return Err(wrong);
        };
        let (tokens, _) = others.split_at(len);
        let (_, rest) = others.split_at(len + 1);
        let prefix = self.prefix;
        *self = Elements {
            prefix,
            tokens: rest,
        };
        Ok(Some(Element {
            name,
            attributes,
            within: Elements { prefix, tokens },
            line: first.line(),
        }))
    }
}

impl<'a> Element<'a> {
    /// Why the element isn't one of RFC 7940.
    pub fn wrong(&self) -> ReadError
        ensures { result ≡ Wrong self.now.line }
    {
        ReadError::Wrong(self.line)
    }

    /// Whether the element has this name.
    pub fn is_named(&self, name: &[u8]) -> bool
        ensures { result ≡ bytes_eq self.now.name.now name.now }
    {
        self.name == name
    }

    /// Its text, if nothing else is in it.
    pub fn text(&self) -> Result<&'a [u8], ReadError>
        ensures { (c : Content) → AreOf self.now.within c → Reads (λ text. text.now) (text_of c) result }
    {
        let Some((first, others)) = self.within.tokens.split_first() else {
            return Ok(b"");
        };
        match text_in(first.said()) {
            Some(text) if others.is_empty() => Ok(text),
            _ => Err(self.wrong()),
        }
    }
}

/// The name and the attributes of a start tag.
pub fn opened<'t, 'a>(said: &'t Said<'a>) -> Option<(&'t [u8], &'t [Attribute<'a>])>
    ensures { MatchOption result (is_open (said_as said.now) ≡ false)
        (λ tag. said_as said.now ≡ Open tag.0.now tag.1.now) }
{
    match said {
        Said::Open(name, attributes) => Some((*name, *attributes)),
        Said::Text(_) | Said::Close => None,
    }
}

/// The text between two tags.
fn text_in<'t>(said: &'t Said<'_>) -> Option<&'t [u8]>
    ensures { MatchOption result (is_text (said_as said.now) ≡ false) (λ text. said_as said.now ≡ Text text.now) }
{
    match said {
        Said::Text(text) => Some(*text),
        Said::Open(_, _) | Said::Close => None,
    }
}

/// The line of a tag, or of the first byte of a text that is no blank. The token of a text has the line of the tag
/// after it, and each end of a line is one line feed in it.
fn line_of(token: &Token<'_>) -> usize {
    match token.said() {
        Said::Text(text) => token
            .line()
            .saturating_sub(line_feeds(text.trim_ascii_start())),
        Said::Open(_, _) | Said::Close => token.line(),
    }
}

/// How many line feeds a text has.
fn line_feeds(text: &[u8]) -> usize {
    text.iter().filter(|byte| **byte == b'\n').count()
}

/// What follows the texts at the front that are blank.
fn without_blank_texts<'t, 'a>(tokens: &'t [Token<'a>]) -> &'t [Token<'a>]
    ensures is { (p : List ℕ) (c : Content) → Say p tokens.now c → Say p result.now (after_blanks c) }
    ensures within { length result.now ≤ length tokens.now }
{
    let (_, rest) = tokens.split_at(blank_texts(tokens));
    rest
}

/// How many texts at the front are blank.
fn blank_texts(tokens: &[Token<'_>]) -> usize
    ensures is { result ≡ prefix_len (λ t. is_blank_said t.said) tokens.now }
    ensures within { result ≤ length tokens.now }
{
    for (place, token) in tokens.iter().enumerate() {
        if !is_blank(token.said()) {
            return place;
        }
    }
    tokens.len()
}

/// Whether it is a text of blanks.
fn is_blank(said: &Said<'_>) -> bool
    ensures { result ≡ is_blank_said (said_as said.now) }
{
    match said {
        Said::Text(text) => is_blank_text(text),
        Said::Open(_, _) | Said::Close => false,
    }
}

/// How many tokens stand before the end tag of the element in which they begin.
fn inner_len(tokens: &[Token<'_>]) -> Option<usize>
    ensures is { result ≡ closes 0 (map (λ t. t.said) tokens.now) }
    ensures within { IfSome result (λ n. n < length tokens.now) }
{
    let mut open: usize = 0;
    for (place, token) in tokens.iter().enumerate() {
        match token.said() {
            Said::Open(_, _) => open += 1,
            Said::Text(_) => {}
            Said::Close => {
                if open == 0 {
                    return Some(place);
                }
                open -= 1;
            }
        }
    }
    None
}

/// Whether nothing but blanks stands in a text.
pub fn is_blank_text(text: &[u8]) -> bool
    ensures { result ≡ contents.is_blank_text text.now }
{
    text.iter().all(|byte| is_blank_byte(*byte))
}
