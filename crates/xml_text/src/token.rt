//! What a document says.
ghost use Rattle.std.specs.Prelude.{◌≡◌};
ghost use Rattle.xml_text.specs.Tokens.{said as said_as};

use crate::attribute::Attribute;
use std::marker::Model;

/// What a document says at a place of it.
#[derive(Drop)]
pub enum Said<'a> {
    /// A start tag, or the beginning of an empty element.
    Open(&'a [u8], &'a [Attribute<'a>]),
    /// The UTF-8 of what stands between two tags in the root element, without comments and processing instructions.
    Text(&'a [u8]),
    /// An end tag, or the end of an empty element.
    Close,
}

/// What a document says, and a line of it, counted from 1.
#[derive(Drop)]
pub struct Token<'a> {
    said: Said<'a>,
    line: usize,
}

impl<'a> Model for Token<'a> {
    ghost use Rattle.xml_text.specs.Tokens.{Token as Told, said as said_as};

    ghost Value = { Told };

    ghost view = { λ t. record { said = said_as t.said; line = t.line } };
}

impl<'a> Token<'a> {
    /// What is said, on this line.
    pub fn new(said: Said<'a>, line: usize) -> Self
        ensures { result ≡ record { said = said_as said.entry; line = line } }
    {
        Token { said, line }
    }

    /// What is said.
    pub fn said(&self) -> &Said<'a>
        ensures { said_as result.now ≡ self.now.said }
    {
        &self.said
    }

    /// The line on which a tag begins, or a text ends.
    pub fn line(&self) -> usize
        ensures { result ≡ self.now.line }
    {
        self.line
    }
}
