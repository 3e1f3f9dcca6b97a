//! Names and types (RFC 7940, appendix D).
ghost use Rattle.std.specs.Prelude.{◌≡◌, IfOk};
ghost use Rattle.std.specs.List.{list_all};
ghost use Rattle.std.specs.Option.{option_map};
ghost use Rattle.lgr_text.specs.Values as values;

use crate::words::next_word;
use ruleset_text::Name;
use std::alloc::{AllocError, Global};

/// What a word may be.
#[derive(Clone, Copy, PartialEq, Eq)]
pub enum NameKind {
    /// A name of a class or a rule.
    Identifier,
    /// A tag, or a property with its value.
    Token,
    /// A type or a disposition.
    Type,
}

impl NameKind {
    /// Whether a word is such a one.
    fn admits(self, word: &[u8]) -> bool
        ensures { result ≡ values.is_of self word.now }
    {
        match self {
            NameKind::Identifier => is_name(word),
            NameKind::Token => is_token(word),
            NameKind::Type => is_token(word) && !begins_with_underscore(word),
        }
    }

    /// The name that a value is.
    pub fn name_of(self, alloc: Global, text: &[u8]) -> Result<Option<Name>, AllocError>
        ensures { IfOk result (λ found. found ≡ values.name_of self text.now) }
    {
        if self.admits(text) {
            Ok(Some(Name::copied(alloc, text)?))
        } else {
            Ok(None)
        }
    }

    /// The names that a value lists, one or more.
    pub fn names_of(self, alloc: Global, text: &[u8]) -> Result<Option<Vec<Name>>, AllocError>
        ensures { IfOk result (λ found. option_map (λ v. v.items) found ≡ values.names_of self text.now) }
    {
        let mut names = Vec::new(alloc);
        let mut rest = text;
        while let Some((word, after)) = next_word(rest) {
            let Some(name) = self.name_of(alloc, word)? else {
                return Ok(None);
            };
            names.push(name)?;
            rest = after;
        }
        Ok(if names.is_empty() { None } else { Some(names) })
    }
}

/// Whether a word is a name of a class or a rule.
pub fn is_name(word: &[u8]) -> bool
    ensures { result ≡ values.is_name word.now }
{
    match word {
        [first, others @ ..] => is_name_start(*first) && are_name_bytes(others),
        [] => false,
    }
}

fn are_name_bytes(bytes: &[u8]) -> bool
    ensures { result ≡ list_all values.is_name_byte bytes.now }
{
    bytes.iter().all(|byte| is_name_byte(*byte))
}

fn is_token(word: &[u8]) -> bool
    ensures { result ≡ values.is_token word.now }
{
    match word {
        [first, others @ ..] => is_token_byte(*first) && are_token_bytes(others),
        [] => false,
    }
}

fn are_token_bytes(bytes: &[u8]) -> bool
    ensures { result ≡ list_all values.is_token_byte bytes.now }
{
    bytes.iter().all(|byte| is_token_byte(*byte))
}

fn begins_with_underscore(word: &[u8]) -> bool
    ensures { result ≡ values.begins_with_underscore word.now }
{
    matches!(word, [b'_', ..])
}

/// A letter or `_`. Characters beyond ASCII aren't told apart.
fn is_name_start(byte: u8) -> bool
    ensures { result ≡ values.is_name_start byte }
{
    matches!(byte, b'A'..=b'Z' | b'a'..=b'z' | b'_' | 0x80..)
}

fn is_name_byte(byte: u8) -> bool
    ensures { result ≡ values.is_name_byte byte }
{
    is_name_start(byte) || matches!(byte, b'0'..=b'9' | b'-' | b'.')
}

fn is_token_byte(byte: u8) -> bool
    ensures { result ≡ values.is_token_byte byte }
{
    is_name_byte(byte) || byte == b':'
}
