//! Reading a document.
ghost use Rattle.std.specs.Prelude.{◌≡◌, ◌≤◌, length, take, IfOk, IfErr};
ghost use Rattle.xml_text.specs.Files.{IsDocument, IsFault, IsFront, IsReadable, HasWrongDeclaration, begins_as_xml};
ghost use Rattle.xml_text.specs.Files.{is_less_than, mark_of};

use crate::body::read_body;
use crate::bytes::is_blank;
use crate::characters::first_wrong_character;
use crate::declaration::declaration_length;
use crate::fault::{DocumentError, Place, ReadError};
use crate::lines::line_after;
use crate::token::Token;
use bumpalo::Bump;
use std::alloc::Global;

/// How many bytes a document may have: 64 MiB.
const MAX_BYTES: usize = 67_108_864;

/// Whether a text is taken for XML: its first byte that is no blank is `<`, after a byte order mark if it has one.
pub fn begins_as_xml(text: &[u8]) -> bool
    ensures { result ≡ begins_as_xml text.now }
{
    let (_, rest) = text.split_at(mark_length(text));
    is_less_than(rest.iter().find(|byte| !is_blank(**byte)).copied())
}

fn is_less_than(byte: Option<u8>) -> bool
    ensures { result ≡ is_less_than byte }
{
    byte == Some(b'<')
}

/// What a document of XML 1.0 says that is written in UTF-8 and has no document type, or the first byte with which no
/// document goes on. What doesn't stand in the text as it is said stands in the arena.
pub fn read_document<'a>(
    alloc: Global,
    arena: &'a Bump,
    text: &'a [u8],
) -> Result<Vec<Token<'a>>, DocumentError>
    ensures read { IfOk result (λ tokens. IsDocument text.now tokens.items) }
    ensures fault { IfErr result (IsFault text.now) }
{
    if text.len() > MAX_BYTES {
        return Err(DocumentError::TooLong);
    }
    if let Some(byte) = first_wrong_character(text) {
        return Err(DocumentError::NoCharacter(Place::new(text, byte)));
    }
    let begin = front_length(alloc, arena, text)?;
    let (front, body) = text.split_at(begin);
    match read_body(alloc, arena, body, line_after(front)) {
        Ok(tokens) => Ok(tokens),
        Err(ReadError::Stop(place)) => Err(DocumentError::Stop(Place::new(text, begin + place))),
        Err(ReadError::Memory) => Err(DocumentError::Memory),
    }
}

/// How many bytes the mark and the declaration have with which a text begins.
fn front_length(alloc: Global, arena: &Bump, text: &[u8]) -> Result<usize, DocumentError>
    requires { IsReadable text.now }
    ensures within { IfOk result (λ n. n ≤ length text.now) }
    ensures front { IfOk result (λ n. IsFront text.now (take n text.now)) }
    ensures wrong { IfErr result (IsFault text.now) }
{
    let mark = mark_length(text);
    let (_, rest) = text.split_at(mark);
    Ok(mark + declaration_length(alloc, arena, rest)?)
}

/// How many bytes the byte order mark has with which a text begins.
fn mark_length(text: &[u8]) -> usize
    ensures mark { result ≡ length (mark_of text.now) }
    ensures within { result ≤ length text.now }
    ensures is { take result text.now ≡ mark_of text.now }
{
    match text {
        [0xEF, 0xBB, 0xBF, ..] => 3,
        _ => 0,
    }
}
