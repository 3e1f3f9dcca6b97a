//! The declaration of XML.
ghost use Rattle.std.specs.Bool.{MatchBool};
ghost use Rattle.std.specs.List.{list_all};
ghost use Rattle.std.specs.Prelude.{◌≡◌, ◌<◌, ◌≤◌, true, false, codes, length, take, slice_index, IfOk, IfErr};
ghost use Rattle.xml_text.specs.declared.fault.DocumentError.TheVariants as document;
ghost use Rattle.xml_text.specs.Files as words;
ghost use Rattle.xml_text.specs.Files.{IsDeclaration, IsDeclarationFault, IsDeclared, IsXmlTag};
ghost use Rattle.xml_text.specs.Files.{is_declared_byte, max_bytes};
ghost use Rattle.xml_text.specs.Pieces.{begins_with};
ghost use Rattle.xml_text.specs.Tags.{tag};

use crate::attribute::{Attribute, Tag, TagKind};
use crate::bytes::is_blank;
use crate::fault::{DocumentError, ReadError};
use crate::tag::read_tag;
use bumpalo::Bump;
use std::alloc::Global;

/// How many bytes the declaration has with which a text begins: 0 if it begins as none does.
pub fn declaration_length(alloc: Global, arena: &Bump, text: &[u8]) -> Result<usize, DocumentError>
    requires { length text.now ≤ max_bytes }
    ensures within { IfOk result (λ n. n ≤ length text.now) }
    ensures declared { IfOk result (λ n.
        IsDeclared (words.is_ascii text.now) (words.declares text.now) (take n text.now)) }
    ensures wrong { IfErr result (IsDeclarationFault text.now) }
{
    if declares(text) {
        read_declaration(alloc, arena, text)
    } else {
        Ok(0)
    }
}

/// Whether a text begins with what only a declaration begins with.
fn declares(text: &[u8]) -> bool
    ensures { result ≡ words.declares text.now }
{
    match text {
        [b'<', b'?', b'x', b'm', b'l', blank, ..] => is_blank(*blank),
        _ => false,
    }
}

/// How many bytes the declaration has with which a text begins that begins as one.
fn read_declaration(alloc: Global, arena: &Bump, text: &[u8]) -> Result<usize, DocumentError>
    requires declares { words.declares text.now ≡ true }
    requires short { length text.now ≤ max_bytes }
    ensures within { IfOk result (λ n. n ≤ length text.now) }
    ensures declared { IfOk result (λ n. IsDeclaration (words.is_ascii text.now) (take n text.now)) }
    ensures wrong { IfErr result (IsDeclarationFault text.now) }
{
    let (_, rest) = text.split_at(2);
    let (inside, end) = rest.split_at(declared_length(rest));
    if !ends(end) {
        return Err(DocumentError::Declaration);
    }
    if is_xml_tag(alloc, arena, inside, is_ascii(text))? {
        Ok(inside.len() + 4)
    } else {
        Err(DocumentError::Declaration)
    }
}

/// How many bytes that a declaration may have stand before its end.
fn declared_length(text: &[u8]) -> usize
    ensures within { result ≤ length text.now }
    ensures bytes { list_all is_declared_byte (take result text.now) ≡ true }
    ensures end { result < length text.now → is_declared_byte (slice_index text.now result) ≡ false }
{
    for (place, byte) in text.iter().enumerate() {
        if matches!(*byte, b'&' | b'?') {
            return place;
        }
    }
    text.len()
}

/// Whether a text begins with what ends a declaration.
fn ends(text: &[u8]) -> bool
    ensures { result ≡ begins_with (codes "?>") text.now }
{
    matches!(text, [b'?', b'>', ..])
}

/// Whether all of a text is ASCII.
fn is_ascii(text: &[u8]) -> bool
    ensures { result ≡ words.is_ascii text.now }
{
    let mut is = true;
    for byte in text {
        is &= *byte < 128;
    }
    is
}

/// Whether what stands between `<?` and `?>` is that of a declaration, perhaps of a text that is all ASCII.
fn is_xml_tag(
    alloc: Global,
    arena: &Bump,
    inside: &[u8],
    ascii: bool,
) -> Result<bool, DocumentError>
    requires { length inside.now ≤ max_bytes }
    ensures is { IfOk result (λ is. MatchBool is (IsXmlTag ascii inside.now) (IsXmlTag ascii inside.now → ⊥)) }
    ensures memory { IfErr result (λ e. e ≡ document.Memory) }
{
    let mut text = Vec::new(alloc);
    text.push(b'<')?;
    text.extend_from_slice(inside)?;
    text.extend_from_slice(b"/>")?;
    match read_tag(alloc, arena, &text) {
        Ok((tag, length)) => {
            if length == text.len() {
                Ok(is_declared(&tag, ascii))
            } else {
                Ok(false)
            }
        }
        Err(ReadError::Stop(_)) => Ok(false),
        Err(ReadError::Memory) => Err(DocumentError::Memory),
    }
}

/// Whether a tag has the attributes of a declaration: version 1.0, perhaps an encoding, perhaps that it stands alone.
fn is_declared(read: &Tag<'_>, ascii: bool) -> bool
    ensures { result ≡ words.is_xml_tag ascii (tag read.now) }
{
    matches!(read.kind, TagKind::Empty)
        && read.name == b"xml".as_slice()
        && are_declared(read.attributes, ascii)
}

fn are_declared(attributes: &[Attribute<'_>], ascii: bool) -> bool
    ensures { result ≡ words.are_declared ascii attributes.now }
{
    match attributes {
        [version] => is_version(version),
        [version, other] => is_version(version)
            && (is_encoding(other, ascii) || is_standalone(other)),
        [version, encoding, standalone] => {
            is_version(version) && is_encoding(encoding, ascii) && is_standalone(standalone)
        }
        _ => false,
    }
}

fn is_version(attribute: &Attribute<'_>) -> bool
    ensures { result ≡ words.is_version attribute.now }
{
    attribute.is(b"version", b"1.0")
}

fn is_encoding(attribute: &Attribute<'_>, ascii: bool) -> bool
    ensures { result ≡ words.is_encoding ascii attribute.now }
{
    let value = attribute.value();
    attribute.name() == b"encoding".as_slice()
        && (value.eq_ignore_ascii_case(b"utf-8")
            || ascii && value.eq_ignore_ascii_case(b"us-ascii"))
}

fn is_standalone(attribute: &Attribute<'_>) -> bool
    ensures { result ≡ words.is_standalone attribute.now }
{
    attribute.is(b"standalone", b"yes") || attribute.is(b"standalone", b"no")
}
