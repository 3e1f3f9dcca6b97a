//! What a document says (RFC 7940, section 4.2).
ghost use Rattle.std.specs.Prelude.{◌≡◌, IfOk, List, false, map, option_and_then, option_map};
ghost use Rattle.lgr_text.specs.Documents as documents;
ghost use Rattle.lgr_text.specs.Documents.{IsSaidBy};
ghost use Rattle.lgr_text.specs.Elements as contents;
ghost use Rattle.lgr_text.specs.Elements.{Content};
ghost use Rattle.lgr_text.specs.Records as records;
ghost use Rattle.lgr_text.specs.Sizes.{exceeds};
ghost use Rattle.lgr_text.specs.WellFormed.{IsWellFormedRuleset};
ghost use Rattle.lgr_text.specs.inner.Reading.{AreOf, Reads, after_blanks};
ghost use Rattle.lgr_text.specs.inner.Roots.{root_attributes, root_of};

use crate::element::{Element, Elements, opened};
use crate::fault::ReadError;
use crate::names::is_name;
use crate::records::Ruleset;
use crate::sections::read_sections;
use std::alloc::{AllocError, Global};
use xml_text::{Attribute, Token};

/// The namespace of all elements.
const NAMESPACE: &[u8] = b"urn:ietf:params:xml:ns:lgr-1.0";

/// The ruleset that the tokens of a document say.
pub fn read_ruleset(alloc: Global, tokens: &[Token<'_>]) -> Result<Ruleset, ReadError>
    ensures says { IsSaidBy tokens.now result }
    ensures limit { IfOk result (λ _. exceeds 0 0 (map (λ t. t.said) tokens.now) ≡ false) }
    ensures well_formed { IfOk result (λ r. IsWellFormedRuleset (records.file r)) }
{
    let prefix = prefix_in(alloc, tokens)?;
    let elements = Elements {
        prefix: &prefix,
        tokens,
    };
    elements.check_nesting()?;
    elements.check_sizes()?;
    read_root(alloc, elements)
}

/// What the root element says, if nothing follows it.
fn read_root(alloc: Global, elements: Elements<'_>) -> Result<Ruleset, ReadError>
    ensures { (c : Content) → AreOf elements.entry c → Reads records.file (root_of (after_blanks c)) result }
{
    let mut elements = elements;
    match elements.next()? {
        Some(root) => read_alone(alloc, &root, elements),
        None => Err(ReadError::Wrong(1)),
    }
}

/// What an element says, if it is `lgr`, and nothing follows it.
fn read_alone(alloc: Global, root: &Element<'_>, rest: Elements<'_>) -> Result<Ruleset, ReadError>
    ensures { (within more : Content) → AreOf root.now.within within → AreOf rest.entry more →
        Reads records.file (root_of (contents.Element root.now.name.now root.now.attributes.now within more)) result }
{
    if !rest.tokens.is_empty() {
        return Err(root.wrong());
    }
    if !root.is_named(b"lgr") {
        return Err(root.wrong());
    }
    read_sections(alloc, root)
}

/// What stands before the names of elements: the first tag declares their namespace.
fn prefix_in(alloc: Global, tokens: &[Token<'_>]) -> Result<Vec<u8>, ReadError>
    ensures { Reads (λ v. v.items) (option_and_then documents.prefix_of (root_attributes tokens.now)) result }
{
    let Some(first) = tokens.first() else {
        return Err(ReadError::Wrong(1));
    };
    let wrong = ReadError::Wrong(first.line());
    match opened(first.said()) {
        Some((_, attributes)) => prefix_of(alloc, attributes)?.ok_or(wrong),
        None => Err(wrong),
    }
}

/// What the attributes of the root declare.
fn prefix_of(alloc: Global, attributes: &[Attribute<'_>]) -> Result<Option<Vec<u8>>, AllocError>
    ensures { IfOk result (λ found. option_map (λ v. v.items) found ≡ documents.prefix_of attributes.now) }
{
    match attributes {
        [attribute] => declared_in(alloc, attribute),
        _ => Ok(None),
    }
}

/// What an attribute declares.
fn declared_in(alloc: Global, attribute: &Attribute<'_>) -> Result<Option<Vec<u8>>, AllocError>
    ensures { IfOk result (λ found. option_map (λ v. v.items) found ≡ documents.declared_in attribute.now) }
{
    if attribute.value() == NAMESPACE {
        declared_by(alloc, attribute.name())
    } else {
        Ok(None)
    }
}

/// What stands before the names of elements, where an attribute of this name declares their namespace.
fn declared_by(alloc: Global, name: &[u8]) -> Result<Option<Vec<u8>>, AllocError>
    ensures { IfOk result (λ found. option_map (λ v. v.items) found ≡ documents.declared_by name.now) }
{
    if name == b"xmlns".as_slice() {
        return Ok(Some(Vec::new(alloc)));
    }
    match name.strip_prefix(b"xmlns:") {
        Some(prefix) if is_prefix(prefix) => {
            let mut before_names = Vec::from_slice(alloc, prefix)?;
            before_names.push(b':')?;
            Ok(Some(before_names))
        }
        _ => Ok(None),
    }
}

/// Whether a name may stand for a namespace.
fn is_prefix(name: &[u8]) -> bool
    ensures { result ≡ documents.is_prefix name.now }
{
    is_name(name) && name != b"xml".as_slice() && name != b"xmlns".as_slice()
}
