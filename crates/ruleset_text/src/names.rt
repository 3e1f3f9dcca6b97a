//! Names of variant types, sets and rules.
ghost use Rattle.std.specs.Prelude.{◌≡◌, ◌≤◌, ◌++◌, [], bytes_eq, length, slice_index_or, IfOk};
ghost use Rattle.std.specs.List.{list_all};
ghost use Rattle.ruleset_text.specs.Names as words;
ghost use Rattle.ruleset_text.specs.inner.PredefinedTypes.{predefined_by};
ghost use Rattle.ruleset_text.specs.Names.{is_name as is_a_name};

use std::alloc::{AllocError, Global};
use std::marker::Model;

/// How many types are predefined (RFC 7940, section 7.3).
pub const PREDEFINED_TYPES: usize = 5;

/// A name, in ASCII.
#[derive(Drop)]
pub struct Name {
    bytes: Vec<u8>,
}

impl Model for Name {
    ghost use Rattle.std.specs.Prelude.{List, ℕ};

    ghost Value = { List ℕ };

    ghost view = { λ n. n.bytes.items };
}

impl Name {
    /// These bytes as a name of their own.
    pub fn copied(alloc: Global, bytes: &[u8]) -> Result<Self, AllocError>
        ensures { IfOk result (λ name. name ≡ bytes.now) }
    {
        Ok(Name {
            bytes: Vec::from_slice(alloc, bytes)?,
        })
    }

    pub fn as_slice(&self) -> &[u8]
        ensures { result.now ≡ self.now }
    {
        &self.bytes
    }
}

/// Whether bytes are a name: a letter, then letters, digits and `_`, 32 at most.
pub fn is_name(bytes: &[u8]) -> bool
    ensures { result ≡ is_a_name bytes.now }
{
    let [first, others @ ..] = bytes else {
        return false;
    };
    is_letter(*first) && others.len() <= 31 && are_name_bytes(others)
}

fn are_name_bytes(bytes: &[u8]) -> bool
    ensures { result ≡ list_all words.is_name_byte bytes.now }
{
    bytes.iter().all(|byte| is_name_byte(*byte))
}

/// Whether a word is this one. Several words are told apart by this, since a `match` would make a fact of each byte.
pub(crate) fn is_word(word: &[u8], wanted: &[u8]) -> bool
    ensures { result ≡ bytes_eq word.now wanted.now }
{
    word == wanted
}

/// The number of the first name that these bytes are, or how many names there are.
pub fn number_of(names: &[Name], bytes: &[u8]) -> usize
    ensures is { result ≡ words.number_of names.now bytes.now }
    ensures within { result ≤ length names.now }
{
    for number in 0..names.len() {
        if names[number].as_slice() == bytes {
            return number;
        }
    }
    names.len()
}

/// Whether the bytes are one of the names.
pub fn is_one_of(names: &[Name], bytes: &[u8]) -> bool
    ensures { result ≡ words.is_one_of names.now bytes.now }
{
    names.iter().any(|name| name.as_slice() == bytes)
}

/// The name of the predefined type of this number (RFC 7940, section 7.3): there are five.
pub fn predefined_type(number: usize) -> &'static [u8]
    ensures { result.now ≡ slice_index_or words.predefined_types number [] }
{
    match number {
        0 => b"invalid",
        1 => b"blocked",
        2 => b"allocatable",
        3 => b"activated",
        4 => b"valid",
        _ => b"",
    }
}

/// The number of the predefined type of this name, or 5.
pub(crate) fn predefined_number(name: &[u8]) -> usize
    ensures { result ≡ predefined_by name.now }
{
    if is_word(name, b"invalid") {
        return 0;
    }
    if is_word(name, b"blocked") {
        return 1;
    }
    if is_word(name, b"allocatable") {
        return 2;
    }
    if is_word(name, b"activated") {
        return 3;
    }
    if is_word(name, b"valid") {
        return 4;
    }
    PREDEFINED_TYPES
}

/// Whether the name is that of a predefined type or of one of these.
pub fn is_type(types: &[Name], name: &[u8]) -> bool
    ensures { result ≡ words.is_one_of (words.predefined_types ++ types.now) name.now }
{
    predefined_number(name) < PREDEFINED_TYPES || is_one_of(types, name)
}

fn is_letter(byte: u8) -> bool
    ensures { result ≡ words.is_letter byte }
{
    65 <= byte && byte <= 90 || 97 <= byte && byte <= 122
}

fn is_name_byte(byte: u8) -> bool
    ensures { result ≡ words.is_name_byte byte }
{
    is_letter(byte) || 48 <= byte && byte <= 57 || byte == 95
}
