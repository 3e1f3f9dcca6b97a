//! What a tag says.
ghost use Rattle.std.specs.Prelude.{◌≡◌};
ghost use Rattle.xml_text.specs.Attributes.{is as is_attribute, is_named};

use std::marker::Model;

/// An attribute: its name, and the UTF-8 of its value, in which each reference is replaced and each blank is a space.
#[derive(Drop)]
pub struct Attribute<'a> {
    name: &'a [u8],
    value: &'a [u8],
}

impl<'a> Model for Attribute<'a> {
    ghost use Rattle.xml_text.specs.Attributes.{Attribute as Said};

    ghost Value = { Said };

    ghost view = { λ a. record { name = a.name.now; value = a.value.now } };
}

impl<'a> Attribute<'a> {
    pub fn new(name: &'a [u8], value: &'a [u8]) -> Self
        ensures { result ≡ record { name = name.now; value = value.now } }
    {
        Attribute { name, value }
    }

    #[inline]
    pub fn name(&self) -> &'a [u8]
        ensures { result.now ≡ self.now.name }
    {
        self.name
    }

    #[inline]
    pub fn value(&self) -> &'a [u8]
        ensures { result.now ≡ self.now.value }
    {
        self.value
    }

    /// Whether it has this name and this value.
    pub fn is(&self, name: &[u8], value: &[u8]) -> bool
        ensures { result ≡ is_attribute self.now name.now value.now }
    {
        let is_named = self.name() == name;
        is_named && self.value() == value
    }
}

/// Whether one of the attributes has the name.
pub fn is_one_named(attributes: &[Attribute<'_>], name: &[u8]) -> bool
    ensures { result ≡ is_named attributes.now name.now }
{
    attributes.iter().any(|attribute| attribute.name() == name)
}

/// Whether the content of an element follows its tag.
#[derive(Clone, Copy, PartialEq, Eq)]
pub enum TagKind {
    /// `<name>`
    Start,
    /// `<name/>`
    Empty,
}

/// A start tag, or the tag of an empty element.
#[derive(Drop)]
pub struct Tag<'a> {
    pub name: &'a [u8],
    pub attributes: &'a [Attribute<'a>],
    pub kind: TagKind,
}
