//! The attributes of an element.
ghost use Rattle.std.specs.Prelude.{◌≡◌, ◌&&◌, option_copied, option_map};
ghost use Rattle.lgr_text.specs.Attributes as terms;
ghost use Rattle.lgr_text.specs.Elements.{Content, is_empty};
ghost use Rattle.lgr_text.specs.Entries as entries;
ghost use Rattle.lgr_text.specs.Records as records;
ghost use Rattle.lgr_text.specs.declared.names.NameKind.TheVariants.{Identifier};
ghost use Rattle.lgr_text.specs.Values as values;
ghost use Rattle.lgr_text.specs.inner.Reading.{AreOf, Checks, Reads};

use crate::element::Element;
use crate::fault::ReadError;
use crate::names::NameKind;
use crate::records::{Condition, Reference};
use crate::values::points_of;
use crate::words::next_word;
use label_patterns::ConditionKind;
use ruleset_text::Name;
use std::alloc::Global;
use xml_text::Attribute;

impl<'a> Element<'a> {
    /// The value of an attribute, if the element has it.
    pub fn value(&self, name: &[u8]) -> Option<&'a [u8]>
        ensures { option_copied result ≡ terms.value self.now.attributes.now name.now }
    {
        value_of(self.attributes, name)
    }

    /// The value of an attribute that the element has to have.
    pub fn needed(&self, name: &[u8]) -> Result<&'a [u8], ReadError>
        ensures { Reads (λ text. text.now) (terms.value self.now.attributes.now name.now) result }
    {
        match self.value(name) {
            Some(value) => Ok(value),
            None => Err(self.wrong()),
        }
    }

    /// That it has no attributes but those that are named by these words.
    pub fn check(&self, names: &[u8]) -> Result<(), ReadError>
        ensures { Checks (terms.are_among names.now self.now.attributes.now) result }
    {
        if are_among(names, self.attributes) {
            Ok(())
        } else {
            Err(self.wrong())
        }
    }

    /// The same, and that nothing is in it.
    pub fn check_plain(&self, names: &[u8]) -> Result<(), ReadError>
        ensures { (c : Content) → AreOf self.now.within c →
            Checks (terms.are_among names.now self.now.attributes.now && is_empty c) result }
    {
        self.check(names)?;
        let mut within = self.within;
        match within.next()? {
            None => Ok(()),
            Some(_) => Err(self.wrong()),
        }
    }

    /// The name that a value is.
    pub fn name_in(&self, alloc: Global, kind: NameKind, text: &[u8]) -> Result<Name, ReadError>
        ensures { Reads (λ n. n) (values.name_of kind text.now) result }
    {
        kind.name_of(alloc, text)?.ok_or(self.wrong())
    }

    /// The same, with the line of the element.
    pub fn reference(
        &self,
        alloc: Global,
        kind: NameKind,
        text: &[u8],
    ) -> Result<Reference, ReadError>
        ensures { Reads (λ r. r.name) (values.name_of kind text.now) result }
    {
        let name = self.name_in(alloc, kind, text)?;
        Ok(Reference {
            name,
            line: self.line,
        })
    }

    /// The condition that one of two attributes gives, if the element has one of them.
    pub fn condition(
        &self,
        alloc: Global,
        when: &[u8],
        unless: &[u8],
    ) -> Result<Option<Condition>, ReadError>
        ensures { Reads (option_map records.condition) (terms.condition_of
            (terms.value self.now.attributes.now when.now) (terms.value self.now.attributes.now unless.now))
            result }
    {
        match (self.value(when), self.value(unless)) {
            (None, None) => Ok(None),
            (Some(rule), None) => self.conditioned(alloc, ConditionKind::When, rule),
            (None, Some(rule)) => self.conditioned(alloc, ConditionKind::Unless, rule),
            (Some(_), Some(_)) => Err(self.wrong()),
        }
    }

    fn conditioned(
        &self,
        alloc: Global,
        kind: ConditionKind,
        rule: &[u8],
    ) -> Result<Option<Condition>, ReadError>
        ensures { Reads (option_map records.condition)
            (terms.conditioned kind (values.name_of Identifier rule.now)) result }
    {
        let rule = self.reference(alloc, NameKind::Identifier, rule)?;
        Ok(Some(Condition { kind, rule }))
    }

    /// Its code points; there may be none.
    pub fn points(&self, alloc: Global) -> Result<Vec<u32>, ReadError>
        ensures { Reads (λ v. v.items) (entries.points_by self.now.attributes.now) result }
    {
        let text = self.needed(b"cp")?;
        points_of(alloc, text)?.ok_or(self.wrong())
    }

    /// Its code points, one or more.
    pub fn sequence(&self, alloc: Global) -> Result<Vec<u32>, ReadError>
        ensures { Reads (λ v. v.items) (entries.sequence_by self.now.attributes.now) result }
    {
        let points = self.points(alloc)?;
        if points.is_empty() {
            return Err(self.wrong());
        }
        Ok(points)
    }
}

/// The value of the first attribute of this name.
fn value_of<'a>(attributes: &'a [Attribute<'a>], name: &[u8]) -> Option<&'a [u8]>
    ensures { option_copied result ≡ terms.value attributes.now name.now }
{
    for attribute in attributes {
        if attribute.name() == name {
            return Some(attribute.value());
        }
    }
    None
}

/// Whether each attribute is named by one of the words of a text.
fn are_among(names: &[u8], attributes: &[Attribute<'_>]) -> bool
    ensures { result ≡ terms.are_among names.now attributes.now }
{
    attributes
        .iter()
        .all(|attribute| is_word_of(names, attribute.name()))
}

/// Whether a name is one of the words of a text.
pub fn is_word_of(text: &[u8], name: &[u8]) -> bool
    ensures { result ≡ terms.is_word_of text.now name.now }
{
    let mut rest = text;
    while let Some((word, after)) = next_word(rest) {
        if word == name {
            return true;
        }
        rest = after;
    }
    false
}
