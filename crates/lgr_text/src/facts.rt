//! What a file says of itself (RFC 7940, section 4).
ghost use Rattle.std.specs.Prelude.{◌≡◌, codes};
ghost use Rattle.lgr_text.specs.Elements.{Content, every_element};
ghost use Rattle.lgr_text.specs.Facts as facts;
ghost use Rattle.lgr_text.specs.inner.Reading.{AreOf, Checks, node};

use crate::attributes::is_word_of;
use crate::element::{Element, Elements};
use crate::fault::ReadError;

/// The elements that have nothing but a text.
const PLAIN_FACTS: &[u8] = b"version date language validity-start validity-end unicode-version";

/// That each element says something of the file.
pub fn check_facts(elements: Elements<'_>) -> Result<(), ReadError>
    ensures { (c : Content) → AreOf elements.entry c → Checks (every_element facts.is_fact c) result }
{
    let mut elements = elements;
    while let Some(element) = elements.next()? {
        element.check_fact()?;
    }
    Ok(())
}

fn check_references(elements: Elements<'_>) -> Result<(), ReadError>
    ensures { (c : Content) → AreOf elements.entry c → Checks (every_element facts.is_reference c) result }
{
    let mut elements = elements;
    while let Some(element) = elements.next()? {
        element.check_reference()?;
    }
    Ok(())
}

impl<'a> Element<'a> {
    /// That it says something of the file.
    fn check_fact(&self) -> Result<(), ReadError>
        ensures { (c : Content) → AreOf self.now.within c → Checks (facts.is_fact (node self.now c)) result }
    {
        if is_word_of(PLAIN_FACTS, self.name) {
            self.check_note(b"comment")
        } else if self.is_named(b"scope") {
            self.needed(b"type")?;
            self.check_note(b"type comment")
        } else if self.is_named(b"description") {
            self.check_note(b"type comment")
        } else if self.is_named(b"references") {
            self.check(b"comment")?;
            check_references(self.within)
        } else {
            Err(self.wrong())
        }
    }

    /// That it is a document that others refer to.
    fn check_reference(&self) -> Result<(), ReadError>
        ensures { (c : Content) → AreOf self.now.within c → Checks (facts.is_reference (node self.now c)) result }
    {
        if !self.is_named(b"reference") {
            return Err(self.wrong());
        }
        self.needed(b"id")?;
        self.check_note(b"id comment")
    }

    /// That it has these attributes and no others, and no element in it.
    fn check_note(&self, names: &[u8]) -> Result<(), ReadError>
        ensures { (c : Content) → AreOf self.now.within c → Checks (facts.is_note names.now (node self.now c)) result }
    {
        self.check(names)?;
        self.text()?;
        Ok(())
    }
}
