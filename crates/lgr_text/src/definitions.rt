//! Rules and classes with their names (RFC 7940, sections 6.2.1 and 6.3.1).
ghost use Rattle.std.specs.Prelude.{◌≡◌, codes};
ghost use Rattle.lgr_text.specs.Definitions as definitions;
ghost use Rattle.lgr_text.specs.Elements.{Content};
ghost use Rattle.lgr_text.specs.Records as records;
ghost use Rattle.lgr_text.specs.inner.Reading.{AreOf, Reads, node};

use crate::classes::{ClassPlace, read_class};
use crate::element::Element;
use crate::fault::ReadError;
use crate::names::NameKind;
use crate::parts::read_rule;
use crate::records::{Definition, Meaning};
use std::alloc::Global;

/// How many levels of elements a document may have.
const MAX_LEVELS: usize = 64;

/// The rule or the class with a name that an element directly below `rules` says.
pub fn read_definition(alloc: Global, element: &Element<'_>) -> Result<Definition, ReadError>
    ensures { (c : Content) → AreOf element.now.within c →
        Reads records.definition (definitions.definition_of (node element.now c)) result }
{
    let text = element.needed(b"name")?;
    let name = element.name_in(alloc, NameKind::Identifier, text)?;
    let meaning = read_meaning(alloc, element)?;
    Ok(Definition {
        name,
        meaning,
        line: element.line,
    })
}

/// What the name stands for.
fn read_meaning(alloc: Global, element: &Element<'_>) -> Result<Meaning, ReadError>
    ensures { (c : Content) → AreOf element.now.within c →
        Reads records.meaning (definitions.meaning_of (node element.now c)) result }
{
    if element.is_named(b"rule") {
        let rule = read_rule(alloc, element, MAX_LEVELS)?;
        Ok(Meaning::Rule(rule))
    } else {
        let class = read_class(alloc, element, MAX_LEVELS, ClassPlace::OfRules)?;
        Ok(Meaning::Class(class))
    }
}
