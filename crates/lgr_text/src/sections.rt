//! The sections of a file, and in which order they stand (RFC 7940, section 4.2).
ghost use Rattle.std.specs.Prelude.{◌≡◌, map, option_and_then};
ghost use Rattle.lgr_text.specs.Elements.{Content, each_element};
ghost use Rattle.lgr_text.specs.Entries.{entry_of};
ghost use Rattle.lgr_text.specs.Records as records;
ghost use Rattle.lgr_text.specs.Sections as sections;
ghost use Rattle.lgr_text.specs.Values.{not_empty};
ghost use Rattle.lgr_text.specs.inner.Reading.{AreOf, Reads, node};
ghost use Rattle.lgr_text.specs.inner.Stages as stages;

use crate::element::{Element, Elements};
use crate::entries::read_entries;
use crate::facts::check_facts;
use crate::fault::ReadError;
use crate::records::{Entry, Ruleset};
use crate::statements::{Rules, read_rules};
use std::alloc::Global;

/// A section.
#[derive(Drop)]
pub enum Section {
    Meta,
    Data(Vec<Entry>),
    Rules(Rules),
}

/// The sections up to a place.
#[derive(Drop)]
pub enum Sections {
    Nothing,
    Meta,
    /// The entries, with nothing before them, or `meta`.
    Data(Vec<Entry>),
    All(Ruleset),
}

/// What the sections in the root element say.
pub fn read_sections(alloc: Global, root: &Element<'_>) -> Result<Ruleset, ReadError>
    ensures { (c : Content) → AreOf root.now.within c →
        Reads records.file (option_and_then sections.ruleset_by (each_element sections.section_of c)) result }
{
    let mut sections = Sections::Nothing;
    let mut elements = root.within;
    while let Some(element) = elements.next()? {
        let section = read_section(alloc, &element)?;
        sections = sections.with(section, &element)?;
    }
    sections.ruleset(alloc, root)
}

fn read_section(alloc: Global, element: &Element<'_>) -> Result<Section, ReadError>
    ensures { (c : Content) → AreOf element.now.within c →
        Reads stages.section (sections.section_of (node element.now c)) result }
{
    element.check(b"")?;
    if element.is_named(b"meta") {
        check_facts(element.within)?;
        Ok(Section::Meta)
    } else if element.is_named(b"data") {
        Ok(Section::Data(read_data(alloc, element)?))
    } else if element.is_named(b"rules") {
        Ok(Section::Rules(read_rules(alloc, element.within)?))
    } else {
        Err(element.wrong())
    }
}

/// One entry or more.
fn read_data(alloc: Global, element: &Element<'_>) -> Result<Vec<Entry>, ReadError>
    ensures { (c : Content) → AreOf element.now.within c →
        Reads (λ v. map records.entry v.items) (option_and_then not_empty (each_element entry_of c)) result }
{
    let entries = read_entries(alloc, element.within)?;
    if entries.is_empty() {
        return Err(element.wrong());
    }
    Ok(entries)
}

impl Sections {
    /// With the next section, which is this element, if it may stand there.
    fn with(self, section: Section, element: &Element<'_>) -> Result<Self, ReadError>
        ensures { Reads stages.stage (stages.with_section (stages.stage self) (stages.section section)) result }
    {
        match (self, section) {
            (Sections::Nothing, Section::Meta) => Ok(Sections::Meta),
            (Sections::Nothing | Sections::Meta, Section::Data(entries)) => {
                Ok(Sections::Data(entries))
            }
            (Sections::Data(entries), Section::Rules(rules)) => Ok(Sections::All(Ruleset {
                entries,
                definitions: rules.definitions,
                actions: rules.actions,
            })),
            _ => Err(element.wrong()),
        }
    }

    /// What they say, if no section of the root is missing.
    fn ruleset(self, alloc: Global, root: &Element<'_>) -> Result<Ruleset, ReadError>
        ensures { Reads records.file (stages.ruleset_at (stages.stage self)) result }
    {
        match self {
            Sections::Nothing | Sections::Meta => Err(root.wrong()),
            Sections::Data(entries) => Ok(Ruleset {
                entries,
                definitions: Vec::new(alloc),
                actions: Vec::new(alloc),
            }),
            Sections::All(ruleset) => Ok(ruleset),
        }
    }
}
