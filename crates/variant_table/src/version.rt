//! The version of a text and of the table that it spells, and what a text of each version may hold.
ghost use Rattle.std.specs.Prelude.{◌≡◌, ◌≤◌, length, IfSome, MatchOption, None, Some};
ghost use Rattle.idn_text.specs.Lines.{raw_lines};
ghost use Rattle.variant_table.specs.Canonical as texts;
ghost use Rattle.variant_table.specs.Forms.{parts_of};
ghost use Rattle.variant_table.specs.Limits as limits;
ghost use Rattle.variant_table.specs.Versions as versions;
ghost use Rattle.variant_table.specs.Versions.{version_number};

use idn_text::{TextLines, without_carriage_return};
use ruleset_text::EntryParts;

/// Version 2 adds ranges of code points and blocked variants to version 1. Version 3, that of a ruleset, adds types,
/// conditions and definitions, and has larger limits.
#[derive(Clone, Copy, PartialEq, Eq)]
pub enum Version {
    One,
    Two,
    Three,
}

/// How a text is read: as a table or as a ruleset. No text is both.
#[derive(Clone, Copy, PartialEq, Eq)]
pub enum Notation {
    /// A table of version 1, or of version 2 if its first line is `%version 2`.
    Table,
    /// A table of version 3, whose first line is `%version 3`.
    Ruleset,
}

/// The line that begins a text of version 2.
const TABLE_LINE: &[u8] = b"%version 2";

/// The line that begins a ruleset.
const RULESET_LINE: &[u8] = b"%version 3";

impl Version {
    pub fn number(self) -> u8
        ensures { result ≡ version_number self }
    {
        match self {
            Version::One => 1,
            Version::Two => 2,
            Version::Three => 3,
        }
    }

    /// The most bytes of a line, without its line feed.
    pub fn line_limit(self) -> usize
        ensures { result ≡ limits.line_limit self }
    {
        match self {
            Version::One | Version::Two => 1024,
            Version::Three => 8192,
        }
    }

    /// The most bytes of a text, also of a canonical one. A line feed that is missing at the end is counted too.
    pub fn text_limit(self) -> usize
        ensures limit { result ≡ limits.text_limit self }
        ensures few { result ≤ 8388608 }
    {
        match self {
            Version::One | Version::Two => 1_048_576,
            Version::Three => 8_388_608,
        }
    }

    /// The most entries of a table.
    pub fn entry_limit(self) -> usize
        ensures limit { result ≡ limits.entry_limit self }
        ensures few { result ≤ 65536 }
    {
        match self {
            Version::One | Version::Two => 4096,
            Version::Three => 65_536,
        }
    }

    /// The parts that entries and ranges have.
    pub fn entry_parts(self) -> EntryParts
        ensures { result ≡ parts_of self }
    {
        let (invalid, blocked, ranges, named) = match self {
            Version::One => (false, false, false, false),
            Version::Two => (false, true, true, false),
            Version::Three => (true, true, true, true),
        };
        EntryParts {
            invalid,
            blocked,
            ranges,
            named,
        }
    }

    /// What a canonical text begins with: the version line and its line feed, in version 1 nothing.
    pub fn head(self) -> &'static [u8]
        ensures text { result.now ≡ texts.head_text self }
        ensures short { length result.now ≤ 11 }
    {
        match self {
            Version::One => b"",
            Version::Two => b"%version 2\n",
            Version::Three => b"%version 3\n",
        }
    }
}

impl Notation {
    /// The line that begins a text with a version line.
    fn version_line(self) -> &'static [u8]
        ensures { result.now ≡ texts.version_line self }
    {
        match self {
            Notation::Table => TABLE_LINE,
            Notation::Ruleset => RULESET_LINE,
        }
    }

    /// The version of a text that begins with the version line.
    fn version_named(self) -> Version
        ensures { result ≡ versions.version_named self }
    {
        match self {
            Notation::Table => Version::Two,
            Notation::Ruleset => Version::Three,
        }
    }

    /// The version of a text that does not begin with the version line, if it has one.
    fn version_unnamed(self) -> Option<Version>
        ensures { result ≡ versions.version_unnamed self }
    {
        match self {
            Notation::Table => Some(Version::One),
            Notation::Ruleset => None,
        }
    }
}

/// The version of a text, and the lines after its version line.
#[derive(Drop)]
pub struct Head<'a> {
    pub version: Version,
    /// How many lines come before these, and how many bytes they have.
    pub lines: u64,
    pub bytes: usize,
    /// The lines of definitions and entries.
    pub body: TextLines<'a>,
}

/// The version of a text by its first line, and the lines after the version line, or all lines if there is
/// none; nothing if the text lacks its version.
pub fn head_of(notation: Notation, text: &[u8]) -> Option<Head<'_>>
    ensures version { MatchOption result (versions.version_of notation (raw_lines text.now) ≡ None)
        (λ head. versions.version_of notation (raw_lines text.now) ≡ Some head.version) }
    ensures lines { IfSome result (λ head. head.lines ≡ length (versions.head_of notation (raw_lines text.now))) }
    ensures bytes { IfSome result (λ head. head.bytes ≡
        versions.size_of (versions.head_of notation (raw_lines text.now))) }
    ensures body { IfSome result (λ head. head.body ≡ versions.body_of notation (raw_lines text.now)) }
{
    let mut body = TextLines::new(text);
    if let Some(line) = body.next()
        && is_version_line(notation, line)
    {
        return Some(Head {
            version: notation.version_named(),
            lines: 1,
            bytes: line.len() + 1,
            body,
        });
    }
    let version = notation.version_unnamed()?;
    Some(Head {
        version,
        lines: 0,
        bytes: 0,
        body: TextLines::new(text),
    })
}

/// Whether a line is the version line, apart from one carriage return at its end.
fn is_version_line(notation: Notation, line: &[u8]) -> bool
    ensures { result ≡ versions.is_version_line notation line.now }
{
    without_carriage_return(line) == notation.version_line()
}
