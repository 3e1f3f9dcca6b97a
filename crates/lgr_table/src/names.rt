//! The names that types, sets and rules of a file get in its table.
ghost use Rattle.std.specs.Prelude.{◌≡◌, IfOk, bytes_eq};
ghost use Rattle.std.specs.List.{list_any};
ghost use Rattle.ruleset_text.specs.Definitions.{all_names};
ghost use Rattle.ruleset_text.specs.Names.{is_one_of as is_among};
ghost use Rattle.lgr_table.specs.TableNames as words;
ghost use Rattle.lgr_table.specs.TableNames.{IsCalled};
ghost use Rattle.lgr_table.specs.inner.TableNames.{keeps, names_by};

use crate::numbers::named_in;
use lgr_text::Definition;
use ruleset_text::{Definitions, Name, is_name, is_one_of};
use std::alloc::{AllocError, Global};

/// More names than a table and its file have together.
const TRIES: u32 = 2000;

/// The names of a file.
#[derive(Clone, Copy)]
pub(crate) struct FileNames<'a> {
    /// Its types. `None` is that of having none.
    pub types: &'a [Option<Name>],
    /// Its classes and rules.
    pub definitions: &'a [Definition],
}

/// What has a name in a table.
#[derive(Clone, Copy, PartialEq, Eq)]
pub(crate) enum Named {
    Type,
    Set,
    Rule,
}

impl FileNames<'_> {
    /// Whether a type has the name, a predefined one included.
    fn has_type(self, name: &[u8]) -> bool
        ensures { result ≡ words.has_type (names_by self.entry) name.now }
    {
        named_in(self.types, name).is_some()
    }

    /// Whether a type, a class or a rule has the name.
    fn has(self, name: &[u8]) -> bool
        ensures { result ≡ words.has_name (names_by self.entry) name.now }
    {
        if self.has_type(name) {
            return true;
        }
        is_defined(self.definitions, name)
    }
}

/// Whether a class or a rule has the name.
fn is_defined(definitions: &[Definition], name: &[u8]) -> bool
    ensures { result ≡ list_any (λ d. bytes_eq d.name name.now) definitions.now }
{
    definitions
        .iter()
        .any(|definition| definition.name.as_slice() == name)
}

impl Named {
    /// The name of the one of this number, if it has no other name.
    fn numbered(self, alloc: Global, number: u32) -> Result<Name, AllocError> {
        let name = match self {
            Named::Type => format!(in alloc; "type_{number}")?,
            Named::Set => format!(in alloc; "set_{number}")?,
            Named::Rule => format!(in alloc; "rule_{number}")?,
        };
        Name::copied(alloc, name.as_bytes())
    }

    /// Whether it keeps the name that it has in the file: a table may have that name, and nothing else keeps it.
    fn keeps(self, names: FileNames<'_>, name: &[u8]) -> bool
        ensures { result ≡ keeps (names_by names.entry) self name.now }
    {
        match self {
            Named::Type => is_name(name),
            Named::Set => false,
            Named::Rule => is_name(name) && !names.has_type(name),
        }
    }

    /// A name for what is defined next: the one that it has in the file, if it keeps that; or else the first of
    /// `type_1`, `type_2` and so on that neither the file nor the table has.
    pub(crate) fn given_name(
        self,
        alloc: Global,
        names: FileNames<'_>,
        definitions: &Definitions,
        name: &[u8],
    ) -> Result<Name, AllocError>
        ensures { let of = names_by names.entry in IfOk result (IsCalled of (keeps of self name.now) name.now) }
    {
        if self.keeps(names, name) {
            return Name::copied(alloc, name);
        }
        for number in 1..=TRIES {
            let numbered = self.numbered(alloc, number)?;
            if !names.has(numbered.as_slice()) && !is_taken(definitions, numbered.as_slice()) {
                return Ok(numbered);
            }
        }
        // Never: there are fewer names than tries.
        Err(AllocError)
    }
}

/// Whether a type, a set or a rule has the name.
fn is_taken(definitions: &Definitions, name: &[u8]) -> bool
    ensures { result ≡ is_among (all_names definitions.now) name.now }
{
    if definitions.has_type(name) {
        return true;
    }
    if is_one_of(definitions.set_names(), name) {
        return true;
    }
    is_one_of(definitions.rule_names(), name)
}
