//! Why a text is no table.
ghost use Rattle.std.specs.Prelude.{◌≡◌, None};
ghost use Rattle.variant_table.specs.declared.fault.EntryFault.TheVariants.{Memory as NoMemory};
ghost use Rattle.variant_table.specs.declared.fault.TableFault.TheVariants.{Memory};

use ruleset_text::FaultPlace;
use std::alloc::{AllocError, AllocFailed};
use thiserror::Error;

/// Why a text is not read as a table: the number of its first faulty line, from 1, with what is wrong
/// there; or that memory was refused.
#[derive(Clone, Copy, Debug, PartialEq, Eq, Error)]
pub enum TableFault {
    /// A line that is not blank, and spells no comment, no entry, no range and no definition of the version; or the
    /// first line of a text that lacks its version.
    #[error("table syntax")]
    Syntax { line: u64 },
    /// A source that an earlier entry has.
    #[error("source given twice")]
    SameSource { line: u64 },
    /// Two equal variants, unless each has a condition and the two conditions differ; or a variant equal to its source.
    #[error("variant given twice")]
    SameVariant { line: u64 },
    /// A type, a set or a rule is named that no earlier line defines.
    #[error("name not defined")]
    NoSuchName { line: u64 },
    /// A type, a set or a rule with the name of an earlier one.
    #[error("name given twice")]
    SameName { line: u64 },
    /// A code point whose class is none of PVALID, CONTEXTJ and CONTEXTO.
    #[error("code point not allowed in a table")]
    BadClass { line: u64 },
    /// A line of more than 1,024 bytes, a text or a canonical text of more than 1,048,576, more than 4,096
    /// entries, in version 3 8,192, 8,388,608 and 65,536; a sequence of more than 8 code points, or more than
    /// 16 variants; or a definition that goes past a limit of its own.
    #[error("table limit")]
    Limit { line: u64 },
    /// Memory was refused.
    #[error("out of memory")]
    Memory,
}

/// Why an entry that isn't read from a line isn't added.
#[derive(Clone, Copy, PartialEq, Eq)]
pub enum EntryFault {
    /// No line spells it: it has no source, a sequence has no code point, or one that is no scalar value, or a name is
    /// none.
    Syntax,
    /// It is one entry too many, it has more than 16 variants, a sequence has more than 8 code points, or the canonical
    /// text is too long with it.
    Limit,
    /// A type or a rule is named that isn't defined.
    NoSuchName,
    /// A code point whose class is none of PVALID, CONTEXTJ and CONTEXTO.
    BadClass,
    /// The variant of this number, from 1, is equal to one before it, unless each has a condition and the two
    /// conditions differ; or to its source.
    SameVariant(usize),
    /// A source that an earlier entry has.
    SameSource,
    /// Memory was refused.
    Memory,
}

impl From<AllocError> for EntryFault {
    ghost from_gives = { λ _ fault. fault ≡ NoMemory };

    fn from(_: AllocError) -> Self {
        EntryFault::Memory
    }
}

/// Why a line is refused, and where, if a place is told.
#[derive(Clone, Copy, PartialEq, Eq)]
pub struct LineRefusal {
    pub fault: TableFault,
    pub place: Option<FaultPlace>,
}

impl From<AllocError> for LineRefusal {
    ghost from_gives = { λ _ e. e ≡ record { fault = Memory; place = None } };

    fn from(_: AllocError) -> Self {
        TableFault::Memory.at(None)
    }
}

impl<T: Drop> From<AllocFailed<T>> for LineRefusal {
    ghost from_gives = { λ _ e. e ≡ record { fault = Memory; place = None } };

    fn from(_: AllocFailed<T>) -> Self {
        TableFault::Memory.at(None)
    }
}

impl TableFault {
    /// The fault at this place.
    pub(crate) fn at(self, place: Option<FaultPlace>) -> LineRefusal
        ensures { result ≡ record { fault = self; place = place } }
    {
        LineRefusal { fault: self, place }
    }
}

/// Why a text is not read as a table, and where.
#[derive(Clone, Copy, PartialEq, Eq)]
pub struct TableRefusal<'a> {
    pub fault: TableFault,
    /// Where the line has the fault, if a place is told: none past a limit of the whole text, as of its entries or its
    /// canonical text.
    pub place: Option<FaultPlace>,
    /// The line as it stands in the text. None in a text that lacks its version.
    pub line: Option<&'a [u8]>,
}
