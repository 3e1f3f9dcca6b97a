//! Why a line is refused, and where.
ghost use Rattle.std.specs.Prelude.{◌≡◌, false, is_some, None};
ghost use Rattle.ruleset_text.specs.declared.fault.DefinitionFault.TheVariants.{Memory};
ghost use Rattle.ruleset_text.specs.declared.fault.ReadError.TheVariants.{Memory as NoMemory, Stop};
ghost use Rattle.ruleset_text.specs.LineStops.{refusal_of};

use std::alloc::{AllocError, AllocFailed};

/// The first fault of a line that is to define something; or that memory was refused.
#[derive(Clone, Copy, Debug, PartialEq, Eq)]
pub enum DefinitionFault {
    /// The line has not the form of its keyword.
    Syntax,
    /// The line goes past a limit: 62 types with those that are predefined, 256 sets, 256 rules, demands and actions
    /// together, 4,096 atoms in all patterns, 8 groups or two `*` within each other, 8,192 bytes of a canonical line,
    /// or the room for the canonical text.
    Limit,
    /// The line names a set, a type or a rule that no earlier line defines, or where an action asks for one, a context
    /// rule.
    NoSuchName,
    /// A code point is written on the line whose class is none of PVALID, CONTEXTJ and CONTEXTO.
    BadClass,
    /// The line defines a name that an earlier line defines, or that of a predefined type.
    SameName,
    /// Memory was refused.
    Memory,
}

/// Why a line that is to define something is refused, and where, if the step that meets the fault has its place in its
/// hand.
#[derive(Clone, Copy, Debug, PartialEq, Eq)]
pub struct DefinitionRefusal {
    pub fault: DefinitionFault,
    pub place: Option<FaultPlace>,
}

impl DefinitionFault {
    /// The fault at this place.
    pub(crate) fn at(self, place: Option<FaultPlace>) -> DefinitionRefusal
        ensures { result ≡ record { fault = self; place = place } }
    {
        DefinitionRefusal { fault: self, place }
    }
}

impl From<AllocError> for DefinitionFault {
    ghost from_gives = { λ _ fault. fault ≡ Memory };

    fn from(_: AllocError) -> Self {
        DefinitionFault::Memory
    }
}

impl From<AllocError> for DefinitionRefusal {
    ghost from_gives = { λ _ r. r ≡ record { fault = Memory; place = None } };

    fn from(_: AllocError) -> Self {
        DefinitionFault::Memory.at(None)
    }
}

impl From<ReadError> for DefinitionRefusal {
    ghost from_gives = { λ e r. r ≡ refusal_of e };

    fn from(error: ReadError) -> Self {
        match error {
            ReadError::Stop(place) => DefinitionFault::Syntax.at(Some(place)),
            ReadError::Memory => DefinitionFault::Memory.at(None),
        }
    }
}

/// Why a line, or what is left of one, isn't read.
#[derive(Clone, Copy, PartialEq, Eq)]
pub enum ReadError {
    /// It stops being what it is to be at this place.
    Stop(FaultPlace),
    /// Memory was refused.
    Memory,
}

impl From<FaultPlace> for ReadError {
    ghost from_gives = { λ place e. e ≡ Stop place };

    fn from(place: FaultPlace) -> Self {
        ReadError::Stop(place)
    }
}

impl From<AllocError> for ReadError {
    ghost from_gives = { λ _ e. e ≡ NoMemory };

    fn from(_: AllocError) -> Self {
        ReadError::Memory
    }
}

impl<T: Drop> From<AllocFailed<T>> for ReadError {
    ghost from_gives = { λ _ e. e ≡ NoMemory };

    fn from(_: AllocFailed<T>) -> Self {
        ReadError::Memory
    }
}

/// Where a line has faults that its form doesn't show: of each kind the first.
#[derive(Clone, Copy, PartialEq, Eq)]
pub struct LineFaults {
    /// What goes past a limit.
    pub limit: Option<FaultPlace>,
    /// A name that no earlier line defines.
    pub name: Option<FaultPlace>,
    /// A code point that no label has.
    pub class: Option<FaultPlace>,
}

impl LineFaults {
    pub fn none() -> Self
        ensures { result ≡ record { limit = None; name = None; class = None } }
    {
        LineFaults {
            limit: None,
            name: None,
            class: None,
        }
    }

    /// Of which kinds there are some.
    pub fn found(self) -> FoundFaults
        ensures { result ≡ record { limit = is_some self.limit; name = is_some self.name; class = is_some self.class } }
    {
        FoundFaults {
            limit: self.limit.is_some(),
            name: self.name.is_some(),
            class: self.class.is_some(),
        }
    }
}

/// Which kinds of faults a definition has that its form doesn't show.
#[derive(Clone, Copy, PartialEq, Eq)]
pub struct FoundFaults {
    /// Its pattern goes past a limit.
    pub limit: bool,
    /// It names what isn't defined.
    pub name: bool,
    /// It writes a code point that no label has.
    pub class: bool,
}

impl FoundFaults {
    pub fn none() -> Self
        ensures { result ≡ record { limit = false; name = false; class = false } }
    {
        FoundFaults {
            limit: false,
            name: false,
            class: false,
        }
    }
}

/// Where a line has its fault. A place is a byte of the line, counted from 0: the first one of what is named.
#[derive(Clone, Copy, Debug, PartialEq, Eq)]
pub enum FaultPlace {
    /// A lexeme that can't stand there, and how many bytes it has.
    Lexeme(usize, usize),
    /// The end of the line, at which something is missing.
    End(usize),
    /// A code point that no table may hold.
    Point(usize, u32),
    /// The first code point of a range that no table may hold, and the place of the range.
    InRange(usize, u32),
    /// A variant that is given again.
    Variant(usize),
    /// A source that an earlier entry has.
    Source(usize),
    /// The first byte past the limit of a line.
    Byte(usize),
    /// The ninth code point of a sequence.
    NinthPoint(usize, u32),
    /// The seventeenth variant, and its first code point.
    SeventeenthVariant(usize, u32),
}
