//! Why no tag and no document is read.
ghost use Rattle.std.specs.Prelude.{◌≡◌};
ghost use Rattle.xml_text.specs.declared.fault.DocumentError.TheVariants as document;
ghost use Rattle.xml_text.specs.declared.fault.ReadError.TheVariants.{Memory};

use std::alloc::{AllocError, AllocFailed};

/// Why no tag is read, or nothing that is written after a declaration.
#[derive(Clone, Copy, PartialEq, Eq)]
pub enum ReadError {
    /// The text stops being so at this byte, counted from 0, or at its end.
    Stop(usize),
    /// Memory was refused.
    Memory,
}

impl From<AllocError> for ReadError {
    ghost from_gives = { λ _ e. e ≡ Memory };

    fn from(_: AllocError) -> Self {
        ReadError::Memory
    }
}

impl<T: Drop> From<AllocFailed<T>> for ReadError {
    ghost from_gives = { λ _ e. e ≡ Memory };

    fn from(_: AllocFailed<T>) -> Self {
        ReadError::Memory
    }
}

/// A byte of a text, counted from 0, and its line, counted from 1.
#[derive(Clone, Copy, PartialEq, Eq)]
pub struct Place {
    /// The byte, which may be the end of the text.
    pub byte: usize,
    /// The line on which it stands.
    pub line: usize,
}

/// Why no document is read.
#[derive(Clone, Copy, PartialEq, Eq)]
pub enum DocumentError {
    /// The text has more bytes than a document may have.
    TooLong,
    /// No character of XML in UTF-8 stands there.
    NoCharacter(Place),
    /// The declaration isn't one of a document in UTF-8.
    Declaration,
    /// No document goes on with this byte, or the text ends there and is none.
    Stop(Place),
    /// Memory was refused.
    Memory,
}

impl From<AllocError> for DocumentError {
    ghost from_gives = { λ _ e. e ≡ document.Memory };

    fn from(_: AllocError) -> Self {
        DocumentError::Memory
    }
}

impl<T: Drop> From<AllocFailed<T>> for DocumentError {
    ghost from_gives = { λ _ e. e ≡ document.Memory };

    fn from(_: AllocFailed<T>) -> Self {
        DocumentError::Memory
    }
}
