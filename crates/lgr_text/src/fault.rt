//! Why no ruleset is read.
ghost use Rattle.std.specs.Prelude.{◌≡◌};
ghost use Rattle.lgr_text.specs.declared.fault.ReadError.TheVariants.{Memory};

use std::alloc::{AllocError, AllocFailed};

/// Why no ruleset is read.
#[derive(Clone, Copy, PartialEq, Eq)]
pub enum ReadError {
    /// The element or the text on this line, counted from 1, isn't one of RFC 7940.
    Wrong(usize),
    /// The element on this line, counted from 1, is one too many in its entry, its class, its rule or its action.
    Limit(usize),
    /// Memory was refused.
    Memory,
}

impl From<AllocError> for ReadError {
    ghost from_gives = { λ _ e. e ≡ Memory };

    fn from(_: AllocError) -> Self {
        ReadError::Memory
    }
}

impl<T: Drop> From<AllocFailed<T>> for ReadError {
    ghost from_gives = { λ _ e. e ≡ Memory };

    fn from(_: AllocFailed<T>) -> Self {
        ReadError::Memory
    }
}
