//! Why a run ends early.

ghost use Rattle.idn2_output.specs.declared.stop.Stop.TheVariants as stop;
ghost use Rattle.std.specs.Prelude.{◌≡◌};

use idn_text::{ReadFault, Refusal};
use std::alloc::{AllocError, AllocFailed};

/// Why a run ends early.
#[derive(Clone, Copy, PartialEq, Eq)]
pub enum Stop {
    /// The reader failed, or a bound on reading was met.
    Reading,
    /// The output failed.
    Output,
    /// The messages failed.
    Messages,
    /// Memory was refused.
    Memory,
}

impl From<AllocError> for Stop {
    ghost from_gives = { λ _ why. why ≡ stop.Memory };

    fn from(_: AllocError) -> Self {
        Stop::Memory
    }
}

impl<T: Drop> From<AllocFailed<T>> for Stop {
    ghost from_gives = { λ _ why. why ≡ stop.Memory };

    fn from(_: AllocFailed<T>) -> Self {
        Stop::Memory
    }
}

impl From<ReadFault> for Stop {
    ghost from_gives = { λ _ why. why ≡ stop.Reading };

    fn from(_: ReadFault) -> Self {
        Stop::Reading
    }
}

impl Stop {
    ghost use Rattle.idn2_output.specs.Writing.{refusal_of};

    /// What is reported where a run stops so.
    pub fn refusal(self) -> Refusal
        ensures { result ≡ refusal_of self }
    {
        match self {
            Stop::Reading => Refusal::ReadFault,
            Stop::Output | Stop::Messages => Refusal::WriteFault,
            Stop::Memory => Refusal::Memory,
        }
    }
}
