//! Why a class or a rule isn't made.
ghost use Rattle.std.specs.Prelude.{◌≡◌};
ghost use Rattle.lgr_text.specs.declared.rule_error.RuleError.TheVariants.{Memory};

use std::alloc::{AllocError, AllocFailed};

/// What is wrong with a class, a rule or an action.
#[derive(Clone, Copy, PartialEq, Eq)]
pub enum RuleFault {
    /// It names a class, a rule, a tag or a type that isn't defined.
    Undefined,
    /// The start of a label isn't the first that it matches, or the end isn't the last, or one of them is counted
    /// (RFC 7940, section 6.3.8).
    Misplaced,
    /// It has a property or a disposition that isn't known, or an anchor where no pattern has one.
    NotSupported,
    /// It takes more atoms than a pattern may have.
    Limit,
}

/// Why a class, a rule or an action isn't made.
#[derive(Clone, Copy, PartialEq, Eq)]
pub enum RuleError {
    Fault(RuleFault),
    /// Memory was refused.
    Memory,
}

impl From<AllocError> for RuleError {
    ghost from_gives = { λ _ e. e ≡ Memory };

    fn from(_: AllocError) -> Self {
        RuleError::Memory
    }
}

impl<T: Drop> From<AllocFailed<T>> for RuleError {
    ghost from_gives = { λ _ e. e ≡ Memory };

    fn from(_: AllocFailed<T>) -> Self {
        RuleError::Memory
    }
}
