//! Why the definitions of a ruleset have no order.
ghost use Rattle.std.specs.Prelude.{◌≡◌};
ghost use Rattle.lgr_text.specs.declared.order_error.OrderError.TheVariants.{Memory};

use std::alloc::{AllocError, AllocFailed};

/// Why definitions have no order. Lines are counted from 1.
#[derive(Clone, Copy, PartialEq, Eq)]
pub enum OrderError {
    /// There are too many definitions before the one on this line.
    Limit(usize),
    /// The definition on this line has the name of an earlier one.
    Repeated(usize),
    /// The element on this line names a class or a rule that isn't defined.
    Undefined(usize),
    /// The definition on this line is part of itself, or it names such a one, or one that does.
    Circular(usize),
    /// Memory was refused.
    Memory,
}

impl From<AllocError> for OrderError {
    ghost from_gives = { λ _ e. e ≡ Memory };

    fn from(_: AllocError) -> Self {
        OrderError::Memory
    }
}

impl<T: Drop> From<AllocFailed<T>> for OrderError {
    ghost from_gives = { λ _ e. e ≡ Memory };

    fn from(_: AllocFailed<T>) -> Self {
        OrderError::Memory
    }
}
