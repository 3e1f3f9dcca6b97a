//! Dispositions of labels.

/// What becomes of a label (RFC 7940, section 7.3).
#[derive(Clone, Copy, PartialEq, Eq)]
pub enum Disposition {
    /// No valid label.
    Invalid,
    /// A valid label that nobody is given.
    Blocked,
    /// Kept for the holder of the label of which it is a variant.
    Allocatable,
    /// Given to the holder of that label.
    Activated,
    /// A valid label, as most that are asked about are.
    Valid,
}

impl Disposition {
    ghost use Rattle.std.specs.Prelude.{◌≡◌};
    ghost use Rattle.variant_dispositions.specs.Actions.{is_allocatable};

    /// Whether the holder may have the label.
    pub fn is_allocatable(self) -> bool
        ensures { result ≡ is_allocatable self }
    {
        !matches!(self, Disposition::Invalid | Disposition::Blocked)
    }
}
