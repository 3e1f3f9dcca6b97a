//! What two sets make together, code point by code point.
ghost use Rattle.std.specs.Prelude.{◌≡◌};
ghost use Rattle.lgr_text.specs.CodePoints as sets;

/// What is made of two sets (RFC 7940, section 6.2.5).
#[derive(Clone, Copy, PartialEq, Eq)]
pub enum SetOperation {
    /// What is in one of them, or in both.
    Union,
    /// What is in both.
    Intersection,
    /// What is in the first, and not in the second.
    Difference,
    /// What is in one of them alone.
    SymmetricDifference,
}

impl SetOperation {
    ghost use Rattle.lgr_text.specs.CodePoints.{is_joined};

    /// Whether a code point is in what the operation makes, by whether it is in each of the two sets.
    pub(crate) fn is_joined(self, left: bool, right: bool) -> bool
        ensures { result ≡ is_joined self left right }
    {
        match self {
            SetOperation::Union => left || right,
            SetOperation::Intersection => left && right,
            SetOperation::Difference => left && !right,
            SetOperation::SymmetricDifference => left != right,
        }
    }
}
