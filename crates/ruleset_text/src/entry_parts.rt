//! The parts that entries and ranges of a version have.

/// The parts that entries and ranges may have besides their code points.
#[derive(Clone, Copy, PartialEq, Eq)]
pub struct EntryParts {
    /// `!` before the source, which gives it the type invalid.
    pub invalid: bool,
    /// `!` before a variant, which gives it the type blocked.
    pub blocked: bool,
    /// Ranges.
    pub ranges: bool,
    /// Types and conditions.
    pub named: bool,
}
