//! What a test says of a label.

use variant_dispositions::Disposition;

/// Whether a label may be asked about.
#[derive(Clone, Copy, PartialEq, Eq)]
pub enum Admission {
    /// The label can't be cut into sources of the table, whatever their conditions.
    NotCut,
    /// The label can be cut into sources, but isn't eligible, breaks a demand, is unclear or invalid.
    NotAdmitted,
    /// The label may be asked about, and has this disposition, which isn't invalid.
    Admitted(Disposition),
}

/// Whether a label is valid.
#[derive(Clone, Copy, PartialEq, Eq)]
pub enum Validity {
    /// The first code points, as many as told, are the shortest dead prefix. No valid label begins with them.
    DeadPrefix(usize),
    /// The label is valid.
    Valid,
    /// The label isn't valid, but has no dead prefix.
    NotValid,
}
