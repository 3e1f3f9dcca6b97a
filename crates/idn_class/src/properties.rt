//! Whose properties of code points the tests of labels ask for.

/// Whose Bidi classes, joining types and viramas a test asks for, and which code points are left out.
#[derive(Clone, Copy, PartialEq, Eq)]
pub enum Properties {
    /// The lists of this project (docs/PROFILE.md).
    Profile,
    /// Unicode's own data, whole, as RFC 5892 and RFC 5893 have them.
    Unicode,
}
