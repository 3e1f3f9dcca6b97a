//! Spans of code points.

/// The code points from the first to the last, both of them too.
#[derive(Clone, Copy, PartialEq, Eq)]
pub struct Span {
    pub first: u32,
    pub last: u32,
}
