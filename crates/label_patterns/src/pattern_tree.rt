//! Patterns as they are held in memory.

/// A pattern, or a part of one. Items and branches nest to the right.
#[derive(Drop)]
pub enum PatternTree {
    /// This code point.
    Point(u32),
    /// A code point of the set of this number.
    Set(usize),
    /// `.`
    Any,
    /// `^`
    Start,
    /// `$`
    End,
    /// `_`, the anchor of a rule (RFC 7940, section 6.4.1)
    Anchor,
    Group(Box<PatternTree>),
    /// `?`
    Optional(Box<PatternTree>),
    /// `*`
    Many(Box<PatternTree>),
    Then(Box<PatternTree>, Box<PatternTree>),
    Either(Box<PatternTree>, Box<PatternTree>),
}
