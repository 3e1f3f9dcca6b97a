//! What is found out about a label.

/// What a judge says of a label.
#[derive(Clone, Copy)]
pub enum Verdict {
    /// The shortest dead prefix of the label has so many code points, one or more.
    DeadPrefix(usize),
    /// No prefix is dead, and the label is accepted.
    Accepted,
    /// No prefix is dead, but the label is not accepted.
    NotAccepted,
}
