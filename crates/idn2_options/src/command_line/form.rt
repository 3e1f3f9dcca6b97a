//! How answers are written.

/// How a run writes its answers.
#[derive(Clone, Copy, PartialEq, Eq)]
pub enum Form {
    /// Answers are lines of the output, and refusals of lines and tables are messages.
    Plain,
    /// Answers and refusals are objects of JSON, one on each line of the output.
    Json,
}
