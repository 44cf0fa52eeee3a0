//! What a text is parsed as.

/// What a text is parsed as.
#[derive(Clone, Copy, Debug, PartialEq, Eq)]
pub enum Form {
    /// A list of answers, each with a name or without one.
    Answers,
    /// One expression, without a name.
    Condition,
}
