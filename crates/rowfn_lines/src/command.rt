//! The commands of a script.
ghost use Rattle.std.specs.Prelude.{◌≡◌};
ghost use Rattle.vortex_errors.specs.Answers.{AnswersUnlessMemory};

use vortex_columns::{Column, Scalar};

/// The command of a line.
#[derive(Drop)]
pub enum Line<'a> {
    /// No words, or a comment.
    Nothing,
    /// Not a line of a script.
    Malformed,
    /// The number of rows.
    Rows(usize),
    /// A name, and its column from here on.
    Column(&'a str, Column),
    /// The column of a name.
    Get(&'a str),
    /// A value in each row.
    Literal(Scalar),
    /// The function that these words name, of the last trees; and its escape: unspecified, none, or
    /// a character.
    Call(Vec<&'a str>, Option<Option<char>>),
    /// The text of the last tree, printed.
    Show,
    /// A run of rules from the last tree, which it replaces; its steps, printed.
    Optimize,
    /// The column of the last tree, printed.
    Run,
    /// The column of the tree that a run of at most that many steps leads to, printed.
    RunAfter(u64),
}
