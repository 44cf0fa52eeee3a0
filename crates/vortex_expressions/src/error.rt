//! Errors of texts over a scope, with positions.
use crate::messages::{out_of_memory, unread};
use crate::refusal::Refusal;
use std::alloc::Global;
use std::fmt;
use vortex_columns::VortexError;
use vortex_syntax::{Expected, SyntaxError};

/// Why a text is no expression over a scope.
#[derive(Debug, Drop)]
pub enum Reason {
    /// No word and no sign begins there.
    NoToken,
    /// No expression continues with what is there, or none ends where the text ends; what was
    /// expected there.
    Unexpected(Expected),
    /// Brackets nest too deep there.
    TooDeep,
    /// The text has no syntax error, but another error.
    Refused(Refusal),
}

/// Why a text is no expression over a scope, and where: a byte of the text, and its line and
/// character in that line, both counted from 1. Out of memory has no position.
#[derive(Drop)]
pub struct TextError {
    pub reason: Reason,
    pub byte: usize,
    pub line: usize,
    pub column: usize,
    pub(crate) told: String,
}

impl TextError {
    ghost use Rattle.std.specs.Prelude.{◌≡◌, IsTrue};
    ghost use Rattle.vortex_expressions.specs.Reading.{is_want_of_memory, UnreadBy};

    /// Out of memory (E9), without a position.
    pub fn out_of_memory(alloc: Global) -> TextError
        ensures { IsTrue (is_want_of_memory result) }
    {
        out_of_memory(alloc)
    }

    /// Why a text does not parse: the parser's reason and byte, with its line and the words for it.
    pub fn of_syntax(alloc: Global, text: &str, error: SyntaxError) -> TextError
        ensures { UnreadBy error result }
    {
        unread(alloc, text, error)
    }

    /// Whether memory ran out (E9); the text may be correct.
    pub fn is_out_of_memory(&self) -> bool
        ensures { result ≡ is_want_of_memory self.now }
    {
        matches!(
            &self.reason,
            Reason::Refused(Refusal::Binding(VortexError::OutOfMemory))
        )
    }
}

/// `line 1, column 9: ..`, and what was found and expected there, in one line.
impl fmt::Display for TextError {
    ghost use Rattle.std.specs.Prelude.{Some};
    ghost use Rattle.vortex_expressions.specs.Messages.{read_error_text};

    ghost output = { λ error. Some (read_error_text error) };

    fn fmt<W: fmt::Write>(&self, f: &mut fmt::Formatter<W>) -> fmt::Result {
        if self.is_out_of_memory() {
            return f.write_str("out of memory");
        }
        let (line, column, told) = (self.line, self.column, self.told.as_str());
        write!(f, "line {line}, column {column}: {told}")
    }
}

impl fmt::Debug for TextError {
    fn fmt<W: fmt::Write>(&self, f: &mut fmt::Formatter<W>) -> fmt::Result {
        write!(f, "{self}")
    }
}
