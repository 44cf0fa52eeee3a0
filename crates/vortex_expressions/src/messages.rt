//! Reports for a text that is no expression.
ghost use Rattle.std.specs.Prelude.{IsTrue};
ghost use Rattle.vortex_expressions.specs.Reading.{is_want_of_memory, ToldAt, UnreadBy, ToldStop};

use crate::binder::Stopped;
use crate::error::{Reason, TextError};
use crate::failures::TextFailure;
use crate::refusal::{BindStop, Refusal};
use crate::syntax_texts::syntax_text;
use crate::words::line_and_column;
use std::alloc::Global;
use vortex_columns::{StructFields, VortexError, VortexResult};
use vortex_logical::kind::Kind;
use vortex_syntax::{Expected, SyntaxError, SyntaxTree};

/// Out of memory.
pub(crate) fn out_of_memory(alloc: Global) -> TextError
    ensures { IsTrue (is_want_of_memory result) }
{
    TextError {
        reason: Reason::Refused(Refusal::Binding(VortexError::OutOfMemory)),
        byte: 0,
        line: 1,
        column: 1,
        told: String::new(alloc),
    }
}

/// That reason, at that byte of the text, with its report.
fn error_at(
    alloc: Global,
    text: &str,
    byte: usize,
    reason: Reason,
    told: VortexResult<String>,
) -> TextError
    ensures { ToldAt reason byte result }
{
    let Ok(told) = told else {
        return out_of_memory(alloc);
    };
    let (line, column) = line_and_column(text, byte);
    TextError {
        reason,
        byte,
        line,
        column,
        told,
    }
}

/// Why a text is read as no syntax tree.
pub(crate) fn unread(alloc: Global, text: &str, error: SyntaxError) -> TextError
    ensures { UnreadBy error result }
{
    let told = syntax_text(alloc, text, error);
    match error {
        SyntaxError::NoToken(byte) => error_at(alloc, text, byte, Reason::NoToken, told),
        SyntaxError::Unexpected(byte, expected) => {
            error_at(alloc, text, byte, Reason::Unexpected(expected), told)
        }
        SyntaxError::TooDeep(byte) => error_at(alloc, text, byte, Reason::TooDeep, told),
        SyntaxError::OutOfMemory => out_of_memory(alloc),
    }
}

impl Stopped {
    /// Why a text without syntax errors fails.
    pub(crate) fn told(
        self,
        alloc: Global,
        scope: &StructFields,
        kinds: &[Kind],
        text: &str,
        tree: &SyntaxTree<'_>,
    ) -> TextError
        ensures { ToldStop self.stop result }
    {
        let step = self.step;
        // After the last step the literal that it leaves is the error.
        let byte = match tree.places.get(step) {
            Some(byte) => *byte,
            None => tree.places.last().copied().unwrap_or(text.len()),
        };
        let failure = TextFailure {
            alloc,
            scope,
            kinds,
            text,
            tree,
            step,
            byte,
        };
        match self.stop {
            BindStop::Refused(refusal) => {
                let told = failure.told(&refusal);
                error_at(alloc, text, byte, Reason::Refused(refusal), told)
            }
            BindStop::Missing => {
                let told = Ok(String::new(alloc));
                error_at(
                    alloc,
                    text,
                    byte,
                    Reason::Unexpected(Expected::OperatorOrEnd),
                    told,
                )
            }
        }
    }
}

/// Why an answer has no name.
pub(crate) fn unnamed(alloc: Global, text: &str, stop: BindStop) -> TextError
    ensures { ToldStop stop result }
{
    let told = match String::from_str(alloc, "a name is not UTF-8") {
        Ok(told) => Ok(told),
        Err(_) => Err(VortexError::OutOfMemory),
    };
    let reason = match stop {
        BindStop::Refused(refusal) => Reason::Refused(refusal),
        BindStop::Missing => Reason::Unexpected(Expected::AnswerName),
    };
    error_at(alloc, text, text.len(), reason, told)
}
