//! The words in which refusals are told.
ghost use Rattle.std.specs.Prelude.{◌≡◌, string_bytes, slice_get};
ghost use Rattle.vortex_errors.specs.Answers.{AnswersUnlessMemory};
ghost use Rattle.vortex_types.specs.TypeOf.{struct_fields};
ghost use Rattle.yurkije_core.specs.Messages.{IsProgramWords, names_of, name_in};
ghost use Rattle.yurkije_core.specs.Messages.{faulty_words, IsFaultWords, IsRunWords};

use crate::reading::ProgramError;
use crate::running::BatchRunError;
use std::alloc::Global;
use vortex_columns::{VortexError, VortexResult};
use vortex_program::Program;
use vortex_standard::ErrorText;
use yurkije_columns::batch_words;

/// The words for a text that is no program: those that its error displays. E9 where memory is
/// refused.
pub fn program_words(alloc: Global, error: &ProgramError) -> VortexResult<String>
    ensures { AnswersUnlessMemory result (λ words. IsProgramWords error.now (string_bytes words)) }
{
    match error {
        ProgramError::NotUtf8 => Ok(String::from_str(alloc, "the text is not UTF-8")?),
        ProgramError::Text(error) => Ok(format!(in alloc; "{error}")?),
    }
}

/// The name of an answer, or none where there is no such answer.
fn answer_named(program: &Program, answer: usize) -> &str
    ensures { result.now ≡ name_in (slice_get (names_of program.now.written.items) answer) }
{
    match program.written.get(answer) {
        Some(answer) => answer.name.as_str(),
        None => "",
    }
}

/// The words for an answer of that name that faults in a row: the two, and what the fault displays.
fn faulty_words(
    alloc: Global,
    row: usize,
    answer: usize,
    name: &str,
    error: &VortexError,
) -> VortexResult<String>
    ensures { AnswersUnlessMemory result
        (λ words. string_bytes words ≡ faulty_words row answer name.now error.now) }
{
    let error = ErrorText::new(error);
    Ok(format!(in alloc; "row {row}, answer {answer} ({name}): {error}")?)
}

/// The words for a program that returns nothing.
fn fault_words(
    alloc: Global,
    program: &Program,
    error: &vortex_program::RunError,
) -> VortexResult<String>
    ensures { AnswersUnlessMemory result (λ words.
        IsFaultWords (names_of program.now.written.items) error.now (string_bytes words)) }
{
    match error {
        vortex_program::RunError::Fault { row, answer, error } => {
            faulty_words(alloc, *row, *answer, answer_named(program, *answer), error)
        }
        vortex_program::RunError::Refused(error) => {
            let error = ErrorText::new(error);
            Ok(format!(in alloc; "{error}")?)
        }
        vortex_program::RunError::OutOfMemory => Ok(String::from_str(alloc, "out of memory")?),
    }
}

/// The words for a run over a batch of so many rows that returns nothing. E9 where an allocation
/// fails.
pub fn run_words(
    alloc: Global,
    program: &Program,
    error: &BatchRunError,
    rows: usize,
) -> VortexResult<String>
    ensures { AnswersUnlessMemory result (λ words. IsRunWords (struct_fields program.now.scope)
        (names_of program.now.written.items) rows error.now (string_bytes words)) }
{
    match error {
        BatchRunError::Batch(error) => batch_words(alloc, &program.scope, *error, rows),
        BatchRunError::Program(error) => fault_words(alloc, program, error),
    }
}
