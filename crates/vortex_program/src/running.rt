//! A program run over a batch of columns.
ghost use Rattle.std.specs.Prelude.{MatchResult};
ghost use Rattle.vortex_interface.specs.Bound.{IsBound};
ghost use Rattle.std.specs.Prelude.{All, IfOk};
ghost use Rattle.vortex_standard.specs.Standard.{standard_meaning};
ghost use Rattle.vortex_functions.specs.Walks.{AllMean};
ghost use Rattle.vortex_interface.specs.Execution.{Executes};
ghost use Rattle.vortex_program.specs.Executing.{AllFit};
ghost use Rattle.vortex_program.specs.Programs.{trees_of, AreRewrites};
ghost use Rattle.vortex_program.specs.Running.{AnswersTrees, IsFault, RefusesTrees};

use crate::answer::Answer;
use crate::executing::execute_all;
use crate::faults::{check_answers, first_row_fault};
use crate::program::Program;
use std::alloc::Global;
use vortex_columns::{Column, VortexError};

/// Why a program returns no columns.
#[derive(Debug, Drop)]
pub enum RunError {
    /// The first row in which an answer faults, the number of the first answer that does there, and
    /// its fault.
    Fault {
        row: usize,
        answer: usize,
        error: VortexError,
    },
    /// The columns are not valid for an answer: E11 or E2.
    Refused(VortexError),
    /// E9: memory ran out.
    OutOfMemory,
}

/// The first row in which an answer faults; or that memory ran out. The columns are valid for the
/// answers.
fn fault_of(alloc: Global, answers: &[Answer], columns: &[Column], rows: usize) -> RunError
    ensures { IsFault columns.now rows (trees_of answers.now) result }
{
    if check_answers(alloc, answers, columns, rows).is_err() {
        return RunError::OutOfMemory;
    }
    match first_row_fault(alloc, answers, columns, rows) {
        Ok(Some(fault)) => RunError::Fault {
            row: fault.row,
            answer: fault.answer,
            error: fault.error,
        },
        _ => RunError::OutOfMemory,
    }
}

impl Program {
    /// What the program returns over columns of `rows` rows: a column for each answer, which has
    /// its value in each row in which it has one. So says each program that is made by `of`: the
    /// trees that run are rewrites of those that were written.
    ///
    /// Fails where the columns are not valid for an answer, as it was written; then with the first
    /// row in which one faults, as it runs. There it faults as it was written, too. Rules may drop a
    /// fault: then there is an answer, of any value in that row. So batches return what the whole
    /// returns.
    pub fn run(
        &self,
        alloc: Global,
        columns: &[Column],
        rows: usize,
    ) -> Result<Vec<Column>, RunError>
        ensures { AreRewrites self.now.written.items self.now.optimized.items
            → MatchResult result
            (λ answers. AnswersTrees columns.now rows (trees_of self.now.written.items)
            answers.items)
            (RefusesTrees columns.now rows (trees_of self.now.written.items)
            (trees_of self.now.optimized.items)) }
    {
        self.run_rows(alloc, columns, rows)
    }

    /// The same, which says too what runs: where there are answers, they are the rows of the trees
    /// that run, of which none faults.
    pub fn run_rows(
        &self,
        alloc: Global,
        columns: &[Column],
        rows: usize,
    ) -> Result<Vec<Column>, RunError>
        ensures answer { AreRewrites self.now.written.items self.now.optimized.items
            → MatchResult result
            (λ answers. AnswersTrees columns.now rows (trees_of self.now.written.items)
            answers.items)
            (RefusesTrees columns.now rows (trees_of self.now.written.items)
            (trees_of self.now.optimized.items)) }
        ensures executed { IfOk result (λ answers. AllMean
            (Executes standard_meaning columns.now rows) (trees_of self.now.optimized.items)
            answers.items) }
    {
        if let Err(error) = check_answers(alloc, &self.written, columns, rows) {
            return Err(RunError::Refused(error));
        }
        // The columns that rewrites read are read by what was written.
        match execute_all(alloc, &self.optimized, columns, rows, true) {
            Ok(answers) => Ok(answers),
            Err(VortexError::OutOfMemory) => Err(RunError::OutOfMemory),
            Err(_) => Err(fault_of(alloc, &self.optimized, columns, rows)),
        }
    }
}
