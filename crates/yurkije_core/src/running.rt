//! A program run over a batch of columns that a caller lends.
ghost use Rattle.std.specs.Prelude.{◌<◌, All, IfSome, IsTrue, MatchResult};
ghost use Rattle.yurkije_columns.specs.Checking.{IsFlat};
ghost use Rattle.vortex_types.specs.TypeOf.{struct_fields};
ghost use Rattle.vortex_program.specs.Programs.{trees_of, AreRewrites};
ghost use Rattle.yurkije_core.specs.Running.{AnswersBatch, RefusesRun};

use crate::chunks::{begun, learn_bound, run_chunks, whole_lent_rows, whole_rows};
use crate::faults::check_faults;
use crate::lent::{execute_parts, is_lent};
use std::alloc::Global;
use vortex_arrow::ArrowColumn;
use vortex_columns::Column;
use vortex_program::Program;
use yurkije_columns::{ColumnError, check_batch, is_flat, read_batch};

/// Why a program returns no columns for a batch.
#[derive(Debug, Drop)]
pub enum BatchRunError {
    /// A column is wrong, or memory ran out as it was read.
    Batch(ColumnError),
    /// A row faults, or memory ran out as the program ran.
    Program(vortex_program::RunError),
}

/// Whether a column is of truth values or of what integers stand for, if it is read.
fn is_flat_if_read(column: &Option<ArrowColumn<'_>>) -> bool
    ensures { IsTrue result → IfSome column.now IsFlat }
{
    match column {
        Some(column) => is_flat(column),
        None => true,
    }
}

/// Whether all columns that are read are of truth values or of what integers stand for.
fn are_flat(columns: &[Option<ArrowColumn<'_>>]) -> bool
    ensures { IsTrue result → All (λ o. IfSome o IsFlat) columns.now }
{
    for k in 0..columns.len() {
        if !is_flat_if_read(&columns[k]) {
            return false;
        }
    }
    true
}

/// What `run_program` answers, where the columns are read as a whole.
fn run_whole(
    alloc: Global,
    program: &Program,
    columns: &[Option<ArrowColumn<'_>>],
    rows: usize,
) -> Result<Vec<Column>, BatchRunError>
    ensures { AreRewrites program.now.written.items program.now.optimized.items
        → MatchResult result
        (λ answers. AnswersBatch (struct_fields program.now.scope) program.now.kinds.items rows
        columns.now (trees_of program.now.written.items) answers.items)
        (RefusesRun (struct_fields program.now.scope) program.now.kinds.items rows columns.now
        (trees_of program.now.written.items) (trees_of program.now.optimized.items)) }
{
    let columns = match read_batch(alloc, &program.scope, &program.kinds, columns, rows) {
        Ok(columns) => columns,
        Err(error) => return Err(BatchRunError::Batch(error)),
    };
    match program.run(alloc, &columns, rows) {
        Ok(answers) => Ok(answers),
        Err(error) => Err(BatchRunError::Program(error)),
    }
}

/// What `run_program` answers, where the columns that are read are of truth values or of what integers stand for:
/// chunk by chunk, where the answers are so too.
fn run_flat(
    alloc: Global,
    program: &Program,
    columns: &[Option<ArrowColumn<'_>>],
    rows: usize,
) -> Result<Vec<Column>, BatchRunError>
    requires flat { All (λ o. IfSome o IsFlat) columns.now }
    requires some { 0 < rows }
    ensures { AreRewrites program.now.written.items program.now.optimized.items
        → MatchResult result
        (λ answers. AnswersBatch (struct_fields program.now.scope) program.now.kinds.items rows
        columns.now (trees_of program.now.written.items) answers.items)
        (RefusesRun (struct_fields program.now.scope) program.now.kinds.items rows columns.now
        (trees_of program.now.written.items) (trees_of program.now.optimized.items)) }
{
    match check_batch(alloc, &program.scope, &program.kinds, columns, rows) {
        Ok(()) => {}
        Err(error) => return Err(BatchRunError::Batch(error)),
    }
    match check_faults(alloc, program, columns, rows) {
        Ok(()) => {}
        Err(error) => return Err(BatchRunError::Program(error)),
    }
    let begun = match begun(alloc, &program.optimized, rows) {
        Ok(Some(begun)) => begun,
        Ok(None) => return run_whole(alloc, program, columns, rows),
        Err(_) => return Err(BatchRunError::Program(vortex_program::RunError::OutOfMemory)),
    };
    match run_chunks(alloc, program, columns, rows, begun) {
        Ok(answers) => Ok(answers),
        Err(error) => Err(BatchRunError::Program(error)),
    }
}

/// What `run_program` answers, where the program is run over the columns where they lie. None where
/// it is not, a column is wrong, a row faults, or memory is refused.
fn run_lent(
    alloc: Global,
    program: &Program,
    columns: &[Option<ArrowColumn<'_>>],
    rows: usize,
) -> Option<Vec<Column>>
    ensures { AreRewrites program.now.written.items program.now.optimized.items
        → IfSome result (λ answers. AnswersBatch (struct_fields program.now.scope)
        program.now.kinds.items rows columns.now (trees_of program.now.written.items)
        answers.items) }
{
    if !is_lent(program, columns) {
        return None;
    }
    let Ok(()) = check_batch(alloc, &program.scope, &program.kinds, columns, rows) else {
        return None;
    };
    learn_bound(&program.written);
    let Some(answers) = execute_parts(alloc, &program.optimized, columns, rows) else {
        return None;
    };
    Some(answers)
}

/// What the program returns for a batch of so many rows: a column for each answer, which has its
/// value in each row in which it has one. So says each program that is read: what runs are
/// rewrites of what was written. A column that no answer reads is None: an answer that reads one is
/// refused with E11.
///
/// Fails first for the columns, then with the first row in which an answer faults, as it runs; there
/// it faults as it was written, too. Rules may drop a fault: then there is an answer, of any value in
/// that row.
pub fn run_program(
    alloc: Global,
    program: &Program,
    columns: &[Option<ArrowColumn<'_>>],
    rows: usize,
) -> Result<Vec<Column>, BatchRunError>
    ensures { AreRewrites program.now.written.items program.now.optimized.items
        → MatchResult result
        (λ answers. AnswersBatch (struct_fields program.now.scope) program.now.kinds.items rows
        columns.now (trees_of program.now.written.items) answers.items)
        (RefusesRun (struct_fields program.now.scope) program.now.kinds.items rows columns.now
        (trees_of program.now.written.items) (trees_of program.now.optimized.items)) }
{
    if rows <= whole_lent_rows(program)
        && let Some(answers) = run_lent(alloc, program, columns, rows)
    {
        return Ok(answers);
    }
    if rows > whole_rows(program) && are_flat(columns) {
        run_flat(alloc, program, columns, rows)
    } else {
        run_whole(alloc, program, columns, rows)
    }
}
