//! A batch that is looked through for its first fault before answers are kept: where one call over
//! the whole of it, where its columns lie, has met a fault in some row, all that is run again up to
//! that row would be kept in vain.
ghost use Rattle.std.specs.Prelude.{◌≡◌, ◌<◌, ◌+◌, ◌^◌, ℕ, All, IfErr, IfSome, IsTrue, None, map};
ghost use Rattle.vortex_interface.specs.Bound.{IsBound};
ghost use Rattle.vortex_interface.specs.Execution.{other_length};
ghost use Rattle.vortex_expressions.specs.Items.{meaning};
ghost use Rattle.vortex_program.specs.Executing.{AllGive, AllGiveWithin};
ghost use Rattle.vortex_program.specs.Programs.{trees_of, AreRewrites};
ghost use Rattle.vortex_program.specs.Running.{RefusesTrees};
ghost use Rattle.yurkije_columns.specs.Batches.{batch_column};
ghost use Rattle.yurkije_core.specs.Chunks.{HasChunkIfRead};

use crate::chunks::{is_single, learn_bound, run_chunk};
use crate::lent::{execute_parts, is_lent};
use crate::parts::parts_of;
use std::alloc::Global;
use vortex_arrow::ArrowColumn;
use vortex_functions::BoundExpression;
use vortex_program::{Program, RunError};
use vortex_standard::Standard;

/// Whether a call that is executed over columns where they lie faults in no row: of a comparison,
/// BETWEEN, a null test, and of truth values.
fn never_faults(tree: &BoundExpression<Standard>) -> bool {
    let Some(function) = tree.as_scalar() else {
        return true;
    };
    match function.as_binary() {
        Some(operator) => operator.to_numeric_operator().is_none(),
        None => function.as_custom().is_none(),
    }
}

/// Whether a program is one arithmetic call over columns where they lie. It is run over the whole
/// batch first: where that returned nothing, a row is likely to fault.
fn may_fault_late(program: &Program, columns: &[Option<ArrowColumn<'_>>]) -> bool {
    is_single(&program.optimized)
        && !program
            .optimized
            .iter()
            .all(|answer| never_faults(&answer.tree))
        && is_lent(program, columns)
}

/// Whether so many rows are run over the columns where they lie, without a fault.
fn gives_where_lent(
    alloc: Global,
    program: &Program,
    columns: &[Option<ArrowColumn<'_>>],
    first: usize,
    count: usize,
) -> bool
    requires chunk { All (HasChunkIfRead first count) columns.now }
    requires optimized { All IsBound (trees_of program.now.optimized.items) }
    ensures { IsTrue result → (n j : ℕ) → j < count
        → AllGive meaning (map (batch_column n) columns.now) (first + j)
        (trees_of program.now.optimized.items) }
{
    let Some(parts) = parts_of(alloc, columns, first, count) else {
        return false;
    };
    match execute_parts(alloc, &program.optimized, &parts, count) {
        Some(_) => true,
        None => false,
    }
}

/// How many rows from the first on are run over the columns where they lie without a fault, so many
/// at a time: none where an answer is not executed so.
fn faultless_front(
    alloc: Global,
    program: &Program,
    columns: &[Option<ArrowColumn<'_>>],
    rows: usize,
    count: usize,
) -> usize
    requires count { 0 < count }
    requires chunk { All (HasChunkIfRead 0 rows) columns.now }
    requires place { All (λ o. IfSome o (λ c. c.offset + rows < 2 ^ 64)) columns.now }
    requires some { 0 < rows }
    requires even { other_length rows (map (batch_column rows) columns.now) ≡ None }
    requires optimized { All IsBound (trees_of program.now.optimized.items) }
    ensures some { result < rows }
    ensures given { AllGiveWithin meaning (map (batch_column rows) columns.now) 0 result
        (trees_of program.now.optimized.items) }
{
    let mut first = 0;
    'parts: while rows - first > count {
        if gives_where_lent(alloc, program, columns, first, count) {
            first += count;
        } else {
            return first;
        }
    }
    first
}

/// Runs a batch so many rows at a time, and keeps no answer: fails as `run_chunks` does.
/// First larger parts are run where the columns lie, as long as none has a fault: so only the rows
/// of the part that has the first fault, and those behind it, are run in smaller ones.
fn look_through(
    alloc: Global,
    program: &Program,
    columns: &[Option<ArrowColumn<'_>>],
    rows: usize,
    count: usize,
) -> Result<(), RunError>
    requires count { 0 < count }
    requires chunk { All (HasChunkIfRead 0 rows) columns.now }
    requires place { All (λ o. IfSome o (λ c. c.offset + rows < 2 ^ 64)) columns.now }
    requires some { 0 < rows }
    requires even { other_length rows (map (batch_column rows) columns.now) ≡ None }
    ensures { AreRewrites program.now.written.items program.now.optimized.items
        → IfErr result (RefusesTrees (map (batch_column rows) columns.now) rows
        (trees_of program.now.written.items) (trees_of program.now.optimized.items)) }
{
    learn_bound(&program.written);
    learn_bound(&program.optimized);
    let is_lent = is_lent(program, columns);
    let mut first = faultless_front(alloc, program, columns, rows, 8192);
    'chunks: while rows - first > count {
        match run_chunk(alloc, program, columns, rows, first, count, is_lent) {
            Ok(_) => first += count,
            Err(error) => return Err(error),
        }
    }
    match run_chunk(alloc, program, columns, rows, first, rows - first, is_lent) {
        Ok(_) => Ok(()),
        Err(error) => Err(error),
    }
}

/// Looks through a batch for the first fault, where a run over the whole of it is likely to have met
/// one: fails as `run_chunks` does, before any answer is begun.
pub(crate) fn check_faults(
    alloc: Global,
    program: &Program,
    columns: &[Option<ArrowColumn<'_>>],
    rows: usize,
) -> Result<(), RunError>
    requires chunk { All (HasChunkIfRead 0 rows) columns.now }
    requires place { All (λ o. IfSome o (λ c. c.offset + rows < 2 ^ 64)) columns.now }
    requires some { 0 < rows }
    requires even { other_length rows (map (batch_column rows) columns.now) ≡ None }
    ensures { AreRewrites program.now.written.items program.now.optimized.items
        → IfErr result (RefusesTrees (map (batch_column rows) columns.now) rows
        (trees_of program.now.written.items) (trees_of program.now.optimized.items)) }
{
    if may_fault_late(program, columns) {
        look_through(alloc, program, columns, rows, 512)
    } else {
        Ok(())
    }
}
