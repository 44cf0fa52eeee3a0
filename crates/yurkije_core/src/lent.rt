//! Answers over columns where they lie.
ghost use Rattle.std.specs.Prelude.{◌≡◌, ℕ, All, IfSome, IsTrue, None, map};
ghost use Rattle.vortex_interface.specs.Execution.{other_length, LeavesFit, Executes};
ghost use Rattle.vortex_functions.specs.Walks.{AllMean};
ghost use Rattle.vortex_expressions.specs.Items.{meaning};
ghost use Rattle.vortex_program.specs.Programs.{trees_of};
ghost use Rattle.yurkije_columns.specs.Batches.{batch_column};
ghost use Rattle.yurkije_core.specs.Chunks.{AreLent};

use std::alloc::Global;
use vortex_arrow::ArrowColumn;
use vortex_columns::{Column, ExecutionCtx};
use vortex_program::{Answer, Program};
use yurkije_lent::{are_typed, execute_lent, is_direct, leaves_fit};

/// The answers over columns where they lie. None where an answer is not executed so, a row faults,
/// or memory is refused.
pub(crate) fn execute_parts(
    alloc: Global,
    answers: &[Answer],
    parts: &[Option<ArrowColumn<'_>>],
    count: usize,
) -> Option<Vec<Column>>
    requires { other_length count (map (batch_column count) parts.now) ≡ None }
    ensures { IfSome result (λ columns. AllMean
        (Executes meaning (map (batch_column count) parts.now) count) (trees_of answers.now)
        columns.items) }
{
    let mut ctx = ExecutionCtx::new(alloc);
    let mut columns = Vec::new(alloc);
    for answer in answers {
        let Some(rows) = execute_lent(&answer.tree, parts, count, &mut ctx) else {
            return None;
        };
        let Some(column) = rows.into_column(alloc) else {
            return None;
        };
        let Ok(()) = columns.push(column) else {
            return None;
        };
    }
    Some(columns)
}

/// Whether each answer is executed over columns where they lie.
fn are_direct(answers: &[Answer]) -> bool {
    answers.iter().all(|answer| is_direct(&answer.tree))
}

/// Whether the leaves of each answer are lent with their types.
fn have_leaves(answers: &[Answer], columns: &[Option<ArrowColumn<'_>>]) -> bool
    ensures { IsTrue result → (n : ℕ) → All (LeavesFit (map (batch_column n) columns.now))
        (trees_of answers.now) }
{
    for answer in answers {
        if !leaves_fit(&answer.tree, columns) {
            return false;
        }
    }
    true
}

/// Whether a program is run over the columns where they lie: of truth values or of what integers
/// stand for, by calls that are executed so.
pub(crate) fn is_lent(program: &Program, columns: &[Option<ArrowColumn<'_>>]) -> bool
    ensures { IsTrue result → (n : ℕ) → AreLent (map (batch_column n) columns.now)
        (trees_of program.now.written.items) }
{
    are_direct(&program.optimized) && have_leaves(&program.written, columns) && are_typed(columns)
}
