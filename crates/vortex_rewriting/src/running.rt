//! Execution after a run of rules.
ghost use Rattle.std.specs.Cow.{cow_value};
ghost use Rattle.std.specs.Prelude.{◌≡◌};
ghost use Rattle.vortex_functions.specs.Words.{AnswersUnlessMemory};
ghost use Rattle.vortex_rewriting.specs.Runs.{AnswersRun, AnswersRunOfArray};

use crate::driver::take_steps;
use crate::rules::ScalarFnRules;
use std::alloc::Global;
use std::borrow::Cow;
use vortex_columns::{Column, ExecutionCtx, VortexResult};
use vortex_functions::{ArrayRef, BoundExpression};

/// The rows, over columns, of the tree that a run of at most `limit` steps leads to: in each row in
/// which the tree itself has a value they are that value. If the run leads to a lone leaf, its
/// column is borrowed.
///
/// In order: E11 if the column of a leaf of the tree itself is missing or of another type, even
/// if a step would drop the leaf; E2 if a column has not `row_count` rows, with `left` the
/// row count and `right` the length of the first such column; then the fault of the first call, in
/// post-order, of the tree that the run leads to. If that faults the tree itself does, in the
/// same row.
pub fn run<'a, C: ScalarFnRules>(
    tree: &BoundExpression<C>,
    columns: &'a [Column],
    row_count: usize,
    limit: u64,
    ctx: &mut ExecutionCtx,
) -> VortexResult<Cow<'a, Column>>
    ensures { AnswersRun C.meaning C.rules limit columns.now row_count tree.now result }
{
    // proves that the tree is well typed, and that each literal has its type
    let _typed = tree.dtype();
    tree.check_columns(columns, row_count, ctx)?;
    let optimized = take_steps(ctx.alloc(), tree, limit)?;
    optimized.tree.execute(columns, row_count, ctx)
}

/// The column itself, copied if it is borrowed. E9 where an allocation fails.
fn own_column(alloc: Global, column: Cow<'_, Column>) -> VortexResult<Column>
    ensures { AnswersUnlessMemory result (λ own. own ≡ cow_value column.entry) }
{
    match column {
        Cow::Borrowed(column) => column.try_clone(alloc),
        Cow::Owned(column) => Ok(column),
    }
}

/// The rows of the array tree that a run of at most `limit` steps leads to: in each row in which
/// the tree itself has a value they are that value. Fails with the fault of the first call, in
/// post-order, of the tree that the run leads to; if that faults the tree itself does, in the same
/// row.
pub fn run_array<C: ScalarFnRules>(
    tree: &ArrayRef<C>,
    limit: u64,
    ctx: &mut ExecutionCtx,
) -> VortexResult<Column>
    ensures { AnswersRunOfArray C.meaning C.rules limit tree.now result }
{
    // proves that the tree is well typed, and that its contents have values of their types
    let _typed = tree.dtype();
    let optimized = take_steps(ctx.alloc(), tree, limit)?;
    let column = optimized.tree.execute(ctx)?;
    own_column(ctx.alloc(), column)
}
