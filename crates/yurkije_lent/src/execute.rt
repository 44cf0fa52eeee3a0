//! A tree over columns that a caller lends.
ghost use Rattle.std.specs.Prelude.{◌≡◌, ℕ, IfSome, IsTrue, None, Some, length, map, slice_get};
ghost use Rattle.vortex_types.specs.TypeOf.{type_of};
ghost use Rattle.vortex_columns.specs.ColumnView.{ColumnView, constant_column};
ghost use Rattle.vortex_interface.specs.Eval.{HasTreeRows};
ghost use Rattle.vortex_interface.specs.Execution.{LeavesFit, other_length};
ghost use Rattle.vortex_standard.specs.Standard.{standard_meaning};
ghost use Rattle.yurkije_columns.specs.Batches.{batch_column};
ghost use Rattle.yurkije_lent.specs.Calls.{is_direct_tree};
ghost use Rattle.yurkije_lent.specs.Operands.{operand_column, HasLeafRows};

use crate::calls::{call_rows, direct_call};
use crate::operand::Operand;
use vortex_arrow::ArrowColumn;
use vortex_columns::{Column, DType, ExecutionCtx, Scalar};
use vortex_functions::BoundExpression;
use vortex_standard::Standard;
use yurkije_columns::has_dtype;

/// The rows of the column at a place, where it is lent, has the type and so many rows.
fn leaf_rows<'a>(
    columns: &[Option<ArrowColumn<'a>>],
    place: usize,
    dtype: &DType,
    rows: usize,
) -> Option<Operand<'a>>
    ensures { IfSome result
        (λ o. HasLeafRows rows columns.now place (type_of dtype.now) (operand_column o)) }
{
    let column = (*columns.get(place)?)?;
    if column.length == rows && has_dtype(&column, dtype) {
        Some(Operand::Lent(column))
    } else {
        None
    }
}

/// A literal in each row.
fn literal_rows(scalar: &Scalar, rows: usize, ctx: &mut ExecutionCtx) -> Option<Column>
    ensures { IfSome result (λ c. c ≡ constant_column scalar.now rows) }
{
    let scalar = scalar.try_clone(ctx.alloc()).ok()?;
    Column::constant(ctx.alloc(), scalar, rows).ok()
}

/// Whether the column at a place is lent and has the type.
fn has_column(columns: &[Option<ArrowColumn<'_>>], place: usize, dtype: &DType) -> bool
    ensures { IsTrue result → (n : ℕ) → (c : ColumnView) × (slice_get (map (batch_column n)
        columns.now) place ≡ Some c) × (c.dtype ≡ type_of dtype.now) }
{
    match columns.get(place) {
        Some(Some(column)) => has_dtype(column, dtype),
        _ => false,
    }
}

/// How many calls may stand one in another in a tree: each takes some of the stack.
const DEPTH: usize = 32;

/// A tree, borrowed. The calls below go by how deep they may go yet, and not by the tree's own depth.
#[derive(Clone, Copy)]
struct Part<'t> {
    tree: &'t BoundExpression<Standard>,
}

/// Whether each leaf of a tree is lent with its type, of a tree in which at most `depth` calls stand
/// one in another.
fn part_fits(part: Part<'_>, columns: &[Option<ArrowColumn<'_>>], depth: usize) -> bool
    ensures { IsTrue result
        → (n : ℕ) → LeavesFit (map (batch_column n) columns.now) part.entry.tree.now }
{
    let tree = part.tree;
    if let Some(place) = tree.as_column() {
        return has_column(columns, place, tree.dtype());
    }
    if depth == 0 {
        return false;
    }
    for child in tree.children() {
        if !part_fits(Part { tree: child }, columns, depth - 1) {
            return false;
        }
    }
    true
}

/// Whether each leaf of a tree is lent with its type. A tree of very many calls, one in another, has
/// none for this purpose.
pub fn leaves_fit(tree: &BoundExpression<Standard>, columns: &[Option<ArrowColumn<'_>>]) -> bool
    ensures { IsTrue result → (n : ℕ) → LeavesFit (map (batch_column n) columns.now) tree.now }
{
    part_fits(Part { tree }, columns, DEPTH)
}

/// Whether each call of a tree is executed over rows where they lie, and at most `depth` stand one
/// in another.
fn part_is_direct(part: Part<'_>, depth: usize) -> bool
    ensures { result ≡ is_direct_tree depth part.entry.tree.now }
{
    let Some(function) = part.tree.as_scalar() else {
        return true;
    };
    if depth == 0 {
        return false;
    }
    if direct_call(function).is_none() {
        return false;
    }
    for child in part.tree.children() {
        if !part_is_direct(Part { tree: child }, depth - 1) {
            return false;
        }
    }
    true
}

/// Whether each call of a tree is of a function that `execute_lent` executes, and at most 32 stand
/// one in another. Of another tree it executes calls in vain.
pub fn is_direct(tree: &BoundExpression<Standard>) -> bool
    ensures { result ≡ is_direct_tree 32 tree.now }
{
    part_is_direct(Part { tree }, DEPTH)
}

/// The rows of a tree in which at most `depth` calls stand one in another.
fn execute_part<'a>(
    part: Part<'_>,
    columns: &[Option<ArrowColumn<'a>>],
    rows: usize,
    depth: usize,
    ctx: &mut ExecutionCtx,
) -> Option<Operand<'a>>
    requires { other_length rows (map (batch_column rows) columns.now) ≡ None }
    ensures { IfSome result (λ o. LeavesFit (map (batch_column rows) columns.now) part.entry.tree.now
        × HasTreeRows standard_meaning (map (batch_column rows) columns.now) rows
        part.entry.tree.now (operand_column o)) }
{
    let tree = part.tree;
    if let Some(place) = tree.as_column() {
        return leaf_rows(columns, place, tree.dtype(), rows);
    }
    if let Some(scalar) = tree.as_literal() {
        return Some(Operand::Made(literal_rows(scalar, rows, ctx)?));
    }
    let function = tree.as_scalar()?;
    let call = direct_call(function)?;
    if depth == 0 {
        return None;
    }
    let _typed = tree.dtype();
    let mut inputs = Vec::new(ctx.alloc());
    for child in tree.children() {
        let input = execute_part(Part { tree: child }, columns, rows, depth - 1, ctx)?;
        let Ok(()) = inputs.push(input) else {
            return None;
        };
    }
    Some(Operand::Made(call_rows(function, &call, inputs, rows, ctx)?))
}

/// The rows of a tree over the columns of a batch, where they lie. None where a column is not as
/// its leaf says, a call is none that is executed so (`is_direct`), a row may fault, or memory is
/// refused.
pub fn execute_lent<'a>(
    tree: &BoundExpression<Standard>,
    columns: &[Option<ArrowColumn<'a>>],
    rows: usize,
    ctx: &mut ExecutionCtx,
) -> Option<Operand<'a>>
    requires { other_length rows (map (batch_column rows) columns.now) ≡ None }
    ensures { IfSome result (λ o. LeavesFit (map (batch_column rows) columns.now) tree.now
        × HasTreeRows standard_meaning (map (batch_column rows) columns.now) rows tree.now
        (operand_column o)) }
{
    execute_part(Part { tree }, columns, rows, DEPTH, ctx)
}
