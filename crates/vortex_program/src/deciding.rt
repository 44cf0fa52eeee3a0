//! Trees that join operands by And or Or: an operand that cannot change the answer is not executed.
ghost use Rattle.std.specs.Prelude.{◌≡◌, [], ◌∷◌, All, IsTrue, IfSome, MatchOption, ⊤, true, length};
ghost use Rattle.vortex_errors.specs.Answers.{Answers, AnswersUnlessMemory};
ghost use Rattle.vortex_columns.specs.ColumnView.{AreTyped};
ghost use Rattle.vortex_operators.specs.Kleene.{decides};
ghost use Rattle.vortex_operators.specs.Operators.{is_boolean};
ghost use Rattle.vortex_interface.specs.Eval.{HasTreeRows, IsFirstFault};
ghost use Rattle.vortex_interface.specs.Execution.{Executes, RefusesExecution};
ghost use Rattle.vortex_functions.specs.Executing.{Fits, HasRows};
ghost use Rattle.vortex_standard.specs.Standard.{standard_meaning};
ghost use Rattle.vortex_program.specs.Coded.{HaveCodes};
ghost use Rattle.vortex_program.specs.Deciding.{HasLeftRows, IsInfallible, IsJoin, IsSpine};
ghost use Rattle.vortex_program.specs.Deciding.{LeavesCoded};
ghost use Rattle.vortex_program.specs.Deciding.{IsTruth};

use crate::coded::{CodedRows, few_other_rows};
use crate::infallible::infallible_pattern;
use crate::reads::tree_marks;
use crate::rows::numbered_rows;
use crate::truths::is_truth;
use std::alloc::Global;
use std::borrow::Cow;
use vortex_columns::{Column, ExecutionCtx, Scalar, VortexResult};
use vortex_functions::{BoundExpression, ScalarFnRef, VecExecutionArgs};
use vortex_operators::Operator;
use vortex_rewriting::laws::types_invariant;
use vortex_standard::Standard;

/// Fewer rows are not divided.
const LEAST_ROWS: usize = 64;

/// A call of And or Or, with its operator.
#[derive(Clone, Copy)]
pub(crate) struct Joined<'a> {
    pub(crate) operator: Operator,
    pub(crate) node: &'a BoundExpression<Standard>,
}

/// The operator of a call of And or Or.
fn join_operator(tree: &BoundExpression<Standard>) -> Option<Operator>
    ensures { MatchOption result ⊤ (λ op. IsJoin op tree.now) }
{
    if tree.children().len() != 2 {
        return None;
    }
    match tree.as_scalar()?.as_binary()? {
        Operator::And => Some(Operator::And),
        Operator::Or => Some(Operator::Or),
        _ => None,
    }
}

/// The truth value that decides And or Or, whatever the other operand.
fn decider(operator: Operator) -> bool
    requires { is_boolean operator ≡ true }
    ensures { decides operator result ≡ true }
{
    match operator {
        Operator::Or => true,
        _ => false,
    }
}

/// The nodes from a tree down its left operands, each a call of And or Or, and the operand below
/// them.
fn spine<'a>(
    alloc: Global,
    tree: &'a BoundExpression<Standard>,
) -> VortexResult<(Vec<Joined<'a>>, &'a BoundExpression<Standard>)>
    ensures { AnswersUnlessMemory result (λ p. IsSpine tree.now p.0.items p.1.now) }
{
    let mut above = Vec::new(alloc);
    let mut node = tree;
    while let Some(operator) = join_operator(node) {
        above.push(Joined { operator, node })?;
        node = node.child(0);
    }
    Ok((above, node))
}

/// The inputs of a call of two operands.
fn both_inputs<'a>(
    alloc: Global,
    left: Cow<'a, Column>,
    right: Cow<'a, Column>,
) -> VortexResult<Vec<Cow<'a, Column>>>
    ensures { AnswersUnlessMemory result
        (λ inputs. inputs.items ≡ left.entry ∷ right.entry ∷ []) }
{
    let mut inputs = Vec::with_capacity(alloc, 2)?;
    inputs.push_reserved(left);
    inputs.push_reserved(right);
    Ok(inputs)
}

/// The rows of a node, over those of its left operand: the right operand is executed.
fn execute_right<'a>(
    joined: Joined<'a>,
    left: Cow<'a, Column>,
    columns: &'a [Column],
    row_count: usize,
    ctx: &mut ExecutionCtx,
) -> VortexResult<Column>
    requires fit { Fits columns.now row_count joined.node.now }
    requires left { HasLeftRows columns.now row_count joined left }
    ensures { Answers result
        (HasTreeRows standard_meaning columns.now row_count joined.entry.node.now)
        (IsFirstFault standard_meaning columns.now row_count joined.entry.node.now) }
{
    let _typed = joined.node.dtype();
    let right = joined
        .node
        .child(1)
        .execute_fitting(columns, row_count, ctx)?;
    let inputs = both_inputs(ctx.alloc(), left, right)?;
    let args = VecExecutionArgs::new(inputs, row_count);
    ScalarFnRef::<Standard>::Binary(joined.operator).execute(&args, ctx)
}

/// Whether the rows of a left operand decide each row, and the right operand cannot fault.
fn is_decided(
    left: &Column,
    truth: bool,
    right: &BoundExpression<Standard>,
    alloc: Global,
) -> VortexResult<bool>
    ensures { AnswersUnlessMemory result (λ b. IsTrue b
        → IsTruth truth left.now × IsInfallible standard_meaning right.now) }
{
    if !is_truth(left, truth) {
        return Ok(false);
    }
    match infallible_pattern(alloc, right)? {
        Some(_) => Ok(true),
        None => Ok(false),
    }
}

/// The rows of a node that are not decided by its left operand, and one that is, where they are few,
/// and the right operand cannot fault and reads texts by a pattern, which costs more than taking
/// rows by number. E9 where memory is refused.
fn few_open_rows(
    left: &Column,
    truth: bool,
    right: &BoundExpression<Standard>,
    alloc: Global,
) -> VortexResult<Option<CodedRows>>
    ensures { AnswersUnlessMemory result (λ found. IfSome found (λ r.
        HaveCodes truth left.now r.numbers.items r.codes.items (length left.now.rows)
        × IsInfallible standard_meaning right.now)) }
{
    if left.len() < LEAST_ROWS {
        return Ok(None);
    }
    match infallible_pattern(alloc, right)? {
        Some(true) => few_other_rows(alloc, left, truth),
        _ => Ok(None),
    }
}

/// The rows of a node over those that its left operand leaves open, and one that it decides; and
/// from these all of its rows.
fn execute_coded<'a>(
    joined: Joined<'a>,
    left: &Column,
    rows: &CodedRows,
    columns: &'a [Column],
    row_count: usize,
    ctx: &mut ExecutionCtx,
) -> VortexResult<Column>
    requires fit { Fits columns.now row_count joined.node.now }
    requires typed { All (λ c. AreTyped c.dtype c.rows) columns.now }
    requires left { LeavesCoded columns.now row_count joined left.now rows.now }
    ensures { Answers result
        (HasTreeRows standard_meaning columns.now row_count joined.entry.node.now)
        (IsFirstFault standard_meaning columns.now row_count joined.entry.node.now) }
{
    let alloc = ctx.alloc();
    let _typed = joined.node.dtype();
    let read = tree_marks(alloc, joined.node, columns.len())?;
    let taken = numbered_rows(alloc, columns, &read, &rows.numbers, ctx)?;
    let left = Cow::Owned(left.take(&rows.numbers, ctx)?);
    let answered = execute_right(joined, left, &taken, rows.numbers.len(), ctx)?;
    answered.take(&rows.codes, ctx)
}

/// The rows of a node, over those of its left operand. Where these decide each row and the right
/// operand cannot fault, it is not executed; where they leave few rows open, over these alone.
fn execute_joined<'a>(
    joined: Joined<'a>,
    left: Cow<'a, Column>,
    columns: &'a [Column],
    row_count: usize,
    ctx: &mut ExecutionCtx,
) -> VortexResult<Column>
    requires fit { Fits columns.now row_count joined.node.now }
    requires typed { All (λ c. AreTyped c.dtype c.rows) columns.now }
    requires left { HasLeftRows columns.now row_count joined left }
    ensures { Answers result
        (HasTreeRows standard_meaning columns.now row_count joined.entry.node.now)
        (IsFirstFault standard_meaning columns.now row_count joined.entry.node.now) }
{
    let truth = decider(joined.operator);
    let right = joined.node.child(1);
    let _typed = right.dtype();
    if is_decided(&left, truth, right, ctx.alloc())? {
        let nullability = joined.node.dtype().nullability();
        return Column::constant(ctx.alloc(), Scalar::bool(truth, nullability), row_count);
    }
    if let Some(rows) = few_open_rows(&left, truth, right, ctx.alloc())? {
        return execute_coded(joined, &left, &rows, columns, row_count, ctx);
    }
    execute_right(joined, left, columns, row_count, ctx)
}

/// The same of a tree, from its innermost left operand upward.
fn execute_spine<'a>(
    tree: &'a BoundExpression<Standard>,
    columns: &'a [Column],
    row_count: usize,
    ctx: &mut ExecutionCtx,
) -> VortexResult<Cow<'a, Column>>
    requires fit { Fits columns.now row_count tree.now }
    requires typed { All (λ c. AreTyped c.dtype c.rows) columns.now }
    ensures { Answers result (HasRows standard_meaning columns.now row_count tree.now)
        (IsFirstFault standard_meaning columns.now row_count tree.now) }
{
    let (mut above, innermost) = spine(ctx.alloc(), tree)?;
    let mut column = innermost.execute_fitting(columns, row_count, ctx)?;
    while let Some(joined) = above.pop() {
        column = Cow::Owned(execute_joined(joined, column, columns, row_count, ctx)?);
    }
    Ok(column)
}

/// What `execute` returns of the tree over columns that fit it, as a column of its own.
///
/// Of a tree that joins operands by And or Or from left to right, an operand is not executed where
/// those before it decide each row (And: each is false; Or: each is true) and it cannot fault.
pub(crate) fn execute_deciding(
    tree: &BoundExpression<Standard>,
    columns: &[Column],
    row_count: usize,
    ctx: &mut ExecutionCtx,
) -> VortexResult<Column>
    requires { Fits columns.now row_count tree.now }
    ensures { Answers result (Executes standard_meaning columns.now row_count tree.now)
        (RefusesExecution standard_meaning columns.now row_count tree.now) }
{
    types_invariant(columns);
    let column = execute_spine(tree, columns, row_count, ctx)?;
    Ok(column.into_owned()?)
}

/// The same over any columns, which are checked, unless it is known that they fit.
pub(crate) fn execute_checking(
    tree: &BoundExpression<Standard>,
    columns: &[Column],
    row_count: usize,
    is_known: bool,
    ctx: &mut ExecutionCtx,
) -> VortexResult<Column>
    requires { IsTrue is_known → Fits columns.now row_count tree.now }
    ensures { Answers result (Executes standard_meaning columns.now row_count tree.now)
        (RefusesExecution standard_meaning columns.now row_count tree.now) }
{
    if is_known {
        return execute_deciding(tree, columns, row_count, ctx);
    }
    tree.check_columns(columns, row_count, ctx)?;
    execute_deciding(tree, columns, row_count, ctx)
}
