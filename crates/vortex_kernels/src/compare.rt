//! Comparison of columns and of scalars, by the order of values.
ghost use Rattle.std.specs.Prelude.{◌≡◌, ◌<◌, length, IsTrue, MatchResult};
ghost use Rattle.vortex_kernels.specs.Words.{Answers, AnswersUnlessMemory, bool_type, allows_null};
ghost use Rattle.vortex_kernels.specs.Words.{null, HasScalarRows, is_null_constant, IsConstantOf};
ghost use Rattle.vortex_kernels.specs.Words.{AnswersScalars, RefusesScalars, HasComparisonRows};
ghost use Rattle.vortex_kernels.specs.Words.{AnswersCompare, RefusesCompare};

use crate::comparisons::{
    Comparison, IsEqual, IsGreater, IsGreaterOrEqual, IsLess, IsLessOrEqual, IsNotEqual,
};
use crate::operators::CompareOperator;
use crate::records::hold_in_rows;
use vortex_columns::{
    Column, DType, ExecutionCtx, MismatchPlace, Scalar, VortexError, VortexResult, both_valid,
};

/// The comparison of each row, of columns of equal length.
fn compare_rows<P: Comparison>(
    lhs: &Column,
    rhs: &Column,
    ctx: &mut ExecutionCtx,
) -> VortexResult<Column>
    requires { length lhs.now.rows ≡ length rhs.now.rows }
    ensures { AnswersUnlessMemory result (HasComparisonRows P.operator lhs.now rhs.now) }
{
    let bits = hold_in_rows::<P>(ctx.alloc(), lhs, rhs)?;
    let validity = both_valid(ctx.alloc(), lhs, rhs)?;
    Column::try_bool(ctx.alloc(), bits, validity)
}

/// The comparison of each row; the operator is chosen before the rows.
fn compare_columns(
    lhs: &Column,
    rhs: &Column,
    operator: CompareOperator,
    ctx: &mut ExecutionCtx,
) -> VortexResult<Column>
    requires { length lhs.now.rows ≡ length rhs.now.rows }
    ensures { AnswersUnlessMemory result (HasComparisonRows operator lhs.now rhs.now) }
{
    match operator {
        CompareOperator::Eq => compare_rows::<IsEqual>(lhs, rhs, ctx),
        CompareOperator::NotEq => compare_rows::<IsNotEqual>(lhs, rhs, ctx),
        CompareOperator::Gt => compare_rows::<IsGreater>(lhs, rhs, ctx),
        CompareOperator::Gte => compare_rows::<IsGreaterOrEqual>(lhs, rhs, ctx),
        CompareOperator::Lt => compare_rows::<IsLess>(lhs, rhs, ctx),
        CompareOperator::Lte => compare_rows::<IsLessOrEqual>(lhs, rhs, ctx),
    }
}

/// Whether the column is a constant null.
fn is_null_constant(column: &Column) -> bool
    requires { 0 < length column.now.rows }
    ensures says { result ≡ is_null_constant column.now }
    ensures nulls { IsTrue result → IsConstantOf null column.now }
{
    match column.as_constant() {
        Some(scalar) => scalar.is_null(),
        None => false,
    }
}

/// One scalar of Bool in each of `len` rows.
fn constant_rows(lhs: &Column, scalar: Scalar, ctx: &mut ExecutionCtx) -> VortexResult<Column>
    ensures { AnswersUnlessMemory result (HasScalarRows scalar (length lhs.now.rows)) }
{
    Column::constant(ctx.alloc(), scalar, lhs.len())
}

/// The comparison of two scalars by the order of their values: a truth value of Bool, nullable if
/// either type is. Allocates as `Cell::compare` does.
///
/// A null of nullable Bool if either is null, whatever the types. Else E3 Scalars exactly for types
/// that differ apart from nullability.
pub fn scalar_cmp(lhs: &Scalar, rhs: &Scalar, operator: CompareOperator) -> VortexResult<Scalar>
    ensures { MatchResult result (AnswersScalars operator lhs.now rhs.now)
        (RefusesScalars lhs.now rhs.now) }
{
    let nullability = lhs.dtype().nullability() | rhs.dtype().nullability();
    if lhs.is_null() || rhs.is_null() {
        return Ok(Scalar::null(DType::Bool(nullability)));
    }
    match lhs.partial_cmp(rhs) {
        Some(order) => Ok(Scalar::bool(operator.holds(order), nullability)),
        None => Err(VortexError::TypeMismatch(MismatchPlace::Scalars)),
    }
}

/// The comparison of two columns row by row, by the order of values: a column of Bool, nullable if
/// either type is, null exactly where a row is null on either side. Nulls within a value are
/// values, equal to each other and least.
///
/// In order: E2 for columns of two lengths, with `left` the first; no rows give an empty column,
/// and a constant null on either side gives nulls, whatever the types; two constants use
/// `scalar_cmp` (E3 Scalars); E3 Compare for types that differ apart from nullability.
pub fn execute_compare(
    lhs: &Column,
    rhs: &Column,
    operator: CompareOperator,
    ctx: &mut ExecutionCtx,
) -> VortexResult<Column>
    ensures { Answers result (AnswersCompare operator lhs.now rhs.now)
        (RefusesCompare lhs.now rhs.now) }
{
    let left = lhs.len();
    let right = rhs.len();
    if left != right {
        return Err(VortexError::LengthMismatch { left, right });
    }
    let nullability = lhs.dtype().nullability() | rhs.dtype().nullability();
    if left == 0 {
        return constant_rows(lhs, Scalar::bool(false, nullability), ctx);
    }
    if is_null_constant(lhs) || is_null_constant(rhs) {
        return constant_rows(lhs, Scalar::null(DType::Bool(nullability)), ctx);
    }
    if let (Some(left), Some(right)) = (lhs.as_constant(), rhs.as_constant()) {
        return constant_rows(lhs, scalar_cmp(left, right, operator)?, ctx);
    }
    if !lhs.dtype().eq_ignore_nullability(rhs.dtype()) {
        return Err(VortexError::TypeMismatch(MismatchPlace::Compare));
    }
    // a constant goes to the right
    if lhs.as_constant().is_some() {
        return compare_columns(rhs, lhs, operator.swap(), ctx);
    }
    compare_columns(lhs, rhs, operator, ctx)
}
