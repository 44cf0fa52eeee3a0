//! Arithmetic of columns of one integer type, exact in each row.
ghost use Rattle.std.specs.Prelude.{◌≡◌, true, length, map, Some, IfOk, IsSome};
ghost use Rattle.vortex_errors.specs.declared.error.NumericOperator.TheVariants.{Mul, Div};
ghost use Rattle.vortex_kernels.specs.Words.{Answers, AnswersUnlessMemory, integer_of_both};
ghost use Rattle.vortex_kernels.specs.Words.{AnswersNumeric, RefusesNumeric};
ghost use Rattle.vortex_kernels.specs.Words.{IsExactOf, AreNumbers};
ghost use Rattle.vortex_kernels.specs.Words.{HasScalarRows, IsConstantOf, null_of, number};
ghost use Rattle.vortex_kernels.specs.Words.{KeepsTwoConstants, AreInts};

use crate::arithmetic_integer::{ArithmeticInteger, apply_checked};
use crate::checked_loops::checked_rows;
use crate::constant_operand::{products_by, products_of, quotients_by};
use crate::integer_types::{integer_of_both, with_integer};
use crate::numbers::{ListedNumbers, Numbers, OneNumber};
use crate::numeric_column::numeric_column;
use crate::pairs::constant_int;
use crate::products::VectorMul;
use crate::quotients::column_quotients;
use crate::row_operation::{RowOperation, WideMul};
use std::alloc::Global;
use vortex_checked::{
    CheckedAdd, CheckedDiv, CheckedMul, CheckedSub, ConstantArithmetic, GuessedDivision,
};
use vortex_columns::{
    Column, ExecutionCtx, MismatchPlace, Nullability, NumericOperator, PType, Scalar, ScalarValue,
    VortexError, VortexResult,
};

/// The operation in each row, of columns of equal length, whose integers are read in the form of
/// each side.
fn numeric_rows<T: ArithmeticInteger, O: RowOperation<T>, L: Numbers<T>, R: Numbers<T>>(
    left: &L,
    right: &R,
    lhs: &Column,
    rhs: &Column,
    operator: NumericOperator,
    ctx: &mut ExecutionCtx,
) -> VortexResult<Column>
    requires types { integer_of_both lhs.now.dtype rhs.now.dtype ≡ Some T.ptype }
    requires lengths { length lhs.now.rows ≡ length rhs.now.rows }
    requires exact { IsExactOf operator O.exact }
    requires left { AreNumbers lhs.now (L.has_row left.now) (L.number_at left.now) }
    requires right { AreNumbers rhs.now (R.has_row right.now) (R.number_at right.now) }
    ensures { Answers result (AnswersNumeric operator lhs.now rhs.now)
        (RefusesNumeric operator lhs.now rhs.now) }
{
    let calculated = checked_rows::<T, O, L, R>(ctx.alloc(), left, right, lhs.len())?;
    numeric_column::<T, O, L, R>(calculated, left, right, lhs, rhs, operator, ctx)
}

/// Null in each row, of the nullable form of the type: a constant.
fn null_rows(lhs: &Column, ctx: &mut ExecutionCtx) -> VortexResult<Column>
    ensures rows { AnswersUnlessMemory result
        (HasScalarRows (null_of lhs.now.dtype) (length lhs.now.rows)) }
    ensures constant { IfOk result (λ c. IsSome c.constant) }
{
    let dtype = lhs.dtype().try_clone(ctx.alloc())?;
    let null = Scalar::null(dtype.with_nullability(Nullability::Nullable));
    Column::constant(ctx.alloc(), null, lhs.len())
}

/// The same as `numeric_columns`, for a list of integers on the left.
fn numeric_listed<T: ArithmeticInteger, O: RowOperation<T>>(
    values: &[T],
    lhs: &Column,
    rhs: &Column,
    operator: NumericOperator,
    ctx: &mut ExecutionCtx,
) -> VortexResult<Column>
    requires types { integer_of_both lhs.now.dtype rhs.now.dtype ≡ Some T.ptype }
    requires lengths { length lhs.now.rows ≡ length rhs.now.rows }
    requires exact { IsExactOf operator O.exact }
    requires left { AreInts lhs.now (map T.NativePType.number values.now) }
    ensures { Answers result (AnswersNumeric operator lhs.now rhs.now)
        (RefusesNumeric operator lhs.now rhs.now) }
{
    let left = ListedNumbers { values };
    match (rhs.ints::<T>(), constant_int::<T>(rhs)) {
        (Some(values), _) => {
            let right = ListedNumbers { values };
            numeric_rows::<T, O, ListedNumbers<T>, ListedNumbers<T>>(
                &left, &right, lhs, rhs, operator, ctx,
            )
        }
        (None, Some(value)) => {
            let right = OneNumber { value };
            numeric_rows::<T, O, ListedNumbers<T>, OneNumber<T>>(
                &left, &right, lhs, rhs, operator, ctx,
            )
        }
        (None, None) => null_rows(lhs, ctx),
    }
}

/// The operation on two constant columns of equal length: computed once, and returned as a
/// constant. Nothing faults if there are no rows.
fn numeric_constants<T: ArithmeticInteger, O: RowOperation<T>>(
    left: T,
    right: T,
    lhs: &Column,
    rhs: &Column,
    operator: NumericOperator,
    ctx: &mut ExecutionCtx,
) -> VortexResult<Column>
    requires types { integer_of_both lhs.now.dtype rhs.now.dtype ≡ Some T.ptype }
    requires lengths { length lhs.now.rows ≡ length rhs.now.rows }
    requires exact { IsExactOf operator O.exact }
    requires left { IsConstantOf (number (T.NativePType.number left)) lhs.now }
    requires right { IsConstantOf (number (T.NativePType.number right)) rhs.now }
    ensures rows { Answers result (AnswersNumeric operator lhs.now rhs.now)
        (RefusesNumeric operator lhs.now rhs.now) }
    ensures constant { IfOk result (λ c. IsSome c.constant) }
{
    let (value, fault) = apply_checked::<T, O>(left, right);
    if fault != O::Fail::default() && lhs.len() != 0 {
        return Err(VortexError::Arithmetic(operator));
    }
    let dtype = lhs.dtype().try_clone(ctx.alloc())?;
    let nullability = lhs.dtype().nullability() | rhs.dtype().nullability();
    let value = ScalarValue::Int(value.to_i128());
    let scalar = Scalar::try_new(dtype.with_nullability(nullability), Some(value))?;
    Column::constant(ctx.alloc(), scalar, lhs.len())
}

/// The same as `numeric_columns`, for a constant on the left.
fn numeric_constant<T: ArithmeticInteger, O: RowOperation<T>>(
    value: T,
    lhs: &Column,
    rhs: &Column,
    operator: NumericOperator,
    ctx: &mut ExecutionCtx,
) -> VortexResult<Column>
    requires types { integer_of_both lhs.now.dtype rhs.now.dtype ≡ Some T.ptype }
    requires lengths { length lhs.now.rows ≡ length rhs.now.rows }
    requires exact { IsExactOf operator O.exact }
    requires left { IsConstantOf (number (T.NativePType.number value)) lhs.now }
    ensures rows { Answers result (AnswersNumeric operator lhs.now rhs.now)
        (RefusesNumeric operator lhs.now rhs.now) }
    ensures constant { IfOk result (λ c. IsSome rhs.now.constant → IsSome c.constant) }
{
    match (rhs.ints::<T>(), constant_int::<T>(rhs)) {
        (Some(values), _) => {
            let left = OneNumber { value };
            let right = ListedNumbers { values };
            numeric_rows::<T, O, OneNumber<T>, ListedNumbers<T>>(
                &left, &right, lhs, rhs, operator, ctx,
            )
        }
        (None, Some(right)) => numeric_constants::<T, O>(value, right, lhs, rhs, operator, ctx),
        (None, None) => null_rows(lhs, ctx),
    }
}

/// The operation in each row, of columns of equal length. The form of each side is chosen before
/// the rows.
fn numeric_columns<T: ArithmeticInteger, O: RowOperation<T>>(
    lhs: &Column,
    rhs: &Column,
    operator: NumericOperator,
    ctx: &mut ExecutionCtx,
) -> VortexResult<Column>
    requires types { integer_of_both lhs.now.dtype rhs.now.dtype ≡ Some T.ptype }
    requires lengths { length lhs.now.rows ≡ length rhs.now.rows }
    requires exact { IsExactOf operator O.exact }
    ensures rows { Answers result (AnswersNumeric operator lhs.now rhs.now)
        (RefusesNumeric operator lhs.now rhs.now) }
    ensures constant { IfOk result (KeepsTwoConstants lhs.now rhs.now) }
{
    match (lhs.ints::<T>(), constant_int::<T>(lhs)) {
        (Some(values), _) => numeric_listed::<T, O>(values, lhs, rhs, operator, ctx),
        (None, Some(value)) => numeric_constant::<T, O>(value, lhs, rhs, operator, ctx),
        (None, None) => null_rows(lhs, ctx),
    }
}

/// The product in each row, of columns of equal length. A constant factor is precomputed before the
/// rows.
fn numeric_products<T: ArithmeticInteger, O: RowOperation<T>>(
    lhs: &Column,
    rhs: &Column,
    ctx: &mut ExecutionCtx,
) -> VortexResult<Column>
    requires types { integer_of_both lhs.now.dtype rhs.now.dtype ≡ Some T.ptype }
    requires lengths { length lhs.now.rows ≡ length rhs.now.rows }
    requires exact { IsExactOf Mul O.exact }
    ensures rows { Answers result (AnswersNumeric Mul lhs.now rhs.now)
        (RefusesNumeric Mul lhs.now rhs.now) }
    ensures constant { IfOk result (KeepsTwoConstants lhs.now rhs.now) }
{
    if let (Some(values), Some(factor)) = (lhs.ints::<T>(), constant_int::<T>(rhs)) {
        return products_by::<T>(values, factor, lhs, rhs, ctx);
    }
    if let (Some(factor), Some(values)) = (constant_int::<T>(lhs), rhs.ints::<T>()) {
        return products_of::<T>(factor, values, lhs, rhs, ctx);
    }
    numeric_columns::<T, O>(lhs, rhs, NumericOperator::Mul, ctx)
}

/// The quotient in each row, of columns of equal length. A constant divisor is precomputed before
/// the rows.
fn numeric_quotients<T: ArithmeticInteger>(
    lhs: &Column,
    rhs: &Column,
    ctx: &mut ExecutionCtx,
) -> VortexResult<Column>
    requires types { integer_of_both lhs.now.dtype rhs.now.dtype ≡ Some T.ptype }
    requires lengths { length lhs.now.rows ≡ length rhs.now.rows }
    ensures rows { Answers result (AnswersNumeric Div lhs.now rhs.now)
        (RefusesNumeric Div lhs.now rhs.now) }
    ensures constant { IfOk result (KeepsTwoConstants lhs.now rhs.now) }
{
    if let (Some(values), Some(number)) = (lhs.ints::<T>(), constant_int::<T>(rhs))
        && let Some(divisor) = number.divisor()
    {
        return quotients_by::<T>(values, number, divisor, lhs, rhs, ctx);
    }
    numeric_columns::<T, CheckedDiv>(lhs, rhs, NumericOperator::Div, ctx)
}

/// The same for a type whose quotients are estimated if neither column is constant.
fn guessed_or_quotients<T: ArithmeticInteger + GuessedDivision>(
    lhs: &Column,
    rhs: &Column,
    ctx: &mut ExecutionCtx,
) -> VortexResult<Column>
    requires types { integer_of_both lhs.now.dtype rhs.now.dtype ≡ Some T.ptype }
    requires lengths { length lhs.now.rows ≡ length rhs.now.rows }
    ensures rows { Answers result (AnswersNumeric Div lhs.now rhs.now)
        (RefusesNumeric Div lhs.now rhs.now) }
    ensures constant { IfOk result (KeepsTwoConstants lhs.now rhs.now) }
{
    if let (Some(lefts), Some(rights)) = (lhs.ints::<T>(), rhs.ints::<T>()) {
        return column_quotients::<T>(lefts, rights, lhs, rhs, ctx);
    }
    numeric_quotients::<T>(lhs, rhs, ctx)
}

/// The same, in the form for any type; the operator is chosen before the rows.
fn numeric_in<T: ArithmeticInteger>(
    lhs: &Column,
    rhs: &Column,
    operator: NumericOperator,
    ctx: &mut ExecutionCtx,
) -> VortexResult<Column>
    requires types { integer_of_both lhs.now.dtype rhs.now.dtype ≡ Some T.ptype }
    requires lengths { length lhs.now.rows ≡ length rhs.now.rows }
    ensures rows { Answers result (AnswersNumeric operator lhs.now rhs.now)
        (RefusesNumeric operator lhs.now rhs.now) }
    ensures constant { IfOk result (KeepsTwoConstants lhs.now rhs.now) }
{
    match operator {
        NumericOperator::Add => numeric_columns::<T, CheckedAdd>(lhs, rhs, operator, ctx),
        NumericOperator::Sub => numeric_columns::<T, CheckedSub>(lhs, rhs, operator, ctx),
        NumericOperator::Mul => numeric_products::<T, CheckedMul>(lhs, rhs, ctx),
        NumericOperator::Div => numeric_quotients::<T>(lhs, rhs, ctx),
    }
}

/// Dispatches on operator and integer type. Signed products of 16 to 64 bits, products of u64, and
/// quotients of all types but u64 have their own loops.
fn numeric_typed(
    ptype: PType,
    lhs: &Column,
    rhs: &Column,
    operator: NumericOperator,
    ctx: &mut ExecutionCtx,
) -> VortexResult<Column>
    requires types { integer_of_both lhs.now.dtype rhs.now.dtype ≡ Some ptype }
    requires lengths { length lhs.now.rows ≡ length rhs.now.rows }
    ensures rows { Answers result (AnswersNumeric operator lhs.now rhs.now)
        (RefusesNumeric operator lhs.now rhs.now) }
    ensures constant { IfOk result (KeepsTwoConstants lhs.now rhs.now) }
{
    match (operator, ptype) {
        (NumericOperator::Mul, PType::I16) => numeric_products::<i16, VectorMul>(lhs, rhs, ctx),
        (NumericOperator::Mul, PType::I32) => numeric_products::<i32, VectorMul>(lhs, rhs, ctx),
        (NumericOperator::Mul, PType::I64) => { numeric_products::<i64, WideMul>(lhs, rhs, ctx) }
        (NumericOperator::Mul, PType::U64) => { numeric_products::<u64, WideMul>(lhs, rhs, ctx) }
        (NumericOperator::Div, PType::I8) => guessed_or_quotients::<i8>(lhs, rhs, ctx),
        (NumericOperator::Div, PType::I16) => guessed_or_quotients::<i16>(lhs, rhs, ctx),
        (NumericOperator::Div, PType::I32) => guessed_or_quotients::<i32>(lhs, rhs, ctx),
        (NumericOperator::Div, PType::I64) => guessed_or_quotients::<i64>(lhs, rhs, ctx),
        (NumericOperator::Div, PType::U8) => guessed_or_quotients::<u8>(lhs, rhs, ctx),
        (NumericOperator::Div, PType::U16) => guessed_or_quotients::<u16>(lhs, rhs, ctx),
        (NumericOperator::Div, PType::U32) => guessed_or_quotients::<u32>(lhs, rhs, ctx),
        _ => with_integer!(ptype, numeric_in::<_>(lhs, rhs, operator, ctx)),
    }
}

/// Exact arithmetic of two columns row by row: a column of their integer type, nullable if either
/// is, null exactly where a row is null on either side. A quotient is truncated toward zero. Two
/// constants give a constant.
///
/// In order: E3 Arithmetic for types that are not one integer type apart from nullability; E2 for
/// columns of two lengths, with `left` the first; E7 exactly where in some row two operands that
/// are not null have no exact result that the type holds, whatever values are under nulls.
pub fn execute_numeric(
    lhs: &Column,
    rhs: &Column,
    operator: NumericOperator,
    ctx: &mut ExecutionCtx,
) -> VortexResult<Column>
    ensures rows { Answers result (AnswersNumeric operator lhs.now rhs.now)
        (RefusesNumeric operator lhs.now rhs.now) }
    ensures constant { IfOk result (KeepsTwoConstants lhs.now rhs.now) }
{
    let Some(ptype) = integer_of_both(lhs.dtype(), rhs.dtype()) else {
        return Err(VortexError::TypeMismatch(MismatchPlace::Arithmetic));
    };
    let left = lhs.len();
    let right = rhs.len();
    if left != right {
        return Err(VortexError::LengthMismatch { left, right });
    }
    numeric_typed(ptype, lhs, rhs, operator, ctx)
}
