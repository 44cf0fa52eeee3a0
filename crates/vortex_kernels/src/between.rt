//! Whether each row of a column is between two bounds.
ghost use Rattle.std.specs.Prelude.{◌≡◌, true, length, IfSome, IfOk};
ghost use Rattle.vortex_kernels.specs.Words.{AnswersUnlessMemory, AreComparisons, AreBounded};
ghost use Rattle.vortex_kernels.specs.Words.{bound_operator, HasBetweenRows, HasNoNull};
ghost use Rattle.vortex_kernels.specs.Words.{allows_null, any_nullable, between_scalar};
ghost use Rattle.vortex_kernels.specs.Words.{comparison_value, compare_swap, kleene, And, truth_of};
ghost use Rattle.vortex_kernels.specs.Words.{type_of, KeepsThreeConstants};

use crate::boolean::kleene_boolean_buffers;
use crate::bounds::hold_between;
use crate::comparisons::{IsGreater, IsGreaterOrEqual, IsLess, IsLessOrEqual};
use crate::operators::Operator;
use crate::records::hold_in_rows;
use crate::validity::valid_in;
use std::alloc::Global;
use vortex_columns::{
    BitBuffer, Column, DType, ExecutionCtx, Nullability, Scalar, ValidRows, VortexResult,
    both_valid,
};
use vortex_operators::{BetweenOptions, StrictComparison};

/// Whether the left side is below the right one, in each row in which both have a value.
fn hold_below(
    alloc: Global,
    lhs: &Column,
    rhs: &Column,
    strict: StrictComparison,
) -> VortexResult<BitBuffer>
    requires { length lhs.now.rows ≡ length rhs.now.rows }
    ensures { AnswersUnlessMemory result
        (AreComparisons (bound_operator strict) lhs.now.rows rhs.now.rows) }
{
    // a constant goes to the right
    match (lhs.as_constant().is_some(), strict) {
        (true, StrictComparison::Strict) => hold_in_rows::<IsGreater>(alloc, rhs, lhs),
        (true, StrictComparison::NonStrict) => hold_in_rows::<IsGreaterOrEqual>(alloc, rhs, lhs),
        (false, StrictComparison::Strict) => hold_in_rows::<IsLess>(alloc, lhs, rhs),
        (false, StrictComparison::NonStrict) => hold_in_rows::<IsLessOrEqual>(alloc, lhs, rhs),
    }
}

/// The nullability of the result.
fn nullability_of(array: &DType, lower: &DType, upper: &DType) -> Nullability
    ensures { allows_null result
        ≡ any_nullable (type_of array.now) (type_of lower.now) (type_of upper.now) }
{
    array.nullability() | lower.nullability() | upper.nullability()
}

/// Kleene's And of the comparisons with both bounds, each as bits.
fn between_columns(
    array: &Column,
    lower: &Column,
    upper: &Column,
    options: &BetweenOptions,
    ctx: &mut ExecutionCtx,
) -> VortexResult<Column>
    requires lower { length lower.now.rows ≡ length array.now.rows }
    requires upper { length upper.now.rows ≡ length array.now.rows }
    ensures { AnswersUnlessMemory result
        (HasBetweenRows options.now array.now lower.now upper.now) }
{
    let alloc = ctx.alloc();
    let nullability = nullability_of(array.dtype(), lower.dtype(), upper.dtype());
    let above = hold_below(alloc, lower, array, options.lower_strict)?;
    let above_valid = both_valid(alloc, lower, array)?;
    let below = hold_below(alloc, array, upper, options.upper_strict)?;
    let below_valid = both_valid(alloc, array, upper)?;
    kleene_boolean_buffers(
        above,
        above_valid,
        below,
        below_valid,
        Operator::And,
        nullability,
        ctx,
    )
}

/// Whether each value is between its bounds, in one pass; none where these columns have no such
/// form. The operators are chosen before the rows, and the array is on the left of both.
fn hold_in_bounds(
    alloc: Global,
    array: &Column,
    lower: &Column,
    upper: &Column,
    options: &BetweenOptions,
) -> VortexResult<Option<BitBuffer>>
    requires lower { length array.now.rows ≡ length lower.now.rows }
    requires upper { length array.now.rows ≡ length upper.now.rows }
    ensures { AnswersUnlessMemory result (λ bits. IfSome bits
        (AreBounded (compare_swap (bound_operator options.now.lower_strict))
        (bound_operator options.now.upper_strict) array.now.rows lower.now.rows upper.now.rows)) }
{
    match (options.lower_strict, options.upper_strict) {
        (StrictComparison::Strict, StrictComparison::Strict) => {
            hold_between::<IsGreater, IsLess>(alloc, array, lower, upper)
        }
        (StrictComparison::Strict, StrictComparison::NonStrict) => {
            hold_between::<IsGreater, IsLessOrEqual>(alloc, array, lower, upper)
        }
        (StrictComparison::NonStrict, StrictComparison::Strict) => {
            hold_between::<IsGreaterOrEqual, IsLess>(alloc, array, lower, upper)
        }
        (StrictComparison::NonStrict, StrictComparison::NonStrict) => {
            hold_between::<IsGreaterOrEqual, IsLessOrEqual>(alloc, array, lower, upper)
        }
    }
}

/// The same as `between_columns` where no row of a bound is null: a row is null exactly where the
/// array's is.
fn between_full(
    array: &Column,
    lower: &Column,
    upper: &Column,
    options: &BetweenOptions,
    ctx: &mut ExecutionCtx,
) -> VortexResult<Column>
    requires lower { length array.now.rows ≡ length lower.now.rows }
    requires upper { length array.now.rows ≡ length upper.now.rows }
    requires no_lower { HasNoNull lower.now.rows }
    requires no_upper { HasNoNull upper.now.rows }
    ensures { AnswersUnlessMemory result
        (HasBetweenRows options.now array.now lower.now upper.now) }
{
    let alloc = ctx.alloc();
    let Some(bits) = hold_in_bounds(alloc, array, lower, upper, options)? else {
        return between_columns(array, lower, upper, options, ctx);
    };
    let nullability = nullability_of(array.dtype(), lower.dtype(), upper.dtype());
    let validity = valid_in(alloc, array, nullability)?;
    Column::try_bool(alloc, bits, validity)
}

/// Whether no row of a column is null, by its validity only: no list of bits is read.
fn is_full(column: &Column) -> bool
    ensures { result ≡ true → HasNoNull column.now.rows }
{
    match column.valid_rows() {
        ValidRows::Every => true,
        _ => false,
    }
}

/// Whether a value is below another; null where either is null.
fn is_below(left: &Scalar, right: &Scalar, strict: StrictComparison) -> Option<bool>
    ensures { result
        ≡ truth_of (comparison_value (bound_operator strict) left.now.value right.now.value) }
{
    if left.is_null() || right.is_null() {
        return None;
    }
    let order = left.cell().compare(&right.cell());
    Some(strict.to_compare_operator().holds(order))
}

/// Kleene's And of two truth values or nulls.
fn both(left: Option<bool>, right: Option<bool>) -> Option<bool>
    ensures { result ≡ kleene And left right }
{
    match (left, right) {
        (Some(false), _) => Some(false),
        (_, Some(false)) => Some(false),
        (Some(true), Some(true)) => Some(true),
        _ => None,
    }
}

/// Whether one value is between two others.
fn between_scalars(
    value: &Scalar,
    lower: &Scalar,
    upper: &Scalar,
    options: &BetweenOptions,
) -> Scalar
    ensures { result ≡ between_scalar options.now value.now lower.now upper.now }
{
    let nullability = nullability_of(value.dtype(), lower.dtype(), upper.dtype());
    let above = is_below(lower, value, options.lower_strict);
    let below = is_below(value, upper, options.upper_strict);
    match both(above, below) {
        Some(truth) => Scalar::bool(truth, nullability),
        None => Scalar::null(DType::Bool(nullability)),
    }
}

/// Whether each row of a column is between the row's bounds: Kleene's And of `lower < array` and
/// `array < upper`, each with `<=` for a bound that is not strict. A column of Bool, nullable if
/// any of the three is; a row with one null bound can still be false. Three constants give a
/// constant.
pub fn execute_between(
    array: &Column,
    lower: &Column,
    upper: &Column,
    options: &BetweenOptions,
    ctx: &mut ExecutionCtx,
) -> VortexResult<Column>
    requires lower { length lower.now.rows ≡ length array.now.rows }
    requires upper { length upper.now.rows ≡ length array.now.rows }
    ensures rows { AnswersUnlessMemory result
        (HasBetweenRows options.now array.now lower.now upper.now) }
    ensures constant { IfOk result (KeepsThreeConstants array.now lower.now upper.now) }
{
    if let (Some(value), Some(low), Some(high)) = (
        array.as_constant(),
        lower.as_constant(),
        upper.as_constant(),
    ) {
        let answer = between_scalars(value, low, high, options);
        return Column::constant(ctx.alloc(), answer, array.len());
    }
    if is_full(lower) && is_full(upper) {
        return between_full(array, lower, upper, options, ctx);
    }
    between_columns(array, lower, upper, options, ctx)
}
