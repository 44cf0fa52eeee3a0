//! Products and quotients of a column and a constant, which is precomputed before the rows.
ghost use Rattle.std.specs.Prelude.{◌≡◌, ◌*ℤ◌, length, map, Some};
ghost use Rattle.vortex_checked.specs.Exact.{quotient};
ghost use Rattle.vortex_errors.specs.declared.error.NumericOperator.TheVariants.{Mul, Div};
ghost use Rattle.vortex_kernels.specs.Words.{Answers, AnswersUnlessMemory, integer_of_both};
ghost use Rattle.vortex_kernels.specs.Words.{AnswersNumeric, RefusesNumeric};
ghost use Rattle.vortex_kernels.specs.Words.{AreResults, TellsFaults, results_by};
ghost use Rattle.vortex_kernels.specs.Words.{AreInts, IsConstantOf, number};
ghost use Rattle.vortex_kernels.specs.Faults.{AreHeldResults};

use crate::arithmetic_integer::{ArithmeticInteger, divide_by, multiply_bounded};
use crate::numbers::{ListedNumbers, OneNumber};
use crate::numeric_column::numeric_column;
use std::alloc::Global;
use vortex_checked::{CheckedDiv, CheckedMul, ConstantArithmetic, Divisor, factor_ends};
use vortex_columns::{Column, ExecutionCtx, NumericOperator, VortexResult};

/// The product of each integer with the factor, and whether the type does not hold one of them. E9
/// where memory is refused.
pub fn bounded_products<T: ArithmeticInteger>(
    alloc: Global,
    numbers: &[T],
    factor: T,
) -> VortexResult<(Vec<T>, bool)>
    ensures values { AnswersUnlessMemory result (λ answer. AreResults T.ptype
        (results_by (λ a b. Some (a *ℤ b)) (map T.NativePType.number numbers.now)
        (T.NativePType.number factor))
        (length numbers.now) (map T.NativePType.number answer.0.items)) }
    ensures fault { AnswersUnlessMemory result (λ answer. TellsFaults T.ptype
        (results_by (λ a b. Some (a *ℤ b)) (map T.NativePType.number numbers.now)
        (T.NativePType.number factor))
        (length numbers.now) answer.1) }
{
    let (least, greatest) = factor_ends(factor);
    let len = numbers.len();
    let mut values = Vec::with_capacity(alloc, len)?;
    let mut fault = false;
    for i in 0..len {
        let (value, is_outside) = multiply_bounded(numbers[i], factor, least, greatest);
        values.push_reserved(value);
        fault |= is_outside;
    }
    Ok((values, fault))
}

/// The quotient of each integer by the divisor. The type holds them all.
fn held_quotients<T: ArithmeticInteger, D: Divisor<T>>(
    alloc: Global,
    numbers: &[T],
    divisor: D,
) -> VortexResult<Vec<T>>
    ensures { AnswersUnlessMemory result (λ values. AreHeldResults T.ptype
        (results_by quotient (map T.NativePType.number numbers.now) (D.value divisor))
        (length numbers.now) (map T.NativePType.number values.items)) }
{
    let len = numbers.len();
    let mut values = Vec::with_capacity(alloc, len)?;
    for i in 0..len {
        values.push_reserved(divide_by::<T, D>(numbers[i], &divisor));
    }
    Ok(values)
}

/// The product in each row, of integers on the left and a factor on the right.
pub(crate) fn products_by<T: ArithmeticInteger>(
    values: &[T],
    factor: T,
    lhs: &Column,
    rhs: &Column,
    ctx: &mut ExecutionCtx,
) -> VortexResult<Column>
    requires types { integer_of_both lhs.now.dtype rhs.now.dtype ≡ Some T.ptype }
    requires lengths { length lhs.now.rows ≡ length rhs.now.rows }
    requires left { AreInts lhs.now (map T.NativePType.number values.now) }
    requires right { IsConstantOf (number (T.NativePType.number factor)) rhs.now }
    ensures { Answers result (AnswersNumeric Mul lhs.now rhs.now)
        (RefusesNumeric Mul lhs.now rhs.now) }
{
    let calculated = bounded_products::<T>(ctx.alloc(), values, factor)?;
    let left = ListedNumbers { values };
    let right = OneNumber { value: factor };
    numeric_column::<T, CheckedMul, ListedNumbers<T>, OneNumber<T>>(
        calculated,
        &left,
        &right,
        lhs,
        rhs,
        NumericOperator::Mul,
        ctx,
    )
}

/// The product in each row, of a factor on the left and integers on the right.
pub(crate) fn products_of<T: ArithmeticInteger>(
    factor: T,
    values: &[T],
    lhs: &Column,
    rhs: &Column,
    ctx: &mut ExecutionCtx,
) -> VortexResult<Column>
    requires types { integer_of_both lhs.now.dtype rhs.now.dtype ≡ Some T.ptype }
    requires lengths { length lhs.now.rows ≡ length rhs.now.rows }
    requires left { IsConstantOf (number (T.NativePType.number factor)) lhs.now }
    requires right { AreInts rhs.now (map T.NativePType.number values.now) }
    ensures { Answers result (AnswersNumeric Mul lhs.now rhs.now)
        (RefusesNumeric Mul lhs.now rhs.now) }
{
    let calculated = bounded_products::<T>(ctx.alloc(), values, factor)?;
    let left = OneNumber { value: factor };
    let right = ListedNumbers { values };
    numeric_column::<T, CheckedMul, OneNumber<T>, ListedNumbers<T>>(
        calculated,
        &left,
        &right,
        lhs,
        rhs,
        NumericOperator::Mul,
        ctx,
    )
}

/// The quotient in each row, of integers on the left and a value on the right, given as a divisor
/// too.
pub(crate) fn quotients_by<T: ArithmeticInteger>(
    values: &[T],
    value: T,
    divisor: T::Divisor,
    lhs: &Column,
    rhs: &Column,
    ctx: &mut ExecutionCtx,
) -> VortexResult<Column>
    requires types { integer_of_both lhs.now.dtype rhs.now.dtype ≡ Some T.ptype }
    requires lengths { length lhs.now.rows ≡ length rhs.now.rows }
    requires left { AreInts lhs.now (map T.NativePType.number values.now) }
    requires right { IsConstantOf (number (T.NativePType.number value)) rhs.now }
    requires divisor { T.Divisor.value divisor ≡ T.CheckedArithmetic.number value }
    ensures { Answers result (AnswersNumeric Div lhs.now rhs.now)
        (RefusesNumeric Div lhs.now rhs.now) }
{
    let quotients = held_quotients::<T, T::Divisor>(ctx.alloc(), values, divisor)?;
    let left = ListedNumbers { values };
    let right = OneNumber { value };
    numeric_column::<T, CheckedDiv, ListedNumbers<T>, OneNumber<T>>(
        (quotients, false),
        &left,
        &right,
        lhs,
        rhs,
        NumericOperator::Div,
        ctx,
    )
}
