//! Arithmetic of operands of one integer type, exact in each row.
ghost use Rattle.std.specs.Prelude.{◌≡◌, ◌*ℤ◌, IfSome, IsSome, Some, length, map};
ghost use Rattle.vortex_errors.specs.declared.error.NumericOperator.TheVariants.{Mul};
ghost use Rattle.vortex_types.specs.Values.{number};
ghost use Rattle.vortex_kernels.specs.Words.{AreInts, AreNumbers, IsConstantOf, IsExactOf};
ghost use Rattle.vortex_kernels.specs.Words.{AnswersNumeric, integer_of_both};
ghost use Rattle.yurkije_lent.specs.Arithmetic.{HasExactRows};
ghost use Rattle.yurkije_lent.specs.Operands.{operand_column};

use crate::compare::one;
use crate::integer_types::integer_type;
use crate::integers::{LentInteger, ints};
use crate::operand::Operand;
use crate::validity::both_valid_in;
use std::alloc::Global;
use vortex_checked::{CheckedAdd, CheckedMul, CheckedSub};
use vortex_columns::{Column, NumericOperator, PType};
use vortex_kernels::arithmetic_integer::ArithmeticInteger;
use vortex_kernels::checked_loops::faultless_rows;
use vortex_kernels::constant_operand::bounded_products;
use vortex_kernels::numbers::{ListedNumbers, Numbers, OneNumber};
use vortex_kernels::products::VectorMul;
use vortex_kernels::row_operation::{RowOperation, WideMul};

/// The operation in each row of operands of one length, whose integers are read in the form of
/// each side. None where a row faults, even under a null, or memory is refused.
fn numeric_rows<T: ArithmeticInteger, O: RowOperation<T>, L: Numbers<T>, R: Numbers<T>>(
    alloc: Global,
    left: &L,
    right: &R,
    lhs: &Operand<'_>,
    rhs: &Operand<'_>,
) -> Option<Column>
    requires types { integer_of_both (operand_column lhs.now).dtype (operand_column rhs.now).dtype
        ≡ Some T.ptype }
    requires lengths { length (operand_column lhs.now).rows ≡ length (operand_column rhs.now).rows }
    requires left { AreNumbers (operand_column lhs.now)
        (L.has_row left.now) (L.number_at left.now) }
    requires right { AreNumbers (operand_column rhs.now)
        (R.has_row right.now) (R.number_at right.now) }
    ensures { IfSome result
        (HasExactRows O.exact (operand_column lhs.now) (operand_column rhs.now)) }
{
    let made = faultless_rows::<T, O, L, R>(alloc, left, right, lhs.len()).ok()?;
    let values = made?;
    let validity = both_valid_in(alloc, lhs, rhs)?;
    Column::try_primitive(alloc, values, validity).ok()
}

/// The product in each row of integers on the left and a factor on the right. None where a row
/// faults, even under a null, or memory is refused.
fn products_by<T: ArithmeticInteger>(
    alloc: Global,
    values: &[T],
    factor: T,
    lhs: &Operand<'_>,
    rhs: &Operand<'_>,
) -> Option<Column>
    requires types { integer_of_both (operand_column lhs.now).dtype (operand_column rhs.now).dtype
        ≡ Some T.ptype }
    requires lengths { length (operand_column lhs.now).rows ≡ length (operand_column rhs.now).rows }
    requires left { AreInts (operand_column lhs.now) (map T.NativePType.number values.now) }
    requires right { IsConstantOf (number (T.NativePType.number factor)) (operand_column rhs.now) }
    ensures { IfSome result
        (AnswersNumeric Mul (operand_column lhs.now) (operand_column rhs.now)) }
{
    let (values, may_fault) = bounded_products::<T>(alloc, values, factor).ok()?;
    if may_fault {
        return None;
    }
    let validity = both_valid_in(alloc, lhs, rhs)?;
    Column::try_primitive(alloc, values, validity).ok()
}

/// The same of a factor on the left and integers on the right.
fn products_of<T: ArithmeticInteger>(
    alloc: Global,
    factor: T,
    values: &[T],
    lhs: &Operand<'_>,
    rhs: &Operand<'_>,
) -> Option<Column>
    requires types { integer_of_both (operand_column lhs.now).dtype (operand_column rhs.now).dtype
        ≡ Some T.ptype }
    requires lengths { length (operand_column lhs.now).rows ≡ length (operand_column rhs.now).rows }
    requires left { IsConstantOf (number (T.NativePType.number factor)) (operand_column lhs.now) }
    requires right { AreInts (operand_column rhs.now) (map T.NativePType.number values.now) }
    ensures { IfSome result
        (AnswersNumeric Mul (operand_column lhs.now) (operand_column rhs.now)) }
{
    let (values, may_fault) = bounded_products::<T>(alloc, values, factor).ok()?;
    if may_fault {
        return None;
    }
    let validity = both_valid_in(alloc, lhs, rhs)?;
    Column::try_primitive(alloc, values, validity).ok()
}

/// The operation in each row of operands of one length, of which one at most is constant; the form
/// of each side is chosen before the rows. None for others, where a row faults, even under a null,
/// or memory is refused.
fn calculate<T: LentInteger + ArithmeticInteger, O: RowOperation<T>>(
    alloc: Global,
    lhs: &Operand<'_>,
    rhs: &Operand<'_>,
) -> Option<Column>
    requires types { integer_of_both (operand_column lhs.now).dtype (operand_column rhs.now).dtype
        ≡ Some T.ptype }
    requires lengths { length (operand_column lhs.now).rows ≡ length (operand_column rhs.now).rows }
    ensures { IfSome result
        (HasExactRows O.exact (operand_column lhs.now) (operand_column rhs.now)) }
{
    match (ints::<T>(lhs), ints::<T>(rhs)) {
        (Some(lefts), Some(rights)) => {
            let left = ListedNumbers { values: lefts };
            let right = ListedNumbers { values: rights };
            numeric_rows::<T, O, ListedNumbers<T>, ListedNumbers<T>>(alloc, &left, &right, lhs, rhs)
        }
        (Some(lefts), None) => {
            let left = ListedNumbers { values: lefts };
            let value = one::<T>(rhs)?;
            let right = OneNumber { value };
            numeric_rows::<T, O, ListedNumbers<T>, OneNumber<T>>(alloc, &left, &right, lhs, rhs)
        }
        (None, Some(rights)) => {
            let value = one::<T>(lhs)?;
            let left = OneNumber { value };
            let right = ListedNumbers { values: rights };
            numeric_rows::<T, O, OneNumber<T>, ListedNumbers<T>>(alloc, &left, &right, lhs, rhs)
        }
        (None, None) => None,
    }
}

/// The product in each row. A constant factor is precomputed before the rows.
fn multiply<T: LentInteger + ArithmeticInteger, O: RowOperation<T>>(
    alloc: Global,
    lhs: &Operand<'_>,
    rhs: &Operand<'_>,
) -> Option<Column>
    requires types { integer_of_both (operand_column lhs.now).dtype (operand_column rhs.now).dtype
        ≡ Some T.ptype }
    requires lengths { length (operand_column lhs.now).rows ≡ length (operand_column rhs.now).rows }
    requires exact { IsExactOf Mul O.exact }
    ensures { IfSome result
        (AnswersNumeric Mul (operand_column lhs.now) (operand_column rhs.now)) }
{
    if let (Some(values), Some(factor)) = (ints::<T>(lhs), one::<T>(rhs)) {
        return products_by::<T>(alloc, values, factor, lhs, rhs);
    }
    if let (Some(factor), Some(values)) = (one::<T>(lhs), ints::<T>(rhs)) {
        return products_of::<T>(alloc, factor, values, lhs, rhs);
    }
    calculate::<T, O>(alloc, lhs, rhs)
}

/// The same; the operator is chosen before the rows, and products are made in the form that is
/// best for the type.
fn calculate_in<T: LentInteger + ArithmeticInteger, M: RowOperation<T>>(
    alloc: Global,
    operator: NumericOperator,
    lhs: &Operand<'_>,
    rhs: &Operand<'_>,
) -> Option<Column>
    requires types { integer_of_both (operand_column lhs.now).dtype (operand_column rhs.now).dtype
        ≡ Some T.ptype }
    requires lengths { length (operand_column lhs.now).rows ≡ length (operand_column rhs.now).rows }
    requires exact { IsExactOf Mul M.exact }
    ensures { IfSome result
        (AnswersNumeric operator (operand_column lhs.now) (operand_column rhs.now)) }
{
    match operator {
        NumericOperator::Add => calculate::<T, CheckedAdd>(alloc, lhs, rhs),
        NumericOperator::Sub => calculate::<T, CheckedSub>(alloc, lhs, rhs),
        NumericOperator::Mul => multiply::<T, M>(alloc, lhs, rhs),
        NumericOperator::Div => None,
    }
}

/// The same; the integer type is chosen before the rows.
fn calculate_typed(
    alloc: Global,
    operator: NumericOperator,
    ptype: PType,
    lhs: &Operand<'_>,
    rhs: &Operand<'_>,
) -> Option<Column>
    requires types { integer_of_both (operand_column lhs.now).dtype (operand_column rhs.now).dtype
        ≡ Some ptype }
    requires lengths { length (operand_column lhs.now).rows ≡ length (operand_column rhs.now).rows }
    ensures { IfSome result
        (AnswersNumeric operator (operand_column lhs.now) (operand_column rhs.now)) }
{
    match ptype {
        PType::I8 => calculate_in::<i8, CheckedMul>(alloc, operator, lhs, rhs),
        PType::I16 => calculate_in::<i16, VectorMul>(alloc, operator, lhs, rhs),
        PType::I32 => calculate_in::<i32, VectorMul>(alloc, operator, lhs, rhs),
        PType::I64 => calculate_in::<i64, WideMul>(alloc, operator, lhs, rhs),
        PType::U8 => calculate_in::<u8, CheckedMul>(alloc, operator, lhs, rhs),
        PType::U16 => calculate_in::<u16, CheckedMul>(alloc, operator, lhs, rhs),
        PType::U32 => calculate_in::<u32, CheckedMul>(alloc, operator, lhs, rhs),
        PType::U64 => calculate_in::<u64, WideMul>(alloc, operator, lhs, rhs),
    }
}

/// Exact arithmetic of two operands row by row, of which one at most is constant. None for others,
/// for quotients, where a row has no result that the type holds, even under a null, and where
/// memory is refused.
pub(crate) fn calculate_operands(
    alloc: Global,
    operator: NumericOperator,
    left: &Operand<'_>,
    right: &Operand<'_>,
) -> Option<Column>
    requires types { IsSome
        (integer_of_both (operand_column left.now).dtype (operand_column right.now).dtype) }
    requires lengths { length (operand_column left.now).rows
        ≡ length (operand_column right.now).rows }
    ensures { IfSome result
        (AnswersNumeric operator (operand_column left.now) (operand_column right.now)) }
{
    let ptype = integer_type(left)?;
    calculate_typed(alloc, operator, ptype, left, right)
}
