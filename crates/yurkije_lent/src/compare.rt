//! Comparisons of operands of integers, and of what integers stand for.
ghost use Rattle.std.specs.Prelude.{◌≡◌, IfSome, length};
ghost use Rattle.vortex_types.specs.Values.{number};
ghost use Rattle.vortex_kernels.specs.Words.{AreComparisons, HasComparisonRows, IsConstantOf};
ghost use Rattle.yurkije_lent.specs.Operands.{operand_column};

use crate::floats::{are_lent_floats, hold_in_floats};
use crate::integer_types::integer_type;
use crate::integers::{LentInteger, ints};
use crate::operand::Operand;
use crate::validity::both_valid_in;
use std::alloc::Global;
use vortex_columns::{BitBuffer, Column, PType};
use vortex_kernels::comparisons::{
    Comparison, IsEqual, IsGreater, IsGreaterOrEqual, IsLess, IsLessOrEqual, IsNotEqual,
};
use vortex_kernels::pairs::{IntPairs, IntsAndOne, constant_int, hold_in_spans};
use vortex_operators::CompareOperator;

/// The integer in each row of a constant operand.
pub(crate) fn one<T: LentInteger>(operand: &Operand<'_>) -> Option<T>
    ensures { IfSome result (λ x. IsConstantOf (number (T.number x)) (operand_column operand.now)) }
{
    match operand {
        Operand::Lent(_) => None,
        Operand::Made(column) => constant_int::<T>(column),
    }
}

/// Whether the comparison is true in each row in which both sides have a value, of integers of one
/// type on the left that are not constant. None where they are not, or memory is refused.
fn hold_in_ints<P: Comparison, T: LentInteger>(
    alloc: Global,
    left: &Operand<'_>,
    right: &Operand<'_>,
) -> Option<BitBuffer>
    requires { length (operand_column left.now).rows ≡ length (operand_column right.now).rows }
    ensures { IfSome result (λ bits. AreComparisons P.operator
        (operand_column left.now).rows (operand_column right.now).rows bits) }
{
    let len = left.len();
    let lefts = ints::<T>(left)?;
    if let Some(rights) = ints::<T>(right) {
        let pairs = IntPairs {
            left: lefts,
            right: rights,
        };
        return hold_in_spans::<P, IntPairs<T>>(alloc, pairs, len).ok();
    }
    let pairs = IntsAndOne {
        left: lefts,
        right: one::<T>(right)?,
    };
    hold_in_spans::<P, IntsAndOne<T>>(alloc, pairs, len).ok()
}

/// The same; the integer type is chosen before the rows, and floats that are lent come first.
fn hold<P: Comparison>(alloc: Global, left: &Operand<'_>, right: &Operand<'_>) -> Option<BitBuffer>
    requires { length (operand_column left.now).rows ≡ length (operand_column right.now).rows }
    ensures { IfSome result (λ bits. AreComparisons P.operator
        (operand_column left.now).rows (operand_column right.now).rows bits) }
{
    if are_lent_floats(left) || are_lent_floats(right) {
        return hold_in_floats::<P>(alloc, left, right);
    }
    match integer_type(left)? {
        PType::I8 => hold_in_ints::<P, i8>(alloc, left, right),
        PType::I16 => hold_in_ints::<P, i16>(alloc, left, right),
        PType::I32 => hold_in_ints::<P, i32>(alloc, left, right),
        PType::I64 => hold_in_ints::<P, i64>(alloc, left, right),
        PType::U8 => hold_in_ints::<P, u8>(alloc, left, right),
        PType::U16 => hold_in_ints::<P, u16>(alloc, left, right),
        PType::U32 => hold_in_ints::<P, u32>(alloc, left, right),
        PType::U64 => hold_in_ints::<P, u64>(alloc, left, right),
    }
}

/// The comparison of each row.
fn compare_rows<P: Comparison>(
    alloc: Global,
    left: &Operand<'_>,
    right: &Operand<'_>,
) -> Option<Column>
    requires { length (operand_column left.now).rows ≡ length (operand_column right.now).rows }
    ensures { IfSome result
        (HasComparisonRows P.operator (operand_column left.now) (operand_column right.now)) }
{
    let bits = hold::<P>(alloc, left, right)?;
    let validity = both_valid_in(alloc, left, right)?;
    Column::try_bool(alloc, bits, validity).ok()
}

/// The comparison of two operands row by row, where the left one is of integers, or of what they
/// stand for, and not constant; the operator is chosen before the rows. None for others, and where
/// memory is refused.
fn compare_beside(
    alloc: Global,
    operator: CompareOperator,
    left: &Operand<'_>,
    right: &Operand<'_>,
) -> Option<Column>
    requires { length (operand_column left.now).rows ≡ length (operand_column right.now).rows }
    ensures { IfSome result
        (HasComparisonRows operator (operand_column left.now) (operand_column right.now)) }
{
    match operator {
        CompareOperator::Eq => compare_rows::<IsEqual>(alloc, left, right),
        CompareOperator::NotEq => compare_rows::<IsNotEqual>(alloc, left, right),
        CompareOperator::Gt => compare_rows::<IsGreater>(alloc, left, right),
        CompareOperator::Gte => compare_rows::<IsGreaterOrEqual>(alloc, left, right),
        CompareOperator::Lt => compare_rows::<IsLess>(alloc, left, right),
        CompareOperator::Lte => compare_rows::<IsLessOrEqual>(alloc, left, right),
    }
}

/// Whether an operand has one value in each row.
fn is_one(operand: &Operand<'_>) -> bool {
    match operand {
        Operand::Lent(_) => false,
        Operand::Made(column) => column.as_constant().is_some(),
    }
}

/// The comparison of two operands row by row, of integers or of what they stand for, of which one at
/// most is constant: with a constant on the left by the swapped operator. None for others, and where
/// memory is refused.
pub(crate) fn compare_operands(
    alloc: Global,
    operator: CompareOperator,
    left: &Operand<'_>,
    right: &Operand<'_>,
) -> Option<Column>
    requires { length (operand_column left.now).rows ≡ length (operand_column right.now).rows }
    ensures { IfSome result
        (HasComparisonRows operator (operand_column left.now) (operand_column right.now)) }
{
    if is_one(left) {
        compare_beside(alloc, operator.swap(), right, left)
    } else {
        compare_beside(alloc, operator, left, right)
    }
}
