//! The column of calculated rows, unless one of them faults.
ghost use Rattle.std.specs.Prelude.{◌≡◌, length, map, Some};
ghost use Rattle.vortex_kernels.specs.Words.{Answers, integer_of_both};
ghost use Rattle.vortex_kernels.specs.Words.{AnswersNumeric, RefusesNumeric};
ghost use Rattle.vortex_kernels.specs.Words.{IsExactOf, row_results, AreNumbers};
ghost use Rattle.vortex_kernels.specs.Words.{AreResults, TellsFaults};

use crate::arithmetic_integer::ArithmeticInteger;
use crate::faults::faulty_row;
use crate::numbers::Numbers;
use crate::row_operation::RowOperation;
use vortex_columns::{
    Column, ExecutionCtx, NumericOperator, VortexError, VortexResult, both_valid,
};

/// The column of the values of rows, calculated even under nulls. `faulty` is whether any row may
/// fault; only then the faulting rows are searched.
pub(crate) fn numeric_column<
    T: ArithmeticInteger,
    O: RowOperation<T>,
    L: Numbers<T>,
    R: Numbers<T>,
>(
    calculated: (Vec<T>, bool),
    left: &L,
    right: &R,
    lhs: &Column,
    rhs: &Column,
    operator: NumericOperator,
    ctx: &mut ExecutionCtx,
) -> VortexResult<Column>
    requires types { integer_of_both lhs.now.dtype rhs.now.dtype ≡ Some T.ptype }
    requires lengths { length lhs.now.rows ≡ length rhs.now.rows }
    requires exact { IsExactOf operator O.exact }
    requires left { AreNumbers lhs.now (L.has_row left.now) (L.number_at left.now) }
    requires right { AreNumbers rhs.now (R.has_row right.now) (R.number_at right.now) }
    requires values { AreResults T.ptype
        (row_results O.exact (L.number_at left.now) (R.number_at right.now))
        (length lhs.now.rows) (map T.NativePType.number calculated.0.items) }
    requires fault { TellsFaults T.ptype
        (row_results O.exact (L.number_at left.now) (R.number_at right.now))
        (length lhs.now.rows) calculated.1 }
    ensures { Answers result (AnswersNumeric operator lhs.now rhs.now)
        (RefusesNumeric operator lhs.now rhs.now) }
{
    let (values, may_fault) = calculated;
    let validity = both_valid(ctx.alloc(), lhs, rhs)?;
    if may_fault
        && faulty_row::<T, O, L, R>(ctx.alloc(), left, right, lhs, rhs, &validity)?.is_some()
    {
        return Err(VortexError::Arithmetic(operator));
    }
    Column::try_primitive(ctx.alloc(), values, validity)
}
