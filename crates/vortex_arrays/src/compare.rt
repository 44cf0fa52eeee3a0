//! Comparisons of an encoded column and another one.
ghost use Rattle.std.specs.Prelude.{◌≡◌, Bool, IsTrue, is_some, length, true};
ghost use Rattle.vortex_arrays.specs.Words.{AnswersCompare, AnswersComparison, ColumnView};
ghost use Rattle.vortex_arrays.specs.Words.{AnswersUnlessMemory, CompareOperator, GivesWhere};
ghost use Rattle.vortex_arrays.specs.Words.{HasComparisonRows, IsConstantOf, alike_types};
ghost use Rattle.vortex_arrays.specs.Words.{are_accepted, asked, compare_answers};
ghost use Rattle.vortex_arrays.specs.Words.{compare_operator_of};
ghost use Rattle.vortex_arrays.specs.Words.{is_null_constant, is_settled_beside, null};

use crate::encoded::EncodedColumn;
use vortex_columns::{Column, DType, ExecutionCtx, Scalar, VortexResult};
use vortex_kernels::{CompareOperator, Operator};

/// An encoded column that may compute comparisons with another column without being decoded.
pub trait CompareKernel: EncodedColumn {
    /// Whether it can compute that comparison with that column. Specified only by the kernel's own
    /// contract.
    ghost answers_compare: { Self → ColumnView → CompareOperator → Bool };

    /// The comparison of its rows, on the left, with those of `rhs`, as `execute_compare` returns
    /// it over the decoded column, exactly if `answers_compare`, else None. E9 where an allocation
    /// fails.
    fn compare(
        &self,
        rhs: &Column,
        operator: CompareOperator,
        ctx: &mut ExecutionCtx,
    ) -> VortexResult<Option<Column>>
        requires alike { alike_types (Self.column self.now).dtype rhs.now.dtype ≡ true }
        requires lengths { length (Self.column self.now).rows ≡ length rhs.now.rows }
        ensures { AnswersUnlessMemory result
            (GivesWhere (answers_compare self.now rhs.now operator)
            (AnswersCompare operator (Self.column self.now) rhs.now)) };
}

/// Whether the column is a constant null, also over no rows.
fn is_null_constant(column: &Column) -> bool
    ensures says { result ≡ is_null_constant column.now }
    ensures nulls { IsTrue result → IsConstantOf null column.now }
{
    match column.as_constant() {
        Some(scalar) => scalar.is_null(),
        None => false,
    }
}

/// The result of any comparison that is decided without the encoded column's rows: there are none,
/// or the other side is a null constant.
fn settled<V: EncodedColumn>(
    array: &V,
    other: &Column,
    ctx: &mut ExecutionCtx,
) -> VortexResult<Option<Column>>
    requires { length (V.column array.now).rows ≡ length other.now.rows }
    ensures { AnswersUnlessMemory result
        (GivesWhere (is_settled_beside other.now) (λ c. (op : CompareOperator)
        → HasComparisonRows op (V.column array.now) other.now c)) }
{
    let nullability = array.dtype().nullability() | other.dtype().nullability();
    if other.len() == 0 {
        let scalar = Scalar::bool(false, nullability);
        return Ok(Some(Column::constant(ctx.alloc(), scalar, 0)?));
    }
    if is_null_constant(other) {
        let scalar = Scalar::null(DType::Bool(nullability));
        return Ok(Some(Column::constant(ctx.alloc(), scalar, other.len())?));
    }
    Ok(None)
}

/// The comparison for the kernel, whose column is on the left.
fn asked(operator: CompareOperator, child_idx: usize) -> CompareOperator
    ensures { result ≡ asked child_idx operator }
{
    if child_idx == 0 {
        operator
    } else {
        operator.swap()
    }
}

/// Uses a `CompareKernel` if an encoded column is a child of a call.
#[derive(Debug, Default, Drop)]
pub struct CompareExecuteAdaptor<V>(pub V);

impl<V: CompareKernel> CompareExecuteAdaptor<V> {
    /// The comparison whose child of that index is the encoded column and whose other child is
    /// `other`, as `execute_compare` returns it over the decoded column.
    ///
    /// None for any other operator and for an index above 1. Over no rows, and for a null constant,
    /// the kernel is not used, whatever the types; else it is, with the swapped comparison if the
    /// encoded column is on the right. E9 where an allocation fails.
    pub fn execute_parent(
        &self,
        array: &V,
        op: Operator,
        other: &Column,
        child_idx: usize,
        ctx: &mut ExecutionCtx,
    ) -> VortexResult<Option<Column>>
        requires accepted { is_some (compare_operator_of op) ≡ true
            → are_accepted (V.column array.now) other.now ≡ true }
        requires lengths { length (V.column array.now).rows ≡ length other.now.rows }
        ensures { AnswersUnlessMemory result
            (GivesWhere (compare_answers (V.answers_compare array.now) op other.now child_idx)
            (AnswersComparison op child_idx (V.column array.now) other.now)) }
    {
        let Some(operator) = op.to_compare_operator() else {
            return Ok(None);
        };
        if child_idx > 1 {
            return Ok(None);
        }
        if let Some(column) = settled(array, other, ctx)? {
            return Ok(Some(column));
        }
        array.compare(other, asked(operator, child_idx), ctx)
    }
}
