//! And and Or of an encoded column and another one.
ghost use Rattle.std.specs.Prelude.{◌≡◌, ◌<◌, ℕ, Bool, false, length, true, MatchOption};
ghost use Rattle.vortex_arrays.specs.Words.{AnswersUnlessMemory, AnswersBoolean, ColumnView};
ghost use Rattle.vortex_arrays.specs.Words.{GivesWhere, HasBooleanRows, HasRowsAs, InOrder};
ghost use Rattle.vortex_arrays.specs.Words.{IsConstantOf, Operator, allows_null, are_bools};
ghost use Rattle.vortex_arrays.specs.Words.{boolean_answers, is_bool_type, is_boolean};
ghost use Rattle.vortex_arrays.specs.Words.{is_nullable, is_value_constant, truth};

use crate::encoded::EncodedColumn;
use vortex_columns::{Column, ExecutionCtx, Nullability, Scalar, VortexResult};
use vortex_kernels::{Operator, execute_cast};

/// An encoded column that may compute And and Or with another column without being decoded.
pub trait BooleanKernel: EncodedColumn {
    /// Whether it can compute that operator with that column. Specified only by the kernel's own
    /// contract.
    ghost answers_boolean: { Self → ColumnView → Operator → Bool };

    /// The operator over its rows, on the left, and those of `rhs`, as `execute_boolean` returns it
    /// over the decoded column, exactly if `answers_boolean`, else None. E9 where an allocation
    /// fails.
    ///
    /// Any operator may be passed; for And and Or both columns are of Bool.
    fn boolean(
        &self,
        rhs: &Column,
        operator: Operator,
        ctx: &mut ExecutionCtx,
    ) -> VortexResult<Option<Column>>
        requires bools { is_boolean operator ≡ true
            → are_bools (Self.column self.now) rhs.now ≡ true }
        requires lengths { length (Self.column self.now).rows ≡ length rhs.now.rows }
        ensures { AnswersUnlessMemory result
            (GivesWhere (answers_boolean self.now rhs.now operator)
            (AnswersBoolean operator (Self.column self.now) rhs.now)) };
}

/// The truth value of a constant column of Bool that is not null.
fn constant_truth(column: &Column) -> Option<bool>
    requires { is_bool_type column.now.dtype ≡ true }
    ensures { MatchOption result (is_value_constant column.now ≡ false)
        (λ value. (is_value_constant column.now ≡ true) × IsConstantOf (truth value) column.now) }
{
    let scalar = column.as_constant()?;
    // so that its value is known to have its type
    let _ = scalar.dtype();
    scalar.as_bool_opt()
}

/// The rows of a column of Bool, nullable or not.
fn with_nullability(
    column: Column,
    nullability: Nullability,
    ctx: &mut ExecutionCtx,
) -> VortexResult<Column>
    requires bool { is_bool_type column.dtype ≡ true }
    requires nulls { is_nullable column.dtype ≡ true → allows_null nullability ≡ true }
    ensures { AnswersUnlessMemory result (HasRowsAs (allows_null nullability) column) }
{
    if column.dtype().is_nullable() == nullability.is_nullable() {
        Ok(column)
    } else {
        execute_cast(&column, ctx)
    }
}

/// And or Or of an encoded column and one truth value in each row. If that decides, nothing is
/// decoded.
fn beside_truth<V: EncodedColumn>(
    array: &V,
    operator: Operator,
    other: &Column,
    value: bool,
    ctx: &mut ExecutionCtx,
) -> VortexResult<Column>
    requires operator { is_boolean operator ≡ true }
    requires bools { are_bools (V.column array.now) other.now ≡ true }
    requires lengths { length (V.column array.now).rows ≡ length other.now.rows }
    requires constant { IsConstantOf (truth value) other.now }
    ensures { AnswersUnlessMemory result (HasBooleanRows operator (V.column array.now) other.now) }
{
    let nullability = array.dtype().nullability() | other.dtype().nullability();
    if operator.is_decided_by(value) {
        let scalar = Scalar::bool(value, nullability);
        return Column::constant(ctx.alloc(), scalar, array.len());
    }
    let decoded = array.decode(ctx)?;
    // so that its rows are known to have its type
    let _ = decoded.dtype();
    with_nullability(decoded, nullability, ctx)
}

/// Uses a `BooleanKernel` if an encoded column is a child of a call.
#[derive(Debug, Default, Drop)]
pub struct BooleanExecuteAdaptor<V>(pub V);

impl<V: BooleanKernel> BooleanExecuteAdaptor<V> {
    /// The call of And or Or whose child of that index is the encoded column and whose other child
    /// is `other`, as `execute_boolean` returns it over the decoded column.
    ///
    /// None for any other operator and for an index above 1. For a constant that is not null the
    /// kernel is not used, and if that decides nothing is decoded; for any other column, and a null
    /// constant, the kernel is used. E9 where an allocation fails.
    pub fn execute_parent(
        &self,
        array: &V,
        op: Operator,
        other: &Column,
        child_idx: usize,
        ctx: &mut ExecutionCtx,
    ) -> VortexResult<Option<Column>>
        requires bools { is_boolean op ≡ true → are_bools (V.column array.now) other.now ≡ true }
        requires lengths { length (V.column array.now).rows ≡ length other.now.rows }
        ensures { AnswersUnlessMemory result
            (GivesWhere (boolean_answers (V.answers_boolean array.now) op other.now child_idx)
            (InOrder child_idx (AnswersBoolean op) (V.column array.now) other.now)) }
    {
        if !op.is_boolean() || child_idx > 1 {
            return Ok(None);
        }
        match constant_truth(other) {
            Some(value) => Ok(Some(beside_truth(array, op, other, value, ctx)?)),
            None => array.boolean(other, op, ctx),
        }
    }
}
