//! And, Or and comparisons of a dictionary and a constant column, over the values.
ghost use Rattle.std.specs.Prelude.{◌≡◌, length, true};
ghost use Rattle.vortex_arrays.specs.Words.{AnswersUnlessMemory, HasBooleanRows};
ghost use Rattle.vortex_arrays.specs.Words.{HasComparisonRows, alike_types, combines_beside};
ghost use Rattle.vortex_arrays.specs.Words.{compares_beside, constant_column, is_bool_type};
ghost use Rattle.vortex_arrays.specs.Words.{is_boolean};

use crate::boolean::BooleanKernel;
use crate::compare::CompareKernel;
use crate::dictionary::DictColumn;
use vortex_columns::{Column, ExecutionCtx, Scalar, VortexResult};
use vortex_kernels::{CompareOperator, Operator, execute_boolean, execute_compare};

/// Each value with one scalar.
fn beside(values: &Column, scalar: &Scalar, ctx: &mut ExecutionCtx) -> VortexResult<Box<Column>>
    ensures { AnswersUnlessMemory result
        (λ c. c.value ≡ constant_column scalar.now (length values.now.rows)) }
{
    let alloc = ctx.alloc();
    let column = Column::constant(alloc, scalar.try_clone(alloc)?, values.len())?;
    Ok(Box::new(alloc, column)?)
}

/// And or Or of each value with a scalar.
fn boolean_values(
    values: &Column,
    scalar: &Scalar,
    operator: Operator,
    ctx: &mut ExecutionCtx,
) -> VortexResult<Box<Column>>
    requires operator { is_boolean operator ≡ true }
    requires bool { is_bool_type values.now.dtype ≡ true }
    requires other { is_bool_type scalar.now.dtype ≡ true }
    ensures { AnswersUnlessMemory result
        (λ c. HasBooleanRows operator values.now
        (constant_column scalar.now (length values.now.rows)) c.value) }
{
    let other = beside(values, scalar, ctx)?;
    let answer = execute_boolean(values, &*other, operator, ctx)?;
    Ok(Box::new(ctx.alloc(), answer)?)
}

/// The comparison of columns of one length and like types.
fn compare_alike(
    lhs: &Column,
    rhs: &Column,
    operator: CompareOperator,
    ctx: &mut ExecutionCtx,
) -> VortexResult<Column>
    requires alike { alike_types lhs.now.dtype rhs.now.dtype ≡ true }
    requires lengths { length lhs.now.rows ≡ length rhs.now.rows }
    ensures { AnswersUnlessMemory result (HasComparisonRows operator lhs.now rhs.now) }
{
    execute_compare(lhs, rhs, operator, ctx)
}

/// The comparison of each value with a scalar of a like type.
fn compare_values(
    values: &Column,
    scalar: &Scalar,
    operator: CompareOperator,
    ctx: &mut ExecutionCtx,
) -> VortexResult<Box<Column>>
    requires { alike_types values.now.dtype scalar.now.dtype ≡ true }
    ensures { AnswersUnlessMemory result
        (λ c. HasComparisonRows operator values.now
        (constant_column scalar.now (length values.now.rows)) c.value) }
{
    let other = beside(values, scalar, ctx)?;
    let answer = compare_alike(values, &*other, operator, ctx)?;
    Ok(Box::new(ctx.alloc(), answer)?)
}

impl BooleanKernel for DictColumn {
    ghost answers_boolean = { λ d rhs op. combines_beside rhs op };

    fn boolean(
        &self,
        rhs: &Column,
        operator: Operator,
        ctx: &mut ExecutionCtx,
    ) -> VortexResult<Option<Column>> {
        if !operator.is_boolean() {
            return Ok(None);
        }
        match rhs.as_constant() {
            None => Ok(None),
            Some(scalar) => {
                let values = boolean_values(self.values(), scalar, operator, ctx)?;
                Ok(Some(values.take(self.codes(), ctx)?))
            }
        }
    }
}

impl CompareKernel for DictColumn {
    ghost answers_compare = { λ d rhs op. compares_beside rhs op };

    fn compare(
        &self,
        rhs: &Column,
        operator: CompareOperator,
        ctx: &mut ExecutionCtx,
    ) -> VortexResult<Option<Column>> {
        match rhs.as_constant() {
            None => Ok(None),
            Some(scalar) => {
                let values = compare_values(self.values(), scalar, operator, ctx)?;
                Ok(Some(values.take(self.codes(), ctx)?))
            }
        }
    }
}
