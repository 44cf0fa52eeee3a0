//! A column of Bool that is kept by its runs.
ghost use Rattle.std.specs.Prelude.{◌≡◌, ◌<◌, ◌&&◌, false, length, true, MatchOption};
ghost use Rattle.caller_functions.specs.Words.{AnswersUnlessMemory, HasBooleanRows, alike_types};
ghost use Rattle.caller_functions.specs.Words.{HasComparisonRows, IsConstantOfScalar, are_bools};
ghost use Rattle.caller_functions.specs.Words.{constant_column};
ghost use Rattle.caller_functions.specs.Words.{is_bool_type, is_boolean, is_null_constant};
ghost use Rattle.caller_functions.specs.Words.{is_value_constant, run_column};

use crate::runs::bool_runs;
use vortex_arrays::{BooleanKernel, CompareKernel, EncodedColumn};
use vortex_columns::{Column, DType, ExecutionCtx, Scalar, VortexError, VortexResult};
use vortex_kernels::{CompareOperator, Operator, execute_boolean, execute_compare};

/// A column of Bool by its runs: the value of each, the row in which each but the first begins, and
/// how many rows there are. Its kernels answer beside constants: And and Or beside null,
/// comparisons beside any other value.
#[derive(Drop)]
pub struct RunLength {
    values: Box<Column>,
    starts: Vec<usize>,
    len: usize,
    ghost within: { length starts.items < length values.value.rows },
    ghost bool: { is_bool_type values.value.dtype ≡ true },
}

impl RunLength {
    /// E12 for fewer values than runs, and for values that are not Bool.
    pub fn try_new(values: Box<Column>, starts: Vec<usize>, len: usize) -> VortexResult<RunLength> {
        if starts.len() >= values.len() {
            return Err(VortexError::InvalidColumn);
        }
        if !values.dtype().is_boolean() {
            return Err(VortexError::InvalidColumn);
        }
        Ok(RunLength {
            values,
            starts,
            len,
        })
    }
}

impl EncodedColumn for RunLength {
    ghost column = { λ a. run_column a.values.value a.starts.items a.len };

    fn dtype(&self) -> &DType {
        self.values.dtype()
    }

    fn len(&self) -> usize {
        self.len
    }

    fn decode(&self, ctx: &mut ExecutionCtx) -> VortexResult<Column> {
        bool_runs(ctx.alloc(), &*self.values, self.starts.as_slice(), self.len)
    }
}

/// The scalar of a constant column, if its value is null.
fn null_of(column: &Column) -> Option<&Scalar>
    ensures { MatchOption result (is_null_constant column.now ≡ false)
        (λ s. (is_null_constant column.now ≡ true) × IsConstantOfScalar column.now s.now) }
{
    let scalar = column.as_constant()?;
    if scalar.is_null() { Some(scalar) } else { None }
}

/// The scalar of a constant column, if its value is not null.
fn value_of(column: &Column) -> Option<&Scalar>
    ensures { MatchOption result (is_value_constant column.now ≡ false)
        (λ s. (is_value_constant column.now ≡ true) × IsConstantOfScalar column.now s.now) }
{
    let scalar = column.as_constant()?;
    if scalar.is_null() { None } else { Some(scalar) }
}

/// A scalar beside each run.
fn beside_runs(
    values: &Column,
    scalar: &Scalar,
    ctx: &mut ExecutionCtx,
) -> VortexResult<Box<Column>>
    ensures { AnswersUnlessMemory result
        (λ c. c.value ≡ constant_column scalar.now (length values.now.rows)) }
{
    let alloc = ctx.alloc();
    let column = Column::constant(alloc, scalar.try_clone(alloc)?, values.len())?;
    Ok(Box::new(alloc, column)?)
}

/// And or Or of the value of each run with a scalar.
fn boolean_runs(
    values: &Column,
    scalar: &Scalar,
    operator: Operator,
    ctx: &mut ExecutionCtx,
) -> VortexResult<Box<Column>>
    requires operator { is_boolean operator ≡ true }
    requires bool { is_bool_type values.now.dtype ≡ true }
    requires other { is_bool_type scalar.now.dtype ≡ true }
    ensures { AnswersUnlessMemory result
        (λ c. HasBooleanRows operator values.now
        (constant_column scalar.now (length values.now.rows)) c.value) }
{
    let beside = beside_runs(values, scalar, ctx)?;
    let runs = execute_boolean(values, &*beside, operator, ctx)?;
    Ok(Box::new(ctx.alloc(), runs)?)
}

/// The comparison of columns of one length and like types.
fn compare_alike(
    lhs: &Column,
    rhs: &Column,
    operator: CompareOperator,
    ctx: &mut ExecutionCtx,
) -> VortexResult<Column>
    requires alike { alike_types lhs.now.dtype rhs.now.dtype ≡ true }
    requires lengths { length lhs.now.rows ≡ length rhs.now.rows }
    ensures { AnswersUnlessMemory result (HasComparisonRows operator lhs.now rhs.now) }
{
    execute_compare(lhs, rhs, operator, ctx)
}

/// The comparison of the value of each run with a scalar.
fn compare_runs(
    values: &Column,
    scalar: &Scalar,
    operator: CompareOperator,
    ctx: &mut ExecutionCtx,
) -> VortexResult<Box<Column>>
    requires { alike_types values.now.dtype scalar.now.dtype ≡ true }
    ensures { AnswersUnlessMemory result
        (λ c. HasComparisonRows operator values.now
        (constant_column scalar.now (length values.now.rows)) c.value) }
{
    let beside = beside_runs(values, scalar, ctx)?;
    let runs = compare_alike(values, &*beside, operator, ctx)?;
    Ok(Box::new(ctx.alloc(), runs)?)
}

impl BooleanKernel for RunLength {
    ghost answers_boolean = { λ a rhs op. is_boolean op && is_null_constant rhs };

    fn boolean(
        &self,
        rhs: &Column,
        operator: Operator,
        ctx: &mut ExecutionCtx,
    ) -> VortexResult<Option<Column>> {
        if !operator.is_boolean() {
            return Ok(None);
        }
        match null_of(rhs) {
            None => Ok(None),
            Some(scalar) => {
                let runs = boolean_runs(&*self.values, scalar, operator, ctx)?;
                let starts = self.starts.as_slice();
                Ok(Some(bool_runs(ctx.alloc(), &*runs, starts, self.len)?))
            }
        }
    }
}

impl CompareKernel for RunLength {
    ghost answers_compare = { λ a rhs op. is_value_constant rhs };

    fn compare(
        &self,
        rhs: &Column,
        operator: CompareOperator,
        ctx: &mut ExecutionCtx,
    ) -> VortexResult<Option<Column>> {
        match value_of(rhs) {
            None => Ok(None),
            Some(scalar) => {
                let runs = compare_runs(&*self.values, scalar, operator, ctx)?;
                let starts = self.starts.as_slice();
                Ok(Some(bool_runs(ctx.alloc(), &*runs, starts, self.len)?))
            }
        }
    }
}
