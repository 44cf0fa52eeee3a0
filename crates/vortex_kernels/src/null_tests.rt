//! Which rows of a column are null or not, as truth values. Reads only the validity.
ghost use Rattle.std.specs.Prelude.{length, slice_index_or, false, IsSome};
ghost use Rattle.vortex_kernels.specs.Words.{AnswersUnlessMemory, HasTruths, HasNullTests};
ghost use Rattle.vortex_kernels.specs.Words.{HasNotNullTests, IsConstantUnlessListed};

use std::alloc::Global;
use vortex_bits::{LeftNegated, zip_bits_with};
use vortex_columns::{
    BitBuffer, Column, ExecutionCtx, Nullability, Scalar, ValidRows, Validity, VortexResult,
};

/// One truth value in each of `len` rows: a constant.
fn one_truth(alloc: Global, truth: bool, len: usize) -> VortexResult<Column>
    ensures rows { AnswersUnlessMemory result (HasTruths len (λ i. truth)) }
    ensures constant { AnswersUnlessMemory result (λ c. IsSome c.constant) }
{
    let scalar = Scalar::bool(truth, Nullability::NonNullable);
    Column::constant(alloc, scalar, len)
}

/// A truth value for each bit.
fn listed_truths(alloc: Global, bits: BitBuffer) -> VortexResult<Column>
    ensures { AnswersUnlessMemory result
        (HasTruths (length bits) (λ i. slice_index_or bits i false)) }
{
    Column::try_bool(alloc, bits, Validity::NonNullable)
}

/// Whether each row is null, as non-nullable Bool. A constant unless nulls are a list of bits.
pub fn execute_is_null(input: &Column, ctx: &mut ExecutionCtx) -> VortexResult<Column>
    ensures rows { AnswersUnlessMemory result (HasNullTests input.now) }
    ensures constant { AnswersUnlessMemory result (IsConstantUnlessListed input.now) }
{
    let alloc = ctx.alloc();
    match input.valid_rows() {
        ValidRows::Every => one_truth(alloc, false, input.len()),
        ValidRows::No => one_truth(alloc, true, input.len()),
        ValidRows::Listed(valid) => {
            let nulls = zip_bits_with::<LeftNegated>(alloc, valid, false)?;
            listed_truths(alloc, nulls)
        }
    }
}

/// Whether each row is not null, as non-nullable Bool. A constant unless nulls are a list of bits.
pub fn execute_is_not_null(input: &Column, ctx: &mut ExecutionCtx) -> VortexResult<Column>
    ensures rows { AnswersUnlessMemory result (HasNotNullTests input.now) }
    ensures constant { AnswersUnlessMemory result (IsConstantUnlessListed input.now) }
{
    let alloc = ctx.alloc();
    match input.valid_rows() {
        ValidRows::Every => one_truth(alloc, true, input.len()),
        ValidRows::No => one_truth(alloc, false, input.len()),
        ValidRows::Listed(valid) => listed_truths(alloc, valid.try_clone(alloc)?),
    }
}
