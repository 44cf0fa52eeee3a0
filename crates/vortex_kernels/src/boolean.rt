//! And, Or and Not by Kleene's tables.
ghost use Rattle.std.specs.Prelude.{◌≡◌, ◌<◌, ℕ, true, false, length, is_some};
ghost use Rattle.vortex_kernels.specs.Words.{Answers, AnswersUnlessMemory, is_bool_type};
ghost use Rattle.vortex_kernels.specs.Words.{is_boolean, not_value, HasNotRows, AnswersBoolean};
ghost use Rattle.vortex_kernels.specs.Words.{RefusesBoolean};
ghost use Rattle.vortex_kernels.specs.Words.{allows_null, validity_of, FitsRows, truth_at};
ghost use Rattle.vortex_kernels.specs.Words.{HaveTruths, HasKleeneRows, AnswersKleene};
ghost use Rattle.vortex_kernels.specs.Words.{RefusesOperator, FitsOperand, operand_truth};
ghost use Rattle.vortex_kernels.specs.Words.{KeepsConstant};

use crate::kleene::kleene_sides;
use crate::operators::Operator;
use crate::truths::{Operand, TruthRows, operand_of};
use crate::validity::same_valid;
use vortex_bits::{LeftNegated, zip_bits_with};
use vortex_columns::{
    BitBuffer, Column, DType, ExecutionCtx, MismatchPlace, Nullability, Scalar, ValidRows,
    Validity, VortexError, VortexResult,
};

/// And or Or of two Bool columns of equal length, row by row by Kleene's table, nullable if either
/// is.
///
/// E4 for another operator, then E3 Boolean for two columns that are not both of Bool.
pub fn execute_boolean(
    lhs: &Column,
    rhs: &Column,
    operator: Operator,
    ctx: &mut ExecutionCtx,
) -> VortexResult<Column>
    requires { length lhs.now.rows ≡ length rhs.now.rows }
    ensures { Answers result (AnswersBoolean operator lhs.now rhs.now)
        (RefusesBoolean operator lhs.now rhs.now) }
{
    if !operator.is_boolean() {
        return Err(VortexError::NotBooleanOperator(operator.as_text()));
    }
    if !lhs.dtype().is_boolean() || !rhs.dtype().is_boolean() {
        return Err(VortexError::TypeMismatch(MismatchPlace::Boolean));
    }
    let left = operand_of(lhs);
    let right = operand_of(rhs);
    let nullability = lhs.dtype().nullability() | rhs.dtype().nullability();
    kleene_sides(left, right, lhs.len(), operator, nullability, ctx)
}

/// Not of one scalar of Bool.
fn not_scalar(scalar: &Scalar) -> Scalar
    requires { is_bool_type scalar.now.dtype ≡ true }
    ensures { result ≡ record { dtype = scalar.now.dtype; value = not_value scalar.now.value } }
{
    let nullability = scalar.dtype().nullability();
    match scalar.as_bool_opt() {
        Some(value) => Scalar::bool(!value, nullability),
        None => Scalar::null(DType::Bool(nullability)),
    }
}

/// Not of a Bool column, row by row; a null stays null, a constant a constant, and the type is the
/// input's.
pub fn execute_not(input: &Column, ctx: &mut ExecutionCtx) -> VortexResult<Column>
    requires { is_bool_type input.now.dtype ≡ true }
    ensures rows { AnswersUnlessMemory result (HasNotRows input.now) }
    ensures constant { AnswersUnlessMemory result (KeepsConstant input.now) }
{
    match (input.as_constant(), input.bits()) {
        (Some(scalar), _) => Column::constant(ctx.alloc(), not_scalar(scalar), input.len()),
        (None, Some(bits)) => {
            let values = zip_bits_with::<LeftNegated>(ctx.alloc(), bits, false)?;
            let validity = same_valid(ctx.alloc(), input)?;
            Column::try_bool(ctx.alloc(), values, validity)
        }
        (None, None) => unreachable!(),
    }
}

/// And or Or of two lists of truth values row by row: bits, with the rows that are not null. A
/// column of Bool with the given nullability, which is `Nullable` unless no row on either side is
/// null.
///
/// E4 for another operator.
pub fn kleene_boolean_buffers(
    lhs: BitBuffer,
    lhs_validity: Validity,
    rhs: BitBuffer,
    rhs_validity: Validity,
    operator: Operator,
    nullability: Nullability,
    ctx: &mut ExecutionCtx,
) -> VortexResult<Column>
    requires lengths { length lhs ≡ length rhs }
    requires left { FitsRows (validity_of lhs_validity) (length lhs) }
    requires right { FitsRows (validity_of rhs_validity) (length rhs) }
    requires nulls { allows_null nullability ≡ false
        → HaveTruths lhs (validity_of lhs_validity) × HaveTruths rhs (validity_of rhs_validity) }
    ensures { Answers result
        (AnswersKleene operator (allows_null nullability) (length lhs)
        (truth_at lhs (validity_of lhs_validity)) (truth_at rhs (validity_of rhs_validity)))
        (RefusesOperator operator) }
{
    let left = Operand::Rows(TruthRows {
        bits: &lhs,
        valid: ValidRows::of(&lhs_validity),
    });
    let right = Operand::Rows(TruthRows {
        bits: &rhs,
        valid: ValidRows::of(&rhs_validity),
    });
    if operator.is_boolean() {
        kleene_sides(left, right, lhs.len(), operator, nullability, ctx)
    } else {
        Err(VortexError::NotBooleanOperator(operator.as_text()))
    }
}

/// And or Or of a list of truth values and one truth value or null, row by row. A column of Bool
/// with the given nullability, which is `Nullable` unless nothing on either side is null.
///
/// E4 for another operator.
pub fn kleene_boolean_buffer_scalar(
    lhs: BitBuffer,
    lhs_validity: Validity,
    rhs: Option<bool>,
    operator: Operator,
    nullability: Nullability,
    ctx: &mut ExecutionCtx,
) -> VortexResult<Column>
    requires left { FitsRows (validity_of lhs_validity) (length lhs) }
    requires nulls { allows_null nullability ≡ false
        → HaveTruths lhs (validity_of lhs_validity) × (is_some rhs ≡ true) }
    ensures { Answers result
        (AnswersKleene operator (allows_null nullability) (length lhs)
        (truth_at lhs (validity_of lhs_validity)) (λ i. rhs)) (RefusesOperator operator) }
{
    let left = Operand::Rows(TruthRows {
        bits: &lhs,
        valid: ValidRows::of(&lhs_validity),
    });
    let right = Operand::One(rhs);
    if operator.is_boolean() {
        kleene_sides(left, right, lhs.len(), operator, nullability, ctx)
    } else {
        Err(VortexError::NotBooleanOperator(operator.as_text()))
    }
}
