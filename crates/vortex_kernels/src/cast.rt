//! Cast of Bool to nullable Bool.
ghost use Rattle.std.specs.Prelude.{◌≡◌, true};
ghost use Rattle.vortex_kernels.specs.Words.{AnswersUnlessMemory, is_bool_type, bool_type};
ghost use Rattle.vortex_kernels.specs.Words.{HasCastRows, KeepsConstant};

use crate::validity::nullable_valid;
use vortex_columns::{Column, DType, ExecutionCtx, Nullability, Scalar, VortexResult};

/// The same value as nullable Bool.
fn cast_scalar(scalar: &Scalar) -> Scalar
    requires { is_bool_type scalar.now.dtype ≡ true }
    ensures { result ≡ record { dtype = bool_type true; value = scalar.now.value } }
{
    // so that its value is known to have its type
    let _ = scalar.dtype();
    match scalar.as_bool_opt() {
        Some(value) => Scalar::bool(value, Nullability::Nullable),
        None => Scalar::null(DType::Bool(Nullability::Nullable)),
    }
}

/// The rows of a Bool column, as nullable Bool; a constant stays constant.
pub fn execute_cast(input: &Column, ctx: &mut ExecutionCtx) -> VortexResult<Column>
    requires { is_bool_type input.now.dtype ≡ true }
    ensures rows { AnswersUnlessMemory result (HasCastRows input.now) }
    ensures constant { AnswersUnlessMemory result (KeepsConstant input.now) }
{
    match (input.as_constant(), input.bits()) {
        (Some(scalar), _) => Column::constant(ctx.alloc(), cast_scalar(scalar), input.len()),
        (None, Some(bits)) => {
            let values = bits.try_clone(ctx.alloc())?;
            let validity = nullable_valid(ctx.alloc(), input)?;
            Column::try_bool(ctx.alloc(), values, validity)
        }
        (None, None) => unreachable!(),
    }
}
