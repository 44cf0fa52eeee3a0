//! Null tests of an operand of any type: its validity is read, and no value.
ghost use Rattle.std.specs.Prelude.{IfSome};
ghost use Rattle.vortex_kernels.specs.Words.{AnswersUnlessMemory};
ghost use Rattle.vortex_kernels.specs.NullTests.{HasTests};
ghost use Rattle.vortex_interface.specs.Shipped.NullTestFunctions.{null_test_value};
ghost use Rattle.yurkije_lent.specs.Operands.{operand_column};

use crate::operand::Operand;
use crate::validity::nulls_of;
use vortex_columns::{Column, ExecutionCtx, VortexResult};
use vortex_kernels::{execute_is_not_null, execute_is_null};

/// The null test of a column, or, if negated, its opposite.
fn test_column(negated: bool, input: &Column, ctx: &mut ExecutionCtx) -> VortexResult<Column>
    ensures { AnswersUnlessMemory result (HasTests (null_test_value negated) input.now) }
{
    if negated {
        execute_is_not_null(input, ctx)
    } else {
        execute_is_null(input, ctx)
    }
}

/// Whether each row of an operand is null, or, if negated, whether it is not. None where memory is
/// refused.
pub(crate) fn test_nulls(
    negated: bool,
    operand: &Operand<'_>,
    ctx: &mut ExecutionCtx,
) -> Option<Column>
    ensures { IfSome result (HasTests (null_test_value negated) (operand_column operand.now)) }
{
    let nulls = nulls_of(ctx.alloc(), operand)?;
    test_column(negated, &nulls, ctx).ok()
}
