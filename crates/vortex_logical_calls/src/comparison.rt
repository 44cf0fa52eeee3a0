//! Comparisons of operands.
ghost use Rattle.std.specs.Prelude.{◌≡◌};
ghost use Rattle.vortex_lowering.specs.Rows.{lowered};
ghost use Rattle.vortex_logical_calls.specs.Outcomes.{Makes};
ghost use Rattle.vortex_logical_calls.specs.Comparison as specs;

use crate::conversions::{conversion_beside, converted};
use std::alloc::Global;
use vortex_functions::BoundExpression;
use vortex_lowering::{Lowered, Refusal};
use vortex_operators::CompareOperator;
use vortex_standard::Standard;

/// The comparison of operands that have been brought together.
fn compare_met(
    alloc: Global,
    operator: CompareOperator,
    left: Lowered<Standard>,
    right: Lowered<Standard>,
) -> Result<BoundExpression<Standard>, Refusal>
    ensures { Makes (λ t. t) result (specs.compare_met operator
        (lowered left.tree left.operand) (lowered right.tree right.operand)) }
{
    vortex_lowering::compare(alloc, operator, left, right)
}

/// The comparison of two operands. A number next to a float is compared as a float, the nearest
/// one. A decimal and a whole number, or two decimals, are compared as numbers, and E7 in rows where
/// 64 bits do not hold one of them at the larger scale. Fails with `NoCommonKind` exactly if the
/// kinds do not meet, as a date and a number.
pub fn compare(
    alloc: Global,
    operator: CompareOperator,
    left: Lowered<Standard>,
    right: Lowered<Standard>,
) -> Result<BoundExpression<Standard>, Refusal>
    ensures { Makes (λ t. t) result (specs.compared operator
        (lowered left.tree left.operand) (lowered right.tree right.operand)) }
{
    let of_left = conversion_beside(&left.operand, &right.operand);
    let of_right = conversion_beside(&right.operand, &left.operand);
    let left = converted(alloc, of_left, left)?;
    let right = converted(alloc, of_right, right)?;
    compare_met(alloc, operator, left, right)
}
