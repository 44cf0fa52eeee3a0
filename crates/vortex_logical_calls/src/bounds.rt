//! BETWEEN of operands.
ghost use Rattle.std.specs.Prelude.{◌≡◌};
ghost use Rattle.vortex_lowering.specs.Rows.{lowered};
ghost use Rattle.vortex_logical_calls.specs.Outcomes.{Makes};
ghost use Rattle.vortex_logical_calls.specs.Bounds as specs;

use crate::conversions::{conversion_by_two, converted};
use std::alloc::Global;
use vortex_functions::BoundExpression;
use vortex_lowering::{Lowered, Refusal};
use vortex_operators::BetweenOptions;
use vortex_standard::Standard;

/// BETWEEN of operands that have been brought together.
fn between_met(
    alloc: Global,
    options: BetweenOptions,
    item: Lowered<Standard>,
    lower: Lowered<Standard>,
    upper: Lowered<Standard>,
) -> Result<BoundExpression<Standard>, Refusal>
    ensures { Makes (λ t. t) result (specs.between_met options (lowered item.tree item.operand)
        (lowered lower.tree lower.operand) (lowered upper.tree upper.operand)) }
{
    vortex_lowering::between(alloc, options, item, lower, upper)
}

/// Whether an operand is between two bounds, each compared with it as `compare` does: if one of the
/// three is a float, all are compared as floats. Fails with `NoCommonKind` exactly if the kinds of
/// the operand and a bound do not meet.
pub fn between(
    alloc: Global,
    options: BetweenOptions,
    item: Lowered<Standard>,
    lower: Lowered<Standard>,
    upper: Lowered<Standard>,
) -> Result<BoundExpression<Standard>, Refusal>
    ensures { Makes (λ t. t) result (specs.between options (lowered item.tree item.operand)
        (lowered lower.tree lower.operand) (lowered upper.tree upper.operand)) }
{
    let (a, low, high) = (item.operand, lower.operand, upper.operand);
    let item = converted(alloc, conversion_by_two(&a, &low, &high), item)?;
    let lower = converted(alloc, conversion_by_two(&low, &a, &high), lower)?;
    let upper = converted(alloc, conversion_by_two(&high, &a, &low), upper)?;
    between_met(alloc, options, item, lower, upper)
}
