//! Operands between two bounds.
ghost use Rattle.std.specs.Prelude.{◌≡◌, ◌≤◌, ◌∷◌, [], MatchResult};
ghost use Rattle.vortex_interface.specs.Shipped.{Between};
ghost use Rattle.vortex_functions.specs.Words.{AnswersBinding, ours};
ghost use Rattle.vortex_lowering.specs.Operands.{bounds_scale};
ghost use Rattle.vortex_lowering.specs.Rows.{lowered};
ghost use Rattle.vortex_lowering.specs.Bounding.{IsBounded, RefusesBounds};

use crate::comparing::check_pair;
use crate::lengthen::at_scale;
use crate::operand::Lowered;
use crate::refusal::Refusal;
use crate::scale::{common_scale, scale_of};
use std::alloc::Global;
use vortex_columns::VortexResult;
use vortex_functions::{BoundExpression, ScalarFnRef};
use vortex_interface::ScalarFnVTable;
use vortex_logical::decimals::rescaling_orders;
use vortex_logical::laws::stored_values_are_ordered;
use vortex_logical::operand::Operand;
use vortex_operators::BetweenOptions;

/// The largest of three scales.
fn bounds_scale(item: &Operand, lower: &Operand, upper: &Operand) -> u32
    ensures value { result ≡ bounds_scale item.now lower.now upper.now }
    ensures few { result ≤ 18 }
{
    common_scale(lower, item).max(scale_of(upper))
}

/// The call on three trees.
fn bounded<C: ScalarFnVTable>(
    alloc: Global,
    options: BetweenOptions,
    item: BoundExpression<C>,
    lower: BoundExpression<C>,
    upper: BoundExpression<C>,
) -> VortexResult<BoundExpression<C>>
    ensures { AnswersBinding C.meaning (ours (Between options)) (item ∷ lower ∷ upper ∷ []) result }
{
    BoundExpression::try_new(
        alloc,
        ScalarFnRef::Between(options),
        vec![in alloc; item, lower, upper]?,
    )
}

/// Whether an operand is between two bounds, each compared with it as `compare` does, all three at
/// the largest of their scales.
pub fn between<C: ScalarFnVTable>(
    alloc: Global,
    options: BetweenOptions,
    item: Lowered<C>,
    lower: Lowered<C>,
    upper: Lowered<C>,
) -> Result<BoundExpression<C>, Refusal>
    ensures { MatchResult result
        (IsBounded C.meaning options (lowered item.tree item.operand)
        (lowered lower.tree lower.operand) (lowered upper.tree upper.operand))
        (RefusesBounds C.meaning options (lowered item.tree item.operand)
        (lowered lower.tree lower.operand) (lowered upper.tree upper.operand)) }
{
    check_pair(lower.operand, item.operand)?;
    check_pair(item.operand, upper.operand)?;
    stored_values_are_ordered();
    rescaling_orders();
    let scale = bounds_scale(&item.operand, &lower.operand, &upper.operand);
    let item = at_scale(alloc, scale, item)?;
    let lower = at_scale(alloc, scale, lower)?;
    let upper = at_scale(alloc, scale, upper)?;
    Ok(bounded(alloc, options, item, lower, upper)?)
}
