//! Several operands in the kind in which they meet.
ghost use Rattle.std.specs.Prelude.{◌≡◌};
ghost use Rattle.vortex_lowering.specs.Rows.{lowered};
ghost use Rattle.vortex_logical_calls.specs.Outcomes.{Makes};
ghost use Rattle.vortex_logical_calls.specs.Alignment as specs;

use crate::conversions::{conversion_beside, converted};
use std::alloc::Global;
use vortex_functions::BoundExpression;
use vortex_logical::common::common_operand;
use vortex_logical::operand::Operand;
use vortex_lowering::{Lowered, Refusal};
use vortex_standard::Standard;

/// The kind in which operands that meet in a kind and one more meet, as `compare` compares two: the
/// larger scale of decimals, and floats where one is a float. Fails with `NoCommonKind` exactly if
/// there is none.
pub fn meet_next(found: Operand, operand: &Operand) -> Result<Operand, Refusal>
    ensures { Makes (λ a. a) result (specs.meet_next found operand.now) }
{
    match common_operand(&found, operand) {
        Some(common) => Ok(common),
        None => Err(Refusal::NoCommonKind(found, *operand)),
    }
}

/// The stored integers with the digits after the point of the common kind.
fn lengthened(
    alloc: Global,
    common: &Operand,
    item: Lowered<Standard>,
) -> Result<BoundExpression<Standard>, Refusal>
    ensures { Makes (λ t. t) result
        (specs.lengthened common.now (lowered item.tree item.operand)) }
{
    match vortex_lowering::align(alloc, common, item) {
        Ok(tree) => Ok(tree),
        Err(error) => Err(Refusal::Binding(error)),
    }
}

/// An operand in the kind in which several meet, as stored integers whose order is that of what they
/// mean: a number next to a float as the nearest float, and a decimal or a whole number next to a
/// decimal with its digits after the point, E7 in rows where 64 bits do not hold it.
pub fn align(
    alloc: Global,
    common: &Operand,
    item: Lowered<Standard>,
) -> Result<BoundExpression<Standard>, Refusal>
    ensures { Makes (λ t. t) result (specs.aligned common.now (lowered item.tree item.operand)) }
{
    let conversion = conversion_beside(&item.operand, common);
    let item = converted(alloc, conversion, item)?;
    lengthened(alloc, common, item)
}
