//! Operands in the kind in which several meet.
ghost use Rattle.std.specs.Prelude.{◌≡◌, true, is_some};
ghost use Rattle.vortex_errors.specs.Answers.{Answers};
ghost use Rattle.vortex_functions.specs.Words.{tree_type};
ghost use Rattle.vortex_lowering.specs.Rows.{lowered};
ghost use Rattle.vortex_lowering.specs.Aligning.{IsAligned, RefusesAligning};

use crate::lengthen::at_scale;
use crate::operand::Lowered;
use crate::scale::scale_of;
use std::alloc::Global;
use vortex_columns::VortexResult;
use vortex_functions::BoundExpression;
use vortex_interface::ScalarFnVTable;
use vortex_logical::operand::Operand;

/// A tree has a type.
fn has_type<C: ScalarFnVTable>(tree: &BoundExpression<C>)
    ensures { is_some (tree_type C.meaning tree.now) ≡ true }
{
    tree.dtype();
}

/// The tree of an operand with the digits after the point of the kind in which several meet, as
/// `compare` makes it of two. E7 in rows where 64 bits do not hold it, and a constant at once.
pub fn align<C: ScalarFnVTable>(
    alloc: Global,
    common: &Operand,
    item: Lowered<C>,
) -> VortexResult<BoundExpression<C>>
    ensures { Answers result (IsAligned C.meaning common.now (lowered item.tree item.operand))
        (RefusesAligning C.meaning common.now (lowered item.tree item.operand)) }
{
    let tree = at_scale(alloc, scale_of(common), item)?;
    has_type(&tree);
    Ok(tree)
}
