//! Comparisons of operands.
ghost use Rattle.std.specs.Prelude.{MatchResult};
ghost use Rattle.vortex_lowering.specs.Rows.{lowered};
ghost use Rattle.vortex_lowering.specs.Comparing.{AreCompared, RefusesPair, IsCompared};
ghost use Rattle.vortex_lowering.specs.Comparing.{RefusesComparison};

use crate::lengthen::{at_scale, operated};
use crate::operand::Lowered;
use crate::refusal::Refusal;
use crate::scale::{are_shipped, common_scale};
use std::alloc::Global;
use vortex_functions::BoundExpression;
use vortex_interface::ScalarFnVTable;
use vortex_logical::common::common_operand;
use vortex_logical::decimals::rescaling_orders;
use vortex_logical::laws::stored_values_are_ordered;
use vortex_logical::operand::Operand;
use vortex_operators::{CompareOperator, Operator};

/// Nothing, if shipped functions compare the two.
pub(crate) fn check_pair(left: Operand, right: Operand) -> Result<(), Refusal>
    ensures { MatchResult result (λ _. AreCompared left right) (RefusesPair left right) }
{
    if common_operand(&left, &right).is_none() {
        return Err(Refusal::NoCommonKind(left, right));
    }
    if are_shipped(&left, &right) {
        Ok(())
    } else {
        Err(Refusal::NotShipped(left, right))
    }
}

/// The comparison of two operands, in the kind in which they meet. Two decimals, or a decimal and
/// a whole number, are compared as numbers: the one of the lesser scale is multiplied by a power
/// of ten, which is E7 in rows where 64 bits do not hold it, and a constant at once.
pub fn compare<C: ScalarFnVTable>(
    alloc: Global,
    operator: CompareOperator,
    left: Lowered<C>,
    right: Lowered<C>,
) -> Result<BoundExpression<C>, Refusal>
    ensures { MatchResult result
        (IsCompared C.meaning operator (lowered left.tree left.operand)
        (lowered right.tree right.operand))
        (RefusesComparison C.meaning operator (lowered left.tree left.operand)
        (lowered right.tree right.operand)) }
{
    check_pair(left.operand, right.operand)?;
    stored_values_are_ordered();
    rescaling_orders();
    let scale = common_scale(&left.operand, &right.operand);
    let left = at_scale(alloc, scale, left)?;
    let right = at_scale(alloc, scale, right)?;
    Ok(operated(alloc, Operator::from(operator), left, right)?)
}
