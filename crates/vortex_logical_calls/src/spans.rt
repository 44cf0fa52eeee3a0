//! Lengths of time in microseconds, which each row may have another of, and the dates and timestamps
//! that they move.
ghost use Rattle.std.specs.Prelude.{◌≡◌};
ghost use Rattle.vortex_lowering.specs.Rows.{lowered};
ghost use Rattle.vortex_logical_calls.specs.Outcomes.{Makes};
ghost use Rattle.vortex_logical_calls.specs.Spans as specs;

use crate::call::call_on;
use crate::conversions::{as_instant, as_integer};
use crate::intervals::operator_of;
use std::alloc::Global;
use vortex_columns::{PType, VortexError};
use vortex_functions::{BoundExpression, ScalarFnRef};
use vortex_logical::kind::Kind;
use vortex_logical::operand::Operand;
use vortex_lowering::{Lowered, Refusal};
use vortex_standard::Standard;
use vortex_types::NumericOperator;

/// A whole number, which says how many times, in 64 bits; the fault `OutOfRange` in rows whose number
/// they do not hold. Fails with `NoCommonKind` exactly for what is no whole number.
pub fn counted(alloc: Global, item: Lowered<Standard>) -> Result<Lowered<Standard>, Refusal>
    ensures { Makes (λ x. lowered x.tree x.operand) result
        (specs.counted (lowered item.tree item.operand)) }
{
    let Lowered { tree, operand } = item;
    match operand {
        Operand::Whole(_) => as_integer(alloc, PType::I64, Lowered { tree, operand }),
        Operand::Of(_) => Err(Refusal::NoCommonKind(operand, Operand::Whole(PType::I64))),
    }
}

/// The sum or the difference of two lengths, or the product of one and a count, of integers of 64
/// bits. E7 in rows where these do not hold it.
pub fn compute_spans(
    alloc: Global,
    operator: NumericOperator,
    left: BoundExpression<Standard>,
    right: BoundExpression<Standard>,
) -> Result<BoundExpression<Standard>, Refusal>
    ensures { Makes (λ t. t) result (specs.spans_computed operator left right) }
{
    let function = ScalarFnRef::Binary(operator_of(operator));
    match vec![in alloc; left, right] {
        Ok(trees) => call_on(alloc, function, trees),
        Err(_) => Err(Refusal::Binding(VortexError::OutOfMemory)),
    }
}

/// A timestamp, and a date from its midnight on.
fn instant(alloc: Global, item: Lowered<Standard>) -> Result<Lowered<Standard>, Refusal>
    ensures { Makes (λ x. lowered x.tree x.operand) result
        (specs.instant (lowered item.tree item.operand)) }
{
    match item.operand {
        Operand::Of(Kind::Timestamp) => Ok(item),
        Operand::Of(Kind::Date) => as_instant(alloc, item),
        operand => Err(Refusal::NoCommonKind(operand, Operand::Of(Kind::Timestamp))),
    }
}

/// A timestamp so many microseconds later or earlier as each row has them; a date becomes one, from
/// its midnight on. E7 in rows where 64 bits do not hold it. Fails with `NoCommonKind` exactly for
/// other operands.
pub fn move_instant(
    alloc: Global,
    operator: NumericOperator,
    item: Lowered<Standard>,
    micros: BoundExpression<Standard>,
) -> Result<Lowered<Standard>, Refusal>
    ensures { Makes (λ x. lowered x.tree x.operand) result
        (specs.moved_instant operator (lowered item.tree item.operand) micros) }
{
    let from = instant(alloc, item)?;
    let tree = compute_spans(alloc, operator, from.tree, micros)?;
    let operand = Operand::Of(Kind::Timestamp);
    Ok(Lowered { tree, operand })
}
