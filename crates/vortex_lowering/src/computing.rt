//! Sums, differences and products of operands.
ghost use Rattle.std.specs.Prelude.{◌≡◌, ◌≤◌, Some, true, MatchResult};
ghost use Rattle.vortex_errors.specs.declared.error.NumericOperator.TheVariants.{Add, Sub, Mul};
ghost use Rattle.vortex_lowering.specs.Results.{result_operand, are_computed, met_scale};
ghost use Rattle.vortex_lowering.specs.Rows.{lowered};
ghost use Rattle.vortex_lowering.specs.LoweredTrees.{arithmetic_operator};
ghost use Rattle.vortex_lowering.specs.Computing.{IsComputed, RefusesOperands, RefusesResult};

use crate::lengthen::{at_scale, operated};
use crate::operand::Lowered;
use crate::refusal::Refusal;
use crate::scale::common_scale;
use std::alloc::Global;
use vortex_columns::PType;
use vortex_interface::ScalarFnVTable;
use vortex_logical::common::{difference_operand, product_operand, sum_operand};
use vortex_logical::kind::Kind;
use vortex_logical::operand::Operand;
use vortex_operators::Operator;
use vortex_types::NumericOperator;

/// The kind of the result.
fn result_operand(operator: NumericOperator, left: &Operand, right: &Operand) -> Option<Operand>
    ensures { result ≡ result_operand operator left.now right.now }
{
    match operator {
        NumericOperator::Add => sum_operand(left, right),
        NumericOperator::Sub => difference_operand(left, right),
        NumericOperator::Mul => product_operand(left, right),
        NumericOperator::Div => None,
    }
}

/// Whether shipped functions compute it.
fn are_computed(operator: NumericOperator, left: &Operand, right: &Operand) -> bool
    ensures { result ≡ are_computed operator left.now right.now }
{
    match (operator, left, right) {
        (_, Operand::Whole(left), Operand::Whole(right)) => left == right,
        (_, Operand::Of(Kind::Decimal(_)), Operand::Of(Kind::Decimal(_))) => true,
        (_, Operand::Of(Kind::Decimal(_)), Operand::Whole(ptype))
        | (_, Operand::Whole(ptype), Operand::Of(Kind::Decimal(_))) => *ptype == PType::I64,
        (NumericOperator::Add, Operand::Of(Kind::Date), Operand::Whole(ptype))
        | (NumericOperator::Add, Operand::Whole(ptype), Operand::Of(Kind::Date))
        | (NumericOperator::Sub, Operand::Of(Kind::Date), Operand::Whole(ptype)) => {
            *ptype == PType::I32
        }
        (NumericOperator::Sub, Operand::Of(Kind::Date), Operand::Of(Kind::Date)) => true,
        _ => false,
    }
}

/// The scale at which two are added or subtracted; factors stay as they are.
fn met_scale(operator: NumericOperator, left: &Operand, right: &Operand) -> u32
    ensures value { result ≡ met_scale operator left.now right.now }
    ensures few { result ≤ 18 }
{
    match operator {
        NumericOperator::Mul => 0,
        _ => common_scale(left, right),
    }
}

fn arithmetic_operator(operator: NumericOperator) -> Operator
    ensures { result ≡ arithmetic_operator operator }
{
    match operator {
        NumericOperator::Add => Operator::Add,
        NumericOperator::Sub => Operator::Sub,
        NumericOperator::Mul => Operator::Mul,
        NumericOperator::Div => Operator::Div,
    }
}

/// The kind of the result, if shipped functions compute it.
fn check_operands(
    operator: NumericOperator,
    left: Operand,
    right: Operand,
) -> Result<Operand, Refusal>
    ensures { MatchResult result
        (λ c. (result_operand operator left right ≡ Some c)
        × (are_computed operator left right ≡ true))
        (RefusesOperands operator left right) }
{
    let Some(operand) = result_operand(operator, &left, &right) else {
        return Err(Refusal::NoCommonKind(left, right));
    };
    if are_computed(operator, &left, &right) {
        Ok(operand)
    } else {
        Err(Refusal::NotShipped(left, right))
    }
}

fn computed<C: ScalarFnVTable>(
    alloc: Global,
    operator: NumericOperator,
    left: Lowered<C>,
    right: Lowered<C>,
) -> Result<Lowered<C>, Refusal>
    ensures { MatchResult result
        (λ z. IsComputed C.meaning operator (lowered left.tree left.operand)
        (lowered right.tree right.operand) (lowered z.tree z.operand))
        (RefusesResult C.meaning operator (lowered left.tree left.operand)
        (lowered right.tree right.operand)) }
{
    let operand = check_operands(operator, left.operand, right.operand)?;
    let scale = met_scale(operator, &left.operand, &right.operand);
    let left = at_scale(alloc, scale, left)?;
    let right = at_scale(alloc, scale, right)?;
    let tree = operated(alloc, arithmetic_operator(operator), left, right)?;
    Ok(Lowered { tree, operand })
}

/// The sum of two numbers at the larger of their scales, or the day so many days after a date. E7
/// in rows where 64 bits do not hold a number at that scale, or the type does not hold the result.
pub fn add<C: ScalarFnVTable>(
    alloc: Global,
    left: Lowered<C>,
    right: Lowered<C>,
) -> Result<Lowered<C>, Refusal>
    ensures { MatchResult result
        (λ z. IsComputed C.meaning Add (lowered left.tree left.operand)
        (lowered right.tree right.operand) (lowered z.tree z.operand))
        (RefusesResult C.meaning Add (lowered left.tree left.operand)
        (lowered right.tree right.operand)) }
{
    computed(alloc, NumericOperator::Add, left, right)
}

/// The difference of two numbers, the day so many days before a date, or the days from one date to
/// another. E7 as for sums.
pub fn subtract<C: ScalarFnVTable>(
    alloc: Global,
    left: Lowered<C>,
    right: Lowered<C>,
) -> Result<Lowered<C>, Refusal>
    ensures { MatchResult result
        (λ z. IsComputed C.meaning Sub (lowered left.tree left.operand)
        (lowered right.tree right.operand) (lowered z.tree z.operand))
        (RefusesResult C.meaning Sub (lowered left.tree left.operand)
        (lowered right.tree right.operand)) }
{
    computed(alloc, NumericOperator::Sub, left, right)
}

/// The product of two numbers, whose scales add. E7 in rows where the type does not hold it.
pub fn multiply<C: ScalarFnVTable>(
    alloc: Global,
    left: Lowered<C>,
    right: Lowered<C>,
) -> Result<Lowered<C>, Refusal>
    ensures { MatchResult result
        (λ z. IsComputed C.meaning Mul (lowered left.tree left.operand)
        (lowered right.tree right.operand) (lowered z.tree z.operand))
        (RefusesResult C.meaning Mul (lowered left.tree left.operand)
        (lowered right.tree right.operand)) }
{
    computed(alloc, NumericOperator::Mul, left, right)
}
