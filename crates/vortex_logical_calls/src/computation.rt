//! Sums, differences, products and quotients of operands.
ghost use Rattle.std.specs.Prelude.{◌≡◌};
ghost use Rattle.vortex_errors.specs.declared.error.NumericOperator.TheVariants.{Add, Sub, Mul};
ghost use Rattle.vortex_lowering.specs.Rows.{lowered};
ghost use Rattle.vortex_logical_calls.specs.Outcomes.{Makes};
ghost use Rattle.vortex_logical_calls.specs.Computation as specs;

use crate::call::call_two;
use crate::conversions::{as_float, conversion_beside, converted, meet_in_float};
use std::alloc::Global;
use vortex_logical::kind::Kind;
use vortex_logical::operand::Operand;
use vortex_lowering::{Lowered, Refusal};
use vortex_standard::{FloatOperator, Standard};
use vortex_types::NumericOperator;

/// The operator on floats.
fn float_operator(operator: NumericOperator) -> FloatOperator
    ensures { result ≡ specs.float_operator operator }
{
    match operator {
        NumericOperator::Add => FloatOperator::Add,
        NumericOperator::Sub => FloatOperator::Subtract,
        NumericOperator::Mul => FloatOperator::Multiply,
        NumericOperator::Div => FloatOperator::Divide,
    }
}

/// The operator on numbers, as floats.
fn compute_floats(
    alloc: Global,
    operator: NumericOperator,
    left: Lowered<Standard>,
    right: Lowered<Standard>,
) -> Result<Lowered<Standard>, Refusal>
    ensures { Makes (λ x. lowered x.tree x.operand) result (specs.compute_floats operator
        (lowered left.tree left.operand) (lowered right.tree right.operand)) }
{
    let left = as_float(alloc, left)?;
    let right = as_float(alloc, right)?;
    let function = Standard::FloatOperator(float_operator(operator));
    let tree = call_two(alloc, function, left.tree, right.tree)?;
    let operand = Operand::Of(Kind::F64);
    Ok(Lowered { tree, operand })
}

/// The sum of operands that have been brought together.
fn add_met(
    alloc: Global,
    left: Lowered<Standard>,
    right: Lowered<Standard>,
) -> Result<Lowered<Standard>, Refusal>
    ensures { Makes (λ x. lowered x.tree x.operand) result (specs.compute_met Add
        (lowered left.tree left.operand) (lowered right.tree right.operand)) }
{
    vortex_lowering::add(alloc, left, right)
}

/// The difference of operands that have been brought together.
fn subtract_met(
    alloc: Global,
    left: Lowered<Standard>,
    right: Lowered<Standard>,
) -> Result<Lowered<Standard>, Refusal>
    ensures { Makes (λ x. lowered x.tree x.operand) result (specs.compute_met Sub
        (lowered left.tree left.operand) (lowered right.tree right.operand)) }
{
    vortex_lowering::subtract(alloc, left, right)
}

/// The product of operands that have been brought together.
fn multiply_met(
    alloc: Global,
    left: Lowered<Standard>,
    right: Lowered<Standard>,
) -> Result<Lowered<Standard>, Refusal>
    ensures { Makes (λ x. lowered x.tree x.operand) result (specs.compute_met Mul
        (lowered left.tree left.operand) (lowered right.tree right.operand)) }
{
    vortex_lowering::multiply(alloc, left, right)
}

/// The operator on operands that have been brought together.
fn compute_met(
    alloc: Global,
    operator: NumericOperator,
    left: Lowered<Standard>,
    right: Lowered<Standard>,
) -> Result<Lowered<Standard>, Refusal>
    ensures { Makes (λ x. lowered x.tree x.operand) result (specs.compute_met operator
        (lowered left.tree left.operand) (lowered right.tree right.operand)) }
{
    match operator {
        NumericOperator::Add => add_met(alloc, left, right),
        NumericOperator::Sub => subtract_met(alloc, left, right),
        NumericOperator::Mul => multiply_met(alloc, left, right),
        NumericOperator::Div => Err(Refusal::NoCommonKind(left.operand, right.operand)),
    }
}

/// The operator on operands without a float.
fn compute_exact(
    alloc: Global,
    operator: NumericOperator,
    left: Lowered<Standard>,
    right: Lowered<Standard>,
) -> Result<Lowered<Standard>, Refusal>
    ensures { Makes (λ x. lowered x.tree x.operand) result (specs.compute_exact operator
        (lowered left.tree left.operand) (lowered right.tree right.operand)) }
{
    let of_left = conversion_beside(&left.operand, &right.operand);
    let of_right = conversion_beside(&right.operand, &left.operand);
    let left = converted(alloc, of_left, left)?;
    let right = converted(alloc, of_right, right)?;
    compute_met(alloc, operator, left, right)
}

fn is_decimal(operand: &Operand) -> bool
    ensures { result ≡ specs.is_decimal operand.now }
{
    matches!(operand, Operand::Of(Kind::Decimal(_)))
}

/// Whether it is a decimal or a whole number.
fn is_exact(operand: &Operand) -> bool
    ensures { result ≡ specs.is_exact operand.now }
{
    matches!(operand, Operand::Whole(_) | Operand::Of(Kind::Decimal(_)))
}

/// Whether it is a quotient of a decimal and a decimal or a whole number.
fn is_decimal_quotient(operator: NumericOperator, left: &Operand, right: &Operand) -> bool
    ensures { result ≡ specs.is_decimal_quotient operator left.now right.now }
{
    match operator {
        NumericOperator::Div => {
            (is_decimal(left) || is_decimal(right)) && (is_exact(left) && is_exact(right))
        }
        _ => false,
    }
}

/// Whether both become floats.
fn goes_by_floats(operator: NumericOperator, left: &Operand, right: &Operand) -> bool
    ensures { result ≡ specs.goes_by_floats operator left.now right.now }
{
    meet_in_float(left, right) || is_decimal_quotient(operator, left, right)
}

/// The sum, the difference, the product or the quotient of two operands. A number next to a float is
/// computed as a float, the nearest one, and so is the quotient of a decimal and a decimal or a whole
/// number; a zero divisor, an overflow and an underflow are faults. Of decimals and whole numbers,
/// the sum and the difference have the larger scale, and the scales of a product add; E7 in rows
/// where 64 bits do not hold it. Days are added to a date or taken from it, and the difference of two
/// dates is their days. Fails with `NoCommonKind` exactly if the kinds do not meet.
pub fn compute(
    alloc: Global,
    operator: NumericOperator,
    left: Lowered<Standard>,
    right: Lowered<Standard>,
) -> Result<Lowered<Standard>, Refusal>
    ensures { Makes (λ x. lowered x.tree x.operand) result (specs.computed operator
        (lowered left.tree left.operand) (lowered right.tree right.operand)) }
{
    if goes_by_floats(operator, &left.operand, &right.operand) {
        compute_floats(alloc, operator, left, right)
    } else {
        compute_exact(alloc, operator, left, right)
    }
}
