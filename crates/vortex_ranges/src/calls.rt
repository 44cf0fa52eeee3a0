//! Ranges of calls of the shipped functions.
ghost use Rattle.std.specs.Prelude.{◌≡◌, map};
ghost use Rattle.vortex_types.specs.TypeOf.{type_of};
ghost use Rattle.vortex_ranges.specs.BoundViews.{range_of};
ghost use Rattle.vortex_ranges.specs.ShippedCalls.{operator_range, binary_range, not_range};
ghost use Rattle.vortex_ranges.specs.ShippedCalls.{null_test_range, cast_range, between_range};

use crate::computing::arithmetic_range;
use crate::range::Range;
use vortex_operators::{BetweenOptions, CompareOperator, Operator};
use vortex_types::{DType, NumericOperator};

/// The range of an operator of two operands, whose results have that type.
fn operator_range<'a>(
    operator: Operator,
    dtype: &DType,
    left: &Range<'_>,
    right: &Range<'_>,
) -> Range<'a>
    ensures { range_of result ≡ operator_range operator (type_of dtype.now) (range_of left.now)
        (range_of right.now) }
{
    match operator {
        Operator::And => left.conjunction(right),
        Operator::Or => left.disjunction(right),
        Operator::Eq => left.comparison(CompareOperator::Eq, right),
        Operator::NotEq => left.comparison(CompareOperator::NotEq, right),
        Operator::Gt => left.comparison(CompareOperator::Gt, right),
        Operator::Gte => left.comparison(CompareOperator::Gte, right),
        Operator::Lt => left.comparison(CompareOperator::Lt, right),
        Operator::Lte => left.comparison(CompareOperator::Lte, right),
        Operator::Add => arithmetic_range(NumericOperator::Add, dtype, left, right),
        Operator::Sub => arithmetic_range(NumericOperator::Sub, dtype, left, right),
        Operator::Mul => arithmetic_range(NumericOperator::Mul, dtype, left, right),
        Operator::Div => arithmetic_range(NumericOperator::Div, dtype, left, right),
    }
}

/// The range of a call of an operator of two operands, from those of its arguments.
pub fn binary_range<'a>(operator: Operator, dtype: &DType, inputs: &[Range<'_>]) -> Range<'a>
    ensures { range_of result
        ≡ binary_range operator (type_of dtype.now) (map range_of inputs.now) }
{
    let [left, right] = inputs else {
        return Range::anything();
    };
    operator_range(operator, dtype, left, right)
}

/// The range of a call of Kleene's Not.
pub fn not_range<'a>(inputs: &[Range<'_>]) -> Range<'a>
    ensures { range_of result ≡ not_range (map range_of inputs.now) }
{
    let [input] = inputs else {
        return Range::anything();
    };
    input.negation()
}

/// The range of a call of IsNull, or of IsNotNull if it is negated.
pub fn null_test_range<'a>(negated: bool, inputs: &[Range<'_>]) -> Range<'a>
    ensures { range_of result ≡ null_test_range negated (map range_of inputs.now) }
{
    let [input] = inputs else {
        return Range::anything();
    };
    input.null_test(negated)
}

/// The range of a call of Cast, whose values are those of its argument.
pub fn cast_range<'a>(inputs: &[Range<'a>]) -> Range<'a>
    ensures { range_of result ≡ cast_range (map range_of inputs.now) }
{
    let [input] = inputs else {
        return Range::anything();
    };
    *input
}

/// The range of a call of Between: the array, its lower and its upper bound.
pub fn between_range<'a>(options: &BetweenOptions, inputs: &[Range<'_>]) -> Range<'a>
    ensures { range_of result ≡ between_range options.now (map range_of inputs.now) }
{
    let [input, lower, upper] = inputs else {
        return Range::anything();
    };
    input.betweenness(options, lower, upper)
}
