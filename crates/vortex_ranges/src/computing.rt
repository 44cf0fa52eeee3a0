//! Ranges of arithmetic, by the ends of the operands.
ghost use Rattle.std.specs.Prelude.{◌≡◌, ◌≢◌, ◌||◌, ◌&&◌, ◌*ℤ◌, int_lt, int_div, pos, true};
ghost use Rattle.std.specs.Int.{int_min, int_max};
ghost use Rattle.vortex_types.specs.TypeOf.{type_of};
ghost use Rattle.vortex_types.specs.Typing.{least_of, greatest_of};
ghost use Rattle.vortex_ranges.specs.BoundViews.{end_of, range_of};
ghost use Rattle.vortex_ranges.specs.Arithmetic.{narrow, number_ends, excludes_zero, has_results};
ghost use Rattle.vortex_ranges.specs.Arithmetic.{low_result, high_result, numbers, any_number};
ghost use Rattle.vortex_ranges.specs.Arithmetic.{results, integer_range, arithmetic_range};

use crate::bound::Bound;
use crate::range::Range;
use crate::typed::{greatest_of, least_of};
use vortex_types::{DType, NumericOperator, PType};

/// The number, if it has 64 bits.
fn narrow(number: i128) -> Option<i64>
    ensures { result ≡ narrow number }
{
    if number < -9_223_372_036_854_775_808 || 9_223_372_036_854_775_807 < number {
        None
    } else {
        Some(number as i64)
    }
}

/// The ends, where both are such numbers.
fn number_ends(low: &Option<Bound<'_>>, high: &Option<Bound<'_>>) -> Option<(i64, i64)>
    ensures { result ≡ number_ends (end_of low.now) (end_of high.now) }
{
    match (low, high) {
        (Some(Bound::Int(low)), Some(Bound::Int(high))) => match (narrow(*low), narrow(*high)) {
            (Some(low), Some(high)) => Some((low, high)),
            _ => None,
        },
        _ => None,
    }
}

fn product(left: i64, right: i64) -> i128
    ensures { result ≡ left *ℤ right }
{
    i128::from(left) * i128::from(right)
}

fn lesser(left: i128, right: i128) -> i128
    ensures { result ≡ int_min left right }
{
    left.min(right)
}

fn greater(left: i128, right: i128) -> i128
    ensures { result ≡ int_max left right }
{
    left.max(right)
}

/// The quotient, truncated toward zero.
fn quotient(left: i64, right: i64) -> i128
    requires { right ≢ pos 0 }
    ensures { result ≡ int_div left right }
{
    i128::from(left) / i128::from(right)
}

fn least_product(left: i64, right: (i64, i64)) -> i128
    ensures { result ≡ int_min (left *ℤ right.0) (left *ℤ right.1) }
{
    lesser(product(left, right.0), product(left, right.1))
}

fn greatest_product(left: i64, right: (i64, i64)) -> i128
    ensures { result ≡ int_max (left *ℤ right.0) (left *ℤ right.1) }
{
    greater(product(left, right.0), product(left, right.1))
}

fn least_quotient(left: i64, right: (i64, i64)) -> i128
    requires { excludes_zero right ≡ true }
    ensures { result ≡ int_min (int_div left right.0) (int_div left right.1) }
{
    lesser(quotient(left, right.0), quotient(left, right.1))
}

fn greatest_quotient(left: i64, right: (i64, i64)) -> i128
    requires { excludes_zero right ≡ true }
    ensures { result ≡ int_max (int_div left right.0) (int_div left right.1) }
{
    greater(quotient(left, right.0), quotient(left, right.1))
}

/// Whether both ends of a divisor lie on one side of zero.
fn excludes_zero(ends: (i64, i64)) -> bool
    ensures { result ≡ excludes_zero ends }
{
    (0 < ends.0 && 0 < ends.1) || (ends.0 < 0 && ends.1 < 0)
}

/// Whether each operand between the ends has a result: no divisor may be zero.
fn has_results(operator: NumericOperator, right: (i64, i64)) -> bool
    ensures { result ≡ has_results operator right }
{
    match operator {
        NumericOperator::Div => excludes_zero(right),
        NumericOperator::Add => true,
        NumericOperator::Sub => true,
        NumericOperator::Mul => true,
    }
}

/// The low end of the exact results.
fn low_result(operator: NumericOperator, left: (i64, i64), right: (i64, i64)) -> i128
    requires { has_results operator right ≡ true }
    ensures { result ≡ low_result operator left right }
{
    match operator {
        NumericOperator::Add => i128::from(left.0) + i128::from(right.0),
        NumericOperator::Sub => i128::from(left.0) - i128::from(right.1),
        NumericOperator::Mul => lesser(least_product(left.0, right), least_product(left.1, right)),
        NumericOperator::Div => {
            lesser(least_quotient(left.0, right), least_quotient(left.1, right))
        }
    }
}

/// And the high end.
fn high_result(operator: NumericOperator, left: (i64, i64), right: (i64, i64)) -> i128
    requires { has_results operator right ≡ true }
    ensures { result ≡ high_result operator left right }
{
    match operator {
        NumericOperator::Add => i128::from(left.1) + i128::from(right.1),
        NumericOperator::Sub => i128::from(left.1) - i128::from(right.0),
        NumericOperator::Mul => {
            greater(
                greatest_product(left.0, right),
                greatest_product(left.1, right),
            )
        }
        NumericOperator::Div => {
            greater(
                greatest_quotient(left.0, right),
                greatest_quotient(left.1, right),
            )
        }
    }
}

/// Whether a number between the ends is past those of the type.
fn may_overflow(ptype: PType, low: i128, high: i128) -> bool
    ensures { result ≡ (int_lt low (least_of ptype) || int_lt (greatest_of ptype) high) }
{
    low < least_of(ptype) || greatest_of(ptype) < high
}

/// Numbers of a type between two ends; a result past the ends of the type is a fault.
fn numbers<'a>(ptype: PType, null: bool, value: bool, low: i128, high: i128) -> Range<'a>
    ensures { range_of result ≡ numbers ptype null value low high }
{
    let fault = may_overflow(ptype, low, high);
    Range {
        may_fault: value && fault,
        may_be_null: null,
        may_be_value: value,
        low: Some(Bound::Int(greater(least_of(ptype), low))),
        high: Some(Bound::Int(lesser(greatest_of(ptype), high))),
    }
}

/// Any number of a type, or a fault.
fn any_number<'a>(ptype: PType, null: bool, value: bool) -> Range<'a>
    ensures { range_of result ≡ any_number ptype null value }
{
    Range {
        may_fault: value,
        may_be_null: null,
        may_be_value: value,
        low: Some(Bound::Int(least_of(ptype))),
        high: Some(Bound::Int(greatest_of(ptype))),
    }
}

/// The results of operands between these ends, where they are known.
fn results<'a>(
    operator: NumericOperator,
    ptype: PType,
    null: bool,
    value: bool,
    left: Option<(i64, i64)>,
    right: Option<(i64, i64)>,
) -> Range<'a>
    ensures { range_of result ≡ results operator ptype null value left right }
{
    let (Some(left), Some(right)) = (left, right) else {
        return any_number(ptype, null, value);
    };
    if has_results(operator, right) {
        let low = low_result(operator, left, right);
        let high = high_result(operator, left, right);
        numbers(ptype, null, value, low, high)
    } else {
        any_number(ptype, null, value)
    }
}

/// The range of arithmetic of an integer type.
fn integer_range<'a>(
    operator: NumericOperator,
    ptype: PType,
    left: &Range<'_>,
    right: &Range<'_>,
) -> Range<'a>
    ensures { range_of result ≡ integer_range operator ptype (range_of left.now)
        (range_of right.now) }
{
    let null = left.may_be_null || right.may_be_null;
    let value = left.may_be_value && right.may_be_value;
    let left_ends = number_ends(&left.low, &left.high);
    let right_ends = number_ends(&right.low, &right.high);
    results(operator, ptype, null, value, left_ends, right_ends)
}

/// The range of arithmetic whose results have that type.
pub(crate) fn arithmetic_range<'a>(
    operator: NumericOperator,
    dtype: &DType,
    left: &Range<'_>,
    right: &Range<'_>,
) -> Range<'a>
    ensures { range_of result ≡ arithmetic_range operator (type_of dtype.now)
        (range_of left.now) (range_of right.now) }
{
    match dtype {
        DType::Primitive(ptype, _) => integer_range(operator, *ptype, left, right),
        DType::Bool(_)
        | DType::Utf8(_)
        | DType::Binary(_)
        | DType::Null
        | DType::Struct(_, _)
        | DType::List(_, _)
        | DType::FixedSizeList(_, _, _)
        | DType::Map(_, _, _) => Range::of_type(dtype, true),
    }
}
