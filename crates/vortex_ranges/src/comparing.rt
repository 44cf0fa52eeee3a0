//! Ranges of comparisons.
ghost use Rattle.std.specs.Prelude.{◌≡◌, not};
ghost use Rattle.vortex_operators.specs.OperatorValues.{holds};
ghost use Rattle.vortex_ranges.specs.BoundViews.{end_of, range_of};
ghost use Rattle.vortex_ranges.specs.Comparing.{are_apart, leave_room, may_compare, may_pass};
ghost use Rattle.vortex_ranges.specs.Comparing.{comparison, betweenness};

use crate::bound::Bound;
use crate::range::Range;
use std::cmp::Ordering;
use vortex_operators::{BetweenOptions, CompareOperator};

/// Whether the comparison is true of that order.
fn holds(operator: CompareOperator, order: Ordering) -> bool
    ensures { result ≡ holds operator order }
{
    match operator {
        CompareOperator::Eq => order.is_eq(),
        CompareOperator::NotEq => order.is_ne(),
        CompareOperator::Gt => order.is_gt(),
        CompareOperator::Gte => order.is_ge(),
        CompareOperator::Lt => order.is_lt(),
        CompareOperator::Lte => order.is_le(),
    }
}

/// Whether a low end lies above a high one.
pub(crate) fn are_apart(low: &Option<Bound<'_>>, high: &Option<Bound<'_>>) -> bool
    ensures { result ≡ are_apart (end_of low.now) (end_of high.now) }
{
    match (low, high) {
        (Some(low), Some(high)) => low.is_above(high),
        _ => false,
    }
}

/// Whether a low end lies below a high one, and not on it.
fn leave_room(low: &Option<Bound<'_>>, high: &Option<Bound<'_>>) -> bool
    ensures { result ≡ leave_room (end_of low.now) (end_of high.now) }
{
    match (low, high) {
        (Some(low), Some(high)) => high.is_above(low),
        _ => true,
    }
}

/// Whether two values may have that order.
fn may_compare(left: &Range<'_>, right: &Range<'_>, order: Ordering) -> bool
    ensures { result ≡ may_compare (range_of left.now) (range_of right.now) order }
{
    match order {
        Ordering::Less => leave_room(&left.low, &right.high),
        Ordering::Equal => {
            !are_apart(&left.low, &right.high) && !are_apart(&right.low, &left.high)
        }
        Ordering::Greater => leave_room(&right.low, &left.high),
    }
}

/// Whether two values may have an order of which the comparison is true.
fn may_hold(operator: CompareOperator, left: &Range<'_>, right: &Range<'_>) -> bool
    ensures { result ≡ may_pass (holds operator) (range_of left.now) (range_of right.now) }
{
    left.may_be_value
        && right.may_be_value
        && ((holds(operator, Ordering::Less) && may_compare(left, right, Ordering::Less))
            || (holds(operator, Ordering::Equal) && may_compare(left, right, Ordering::Equal))
            || (holds(operator, Ordering::Greater) && may_compare(left, right, Ordering::Greater)))
}

/// Whether they may have one of which it is false.
fn may_fail(operator: CompareOperator, left: &Range<'_>, right: &Range<'_>) -> bool
    ensures { result ≡ may_pass (λ o. not (holds operator o)) (range_of left.now)
        (range_of right.now) }
{
    left.may_be_value
        && right.may_be_value
        && ((!holds(operator, Ordering::Less) && may_compare(left, right, Ordering::Less))
            || (!holds(operator, Ordering::Equal) && may_compare(left, right, Ordering::Equal))
            || (!holds(operator, Ordering::Greater) && may_compare(left, right, Ordering::Greater)))
}

impl Range<'_> {
    /// The range of a comparison with the values of another range.
    pub fn comparison<'b>(&self, operator: CompareOperator, other: &Range<'_>) -> Range<'b>
        ensures { range_of result ≡ comparison operator (range_of self.now) (range_of other.now) }
    {
        Range::truths(
            self.may_be_null || other.may_be_null,
            may_fail(operator, self, other),
            may_hold(operator, self, other),
        )
    }

    /// The range of `lower op x and x op upper`.
    pub fn betweenness<'b>(
        &self,
        options: &BetweenOptions,
        lower: &Range<'_>,
        upper: &Range<'_>,
    ) -> Range<'b>
        ensures { range_of result ≡ betweenness options.now (range_of lower.now)
            (range_of self.now) (range_of upper.now) }
    {
        let below = lower.comparison(options.lower_strict.to_compare_operator(), self);
        let above = self.comparison(options.upper_strict.to_compare_operator(), upper);
        below.conjunction(&above)
    }
}
