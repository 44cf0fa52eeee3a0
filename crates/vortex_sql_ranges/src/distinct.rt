//! The range of IS DISTINCT FROM.
ghost use Rattle.std.specs.Prelude.{◌≡◌, map};
ghost use Rattle.vortex_ranges.specs.BoundViews.{range_of};
ghost use Rattle.vortex_sql_ranges.specs.Distinct.{may_be_same, may_differ, distinctness};
ghost use Rattle.vortex_sql_ranges.specs.Distinct.{distinct_range};

use vortex_operators::CompareOperator;
use vortex_ranges::Range;

/// Whether both may be null, or equal values.
fn may_be_same(left: &Range<'_>, right: &Range<'_>) -> bool
    ensures { result ≡ may_be_same (range_of left.now) (range_of right.now) }
{
    let equal = left.comparison(CompareOperator::Eq, right);
    (left.may_be_null && right.may_be_null) || equal.may_be_true()
}

/// Whether one may be null, or they may be other values.
fn may_differ(left: &Range<'_>, right: &Range<'_>) -> bool
    ensures { result ≡ may_differ (range_of left.now) (range_of right.now) }
{
    let equal = left.comparison(CompareOperator::Eq, right);
    (left.may_be_null && right.may_be_value)
        || ((left.may_be_value && right.may_be_null) || equal.may_be_false())
}

/// Whether two values differ, where nulls are equal.
fn distinctness<'a>(left: &Range<'_>, right: &Range<'_>) -> Range<'a>
    ensures { range_of result ≡ distinctness (range_of left.now) (range_of right.now) }
{
    Range::truths(false, may_be_same(left, right), may_differ(left, right))
}

/// The range of a call of `is_distinct`.
pub fn distinct_range<'a>(inputs: &[Range<'_>]) -> Range<'a>
    ensures { range_of result ≡ distinct_range (map range_of inputs.now) }
{
    let [left, right] = inputs else {
        return Range::anything();
    };
    distinctness(left, right)
}
