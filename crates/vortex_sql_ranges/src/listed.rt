//! The range of IN.
ghost use Rattle.std.specs.Prelude.{◌≡◌, map};
ghost use Rattle.vortex_ranges.specs.BoundViews.{range_of};
ghost use Rattle.vortex_sql_ranges.specs.Listed.{unlisted, listed_from, in_list_range};

use vortex_operators::CompareOperator;
use vortex_ranges::Range;

/// In no list: null where the value is, else false.
fn unlisted<'a>(value: &Range<'_>) -> Range<'a>
    ensures { range_of result ≡ unlisted (range_of value.now) }
{
    Range::truths(value.may_be_null, value.may_be_value, false)
}

/// Whether the value equals an item.
fn listed<'a>(value: &Range<'_>, items: &[Range<'_>]) -> Range<'a>
    ensures { range_of result ≡ listed_from (unlisted (range_of value.now)) (range_of value.now)
        (map range_of items.now) }
{
    let mut found = unlisted(value);
    for item in items {
        found = found.disjunction(&value.comparison(CompareOperator::Eq, item));
    }
    found
}

/// The range of a call of `in_list`: the value, and the items of the list.
pub fn in_list_range<'a>(inputs: &[Range<'_>]) -> Range<'a>
    ensures { range_of result ≡ in_list_range (map range_of inputs.now) }
{
    match inputs {
        [] => Range::anything(),
        [value, items @ ..] => listed(value, items),
    }
}
