//! The range of `coalesce`.
ghost use Rattle.std.specs.Prelude.{◌≡◌, map};
ghost use Rattle.vortex_ranges.specs.BoundViews.{end_of, range_of};
ghost use Rattle.vortex_sql_ranges.specs.Choices.{lower, higher, either_of, with_null, either_value};
ghost use Rattle.vortex_sql_ranges.specs.Choices.{without_null, or_null, nothing, coalesce_range};

use vortex_ranges::{Bound, Range};

/// The lower of two low ends; none where one is not known.
fn lower<'a>(low: &Option<Bound<'a>>, other: &Option<Bound<'a>>) -> Option<Bound<'a>>
    ensures { end_of result ≡ lower (end_of low.now) (end_of other.now) }
{
    match (low, other) {
        (Some(low), Some(other)) => Some(if low.is_above(other) { *other } else { *low }),
        _ => None,
    }
}

/// And the higher of two high ones.
fn higher<'a>(high: &Option<Bound<'a>>, other: &Option<Bound<'a>>) -> Option<Bound<'a>>
    ensures { end_of result ≡ higher (end_of high.now) (end_of other.now) }
{
    match (high, other) {
        (Some(high), Some(other)) => Some(if high.is_above(other) { *high } else { *other }),
        _ => None,
    }
}

/// The values of the one, and null where either may be.
fn with_null<'a>(one: &Range<'a>, other: &Range<'_>) -> Range<'a>
    ensures { range_of result ≡ with_null (range_of one.now) (range_of other.now) }
{
    Range {
        may_fault: one.may_fault || other.may_fault,
        may_be_null: one.may_be_null || other.may_be_null,
        may_be_value: one.may_be_value,
        low: one.low,
        high: one.high,
    }
}

/// A value of the one or of the other.
fn either_value<'a>(one: &Range<'a>, other: &Range<'a>) -> Range<'a>
    ensures { range_of result ≡ either_value (range_of one.now) (range_of other.now) }
{
    Range {
        may_fault: one.may_fault || other.may_fault,
        may_be_null: one.may_be_null || other.may_be_null,
        may_be_value: true,
        low: lower(&one.low, &other.low),
        high: higher(&one.high, &other.high),
    }
}

/// What the one admits, and what the other does.
fn either_of<'a>(one: &Range<'a>, other: &Range<'a>) -> Range<'a>
    ensures { range_of result ≡ either_of (range_of one.now) (range_of other.now) }
{
    if !one.may_be_value {
        with_null(other, one)
    } else if other.may_be_value {
        either_value(one, other)
    } else {
        with_null(one, other)
    }
}

/// The same range without null.
fn without_null<'a>(range: &Range<'a>) -> Range<'a>
    ensures { range_of result ≡ without_null (range_of range.now) }
{
    Range {
        may_be_null: false,
        ..*range
    }
}

/// And with null.
fn or_null<'a>(range: &Range<'a>) -> Range<'a>
    ensures { range_of result ≡ or_null (range_of range.now) }
{
    Range {
        may_be_null: true,
        ..*range
    }
}

/// No outcome.
fn nothing<'a>() -> Range<'a>
    ensures { range_of result ≡ nothing }
{
    Range {
        may_fault: false,
        may_be_null: false,
        may_be_value: false,
        low: None,
        high: None,
    }
}

/// The range of a call of `coalesce`: of the values up to the first that cannot be null.
pub fn coalesce_range<'a>(inputs: &[Range<'a>]) -> Range<'a>
    ensures { range_of result ≡ coalesce_range (map range_of inputs.now) }
{
    let mut found = nothing();
    for input in inputs {
        if !input.may_be_null {
            return either_of(&found, input);
        }
        found = either_of(&found, &without_null(input));
    }
    or_null(&found)
}
