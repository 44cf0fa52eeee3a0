//! What statistics say of the rows of a column, and of a literal.
ghost use Rattle.std.specs.Prelude.{◌≡◌, Some};
ghost use Rattle.vortex_columns.specs.Words.{value_of};
ghost use Rattle.vortex_statistics.specs.StatisticsView.{is_all_null};
ghost use Rattle.vortex_ranges.specs.BoundViews.{end_of, range_of};
ghost use Rattle.vortex_ranges.specs.Described.{end_value, known_end, has_no_null, described};
ghost use Rattle.vortex_ranges.specs.Described.{literal_range};

use crate::bound::Bound;
use crate::range::Range;
use vortex_columns::{Scalar, ScalarValue};
use vortex_statistics::Statistics;

/// The value as an end, unless it is a list or a record.
fn bound_of(value: &ScalarValue) -> Option<Bound<'_>>
    ensures { end_of result ≡ end_value (value_of value.now) }
{
    match value {
        ScalarValue::Bool(b) => Some(Bound::Bool(*b)),
        ScalarValue::Int(n) => Some(Bound::Int(*n)),
        ScalarValue::Utf8(text) => Some(Bound::Text(text.as_str().as_bytes())),
        ScalarValue::Binary(bytes) => Some(Bound::Bytes(bytes.as_slice())),
        ScalarValue::List(_) => None,
    }
}

fn low_end(statistics: &Statistics) -> Option<Bound<'_>>
    ensures { end_of result ≡ known_end statistics.now.low }
{
    match statistics.low() {
        Some(end) => bound_of(&end.value),
        None => None,
    }
}

fn high_end(statistics: &Statistics) -> Option<Bound<'_>>
    ensures { end_of result ≡ known_end statistics.now.high }
{
    match statistics.high() {
        Some(end) => bound_of(&end.value),
        None => None,
    }
}

/// Whether no row is null.
fn has_no_null(nulls: Option<u64>) -> bool
    ensures { result ≡ has_no_null nulls }
{
    match nulls {
        Some(nulls) => nulls == 0,
        None => false,
    }
}

/// Whether each of so many rows is null.
fn is_all_null(rows: u64, nulls: Option<u64>) -> bool
    ensures { result ≡ is_all_null (Some rows) nulls }
{
    match nulls {
        Some(nulls) => rows == nulls,
        None => rows == 0,
    }
}

impl<'a> Range<'a> {
    /// The range of each of so many rows of a column that the statistics describe.
    pub fn described(statistics: &'a Statistics, rows: u64) -> Range<'a>
        ensures { range_of result ≡ described rows statistics.now }
    {
        let nulls = statistics.nulls();
        let known = Range {
            may_fault: false,
            may_be_null: !has_no_null(nulls),
            may_be_value: !is_all_null(rows, nulls),
            low: low_end(statistics),
            high: high_end(statistics),
        };
        known.narrowed(statistics.dtype())
    }

    /// The range of a literal.
    pub fn literal(scalar: &'a Scalar) -> Range<'a>
        ensures { range_of result ≡ literal_range scalar.now.value }
    {
        let Some(value) = scalar.value() else {
            return Range::null();
        };
        match bound_of(value) {
            Some(bound) => Range::only(bound),
            None => Range {
                may_fault: false,
                may_be_null: false,
                may_be_value: true,
                low: None,
                high: None,
            },
        }
    }
}
