//! The ranges of functions of one integer whose results never fall as the integer grows: of years
//! and seconds of dates and timestamps, of truncations, and of casts between dates and timestamps.
ghost use Rattle.std.specs.Prelude.{◌≡◌, map};
ghost use Rattle.vortex_types.specs.TypeOf.{type_of};
ghost use Rattle.vortex_ranges.specs.BoundViews.{end_of, range_of};
ghost use Rattle.vortex_sql_ranges.specs.Monotone.{end_after, is_monotone, monotone};
ghost use Rattle.vortex_sql_ranges.specs.Monotone.{monotone_range};

use vortex_columns::{Cell, DType, PType};
use vortex_ranges::{Bound, Range};
use vortex_sql_dates::parts::Part;
use vortex_sql_rows::cells::int_in;
use vortex_sql_rows::row::RowFn;

/// What the function returns of an end, where both are integers.
fn end_after<'a, F: RowFn>(function: &F, end: &Option<Bound<'_>>) -> Option<Bound<'a>>
    ensures { end_of result ≡ end_after (F.about function.now) (end_of end.now) }
{
    let Some(Bound::Int(number)) = end else {
        return None;
    };
    match function.answer(PType::I64, &[Cell::Int(*number)]) {
        Ok(cell) => match int_in(&cell) {
            Some(found) => Some(Bound::Int(found)),
            None => None,
        },
        Err(_) => None,
    }
}

/// The results lie between those of the ends, and none is a fault where both ends have one.
fn monotone<'a, F: RowFn>(function: &F, input: &Range<'_>) -> Range<'a>
    ensures { range_of result ≡ monotone (F.about function.now) (range_of input.now) }
{
    let low = end_after(function, &input.low);
    let high = end_after(function, &input.high);
    let is_settled = function.signature().is_infallible || (low.is_some() && high.is_some());
    Range {
        may_fault: input.may_be_value && !is_settled,
        may_be_null: input.may_be_null,
        may_be_value: input.may_be_value,
        low,
        high,
    }
}

/// The range of a call, of that type, of a function of one integer whose results never fall as the
/// integer grows: by `dates_are_admitted` of parts that `is_monotone`, of truncations, and of casts
/// between dates and timestamps. Of other functions it may exclude results.
pub fn monotone_range<'a, F: RowFn>(function: &F, dtype: &DType, inputs: &[Range<'_>]) -> Range<'a>
    ensures { range_of result ≡ monotone_range (F.about function.now) (type_of dtype.now)
        (map range_of inputs.now) }
{
    let [input] = inputs else {
        return Range::anything();
    };
    monotone(function, input).narrowed(dtype)
}

/// Whether that part of a date or a timestamp never falls as this grows.
pub fn is_monotone(part: Part) -> bool
    ensures { result ≡ is_monotone part }
{
    match part {
        Part::Year | Part::Epoch => true,
        Part::Quarter
        | Part::Month
        | Part::Week
        | Part::Day
        | Part::DayOfWeek
        | Part::IsoDayOfWeek
        | Part::DayOfYear
        | Part::Hour
        | Part::Minute
        | Part::Second
        | Part::Millisecond
        | Part::Microsecond => false,
    }
}
