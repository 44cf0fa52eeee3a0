//! The ranges of SQL's functions.
use crate::functions::ScalarFnRanges;
use vortex_columns::DType;
use vortex_functions::EmptyOptions;
use vortex_ranges::{Range, cast_range, default_range};
use vortex_sql_dates::casts::{DateToTimestamp, TimestampToDate};
use vortex_sql_ranges::{
    coalesce_range, distinct_range, in_list_range, is_monotone, monotone_range, test_range,
};
use vortex_standard::Standard;

/// IN, IS DISTINCT FROM, IS TRUE and the like, `coalesce`, widening casts, years and seconds of
/// dates and timestamps, their truncations, and casts between them by the ranges of their arguments;
/// the others by their marks and types.
impl ScalarFnRanges for Standard {
    fn range<'a>(&self, options: &EmptyOptions, dtype: &DType, inputs: &[Range<'a>]) -> Range<'a> {
        match self {
            Standard::InList => in_list_range(inputs),
            Standard::IsDistinct => distinct_range(inputs),
            Standard::TruthTest(test) => test_range(*test, inputs),
            Standard::Coalesce => coalesce_range(inputs),
            Standard::Widen(_) => cast_range(inputs),
            Standard::DateToTimestamp => monotone_range(&DateToTimestamp, dtype, inputs),
            Standard::TimestampToDate => monotone_range(&TimestampToDate, dtype, inputs),
            Standard::DateTrunc(function) => monotone_range(function, dtype, inputs),
            Standard::TimestampTrunc(function) => monotone_range(function, dtype, inputs),
            Standard::DatePart(function) if is_monotone(function.part) => {
                monotone_range(function, dtype, inputs)
            }
            Standard::TimestampPart(function) if is_monotone(function.part) => {
                monotone_range(function, dtype, inputs)
            }
            _ => default_range(self, options, dtype, inputs),
        }
    }
}
