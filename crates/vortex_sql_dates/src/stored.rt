//! The stored integers of a row, and the cells that functions return.
ghost use Rattle.std.specs.Prelude.{◌≡◌, ◌<◌, ◌+ℤ◌, ◌*ℤ◌, pos};
ghost use Rattle.std.specs.Int.{int_rem_euclid};
ghost use Rattle.jiff_core.specs.Calendar.{IsWithin};
ghost use Rattle.vortex_sql_rows.specs.AnsweredRows.{AnswersRow};
ghost use Rattle.vortex_sql_rows.specs.Faults.{faults_by};
ghost use Rattle.vortex_sql_rows.specs.Integers.{checked};
ghost use Rattle.vortex_sql_rows.specs.declared.faults.RowFault.TheVariants.{OtherValues};
ghost use Rattle.vortex_types.specs.declared.dtype.PType.TheVariants.{I32, I64};
ghost use Rattle.vortex_sql_dates.specs.Instants.{day_of, time_of};

use vortex_columns::{Cell, PType, VortexError, VortexResult};
use vortex_sql_rows::faults::RowFault;
use vortex_sql_rows::ranges::is_in;

/// The number, if it has 32 bits.
pub(crate) fn date_in(number: i128) -> Option<i32>
    ensures { result ≡ checked I32 number }
{
    if is_in(PType::I32, number) {
        Some(number as i32)
    } else {
        None
    }
}

/// The number, if it has 64 bits.
pub(crate) fn instant_in(number: i128) -> Option<i64>
    ensures { result ≡ checked I64 number }
{
    if is_in(PType::I64, number) {
        Some(number as i64)
    } else {
        None
    }
}

/// The number of an instant's day.
pub(crate) fn day_of(micros: i64) -> i64
    ensures value { result ≡ day_of micros }
    ensures small { IsWithin 2_500_000_000 result }
{
    micros.div_euclid(86_400_000_000)
}

/// The microseconds of its day before an instant.
pub(crate) fn time_of(micros: i64) -> u64
    ensures value { result ≡ time_of micros }
    ensures small { result < 86_400_000_000 }
{
    micros.rem_euclid(86_400_000_000) as u64
}

/// The instant that is so many microseconds after a day's midnight.
pub(crate) fn instant(day: i64, time: u64) -> i128
    ensures { result ≡ day *ℤ pos 86_400_000_000 +ℤ pos time }
{
    i128::from(day) * 86_400_000_000 + i128::from(time)
}

/// The fault of values that no call passes.
pub(crate) fn other_values<'a>() -> VortexResult<Cell<'a>>
    ensures { AnswersRow (faults_by OtherValues) result }
{
    Err(VortexError::Custom(RowFault::OtherValues.number()))
}
