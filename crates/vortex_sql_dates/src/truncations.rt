//! Where the year, the month, the hour, .. of a date or a timestamp begins.
ghost use Rattle.std.specs.Prelude.{◌≡◌, ◌<◌, ◌≤◌};
ghost use Rattle.std.specs.Int.{IsInRange};
ghost use Rattle.jiff_core.specs.Calendar.{IsWithin};
ghost use Rattle.vortex_sql_rows.specs.AnsweredRows.{AnswersRow};
ghost use Rattle.vortex_types.specs.declared.dtype.PType.TheVariants.{I32, I64};
ghost use Rattle.vortex_sql_dates.specs.StoredRows.{stored};
ghost use Rattle.vortex_sql_dates.specs.Truncations.{date_trunc, date_trunc_id, date_trunc_row};
ghost use Rattle.vortex_sql_dates.specs.Truncations.{date_trunc_lawful, first_day, first_time};
ghost use Rattle.vortex_sql_dates.specs.Truncations.{timestamp_trunc, timestamp_trunc_id};
ghost use Rattle.vortex_sql_dates.specs.Truncations.{timestamp_trunc_row, first_instant};
ghost use Rattle.vortex_sql_dates.specs.Truncations.{timestamp_trunc_lawful, quarter_month};

use crate::calendar::{cycle_date, days_since, weekday_of};
use crate::stored::{date_in, day_of, instant, instant_in, other_values, time_of};
use vortex_columns::{Cell, PType, VortexResult};
use vortex_interface::ScalarFnId;
use vortex_sql_rows::cells::{int_or_fault, only_int};
use vortex_sql_rows::faults::RowFault;
use vortex_sql_rows::ranges::checked;
use vortex_sql_rows::row::{RowFn, Signature};
use vortex_sql_rows::types::{Gives, Kind, Takes};

/// What a date or a timestamp is truncated to, as in PostgreSQL's `date_trunc`.
#[derive(Clone, Copy, Debug, PartialEq, Eq)]
pub enum Unit {
    Year,
    Quarter,
    Month,
    /// From Monday.
    Week,
    /// A date is not changed by this, nor by the smaller ones.
    Day,
    Hour,
    Minute,
    Second,
}

/// The first day of that unit, in days since 1970-01-01; the fault `IntegerOutOfRange` where 32
/// bits do not have it.
#[derive(Clone, Copy, Debug, PartialEq, Eq)]
pub struct DateTrunc {
    pub unit: Unit,
}

/// The beginning of that unit, in microseconds since 1970-01-01T00:00:00; the fault
/// `IntegerOutOfRange` where 64 bits do not have it.
#[derive(Clone, Copy, Debug, PartialEq, Eq)]
pub struct TimestampTrunc {
    pub unit: Unit,
}

fn date_trunc_id(unit: Unit) -> ScalarFnId
    ensures { result.now ≡ date_trunc_id unit }
{
    match unit {
        Unit::Year => "sql.date_trunc_year",
        Unit::Quarter => "sql.date_trunc_quarter",
        Unit::Month => "sql.date_trunc_month",
        Unit::Week => "sql.date_trunc_week",
        Unit::Day => "sql.date_trunc_day",
        Unit::Hour => "sql.date_trunc_hour",
        Unit::Minute => "sql.date_trunc_minute",
        Unit::Second => "sql.date_trunc_second",
    }
}

fn timestamp_trunc_id(unit: Unit) -> ScalarFnId
    ensures { result.now ≡ timestamp_trunc_id unit }
{
    match unit {
        Unit::Year => "sql.timestamp_trunc_year",
        Unit::Quarter => "sql.timestamp_trunc_quarter",
        Unit::Month => "sql.timestamp_trunc_month",
        Unit::Week => "sql.timestamp_trunc_week",
        Unit::Day => "sql.timestamp_trunc_day",
        Unit::Hour => "sql.timestamp_trunc_hour",
        Unit::Minute => "sql.timestamp_trunc_minute",
        Unit::Second => "sql.timestamp_trunc_second",
    }
}

/// The month that begins a month's quarter.
fn quarter_month(month: u8) -> u8
    requires { IsInRange 1 12 month }
    ensures value { result ≡ quarter_month month }
    ensures bound { (1 ≤ result) × (result ≤ month) }
{
    (month - 1) / 3 * 3 + 1
}

/// The first day of the unit that a day is in.
fn first_day(unit: Unit, day: i64) -> i64
    requires { IsWithin 2_500_000_000 day }
    ensures value { result ≡ first_day unit day }
    ensures small { IsWithin 2_600_000_000 result }
{
    let date = cycle_date(day);
    match unit {
        Unit::Year => day - days_since(date, 1) as i64,
        Unit::Quarter => day - days_since(date, quarter_month(date.month)) as i64,
        Unit::Month => day - days_since(date, date.month) as i64,
        Unit::Week => day - weekday_of(day) as i64,
        Unit::Day => day,
        Unit::Hour => day,
        Unit::Minute => day,
        Unit::Second => day,
    }
}

/// The time at which the unit of a time of the day begins, in microseconds.
fn first_time(unit: Unit, time: u64) -> u64
    requires { time < 86_400_000_000 }
    ensures value { result ≡ first_time unit time }
    ensures small { result < 86_400_000_000 }
{
    match unit {
        Unit::Year => 0,
        Unit::Quarter => 0,
        Unit::Month => 0,
        Unit::Week => 0,
        Unit::Day => 0,
        Unit::Hour => time - time % 3_600_000_000,
        Unit::Minute => time - time % 60_000_000,
        Unit::Second => time - time % 1_000_000,
    }
}

fn first_instant(unit: Unit, micros: i64) -> i128
    ensures { result ≡ first_instant unit micros }
{
    instant(
        first_day(unit, day_of(micros)),
        first_time(unit, time_of(micros)),
    )
}

fn date_trunc<'a>(unit: Unit, number: i128) -> VortexResult<Cell<'a>>
    ensures { AnswersRow (stored I32 (date_trunc unit) number) result }
{
    match date_in(number) {
        Some(day) => int_or_fault(
            checked(PType::I32, i128::from(first_day(unit, i64::from(day)))),
            RowFault::IntegerOutOfRange,
        ),
        None => other_values(),
    }
}

fn timestamp_trunc<'a>(unit: Unit, number: i128) -> VortexResult<Cell<'a>>
    ensures { AnswersRow (stored I64 (timestamp_trunc unit) number) result }
{
    match instant_in(number) {
        Some(micros) => int_or_fault(
            checked(PType::I64, first_instant(unit, micros)),
            RowFault::IntegerOutOfRange,
        ),
        None => other_values(),
    }
}

impl RowFn for DateTrunc {
    ghost about = { λ f. date_trunc_row f.unit };

    fn signature(&self) -> Signature {
        Signature::strict(
            date_trunc_id(self.unit),
            1,
            Takes::Alike(Kind::Within(PType::I32)),
            Gives::Integer(PType::I32),
            false,
        )
    }

    fn answer<'a>(&self, _ptype: PType, cells: &[Cell<'a>]) -> VortexResult<Cell<'a>> {
        match only_int(cells) {
            Some(a) => date_trunc(self.unit, a),
            None => Ok(Cell::Null),
        }
    }

    ghost lawful = { λ f. date_trunc_lawful f.unit };
}

impl RowFn for TimestampTrunc {
    ghost about = { λ f. timestamp_trunc_row f.unit };

    fn signature(&self) -> Signature {
        Signature::strict(
            timestamp_trunc_id(self.unit),
            1,
            Takes::Alike(Kind::Within(PType::I64)),
            Gives::Integer(PType::I64),
            false,
        )
    }

    fn answer<'a>(&self, _ptype: PType, cells: &[Cell<'a>]) -> VortexResult<Cell<'a>> {
        match only_int(cells) {
            Some(a) => timestamp_trunc(self.unit, a),
            None => Ok(Cell::Null),
        }
    }

    ghost lawful = { λ f. timestamp_trunc_lawful f.unit };
}
