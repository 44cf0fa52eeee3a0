//! Parts of dates and timestamps: the year, the day of the week, the hour, ..
ghost use Rattle.std.specs.Prelude.{◌≡◌, ◌<◌};
ghost use Rattle.jiff_core.specs.Calendar.{IsWithin};
ghost use Rattle.vortex_sql_rows.specs.AnsweredRows.{AnswersRow};
ghost use Rattle.vortex_types.specs.declared.dtype.PType.TheVariants.{I32, I64};
ghost use Rattle.vortex_sql_dates.specs.Parts.{date_part, date_part_id, date_part_row};
ghost use Rattle.vortex_sql_dates.specs.Parts.{timestamp_part, timestamp_part_id};
ghost use Rattle.vortex_sql_dates.specs.Parts.{timestamp_part_row, part_of, written_year};
ghost use Rattle.vortex_sql_dates.specs.Parts.{thursday, week_of};
ghost use Rattle.vortex_sql_dates.specs.PartLaws.{date_part_lawful, timestamp_part_lawful};
ghost use Rattle.vortex_sql_dates.specs.StoredRows.{stored};

use crate::calendar::{cycle_date, ordinal_of, weekday_of, year_of};
use crate::stored::{date_in, day_of, instant_in, other_values, time_of};
use vortex_columns::{Cell, PType, VortexResult};
use vortex_interface::ScalarFnId;
use vortex_sql_rows::cells::only_int;
use vortex_sql_rows::row::{RowFn, Signature};
use vortex_sql_rows::types::{Gives, Kind, Takes};

/// A part of a date or a timestamp, as PostgreSQL's `date_part` and `extract` have it, but that
/// seconds and `Epoch` are whole: rounded down.
#[derive(Clone, Copy, Debug, PartialEq, Eq)]
pub enum Part {
    /// The year: that before 1 is -1, as no year is 0.
    Year,
    /// From 1 to 4.
    Quarter,
    /// From 1 to 12.
    Month,
    /// The week of ISO 8601: of the year in which its Thursday is, from 1.
    Week,
    /// The day of the month, from 1.
    Day,
    /// From 0 for Sunday to 6.
    DayOfWeek,
    /// From 1 for Monday to 7.
    IsoDayOfWeek,
    /// The day of the year, from 1.
    DayOfYear,
    /// The seconds since 1970-01-01T00:00:00, negative before.
    Epoch,
    /// From 0 to 23; of a date 0, and so are the smaller ones.
    Hour,
    /// From 0 to 59.
    Minute,
    /// From 0 to 59.
    Second,
    /// The thousandths since the minute began.
    Millisecond,
    /// The millionths since the minute began.
    Microsecond,
}

/// That part of a date, in days since 1970-01-01.
#[derive(Clone, Copy, Debug, PartialEq, Eq)]
pub struct DatePart {
    pub part: Part,
}

/// That part of a timestamp, in microseconds since 1970-01-01T00:00:00.
#[derive(Clone, Copy, Debug, PartialEq, Eq)]
pub struct TimestampPart {
    pub part: Part,
}

fn date_part_id(part: Part) -> ScalarFnId
    ensures { result.now ≡ date_part_id part }
{
    match part {
        Part::Year => "sql.date_year",
        Part::Quarter => "sql.date_quarter",
        Part::Month => "sql.date_month",
        Part::Week => "sql.date_week",
        Part::Day => "sql.date_day",
        Part::DayOfWeek => "sql.date_dow",
        Part::IsoDayOfWeek => "sql.date_isodow",
        Part::DayOfYear => "sql.date_doy",
        Part::Epoch => "sql.date_epoch",
        Part::Hour => "sql.date_hour",
        Part::Minute => "sql.date_minute",
        Part::Second => "sql.date_second",
        Part::Millisecond => "sql.date_millisecond",
        Part::Microsecond => "sql.date_microsecond",
    }
}

fn timestamp_part_id(part: Part) -> ScalarFnId
    ensures { result.now ≡ timestamp_part_id part }
{
    match part {
        Part::Year => "sql.timestamp_year",
        Part::Quarter => "sql.timestamp_quarter",
        Part::Month => "sql.timestamp_month",
        Part::Week => "sql.timestamp_week",
        Part::Day => "sql.timestamp_day",
        Part::DayOfWeek => "sql.timestamp_dow",
        Part::IsoDayOfWeek => "sql.timestamp_isodow",
        Part::DayOfYear => "sql.timestamp_doy",
        Part::Epoch => "sql.timestamp_epoch",
        Part::Hour => "sql.timestamp_hour",
        Part::Minute => "sql.timestamp_minute",
        Part::Second => "sql.timestamp_second",
        Part::Millisecond => "sql.timestamp_millisecond",
        Part::Microsecond => "sql.timestamp_microsecond",
    }
}

/// The year as it is written.
fn written_year(year: i64) -> i64
    requires { IsWithin 10_000_000 year }
    ensures { result ≡ written_year year }
{
    if year > 0 { year } else { year - 1 }
}

/// The Thursday of the day's week.
fn thursday(day: i64) -> i64
    requires { IsWithin 2_500_000_000 day }
    ensures { result ≡ thursday day }
{
    day + 3 - weekday_of(day) as i64
}

/// The number of its week in the year of that week's Thursday.
fn week_of(day: i64) -> i64
    requires { IsWithin 2_500_000_000 day }
    ensures { result ≡ week_of day }
{
    ((ordinal_of(thursday(day)) + 6) / 7) as i64
}

/// That part of a day, in which so many microseconds have passed.
fn part_of(part: Part, day: i64, time: u64) -> i64
    requires days { IsWithin 2_500_000_000 day }
    requires times { time < 86_400_000_000 }
    ensures { result ≡ part_of part day time }
{
    match part {
        Part::Year => written_year(year_of(day)),
        Part::Quarter => (cycle_date(day).month as i64 + 2) / 3,
        Part::Month => cycle_date(day).month as i64,
        Part::Week => week_of(day),
        Part::Day => cycle_date(day).day as i64,
        Part::DayOfWeek => (weekday_of(day) as i64 + 1) % 7,
        Part::IsoDayOfWeek => weekday_of(day) as i64 + 1,
        Part::DayOfYear => ordinal_of(day) as i64,
        Part::Epoch => day * 86_400 + (time / 1_000_000) as i64,
        Part::Hour => (time / 3_600_000_000) as i64,
        Part::Minute => (time / 60_000_000 % 60) as i64,
        Part::Second => (time / 1_000_000 % 60) as i64,
        Part::Millisecond => (time % 60_000_000 / 1_000) as i64,
        Part::Microsecond => (time % 60_000_000) as i64,
    }
}

fn date_part<'a>(part: Part, number: i128) -> VortexResult<Cell<'a>>
    ensures { AnswersRow (stored I32 (date_part part) number) result }
{
    match date_in(number) {
        Some(day) => Ok(Cell::Int(i128::from(part_of(part, i64::from(day), 0)))),
        None => other_values(),
    }
}

fn timestamp_part<'a>(part: Part, number: i128) -> VortexResult<Cell<'a>>
    ensures { AnswersRow (stored I64 (timestamp_part part) number) result }
{
    match instant_in(number) {
        Some(at) => Ok(Cell::Int(i128::from(part_of(part, day_of(at), time_of(at))))),
        None => other_values(),
    }
}

impl RowFn for DatePart {
    ghost about = { λ f. date_part_row f.part };

    fn signature(&self) -> Signature {
        Signature::strict(
            date_part_id(self.part),
            1,
            Takes::Alike(Kind::Within(PType::I32)),
            Gives::Integer(PType::I64),
            true,
        )
    }

    fn answer<'a>(&self, _ptype: PType, cells: &[Cell<'a>]) -> VortexResult<Cell<'a>> {
        match only_int(cells) {
            Some(a) => date_part(self.part, a),
            None => Ok(Cell::Null),
        }
    }

    ghost lawful = { λ f. date_part_lawful f.part };
}

impl RowFn for TimestampPart {
    ghost about = { λ f. timestamp_part_row f.part };

    fn signature(&self) -> Signature {
        Signature::strict(
            timestamp_part_id(self.part),
            1,
            Takes::Alike(Kind::Within(PType::I64)),
            Gives::Integer(PType::I64),
            true,
        )
    }

    fn answer<'a>(&self, _ptype: PType, cells: &[Cell<'a>]) -> VortexResult<Cell<'a>> {
        match only_int(cells) {
            Some(a) => timestamp_part(self.part, a),
            None => Ok(Cell::Null),
        }
    }

    ghost lawful = { λ f. timestamp_part_lawful f.part };
}
