//! Months added to dates and timestamps: the same day of the month, or its last day if it has fewer.
ghost use Rattle.std.specs.Prelude.{◌≡◌, ◌≤◌};
ghost use Rattle.std.specs.Int.{IsInRange};
ghost use Rattle.jiff_core.specs.Calendar.{IsEpochDay, IsWithin, IsYear};
ghost use Rattle.vortex_columns.specs.Cells.{cell_value};
ghost use Rattle.vortex_sql_rows.specs.AnsweredRows.{AnswersRow};
ghost use Rattle.vortex_sql_rows.specs.Shapes.{number_in, with_both};
ghost use Rattle.vortex_sql_dates.specs.LaterMonths as later;
ghost use Rattle.vortex_sql_dates.specs.Months as specs;

use crate::calendar::{cycle_date, year_of};
use crate::stored::{date_in, day_of, instant, instant_in, other_values, time_of};
use jiff_core::civil::Date;
use vortex_columns::{Cell, PType, VortexResult};
use vortex_sql_rows::cells::{int_in, int_or_fault};
use vortex_sql_rows::faults::RowFault;
use vortex_sql_rows::row::{RowFn, Signature};
use vortex_sql_rows::types::{Gives, Kind, Takes};

/// A date so many months later, or earlier if they are negative; the fault `DateRange` outside the
/// years -9999 to 9999.
pub struct DateAddMonths;

/// A timestamp so many months later, at the same time of its day; the fault `TimestampRange` outside
/// the years -9999 to 9999.
pub struct TimestampAddMonths;

/// How many months after January of the year 0 the month of a day is.
fn month_number(day: i64) -> i64
    requires { IsWithin 2_500_000_000 day }
    ensures value { result ≡ later.month_number day }
    ensures small { IsWithin 150_000_000 result }
{
    year_of(day) * 12 + i64::from(cycle_date(day).month - 1)
}

fn month_in_year(month: i64) -> u8
    ensures value { result ≡ later.month_in_year month }
    ensures range { IsInRange 1 12 result }
{
    month.rem_euclid(12) as u8 + 1
}

/// The number of that day of a month, or of its last day if it has fewer.
fn day_in(year: i16, month: u8, day: u8) -> i32
    requires year { IsYear year }
    requires month { IsInRange 1 12 month }
    requires day { 1 ≤ day }
    ensures value { result ≡ later.day_in year month day }
    ensures range { IsEpochDay result }
{
    Date::constrain(year, month, day).to_unix_epoch_day()
}

/// The same of a month by its number, in the years -9999 to 9999.
fn day_of_month(month: i64, day: u8) -> Option<i32>
    requires { 1 ≤ day }
    ensures { result ≡ later.day_of_month month day }
{
    let year = month.div_euclid(12);
    if -9999 <= year && year <= 9999 {
        Some(day_in(year as i16, month_in_year(month), day))
    } else {
        None
    }
}

/// The day that lies so many months after a day, in those years.
#[tactic(auto, using(crate::specs::LaterMonths::too_far))]
fn months_later(day: i64, months: i128) -> Option<i32>
    requires { IsWithin 2_500_000_000 day }
    ensures { result ≡ later.months_later day months }
{
    if months < -1_000_000_000 || 1_000_000_000 < months {
        return None;
    }
    day_of_month(month_number(day) + months as i64, cycle_date(day).day)
}

fn date_later<'a>(day: i32, months: i128) -> VortexResult<Cell<'a>>
    ensures { AnswersRow (specs.date_later months day) result }
{
    match months_later(i64::from(day), months) {
        Some(day) => Ok(Cell::Int(i128::from(day))),
        None => int_or_fault(None, RowFault::DateRange),
    }
}

fn timestamp_later<'a>(micros: i64, months: i128) -> VortexResult<Cell<'a>>
    ensures { AnswersRow (specs.timestamp_later months micros) result }
{
    match months_later(day_of(micros), months) {
        Some(day) => Ok(Cell::Int(instant(i64::from(day), time_of(micros)))),
        None => int_or_fault(None, RowFault::TimestampRange),
    }
}

fn date_months<'a>(day: i128, months: i128) -> VortexResult<Cell<'a>>
    ensures { AnswersRow (specs.date_months day months) result }
{
    match date_in(day) {
        Some(day) => date_later(day, months),
        None => other_values(),
    }
}

fn timestamp_months<'a>(micros: i128, months: i128) -> VortexResult<Cell<'a>>
    ensures { AnswersRow (specs.timestamp_months micros months) result }
{
    match instant_in(micros) {
        Some(micros) => timestamp_later(micros, months),
        None => other_values(),
    }
}

fn date_of<'a>(day: &Cell<'_>, months: &Cell<'_>) -> VortexResult<Cell<'a>>
    ensures { AnswersRow (with_both specs.date_months (number_in (cell_value day.now))
        (number_in (cell_value months.now))) result }
{
    let Some(day) = int_in(day) else {
        return other_values();
    };
    let Some(months) = int_in(months) else {
        return other_values();
    };
    date_months(day, months)
}

fn timestamp_of<'a>(micros: &Cell<'_>, months: &Cell<'_>) -> VortexResult<Cell<'a>>
    ensures { AnswersRow (with_both specs.timestamp_months (number_in (cell_value micros.now))
        (number_in (cell_value months.now))) result }
{
    let Some(micros) = int_in(micros) else {
        return other_values();
    };
    let Some(months) = int_in(months) else {
        return other_values();
    };
    timestamp_months(micros, months)
}

impl RowFn for DateAddMonths {
    ghost about = { λ f. specs.date_row };

    fn signature(&self) -> Signature {
        let takes = Takes::Each(Kind::Within(PType::I32), Kind::Integer, Kind::Integer);
        Signature::strict(
            "sql.date_add_months",
            2,
            takes,
            Gives::Integer(PType::I32),
            false,
        )
    }

    fn answer<'a>(&self, _ptype: PType, cells: &[Cell<'a>]) -> VortexResult<Cell<'a>> {
        match cells {
            [day, months] => date_of(day, months),
            [] => other_values(),
            [_] => other_values(),
            [_, _, _, ..] => other_values(),
        }
    }

    ghost lawful = { λ f. specs.date_lawful };
}

impl RowFn for TimestampAddMonths {
    ghost about = { λ f. specs.timestamp_row };

    fn signature(&self) -> Signature {
        let takes = Takes::Each(Kind::Within(PType::I64), Kind::Integer, Kind::Integer);
        Signature::strict(
            "sql.timestamp_add_months",
            2,
            takes,
            Gives::Integer(PType::I64),
            false,
        )
    }

    fn answer<'a>(&self, _ptype: PType, cells: &[Cell<'a>]) -> VortexResult<Cell<'a>> {
        match cells {
            [micros, months] => timestamp_of(micros, months),
            [] => other_values(),
            [_] => other_values(),
            [_, _, _, ..] => other_values(),
        }
    }

    ghost lawful = { λ f. specs.timestamp_lawful };
}
