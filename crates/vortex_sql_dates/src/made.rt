//! The date of a year, a month and a day: `make_date`.
ghost use Rattle.std.specs.Prelude.{◌≡◌, ◌≤◌, IfSome, None, pos};
ghost use Rattle.std.specs.Option.{option_map};
ghost use Rattle.vortex_columns.specs.Cells.{cell_value};
ghost use Rattle.vortex_interface.specs.Outcomes.{custom, faults};
ghost use Rattle.vortex_sql_rows.specs.AnsweredRows.{AnswersRow};
ghost use Rattle.vortex_sql_rows.specs.Faults.{fault_of};
ghost use Rattle.vortex_sql_rows.specs.Shapes.{number_in, with_three};
ghost use Rattle.vortex_sql_dates.specs.MadeDates as specs;

use crate::stored::other_values;
use jiff_core::civil::Date;
use vortex_columns::{Cell, PType, VortexError, VortexResult};
use vortex_sql_rows::cells::int_in;
use vortex_sql_rows::row::{RowFn, Signature};
use vortex_sql_rows::types::{Gives, Kind, Takes};

/// `make_date(year, month, day)`: the days since 1970-01-01 of the date that they are, in the years
/// 1 to 9999; the fault `NO_DATE` where there is none.
pub struct MakeDate;

/// The number that E10 has where there is no date of a year, a month and a day: that behind the
/// numbers of `RowFault` and of a root.
pub const NO_DATE: u64 = 30;

/// The text of the fault with that number, if it is that of a date.
pub fn no_date_text(number: u64) -> Option<&'static str>
    ensures { option_map (λ t. t.now) result ≡ specs.no_date_text number }
{
    if number == NO_DATE {
        Some("date field value out of range")
    } else {
        None
    }
}

/// No other fault of a row has that number.
pub fn date_number_is_its_own()
    ensures { fault_of specs.no_date_number ≡ None }
{}

/// The number, if it is one from 1 to the greatest.
fn from_one(greatest: u16, number: i128) -> Option<u16>
    ensures value { result ≡ specs.from_one greatest number }
    ensures bound { IfSome result (λ n. n ≤ greatest) }
{
    if number < 1 || i128::from(greatest) < number {
        None
    } else {
        Some(number as u16)
    }
}

fn signed_year(year: u16) -> i16
    requires { year ≤ 9999 }
    ensures { result ≡ pos year }
{
    year as i16
}

fn signed(number: u16) -> i8
    requires { number ≤ 99 }
    ensures { result ≡ pos number }
{
    number as i8
}

/// The days since 1970-01-01, if the calendar has the day.
fn day_number(year: u16, month: u16, day: u16) -> Option<i32>
    requires years { year ≤ 9999 }
    requires days { (month ≤ 99) × (day ≤ 99) }
    ensures { result ≡ specs.day_number year month day }
{
    match Date::new(signed_year(year), signed(month), signed(day)) {
        Ok(date) => Some(date.to_unix_epoch_day()),
        Err(_) => None,
    }
}

fn day_of(year: i128, month: i128, day: i128) -> Option<i32>
    ensures { result ≡ specs.day_of (specs.from_one 9999 year) (specs.from_one 12 month)
        (specs.from_one 31 day) }
{
    day_number(
        from_one(9999, year)?,
        from_one(12, month)?,
        from_one(31, day)?,
    )
}

/// The fault of a year, a month and a day that are no date.
fn no_date<'a>() -> VortexResult<Cell<'a>>
    ensures { AnswersRow (faults (custom specs.no_date_number)) result }
{
    Err(VortexError::Custom(NO_DATE))
}

fn made_date<'a>(year: i128, month: i128, day: i128) -> VortexResult<Cell<'a>>
    ensures { AnswersRow (specs.made_date year month day) result }
{
    match day_of(year, month, day) {
        Some(day) => Ok(Cell::Int(i128::from(day))),
        None => no_date(),
    }
}

/// The date of three cells, of which each is an integer in each call.
fn date_of<'a>(year: &Cell<'_>, month: &Cell<'_>, day: &Cell<'_>) -> VortexResult<Cell<'a>>
    ensures { AnswersRow (with_three specs.made_date (number_in (cell_value year.now))
        (number_in (cell_value month.now)) (number_in (cell_value day.now))) result }
{
    let Some(year) = int_in(year) else {
        return other_values();
    };
    let Some(month) = int_in(month) else {
        return other_values();
    };
    let Some(day) = int_in(day) else {
        return other_values();
    };
    made_date(year, month, day)
}

impl RowFn for MakeDate {
    ghost about = { λ f. specs.make_date_row };

    fn signature(&self) -> Signature {
        let takes = Takes::Each(Kind::Integer, Kind::Integer, Kind::Integer);
        Signature::strict(
            "sql.date_from_parts",
            3,
            takes,
            Gives::Integer(PType::I32),
            false,
        )
    }

    fn answer<'a>(&self, _ptype: PType, cells: &[Cell<'a>]) -> VortexResult<Cell<'a>> {
        let [year, month, day] = cells else {
            return other_values();
        };
        date_of(year, month, day)
    }

    ghost lawful = { λ f. specs.make_date_lawful };
}
