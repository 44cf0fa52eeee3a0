//! Days of the calendar by their numbers, before and after the years that `jiff_core` has.
ghost use Rattle.std.specs.Prelude.{◌≡◌, ◌<◌, ◌≤◌, pos};
ghost use Rattle.jiff_core.specs.Calendar.{IsWithin, weekday_number};
ghost use Rattle.vortex_sql_dates.specs.CountedDays.{cycle_date, year_of, ordinal_of, days_since};
ghost use Rattle.vortex_sql_dates.specs.CountedDays.{civil_date};

use jiff_core::civil::Date;

/// The day with that number, or so many times 400 years before or after it.
pub(crate) fn cycle_date(day: i64) -> Date
    ensures year { result.year ≡ (cycle_date day).year }
    ensures month { result.month ≡ (cycle_date day).month }
    ensures day { result.day ≡ (cycle_date day).day }
{
    Date::from_days_since_min(day.rem_euclid(146_097) as u32 + 4_371_587)
}

/// The year, where the one before 1 is 0.
pub(crate) fn year_of(day: i64) -> i64
    requires { IsWithin 3_000_000_000 day }
    ensures { result ≡ year_of day }
{
    cycle_date(day).year as i64 + day.div_euclid(146_097) * 400
}

/// The place in the year, from 1.
pub(crate) fn ordinal_of(day: i64) -> u16
    ensures value { result ≡ ordinal_of day }
    ensures small { result ≤ 366 }
{
    cycle_date(day).day_of_year()
}

/// The days since Monday.
pub(crate) fn weekday_of(day: i64) -> u8
    requires { IsWithin 3_000_000_000 day }
    ensures value { result ≡ weekday_number day }
    ensures small { result < 7 }
{
    (day + 3).rem_euclid(7) as u8
}

/// The days since the first of a month of the same year.
pub(crate) fn days_since(date: Date, month: u8) -> u16
    requires { (1 ≤ month) × (month ≤ date.month) }
    ensures value { result ≡ days_since (civil_date date) month }
    ensures small { result ≤ 366 }
{
    let first = Date {
        year: date.year,
        month,
        day: 1,
    };
    date.day_of_year() - first.day_of_year()
}
