//! Days of the calendar, and times of them, by their numbers.
ghost use Rattle.std.specs.Prelude.{◌≡◌, ◌<◌, ◌≤ℤ◌, neg_ℤ, pos, unsigned_abs};
ghost use Rattle.jiff_core.specs.Calendar.{weekday_number};
ghost use Rattle.jiff_core.specs.Date.{epoch_day};
ghost use Rattle.vortex_sql_dates.specs.Parts as parts;
ghost use Rattle.vortex_sql_date_formats.specs.CivilTimes as specs;

use jiff_core::civil::Date;

/// A day of the calendar and a time of that day.
#[derive(Clone, Copy, Debug, PartialEq, Eq)]
pub struct CivilTime {
    pub year: u16,
    pub month: u8,
    pub day: u8,
    /// The place of the day in its year, from 1.
    pub ordinal: u16,
    /// The days since Monday.
    pub weekday: u8,
    /// The week of ISO 8601, from 1.
    pub iso_week: u16,
    /// The year that this week is in.
    pub iso_year: u16,
    /// In microseconds.
    pub time: u64,
}

/// The date with that number.
fn date_at(day: i64) -> Date
    requires { (neg_ℤ (pos 719162) ≤ℤ day) × (day ≤ℤ pos 2932896) }
    ensures { epoch_day result ≡ day }
{
    Date::from_days_since_min((day + 4_371_587) as u32)
}

fn year_number(date: Date) -> u16
    ensures { result ≡ unsigned_abs date.year }
{
    date.year.unsigned_abs()
}

/// The days since Monday.
fn weekday_of(day: i64) -> u8
    requires { (neg_ℤ (pos 719162) ≤ℤ day) × (day ≤ℤ pos 2932896) }
    ensures value { result ≡ weekday_number day }
    ensures small { result < 7 }
{
    (day + 3).rem_euclid(7) as u8
}

/// The number of the Thursday of the day's week, which begins on Monday.
fn thursday(day: i64) -> i64
    requires { (neg_ℤ (pos 719162) ≤ℤ day) × (day ≤ℤ pos 2932896) }
    ensures value { result ≡ parts.thursday day }
    ensures range { (neg_ℤ (pos 719162) ≤ℤ result) × (result ≤ℤ pos 2932896) }
{
    day + 3 - i64::from(weekday_of(day))
}

/// The day of the calendar with that number, and a time of that day.
pub(crate) fn civil_time(day: i64, time: u64) -> CivilTime
    requires { (neg_ℤ (pos 719162) ≤ℤ day) × (day ≤ℤ pos 2932896) }
    ensures { result ≡ specs.civil_time day time }
{
    let date = date_at(day);
    let thursday = date_at(thursday(day));
    CivilTime {
        year: year_number(date),
        month: date.month,
        day: date.day,
        ordinal: date.day_of_year(),
        weekday: weekday_of(day),
        iso_week: (thursday.day_of_year() + 6) / 7,
        iso_year: year_number(thursday),
        time,
    }
}
