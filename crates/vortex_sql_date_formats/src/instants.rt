//! The day and the time of the fields that are read.
ghost use Rattle.std.specs.Prelude.{◌≡◌, ◌≤◌, ◌<◌, pos, IfSome};
ghost use Rattle.vortex_sql_date_formats.specs.ReadInstants as specs;

use crate::fields::Fields;
use jiff_core::civil::Date;

fn signed_year(year: u32) -> i16
    requires { year ≤ 9999 }
    ensures { result ≡ pos year }
{
    year as i16
}

fn signed(number: u32) -> i8
    requires { number ≤ 99 }
    ensures { result ≡ pos number }
{
    number as i8
}

/// The days since 1970-01-01, if the calendar has the day.
fn civil_day(year: u32, month: u32, day: u32) -> Option<i32>
    requires years { year ≤ 9999 }
    requires days { (month ≤ 99) × (day ≤ 99) }
    ensures { result ≡ specs.civil_day year month day }
{
    match Date::new(signed_year(year), signed(month), signed(day)) {
        Ok(date) => Some(date.to_unix_epoch_day()),
        Err(_) => None,
    }
}

/// The same in the years 1 to 9999.
#[tactic(auto, using(crate::proofs::CivilDays::far_month, crate::proofs::CivilDays::far_day))]
fn day_number(year: u32, month: u32, day: u32) -> Option<i32>
    ensures { result ≡ specs.day_number year month day }
{
    if year < 1 || 9999 < year {
        return None;
    }
    if 12 < month {
        return None;
    }
    if 31 < day {
        return None;
    }
    civil_day(year, month, day)
}

/// The microseconds since midnight, if a day has the time.
fn clock(hour: u32, minute: u32, second: u32, micros: u32) -> Option<u64>
    ensures { result ≡ specs.clock hour minute second micros }
{
    if hour <= 23 && minute <= 59 && second <= 59 && micros <= 999_999 {
        let seconds = u64::from(hour) * 3600 + u64::from(minute) * 60 + u64::from(second);
        Some(seconds * 1_000_000 + u64::from(micros))
    } else {
        None
    }
}

/// The hour of the day, of an hour from 1 to 12 and a half: 12 is the first of its half.
fn day_hour(hour: u32, half: u32) -> Option<u32>
    ensures { result ≡ specs.day_hour hour half }
{
    if 1 <= hour && hour <= 12 {
        Some(hour % 12 + if half == 0 { 0 } else { 12 })
    } else {
        None
    }
}

/// The hour of the day, by its half if the hour is one of that.
fn hour_of(half_hour: Option<u32>, half: u32, hour: u32) -> Option<u32>
    ensures { result ≡ specs.hour_of half_hour half hour }
{
    match half_hour {
        Some(number) => day_hour(number, half),
        None => Some(hour),
    }
}

/// The microseconds since midnight, if a day has the time.
fn time_of(fields: Fields) -> Option<u64>
    ensures { result ≡ specs.time_of fields }
{
    let half = fields.half.unwrap_or(0);
    let hour = hour_of(fields.half_hour, half, fields.hour.unwrap_or(0))?;
    clock(
        hour,
        fields.minute.unwrap_or(0),
        fields.second.unwrap_or(0),
        fields.micros.unwrap_or(0),
    )
}

/// The day and the time of that day, where both are: the first of the year, of the month, of the
/// day, .. for what is not read.
pub(crate) fn instant_of(fields: Fields) -> Option<(i32, u64)>
    ensures { result ≡ specs.instant_of fields }
{
    let day = day_number(
        fields.year.unwrap_or(0),
        fields.month.unwrap_or(1),
        fields.day.unwrap_or(1),
    )?;
    let time = time_of(fields)?;
    Some((day, time))
}
