//! Days since 1970-01-01, from texts `YYYY-MM-DD` and back.
ghost use Rattle.std.specs.Prelude.{◌≡◌, ◌≤◌, ◌+◌, ◌*◌, [], ◌++◌, IfOk, IfSome, pos, Some};
ghost use Rattle.std.specs.Bool.{MatchBool};
ghost use Rattle.jiff_core.specs.Calendar.{IsCivilDate, IsEpochDay};
ghost use Rattle.vortex_logical.specs.Written.{Appends};
ghost use Rattle.vortex_logical.specs.DateTexts.{are_signs, two_digits, day_number, date_of_text};
ghost use Rattle.vortex_logical.specs.DateTexts.{padded};
ghost use Rattle.vortex_logical.specs.DateTexts.{date_text, IsDated, IsDateText};
ghost use Rattle.vortex_logical.specs.DateTexts.{DatesAreReadBack, DatedDays};

use jiff_core::civil::Date;
use std::alloc::AllocError;

pub(crate) fn two_digits(tens: u8, ones: u8) -> Option<u8>
    ensures value { result ≡ two_digits tens ones }
    ensures small { IfSome result (λ n. n ≤ 99) }
{
    if tens.is_ascii_digit() && ones.is_ascii_digit() {
        Some((tens - b'0') * 10 + (ones - b'0'))
    } else {
        None
    }
}

fn year_of(century: u8, year: u8) -> i16
    requires { (century ≤ 99) × (year ≤ 99) }
    ensures { result ≡ pos (century * 100 + year) }
{
    century as i16 * 100 + year as i16
}

fn signed(number: u8) -> i8
    requires { number ≤ 99 }
    ensures { result ≡ pos number }
{
    number as i8
}

/// The number of a day of the calendar.
fn civil_day(century: u8, year: u8, month: u8, day: u8) -> Option<i32>
    requires years { (century ≤ 99) × (year ≤ 99) }
    requires days { (month ≤ 99) × (day ≤ 99) }
    ensures value { result ≡ day_number (Some century) (Some year) (Some month) (Some day) }
    ensures range { IfSome result IsEpochDay }
    ensures dated { IfSome result IsDated }
{
    match Date::new(year_of(century, year), signed(month), signed(day)) {
        Ok(date) => Some(date.to_unix_epoch_day()),
        Err(_) => None,
    }
}

/// Whether the signs between the parts of a date are two hyphens or two slashes.
fn are_signs(first: u8, second: u8) -> bool
    ensures { result ≡ are_signs first second }
{
    (first == b'-' && second == b'-') || (first == b'/' && second == b'/')
}

/// The day of a text `YYYY-MM-DD` or `YYYY/MM/DD`; none of any other text, and of a day that the
/// calendar has not.
pub fn read_date(text: &[u8]) -> Option<i32>
    ensures value { result ≡ date_of_text text.now }
    ensures range { IfSome result IsEpochDay }
    ensures dated { IfSome result IsDated }
{
    match text {
        [c, d, y, z, p, m, n, q, e, f] if are_signs(*p, *q) => civil_day(
            two_digits(*c, *d)?,
            two_digits(*y, *z)?,
            two_digits(*m, *n)?,
            two_digits(*e, *f)?,
        ),
        _ => None,
    }
}

/// Appends a number below 100 as two digits.
pub(crate) fn push_padded(number: u8, out: &mut Vec<u8>) -> Result<(), AllocError>
    requires { number ≤ 99 }
    ensures { IfOk result (λ _. out.new.items ≡ out.old.items ++ padded number []) }
{
    out.extend_from_slice(&[b'0' + number / 10, b'0' + number % 10])?;
    Ok(())
}

pub(crate) fn widened(day: i32) -> i64
    ensures { result ≡ day }
{
    day as i64
}

/// Appends the text of a day as `2024-02-29`; false, and nothing, for a day outside the years 0000
/// to 9999. Refused only for want of memory, and then part of the text may stand.
pub fn write_date(day: i32, out: &mut Vec<u8>) -> Result<bool, AllocError>
    ensures { IfOk result (λ written. MatchBool written
        (Appends (IsDateText day) out.old.items out.new.items)
        (¬ (IsDated day) × (out.new.items ≡ out.old.items))) }
{
    match Date::from_unix_epoch_day(widened(day)) {
        Ok(date) if date.year >= 0 => {
            push_date(date.year as u16, date.month, date.day, out)?;
            Ok(true)
        }
        _ => Ok(false),
    }
}

pub(crate) fn push_date(year: u16, month: u8, day: u8, out: &mut Vec<u8>) -> Result<(), AllocError>
    requires { IsCivilDate (pos year) month day }
    ensures { IfOk result (λ _. out.new.items ≡ out.old.items ++ date_text year month day) }
{
    push_padded((year / 100) as u8, out)?;
    push_padded((year % 100) as u8, out)?;
    out.push(b'-')?;
    push_padded(month, out)?;
    out.push(b'-')?;
    push_padded(day, out)?;
    Ok(())
}

/// What is written of a day is read back.
pub fn dates_are_read_back()
    ensures { DatesAreReadBack }
{}

/// The days with a text are those from 0000-01-01 to 9999-12-31.
pub fn dated_days()
    ensures { DatedDays }
{}
