//! The names of months and of days of the week in English.
ghost use Rattle.std.specs.Prelude.{◌≡◌, ◌++◌, ◌≤◌, IfOk, length, map};
ghost use Rattle.std.specs.Char.{to_ascii_lowercase, to_ascii_uppercase};
ghost use Rattle.vortex_sql_date_formats.specs.Names as specs;

use crate::items::Letters;
use std::alloc::AllocError;

pub(crate) fn month_name(month: u32) -> &'static str
    ensures name { result.now ≡ specs.month_name month }
    ensures some { 3 ≤ length result.now }
    ensures few { length result.now ≤ 9 }
{
    match month {
        1 => "January",
        2 => "February",
        3 => "March",
        4 => "April",
        5 => "May",
        6 => "June",
        7 => "July",
        8 => "August",
        9 => "September",
        10 => "October",
        11 => "November",
        _ => "December",
    }
}

/// The name of the day so many days after Monday.
pub(crate) fn weekday_name(day: u8) -> &'static str
    ensures name { result.now ≡ specs.weekday_name day }
    ensures some { 3 ≤ length result.now }
    ensures few { length result.now ≤ 9 }
{
    match day {
        0 => "Monday",
        1 => "Tuesday",
        2 => "Wednesday",
        3 => "Thursday",
        4 => "Friday",
        5 => "Saturday",
        _ => "Sunday",
    }
}

/// Appends a text in capital letters.
fn push_upper(text: &[u8], out: &mut Vec<u8>) -> Result<(), AllocError>
    ensures { IfOk result
        (λ _. out.new.items ≡ out.old.items ++ map to_ascii_uppercase text.now) }
{
    for byte in text {
        out.push(byte.to_ascii_uppercase())?;
    }
    Ok(())
}

/// Appends a text in small letters.
fn push_lower(text: &[u8], out: &mut Vec<u8>) -> Result<(), AllocError>
    ensures { IfOk result
        (λ _. out.new.items ≡ out.old.items ++ map to_ascii_lowercase text.now) }
{
    for byte in text {
        out.push(byte.to_ascii_lowercase())?;
    }
    Ok(())
}

/// Appends a name in these letters.
pub(crate) fn push_name(letters: Letters, name: &[u8], out: &mut Vec<u8>) -> Result<(), AllocError>
    ensures { IfOk result
        (λ _. out.new.items ≡ out.old.items ++ specs.in_letters letters name.now) }
{
    match letters {
        Letters::Title => {
            out.extend_from_slice(name)?;
            Ok(())
        }
        Letters::Capital => push_upper(name, out),
        Letters::Small => push_lower(name, out),
    }
}
