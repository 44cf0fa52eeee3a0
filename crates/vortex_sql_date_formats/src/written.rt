//! Dates and timestamps as their formats write them.
ghost use Rattle.std.specs.Prelude.{◌≡◌, ◌++◌, ◌≤◌, IfOk, decimal, length};
ghost use Rattle.std.specs.List.{list_all};
ghost use Rattle.vortex_sql_date_formats.specs.Formats.{items_of};
ghost use Rattle.vortex_logical.specs.DecimalTexts.{last_digits};
ghost use Rattle.vortex_sql_date_formats.specs.WrittenFormats as specs;

use crate::civil::CivilTime;
use crate::formats::next_item;
use crate::items::{FormatItem, FormatPart, Letters};
use crate::names::{month_name, push_name, weekday_name};
use std::alloc::AllocError;

/// Appends the last digits of a number, so many.
fn push_digits(number: u64, width: u32, out: &mut Vec<u8>) -> Result<(), AllocError>
    ensures { IfOk result (λ _. out.new.items ≡ out.old.items ++ last_digits width number) }
{
    if width == 0 {
        return Ok(());
    }
    push_digits(number / 10, width - 1, out)?;
    out.push(b'0' + (number % 10) as u8)?;
    Ok(())
}

/// Appends a number without zeros at the beginning.
fn push_decimal(number: u64, out: &mut Vec<u8>) -> Result<(), AllocError>
    ensures { IfOk result (λ _. out.new.items ≡ out.old.items ++ decimal number) }
{
    if number < 10 {
        out.push(b'0' + number as u8)?;
        return Ok(());
    }
    push_decimal(number / 10, out)?;
    out.push(b'0' + (number % 10) as u8)?;
    Ok(())
}

/// How many digits a part has.
fn width(part: FormatPart) -> u32
    ensures { result ≡ specs.width part }
{
    match part {
        FormatPart::Year => 4,
        FormatPart::IsoYear => 4,
        FormatPart::DayOfYear => 3,
        FormatPart::DayOfWeek => 1,
        FormatPart::IsoDayOfWeek => 1,
        FormatPart::Quarter => 1,
        FormatPart::Millisecond => 3,
        FormatPart::Microsecond => 6,
        _ => 2,
    }
}

/// The number that a part is.
fn part_number(at: CivilTime, part: FormatPart) -> u64
    ensures { result ≡ specs.part_number at part }
{
    match part {
        FormatPart::Year => u64::from(at.year),
        FormatPart::ShortYear => u64::from(at.year) % 100,
        FormatPart::IsoYear => u64::from(at.iso_year),
        FormatPart::Quarter => (u64::from(at.month) + 2) / 3,
        FormatPart::Month => u64::from(at.month),
        FormatPart::IsoWeek => u64::from(at.iso_week),
        FormatPart::Day => u64::from(at.day),
        FormatPart::DayOfYear => u64::from(at.ordinal),
        FormatPart::DayOfWeek => (u64::from(at.weekday) + 1) % 7 + 1,
        FormatPart::IsoDayOfWeek => u64::from(at.weekday) + 1,
        FormatPart::Hour => at.time / 3_600_000_000,
        FormatPart::HalfDayHour => (at.time / 3_600_000_000 + 11) % 12 + 1,
        FormatPart::Minute => at.time / 60_000_000 % 60,
        FormatPart::Second => at.time / 1_000_000 % 60,
        FormatPart::Millisecond => at.time / 1_000,
        FormatPart::Microsecond => at.time,
    }
}

/// Appends the digits of a part.
fn push_part(at: CivilTime, part: FormatPart, out: &mut Vec<u8>) -> Result<(), AllocError>
    ensures { IfOk result (λ _. out.new.items ≡ out.old.items ++ specs.part_text at part) }
{
    push_digits(part_number(at, part), width(part), out)
}

/// Appends a part without zeros at the beginning; fractions have all their digits.
fn push_bare(at: CivilTime, part: FormatPart, out: &mut Vec<u8>) -> Result<(), AllocError>
    ensures { IfOk result (λ _. out.new.items ≡ out.old.items ++ specs.bare_text at part) }
{
    match part {
        FormatPart::Millisecond => push_part(at, part, out),
        FormatPart::Microsecond => push_part(at, part, out),
        _ => push_decimal(part_number(at, part), out),
    }
}

/// The half of a day that a time is in.
fn half_name(time: u64) -> &'static str
    ensures { result.now ≡ specs.half_name time }
{
    if time < 43_200_000_000 { "am" } else { "pm" }
}

/// Appends the first three letters of a name.
fn push_short(letters: Letters, name: &[u8], out: &mut Vec<u8>) -> Result<(), AllocError>
    requires { 3 ≤ length name.now }
    ensures { IfOk result
        (λ _. out.new.items ≡ out.old.items ++ specs.short_name letters name.now) }
{
    push_name(letters, &name[..3], out)
}

/// Appends a name and blanks after it, nine bytes in all.
fn push_padded(letters: Letters, name: &[u8], out: &mut Vec<u8>) -> Result<(), AllocError>
    requires { length name.now ≤ 9 }
    ensures { IfOk result
        (λ _. out.new.items ≡ out.old.items ++ specs.padded_name letters name.now) }
{
    push_name(letters, name, out)?;
    out.extend_from_slice(&b"         "[..9 - name.len()])?;
    Ok(())
}

/// Appends what an item writes.
#[tactic(auto, unfolding(crate::specs::WrittenFormats::item_text))]
fn push_item(item: FormatItem, at: CivilTime, out: &mut Vec<u8>) -> Result<(), AllocError>
    ensures { IfOk result (λ _. out.new.items ≡ out.old.items ++ specs.item_text at item) }
{
    let month = month_name(u32::from(at.month)).as_bytes();
    let weekday = weekday_name(at.weekday).as_bytes();
    match item {
        FormatItem::Part(part) => push_part(at, part, out),
        FormatItem::BarePart(part) => push_bare(at, part, out),
        FormatItem::Month(letters) => push_padded(letters, month, out),
        FormatItem::BareMonth(letters) => push_name(letters, month, out),
        FormatItem::ShortMonth(letters) => push_short(letters, month, out),
        FormatItem::Weekday(letters) => push_padded(letters, weekday, out),
        FormatItem::BareWeekday(letters) => push_name(letters, weekday, out),
        FormatItem::ShortWeekday(letters) => push_short(letters, weekday, out),
        FormatItem::HalfDay(letters) => push_name(letters, half_name(at.time).as_bytes(), out),
        FormatItem::Literal(byte) => {
            out.push(byte)?;
            Ok(())
        }
        FormatItem::Unknown => Ok(()),
    }
}

/// Appends what a format writes.
pub(crate) fn push_format(format: &[u8], at: CivilTime, out: &mut Vec<u8>) -> Result<(), AllocError>
    ensures { IfOk result
        (λ _. out.new.items ≡ out.old.items ++ specs.format_text at (items_of format.now)) }
{
    let mut is_quoted = false;
    let mut rest = format;
    while let Some((item, quoted, after)) = next_item(is_quoted, rest) {
        push_item(item, at, out)?;
        is_quoted = quoted;
        rest = after;
    }
    Ok(())
}

fn is_known(item: FormatItem) -> bool
    ensures { result ≡ specs.is_known item }
{
    !matches!(item, FormatItem::Unknown)
}

fn all_known(format: &[u8]) -> bool
    ensures { result ≡ list_all specs.is_known (items_of format.now) }
{
    let mut is_quoted = false;
    let mut rest = format;
    while let Some((item, quoted, after)) = next_item(is_quoted, rest) {
        if !is_known(item) {
            return false;
        }
        is_quoted = quoted;
        rest = after;
    }
    true
}

/// Whether each item of a format is known, and there is one.
pub(crate) fn is_writable(format: &[u8]) -> bool
    ensures { result ≡ specs.is_writable format.now }
{
    !format.is_empty() && all_known(format)
}
