//! The words of formats, each with the item that it is and how many bytes it has.
ghost use Rattle.std.specs.Prelude.{◌≡◌, ◌≤◌, ◌⊎◌, IfSome, IsTrue, length};
ghost use Rattle.vortex_sql_date_formats.specs.FormatWords as specs;

use crate::items::{FormatItem, FormatPart, Letters};

/// Whether a format begins with the word, in capital letters or in small ones.
fn begins(format: &[u8], capitals: &[u8], small: &[u8]) -> bool
    ensures value { result ≡ specs.begins format.now capitals.now small.now }
    ensures bound { IsTrue result
        → (length capitals.now ≤ length format.now) ⊎ (length small.now ≤ length format.now) }
{
    format.starts_with(capitals) || format.starts_with(small)
}

/// The name of a month.
fn month_word(format: &[u8]) -> Option<(FormatItem, usize)>
    ensures value { result ≡ specs.month_word format.now }
    ensures bound { IfSome result (λ p. (1 ≤ p.1) × (p.1 ≤ length format.now)) }
{
    if format.starts_with(b"Month") {
        Some((FormatItem::Month(Letters::Title), 5))
    } else if format.starts_with(b"MONTH") {
        Some((FormatItem::Month(Letters::Capital), 5))
    } else if format.starts_with(b"month") {
        Some((FormatItem::Month(Letters::Small), 5))
    } else if format.starts_with(b"Mon") {
        Some((FormatItem::ShortMonth(Letters::Title), 3))
    } else if format.starts_with(b"MON") {
        Some((FormatItem::ShortMonth(Letters::Capital), 3))
    } else if format.starts_with(b"mon") {
        Some((FormatItem::ShortMonth(Letters::Small), 3))
    } else {
        None
    }
}

/// The name of a day of the week.
fn weekday_word(format: &[u8]) -> Option<(FormatItem, usize)>
    ensures value { result ≡ specs.weekday_word format.now }
    ensures bound { IfSome result (λ p. (1 ≤ p.1) × (p.1 ≤ length format.now)) }
{
    if format.starts_with(b"Day") {
        Some((FormatItem::Weekday(Letters::Title), 3))
    } else if format.starts_with(b"DAY") {
        Some((FormatItem::Weekday(Letters::Capital), 3))
    } else if format.starts_with(b"day") {
        Some((FormatItem::Weekday(Letters::Small), 3))
    } else if format.starts_with(b"Dy") {
        Some((FormatItem::ShortWeekday(Letters::Title), 2))
    } else if format.starts_with(b"DY") {
        Some((FormatItem::ShortWeekday(Letters::Capital), 2))
    } else if format.starts_with(b"dy") {
        Some((FormatItem::ShortWeekday(Letters::Small), 2))
    } else {
        None
    }
}

/// A part of a date.
fn date_word(format: &[u8]) -> Option<(FormatItem, usize)>
    ensures value { result ≡ specs.date_word format.now }
    ensures bound { IfSome result (λ p. (1 ≤ p.1) × (p.1 ≤ length format.now)) }
{
    if begins(format, b"YYYY", b"yyyy") {
        Some((FormatItem::Part(FormatPart::Year), 4))
    } else if begins(format, b"YYY", b"yyy") {
        Some((FormatItem::Unknown, 3))
    } else if begins(format, b"YY", b"yy") {
        Some((FormatItem::Part(FormatPart::ShortYear), 2))
    } else if begins(format, b"MM", b"mm") {
        Some((FormatItem::Part(FormatPart::Month), 2))
    } else if begins(format, b"DDD", b"ddd") {
        Some((FormatItem::Part(FormatPart::DayOfYear), 3))
    } else if begins(format, b"DD", b"dd") {
        Some((FormatItem::Part(FormatPart::Day), 2))
    } else if begins(format, b"D", b"d") {
        Some((FormatItem::Part(FormatPart::DayOfWeek), 1))
    } else if begins(format, b"Q", b"q") {
        Some((FormatItem::Part(FormatPart::Quarter), 1))
    } else {
        None
    }
}

/// A part of a date by weeks of ISO 8601.
fn week_word(format: &[u8]) -> Option<(FormatItem, usize)>
    ensures value { result ≡ specs.week_word format.now }
    ensures bound { IfSome result (λ p. (1 ≤ p.1) × (p.1 ≤ length format.now)) }
{
    if begins(format, b"IYYY", b"iyyy") {
        Some((FormatItem::Part(FormatPart::IsoYear), 4))
    } else if begins(format, b"IW", b"iw") {
        Some((FormatItem::Part(FormatPart::IsoWeek), 2))
    } else if begins(format, b"IDDD", b"iddd") {
        Some((FormatItem::Unknown, 4))
    } else if begins(format, b"ID", b"id") {
        Some((FormatItem::Part(FormatPart::IsoDayOfWeek), 2))
    } else {
        None
    }
}

/// A part of a time.
fn time_word(format: &[u8]) -> Option<(FormatItem, usize)>
    ensures value { result ≡ specs.time_word format.now }
    ensures bound { IfSome result (λ p. (1 ≤ p.1) × (p.1 ≤ length format.now)) }
{
    if begins(format, b"HH24", b"hh24") {
        Some((FormatItem::Part(FormatPart::Hour), 4))
    } else if begins(format, b"HH12", b"hh12") {
        Some((FormatItem::Part(FormatPart::HalfDayHour), 4))
    } else if begins(format, b"HH", b"hh") {
        Some((FormatItem::Part(FormatPart::HalfDayHour), 2))
    } else if begins(format, b"MI", b"mi") {
        Some((FormatItem::Part(FormatPart::Minute), 2))
    } else if begins(format, b"SSS", b"sss") {
        Some((FormatItem::Unknown, 3))
    } else if begins(format, b"SS", b"ss") {
        Some((FormatItem::Part(FormatPart::Second), 2))
    } else if begins(format, b"MS", b"ms") {
        Some((FormatItem::Part(FormatPart::Millisecond), 2))
    } else if begins(format, b"US", b"us") {
        Some((FormatItem::Part(FormatPart::Microsecond), 2))
    } else {
        None
    }
}

/// A half of the day.
fn half_word(format: &[u8]) -> Option<(FormatItem, usize)>
    ensures value { result ≡ specs.half_word format.now }
    ensures bound { IfSome result (λ p. (1 ≤ p.1) × (p.1 ≤ length format.now)) }
{
    if begins(format, b"AM", b"PM") {
        Some((FormatItem::HalfDay(Letters::Capital), 2))
    } else if begins(format, b"am", b"pm") {
        Some((FormatItem::HalfDay(Letters::Small), 2))
    } else {
        None
    }
}

/// A word whose item is written in letters.
fn name_word(format: &[u8]) -> Option<(FormatItem, usize)>
    ensures value { result ≡ specs.name_word format.now }
    ensures bound { IfSome result (λ p. (1 ≤ p.1) × (p.1 ≤ length format.now)) }
{
    month_word(format)
        .or(weekday_word(format))
        .or(half_word(format))
}

/// A word without `FM`.
fn plain_word(format: &[u8]) -> Option<(FormatItem, usize)>
    ensures value { result ≡ specs.plain_word format.now }
    ensures bound { IfSome result (λ p. (1 ≤ p.1) × (p.1 ≤ length format.now)) }
{
    name_word(format)
        .or(date_word(format))
        .or(week_word(format))
        .or(time_word(format))
}

/// An item after `FM`.
fn bare(item: FormatItem) -> FormatItem
    ensures { result ≡ specs.bare item }
{
    match item {
        FormatItem::Part(part) => FormatItem::BarePart(part),
        FormatItem::Month(letters) => FormatItem::BareMonth(letters),
        FormatItem::Weekday(letters) => FormatItem::BareWeekday(letters),
        _ => item,
    }
}

/// The item whose word a format begins with, and how many bytes that has.
pub(crate) fn word(format: &[u8]) -> Option<(FormatItem, usize)>
    ensures value { result ≡ specs.word format.now }
    ensures bound { IfSome result (λ p. (1 ≤ p.1) × (p.1 ≤ length format.now)) }
{
    if begins(format, b"FM", b"fm") {
        let (item, width) = plain_word(&format[2..])?;
        Some((bare(item), width + 2))
    } else {
        plain_word(format)
    }
}
