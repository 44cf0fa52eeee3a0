//! Texts as their formats read them.
ghost use Rattle.std.specs.Prelude.{◌≡◌, ◌≤◌};
ghost use Rattle.std.specs.Option.{option_map};
ghost use Rattle.vortex_sql_date_formats.specs.Fields.{no_fields};
ghost use Rattle.vortex_sql_date_formats.specs.Formats.{items_from, items_of};
ghost use Rattle.vortex_sql_date_formats.specs.ReadFormats as specs;

use crate::digits::{fraction_of, number_of};
use crate::fields::{Fields, filled, no_fields};
use crate::formats::next_item;
use crate::items::{FormatItem, FormatPart};
use crate::names::month_name;

/// Whether an item is a number, or a digit that stands for itself.
fn is_number(item: FormatItem) -> bool
    ensures { result ≡ specs.is_number item }
{
    match item {
        FormatItem::Part(_) => true,
        FormatItem::BarePart(_) => true,
        FormatItem::Literal(byte) => byte.is_ascii_digit(),
        _ => false,
    }
}

/// Whether the first item of a format is a number.
fn begins_number(is_quoted: bool, format: &[u8]) -> bool
    ensures { result ≡ specs.begins_number (items_from is_quoted format.now) }
{
    match next_item(is_quoted, format) {
        Some((item, _, _)) => is_number(item),
        None => false,
    }
}

/// The least number of digits of a number that may have `width`: all where another number follows.
fn least(is_full: bool, width: u8) -> u8
    ensures { result ≡ specs.least is_full width }
{
    if is_full { width } else { 1 }
}

/// The text after a byte that it has to begin with.
fn after_byte(byte: u8, text: &[u8]) -> Option<(u32, &[u8])>
    ensures { option_map (λ p. (p.0, p.1.now)) result ≡ specs.after_byte byte text.now }
{
    match text {
        [first, rest @ ..] if *first == byte => Some((0, rest)),
        _ => None,
    }
}

/// The month from January to June whose name begins with these small letters.
fn early_month(letters: &[u8]) -> Option<u32>
    ensures { result ≡ specs.early_month letters.now }
{
    if letters.starts_with(b"jan") {
        Some(1)
    } else if letters.starts_with(b"feb") {
        Some(2)
    } else if letters.starts_with(b"mar") {
        Some(3)
    } else if letters.starts_with(b"apr") {
        Some(4)
    } else if letters.starts_with(b"may") {
        Some(5)
    } else if letters.starts_with(b"jun") {
        Some(6)
    } else {
        None
    }
}

/// The same from July to December.
fn late_month(letters: &[u8]) -> Option<u32>
    ensures { result ≡ specs.late_month letters.now }
{
    if letters.starts_with(b"jul") {
        Some(7)
    } else if letters.starts_with(b"aug") {
        Some(8)
    } else if letters.starts_with(b"sep") {
        Some(9)
    } else if letters.starts_with(b"oct") {
        Some(10)
    } else if letters.starts_with(b"nov") {
        Some(11)
    } else if letters.starts_with(b"dec") {
        Some(12)
    } else {
        None
    }
}

/// The month whose name begins with these three letters, of any case.
#[tactic(auto, unfolding(crate::specs::ReadFormats::month_of))]
fn month_of(a: u8, b: u8, c: u8) -> Option<u32>
    ensures { result ≡ specs.month_of a b c }
{
    let letters = [
        a.to_ascii_lowercase(),
        b.to_ascii_lowercase(),
        c.to_ascii_lowercase(),
    ];
    early_month(&letters).or(late_month(&letters))
}

/// The month whose name's first three letters a text begins with, and the text after them.
fn named_month(text: &[u8]) -> Option<(u32, &[u8])>
    ensures { option_map (λ p. (p.0, p.1.now)) result ≡ specs.named_month text.now }
{
    match text {
        [a, b, c, rest @ ..] => Some((month_of(*a, *b, *c)?, rest)),
        _ => None,
    }
}

/// The text after letters that it has to begin with, of any case.
fn after_letters<'a>(letters: &[u8], text: &'a [u8]) -> Option<&'a [u8]>
    ensures { option_map (λ t. t.now) result ≡ specs.after_letters letters.now text.now }
{
    match letters {
        [] => Some(text),
        [letter, more @ ..] => match text {
            [byte, rest @ ..] if byte.eq_ignore_ascii_case(letter) => after_letters(more, rest),
            _ => None,
        },
    }
}

/// The month whose whole name a text begins with, of any case, and the text after it.
fn whole_month(text: &[u8]) -> Option<(u32, &[u8])>
    ensures { option_map (λ p. (p.0, p.1.now)) result ≡ specs.whole_month text.now }
{
    let (month, rest) = named_month(text)?;
    let unread = after_letters(&month_name(month).as_bytes()[3..], rest)?;
    Some((month, unread))
}

/// The half of the day whose first letter this is, of any case.
fn half_of(letter: u8) -> Option<u32>
    ensures { result ≡ specs.half_of letter }
{
    if letter.eq_ignore_ascii_case(&b'a') {
        Some(0)
    } else if letter.eq_ignore_ascii_case(&b'p') {
        Some(1)
    } else {
        None
    }
}

/// The half of the day that a text begins with, and the text after it.
fn half_day(text: &[u8]) -> Option<(u32, &[u8])>
    ensures { option_map (λ p. (p.0, p.1.now)) result ≡ specs.half_day text.now }
{
    match text {
        [first, second, rest @ ..] if second.eq_ignore_ascii_case(&b'm') => {
            Some((half_of(*first)?, rest))
        }
        _ => None,
    }
}

/// The year nearest to 2020 with these last two digits, the earlier one of two.
fn near_year(digits: u32) -> u32
    requires { digits ≤ 1000000 }
    ensures { result ≡ specs.near_year digits }
{
    if digits <= 69 {
        2000 + digits
    } else {
        1900 + digits
    }
}

/// The year of the two digits that a text begins with, and the text after them.
fn short_year(text: &[u8]) -> Option<(u32, &[u8])>
    ensures { option_map (λ p. (p.0, p.1.now)) result ≡ specs.short_year text.now }
{
    let (digits, rest) = number_of(2, 2, text)?;
    Some((near_year(digits), rest))
}

/// The number that a text has for a part, and the text after it.
fn read_part(part: FormatPart, is_full: bool, text: &[u8]) -> Option<(u32, &[u8])>
    ensures { option_map (λ p. (p.0, p.1.now)) result
        ≡ specs.read_part part is_full text.now }
{
    match part {
        FormatPart::Year => number_of(4, 4, text),
        FormatPart::ShortYear => short_year(text),
        FormatPart::Month => number_of(least(is_full, 2), 2, text),
        FormatPart::Day => number_of(least(is_full, 2), 2, text),
        FormatPart::Hour => number_of(least(is_full, 2), 2, text),
        FormatPart::HalfDayHour => number_of(least(is_full, 2), 2, text),
        FormatPart::Minute => number_of(least(is_full, 2), 2, text),
        FormatPart::Second => number_of(least(is_full, 2), 2, text),
        FormatPart::Millisecond => fraction_of(least(is_full, 3), 3, 1000, text),
        FormatPart::Microsecond => fraction_of(least(is_full, 6), 6, 1, text),
        _ => None,
    }
}

/// The same for an item.
fn item_number(item: FormatItem, is_full: bool, text: &[u8]) -> Option<(u32, &[u8])>
    ensures { option_map (λ p. (p.0, p.1.now)) result
        ≡ specs.item_number item is_full text.now }
{
    match item {
        FormatItem::Part(part) => read_part(part, is_full, text),
        FormatItem::Month(_) => whole_month(text),
        FormatItem::BareMonth(_) => whole_month(text),
        FormatItem::ShortMonth(_) => named_month(text),
        FormatItem::HalfDay(_) => half_day(text),
        FormatItem::Literal(byte) => after_byte(byte, text),
        _ => None,
    }
}

/// The fields that a text has by a format; none where it does not fit the format.
pub(crate) fn read_fields(format: &[u8], text: &[u8]) -> Option<Fields>
    ensures { result ≡ specs.read_items (items_of format.now) text.now no_fields }
{
    let mut fields = no_fields();
    let mut is_quoted = false;
    let mut items = format;
    let mut rest = text;
    while let Some((item, quoted, after)) = next_item(is_quoted, items) {
        let (number, unread) = item_number(item, begins_number(quoted, after), rest)?;
        fields = filled(fields, item, number)?;
        is_quoted = quoted;
        items = after;
        rest = unread;
    }
    if rest.is_empty() { Some(fields) } else { None }
}
