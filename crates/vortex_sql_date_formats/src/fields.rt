//! The parts of a date and of a time that a format has, each once.
ghost use Rattle.std.specs.Prelude.{◌≡◌};
ghost use Rattle.vortex_sql_date_formats.specs.Formats.{items_of};
ghost use Rattle.vortex_sql_date_formats.specs.Fields as specs;

use crate::formats::next_item;
use crate::items::{FormatItem, FormatPart};

/// The numbers of a date and of a time that are read; none of those that the format does not have.
#[derive(Clone, Copy, Debug, PartialEq, Eq)]
pub struct Fields {
    pub year: Option<u32>,
    pub month: Option<u32>,
    pub day: Option<u32>,
    /// From 0 to 23.
    pub hour: Option<u32>,
    /// From 1 to 12.
    pub half_hour: Option<u32>,
    /// 0 before noon, 1 from noon on.
    pub half: Option<u32>,
    pub minute: Option<u32>,
    pub second: Option<u32>,
    /// The millionths of the second.
    pub micros: Option<u32>,
}

pub(crate) fn no_fields() -> Fields
    ensures { result ≡ specs.no_fields }
{
    Fields {
        year: None,
        month: None,
        day: None,
        hour: None,
        half_hour: None,
        half: None,
        minute: None,
        second: None,
        micros: None,
    }
}

/// The fields with one more, if it was not filled before.
fn unless_filled(before: Option<u32>, fields: Fields) -> Option<Fields>
    ensures { result ≡ specs.unless_filled before fields }
{
    match before {
        None => Some(fields),
        Some(_) => None,
    }
}

/// The hour that is filled, of the day or of half of it.
fn hour_before(fields: Fields) -> Option<u32>
    ensures { result ≡ specs.hour_before fields }
{
    fields.hour.or(fields.half_hour)
}

/// The fields with the number of a part; none where they have one before, and of parts that are
/// only written.
fn filled_part(old: Fields, part: FormatPart, number: u32) -> Option<Fields>
    ensures { result ≡ specs.filled_part part number old }
{
    let new = Some(number);
    match part {
        FormatPart::Year => unless_filled(old.year, Fields { year: new, ..old }),
        FormatPart::ShortYear => unless_filled(old.year, Fields { year: new, ..old }),
        FormatPart::Month => unless_filled(old.month, Fields { month: new, ..old }),
        FormatPart::Day => unless_filled(old.day, Fields { day: new, ..old }),
        FormatPart::Hour => unless_filled(hour_before(old), Fields { hour: new, ..old }),
        FormatPart::HalfDayHour => {
            let fields = Fields {
                half_hour: new,
                ..old
            };
            unless_filled(hour_before(old), fields)
        }
        FormatPart::Minute => unless_filled(old.minute, Fields { minute: new, ..old }),
        FormatPart::Second => unless_filled(old.second, Fields { second: new, ..old }),
        FormatPart::Millisecond => unless_filled(old.micros, Fields { micros: new, ..old }),
        FormatPart::Microsecond => unless_filled(old.micros, Fields { micros: new, ..old }),
        _ => None,
    }
}

/// The same of an item.
pub(crate) fn filled(old: Fields, item: FormatItem, number: u32) -> Option<Fields>
    ensures { result ≡ specs.filled item number old }
{
    let new = Some(number);
    match item {
        FormatItem::Part(part) => filled_part(old, part, number),
        FormatItem::Month(_) => unless_filled(old.month, Fields { month: new, ..old }),
        FormatItem::BareMonth(_) => unless_filled(old.month, Fields { month: new, ..old }),
        FormatItem::ShortMonth(_) => unless_filled(old.month, Fields { month: new, ..old }),
        FormatItem::HalfDay(_) => unless_filled(old.half, Fields { half: new, ..old }),
        FormatItem::Literal(_) => Some(old),
        _ => None,
    }
}

/// The fields that a format fills, all with 0; none where it fills one twice.
fn planned(format: &[u8]) -> Option<Fields>
    ensures { result ≡ specs.planned (items_of format.now) specs.no_fields }
{
    let mut fields = no_fields();
    let mut is_quoted = false;
    let mut rest = format;
    while let Some((item, quoted, after)) = next_item(is_quoted, rest) {
        fields = filled(fields, item, 0)?;
        is_quoted = quoted;
        rest = after;
    }
    Some(fields)
}

/// Whether there is a year, and the half of the day only with an hour of it.
fn are_enough(fields: Fields) -> bool
    ensures { result ≡ specs.are_enough fields }
{
    fields.year.is_some() && (fields.half.is_none() || fields.half_hour.is_some())
}

/// Whether texts can be read by a format: it fills enough fields, and none twice.
pub(crate) fn is_readable(format: &[u8]) -> bool
    ensures { result ≡ specs.is_readable (items_of format.now) }
{
    match planned(format) {
        Some(fields) => are_enough(fields),
        None => false,
    }
}
