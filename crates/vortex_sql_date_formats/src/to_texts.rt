//! Dates and timestamps as the texts that they are by formats.
ghost use Rattle.std.specs.Prelude.{◌≡◌, IsUtf8, MatchOption, string_bytes};
ghost use Rattle.vortex_columns.specs.Cells.{cell_value};
ghost use Rattle.vortex_interface.specs.Outcomes.{custom, faults};
ghost use Rattle.vortex_types.specs.declared.dtype.PType.TheVariants.{I32, I64};
ghost use Rattle.vortex_sql_rows.specs.AnsweredRows.{MakesRow};
ghost use Rattle.vortex_sql_rows.specs.Faults.{faults_by};
ghost use Rattle.vortex_sql_rows.specs.Integers.{checked};
ghost use Rattle.vortex_sql_rows.specs.Shapes.{number_in, text_in, with_both};
ghost use Rattle.vortex_sql_texts.specs.MadeTexts.{text_or_fault};
ghost use Rattle.vortex_sql_dates.specs.Instants as instants;
ghost use Rattle.vortex_sql_date_formats.specs.FormatFaults.{unknown_format};
ghost use Rattle.vortex_sql_date_formats.specs.TimesByFormats as specs;

use crate::civil::civil_time;
use crate::faults::UNKNOWN_FORMAT;
use crate::written::{is_writable, push_format};
use std::alloc::Global;
use vortex_columns::{Cell, PType, VortexError, VortexResult};
use vortex_sql_rows::cells::{int_in, text_in};
use vortex_sql_rows::faults::RowFault;
use vortex_sql_rows::ranges::is_in;
use vortex_sql_rows::row::{Signature, TextFn};
use vortex_sql_rows::types::{Gives, Kind, Takes};
use vortex_sql_texts::made::text_or_fault;

/// `date_to_char(date, format)`: the text of the date, in days since 1970-01-01, by the format.
/// Faults: `UNKNOWN_FORMAT`, and `DateRange` outside the years 1 to 9999.
pub struct DateToChar;

/// `timestamp_to_char(timestamp, format)`: the text of the timestamp, in microseconds since
/// 1970-01-01T00:00:00, by the format. Faults: `UNKNOWN_FORMAT`, and `TimestampRange` outside the
/// years 1 to 9999.
pub struct TimestampToChar;

/// A fault of a row.
fn no_text(fault: RowFault) -> VortexResult<Option<String>>
    ensures { MakesRow (faults_by fault) result }
{
    Err(VortexError::Custom(fault.number()))
}

/// The fault of a format that is none that is taken.
fn unknown_format() -> VortexResult<Option<String>>
    ensures { MakesRow (faults (custom unknown_format)) result }
{
    Err(VortexError::Custom(UNKNOWN_FORMAT))
}

/// The text of these bytes, if they are UTF-8.
fn utf8_text(bytes: Vec<u8>) -> Option<String>
    ensures { MatchOption result (¬ IsUtf8 bytes.items) (λ s. string_bytes s ≡ bytes.items) }
{
    let Ok(text) = String::from_utf8(bytes) else {
        return None;
    };
    Some(text)
}

/// The text of these bytes, or the fault where they are none.
#[tactic(auto, using(crate::proofs::WrittenBytes::no_text_is))]
fn bytes_or_fault(bytes: Vec<u8>) -> VortexResult<Option<String>>
    ensures { MakesRow (text_or_fault bytes.items) result }
{
    match utf8_text(bytes) {
        Some(text) => text_or_fault(text),
        None => no_text(RowFault::TextTooLong),
    }
}

/// The text of a time of a day by a format that is known.
#[tactic(auto, unfolding(crate::specs::TimesByFormats::known_text))]
fn known_text(
    alloc: Global,
    format: &str,
    fault: RowFault,
    day: i64,
    time: u64,
) -> VortexResult<Option<String>>
    ensures { MakesRow (specs.known_text format.now fault day time) result }
{
    if day < -719_162 || 2_932_896 < day {
        return no_text(fault);
    }
    let mut out = Vec::new(alloc);
    push_format(format.as_bytes(), civil_time(day, time), &mut out)?;
    bytes_or_fault(out)
}

/// The text of a time of a day by a format.
#[tactic(auto, unfolding(crate::specs::TimesByFormats::time_text))]
fn time_text(
    alloc: Global,
    format: &str,
    fault: RowFault,
    day: i64,
    time: u64,
) -> VortexResult<Option<String>>
    ensures { MakesRow (specs.time_text format.now fault day time) result }
{
    if is_writable(format.as_bytes()) {
        known_text(alloc, format, fault, day, time)
    } else {
        unknown_format()
    }
}

#[tactic(auto, unfolding(crate::specs::TimesByFormats::date_text))]
fn date_text(alloc: Global, day: i128, format: &str) -> VortexResult<Option<String>>
    ensures { MakesRow (specs.date_text day format.now) result }
{
    if is_in(PType::I32, day) {
        time_text(alloc, format, RowFault::DateRange, day as i64, 0)
    } else {
        no_text(RowFault::OtherValues)
    }
}

/// The number of an instant's day.
fn day_of(micros: i64) -> i64
    ensures { result ≡ instants.day_of micros }
{
    micros.div_euclid(86_400_000_000)
}

/// The microseconds of its day before an instant.
fn time_of(micros: i64) -> u64
    ensures { result ≡ instants.time_of micros }
{
    micros.rem_euclid(86_400_000_000) as u64
}

#[tactic(auto, unfolding(crate::specs::TimesByFormats::instant_text))]
fn instant_text(alloc: Global, micros: i64, format: &str) -> VortexResult<Option<String>>
    ensures { MakesRow (specs.instant_text micros format.now) result }
{
    let fault = RowFault::TimestampRange;
    time_text(alloc, format, fault, day_of(micros), time_of(micros))
}

#[tactic(auto, unfolding(crate::specs::TimesByFormats::timestamp_text))]
fn timestamp_text(alloc: Global, micros: i128, format: &str) -> VortexResult<Option<String>>
    ensures { MakesRow (specs.timestamp_text micros format.now) result }
{
    if is_in(PType::I64, micros) {
        instant_text(alloc, micros as i64, format)
    } else {
        no_text(RowFault::OtherValues)
    }
}

fn date_of(alloc: Global, day: &Cell<'_>, format: &Cell<'_>) -> VortexResult<Option<String>>
    ensures { MakesRow (with_both specs.date_text (number_in (cell_value day.now))
        (text_in (cell_value format.now))) result }
{
    let Some(day) = int_in(day) else {
        return no_text(RowFault::OtherValues);
    };
    let Some(format) = text_in(format) else {
        return no_text(RowFault::OtherValues);
    };
    date_text(alloc, day, format)
}

fn timestamp_of(alloc: Global, micros: &Cell<'_>, format: &Cell<'_>) -> VortexResult<Option<String>>
    ensures { MakesRow (with_both specs.timestamp_text (number_in (cell_value micros.now))
        (text_in (cell_value format.now))) result }
{
    let Some(micros) = int_in(micros) else {
        return no_text(RowFault::OtherValues);
    };
    let Some(format) = text_in(format) else {
        return no_text(RowFault::OtherValues);
    };
    timestamp_text(alloc, micros, format)
}

impl TextFn for DateToChar {
    ghost about = { λ f. specs.date_row };

    fn signature(&self) -> Signature {
        let takes = Takes::Each(Kind::Within(PType::I32), Kind::Text, Kind::Text);
        Signature::strict("sql.date_to_char", 2, takes, Gives::Text, false)
    }

    fn make(
        &self,
        alloc: Global,
        _ptype: PType,
        cells: &[Cell<'_>],
    ) -> VortexResult<Option<String>> {
        match cells {
            [day, format] => date_of(alloc, day, format),
            [] => no_text(RowFault::OtherValues),
            [_] => no_text(RowFault::OtherValues),
            [_, _, _, ..] => no_text(RowFault::OtherValues),
        }
    }

    ghost lawful = { λ f. specs.date_lawful };
}

impl TextFn for TimestampToChar {
    ghost about = { λ f. specs.timestamp_row };

    fn signature(&self) -> Signature {
        let takes = Takes::Each(Kind::Within(PType::I64), Kind::Text, Kind::Text);
        Signature::strict("sql.timestamp_to_char", 2, takes, Gives::Text, false)
    }

    fn make(
        &self,
        alloc: Global,
        _ptype: PType,
        cells: &[Cell<'_>],
    ) -> VortexResult<Option<String>> {
        match cells {
            [micros, format] => timestamp_of(alloc, micros, format),
            [] => no_text(RowFault::OtherValues),
            [_] => no_text(RowFault::OtherValues),
            [_, _, _, ..] => no_text(RowFault::OtherValues),
        }
    }

    ghost lawful = { λ f. specs.timestamp_lawful };
}
