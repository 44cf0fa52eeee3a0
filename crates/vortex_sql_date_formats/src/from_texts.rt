//! Texts as the dates and timestamps that they are by formats.
ghost use Rattle.std.specs.Prelude.{◌≡◌, ◌+ℤ◌, ◌*ℤ◌, pos};
ghost use Rattle.vortex_columns.specs.Cells.{cell_value};
ghost use Rattle.vortex_sql_rows.specs.AnsweredRows.{AnswersRow};
ghost use Rattle.vortex_sql_rows.specs.Shapes.{text_in, with_both};
ghost use Rattle.vortex_sql_date_formats.specs.TextsByFormats as specs;

use crate::faults::{other_format, other_values, unknown_format};
use crate::fields::is_readable;
use crate::instants::instant_of;
use crate::read::read_fields;
use vortex_columns::{Cell, PType, VortexResult};
use vortex_sql_rows::cells::text_in;
use vortex_sql_rows::row::{RowFn, Signature};
use vortex_sql_rows::types::{Gives, Kind, Takes};

/// `utf8_to_date_by(text, format)`: the days since 1970-01-01 of the date that the text is by the
/// format, in the years 1 to 9999. Faults: `UNKNOWN_FORMAT`, and `OTHER_FORMAT` where the text does
/// not fit the format or the calendar does not have the day.
pub struct TextToDateBy;

/// `utf8_to_timestamp_by(text, format)`: the microseconds since 1970-01-01T00:00:00 of that
/// timestamp, with the same faults.
pub struct TextToTimestampBy;

/// The day that a text is by a format, and the time of that day.
fn instant_by(text: &str, format: &str) -> Option<(i32, u64)>
    ensures { result ≡ specs.instant_by text.now format.now }
{
    instant_of(read_fields(format.as_bytes(), text.as_bytes())?)
}

fn date_by<'a>(text: &str, format: &str) -> VortexResult<Cell<'a>>
    ensures { AnswersRow (specs.date_by text.now format.now) result }
{
    if !is_readable(format.as_bytes()) {
        return unknown_format();
    }
    match instant_by(text, format) {
        Some((day, _)) => Ok(Cell::Int(i128::from(day))),
        None => other_format(),
    }
}

/// The microseconds of a time of a day since 1970-01-01.
fn micros(day: i32, time: u64) -> i128
    ensures { result ≡ day *ℤ pos 86_400_000_000 +ℤ pos time }
{
    i128::from(day) * 86_400_000_000 + i128::from(time)
}

fn timestamp_by<'a>(text: &str, format: &str) -> VortexResult<Cell<'a>>
    ensures { AnswersRow (specs.timestamp_by text.now format.now) result }
{
    if !is_readable(format.as_bytes()) {
        return unknown_format();
    }
    match instant_by(text, format) {
        Some((day, time)) => Ok(Cell::Int(micros(day, time))),
        None => other_format(),
    }
}

impl RowFn for TextToDateBy {
    ghost about = { λ f. specs.date_by_row };

    fn signature(&self) -> Signature {
        Signature::strict(
            "sql.utf8_to_date_by",
            2,
            Takes::Alike(Kind::Text),
            Gives::Integer(PType::I32),
            false,
        )
    }

    fn answer<'a>(&self, _ptype: PType, cells: &[Cell<'a>]) -> VortexResult<Cell<'a>> {
        let [text, format] = cells else {
            return Ok(Cell::Null);
        };
        let Some(text) = text_in(text) else {
            return Ok(Cell::Null);
        };
        let Some(format) = text_in(format) else {
            return Ok(Cell::Null);
        };
        date_by(text, format)
    }

    ghost lawful = { λ f. specs.date_by_lawful };
}

impl RowFn for TextToTimestampBy {
    ghost about = { λ f. specs.timestamp_by_row };

    fn signature(&self) -> Signature {
        Signature::strict(
            "sql.utf8_to_timestamp_by",
            2,
            Takes::Alike(Kind::Text),
            Gives::Integer(PType::I64),
            false,
        )
    }

    fn answer<'a>(&self, _ptype: PType, cells: &[Cell<'a>]) -> VortexResult<Cell<'a>> {
        let [text, format] = cells else {
            return Ok(Cell::Null);
        };
        let Some(text) = text_in(text) else {
            return Ok(Cell::Null);
        };
        let Some(format) = text_in(format) else {
            return Ok(Cell::Null);
        };
        timestamp_by(text, format)
    }

    ghost lawful = { λ f. specs.timestamp_by_lawful };
}
