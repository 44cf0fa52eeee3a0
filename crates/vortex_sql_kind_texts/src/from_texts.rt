//! Casts of texts to dates, timestamps, floats and decimals. Spaces at their ends are passed over.
ghost use Rattle.std.specs.Prelude.{◌≡◌, option_and_then};
ghost use Rattle.std.specs.Char.{is_ascii_digit};
ghost use Rattle.std.specs.List.{list_any};
ghost use Rattle.vortex_columns.specs.Cells.{cell_value};
ghost use Rattle.vortex_logical.specs.Cells.{stored_of_text};
ghost use Rattle.vortex_logical.specs.declared.kind.Kind.TheVariants as kind;
ghost use Rattle.vortex_sql_rows.specs.AnsweredRows.{AnswersRow};
ghost use Rattle.vortex_sql_rows.specs.Shapes.{number_in, text_in, with_three};
ghost use Rattle.vortex_sql_kind_texts.specs.TextKinds as specs;

use crate::cells::{digits_in, other_values};
use crate::kinds::StoredKind;
use vortex_columns::{Cell, PType, VortexResult};
use vortex_interface::ScalarFnId;
use vortex_logical::cells::read_cell;
use vortex_logical::digits::DecimalDigits;
use vortex_logical::kind::Kind;
use vortex_sql_rows::cells::{int_in, int_or_fault, only_text, text_in};
use vortex_sql_rows::faults::RowFault;
use vortex_sql_rows::ranges::checked;
use vortex_sql_rows::row::{RowFn, Signature};
use vortex_sql_rows::types::{Gives, Kind as Argument, Takes};
use vortex_sql_texts::text_casts::within_spaces;

/// A cast of a text to the integer that stands for a date, a timestamp or a float, with a fault
/// where it is none: a date is `YYYY-MM-DD`, a timestamp as `vortex_logical` reads it or a date
/// alone, which is its midnight, a float a decimal number, rounded once, or `nan`, `inf` or
/// `infinity`; a number so large that it would be rounded to an infinity is no float.
#[derive(Clone, Copy, Debug, PartialEq, Eq)]
pub struct TextToKind {
    pub kind: StoredKind,
}

/// A cast of a text to the decimal of a precision and a scale; the fault `NoDecimal` where it is
/// none, as with more digits after the point, and `OtherValues` where there are no such decimals.
pub struct TextToDecimal;

/// The microseconds of a day's midnight, if 64 bits hold them.
fn midnight(day: i64) -> Option<i64>
    ensures { result ≡ specs.midnight day }
{
    day.checked_mul(86_400_000_000)
}

fn midnight_of(text: &[u8]) -> Option<i64>
    ensures { result ≡ option_and_then specs.midnight (stored_of_text kind.Date text.now) }
{
    midnight(read_cell(Kind::Date, text)?)
}

fn has_digit(text: &[u8]) -> bool
    ensures { result ≡ list_any is_ascii_digit text.now }
{
    text.iter().any(|byte| byte.is_ascii_digit())
}

/// Whether an infinity was read of a text with digits, whose number no float holds.
fn is_past(infinity: u64, text: &[u8], number: i64) -> bool
    ensures { result ≡ specs.is_past infinity text.now number }
{
    number.unsigned_abs() == infinity && has_digit(text)
}

/// The stored float, unless no float holds the number.
fn held(infinity: u64, text: &[u8], number: i64) -> Option<i64>
    ensures { result ≡ specs.held infinity text.now number }
{
    if is_past(infinity, text, number) {
        None
    } else {
        Some(number)
    }
}

fn is_read_past(kind: Kind, infinity: u64, text: &[u8]) -> bool
    ensures { result ≡ specs.is_read_past kind infinity text.now }
{
    match read_cell(kind, text) {
        Some(number) => is_past(infinity, text, number),
        None => false,
    }
}

/// Whether the text is a number so large that it would be rounded to an infinity of the kind.
pub fn overflows(kind: Kind, text: &[u8]) -> bool
    ensures { result ≡ specs.overflows kind text.now }
{
    match kind {
        Kind::F64 => is_read_past(Kind::F64, 9_218_868_437_227_405_312, text),
        Kind::F32 => is_read_past(Kind::F32, 2_139_095_040, text),
        _ => false,
    }
}

fn float_of(kind: Kind, infinity: u64, text: &[u8]) -> Option<i64>
    ensures { result ≡ specs.float_of kind infinity text.now }
{
    held(infinity, text, read_cell(kind, text)?)
}

fn stored_of(stored: StoredKind, text: &[u8]) -> Option<i64>
    ensures { result ≡ specs.stored_of stored text.now }
{
    match stored {
        StoredKind::Timestamp => match midnight_of(text) {
            Some(micros) => Some(micros),
            None => read_cell(Kind::Timestamp, text),
        },
        StoredKind::Date => read_cell(Kind::Date, text),
        StoredKind::F64 => float_of(Kind::F64, 9_218_868_437_227_405_312, text),
        StoredKind::F32 => float_of(Kind::F32, 2_139_095_040, text),
    }
}

/// The stored integer, if its type has it, or the fault.
fn stored_or_fault<'a>(fault: RowFault, ptype: PType, number: Option<i64>) -> VortexResult<Cell<'a>>
    ensures { AnswersRow (specs.stored_or_fault fault ptype number) result }
{
    match number {
        Some(number) => int_or_fault(checked(ptype, i128::from(number)), fault),
        None => int_or_fault(None, fault),
    }
}

fn text_id(stored: StoredKind) -> ScalarFnId
    ensures { result.now ≡ specs.text_id stored }
{
    match stored {
        StoredKind::Date => "sql.utf8_to_date",
        StoredKind::Timestamp => "sql.utf8_to_timestamp",
        StoredKind::F64 => "sql.utf8_to_f64",
        StoredKind::F32 => "sql.utf8_to_f32",
    }
}

impl RowFn for TextToKind {
    ghost about = { λ f. specs.text_row f.kind };

    fn signature(&self) -> Signature {
        Signature::strict(
            text_id(self.kind),
            1,
            Takes::Alike(Argument::Text),
            Gives::Integer(self.kind.ptype()),
            false,
        )
    }

    fn answer<'a>(&self, _ptype: PType, cells: &[Cell<'a>]) -> VortexResult<Cell<'a>> {
        let Some(text) = only_text(cells) else {
            return Ok(Cell::Null);
        };
        let number = stored_of(self.kind, within_spaces(text).as_bytes());
        stored_or_fault(self.kind.fault(), self.kind.ptype(), number)
    }

    ghost lawful = { λ f. specs.text_lawful f.kind };
}

fn text_digits<'a>(text: &str, digits: DecimalDigits) -> VortexResult<Cell<'a>>
    ensures { AnswersRow (specs.text_digits text.now digits) result }
{
    let number = read_cell(Kind::Decimal(digits), within_spaces(text).as_bytes());
    stored_or_fault(RowFault::NoDecimal, PType::I64, number)
}

fn text_decimal<'a>(text: &str, precision: i128, scale: i128) -> VortexResult<Cell<'a>>
    ensures { AnswersRow (specs.text_decimal text.now precision scale) result }
{
    match digits_in(precision, scale) {
        Some(digits) => text_digits(text, digits),
        None => other_values(),
    }
}

fn decimal_of<'a>(text: &Cell<'_>, precision: &Cell<'_>, scale: &Cell<'_>) -> VortexResult<Cell<'a>>
    ensures { AnswersRow (with_three specs.text_decimal (text_in (cell_value text.now))
        (number_in (cell_value precision.now)) (number_in (cell_value scale.now))) result }
{
    let Some(text) = text_in(text) else {
        return other_values();
    };
    let Some(precision) = int_in(precision) else {
        return other_values();
    };
    let Some(scale) = int_in(scale) else {
        return other_values();
    };
    text_decimal(text, precision, scale)
}

impl RowFn for TextToDecimal {
    ghost about = { λ f. specs.decimal_row };

    fn signature(&self) -> Signature {
        let takes = Takes::Each(Argument::Text, Argument::Integer, Argument::Integer);
        Signature::strict(
            "sql.utf8_to_decimal",
            3,
            takes,
            Gives::Integer(PType::I64),
            false,
        )
    }

    fn answer<'a>(&self, _ptype: PType, cells: &[Cell<'a>]) -> VortexResult<Cell<'a>> {
        let [text, precision, scale] = cells else {
            return other_values();
        };
        decimal_of(text, precision, scale)
    }

    ghost lawful = { λ f. specs.decimal_lawful };
}
