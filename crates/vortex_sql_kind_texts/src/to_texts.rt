//! Casts of dates, timestamps and decimals to texts.
ghost use Rattle.std.specs.Prelude.{◌≡◌, IsUtf8, MatchOption, string_bytes};
ghost use Rattle.vortex_types.specs.declared.dtype.PType.TheVariants.{I32};
ghost use Rattle.vortex_columns.specs.Cells.{cell_value};
ghost use Rattle.vortex_sql_rows.specs.AnsweredRows.{MakesRow};
ghost use Rattle.vortex_sql_rows.specs.Integers.{checked};
ghost use Rattle.vortex_sql_rows.specs.Shapes.{number_in, with_both};
ghost use Rattle.vortex_sql_texts.specs.MadeTexts.{text_or_fault};
ghost use Rattle.vortex_sql_kind_texts.specs.KindTexts as specs;
ghost use Rattle.vortex_sql_kind_texts.specs.StoredKinds.{written_ptype_of};

use crate::cells::{digits_in, no_text, stored_in};
use crate::kinds::WrittenKind;
use std::alloc::Global;
use vortex_columns::{Cell, PType, VortexResult};
use vortex_interface::ScalarFnId;
use vortex_logical::cells::write_cell;
use vortex_logical::dates::dated_days;
use vortex_logical::decimals::write_decimal;
use vortex_logical::digits::DecimalDigits;
use vortex_sql_rows::cells::{int_in, only_int};
use vortex_sql_rows::faults::RowFault;
use vortex_sql_rows::ranges::is_in;
use vortex_sql_rows::row::{Signature, TextFn};
use vortex_sql_rows::types::{Gives, Kind, Takes};
use vortex_sql_texts::made::text_or_fault;

/// A cast of the integer that stands for a date or a timestamp to its text, as `2024-02-29` and
/// `2024-02-29T12:34:56`, or the latter with six digits after a point where some is not 0; the fault
/// `DateRange` or `TimestampRange` outside the years 0000 to 9999.
#[derive(Clone, Copy, Debug, PartialEq, Eq)]
pub struct KindToText {
    pub kind: WrittenKind,
}

/// A cast of the integer that stands for a decimal, and its scale, to its text, as `12.50`; the
/// fault `OtherValues` where the scale is not from 0 to 18.
pub struct DecimalToText;

/// The text of these bytes, if they are UTF-8.
fn utf8_text(bytes: Vec<u8>) -> Option<String>
    ensures { MatchOption result (¬ IsUtf8 bytes.items) (λ s. string_bytes s ≡ bytes.items) }
{
    let Ok(text) = String::from_utf8(bytes) else {
        return None;
    };
    Some(text)
}

/// The text of these bytes, or the fault where they are none.
#[tactic(auto, using(crate::proofs::WrittenBytes::no_text_is))]
pub(crate) fn bytes_or_fault(bytes: Vec<u8>) -> VortexResult<Option<String>>
    ensures { MakesRow (text_or_fault bytes.items) result }
{
    match utf8_text(bytes) {
        Some(text) => text_or_fault(text),
        None => no_text(RowFault::TextTooLong),
    }
}

/// The text of a stored integer, or the fault where it has none.
fn kind_text(alloc: Global, kind: WrittenKind, number: i64) -> VortexResult<Option<String>>
    ensures { MakesRow (specs.kind_text kind number) result }
{
    dated_days();
    let mut out = Vec::new(alloc);
    if write_cell(kind.kind(), number, &mut out)? {
        bytes_or_fault(out)
    } else {
        no_text(kind.fault())
    }
}

/// The number, if it has 32 bits.
pub(crate) fn day_in(number: i128) -> Option<i64>
    ensures { result ≡ checked I32 number }
{
    if is_in(PType::I32, number) {
        Some(number as i64)
    } else {
        None
    }
}

fn of_kind(kind: WrittenKind, number: i128) -> Option<i64>
    ensures { result ≡ checked (written_ptype_of kind) number }
{
    match kind {
        WrittenKind::Date => day_in(number),
        WrittenKind::Timestamp => stored_in(number),
    }
}

fn number_text(alloc: Global, kind: WrittenKind, number: i128) -> VortexResult<Option<String>>
    ensures { MakesRow (specs.number_text kind number) result }
{
    match of_kind(kind, number) {
        Some(number) => kind_text(alloc, kind, number),
        None => no_text(RowFault::OtherValues),
    }
}

fn kind_id(kind: WrittenKind) -> ScalarFnId
    ensures { result.now ≡ specs.kind_id kind }
{
    match kind {
        WrittenKind::Date => "sql.date_to_utf8",
        WrittenKind::Timestamp => "sql.timestamp_to_utf8",
    }
}

impl TextFn for KindToText {
    ghost about = { λ f. specs.kind_row f.kind };

    fn signature(&self) -> Signature {
        Signature::strict(
            kind_id(self.kind),
            1,
            Takes::Alike(Kind::Within(self.kind.ptype())),
            Gives::Text,
            false,
        )
    }

    fn make(
        &self,
        alloc: Global,
        _ptype: PType,
        cells: &[Cell<'_>],
    ) -> VortexResult<Option<String>> {
        match only_int(cells) {
            Some(a) => number_text(alloc, self.kind, a),
            None => Ok(None),
        }
    }

    ghost lawful = { λ f. specs.kind_lawful f.kind };
}

fn digits_text(alloc: Global, number: i64, digits: DecimalDigits) -> VortexResult<Option<String>>
    ensures { MakesRow (specs.digits_text number digits) result }
{
    let mut out = Vec::new(alloc);
    write_decimal(digits, number, &mut out)?;
    bytes_or_fault(out)
}

fn scaled_text(alloc: Global, number: i64, scale: i128) -> VortexResult<Option<String>>
    ensures { MakesRow (specs.scaled_text scale number) result }
{
    match digits_in(18, scale) {
        Some(digits) => digits_text(alloc, number, digits),
        None => no_text(RowFault::OtherValues),
    }
}

fn decimal_digits_text(alloc: Global, number: i128, scale: i128) -> VortexResult<Option<String>>
    ensures { MakesRow (specs.decimal_digits_text number scale) result }
{
    match stored_in(number) {
        Some(number) => scaled_text(alloc, number, scale),
        None => no_text(RowFault::OtherValues),
    }
}

fn decimal_text(alloc: Global, number: &Cell<'_>, scale: &Cell<'_>) -> VortexResult<Option<String>>
    ensures { MakesRow (with_both specs.decimal_digits_text (number_in (cell_value number.now))
        (number_in (cell_value scale.now))) result }
{
    let Some(number) = int_in(number) else {
        return no_text(RowFault::OtherValues);
    };
    let Some(scale) = int_in(scale) else {
        return no_text(RowFault::OtherValues);
    };
    decimal_digits_text(alloc, number, scale)
}

impl TextFn for DecimalToText {
    ghost about = { λ f. specs.decimal_row };

    fn signature(&self) -> Signature {
        let takes = Takes::Each(Kind::Within(PType::I64), Kind::Integer, Kind::Integer);
        Signature::strict("sql.decimal_to_utf8", 2, takes, Gives::Text, false)
    }

    fn make(
        &self,
        alloc: Global,
        _ptype: PType,
        cells: &[Cell<'_>],
    ) -> VortexResult<Option<String>> {
        match cells {
            [number, scale] => decimal_text(alloc, number, scale),
            [] => no_text(RowFault::OtherValues),
            [_] => no_text(RowFault::OtherValues),
            [_, _, _, ..] => no_text(RowFault::OtherValues),
        }
    }

    ghost lawful = { λ f. specs.decimal_lawful };
}
