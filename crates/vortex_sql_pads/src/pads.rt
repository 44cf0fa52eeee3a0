//! Texts that are filled up to a length: `lpad` and `rpad`.
ghost use Rattle.std.specs.Prelude.{◌≡◌, codes, length, string_bytes, IfOk};
ghost use Rattle.std.specs.Str.{chars};
ghost use Rattle.vortex_errors.specs.Answers.{Answers};
ghost use Rattle.vortex_columns.specs.Cells.{cell_value};
ghost use Rattle.vortex_sql_rows.specs.AnsweredRows.{MakesRow};
ghost use Rattle.vortex_sql_rows.specs.Shapes.{number_in, text_in, with_both, with_three};
ghost use Rattle.vortex_sql_texts.specs.Characters.{at_least_zero, first_chars};
ghost use Rattle.vortex_sql_texts.specs.MadeTexts.{IsTooLong};
ghost use Rattle.vortex_sql_pads.specs.Pads.{filler, pad_lawful, pad_of, pad_row, padded};

use crate::made::{no_text, text_or_fault};
use std::alloc::{AllocError, Global};
use vortex_columns::{Arity, Cell, PType, VortexError, VortexResult};
use vortex_sql_rows::cells::{int_in, text_in};
use vortex_sql_rows::faults::RowFault;
use vortex_sql_rows::row::{Signature, TextFn};
use vortex_sql_rows::types::{Gives, Kind, Nulls, Takes, Types};

/// `lpad(a, n)`, `lpad(a, n, b)`, `rpad(a, n)` or `rpad(a, n, b)`
#[derive(Clone, Copy, Debug, PartialEq, Eq)]
pub enum Pad {
    Left,
    Right,
}

fn count_chars(text: &str) -> usize
    ensures { result ≡ length (chars text.now) }
{
    text.chars().count()
}

/// The first `count` characters of a text.
fn first_chars(alloc: Global, text: &str, count: usize) -> Result<String, AllocError>
    ensures { IfOk result (λ made. string_bytes made ≡ first_chars count text.now) }
{
    text.chars().take(count).collect(alloc)
}

/// So many characters of a text, again and again from its start. Too many are not made.
fn filled(alloc: Global, text: &str, count: u128) -> VortexResult<String>
    ensures { Answers result (λ made. string_bytes made ≡ filler count text.now)
        (IsTooLong (filler count text.now)) }
{
    let width = count_chars(text);
    if width == 0 {
        return Ok(String::new(alloc));
    }
    let times = count / width as u128;
    if times > 4294967295 {
        return Err(VortexError::Custom(RowFault::TextTooLong.number()));
    }
    if times * text.len() as u128 > 4294967295 {
        return Err(VortexError::Custom(RowFault::TextTooLong.number()));
    }
    let mut made = text.repeat(alloc, times as usize)?;
    let rest = (count % width as u128) as usize;
    let part = first_chars(alloc, text, rest)?;
    made.push_str(part.as_str())?;
    Ok(made)
}

fn padded(alloc: Global, pad: Pad, text: &str, count: u128, fill: &str) -> VortexResult<String>
    ensures { Answers result (λ made. string_bytes made ≡ padded pad count text.now fill.now)
        (IsTooLong (padded pad count text.now fill.now)) }
{
    let width = count_chars(text);
    if count <= width as u128 {
        return Ok(first_chars(alloc, text, count as usize)?);
    }
    let mut made = filled(alloc, fill, count - width as u128)?;
    match pad {
        Pad::Left => {
            made.push_str(text)?;
            Ok(made)
        }
        Pad::Right => {
            let mut whole = String::from_str(alloc, text)?;
            whole.push_str(made.as_str())?;
            Ok(whole)
        }
    }
}

/// The number, or zero where it is negative.
fn at_least_zero(number: i128) -> u128
    ensures { result ≡ at_least_zero number }
{
    if number < 0 { 0 } else { number as u128 }
}

#[tactic(auto, using(crate::proofs::TextRoom::too_long_rows))]
fn pad_of(
    alloc: Global,
    pad: Pad,
    text: &str,
    count: i128,
    fill: &str,
) -> VortexResult<Option<String>>
    ensures { MakesRow (pad_of pad text.now count fill.now) result }
{
    match padded(alloc, pad, text, at_least_zero(count), fill) {
        Ok(made) => text_or_fault(made),
        Err(error) => Err(error),
    }
}

fn pad_by_blanks(
    alloc: Global,
    pad: Pad,
    text: &Cell<'_>,
    count: &Cell<'_>,
) -> VortexResult<Option<String>>
    ensures { MakesRow (with_both (λ bs z. pad_of pad bs z (codes " "))
        (text_in (cell_value text.now)) (number_in (cell_value count.now))) result }
{
    let Some(text) = text_in(text) else {
        return no_text();
    };
    let Some(count) = int_in(count) else {
        return no_text();
    };
    pad_of(alloc, pad, text, count, " ")
}

fn pad_by_text(
    alloc: Global,
    pad: Pad,
    text: &Cell<'_>,
    count: &Cell<'_>,
    fill: &Cell<'_>,
) -> VortexResult<Option<String>>
    ensures { MakesRow (with_three (pad_of pad) (text_in (cell_value text.now))
        (number_in (cell_value count.now)) (text_in (cell_value fill.now))) result }
{
    let Some(text) = text_in(text) else {
        return no_text();
    };
    let Some(count) = int_in(count) else {
        return no_text();
    };
    let Some(fill) = text_in(fill) else {
        return no_text();
    };
    pad_of(alloc, pad, text, count, fill)
}

impl TextFn for Pad {
    ghost about = { pad_row };

    fn signature(&self) -> Signature {
        let id = match self {
            Pad::Left => "sql.lpad",
            Pad::Right => "sql.rpad",
        };
        Signature {
            id,
            arity: Arity::Variadic {
                min: 2,
                max: Some(3),
            },
            types: Types {
                takes: Takes::Each(Kind::Text, Kind::Integer, Kind::Text),
                nulls: Nulls::WhereAny,
                gives: Gives::Text,
            },
            is_strict: true,
            is_infallible: false,
        }
    }

    fn make(
        &self,
        alloc: Global,
        _ptype: PType,
        cells: &[Cell<'_>],
    ) -> VortexResult<Option<String>> {
        match cells {
            [text, count] => pad_by_blanks(alloc, *self, text, count),
            [text, count, fill] => pad_by_text(alloc, *self, text, count, fill),
            [] => no_text(),
            [_] => no_text(),
            [_, _, _, _, ..] => no_text(),
        }
    }

    ghost lawful = { pad_lawful };
}
