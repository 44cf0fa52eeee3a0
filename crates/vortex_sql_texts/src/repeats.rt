//! A text, so many times, and from its end to its start: `repeat` and `reverse`.
ghost use Rattle.std.specs.Prelude.{◌≡◌, string_bytes};
ghost use Rattle.std.specs.List.{repeat};
ghost use Rattle.std.specs.Str.{chars};
ghost use Rattle.vortex_errors.specs.Answers.{Answers, AnswersUnlessMemory};
ghost use Rattle.vortex_columns.specs.Cells.{cell_value};
ghost use Rattle.vortex_sql_rows.specs.AnsweredRows.{MakesRow};
ghost use Rattle.vortex_sql_rows.specs.Shapes.{number_in, text_in, with_both};
ghost use Rattle.vortex_sql_texts.specs.MadeTexts.{IsTooLong, text_or_fault};
ghost use Rattle.vortex_sql_texts.specs.Repeats.{repeat_lawful, repeat_row, reverse_lawful};
ghost use Rattle.vortex_sql_texts.specs.Repeats.{repeated, reverse_row, reversed};

use crate::characters::at_least_zero;
use crate::made::{no_text, text_or_fault};
use std::alloc::Global;
use vortex_columns::{Cell, PType, VortexError, VortexResult};
use vortex_sql_rows::cells::{int_in, only_text, text_in};
use vortex_sql_rows::faults::RowFault;
use vortex_sql_rows::row::{Signature, TextFn};
use vortex_sql_rows::types::{Gives, Kind, Takes};

/// `repeat(a, n)`
pub struct Repeat;

/// `reverse(a)`
pub struct Reverse;

/// The text so many times. What is too long is not made.
fn repeated(alloc: Global, text: &str, count: u128) -> VortexResult<String>
    ensures { Answers result (λ made. string_bytes made ≡ repeat count text.now)
        (IsTooLong (repeat count text.now)) }
{
    if text.is_empty() {
        return Ok(String::new(alloc));
    }
    if count > 4294967295 {
        return Err(VortexError::Custom(RowFault::TextTooLong.number()));
    }
    if count * text.len() as u128 > 4294967295 {
        return Err(VortexError::Custom(RowFault::TextTooLong.number()));
    }
    Ok(text.repeat(alloc, count as usize)?)
}

#[tactic(auto, using(crate::proofs::TextRoom::too_long_rows))]
fn repeated_or_fault(alloc: Global, text: &str, count: u128) -> VortexResult<Option<String>>
    ensures { MakesRow (text_or_fault (repeat count text.now)) result }
{
    match repeated(alloc, text, count) {
        Ok(made) => text_or_fault(made),
        Err(error) => Err(error),
    }
}

fn repeat_text(alloc: Global, text: &Cell<'_>, count: &Cell<'_>) -> VortexResult<Option<String>>
    ensures { MakesRow (with_both (λ bs n. text_or_fault (repeated bs n))
        (text_in (cell_value text.now)) (number_in (cell_value count.now))) result }
{
    let Some(text) = text_in(text) else {
        return no_text();
    };
    let Some(count) = int_in(count) else {
        return no_text();
    };
    repeated_or_fault(alloc, text, at_least_zero(count))
}

impl TextFn for Repeat {
    ghost about = { λ f. repeat_row };

    fn signature(&self) -> Signature {
        let takes = Takes::Each(Kind::Text, Kind::Integer, Kind::Integer);
        Signature::strict("sql.repeat", 2, takes, Gives::Text, false)
    }

    fn make(
        &self,
        alloc: Global,
        _ptype: PType,
        cells: &[Cell<'_>],
    ) -> VortexResult<Option<String>> {
        match cells {
            [text, count] => repeat_text(alloc, text, count),
            [] => no_text(),
            [_] => no_text(),
            [_, _, _, ..] => no_text(),
        }
    }

    ghost lawful = { λ f. repeat_lawful };
}

fn reversed(alloc: Global, text: &str) -> VortexResult<String>
    ensures { AnswersUnlessMemory result (λ made. string_bytes made ≡ reversed text.now) }
{
    let mut letters: Vec<char> = text.chars().collect(alloc)?;
    let mut made = String::new(alloc);
    while let Some(letter) = letters.pop() {
        made.push(letter)?;
    }
    Ok(made)
}

impl TextFn for Reverse {
    ghost about = { λ f. reverse_row };

    fn signature(&self) -> Signature {
        Signature::strict(
            "sql.reverse",
            1,
            Takes::Alike(Kind::Text),
            Gives::Text,
            false,
        )
    }

    fn make(
        &self,
        alloc: Global,
        _ptype: PType,
        cells: &[Cell<'_>],
    ) -> VortexResult<Option<String>> {
        let Some(text) = only_text(cells) else {
            return Ok(None);
        };
        text_or_fault(reversed(alloc, text)?)
    }

    ghost lawful = { λ f. reverse_lawful };
}
