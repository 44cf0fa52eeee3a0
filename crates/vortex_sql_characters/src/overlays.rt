//! Texts with another one in place of a part: `overlay`.
ghost use Rattle.std.specs.Prelude.{◌≡◌, ◌+ℤ◌, ◌≤ℤ◌, pos, string_bytes};
ghost use Rattle.vortex_errors.specs.Answers.{AnswersUnlessMemory};
ghost use Rattle.vortex_columns.specs.Cells.{cell_value};
ghost use Rattle.vortex_sql_rows.specs.AnsweredRows.{MakesRow};
ghost use Rattle.vortex_sql_rows.specs.Shapes.{number_in, text_in, with_three};
ghost use Rattle.vortex_sql_texts.specs.Parts.{before_place};
ghost use Rattle.vortex_sql_characters.specs.Overlays.{overlaid, overlay_lawful, overlay_of};
ghost use Rattle.vortex_sql_characters.specs.Overlays.{overlay_row, overlay_whole, with_four};

use crate::faults::{no_place, no_text};
use crate::parts::{after_chars, at_least_zero, count_chars, first_chars};
use std::alloc::Global;
use vortex_columns::{Arity, Cell, PType, VortexResult};
use vortex_sql_rows::cells::{int_in, text_in};
use vortex_sql_rows::row::{Signature, TextFn};
use vortex_sql_rows::types::{Gives, Kind, Nulls, Takes, Types};
use vortex_sql_texts::made::text_or_fault;

/// `overlay(a, b, from)` or `overlay(a, b, from, count)`
pub struct Overlay;

/// How many characters are before the place that comes so many behind another one.
fn before_rest(from: i128, count: i128) -> u128
    requires { pos 1 ≤ℤ from }
    ensures { result ≡ before_place (from +ℤ count) }
{
    if count < 0 {
        at_least_zero(from - 1 + count)
    } else {
        (from - 1) as u128 + count as u128
    }
}

/// The text with the part in place of so many characters from a place on. Where the count is
/// negative, as many before that place come again.
fn overlaid(alloc: Global, text: &str, part: &str, from: i128, count: i128) -> VortexResult<String>
    requires { pos 1 ≤ℤ from }
    ensures { AnswersUnlessMemory result
        (λ made. string_bytes made ≡ overlaid text.now part.now from count) }
{
    let mut made = first_chars(alloc, text, at_least_zero(from - 1))?;
    let rest = after_chars(alloc, text, before_rest(from, count))?;
    made.push_str(part)?;
    made.push_str(rest.as_str())?;
    Ok(made)
}

fn overlay_of(
    alloc: Global,
    text: &str,
    part: &str,
    from: i128,
    count: i128,
) -> VortexResult<Option<String>>
    ensures { MakesRow (overlay_of text.now part.now from count) result }
{
    if from < 1 {
        return no_place();
    }
    text_or_fault(overlaid(alloc, text, part, from, count)?)
}

fn overlay_whole(
    alloc: Global,
    text: &Cell<'_>,
    part: &Cell<'_>,
    from: &Cell<'_>,
) -> VortexResult<Option<String>>
    ensures { MakesRow (with_three overlay_whole (text_in (cell_value text.now))
        (text_in (cell_value part.now)) (number_in (cell_value from.now))) result }
{
    let Some(text) = text_in(text) else {
        return no_text();
    };
    let Some(part) = text_in(part) else {
        return no_text();
    };
    let Some(from) = int_in(from) else {
        return no_text();
    };
    overlay_of(alloc, text, part, from, count_chars(part) as i128)
}

fn overlay_count(
    alloc: Global,
    text: &Cell<'_>,
    part: &Cell<'_>,
    from: &Cell<'_>,
    count: &Cell<'_>,
) -> VortexResult<Option<String>>
    ensures { MakesRow (with_four overlay_of (text_in (cell_value text.now))
        (text_in (cell_value part.now)) (number_in (cell_value from.now))
        (number_in (cell_value count.now))) result }
{
    let Some(text) = text_in(text) else {
        return no_text();
    };
    let Some(part) = text_in(part) else {
        return no_text();
    };
    let Some(from) = int_in(from) else {
        return no_text();
    };
    let Some(count) = int_in(count) else {
        return no_text();
    };
    overlay_of(alloc, text, part, from, count)
}

impl TextFn for Overlay {
    ghost about = { λ f. overlay_row };

    fn signature(&self) -> Signature {
        Signature {
            id: "sql.overlay",
            arity: Arity::Variadic {
                min: 3,
                max: Some(4),
            },
            types: Types {
                takes: Takes::Each(Kind::Text, Kind::Text, Kind::Integer),
                nulls: Nulls::WhereAny,
                gives: Gives::Text,
            },
            is_strict: true,
            is_infallible: false,
        }
    }

    fn make(
        &self,
        alloc: Global,
        _ptype: PType,
        cells: &[Cell<'_>],
    ) -> VortexResult<Option<String>> {
        match cells {
            [text, part, from] => overlay_whole(alloc, text, part, from),
            [text, part, from, count] => overlay_count(alloc, text, part, from, count),
            [] => no_text(),
            [_] => no_text(),
            [_, _] => no_text(),
            [_, _, _, _, _, ..] => no_text(),
        }
    }

    ghost lawful = { λ f. overlay_lawful };
}
