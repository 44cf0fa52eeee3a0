//! Parts of texts, counted in characters: `substr`, `left` and `right`.
ghost use Rattle.std.specs.Prelude.{◌≡◌, ◌≤ℤ◌, length, pos};
ghost use Rattle.std.specs.Str.{chars};
ghost use Rattle.vortex_columns.specs.Cells.{cell_value};
ghost use Rattle.vortex_sql_rows.specs.AnsweredRows.{AnswersRow};
ghost use Rattle.vortex_sql_rows.specs.Shapes.{number_in, text_in, with_both, with_three};
ghost use Rattle.vortex_sql_texts.specs.Characters.{at_least_zero};
ghost use Rattle.vortex_sql_texts.specs.Parts.{at_places, before_place, first_count, from_place};
ghost use Rattle.vortex_sql_texts.specs.Parts.{last_start, places_left, side_lawful, side_part};
ghost use Rattle.vortex_sql_texts.specs.Parts.{side_row, side_text, substr_lawful, substr_row};

use crate::characters::{after_chars, at_least_zero, count_chars, first_chars};
use crate::made::{other_values, text_cell};
use vortex_columns::{Arity, Cell, PType, VortexResult};
use vortex_sql_rows::cells::{int_in, int_or_fault, text_in};
use vortex_sql_rows::faults::RowFault;
use vortex_sql_rows::row::{RowFn, Signature};
use vortex_sql_rows::types::{Gives, Kind, Nulls, Takes, Types};

/// `substr(a, from)` or `substr(a, from, count)`
pub struct Substr;

/// `left(a, n)` or `right(a, n)`
#[derive(Clone, Copy, Debug, PartialEq, Eq)]
pub enum Side {
    Left,
    Right,
}

/// How many characters are before a place, where the first character has place 1.
pub(crate) fn before_place(from: i128) -> u128
    ensures { result ≡ before_place from }
{
    if from < 1 { 0 } else { at_least_zero(from - 1) }
}

/// How many of so many places from a place on are place 1 or later.
fn places_left(from: i128, count: i128) -> u128
    requires { pos 0 ≤ℤ count }
    ensures { result ≡ at_least_zero (places_left from count) }
{
    if from >= 1 {
        return at_least_zero(count);
    }
    if from == i128::MIN {
        return 0;
    }
    at_least_zero(from - 1 + count)
}

fn from_place<'a>(text: &'a str, from: i128) -> VortexResult<Cell<'a>>
    ensures { AnswersRow (from_place text.now from) result }
{
    text_cell(after_chars(text, before_place(from)))
}

fn at_places<'a>(text: &'a str, from: i128, count: i128) -> VortexResult<Cell<'a>>
    ensures { AnswersRow (at_places text.now from count) result }
{
    if count < 0 {
        return int_or_fault(None, RowFault::NegativeLength);
    }
    let rest = after_chars(text, before_place(from));
    text_cell(first_chars(rest, places_left(from, count)))
}

fn substr_from<'a>(text: &Cell<'a>, from: &Cell<'_>) -> VortexResult<Cell<'a>>
    ensures { AnswersRow (with_both from_place (text_in (cell_value text.now))
        (number_in (cell_value from.now))) result }
{
    let Some(text) = text_in(text) else {
        return other_values();
    };
    let Some(from) = int_in(from) else {
        return other_values();
    };
    from_place(text, from)
}

fn substr_at<'a>(text: &Cell<'a>, from: &Cell<'_>, count: &Cell<'_>) -> VortexResult<Cell<'a>>
    ensures { AnswersRow (with_three at_places (text_in (cell_value text.now))
        (number_in (cell_value from.now)) (number_in (cell_value count.now))) result }
{
    let Some(text) = text_in(text) else {
        return other_values();
    };
    let Some(from) = int_in(from) else {
        return other_values();
    };
    let Some(count) = int_in(count) else {
        return other_values();
    };
    at_places(text, from, count)
}

impl RowFn for Substr {
    ghost about = { λ f. substr_row };

    fn signature(&self) -> Signature {
        Signature {
            id: "sql.substr",
            arity: Arity::Variadic {
                min: 2,
                max: Some(3),
            },
            types: Types {
                takes: Takes::Each(Kind::Text, Kind::Integer, Kind::Integer),
                nulls: Nulls::WhereAny,
                gives: Gives::Text,
            },
            is_strict: true,
            is_infallible: false,
        }
    }

    fn answer<'a>(&self, _ptype: PType, cells: &[Cell<'a>]) -> VortexResult<Cell<'a>> {
        match cells {
            [text, from] => substr_from(text, from),
            [text, from, count] => substr_at(text, from, count),
            [] => other_values(),
            [_] => other_values(),
            [_, _, _, _, ..] => other_values(),
        }
    }

    ghost lawful = { λ f. substr_lawful };
}

/// How many characters `left` takes of so many.
fn first_count(count: usize, n: i128) -> u128
    ensures { result ≡ first_count count n }
{
    if n < 0 {
        at_least_zero(count as i128 + n)
    } else {
        at_least_zero(n)
    }
}

/// How many characters `right` leaves out of so many.
fn last_start(count: usize, n: i128) -> u128
    ensures { result ≡ last_start count n }
{
    if n < 0 {
        n.unsigned_abs()
    } else {
        at_least_zero(count as i128 - n)
    }
}

fn side_text<'a>(side: Side, text: &'a str, n: i128) -> &'a str
    ensures { result.now ≡ side_text side text.now n }
{
    let count = count_chars(text);
    match side {
        Side::Left => first_chars(text, first_count(count, n)),
        Side::Right => after_chars(text, last_start(count, n)),
    }
}

impl RowFn for Side {
    ghost about = { side_row };

    fn signature(&self) -> Signature {
        let id = match self {
            Side::Left => "sql.left",
            Side::Right => "sql.right",
        };
        let takes = Takes::Each(Kind::Text, Kind::Integer, Kind::Integer);
        Signature::strict(id, 2, takes, Gives::Text, false)
    }

    fn answer<'a>(&self, _ptype: PType, cells: &[Cell<'a>]) -> VortexResult<Cell<'a>> {
        let [text, n] = cells else {
            return other_values();
        };
        let Some(text) = text_in(text) else {
            return other_values();
        };
        let Some(n) = int_in(n) else {
            return other_values();
        };
        text_cell(side_text(*self, text, n))
    }

    ghost lawful = { side_lawful };
}
