//! Texts in fields, between the places of a delimiter: `split_part`.
ghost use Rattle.std.specs.Prelude.{◌≡◌, ◌∷◌, ◌<◌, [], IfSome, IsUtf8, MatchOption, length};
ghost use Rattle.std.specs.Prelude.{reverse};
ghost use Rattle.vortex_columns.specs.Cells.{cell_value};
ghost use Rattle.vortex_sql_rows.specs.AnsweredRows.{AnswersRow};
ghost use Rattle.vortex_sql_rows.specs.Shapes.{number_in, text_in, with_three};
ghost use Rattle.vortex_sql_texts.specs.Fields.{field_at, fields, part_text, split_part};
ghost use Rattle.vortex_sql_texts.specs.Fields.{split_part_lawful, split_part_row};

use crate::characters::at_least_zero;
use crate::made::{other_values, text_cell};
use crate::parts::before_place;
use vortex_columns::{Cell, PType, VortexResult};
use vortex_sql_rows::cells::{int_in, int_or_fault, text_in};
use vortex_sql_rows::faults::RowFault;
use vortex_sql_rows::row::{RowFn, Signature};
use vortex_sql_rows::types::{Gives, Kind, Takes};

/// `split_part(a, delimiter, n)`
pub struct SplitPart;

/// The text before the first delimiter and the text after it; none where the text is one field.
pub(crate) fn cut<'a>(text: &'a str, delimiter: &str) -> Option<(&'a str, &'a str)>
    ensures fields { MatchOption result (fields delimiter.now text.now ≡ text.now ∷ [])
        (λ parts. fields delimiter.now text.now
        ≡ parts.0.now ∷ fields delimiter.now parts.1.now) }
    ensures utf8 { IfSome result (λ parts. IsUtf8 parts.0.now × IsUtf8 parts.1.now) }
    ensures shorter { IfSome result (λ parts. length parts.1.now < length text.now) }
{
    if delimiter.is_empty() {
        return None;
    }
    match text.split_once(delimiter) {
        Some((field, rest)) => Some((field, rest)),
        None => None,
    }
}

pub(crate) fn count_fields(text: &str, delimiter: &str) -> u128
    ensures { result ≡ length (fields delimiter.now text.now) }
{
    let mut count = 1;
    let mut rest = text;
    while let Some((_, after)) = cut(rest, delimiter) {
        rest = after;
        count += 1;
    }
    count
}

/// The field behind so many; empty where there are not as many.
pub(crate) fn field_at<'a>(text: &'a str, delimiter: &str, index: u128) -> &'a str
    ensures { result.now ≡ field_at index (fields delimiter.now text.now) }
{
    let mut rest = text;
    for _ in 0..index {
        match cut(rest, delimiter) {
            Some((_, after)) => rest = after,
            None => return "",
        }
    }
    match cut(rest, delimiter) {
        Some((field, _)) => field,
        None => rest,
    }
}

/// The field before so many that come last; empty where there are not as many.
fn field_from_end<'a>(text: &'a str, delimiter: &str, index: u128) -> &'a str
    ensures { result.now ≡ field_at index (reverse (fields delimiter.now text.now)) }
{
    let count = count_fields(text, delimiter);
    if index < count {
        field_at(text, delimiter, count - 1 - index)
    } else {
        ""
    }
}

/// The field of that number, counted from 1 on, or from the end on where it is negative.
fn part_text<'a>(text: &'a str, delimiter: &str, n: i128) -> &'a str
    ensures { result.now ≡ part_text text.now delimiter.now n }
{
    if n < 0 {
        field_from_end(text, delimiter, at_least_zero(-(n + 1)))
    } else {
        field_at(text, delimiter, before_place(n))
    }
}

fn split_part<'a>(text: &'a str, delimiter: &str, n: i128) -> VortexResult<Cell<'a>>
    ensures { AnswersRow (split_part text.now delimiter.now n) result }
{
    if n == 0 {
        return int_or_fault(None, RowFault::FieldZero);
    }
    text_cell(part_text(text, delimiter, n))
}

fn split_cells<'a>(text: &Cell<'a>, delimiter: &Cell<'_>, n: &Cell<'_>) -> VortexResult<Cell<'a>>
    ensures { AnswersRow (with_three split_part (text_in (cell_value text.now))
        (text_in (cell_value delimiter.now)) (number_in (cell_value n.now))) result }
{
    let Some(text) = text_in(text) else {
        return other_values();
    };
    let Some(delimiter) = text_in(delimiter) else {
        return other_values();
    };
    let Some(n) = int_in(n) else {
        return other_values();
    };
    split_part(text, delimiter, n)
}

impl RowFn for SplitPart {
    ghost about = { λ f. split_part_row };

    fn signature(&self) -> Signature {
        let takes = Takes::Each(Kind::Text, Kind::Text, Kind::Integer);
        Signature::strict("sql.split_part", 3, takes, Gives::Text, false)
    }

    fn answer<'a>(&self, _ptype: PType, cells: &[Cell<'a>]) -> VortexResult<Cell<'a>> {
        match cells {
            [text, delimiter, n] => split_cells(text, delimiter, n),
            [] => other_values(),
            [_] => other_values(),
            [_, _] => other_values(),
            [_, _, _, _, ..] => other_values(),
        }
    }

    ghost lawful = { λ f. split_part_lawful };
}
