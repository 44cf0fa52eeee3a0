//! The texts of the stored values of a kind, as a column.
ghost use Rattle.std.specs.Prelude.{◌≡◌, ◌<◌, ◌≤◌, [], length, IfOk, MatchOption};
ghost use Rattle.vortex_errors.specs.declared.error.VortexError.TheVariants.{InvalidColumn};
ghost use Rattle.vortex_errors.specs.Answers.{AnswersWhere};
ghost use Rattle.vortex_types.specs.Values.{number};
ghost use Rattle.vortex_columns.specs.ColumnView.{row};
ghost use Rattle.vortex_columns.specs.Made.{text_rows};
ghost use Rattle.vortex_columns.specs.ValidityView.{array};
ghost use Rattle.vortex_logical_cells.specs.StoredTexts.{HasText, IsWritten, AreUtf8, MakesTexts};

use std::alloc::{AllocError, Global};
use vortex_columns::{BitBuffer, Cell, Column, Validity, ViewsBuilder, VortexResult};
use vortex_logical::cells::write_cell;
use vortex_logical::kind::Kind;

/// The texts of stored values; or the first row, counted from 0, whose value has none.
#[derive(Drop)]
pub enum KindTexts {
    /// A nullable text for each row.
    Texts(Column),
    /// That row has an integer that stands for no value of the kind, or another value.
    NoText(usize),
}

/// The text of an integer, in place of what `text` holds: whether there is one; none for an integer
/// that stands for no value of the kind.
fn write_integer(kind: Kind, integer: i128, text: &mut Vec<u8>) -> Result<Option<bool>, AllocError>
    requires { text.old.items ≡ [] }
    ensures { IfOk result (λ written. MatchOption written (¬ HasText kind (number integer))
        (IsWritten kind (number integer) text.new.items)) }
{
    let Ok(stored) = i64::try_from(integer) else {
        return Ok(None);
    };
    if write_cell(kind, stored, text)? {
        Ok(Some(true))
    } else {
        Ok(None)
    }
}

/// The text of a row, in place of what `text` holds: whether there is one, which null has not; none
/// for a value that is none of the kind.
fn write_row(
    kind: &Kind,
    column: &Column,
    place: usize,
    text: &mut Vec<u8>,
) -> Result<Option<bool>, AllocError>
    requires { place < length column.now.rows }
    ensures { IfOk result (λ written. MatchOption written
        (¬ HasText kind.now (row column.now.rows place))
        (IsWritten kind.now (row column.now.rows place) text.new.items)) }
{
    text.clear();
    match column.cell(place) {
        Cell::Null => Ok(Some(false)),
        Cell::Int(integer) => write_integer(*kind, integer, text),
        _ => Ok(None),
    }
}

/// The column of texts, null where one is not valid. E12 exactly where a valid one is not UTF-8.
fn column_of_texts(alloc: Global, texts: ViewsBuilder, valid: &[bool]) -> VortexResult<Column>
    requires { length valid.now ≡ length texts }
    ensures { AnswersWhere result (AreUtf8 texts valid.now)
        (λ c. c ≡ text_rows texts (record { form = array; bits = valid.now })) InvalidColumn }
{
    let values = texts.finish()?;
    let validity = Validity::Array(BitBuffer::from_bools(alloc, valid)?);
    Column::try_utf8_values(alloc, values, validity)
}

/// The texts of the first rows of a column of stored integers of the kind, null for null: a text
/// that is read back as the integer, a float in digits that are read back as the float. Or the first
/// row whose value has none, as a date past the year 9999. E12 exactly where the texts are not those
/// of a column. E9 where an allocation fails.
pub fn texts_of_kind(
    alloc: Global,
    kind: Kind,
    column: &Column,
    row_count: usize,
) -> VortexResult<KindTexts>
    requires { row_count ≤ length column.now.rows }
    ensures { MakesTexts kind column.now.rows row_count result }
{
    let mut text = Vec::new(alloc);
    let mut valid = Vec::with_capacity(alloc, row_count)?;
    let mut texts = ViewsBuilder::with_capacity(alloc, row_count)?;
    for place in 0..row_count {
        let Some(is_valid) = write_row(&kind, column, place, &mut text)? else {
            return Ok(KindTexts::NoText(place));
        };
        texts.push(&text)?;
        valid.push(is_valid)?;
    }
    let column = column_of_texts(alloc, texts, &valid)?;
    Ok(KindTexts::Texts(column))
}
