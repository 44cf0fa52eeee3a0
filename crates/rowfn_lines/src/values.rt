//! Words of a script as cells.
ghost use Rattle.std.specs.Prelude.{◌≡◌, map, option_map, IfOk};
ghost use Rattle.vortex_errors.specs.Answers.{AnswersUnlessMemory};
ghost use Rattle.vortex_types.specs.TypeOf.{type_of};
ghost use Rattle.rowfn_lines.specs.Lines.{word_in};
ghost use Rattle.rowfn_lines.specs.Commands.{cell_of, cells_of, written_column, written_literal};
ghost use Rattle.vortex_cells.specs.Cells.{cell_in};

use crate::text::Word;
use std::alloc::{AllocError, Global};
use vortex_cells::cells::{column_of_cells, literal_of_cell};
use vortex_columns::{Column, DType, Scalar, VortexResult};

/// The cell of a word of a script: texts are in quotes, all else without, and null as `null`.
fn cell_of<'a>(dtype: &DType, word: &Word<'a>) -> Option<Option<&'a str>>
    ensures { option_map cell_in result ≡ cell_of (type_of dtype.now) (word_in word.now) }
{
    match word {
        Word::Quoted(text) if dtype.is_utf8() => Some(Some(*text)),
        Word::Plain(text) if *text == "null" => Some(None),
        Word::Plain(text) if !dtype.is_utf8() => Some(Some(*text)),
        _ => None,
    }
}

/// The cells of words; none if one is none. Fails only where memory runs out.
fn cells_of<'a>(
    alloc: Global,
    dtype: &DType,
    words: &[Word<'a>],
) -> Result<Option<Vec<Option<&'a str>>>, AllocError>
    ensures { IfOk result (λ cells. option_map (λ cs. map cell_in cs.items) cells
        ≡ cells_of (type_of dtype.now) (map word_in words.now)) }
{
    let mut cells = Vec::new(alloc);
    for word in words {
        let Some(cell) = cell_of(dtype, word) else {
            return Ok(None);
        };
        cells.push(cell)?;
    }
    Ok(Some(cells))
}

/// The column of the cells of a `col` line; none if one is no value of the type, or a text is
/// longer than 4,294,967,295 bytes. E9 where an allocation fails.
pub fn written_column(
    alloc: Global,
    dtype: &DType,
    words: &[Word<'_>],
) -> VortexResult<Option<Column>>
    ensures { AnswersUnlessMemory result
        (λ c. c ≡ written_column (type_of dtype.now) (map word_in words.now)) }
{
    match cells_of(alloc, dtype, words)? {
        Some(cells) => column_of_cells(alloc, dtype, &cells),
        None => Ok(None),
    }
}

/// The value of the cell of a `lit` line; none if it is no value of the type. E9 where an
/// allocation fails.
pub fn written_literal(
    alloc: Global,
    dtype: &DType,
    word: &Word<'_>,
) -> VortexResult<Option<Scalar>>
    ensures { AnswersUnlessMemory result
        (λ s. s ≡ written_literal (type_of dtype.now) (word_in word.now)) }
{
    match cell_of(dtype, word) {
        Some(cell) => literal_of_cell(alloc, dtype, cell),
        None => Ok(None),
    }
}
