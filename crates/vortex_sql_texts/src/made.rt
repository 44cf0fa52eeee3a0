//! Results of functions of texts.
ghost use Rattle.std.specs.Prelude.{◌≡◌, ◌++◌, string_bytes};
ghost use Rattle.vortex_errors.specs.Answers.{Answers};
ghost use Rattle.vortex_sql_rows.specs.declared.faults.RowFault.TheVariants.{OtherValues};
ghost use Rattle.vortex_sql_rows.specs.AnsweredRows.{AnswersRow, MakesRow};
ghost use Rattle.vortex_sql_rows.specs.Faults.{faults_by};
ghost use Rattle.vortex_sql_texts.specs.MadeTexts.{IsTooLong, text_or_fault};

use vortex_columns::{Cell, VortexError, VortexResult};
use vortex_sql_rows::cells::int_or_fault;
use vortex_sql_rows::faults::RowFault;

/// The text, or the fault where it is too long.
pub fn text_or_fault(text: String) -> VortexResult<Option<String>>
    ensures { MakesRow (text_or_fault (string_bytes text)) result }
{
    let _utf8 = text.as_str();
    if text.len() <= 4294967295 {
        Ok(Some(text))
    } else {
        Err(VortexError::Custom(RowFault::TextTooLong.number()))
    }
}

/// The text of a cell, or the fault where it is too long.
pub(crate) fn text_cell<'a>(text: &'a str) -> VortexResult<Cell<'a>>
    ensures { AnswersRow (text_or_fault text.now) result }
{
    if text.len() <= 4294967295 {
        Ok(Cell::Text(text))
    } else {
        Err(VortexError::Custom(RowFault::TextTooLong.number()))
    }
}

/// Appends a text; a fault where the whole is then too long.
pub(crate) fn push_text(made: &mut String, part: &str) -> VortexResult<()>
    ensures { Answers result
        (λ _. string_bytes made.new ≡ string_bytes made.old ++ part.now)
        (IsTooLong (string_bytes made.old ++ part.now)) }
{
    made.push_str(part)?;
    if made.len() > 4294967295 {
        return Err(VortexError::Custom(RowFault::TextTooLong.number()));
    }
    Ok(())
}

/// The fault of values of other types than a function that makes texts takes.
pub(crate) fn no_text() -> VortexResult<Option<String>>
    ensures { MakesRow (faults_by OtherValues) result }
{
    Err(VortexError::Custom(RowFault::OtherValues.number()))
}

/// The fault of values of other types than a function takes.
pub(crate) fn other_values<'a>() -> VortexResult<Cell<'a>>
    ensures { AnswersRow (faults_by OtherValues) result }
{
    int_or_fault(None, RowFault::OtherValues)
}
