//! Results of functions that make texts.
ghost use Rattle.std.specs.Prelude.{◌≡◌, ◌++◌, string_bytes};
ghost use Rattle.vortex_errors.specs.Answers.{Answers};
ghost use Rattle.vortex_sql_rows.specs.declared.faults.RowFault.TheVariants.{OtherValues};
ghost use Rattle.vortex_sql_rows.specs.AnsweredRows.{MakesRow};
ghost use Rattle.vortex_sql_rows.specs.Faults.{faults_by};
ghost use Rattle.vortex_sql_texts.specs.MadeTexts.{IsTooLong, text_or_fault};

use vortex_columns::{VortexError, VortexResult};
use vortex_sql_rows::faults::RowFault;

/// The text, or the fault where it is too long.
pub(crate) fn text_or_fault(text: String) -> VortexResult<Option<String>>
    ensures { MakesRow (text_or_fault (string_bytes text)) result }
{
    let _utf8 = text.as_str();
    if text.len() <= 4294967295 {
        Ok(Some(text))
    } else {
        Err(VortexError::Custom(RowFault::TextTooLong.number()))
    }
}

/// Appends a text; a fault where the whole is then too long.
pub(crate) fn push_text(made: &mut String, part: &str) -> VortexResult<()>
    ensures { Answers result
        (λ _. string_bytes made.new ≡ string_bytes made.old ++ part.now)
        (IsTooLong (string_bytes made.old ++ part.now)) }
{
    made.push_str(part)?;
    if made.len() > 4294967295 {
        return Err(VortexError::Custom(RowFault::TextTooLong.number()));
    }
    Ok(())
}

/// The fault of values of other types than a function that makes texts takes.
pub(crate) fn no_text() -> VortexResult<Option<String>>
    ensures { MakesRow (faults_by OtherValues) result }
{
    Err(VortexError::Custom(RowFault::OtherValues.number()))
}
