//! Whether the output of a program reads back.
ghost use Rattle.std.specs.Prelude.{◌≡◌, false, IfOk, MatchResult, string_bytes};
ghost use Rattle.rowfn_batches.specs.ReadingBack.{may_be_lost, loses_nulls, KeepsRows, RefusesRows};
ghost use Rattle.rowfn_batches.specs.ReadingBack.{ReadsBack, RefusesReadingBack, TellsLost};

use crate::errors::StreamError;
use crate::names::check_names;
use crate::settings::Settings;
use rowfn_csv::Format;
use std::alloc::{AllocError, Global};
use vortex_program::{Answer, Program};

/// Whether a null that stands alone in a line is lost where the line is read.
fn loses_nulls(format: &Format<'_>) -> bool
    ensures { result ≡ loses_nulls format.now }
{
    format.null.is_empty() && !format.blank_rows
}

/// Whether an answer may be null, and its null is lost where it stands alone.
fn may_be_lost(format: &Format<'_>, answer: &Answer) -> bool
    ensures { result ≡ may_be_lost format.now answer.now }
{
    loses_nulls(format) && answer.tree.dtype().is_nullable()
}

/// The error for the answer whose rows may be lost.
fn lost(alloc: Global, answer: &Answer) -> Result<StreamError, AllocError>
    ensures { IfOk result (λ e. TellsLost (string_bytes answer.now.name) e) }
{
    let name = String::from_str(alloc, answer.name.as_str())?;
    Ok(StreamError::RowsLost(name))
}

/// Refused, by the name of the only answer, where its rows may be lost; and where memory runs out.
fn check_rows(alloc: Global, format: &Format<'_>, answers: &[Answer]) -> Result<(), StreamError>
    ensures { MatchResult result (λ _. KeepsRows format.now answers.now)
        (RefusesRows format.now answers.now) }
{
    if answers.len() != 1 {
        return Ok(());
    }
    let only = &answers[0];
    if !may_be_lost(format, only) {
        return Ok(());
    }
    Err(lost(alloc, only)?)
}

/// Refused where answers are written which would not read back: where two have one name, where the
/// only one may be null and its line would be passed over, where no fields of its own stand before
/// it, and where memory runs out.
pub fn check_reading_back(
    alloc: Global,
    settings: &Settings<'_>,
    program: &Program,
) -> Result<(), StreamError>
    ensures { let answers = program.now.written.items in
        MatchResult result
        (λ _. settings.now.picks_rows ≡ false → ReadsBack settings.now answers)
        (λ e. (settings.now.picks_rows ≡ false)
        × RefusesReadingBack settings.now.format answers e) }
{
    if settings.picks_rows {
        return Ok(());
    }
    check_names(alloc, program)?;
    if settings.appends {
        return Ok(());
    }
    check_rows(alloc, &settings.format, &program.written)
}
