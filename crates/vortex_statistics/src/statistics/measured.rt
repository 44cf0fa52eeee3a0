//! Statistics of a column's rows.
ghost use Rattle.std.specs.Prelude.{◌≡◌, ◌<◌, Some, false, length, option_map};
ghost use Rattle.vortex_columns.specs.Words.{AnswersUnlessMemory, is_null, row};
ghost use Rattle.vortex_statistics.specs.Describes.{Describes};
ghost use Rattle.vortex_statistics.specs.Measured.{AreEndsOf, Measures, end_at, measured};
ghost use Rattle.vortex_statistics.specs.Parts.{end_view, parts_view};

use super::Statistics;
use crate::end::End;
use crate::kinds::{extreme_rows, null_count};
use crate::parts::Parts;
use std::alloc::Global;
use vortex_columns::{Column, VortexResult};

/// A copy of the value of row `i`, as an end.
fn copy_row(alloc: Global, column: &Column, i: usize) -> VortexResult<Option<End>>
    requires i_in { i < length column.now.rows }
    requires valid { is_null (row column.now.rows i) ≡ false }
    ensures { AnswersUnlessMemory result
        (λ e. option_map end_view e ≡ Some (end_at column.now i)) }
{
    match column.cell(i).try_to_value(alloc)? {
        Some(value) => Ok(Some(End::attained(value))),
        None => Ok(None),
    }
}

/// Copies of the least and the greatest value, where the column has values.
fn copy_ends(alloc: Global, column: &Column) -> VortexResult<(Option<End>, Option<End>)>
    ensures { AnswersUnlessMemory result (λ p. AreEndsOf column.now (option_map end_view p.0)
        (option_map end_view p.1)) }
{
    let _typed = column.dtype();
    match extreme_rows(column) {
        Some((low, high)) => {
            let low = copy_row(alloc, column, low)?;
            let high = copy_row(alloc, column, high)?;
            Ok((low, high))
        }
        None => Ok((None, None)),
    }
}

/// The parts with both counts of a column.
fn counted_parts(
    alloc: Global,
    column: &Column,
    low: Option<End>,
    high: Option<End>,
) -> VortexResult<Parts>
    ensures { AnswersUnlessMemory result (λ p. parts_view p
        ≡ measured column.now (option_map end_view low) (option_map end_view high)) }
{
    Ok(Parts {
        dtype: column.dtype().try_clone(alloc)?,
        rows: Some(column.len() as u64),
        nulls: Some(null_count(column) as u64),
        low,
        high,
        skips_nan: false,
    })
}

impl Statistics {
    /// The statistics of a column: both counts, and the least and the greatest value, each of them
    /// attained, where a row is not null and the column is of truth values, integers, texts or
    /// byte strings. For other types no ends are looked for.
    pub fn of(column: &Column, alloc: Global) -> VortexResult<Statistics>
        ensures parts { AnswersUnlessMemory result (Measures column.now) }
        ensures describes { AnswersUnlessMemory result (λ s. Describes s column.now.rows) }
    {
        let _typed = column.dtype();
        let (low, high) = copy_ends(alloc, column)?;
        let parts = counted_parts(alloc, column, low, high)?;
        Ok(Statistics { parts })
    }
}
