//! What an index says of a column of a chunk.
ghost use Rattle.std.specs.Prelude.{◌≡◌, length, option_map, true, IfSome};
ghost use Rattle.vortex_columns.specs.Words.{AnswersUnlessMemory, value_of};
ghost use Rattle.vortex_statistics.specs.Describes.{Describes};
ghost use Rattle.vortex_statistics.specs.Parts.{end_view};
ghost use Rattle.vortex_statistics.specs.StatisticsView.{is_at_most};
ghost use Rattle.rowfn_index.specs.Measured.{ends_view, LiesBelow, LiesAbove};

use crate::ends::{high_end, low_end};
use std::alloc::Global;
use vortex_columns::{Column, ScalarValue, VortexResult};
use vortex_statistics::{End, Statistics};

/// How many rows of a column are null, and between which ends the others lie. An end need not be the
/// value of a row.
#[derive(Drop)]
pub struct ColumnEnds {
    pub nulls: u64,
    pub low: Option<ScalarValue>,
    pub high: Option<ScalarValue>,
}

/// A value that is not above this one; of a long text its first characters.
fn outer_low(alloc: Global, value: &ScalarValue) -> VortexResult<ScalarValue>
    ensures { AnswersUnlessMemory result
        (λ low. is_at_most (value_of low) (value_of value.now) ≡ true) }
{
    match value {
        ScalarValue::Utf8(text) => {
            Ok(ScalarValue::Utf8(String::from_str(alloc, low_end(text.as_str()))?))
        }
        value => Ok(value.try_clone(alloc)?),
    }
}

/// A value that is not below this one; of a long text its first characters, raised. None where they
/// cannot be.
fn outer_high(alloc: Global, value: &ScalarValue) -> VortexResult<Option<ScalarValue>>
    ensures { AnswersUnlessMemory result (λ end. IfSome end
        (λ high. is_at_most (value_of value.now) (value_of high) ≡ true)) }
{
    match value {
        ScalarValue::Utf8(text) => match high_end(alloc, text.as_str())? {
            Some(end) => Ok(Some(ScalarValue::Utf8(end))),
            None => Ok(None),
        },
        value => Ok(Some(value.try_clone(alloc)?)),
    }
}

/// The low end, cut off where it is a long text.
fn low_of(alloc: Global, end: Option<&End>) -> VortexResult<Option<ScalarValue>>
    ensures { AnswersUnlessMemory result
        (λ low. LiesBelow low (option_map (λ e. end_view e.now) end.entry)) }
{
    match end {
        Some(end) => Ok(Some(outer_low(alloc, &end.value)?)),
        None => Ok(None),
    }
}

/// The high end, cut off and raised where it is a long text.
fn high_of(alloc: Global, end: Option<&End>) -> VortexResult<Option<ScalarValue>>
    ensures { AnswersUnlessMemory result
        (λ high. LiesAbove high (option_map (λ e. end_view e.now) end.entry)) }
{
    match end {
        Some(end) => outer_high(alloc, &end.value),
        None => Ok(None),
    }
}

/// What an index says of a column: it describes the column's rows. Long texts among the ends are cut
/// off, and so lie farther out. E9 where an allocation fails.
pub fn column_ends(alloc: Global, column: &Column) -> VortexResult<ColumnEnds>
    ensures { AnswersUnlessMemory result (λ ends.
        Describes (ends_view column.now.dtype (length column.now.rows) ends) column.now.rows) }
{
    let statistics = Statistics::of(column, alloc)?;
    let low = low_of(alloc, statistics.low())?;
    let high = high_of(alloc, statistics.high())?;
    Ok(ColumnEnds {
        nulls: statistics.nulls().unwrap_or(0),
        low,
        high,
    })
}
