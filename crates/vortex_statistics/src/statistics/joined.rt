//! Statistics of the rows of one column followed by those of another.
ghost use Rattle.std.specs.Prelude.{◌≡◌, IfOk, option_map};
ghost use Rattle.vortex_columns.specs.Words.{AnswersUnlessMemory, AnswersWhere, InvalidColumn};
ghost use Rattle.vortex_statistics.specs.Joined.{sum_of, lower_by, lower_end, higher_end};
ghost use Rattle.vortex_statistics.specs.Joined.{joined_end, joined};
ghost use Rattle.vortex_statistics.specs.Joined.{DescribesBoth};
ghost use Rattle.vortex_statistics.specs.Parts.{end_view, parts_view};

use super::Statistics;
use crate::checks::is_all_null;
use crate::end::End;
use crate::parts::Parts;
use std::alloc::Global;
use std::cmp::Ordering;
use vortex_columns::{VortexError, VortexResult, cell_of};

/// The sum of two counts, where both are known and it is below 2^64.
fn sum_of(left: Option<u64>, right: Option<u64>) -> Option<u64>
    ensures { result ≡ sum_of left right }
{
    match (left, right) {
        (Some(m), Some(n)) => m.checked_add(n),
        _ => None,
    }
}

/// Copies the first of two ends by an order; of two ends of one value, attained if either is.
fn copy_first(alloc: Global, order: Ordering, a: &End, b: &End) -> VortexResult<End>
    ensures { AnswersUnlessMemory result
        (λ e. end_view e ≡ lower_by order (end_view a.now) (end_view b.now)) }
{
    match order {
        Ordering::Less => a.try_clone(alloc),
        Ordering::Greater => b.try_clone(alloc),
        Ordering::Equal => Ok(End {
            value: a.value.try_clone(alloc)?,
            attained: a.attained || b.attained,
        }),
    }
}

/// Copies the end, if there is one.
fn copy_end(alloc: Global, end: &Option<End>) -> VortexResult<Option<End>>
    ensures { AnswersUnlessMemory result
        (λ e. option_map end_view e ≡ option_map end_view end.now) }
{
    match end {
        Some(end) => Ok(Some(end.try_clone(alloc)?)),
        None => Ok(None),
    }
}

/// The low end of both columns: where each row of one is null, that of the other.
fn joined_low(
    alloc: Global,
    left_null: bool,
    right_null: bool,
    a: &Option<End>,
    b: &Option<End>,
) -> VortexResult<Option<End>>
    ensures { AnswersUnlessMemory result (λ e. option_map end_view e
        ≡ joined_end lower_end left_null right_null (option_map end_view a.now)
        (option_map end_view b.now)) }
{
    match (a, b) {
        _ if left_null => copy_end(alloc, b),
        _ if right_null => copy_end(alloc, a),
        (Some(a), Some(b)) => {
            let order = cell_of(&a.value).compare(&cell_of(&b.value));
            Ok(Some(copy_first(alloc, order, a, b)?))
        }
        _ => Ok(None),
    }
}

/// The high end, likewise.
fn joined_high(
    alloc: Global,
    left_null: bool,
    right_null: bool,
    a: &Option<End>,
    b: &Option<End>,
) -> VortexResult<Option<End>>
    ensures { AnswersUnlessMemory result (λ e. option_map end_view e
        ≡ joined_end higher_end left_null right_null (option_map end_view a.now)
        (option_map end_view b.now)) }
{
    match (a, b) {
        _ if left_null => copy_end(alloc, b),
        _ if right_null => copy_end(alloc, a),
        (Some(a), Some(b)) => {
            let order = cell_of(&b.value).compare(&cell_of(&a.value));
            Ok(Some(copy_first(alloc, order, a, b)?))
        }
        _ => Ok(None),
    }
}

/// The parts of both columns, which have one type.
fn joined_parts(alloc: Global, a: &Parts, b: &Parts) -> VortexResult<Parts>
    ensures { AnswersUnlessMemory result
        (λ p. parts_view p ≡ joined (parts_view a.now) (parts_view b.now)) }
{
    let left_null = is_all_null(a.rows, a.nulls);
    let right_null = is_all_null(b.rows, b.nulls);
    Ok(Parts {
        dtype: a.dtype.try_clone(alloc)?,
        rows: sum_of(a.rows, b.rows),
        nulls: sum_of(a.nulls, b.nulls),
        low: joined_low(alloc, left_null, right_null, &a.low, &b.low)?,
        high: joined_high(alloc, left_null, right_null, &a.high, &b.high)?,
        skips_nan: a.skips_nan | b.skips_nan,
    })
}

impl Statistics {
    /// The statistics of the rows of one column followed by those of another. A count is known
    /// where both are and the sum is below 2^64, an end where both are; but where it is known that
    /// each row of one column is null, its ends do not count. E12 exactly where the types differ.
    pub fn joined(&self, other: &Statistics, alloc: Global) -> VortexResult<Statistics>
        ensures parts { AnswersWhere result (self.now.dtype ≡ other.now.dtype)
            (λ s. s ≡ joined self.now other.now) InvalidColumn }
        ensures describes { IfOk result (DescribesBoth self.now other.now) }
    {
        if self.parts.dtype != other.parts.dtype {
            return Err(VortexError::InvalidColumn);
        }
        let parts = joined_parts(alloc, &self.parts, &other.parts)?;
        Ok(Statistics { parts })
    }
}
