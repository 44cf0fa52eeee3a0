//! Whether the parts of statistics contradict themselves.
ghost use Rattle.std.specs.Prelude.{◌≡◌, ◌||◌, ◌&&◌, ◌↔◌, IsTrue, IfSome, option_map};
ghost use Rattle.vortex_columns.specs.Words.{is_nullable, type_of};
ghost use Rattle.vortex_statistics.specs.StatisticsView.{AreConsistent, IsEndOf, counts_agree};
ghost use Rattle.vortex_statistics.specs.StatisticsView.{are_in_order, is_attained, is_all_null};
ghost use Rattle.vortex_statistics.specs.Parts.{end_view, parts_view};

use crate::end::End;
use crate::parts::Parts;
use vortex_columns::{DType, cell_of};

/// No more nulls than rows, and none where the type has no null.
fn counts_agree(nullable: bool, rows: Option<u64>, nulls: Option<u64>) -> bool
    ensures { result ≡ counts_agree nullable rows nulls }
{
    match (rows, nulls) {
        (_, None) => true,
        (None, Some(k)) => nullable || k == 0,
        (Some(n), Some(k)) => (nullable || k == 0) && k <= n,
    }
}

/// Whether an end, if there is one, has the type.
fn has_type(end: &Option<End>, dtype: &DType) -> bool
    ensures { IsTrue result
        ↔ IfSome (option_map end_view end.now) (IsEndOf (type_of dtype.now)) }
{
    match end {
        Some(end) => cell_of(&end.value).has_type(dtype),
        None => true,
    }
}

/// Whether the low end is not above the high one.
fn are_in_order(low: &Option<End>, high: &Option<End>) -> bool
    ensures { result
        ≡ are_in_order (option_map end_view low.now) (option_map end_view high.now) }
{
    match (low, high) {
        (Some(low), Some(high)) => cell_of(&low.value).compare(&cell_of(&high.value)).is_le(),
        _ => true,
    }
}

/// Whether an end is known to be the value of a row.
fn is_attained(end: &Option<End>) -> bool
    ensures { result ≡ is_attained (option_map end_view end.now) }
{
    match end {
        Some(end) => end.attained,
        None => false,
    }
}

/// Whether it is known that each row is null.
pub(crate) fn is_all_null(rows: Option<u64>, nulls: Option<u64>) -> bool
    ensures { result ≡ is_all_null rows nulls }
{
    match (rows, nulls) {
        (Some(n), Some(k)) => n == k,
        (Some(n), None) => n == 0,
        (None, _) => false,
    }
}

/// Whether the parts do not contradict themselves. Allocates as `Cell::compare` does.
pub(crate) fn are_consistent(parts: &Parts) -> bool
    ensures { IsTrue result ↔ AreConsistent (parts_view parts.now) }
{
    let has_attained = is_attained(&parts.low) || is_attained(&parts.high);
    counts_agree(parts.dtype.is_nullable(), parts.rows, parts.nulls)
        && has_type(&parts.low, &parts.dtype)
        && has_type(&parts.high, &parts.dtype)
        && are_in_order(&parts.low, &parts.high)
        && !(has_attained && is_all_null(parts.rows, parts.nulls))
}
