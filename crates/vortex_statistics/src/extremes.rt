//! A least and a greatest of rows, by their numbers.
ghost use Rattle.std.specs.Prelude.{◌≡◌, ◌<◌, ℕ, map, pos, length, true, false, slice_index_or};
ghost use Rattle.vortex_statistics.specs.Extremes.{AreExtremes, IsCounted, lower_row, higher_row};

use std::cmp::Ordering;
use vortex_bits::{BitBuffer, RowBits};
use vortex_columns::{NativePType, ResolvedViews};
use vortex_views::compare;

/// Rows that are compared by their numbers.
pub(crate) trait RowOrder {
    ghost use Rattle.vortex_types.specs.Values.{Value};
    ghost use Rattle.vortex_types.specs.Order.{compare_values};

    ghost has_value: { Self → ℕ → Type 0 };

    ghost row_value: { Self → ℕ → Value };

    /// The order of the values of two rows.
    fn compare_rows(&self, i: usize, j: usize) -> Ordering
        requires i_in { has_value self.now i }
        requires j_in { has_value self.now j }
        ensures { result ≡ compare_values (row_value self.now i) (row_value self.now j) };
}

/// Truth values as bits.
#[derive(Clone, Copy)]
pub(crate) struct BitRows<'a> {
    pub(crate) bits: &'a BitBuffer,
}

impl RowOrder for BitRows<'_> {
    ghost use Rattle.vortex_types.specs.Values.{truth};

    ghost has_value = { λ r i. i < length r.bits.now };

    ghost row_value = { λ r i. truth (slice_index_or r.bits.now i false) };

    fn compare_rows(&self, i: usize, j: usize) -> Ordering {
        self.bits.value(i).cmp(&self.bits.value(j))
    }
}

/// Integers of one type.
#[derive(Clone, Copy)]
pub(crate) struct IntRows<'a, T: NativePType> {
    pub(crate) integers: &'a [T],
}

impl<T: NativePType> RowOrder for IntRows<'_, T> {
    ghost use Rattle.vortex_types.specs.Values.{number};

    ghost has_value = { λ r i. i < length r.integers.now };

    ghost row_value = { λ r i.
        number (slice_index_or (map T.number r.integers.now) i (pos 0)) };

    fn compare_rows(&self, i: usize, j: usize) -> Ordering {
        self.integers[i].total_compare(self.integers[j])
    }
}

/// Texts or byte strings as views.
#[derive(Clone, Copy)]
pub(crate) struct ByteRows<'a> {
    pub(crate) views: ResolvedViews<'a>,
}

impl RowOrder for ByteRows<'_> {
    ghost use Rattle.std.specs.Prelude.{[]};
    ghost use Rattle.vortex_types.specs.Values.{text};
    ghost use Rattle.vortex_columns.specs.Words.{borrowed_values};

    ghost has_value = { λ r i. i < length (borrowed_values r.views) };

    ghost row_value = { λ r i. text (slice_index_or (borrowed_values r.views) i []) };

    fn compare_rows(&self, i: usize, j: usize) -> Ordering {
        compare(&self.views.row(i), &self.views.row(j))
    }
}

/// Rows of which each counts.
#[derive(Clone, Copy)]
pub(crate) struct EveryRow {}

impl RowBits for EveryRow {
    ghost use Rattle.std.specs.Bool.{⊤};

    ghost has_row = { λ b i. ⊤ };

    ghost row_bit = { λ b i. true };

    fn bit(&self, _i: usize) -> bool {
        true
    }
}

/// Rows of which those count whose bit is set.
#[derive(Clone, Copy)]
pub(crate) struct ListedRows<'a> {
    pub(crate) bits: &'a BitBuffer,
}

impl RowBits for ListedRows<'_> {
    ghost has_row = { λ b i. i < length b.bits.now };

    ghost row_bit = { λ b i. slice_index_or b.bits.now i false };

    fn bit(&self, i: usize) -> bool {
        self.bits.value(i)
    }
}

/// The row of the lower value.
#[inline]
fn lower_row<R: RowOrder>(rows: &R, low: usize, i: usize) -> usize
    requires low_in { R.has_value rows.now low }
    requires i_in { R.has_value rows.now i }
    ensures { result ≡ lower_row (R.row_value rows.now) low i }
{
    if rows.compare_rows(low, i).is_gt() {
        i
    } else {
        low
    }
}

/// The row of the higher value.
#[inline]
fn higher_row<R: RowOrder>(rows: &R, high: usize, i: usize) -> usize
    requires high_in { R.has_value rows.now high }
    requires i_in { R.has_value rows.now i }
    ensures { result ≡ higher_row (R.row_value rows.now) high i }
{
    if rows.compare_rows(i, high).is_gt() {
        i
    } else {
        high
    }
}

/// A least and a greatest of the first `len` rows that count, of which `first` is one.
pub(crate) fn extremes<R: RowOrder, V: RowBits>(
    rows: &R,
    valid: &V,
    first: usize,
    len: usize,
) -> (usize, usize)
    requires rows { (i : ℕ) → i < len → R.has_value rows.now i }
    requires valid { (i : ℕ) → i < len → V.has_row valid.now i }
    requires first { IsCounted len (V.row_bit valid.now) first }
    ensures { AreExtremes len len (V.row_bit valid.now) (R.row_value rows.now)
        result.0 result.1 }
{
    let mut low = first;
    let mut high = first;
    for i in 0..len {
        if valid.bit(i) {
            low = lower_row(rows, low, i);
            high = higher_row(rows, high, i);
        }
    }
    (low, high)
}
