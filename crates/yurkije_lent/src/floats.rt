//! Comparisons of floats, where patterns lie in a caller's buffers, 64 at a time: floats of 64 bits
//! of which none is a NaN as floats, and others by their keys, without a column of the keys.
ghost use Rattle.std.specs.Prelude.{◌≡◌, ◌<◌, IfSome, length, map, pos, slice_index_or};
ghost use Rattle.std.specs.Bool.{⊤};
ghost use Rattle.std.specs.Ordering.{int_cmp};
ghost use Rattle.vortex_columns.specs.ColumnView.{AreInts};
ghost use Rattle.vortex_arrow.specs.Columns.{arrow_column};
ghost use Rattle.vortex_kernels.specs.Words.{AreComparisons, AreNumbers};
ghost use Rattle.yurkije_lent.specs.Operands.{operand_column};

use crate::float_lanes::{ComparedLane, FloatLane, Lanes, ListedPatterns};
use crate::operand::Operand;
use std::alloc::Global;
use std::marker::PhantomData;
use vortex_arrow::{ArrowColumn, ArrowValues};
use vortex_columns::BitBuffer;
use vortex_kernels::comparisons::Comparison;
use vortex_kernels::lanes::LaneInteger;
use vortex_kernels::numbers::{ListedNumbers, OneNumber};
use vortex_kernels::pairs::{Pairs, SpanPairs, constant_int, hold_in_spans};

/// The integers of two sides.
#[derive(Clone, Copy)]
pub(crate) struct SidePairs<T: ComparedLane, L: Lanes<T>, R: Lanes<T>> {
    pub(crate) left: L,
    pub(crate) right: R,
    pub(crate) of: PhantomData<T>,
}

impl<T: ComparedLane, L: Lanes<T>, R: Lanes<T>> Pairs for SidePairs<T, L, R> {
    ghost has_pair = { λ p i. L.has_row p.left i × R.has_row p.right i };

    ghost order = { λ p i. int_cmp (L.number_at p.left i) (R.number_at p.right i) };

    fn holds_at<P: Comparison>(&self, i: usize) -> bool {
        P::holds(self.left.at(i).total_compare(self.right.at(i)))
    }
}

impl<T: ComparedLane, L: Lanes<T>, R: Lanes<T>> SpanPairs for SidePairs<T, L, R> {
    fn hold_from<P: Comparison>(&self, at: usize) -> u64 {
        T::hold_from::<P, L, R>(&self.left, &self.right, at)
    }
}

/// Whether the comparison is true in each row in which both sides have a value. None where memory
/// is refused.
fn hold_in_sides<P: Comparison, T: ComparedLane, L: Lanes<T>, R: Lanes<T>>(
    alloc: Global,
    left: L,
    right: R,
    lhs: &Operand<'_>,
    rhs: &Operand<'_>,
) -> Option<BitBuffer>
    requires lengths { length (operand_column lhs.now).rows ≡ length (operand_column rhs.now).rows }
    requires left { AreNumbers (operand_column lhs.now) (L.has_row left) (L.number_at left) }
    requires right { AreNumbers (operand_column rhs.now) (R.has_row right) (R.number_at right) }
    ensures { IfSome result (λ bits. AreComparisons P.operator
        (operand_column lhs.now).rows (operand_column rhs.now).rows bits) }
{
    let pairs = SidePairs::<T, L, R> {
        left,
        right,
        of: PhantomData,
    };
    hold_in_spans::<P, SidePairs<T, L, R>>(alloc, pairs, lhs.len()).ok()
}

/// The patterns of rows that are lent; none where they are of another type, or the buffers too
/// short.
fn lent_patterns<'a, T: FloatLane>(column: &ArrowColumn<'a>) -> Option<&'a [T]>
    ensures { IfSome result (λ xs. AreInts (arrow_column column.now) (map T.key xs.now)) }
{
    let values = T::of_values(column.values)?;
    let end = column.offset.checked_add(column.length)?;
    if end <= values.len() {
        Some(&values[column.offset..end])
    } else {
        None
    }
}

/// The keys of patterns that are lent; none for another operand.
pub(crate) fn keys_that_lie<'r, T: FloatLane>(
    operand: &'r Operand<'_>,
) -> Option<ListedPatterns<'r, T>>
    ensures { IfSome result (λ side. AreNumbers (operand_column operand.now)
        (λ i. i < length side.patterns.now)
        (λ i. slice_index_or (map T.key side.patterns.now) i (pos 0))) }
{
    let Operand::Lent(column) = operand else {
        return None;
    };
    let patterns = lent_patterns::<T>(column)?;
    Some(ListedPatterns { patterns })
}

/// The keys of a column that was made and is not constant; none for another operand.
pub(crate) fn made_keys<'r, T: LaneInteger>(
    operand: &'r Operand<'_>,
) -> Option<ListedNumbers<'r, T>>
    ensures { IfSome result (λ side. AreNumbers (operand_column operand.now)
        (λ i. i < length side.values.now)
        (λ i. slice_index_or (map T.number side.values.now) i (pos 0))) }
{
    match operand {
        Operand::Lent(_) => None,
        Operand::Made(column) => Some(ListedNumbers {
            values: column.ints::<T>()?,
        }),
    }
}

/// The key in each row of a constant column; none for another operand.
pub(crate) fn one_key<T: LaneInteger>(operand: &Operand<'_>) -> Option<OneNumber<T>>
    ensures { IfSome result
        (λ side. AreNumbers (operand_column operand.now) (λ i. ⊤) (λ i. T.number side.value)) }
{
    match operand {
        Operand::Lent(_) => None,
        Operand::Made(column) => Some(OneNumber {
            value: constant_int::<T>(column)?,
        }),
    }
}

/// Whether the comparison is true in each row in which both sides have a value, of patterns on the
/// left. None where the right side is none of patterns of that width, keys and one key, or memory
/// is refused.
fn hold_beside_patterns<P: Comparison, T: ComparedLane>(
    alloc: Global,
    left: ListedPatterns<'_, T>,
    lhs: &Operand<'_>,
    rhs: &Operand<'_>,
) -> Option<BitBuffer>
    requires lengths { length (operand_column lhs.now).rows ≡ length (operand_column rhs.now).rows }
    requires left { AreNumbers (operand_column lhs.now) (λ i. i < length left.patterns.now)
        (λ i. slice_index_or (map T.key left.patterns.now) i (pos 0)) }
    ensures { IfSome result (λ bits. AreComparisons P.operator
        (operand_column lhs.now).rows (operand_column rhs.now).rows bits) }
{
    if let Some(right) = keys_that_lie::<T>(rhs) {
        return hold_in_sides::<P, T, ListedPatterns<T>, ListedPatterns<T>>(
            alloc, left, right, lhs, rhs,
        );
    }
    if let Some(right) = made_keys::<T>(rhs) {
        return hold_in_sides::<P, T, ListedPatterns<T>, ListedNumbers<T>>(
            alloc, left, right, lhs, rhs,
        );
    }
    let right = one_key::<T>(rhs)?;
    hold_in_sides::<P, T, ListedPatterns<T>, OneNumber<T>>(alloc, left, right, lhs, rhs)
}

/// The same, of floats of one width, of which a side is patterns. None for other operands, and
/// where memory is refused.
fn hold_in_lanes<P: Comparison, T: ComparedLane>(
    alloc: Global,
    left: &Operand<'_>,
    right: &Operand<'_>,
) -> Option<BitBuffer>
    requires { length (operand_column left.now).rows ≡ length (operand_column right.now).rows }
    ensures { IfSome result (λ bits. AreComparisons P.operator
        (operand_column left.now).rows (operand_column right.now).rows bits) }
{
    if let Some(lefts) = keys_that_lie::<T>(left) {
        return hold_beside_patterns::<P, T>(alloc, lefts, left, right);
    }
    let rights = keys_that_lie::<T>(right)?;
    let lefts = made_keys::<T>(left)?;
    hold_in_sides::<P, T, ListedNumbers<T>, ListedPatterns<T>>(alloc, lefts, rights, left, right)
}

/// Whether an operand is floats that are lent.
pub(crate) fn are_lent_floats(operand: &Operand<'_>) -> bool {
    match operand {
        Operand::Lent(column) => {
            matches!(
                column.values,
                ArrowValues::Float64(_) | ArrowValues::Float32(_)
            )
        }
        Operand::Made(_) => false,
    }
}

/// Whether the comparison is true in each row in which both sides have a value, of floats of which
/// a side at least is lent, and the other one is lent, a column of the keys or, on the right, one key
/// in each row. None for other operands, floats of two widths, and where memory is refused.
pub(crate) fn hold_in_floats<P: Comparison>(
    alloc: Global,
    left: &Operand<'_>,
    right: &Operand<'_>,
) -> Option<BitBuffer>
    requires { length (operand_column left.now).rows ≡ length (operand_column right.now).rows }
    ensures { IfSome result (λ bits. AreComparisons P.operator
        (operand_column left.now).rows (operand_column right.now).rows bits) }
{
    match hold_in_lanes::<P, i64>(alloc, left, right) {
        Some(bits) => Some(bits),
        None => hold_in_lanes::<P, i32>(alloc, left, right),
    }
}
