//! Whether each row of floats that are lent is between two bounds, by the keys of all three, 64 rows
//! at a time.
ghost use Rattle.std.specs.Prelude.{◌≡◌, ◌<◌, IfSome, length, map, pos, slice_index_or};
ghost use Rattle.vortex_kernels.specs.Words.{AreBounded, AreNumbers};
ghost use Rattle.yurkije_lent.specs.Operands.{operand_column};

use crate::float_lanes::{ComparedLane, Lanes, ListedPatterns};
use crate::floats::{SidePairs, keys_that_lie, made_keys, one_key};
use crate::operand::Operand;
use std::alloc::Global;
use std::marker::PhantomData;
use vortex_columns::BitBuffer;
use vortex_kernels::bounds::hold_both_in_spans;
use vortex_kernels::comparisons::Comparison;
use vortex_kernels::numbers::{ListedNumbers, OneNumber};

/// Whether both comparisons are true in each row in which all three sides have a value. None where
/// memory is refused.
fn hold_in_keys<
    P: Comparison,
    Q: Comparison,
    T: ComparedLane,
    X: Lanes<T>,
    L: Lanes<T>,
    U: Lanes<T>,
>(
    alloc: Global,
    left: X,
    low: L,
    high: U,
    array: &Operand<'_>,
    lower: &Operand<'_>,
    upper: &Operand<'_>,
) -> Option<BitBuffer>
    requires above { length (operand_column array.now).rows
        ≡ length (operand_column lower.now).rows }
    requires below { length (operand_column array.now).rows
        ≡ length (operand_column upper.now).rows }
    requires left { AreNumbers (operand_column array.now) (X.has_row left) (X.number_at left) }
    requires low { AreNumbers (operand_column lower.now) (L.has_row low) (L.number_at low) }
    requires high { AreNumbers (operand_column upper.now) (U.has_row high) (U.number_at high) }
    ensures { IfSome result (AreBounded P.operator Q.operator (operand_column array.now).rows
        (operand_column lower.now).rows (operand_column upper.now).rows) }
{
    let above = SidePairs::<T, X, L> {
        left,
        right: low,
        of: PhantomData,
    };
    let below = SidePairs::<T, X, U> {
        left,
        right: high,
        of: PhantomData,
    };
    let len = array.len();
    hold_both_in_spans::<P, Q, SidePairs<T, X, L>, SidePairs<T, X, U>>(
        alloc, above, below, len,
    ).ok()
}

/// The same; the form of the upper bounds is chosen before the rows. None for other forms too.
fn hold_below<P: Comparison, Q: Comparison, T: ComparedLane, X: Lanes<T>, L: Lanes<T>>(
    alloc: Global,
    left: X,
    low: L,
    array: &Operand<'_>,
    lower: &Operand<'_>,
    upper: &Operand<'_>,
) -> Option<BitBuffer>
    requires above { length (operand_column array.now).rows
        ≡ length (operand_column lower.now).rows }
    requires below { length (operand_column array.now).rows
        ≡ length (operand_column upper.now).rows }
    requires left { AreNumbers (operand_column array.now) (X.has_row left) (X.number_at left) }
    requires low { AreNumbers (operand_column lower.now) (L.has_row low) (L.number_at low) }
    ensures { IfSome result (AreBounded P.operator Q.operator (operand_column array.now).rows
        (operand_column lower.now).rows (operand_column upper.now).rows) }
{
    if let Some(high) = keys_that_lie::<T>(upper) {
        return hold_in_keys::<P, Q, T, X, L, ListedPatterns<T>>(
            alloc, left, low, high, array, lower, upper,
        );
    }
    if let Some(high) = made_keys::<T>(upper) {
        return hold_in_keys::<P, Q, T, X, L, ListedNumbers<T>>(
            alloc, left, low, high, array, lower, upper,
        );
    }
    let high = one_key::<T>(upper)?;
    hold_in_keys::<P, Q, T, X, L, OneNumber<T>>(alloc, left, low, high, array, lower, upper)
}

/// The same of floats of one width that are lent; the form of the lower bounds is chosen first.
fn hold_in_width<P: Comparison, Q: Comparison, T: ComparedLane>(
    alloc: Global,
    array: &Operand<'_>,
    lower: &Operand<'_>,
    upper: &Operand<'_>,
) -> Option<BitBuffer>
    requires above { length (operand_column array.now).rows
        ≡ length (operand_column lower.now).rows }
    requires below { length (operand_column array.now).rows
        ≡ length (operand_column upper.now).rows }
    ensures { IfSome result (AreBounded P.operator Q.operator (operand_column array.now).rows
        (operand_column lower.now).rows (operand_column upper.now).rows) }
{
    let left = keys_that_lie::<T>(array)?;
    if let Some(low) = keys_that_lie::<T>(lower) {
        return hold_below::<P, Q, T, ListedPatterns<T>, ListedPatterns<T>>(
            alloc, left, low, array, lower, upper,
        );
    }
    if let Some(low) = made_keys::<T>(lower) {
        return hold_below::<P, Q, T, ListedPatterns<T>, ListedNumbers<T>>(
            alloc, left, low, array, lower, upper,
        );
    }
    let low = one_key::<T>(lower)?;
    hold_below::<P, Q, T, ListedPatterns<T>, OneNumber<T>>(alloc, left, low, array, lower, upper)
}

/// Whether both comparisons are true in each row in which all three sides have a value, of floats
/// that are lent; the bounds are lent, columns of the keys or one key in each row. None for other
/// operands, floats of two widths, and where memory is refused.
pub(crate) fn hold_between_floats<P: Comparison, Q: Comparison>(
    alloc: Global,
    array: &Operand<'_>,
    lower: &Operand<'_>,
    upper: &Operand<'_>,
) -> Option<BitBuffer>
    requires above { length (operand_column array.now).rows
        ≡ length (operand_column lower.now).rows }
    requires below { length (operand_column array.now).rows
        ≡ length (operand_column upper.now).rows }
    ensures { IfSome result (AreBounded P.operator Q.operator (operand_column array.now).rows
        (operand_column lower.now).rows (operand_column upper.now).rows) }
{
    match hold_in_width::<P, Q, i64>(alloc, array, lower, upper) {
        Some(bits) => Some(bits),
        None => hold_in_width::<P, Q, i32>(alloc, array, lower, upper),
    }
}
