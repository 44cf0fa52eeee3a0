//! Whether each row of an operand of integers, of what integers stand for, or of floats that are
//! lent is between two bounds.
ghost use Rattle.std.specs.Prelude.{◌≡◌, ◌<◌, ℕ, IfSome, length};
ghost use Rattle.vortex_columns.specs.ValidityView.{validity_of};
ghost use Rattle.vortex_columns.specs.ValidRows.{IsValidityIn};
ghost use Rattle.vortex_kernels.specs.Words.{AreBeside, AreBounded, HasBetweenRows, HasNoNull};
ghost use Rattle.vortex_kernels.specs.Words.{any_nullable, bound_operator, compare_swap, holds};
ghost use Rattle.yurkije_lent.specs.Operands.{operand_column};

use crate::compare::one;
use crate::float_bounds::hold_between_floats;
use crate::floats::are_lent_floats;
use crate::integer_types::integer_type;
use crate::integers::{LentInteger, ints};
use crate::operand::Operand;
use crate::validity::{both_valid_in, is_full, nullability};
use std::alloc::Global;
use vortex_columns::{BitBuffer, Column, PType, Validity};
use vortex_kernels::bounds::hold_both_in_spans;
use vortex_kernels::comparisons::{Comparison, IsGreater, IsGreaterOrEqual, IsLess, IsLessOrEqual};
use vortex_kernels::pairs::{IntPairs, IntsAndOne, SpanPairs};
use vortex_operators::{BetweenOptions, StrictComparison};

/// The integers of an operand with lower bounds in a chosen form, and the upper bounds. None where
/// those are not integers, or memory is refused.
fn ints_beside<P: Comparison, Q: Comparison, L: SpanPairs, T: LentInteger>(
    alloc: Global,
    array: &Operand<'_>,
    lower: L,
    upper: &Operand<'_>,
) -> Option<BitBuffer>
    requires lower { (i : ℕ) → i < length (operand_column array.now).rows → L.has_pair lower i }
    requires upper { length (operand_column array.now).rows
        ≡ length (operand_column upper.now).rows }
    ensures { IfSome result (AreBeside (λ i. holds P.operator (L.order lower i)) Q.operator
        (operand_column array.now).rows (operand_column upper.now).rows) }
{
    let len = array.len();
    let left = ints::<T>(array)?;
    if let Some(right) = ints::<T>(upper) {
        let pairs = IntPairs { left, right };
        return hold_both_in_spans::<P, Q, L, IntPairs<T>>(alloc, lower, pairs, len).ok();
    }
    let right = one::<T>(upper)?;
    let pairs = IntsAndOne { left, right };
    hold_both_in_spans::<P, Q, L, IntsAndOne<T>>(alloc, lower, pairs, len).ok()
}

/// Whether both comparisons are true in each row in which all three sides have a value, of
/// integers of one type in rows that are not constant, with bounds in either form. None for
/// others, and where memory is refused.
fn ints_between<P: Comparison, Q: Comparison, T: LentInteger>(
    alloc: Global,
    array: &Operand<'_>,
    lower: &Operand<'_>,
    upper: &Operand<'_>,
) -> Option<BitBuffer>
    requires lower { length (operand_column array.now).rows
        ≡ length (operand_column lower.now).rows }
    requires upper { length (operand_column array.now).rows
        ≡ length (operand_column upper.now).rows }
    ensures { IfSome result (AreBounded P.operator Q.operator (operand_column array.now).rows
        (operand_column lower.now).rows (operand_column upper.now).rows) }
{
    let left = ints::<T>(array)?;
    if let Some(right) = ints::<T>(lower) {
        let pairs = IntPairs { left, right };
        return ints_beside::<P, Q, IntPairs<T>, T>(alloc, array, pairs, upper);
    }
    let right = one::<T>(lower)?;
    let pairs = IntsAndOne { left, right };
    ints_beside::<P, Q, IntsAndOne<T>, T>(alloc, array, pairs, upper)
}

/// The same; the integer type is chosen before the rows, and floats that are lent come first.
fn hold_between<P: Comparison, Q: Comparison>(
    alloc: Global,
    array: &Operand<'_>,
    lower: &Operand<'_>,
    upper: &Operand<'_>,
) -> Option<BitBuffer>
    requires lower { length (operand_column array.now).rows
        ≡ length (operand_column lower.now).rows }
    requires upper { length (operand_column array.now).rows
        ≡ length (operand_column upper.now).rows }
    ensures { IfSome result (AreBounded P.operator Q.operator (operand_column array.now).rows
        (operand_column lower.now).rows (operand_column upper.now).rows) }
{
    if are_lent_floats(array) {
        return hold_between_floats::<P, Q>(alloc, array, lower, upper);
    }
    match integer_type(array)? {
        PType::I8 => ints_between::<P, Q, i8>(alloc, array, lower, upper),
        PType::I16 => ints_between::<P, Q, i16>(alloc, array, lower, upper),
        PType::I32 => ints_between::<P, Q, i32>(alloc, array, lower, upper),
        PType::I64 => ints_between::<P, Q, i64>(alloc, array, lower, upper),
        PType::U8 => ints_between::<P, Q, u8>(alloc, array, lower, upper),
        PType::U16 => ints_between::<P, Q, u16>(alloc, array, lower, upper),
        PType::U32 => ints_between::<P, Q, u32>(alloc, array, lower, upper),
        PType::U64 => ints_between::<P, Q, u64>(alloc, array, lower, upper),
    }
}

/// The same; the operators are chosen before the rows.
fn hold_in_bounds(
    alloc: Global,
    options: &BetweenOptions,
    array: &Operand<'_>,
    lower: &Operand<'_>,
    upper: &Operand<'_>,
) -> Option<BitBuffer>
    requires lower { length (operand_column array.now).rows
        ≡ length (operand_column lower.now).rows }
    requires upper { length (operand_column array.now).rows
        ≡ length (operand_column upper.now).rows }
    ensures { IfSome result (AreBounded (compare_swap (bound_operator options.now.lower_strict))
        (bound_operator options.now.upper_strict) (operand_column array.now).rows
        (operand_column lower.now).rows (operand_column upper.now).rows) }
{
    match (options.lower_strict, options.upper_strict) {
        (StrictComparison::Strict, StrictComparison::Strict) => {
            hold_between::<IsGreater, IsLess>(alloc, array, lower, upper)
        }
        (StrictComparison::Strict, StrictComparison::NonStrict) => {
            hold_between::<IsGreater, IsLessOrEqual>(alloc, array, lower, upper)
        }
        (StrictComparison::NonStrict, StrictComparison::Strict) => {
            hold_between::<IsGreaterOrEqual, IsLess>(alloc, array, lower, upper)
        }
        (StrictComparison::NonStrict, StrictComparison::NonStrict) => {
            hold_between::<IsGreaterOrEqual, IsLessOrEqual>(alloc, array, lower, upper)
        }
    }
}

/// The validity of the rows of an operand with bounds that have no null, for a type that is
/// nullable if one of the three is. None where memory is refused.
fn valid_between(
    alloc: Global,
    array: &Operand<'_>,
    lower: &Operand<'_>,
    upper: &Operand<'_>,
) -> Option<Validity>
    requires lower { length (operand_column array.now).rows
        ≡ length (operand_column lower.now).rows }
    requires upper { length (operand_column array.now).rows
        ≡ length (operand_column upper.now).rows }
    requires no_lower { HasNoNull (operand_column lower.now).rows }
    requires no_upper { HasNoNull (operand_column upper.now).rows }
    ensures { IfSome result (λ v. IsValidityIn (any_nullable (operand_column array.now).dtype
        (operand_column lower.now).dtype (operand_column upper.now).dtype)
        (operand_column array.now) (validity_of v)) }
{
    if nullability(upper).is_nullable() {
        both_valid_in(alloc, array, upper)
    } else {
        both_valid_in(alloc, array, lower)
    }
}

/// Whether each row of an operand of integers that is not constant, of what they stand for, or of
/// floats that are lent is between the row's bounds, of which none is null. None for others, where a
/// bound has a list of valid rows, and where memory is refused.
pub(crate) fn between_operands(
    alloc: Global,
    options: &BetweenOptions,
    array: &Operand<'_>,
    lower: &Operand<'_>,
    upper: &Operand<'_>,
) -> Option<Column>
    requires lower { length (operand_column array.now).rows
        ≡ length (operand_column lower.now).rows }
    requires upper { length (operand_column array.now).rows
        ≡ length (operand_column upper.now).rows }
    ensures { IfSome result (HasBetweenRows options.now (operand_column array.now)
        (operand_column lower.now) (operand_column upper.now)) }
{
    if !is_full(lower) || !is_full(upper) {
        return None;
    }
    let bits = hold_in_bounds(alloc, options, array, lower, upper)?;
    let validity = valid_between(alloc, array, lower, upper)?;
    Column::try_bool(alloc, bits, validity).ok()
}
