//! The values of a column and both bounds of their rows, tested in one pass.
ghost use Rattle.std.specs.Prelude.{◌≡◌, ◌<◌, ◌&&◌, ℕ, length, IfSome};
ghost use Rattle.vortex_kernels.specs.Words.{AnswersUnlessMemory, AreRows, holds, is_text_type};
ghost use Rattle.vortex_kernels.specs.Words.{AreBeside, AreBounded};

use crate::comparisons::Comparison;
use crate::integer_types::with_integer;
use crate::lanes::LaneInteger;
use crate::pairs::{
    BytesAndOne, BytesPairs, IntPairs, IntsAndOne, Pairs, SpanPairs, constant_bytes, constant_int,
};
use crate::spans::{SpanBits, collect_spans};
use std::alloc::Global;
use std::marker::PhantomData;
use vortex_bits::{RowBits, collect_rows};
use vortex_columns::{BitBuffer, Column, DType, PType, VortexResult};

/// Whether both comparisons are true, each for its pair.
#[derive(Clone, Copy)]
struct HeldBoth<P: Comparison, Q: Comparison, L: Pairs, U: Pairs> {
    lower: L,
    upper: U,
    above: PhantomData<P>,
    below: PhantomData<Q>,
}

impl<P: Comparison, Q: Comparison, L: Pairs, U: Pairs> RowBits for HeldBoth<P, Q, L, U> {
    ghost has_row = { λ h i. L.has_pair h.lower i × U.has_pair h.upper i };

    ghost row_bit = { λ h i. holds P.operator (L.order h.lower i)
        && holds Q.operator (U.order h.upper i) };

    fn bit(&self, i: usize) -> bool {
        // both, so that no row branches
        let above = self.lower.holds_at::<P>(i);
        let below = self.upper.holds_at::<Q>(i);
        above & below
    }
}

impl<P: Comparison, Q: Comparison, L: SpanPairs, U: SpanPairs> SpanBits for HeldBoth<P, Q, L, U> {
    fn span(&self, at: usize) -> u64 {
        self.lower.hold_from::<P>(at) & self.upper.hold_from::<Q>(at)
    }
}

/// Whether both comparisons are true in each row.
fn hold_in_both<P: Comparison, Q: Comparison, L: Pairs, U: Pairs>(
    alloc: Global,
    lower: L,
    upper: U,
    len: usize,
) -> VortexResult<BitBuffer>
    requires lower { (i : ℕ) → i < len → L.has_pair lower i }
    requires upper { (i : ℕ) → i < len → U.has_pair upper i }
    ensures { AnswersUnlessMemory result (AreRows len
        (λ i. holds P.operator (L.order lower i) && holds Q.operator (U.order upper i))) }
{
    let rows = HeldBoth::<P, Q, L, U> {
        lower,
        upper,
        above: PhantomData,
        below: PhantomData,
    };
    collect_rows(alloc, &rows, len)
}

/// Whether both comparisons are true in each row, of pairs of which 64 are compared at once. E9
/// where memory is refused.
pub fn hold_both_in_spans<P: Comparison, Q: Comparison, L: SpanPairs, U: SpanPairs>(
    alloc: Global,
    lower: L,
    upper: U,
    len: usize,
) -> VortexResult<BitBuffer>
    requires lower { (i : ℕ) → i < len → L.has_pair lower i }
    requires upper { (i : ℕ) → i < len → U.has_pair upper i }
    ensures { AnswersUnlessMemory result (AreRows len
        (λ i. holds P.operator (L.order lower i) && holds Q.operator (U.order upper i))) }
{
    let rows = HeldBoth::<P, Q, L, U> {
        lower,
        upper,
        above: PhantomData,
        below: PhantomData,
    };
    collect_spans(alloc, &rows, len)
}

/// The integers of a column with lower bounds in a chosen form, and the upper bounds; none where
/// those are not integers.
fn ints_beside<P: Comparison, Q: Comparison, L: SpanPairs, T: LaneInteger>(
    alloc: Global,
    array: &Column,
    lower: L,
    upper: &Column,
) -> VortexResult<Option<BitBuffer>>
    requires lower { (i : ℕ) → i < length array.now.rows → L.has_pair lower i }
    requires upper { length array.now.rows ≡ length upper.now.rows }
    ensures { AnswersUnlessMemory result (λ bits. IfSome bits
        (AreBeside (λ i. holds P.operator (L.order lower i)) Q.operator array.now.rows
        upper.now.rows)) }
{
    let len = array.len();
    let Some(left) = array.ints::<T>() else {
        return Ok(None);
    };
    if let Some(right) = upper.ints::<T>() {
        let pairs = IntPairs { left, right };
        let bits = hold_both_in_spans::<P, Q, L, IntPairs<T>>(alloc, lower, pairs, len)?;
        return Ok(Some(bits));
    }
    if let Some(right) = constant_int::<T>(upper) {
        let pairs = IntsAndOne { left, right };
        let bits = hold_both_in_spans::<P, Q, L, IntsAndOne<T>>(alloc, lower, pairs, len)?;
        return Ok(Some(bits));
    }
    Ok(None)
}

fn ints_between<P: Comparison, Q: Comparison, T: LaneInteger>(
    alloc: Global,
    array: &Column,
    lower: &Column,
    upper: &Column,
) -> VortexResult<Option<BitBuffer>>
    requires lower { length array.now.rows ≡ length lower.now.rows }
    requires upper { length array.now.rows ≡ length upper.now.rows }
    ensures { AnswersUnlessMemory result (λ bits. IfSome bits
        (AreBounded P.operator Q.operator array.now.rows lower.now.rows upper.now.rows)) }
{
    // so that the rows are known not to overflow
    let _ = array.len();
    let Some(left) = array.ints::<T>() else {
        return Ok(None);
    };
    if let Some(right) = lower.ints::<T>() {
        let pairs = IntPairs { left, right };
        return ints_beside::<P, Q, IntPairs<T>, T>(alloc, array, pairs, upper);
    }
    if let Some(right) = constant_int::<T>(lower) {
        let pairs = IntsAndOne { left, right };
        return ints_beside::<P, Q, IntsAndOne<T>, T>(alloc, array, pairs, upper);
    }
    Ok(None)
}

/// The texts of a column with lower bounds in a chosen form, and the upper bounds; none where those
/// are not texts.
fn texts_beside<P: Comparison, Q: Comparison, L: Pairs>(
    alloc: Global,
    array: &Column,
    lower: L,
    upper: &Column,
) -> VortexResult<Option<BitBuffer>>
    requires lower { (i : ℕ) → i < length array.now.rows → L.has_pair lower i }
    requires upper { length array.now.rows ≡ length upper.now.rows }
    requires kind { is_text_type array.now.dtype ≡ is_text_type upper.now.dtype }
    ensures { AnswersUnlessMemory result (λ bits. IfSome bits
        (AreBeside (λ i. holds P.operator (L.order lower i)) Q.operator array.now.rows
        upper.now.rows)) }
{
    let len = array.len();
    let Some(left) = array.views() else {
        return Ok(None);
    };
    if let Some(right) = upper.views() {
        let pairs = BytesPairs { left, right };
        let bits = hold_in_both::<P, Q, L, BytesPairs>(alloc, lower, pairs, len)?;
        return Ok(Some(bits));
    }
    if let Some(right) = constant_bytes(upper) {
        let pairs = BytesAndOne { left, right };
        let bits = hold_in_both::<P, Q, L, BytesAndOne>(alloc, lower, pairs, len)?;
        return Ok(Some(bits));
    }
    Ok(None)
}

fn texts_between<P: Comparison, Q: Comparison>(
    alloc: Global,
    array: &Column,
    lower: &Column,
    upper: &Column,
) -> VortexResult<Option<BitBuffer>>
    requires lower { length array.now.rows ≡ length lower.now.rows }
    requires upper { length array.now.rows ≡ length upper.now.rows }
    requires lower_kind { is_text_type array.now.dtype ≡ is_text_type lower.now.dtype }
    requires upper_kind { is_text_type array.now.dtype ≡ is_text_type upper.now.dtype }
    ensures { AnswersUnlessMemory result (λ bits. IfSome bits
        (AreBounded P.operator Q.operator array.now.rows lower.now.rows upper.now.rows)) }
{
    let _ = array.len();
    let Some(left) = array.views() else {
        return Ok(None);
    };
    if let Some(right) = lower.views() {
        let pairs = BytesPairs { left, right };
        return texts_beside::<P, Q, BytesPairs>(alloc, array, pairs, upper);
    }
    if let Some(right) = constant_bytes(lower) {
        let pairs = BytesAndOne { left, right };
        return texts_beside::<P, Q, BytesAndOne>(alloc, array, pairs, upper);
    }
    Ok(None)
}

/// Whether the first comparison is true for each value and its lower bound, and the second for it
/// and its upper bound, in each row in which all three have a value. None for types and forms that
/// are not read in one pass: it takes integers and texts, with columns or constants as bounds.
pub(crate) fn hold_between<P: Comparison, Q: Comparison>(
    alloc: Global,
    array: &Column,
    lower: &Column,
    upper: &Column,
) -> VortexResult<Option<BitBuffer>>
    requires lower { length array.now.rows ≡ length lower.now.rows }
    requires upper { length array.now.rows ≡ length upper.now.rows }
    ensures { AnswersUnlessMemory result (λ bits. IfSome bits
        (AreBounded P.operator Q.operator array.now.rows lower.now.rows upper.now.rows)) }
{
    match array.dtype() {
        DType::Utf8(_) if lower.dtype().is_utf8() && upper.dtype().is_utf8() => {
            texts_between::<P, Q>(alloc, array, lower, upper)
        }
        DType::Primitive(ptype, _) => {
            with_integer!(*ptype, ints_between::<P, Q, _>(alloc, array, lower, upper))
        }
        _ => Ok(None),
    }
}
