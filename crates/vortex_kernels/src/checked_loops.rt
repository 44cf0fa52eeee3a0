//! Loops over the rows of an operation on integers that tell whether a row faults.
ghost use Rattle.std.specs.Prelude.{◌<◌, ℕ, IfSome, map};
ghost use Rattle.vortex_kernels.specs.Words.{AnswersUnlessMemory, row_results};
ghost use Rattle.vortex_kernels.specs.Words.{AreResults, TellsFaults};
ghost use Rattle.vortex_kernels.specs.Faults.{AreHeldResults};

use crate::arithmetic_integer::{ArithmeticInteger, apply_checked};
use crate::numbers::Numbers;
use crate::row_operation::RowOperation;
use std::alloc::Global;
use vortex_columns::VortexResult;

/// The value of each row, even under a null, and a fault flag, joined over all rows.
fn apply_rows<T: ArithmeticInteger, O: RowOperation<T>, L: Numbers<T>, R: Numbers<T>>(
    alloc: Global,
    left: &L,
    right: &R,
    len: usize,
) -> VortexResult<(Vec<T>, O::Fail)>
    requires left { (i : ℕ) → i < len → L.has_row left.now i }
    requires right { (i : ℕ) → i < len → R.has_row right.now i }
    ensures values { AnswersUnlessMemory result (λ answer. AreResults T.ptype
        (row_results O.exact (L.number_at left.now) (R.number_at right.now)) len
        (map T.NativePType.number answer.0.items)) }
    ensures fault { AnswersUnlessMemory result (λ answer. TellsFaults T.ptype
        (row_results O.exact (L.number_at left.now) (R.number_at right.now)) len
        (O.Fail.is_fault answer.1)) }
{
    let mut values = Vec::with_capacity(alloc, len)?;
    let mut fault = O::Fail::default();
    for i in 0..len {
        let (value, evidence) = apply_checked::<T, O>(left.at(i), right.at(i));
        values.push_reserved(value);
        fault |= evidence;
    }
    Ok((values, fault))
}

/// The value of each row, unless a row faults, even under a null: the loop ends there.
fn unfaulted_rows<T: ArithmeticInteger, O: RowOperation<T>, L: Numbers<T>, R: Numbers<T>>(
    alloc: Global,
    left: &L,
    right: &R,
    len: usize,
) -> VortexResult<Option<Vec<T>>>
    requires left { (i : ℕ) → i < len → L.has_row left.now i }
    requires right { (i : ℕ) → i < len → R.has_row right.now i }
    ensures { AnswersUnlessMemory result (λ answer. IfSome answer (λ values. AreHeldResults T.ptype
        (row_results O.exact (L.number_at left.now) (R.number_at right.now)) len
        (map T.NativePType.number values.items))) }
{
    let mut values = Vec::with_capacity(alloc, len)?;
    for i in 0..len {
        let (value, evidence) = apply_checked::<T, O>(left.at(i), right.at(i));
        if evidence != O::Fail::default() {
            return Ok(None);
        }
        values.push_reserved(value);
    }
    Ok(Some(values))
}

/// The value of each row, even under a null, by the loop that is best for the operation; none where
/// a row faults, even under a null. No row is computed twice. E9 where memory is refused.
pub fn faultless_rows<T: ArithmeticInteger, O: RowOperation<T>, L: Numbers<T>, R: Numbers<T>>(
    alloc: Global,
    left: &L,
    right: &R,
    len: usize,
) -> VortexResult<Option<Vec<T>>>
    requires left { (i : ℕ) → i < len → L.has_row left.now i }
    requires right { (i : ℕ) → i < len → R.has_row right.now i }
    ensures { AnswersUnlessMemory result (λ answer. IfSome answer (λ values. AreHeldResults T.ptype
        (row_results O.exact (L.number_at left.now) (R.number_at right.now)) len
        (map T.NativePType.number values.items))) }
{
    if O::ENDS_AT_FAULT {
        return unfaulted_rows::<T, O, L, R>(alloc, left, right, len);
    }
    let (values, fault) = apply_rows::<T, O, L, R>(alloc, left, right, len)?;
    if fault != O::Fail::default() {
        return Ok(None);
    }
    Ok(Some(values))
}

/// The value of each row, even under a null, and whether any row faults, by the loop that is best
/// for the operation. E9 where memory is refused.
pub(crate) fn checked_rows<T: ArithmeticInteger, O: RowOperation<T>, L: Numbers<T>, R: Numbers<T>>(
    alloc: Global,
    left: &L,
    right: &R,
    len: usize,
) -> VortexResult<(Vec<T>, bool)>
    requires left { (i : ℕ) → i < len → L.has_row left.now i }
    requires right { (i : ℕ) → i < len → R.has_row right.now i }
    ensures values { AnswersUnlessMemory result (λ answer. AreResults T.ptype
        (row_results O.exact (L.number_at left.now) (R.number_at right.now)) len
        (map T.NativePType.number answer.0.items)) }
    ensures fault { AnswersUnlessMemory result (λ answer. TellsFaults T.ptype
        (row_results O.exact (L.number_at left.now) (R.number_at right.now)) len answer.1) }
{
    if O::ENDS_AT_FAULT
        && let Some(values) = unfaulted_rows::<T, O, L, R>(alloc, left, right, len)?
    {
        return Ok((values, false));
    }
    let (values, fault) = apply_rows::<T, O, L, R>(alloc, left, right, len)?;
    Ok((values, fault != O::Fail::default()))
}
