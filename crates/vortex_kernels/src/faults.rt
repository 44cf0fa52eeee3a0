//! Rows that fault and are null on neither side, searched 64 rows at a time.
ghost use Rattle.std.specs.Prelude.{◌≡◌, ◌<◌, ℕ, false, length, slice_index_or};
ghost use Rattle.vortex_columns.specs.ValidityView.{is_valid_row};
ghost use Rattle.vortex_kernels.specs.Words.{AnswersUnlessMemory, row_results, validity_of};
ghost use Rattle.vortex_kernels.specs.Words.{FitsRows};
ghost use Rattle.vortex_kernels.specs.Words.{IsJointValidity, either_nullable};
ghost use Rattle.vortex_kernels.specs.Faults.{FindsBoth, FindsFault};

use crate::arithmetic_integer::{ArithmeticInteger, apply_checked};
use crate::numbers::Numbers;
use crate::row_operation::RowOperation;
use std::alloc::Global;
use std::marker::PhantomData;
use vortex_bits::{BitView, RowBits, collect_rows};
use vortex_columns::{BitBuffer, Column, ValidRows, Validity, VortexResult};

/// Whether each row faults, even under a null.
#[derive(Drop)]
struct RowFaults<'a, T: ArithmeticInteger, O: RowOperation<T>, L: Numbers<T>, R: Numbers<T>> {
    left: &'a L,
    right: &'a R,
    operation: PhantomData<O>,
    integer: PhantomData<T>,
}

impl<T: ArithmeticInteger, O: RowOperation<T>, L: Numbers<T>, R: Numbers<T>> RowBits
    for RowFaults<'_, T, O, L, R> {
    ghost use Rattle.vortex_kernels.specs.Faults.{is_faulty};

    ghost has_row = { λ f i. L.has_row f.left.now i × R.has_row f.right.now i };

    ghost row_bit = { λ f i. is_faulty T.ptype
        (row_results O.exact (L.number_at f.left.now) (R.number_at f.right.now) i) };

    fn bit(&self, i: usize) -> bool {
        let (_, evidence) = apply_checked::<T, O>(self.left.at(i), self.right.at(i));
        evidence != O::Fail::default()
    }
}

/// The first index where both bits are set, if there is one.
fn first_of_both(left: &BitView<'_>, right: &BitView<'_>) -> Option<usize>
    requires { length left.now ≡ length right.now }
    ensures { FindsBoth (length left.now) (λ i. slice_index_or left.now i false)
        (λ i. slice_index_or right.now i false) result }
{
    for k in 0..left.len() / 64 + 1 {
        let word = left.word(k) & right.word(k);
        if word != 0 {
            return Some(64 * k + word.trailing_zeros() as usize);
        }
    }
    None
}

/// The first row whose bit is set and that is valid, if there is one.
fn first_valid(bits: &BitBuffer, validity: &Validity) -> Option<usize>
    requires { FitsRows (validity_of validity.now) (length bits.now) }
    ensures { FindsBoth (length bits.now) (λ i. slice_index_or bits.now i false)
        (is_valid_row (validity_of validity.now)) result }
{
    let set = bits.slice(0, bits.len());
    match ValidRows::of(validity) {
        ValidRows::Every => first_of_both(&set, &set),
        ValidRows::No => None,
        ValidRows::Listed(valid) => first_of_both(&set, &valid.slice(0, valid.len())),
    }
}

/// The first row that faults and is null on neither side, if there is one. The validity is that of
/// both sides.
pub(crate) fn faulty_row<T: ArithmeticInteger, O: RowOperation<T>, L: Numbers<T>, R: Numbers<T>>(
    alloc: Global,
    left: &L,
    right: &R,
    lhs: &Column,
    rhs: &Column,
    validity: &Validity,
) -> VortexResult<Option<usize>>
    requires left { (i : ℕ) → i < length lhs.now.rows → L.has_row left.now i }
    requires right { (i : ℕ) → i < length lhs.now.rows → R.has_row right.now i }
    requires validity { IsJointValidity (either_nullable lhs.now rhs.now) lhs.now rhs.now
        (validity_of validity.now) }
    ensures { AnswersUnlessMemory result (FindsFault T.ptype
        (row_results O.exact (L.number_at left.now) (R.number_at right.now)) lhs.now rhs.now) }
{
    let rows = RowFaults::<T, O, L, R> {
        left,
        right,
        operation: PhantomData,
        integer: PhantomData,
    };
    let faults = collect_rows(alloc, &rows, lhs.len())?;
    Ok(first_valid(&faults, validity))
}
