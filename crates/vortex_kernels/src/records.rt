//! Records of two columns compared a field at a time: a pass over each field, joined by words. The
//! first different field decides.
ghost use Rattle.std.specs.Prelude.{◌≡◌, ◌<◌, ◌+◌, ℕ, length, slice_index_or, false, IfSome};
ghost use Rattle.std.specs.Prelude.{MatchOption, if◌then◌else◌};
ghost use Rattle.std.specs.Ordering.{is_eq};
ghost use Rattle.vortex_kernels.specs.Words.{AnswersUnlessMemory, AreHeld, AreRows, row_orders};
ghost use Rattle.vortex_kernels.specs.Words.{AreComparisons, HoldByLast, holds, IsRecordType};

use crate::comparisons::{Comparison, IsEqual};
use crate::pairs::{hold_in_cells, hold_in_flat};
use crate::validity_words::{ValidityWords, chosen_word, validity_words};
use std::alloc::Global;
use std::cmp::Ordering;
use std::marker::PhantomData;
use vortex_bits::{BitWords, SameBit, ShiftedBits, collect_words};
use vortex_columns::{BitBuffer, Column, DType, ValidRows, VortexResult};

/// The result of a comparison where there are two values, and where there is a null.
#[derive(Clone, Copy)]
struct NullsLeast<'a, P: Comparison> {
    left: ValidityWords<'a>,
    right: ValidityWords<'a>,
    values: ShiftedBits<'a>,
    comparison: PhantomData<P>,
}

impl<P: Comparison> BitWords for NullsLeast<'_, P> {
    ghost use Rattle.std.specs.Prelude.{◌&&◌, if◌then◌else◌};
    ghost use Rattle.vortex_kernels.specs.Words.{presence_there, presence_bit};
    ghost use Rattle.vortex_kernels.specs.Words.{shifted_there, shifted_bit};

    ghost has_row = { λ s i. presence_there s.left i × (presence_there s.right i
        × shifted_there s.values i) };

    ghost row_bit = { λ s i. if presence_bit s.left i && presence_bit s.right i
        then shifted_bit s.values i
        else P.WordFormula.says (presence_bit s.left i) (presence_bit s.right i) };

    fn word(&self, k: usize) -> u64 {
        let left = self.left.word(k);
        let right = self.right.word(k);
        chosen_word(left & right, self.values.word(k), P::of_words(left, right))
    }

    fn last(&self, k: usize, count: usize) -> u64 {
        let left = self.left.last(k, count);
        let right = self.right.last(k, count);
        let values = self.values.last(k, count);
        chosen_word(left & right, values, P::of_words(left, right))
    }
}

/// The result for the rest of two records where they are equal so far, and where they differ.
#[derive(Clone, Copy)]
struct Joined<'a, U: BitWords + Copy> {
    equal: ShiftedBits<'a>,
    rest: ShiftedBits<'a>,
    unequal: U,
}

impl<U: BitWords + Copy> BitWords for Joined<'_, U> {
    ghost use Rattle.std.specs.Prelude.{if◌then◌else◌};
    ghost use Rattle.vortex_kernels.specs.Words.{shifted_there, shifted_bit};

    ghost has_row = { λ s i. shifted_there s.equal i × (shifted_there s.rest i
        × U.has_row s.unequal i) };

    ghost row_bit = { λ s i. if shifted_bit s.equal i then shifted_bit s.rest i
        else U.row_bit s.unequal i };

    fn word(&self, k: usize) -> u64 {
        chosen_word(self.equal.word(k), self.rest.word(k), self.unequal.word(k))
    }

    fn last(&self, k: usize, count: usize) -> u64 {
        let equal = self.equal.last(k, count);
        let rest = self.rest.last(k, count);
        chosen_word(equal, rest, self.unequal.last(k, count))
    }
}

/// How the fields of records are compared.
pub(crate) trait FieldKernel: Copy {
    ghost use Rattle.std.specs.Prelude.{◌≡◌, length};
    ghost use Rattle.vortex_kernels.specs.Words.{AnswersUnlessMemory, AreComparisons};

    /// Whether the comparison is true in each row in which both sides have a value.
    fn hold<P: Comparison>(alloc: Global, lhs: &Column, rhs: &Column) -> VortexResult<BitBuffer>
        requires { length lhs.now.rows ≡ length rhs.now.rows }
        ensures { AnswersUnlessMemory result
            (AreComparisons P.operator lhs.now.rows rhs.now.rows) };
}

/// By kind; records by their cells.
#[derive(Clone, Copy)]
pub(crate) struct Flat {}

/// Records by their fields, with the kernel; other values by their kind.
#[derive(Clone, Copy)]
pub(crate) struct Nested<K: FieldKernel> {
    fields: PhantomData<K>,
}

impl FieldKernel for Flat {
    fn hold<P: Comparison>(alloc: Global, lhs: &Column, rhs: &Column) -> VortexResult<BitBuffer> {
        hold_in_flat::<P>(alloc, lhs, rhs)
    }
}

impl<K: FieldKernel> FieldKernel for Nested<K> {
    fn hold<P: Comparison>(alloc: Global, lhs: &Column, rhs: &Column) -> VortexResult<BitBuffer> {
        match (lhs.dtype(), rhs.dtype()) {
            (DType::Struct(left, _), DType::Struct(right, _)) if left.len() == right.len() => {
                hold_in_records::<P, K>(alloc, lhs, rhs, left.len())
            }
            _ => hold_in_flat::<P>(alloc, lhs, rhs),
        }
    }
}

/// Whether the comparison is true in each row, where null is a value, equal to null and least.
fn hold_with_nulls<P: Comparison, K: FieldKernel>(
    alloc: Global,
    lhs: &Column,
    rhs: &Column,
) -> VortexResult<BitBuffer>
    requires { length lhs.now.rows ≡ length rhs.now.rows }
    ensures { AnswersUnlessMemory result
        (AreHeld P.operator (row_orders lhs.now.rows rhs.now.rows) (length lhs.now.rows)) }
{
    let len = lhs.len();
    let values = K::hold::<P>(alloc, lhs, rhs)?;
    if let (ValidRows::Every, ValidRows::Every) = (lhs.valid_rows(), rhs.valid_rows()) {
        return Ok(values);
    }
    let rows = NullsLeast::<P> {
        left: validity_words(lhs),
        right: validity_words(rhs),
        values: values.shifted(),
        comparison: PhantomData,
    };
    collect_words(alloc, &rows, len)
}

/// Whether the comparison is true in each row: for these values where they differ, else the result
/// for the rest of the record.
fn hold_before<P: Comparison, K: FieldKernel>(
    alloc: Global,
    lhs: &Column,
    rhs: &Column,
    rest: &BitBuffer,
) -> VortexResult<BitBuffer>
    requires lengths { length lhs.now.rows ≡ length rhs.now.rows }
    requires rest { length rest.now ≡ length lhs.now.rows }
    ensures { AnswersUnlessMemory result (AreRows (length lhs.now.rows)
        (λ i. if is_eq (row_orders lhs.now.rows rhs.now.rows i)
        then slice_index_or rest.now i false
        else holds P.operator (row_orders lhs.now.rows rhs.now.rows i))) }
{
    let len = lhs.len();
    let equal = hold_with_nulls::<IsEqual, K>(alloc, lhs, rhs)?;
    let equal = equal.shifted();
    let rest = rest.shifted();
    if P::holds(Ordering::Less) == P::holds(Ordering::Greater) {
        // only whether they differ is needed
        let unequal = SameBit {
            bit: P::holds(Ordering::Less),
        };
        return collect_words(
            alloc,
            &Joined::<SameBit> {
                equal,
                rest,
                unequal,
            },
            len,
        );
    }
    let unequal = hold_with_nulls::<P, K>(alloc, lhs, rhs)?;
    let unequal = unequal.shifted();
    collect_words(
        alloc,
        &Joined::<ShiftedBits> {
            equal,
            rest,
            unequal,
        },
        len,
    )
}

/// Whether the comparison is true in each row for the last `told + 1` of that many fields, from the
/// result for the last `told`, if any. None where a side has no such field.
fn hold_by_last<P: Comparison, K: FieldKernel>(
    alloc: Global,
    lhs: &Column,
    rhs: &Column,
    count: usize,
    told: usize,
    rest: &Option<BitBuffer>,
) -> VortexResult<Option<BitBuffer>>
    requires lengths { length lhs.now.rows ≡ length rhs.now.rows }
    requires fields { told < count }
    requires rest { MatchOption rest.now (told ≡ 0)
        (HoldByLast P.operator count told lhs.now.rows rhs.now.rows) }
    ensures { AnswersUnlessMemory result (λ held. IfSome held
        (HoldByLast P.operator count (told + 1) lhs.now.rows rhs.now.rows)) }
{
    let k = count - 1 - told;
    let (Some(left), Some(right)) = (lhs.field(k), rhs.field(k)) else {
        return Ok(None);
    };
    let bits = match rest {
        None => hold_with_nulls::<P, K>(alloc, left, right)?,
        Some(rest) => hold_before::<P, K>(alloc, left, right, rest)?,
    };
    Ok(Some(bits))
}

/// Whether the comparison is true in each row for all fields, from the last to the first. None
/// where a side has none.
fn hold_in_fields<P: Comparison, K: FieldKernel>(
    alloc: Global,
    lhs: &Column,
    rhs: &Column,
    count: usize,
) -> VortexResult<Option<BitBuffer>>
    requires { length lhs.now.rows ≡ length rhs.now.rows }
    ensures { AnswersUnlessMemory result (λ held. IfSome held
        (HoldByLast P.operator count count lhs.now.rows rhs.now.rows)) }
{
    if count == 0 {
        let equal = SameBit {
            bit: P::holds(Ordering::Equal),
        };
        return Ok(Some(collect_words(alloc, &equal, lhs.len())?));
    }
    let mut rest = None;
    for told in 0..count {
        let held = hold_by_last::<P, K>(alloc, lhs, rhs, count, told, &rest)?;
        if held.is_none() {
            return Ok(None);
        }
        rest = held;
    }
    Ok(rest)
}

/// Whether the comparison is true in each row, of records of that many fields.
fn hold_in_records<P: Comparison, K: FieldKernel>(
    alloc: Global,
    lhs: &Column,
    rhs: &Column,
    count: usize,
) -> VortexResult<BitBuffer>
    requires lengths { length lhs.now.rows ≡ length rhs.now.rows }
    requires left { IsRecordType count lhs.now.dtype }
    requires right { IsRecordType count rhs.now.dtype }
    ensures { AnswersUnlessMemory result
        (AreComparisons P.operator lhs.now.rows rhs.now.rows) }
{
    let _left_typed = lhs.dtype();
    let _right_typed = rhs.dtype();
    match hold_in_fields::<P, K>(alloc, lhs, rhs, count)? {
        Some(bits) => Ok(bits),
        None => hold_in_cells::<P>(alloc, lhs, rhs),
    }
}

/// Down to this depth records within records are compared by their fields; below that by their
/// cells.
type FourLevels = Nested<Nested<Nested<Nested<Flat>>>>;

/// Whether the comparison is true in each row in which both sides have a value: records by their
/// fields, others by their kind.
pub(crate) fn hold_in_rows<P: Comparison>(
    alloc: Global,
    lhs: &Column,
    rhs: &Column,
) -> VortexResult<BitBuffer>
    requires { length lhs.now.rows ≡ length rhs.now.rows }
    ensures { AnswersUnlessMemory result
        (AreComparisons P.operator lhs.now.rows rhs.now.rows) }
{
    FourLevels::hold::<P>(alloc, lhs, rhs)
}
