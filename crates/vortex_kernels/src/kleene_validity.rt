//! Which rows have a truth value by Kleene's tables, 64 rows at a time.
ghost use Rattle.std.specs.Prelude.{◌≡◌, ◌<◌, ℕ, Option, None, true, false, length, is_some};
ghost use Rattle.std.specs.Prelude.{slice_index_or};
ghost use Rattle.vortex_operators.specs.Kleene.{decides};
ghost use Rattle.vortex_kernels.specs.Words.{AnswersUnlessMemory, is_boolean, kleene, present, bit};
ghost use Rattle.vortex_kernels.specs.Words.{allows_null, validity_of, IsValidity, rows_truth};
ghost use Rattle.vortex_kernels.specs.Words.{AreRows, AreTruthRows};

use crate::kleene::{KleeneTable, valid_words};
use crate::truths::TruthRows;
use std::alloc::Global;
use std::marker::PhantomData;
use vortex_bits::{
    AlignedBits, BitWords, Both, Either, ShiftedBits, WordFormula, collect_words, zip_bits,
    zip_bits_with,
};
use vortex_columns::{BitBuffer, Nullability, ValidRows, Validity, VortexResult};

/// A formula over whether a truth value decides, and another bit.
#[derive(Clone, Copy)]
struct Deciding<K: KleeneTable + Copy, F: WordFormula + Copy> {
    table: PhantomData<K>,
    formula: PhantomData<F>,
}

impl<K: KleeneTable + Copy, F: WordFormula + Copy> WordFormula for Deciding<K, F> {
    ghost says = { λ l r. F.says (decides K.operator l) r };

    fn of_words(left: u64, right: u64) -> u64 {
        F::of_words(K::deciding(left), right)
    }
}

/// Whether there is a truth value, where both sides have lists of nulls.
#[derive(Clone, Copy)]
struct BothListed<K: KleeneTable + Copy, W: BitWords + Copy> {
    left: W,
    left_valid: W,
    right: W,
    right_valid: W,
    table: PhantomData<K>,
}

impl<K: KleeneTable + Copy, W: BitWords + Copy> BitWords for BothListed<K, W> {
    ghost has_row = { λ s i. (W.has_row s.left i × W.has_row s.left_valid i)
        × (W.has_row s.right i × W.has_row s.right_valid i) };

    ghost row_bit = { λ s i. is_some (kleene K.operator
        (present (W.row_bit s.left_valid i) (W.row_bit s.left i))
        (present (W.row_bit s.right_valid i) (W.row_bit s.right i))) };

    fn word(&self, k: usize) -> u64 {
        valid_words::<K>(
            self.left.word(k),
            self.left_valid.word(k),
            self.right.word(k),
            self.right_valid.word(k),
        )
    }

    fn last(&self, k: usize, count: usize) -> u64 {
        valid_words::<K>(
            self.left.last(k, count),
            self.left_valid.last(k, count),
            self.right.last(k, count),
            self.right_valid.last(k, count),
        )
    }
}

/// The rows with a truth value, from values with the valid rows.
fn both_listed<K: KleeneTable + Copy>(
    alloc: Global,
    left: &BitBuffer,
    left_valid: &BitBuffer,
    right: &BitBuffer,
    right_valid: &BitBuffer,
) -> VortexResult<BitBuffer>
    requires left { length left_valid.now ≡ length left.now }
    requires right { length right.now ≡ length left.now }
    requires right_valid { length right_valid.now ≡ length left.now }
    ensures { AnswersUnlessMemory result
        (AreRows (length left.now) (λ i. is_some (kleene K.operator
        (present (slice_index_or left_valid.now i false) (slice_index_or left.now i false))
        (present (slice_index_or right_valid.now i false) (slice_index_or right.now i false))))) }
{
    let len = left.len();
    let table = PhantomData;
    let aligned = (
        left.aligned(),
        left_valid.aligned(),
        right.aligned(),
        right_valid.aligned(),
    );
    match aligned {
        (Some(left), Some(left_valid), Some(right), Some(right_valid)) => {
            let rows = BothListed::<K, AlignedBits> {
                left,
                left_valid,
                right,
                right_valid,
                table,
            };
            collect_words(alloc, &rows, len)
        }
        _ => {
            let rows = BothListed::<K, ShiftedBits> {
                left: left.shifted(),
                left_valid: left_valid.shifted(),
                right: right.shifted(),
                right_valid: right_valid.shifted(),
                table,
            };
            collect_words(alloc, &rows, len)
        }
    }
}

/// The rows with a truth value, where the other side is null.
fn valid_beside_null<K: KleeneTable + Copy>(
    alloc: Global,
    rows: TruthRows<'_>,
) -> VortexResult<Validity>
    requires { AreTruthRows (length rows.bits.now) rows }
    ensures { AnswersUnlessMemory result
        (λ v. IsValidity true (length rows.entry.bits.now)
        (λ i. is_some (kleene K.operator (rows_truth rows.entry i) None)) (validity_of v)) }
{
    let bits = match rows.valid {
        ValidRows::Every => zip_bits_with::<Deciding<K, Both>>(alloc, rows.bits, true),
        ValidRows::Listed(valid) => zip_bits::<Deciding<K, Both>>(alloc, rows.bits, valid),
        ValidRows::No => return Ok(Validity::AllInvalid),
    };
    Ok(Validity::Array(bits?))
}

/// The rows with a truth value, for a type of that nullability, which is nullable unless each row
/// has one. No list of bits if no side has a null.
pub(crate) fn kleene_validity<K: KleeneTable + Copy>(
    alloc: Global,
    left: TruthRows<'_>,
    right: TruthRows<'_>,
    nullability: Nullability,
) -> VortexResult<Validity>
    requires left { AreTruthRows (length left.bits.now) left }
    requires right { AreTruthRows (length left.bits.now) right }
    requires truths { allows_null nullability ≡ false → (i : ℕ) → i < length left.bits.now
        → is_some (kleene K.operator (rows_truth left i) (rows_truth right i)) ≡ true }
    ensures { AnswersUnlessMemory result
        (λ v. IsValidity (allows_null nullability) (length left.entry.bits.now)
        (λ i. is_some (kleene K.operator (rows_truth left.entry i) (rows_truth right.entry i)))
        (validity_of v)) }
{
    let (l, r) = (left.bits, right.bits);
    match (nullability, left.valid, right.valid) {
        (Nullability::NonNullable, _, _) => Ok(Validity::NonNullable),
        (_, ValidRows::No, _) => valid_beside_null::<K>(alloc, right),
        (_, _, ValidRows::No) => valid_beside_null::<K>(alloc, left),
        (_, ValidRows::Every, ValidRows::Every) => Ok(Validity::AllValid),
        (_, ValidRows::Every, ValidRows::Listed(q)) => {
            Ok(Validity::Array(zip_bits::<Deciding<K, Either>>(alloc, l, q)?))
        }
        (_, ValidRows::Listed(p), ValidRows::Every) => {
            Ok(Validity::Array(zip_bits::<Deciding<K, Either>>(alloc, r, p)?))
        }
        (_, ValidRows::Listed(p), ValidRows::Listed(q)) => {
            Ok(Validity::Array(both_listed::<K>(alloc, l, p, r, q)?))
        }
    }
}
