//! Formulas over the bits of two sides, 64 rows at a time.
ghost use Rattle.std.specs.Prelude.{◌≡◌, ◌<◌, ◌&&◌, ◌||◌, ℕ, Bool, false, length, slice_index_or};
ghost use Rattle.vortex_errors.specs.Answers.{AnswersUnlessMemory};
ghost use Rattle.vortex_bits.specs.Bits.{bit};
ghost use Rattle.vortex_bits.specs.Rows.{AreRows};

use crate::bits::BitBuffer;
use crate::rows::{AlignedBits, BitWords, ShiftedBits, collect_words};
use crate::words::same_word;
use std::alloc::Global;
use std::marker::PhantomData;
use vortex_errors::VortexResult;

/// A formula over two bits, for 64 pairs at a time.
pub trait WordFormula {
    ghost says: { Bool → Bool → Bool };

    fn of_words(left: u64, right: u64) -> u64
        ensures { (j : ℕ) → j < 64 → bit result j ≡ says (bit left j) (bit right j) };
}

/// Both are set.
#[derive(Clone, Copy)]
pub struct Both {}

impl WordFormula for Both {
    ghost says = { λ l r. l && r };

    fn of_words(left: u64, right: u64) -> u64 {
        left & right
    }
}

/// Either is set.
#[derive(Clone, Copy)]
pub struct Either {}

impl WordFormula for Either {
    ghost says = { λ l r. l || r };

    fn of_words(left: u64, right: u64) -> u64 {
        left | right
    }
}

/// The left bit is not set, whatever the right one.
#[derive(Clone, Copy)]
pub struct LeftNegated {}

impl WordFormula for LeftNegated {
    ghost use Rattle.std.specs.Prelude.{not};

    ghost says = { λ l r. not l };

    fn of_words(left: u64, _right: u64) -> u64 {
        !left
    }
}

/// The same bit in each row.
#[derive(Clone, Copy)]
pub struct SameBit {
    pub bit: bool,
}

impl BitWords for SameBit {
    ghost use Rattle.std.specs.Bool.{⊤};

    ghost has_row = { λ b i. ⊤ };

    ghost row_bit = { λ b i. b.bit };

    fn word(&self, _k: usize) -> u64 {
        same_word(self.bit)
    }

    fn last(&self, _k: usize, _count: usize) -> u64 {
        same_word(self.bit)
    }
}

/// The formula over the bits of two sides.
#[derive(Clone, Copy)]
struct Zipped<F: WordFormula + Copy, L: BitWords + Copy, R: BitWords + Copy> {
    left: L,
    right: R,
    formula: PhantomData<F>,
}

impl<F: WordFormula + Copy, L: BitWords + Copy, R: BitWords + Copy> BitWords for Zipped<F, L, R> {
    ghost has_row = { λ z i. L.has_row z.left i × R.has_row z.right i };

    ghost row_bit = { λ z i. F.says (L.row_bit z.left i) (R.row_bit z.right i) };

    fn word(&self, k: usize) -> u64 {
        F::of_words(self.left.word(k), self.right.word(k))
    }

    fn last(&self, k: usize, count: usize) -> u64 {
        F::of_words(self.left.last(k, count), self.right.last(k, count))
    }
}

/// The formula in each row.
pub fn zip_words<F: WordFormula + Copy, L: BitWords + Copy, R: BitWords + Copy>(
    alloc: Global,
    left: L,
    right: R,
    len: usize,
) -> VortexResult<BitBuffer>
    requires left { (i : ℕ) → i < len → L.has_row left i }
    requires right { (i : ℕ) → i < len → R.has_row right i }
    ensures { AnswersUnlessMemory result
        (AreRows len (λ i. F.says (L.row_bit left i) (R.row_bit right i))) }
{
    let rows = Zipped::<F, L, R> {
        left,
        right,
        formula: PhantomData,
    };
    collect_words(alloc, &rows, len)
}

/// The formula over each bit and the other bit of its row.
pub fn zip_bits<F: WordFormula + Copy>(
    alloc: Global,
    left: &BitBuffer,
    right: &BitBuffer,
) -> VortexResult<BitBuffer>
    requires { length left.now ≡ length right.now }
    ensures { AnswersUnlessMemory result (AreRows (length left.now)
        (λ i. F.says (slice_index_or left.now i false) (slice_index_or right.now i false))) }
{
    let len = left.len();
    match (left.aligned(), right.aligned()) {
        (Some(left), Some(right)) => {
            zip_words::<F, AlignedBits, AlignedBits>(alloc, left, right, len)
        }
        _ => {
            let left = left.shifted();
            let right = right.shifted();
            zip_words::<F, ShiftedBits, ShiftedBits>(alloc, left, right, len)
        }
    }
}

/// The formula over each bit and one fixed bit.
pub fn zip_bits_with<F: WordFormula + Copy>(
    alloc: Global,
    left: &BitBuffer,
    right: bool,
) -> VortexResult<BitBuffer>
    ensures { AnswersUnlessMemory result (AreRows (length left.now)
        (λ i. F.says (slice_index_or left.now i false) right)) }
{
    let len = left.len();
    let right = SameBit { bit: right };
    match left.aligned() {
        Some(left) => zip_words::<F, AlignedBits, SameBit>(alloc, left, right, len),
        None => zip_words::<F, ShiftedBits, SameBit>(alloc, left.shifted(), right, len),
    }
}
