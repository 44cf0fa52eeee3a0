//! Rows of bits, 64 at a time: what a kernel reads, and what it returns.
ghost use Rattle.std.specs.Prelude.{◌≡◌, ◌≤◌, ◌<◌, ◌+◌, ◌*◌, ◌^◌, ℕ, Bool, length};
ghost use Rattle.vortex_errors.specs.Answers.{AnswersUnlessMemory};
ghost use Rattle.vortex_bits.specs.Bits.{bit, bit_of, bits_from};
ghost use Rattle.vortex_bits.specs.Rows.{AreRows};
ghost use Rattle.vortex_bits.specs.Forms.{aligned_there, aligned_bit, shifted_there, shifted_bit};

use crate::bits::BitBuffer;
use crate::words::{last_word, pack_word, push_word, word_at};
use std::alloc::Global;
use vortex_errors::VortexResult;

/// A bit for each row, read 64 rows at a time.
pub trait BitWords {
    ghost has_row: { Self → ℕ → Type 0 };

    ghost row_bit: { Self → ℕ → Bool };

    /// Rows `64 * k` to `64 * k + 63`, the first as the least significant bit. One more row must
    /// follow, so that a form may read the next byte.
    fn word(&self, k: usize) -> u64
        requires place { 64 * k + 64 < 2 ^ 64 }
        requires rows { (j : ℕ) → j ≤ 64 → has_row self.now (64 * k + j) }
        ensures { (j : ℕ) → j < 64 → bit result j ≡ row_bit self.now (64 * k + j) };

    /// The last rows, `count` of them from row `64 * k` on. The bits above them may be anything.
    fn last(&self, k: usize, count: usize) -> u64
        requires some { 0 < count }
        requires most { count ≤ 64 }
        requires place { 64 * k + count < 2 ^ 64 }
        requires rows { (j : ℕ) → j < count → has_row self.now (64 * k + j) }
        ensures { (j : ℕ) → j < count → bit result j ≡ row_bit self.now (64 * k + j) };
}

/// The bit of each row.
pub fn collect_words<W: BitWords>(alloc: Global, rows: &W, len: usize) -> VortexResult<BitBuffer>
    requires { (i : ℕ) → i < len → W.has_row rows.now i }
    ensures { AnswersUnlessMemory result (AreRows len (W.row_bit rows.now)) }
{
    if len == 0 {
        return Ok(BitBuffer::from_words(Vec::new(alloc), 0));
    }
    let whole = (len - 1) / 64;
    let mut bytes = Vec::with_capacity(alloc, 8 * whole + 8)?;
    for k in 0..whole {
        push_word(&mut bytes, rows.word(k));
    }
    push_word(&mut bytes, rows.last(whole, len - 64 * whole));
    Ok(BitBuffer::from_words(bytes, len))
}

/// Bits that begin with a byte.
#[derive(Clone, Copy)]
pub struct AlignedBits<'a> {
    bytes: &'a [u8],
}

impl<'a> AlignedBits<'a> {
    pub(crate) fn new(bytes: &'a [u8]) -> AlignedBits<'a>
        ensures { result.bytes.now ≡ bytes.now }
    {
        AlignedBits { bytes }
    }
}

impl BitWords for AlignedBits<'_> {
    ghost has_row = { aligned_there };

    ghost row_bit = { aligned_bit };

    fn word(&self, k: usize) -> u64 {
        word_at(self.bytes, 8 * k)
    }

    fn last(&self, k: usize, _count: usize) -> u64 {
        last_word(self.bytes, 8 * k)
    }
}

/// Bits that begin anywhere within a byte.
#[derive(Clone, Copy)]
pub struct ShiftedBits<'a> {
    bytes: &'a [u8],
    shift: usize,
}

impl<'a> ShiftedBits<'a> {
    pub(crate) fn new(bytes: &'a [u8], shift: usize) -> ShiftedBits<'a>
        ensures bytes { result.bytes.now ≡ bytes.now }
        ensures shift { result.shift ≡ shift }
    {
        ShiftedBits { bytes, shift }
    }
}

impl BitWords for ShiftedBits<'_> {
    ghost has_row = { shifted_there };

    ghost row_bit = { shifted_bit };

    fn word(&self, k: usize) -> u64 {
        let low = word_at(self.bytes, 8 * k);
        let high = word_at(self.bytes, 8 * k + 1);
        (low >> self.shift) | (high << (8 - self.shift))
    }

    fn last(&self, k: usize, _count: usize) -> u64 {
        let low = last_word(self.bytes, 8 * k);
        let high = last_word(self.bytes, 8 * k + 1);
        (low >> self.shift) | (high << (8 - self.shift))
    }
}

/// A bit for each row, given row by row.
pub trait RowBits {
    ghost has_row: { Self → ℕ → Type 0 };

    ghost row_bit: { Self → ℕ → Bool };

    fn bit(&self, i: usize) -> bool
        requires { has_row self.now i }
        ensures { result ≡ row_bit self.now i };
}

/// Rows given one by one, 64 to a word.
#[derive(Clone, Copy)]
struct Packed<'a, R: RowBits> {
    rows: &'a R,
}

impl<R: RowBits> BitWords for Packed<'_, R> {
    ghost has_row = { λ p i. R.has_row p.rows.now i };

    ghost row_bit = { λ p i. R.row_bit p.rows.now i };

    fn word(&self, k: usize) -> u64 {
        let mut told = [0u8; 64];
        for j in 0..64 {
            told[j] = u8::from(self.rows.bit(64 * k + j));
        }
        pack_word(&told)
    }

    fn last(&self, k: usize, count: usize) -> u64 {
        let mut told = [0u8; 64];
        for j in 0..count {
            told[j] = u8::from(self.rows.bit(64 * k + j));
        }
        pack_word(&told)
    }
}

/// The bit of each row, for rows given one by one.
pub fn collect_rows<R: RowBits>(alloc: Global, rows: &R, len: usize) -> VortexResult<BitBuffer>
    requires { (i : ℕ) → i < len → R.has_row rows.now i }
    ensures { AnswersUnlessMemory result (AreRows len (R.row_bit rows.now)) }
{
    collect_words(alloc, &Packed { rows }, len)
}
