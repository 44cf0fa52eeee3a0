//! Which rows of a column are not null, read 64 at a time; and words selected by such bits.
ghost use Rattle.std.specs.Prelude.{◌≡◌, ◌<◌, ℕ, if◌then◌else◌};
ghost use Rattle.vortex_kernels.specs.Words.{bit, AreValidityWords};

use vortex_bits::{BitWords, SameBit, ShiftedBits};
use vortex_columns::{Column, ValidRows};

/// Which rows are not null, by words.
#[derive(Clone, Copy)]
pub(crate) enum ValidityWords<'a> {
    /// All or none.
    Same(SameBit),
    /// Those whose bit is set.
    Listed(ShiftedBits<'a>),
}

impl BitWords for ValidityWords<'_> {
    ghost use Rattle.vortex_kernels.specs.Words.{presence_there, presence_bit};

    ghost has_row = { presence_there };

    ghost row_bit = { presence_bit };

    fn word(&self, k: usize) -> u64 {
        match self {
            ValidityWords::Same(bits) => bits.word(k),
            ValidityWords::Listed(bits) => bits.word(k),
        }
    }

    fn last(&self, k: usize, count: usize) -> u64 {
        match self {
            ValidityWords::Same(bits) => bits.last(k, count),
            ValidityWords::Listed(bits) => bits.last(k, count),
        }
    }
}

/// Which rows of a column are not null.
pub(crate) fn validity_words(column: &Column) -> ValidityWords<'_>
    ensures { AreValidityWords column.now.rows result }
{
    match column.valid_rows() {
        ValidRows::Every => ValidityWords::Same(SameBit { bit: true }),
        ValidRows::No => ValidityWords::Same(SameBit { bit: false }),
        ValidRows::Listed(bits) => ValidityWords::Listed(bits.shifted()),
    }
}

/// Bits of one word where those of the first are set, else of another.
pub(crate) fn chosen_word(by: u64, set: u64, unset: u64) -> u64
    ensures { (j : ℕ) → j < 64
        → bit result j ≡ (if bit by j then bit set j else bit unset j) }
{
    (set & by) | (unset & !by)
}
