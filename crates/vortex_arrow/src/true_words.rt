//! Which rows of a column are true, in a form that is chosen before the rows.
ghost use Rattle.std.specs.Prelude.{◌≡◌, ◌<◌, ◌&&◌, ℕ, length};
ghost use Rattle.vortex_bits.specs.Forms.{shifted_there, shifted_bit};
ghost use Rattle.vortex_columns.specs.ColumnView.{row, HasBits};
ghost use Rattle.vortex_columns.specs.TrueRows.{is_true};
ghost use Rattle.vortex_arrow.specs.TrueWords.{TellsTrueRows};

use vortex_bits::{BitWords, SameBit, ShiftedBits};
use vortex_columns::{Column, ValidRows};

/// Rows whose bit is set in both of two lists.
#[derive(Clone, Copy)]
pub(crate) struct JointBits<'a> {
    pub bits: ShiftedBits<'a>,
    pub valid: ShiftedBits<'a>,
}

impl BitWords for JointBits<'_> {
    ghost has_row = { λ r i. shifted_there r.bits i × shifted_there r.valid i };

    ghost row_bit = { λ r i. shifted_bit r.bits i && shifted_bit r.valid i };

    fn word(&self, k: usize) -> u64 {
        self.bits.word(k) & self.valid.word(k)
    }

    fn last(&self, k: usize, count: usize) -> u64 {
        self.bits.last(k, count) & self.valid.last(k, count)
    }
}

/// The rows of a column that are true.
#[derive(Clone, Copy)]
pub(crate) enum TrueWords<'a> {
    /// Those whose bit is set.
    Listed(ShiftedBits<'a>),
    /// Those whose bit is set and that are not null.
    Joint(JointBits<'a>),
    /// Each row, or none.
    Same(SameBit),
}

/// Whether each row is true, of a column that is no list of bits: a constant, or a column of
/// another kind, in which no row is true.
fn is_true_throughout(column: &Column) -> bool
    requires { ¬ HasBits column.now }
    ensures { (i : ℕ) → i < length column.now.rows → is_true (row column.now.rows i) ≡ result }
{
    let _typed = column.dtype();
    match column.as_constant() {
        Some(scalar) => scalar.as_bool_opt().unwrap_or(false),
        None => false,
    }
}

/// Which rows are true. Takes no memory.
pub(crate) fn true_words(column: &Column) -> TrueWords<'_>
    ensures { TellsTrueRows result column.now.rows }
{
    let bits = match column.bits() {
        Some(bits) => bits,
        None => {
            let bit = is_true_throughout(column);
            return TrueWords::Same(SameBit { bit });
        }
    };
    match column.valid_rows() {
        ValidRows::Every => TrueWords::Listed(bits.shifted()),
        ValidRows::No => TrueWords::Same(SameBit { bit: false }),
        ValidRows::Listed(valid) => TrueWords::Joint(JointBits {
            bits: bits.shifted(),
            valid: valid.shifted(),
        }),
    }
}
