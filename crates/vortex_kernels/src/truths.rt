//! The truth values of one side of And or Or, borrowed.
ghost use Rattle.std.specs.Prelude.{◌≡◌, true, length};
ghost use Rattle.vortex_kernels.specs.Words.{is_bool_type, row, truth_of};
ghost use Rattle.vortex_kernels.specs.Words.{IsOperandOf};

use crate::pairs::constant_bool;
use vortex_columns::{BitBuffer, Column, ValidRows};

/// A bit for each row, and which rows are not null. Bits under a null are arbitrary.
#[derive(Clone, Copy)]
pub(crate) struct TruthRows<'a> {
    pub(crate) bits: &'a BitBuffer,
    pub(crate) valid: ValidRows<'a>,
}

/// The truth values of one side.
#[derive(Clone, Copy)]
pub(crate) enum Operand<'a> {
    /// A truth value or null for each row.
    Rows(TruthRows<'a>),
    /// The same truth value, or null, in each row.
    One(Option<bool>),
}

/// The form in which a column of Bool gives its truth values. Allocates nothing.
pub(crate) fn operand_of(column: &Column) -> Operand<'_>
    requires { is_bool_type column.now.dtype ≡ true }
    ensures { IsOperandOf (length column.now.rows) (λ i. truth_of (row column.now.rows i)) result }
{
    match column.bits() {
        Some(bits) => Operand::Rows(TruthRows {
            bits,
            valid: column.valid_rows(),
        }),
        None => Operand::One(constant_bool(column)),
    }
}
