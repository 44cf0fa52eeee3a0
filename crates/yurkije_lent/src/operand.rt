//! One operand of a call: rows that a caller lends, or a column.
ghost use Rattle.std.specs.Prelude.{◌≡◌, IfSome, length};
ghost use Rattle.yurkije_lent.specs.Operands.{operand_column};

use std::alloc::Global;
use vortex_arrow::{ArrowColumn, to_column};
use vortex_columns::Column;

/// Rows of one type.
#[derive(Drop)]
pub enum Operand<'a> {
    /// Rows that lie in a caller's buffers.
    Lent(ArrowColumn<'a>),
    /// A column that was made: of a call, or of a literal.
    Made(Column),
}

impl Operand<'_> {
    /// How many rows there are.
    pub fn len(&self) -> usize
        ensures { result ≡ length (operand_column self.now).rows }
    {
        match self {
            Operand::Lent(column) => column.length,
            Operand::Made(column) => column.len(),
        }
    }

    /// Its column: rows that are lent are copied. None where memory is refused.
    pub fn into_column(self, alloc: Global) -> Option<Column>
        ensures { IfSome result (λ c. c ≡ operand_column self.entry) }
    {
        match self {
            Operand::Lent(column) => to_column(alloc, &column).ok(),
            Operand::Made(column) => Some(column),
        }
    }
}
