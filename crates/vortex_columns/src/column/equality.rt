//! Equality of columns.
ghost use Rattle.std.specs.Prelude.{◌≡◌};
ghost use Rattle.vortex_columns.specs.ColumnEquality.{rows_eq};

use super::Column;
use super::rows::CellRows;

impl Column {
    /// Whether the rows of both are equal, in their order.
    fn has_rows_of(&self, other: &Column) -> bool
        ensures { result ≡ rows_eq self.now.rows other.now.rows }
    {
        let mut rows = CellRows::of(self);
        let mut others = CellRows::of(other);
        while let Some(cell) = rows.next_cell() {
            let is_same = match others.next_cell() {
                Some(other) => cell.compare(&other).is_eq(),
                None => false,
            };
            if !is_same {
                return false;
            }
        }
        others.next_cell().is_none()
    }
}

/// Equal where the types are, nullability included, and the values row by row: a constant column
/// equals one that has its value in each row. Allocates as `Cell::compare` does.
impl PartialEq for Column {
    ghost use Rattle.std.specs.Cmp.{partial_equiv_from_equiv};
    ghost use Rattle.vortex_columns.specs.ColumnEquality.{columns_eq, columns_eq-laws};

    ghost eq = { columns_eq };

    ghost laws = { partial_equiv_from_equiv columns_eq-laws };

    fn eq(&self, other: &Column) -> bool {
        self.dtype == other.dtype && self.has_rows_of(other)
    }
}

impl Eq for Column {
    ghost use Rattle.vortex_columns.specs.ColumnEquality.{columns_eq-laws};

    ghost laws = { columns_eq-laws };
}
