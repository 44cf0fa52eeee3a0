//! That what is copied is read back. These functions do nothing: their contracts are proved.
ghost use Rattle.std.specs.Prelude.{◌≤◌, length, List, ℕ};
ghost use Rattle.std.specs.Borrow.{Bor};
ghost use Rattle.vortex_arrow.specs.declared.column.ArrowValues.{ArrowValues};
ghost use Rattle.vortex_arrow.specs.Written.{joined};
ghost use Rattle.vortex_arrow.specs.Copies.{copy_of, IsCopy, IsReadBack, RowsHaveRoom};

use vortex_columns::Column;

/// What a copy leaves in buffers is a column again: `to_column` answers the copied column's rows and
/// type, if it can make views of its texts.
pub fn copies_are_read_back(column: &Column)
    ensures { (validity : Bor (List ℕ)) → (values : ArrowValues)
        → IsCopy column.now validity values → RowsHaveRoom column.now
        → IsReadBack column.now (copy_of column.now validity values) }
{
    let _typed = column.dtype();
}

/// It can of texts of at most 4,294,967,295 bytes together.
pub fn short_texts_have_room(column: &Column)
    ensures { length (joined column.now.rows) ≤ 4294967295 → RowsHaveRoom column.now }
{}
