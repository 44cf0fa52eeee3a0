//! Laws of rewriting. The functions are empty: their contracts are the laws, proved.
ghost use Rattle.std.specs.Prelude.{All};
ghost use Rattle.vortex_functions.specs.Words.{AreTyped};
ghost use Rattle.vortex_rewriting.specs.Keeping.{RewritesKeepRows, RewritesKeepRowsOfArray};

use vortex_columns::Column;
use vortex_functions::{ArrayRef, BoundExpression};
use vortex_interface::ScalarFnVTable;

/// The rows of columns have their types.
pub fn types_invariant(columns: &[Column])
    ensures { All (λ c. AreTyped c.dtype c.rows) columns.now }
{
    for column in columns {
        let _typed = column.dtype();
    }
}

/// Over columns that match an expression, each of `row_count` rows, every rewrite of it (clause
/// `kept` of what rewrites) has its value in each row in which it has one, and faults only where it
/// faults.
pub fn rewrites_keep_rows<C: ScalarFnVTable>(
    tree: &BoundExpression<C>,
    columns: &[Column],
    row_count: usize,
)
    ensures { RewritesKeepRows C.meaning columns.now row_count tree.now }
{
    let _typed = tree.dtype();
    types_invariant(columns);
}

/// Every rewrite of an array tree has its value in each row in which it has one, and faults only
/// where it faults.
pub fn rewrites_keep_rows_of_array<C: ScalarFnVTable>(array: &ArrayRef<C>)
    ensures { RewritesKeepRowsOfArray C.meaning array.now }
{
    let _typed = array.dtype();
}
