//! `is_true`, `is_false` and `is_unknown`.
ghost use Rattle.std.specs.Prelude.{◌≡◌};
ghost use Rattle.vortex_columns.specs.Cells.{cell_value};
ghost use Rattle.vortex_sql_choices.specs.TruthTests.{passes, test_row, test_lawful};

use vortex_columns::{Arity, Cell, PType, VortexResult};
use vortex_sql_rows::cells::{is_null, truth_in};
use vortex_sql_rows::row::{RowFn, Signature};
use vortex_sql_rows::types::{Gives, Kind, Nulls, Takes, Types};

/// `a is true`, `a is false` or `a is unknown`, as `is_true(a)` and so on
#[derive(Clone, Copy, Debug, PartialEq, Eq)]
pub enum TruthTest {
    IsTrue,
    IsFalse,
    IsUnknown,
}

fn passes(test: TruthTest, cell: &Cell<'_>) -> bool
    ensures { result ≡ passes test (cell_value cell.now) }
{
    match test {
        TruthTest::IsTrue => truth_in(cell).unwrap_or(false),
        TruthTest::IsFalse => !truth_in(cell).unwrap_or(true),
        TruthTest::IsUnknown => is_null(cell),
    }
}

impl RowFn for TruthTest {
    ghost about = { test_row };

    fn signature(&self) -> Signature {
        let id = match self {
            TruthTest::IsTrue => "sql.is_true",
            TruthTest::IsFalse => "sql.is_false",
            TruthTest::IsUnknown => "sql.is_unknown",
        };
        Signature {
            id,
            arity: Arity::Exact(1),
            types: Types {
                takes: Takes::Alike(Kind::Truth),
                nulls: Nulls::Never,
                gives: Gives::Truth,
            },
            is_strict: false,
            is_infallible: true,
        }
    }

    fn answer<'a>(&self, _ptype: PType, cells: &[Cell<'a>]) -> VortexResult<Cell<'a>> {
        let [a] = cells else {
            return Ok(Cell::Bool(false));
        };
        Ok(Cell::Bool(passes(*self, a)))
    }

    ghost lawful = { test_lawful };
}
