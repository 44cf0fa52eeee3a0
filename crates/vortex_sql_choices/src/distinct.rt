//! `is_distinct`: whether two values differ, where nulls are equal.
ghost use Rattle.std.specs.Prelude.{◌≡◌};
ghost use Rattle.vortex_columns.specs.Cells.{cell_value};
ghost use Rattle.vortex_sql_choices.specs.Distinct.{distinct_row, distinct_lawful};

use vortex_columns::{Arity, Cell, PType, VortexResult};
use vortex_sql_rows::row::{RowFn, Signature};
use vortex_sql_rows::types::{Gives, Kind, Nulls, Takes, Types};

/// `a is distinct from b`, as `is_distinct(a, b)`
pub struct IsDistinct;

impl RowFn for IsDistinct {
    ghost about = { λ f. distinct_row };

    fn signature(&self) -> Signature {
        Signature {
            id: "sql.is_distinct",
            arity: Arity::Exact(2),
            types: Types {
                takes: Takes::Alike(Kind::Any),
                nulls: Nulls::Never,
                gives: Gives::Truth,
            },
            is_strict: false,
            is_infallible: true,
        }
    }

    fn answer<'a>(&self, _ptype: PType, cells: &[Cell<'a>]) -> VortexResult<Cell<'a>> {
        let [a, b] = cells else {
            return Ok(Cell::Bool(true));
        };
        Ok(Cell::Bool(!a.compare(b).is_eq()))
    }

    ghost lawful = { λ f. distinct_lawful };
}
