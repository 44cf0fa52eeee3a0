//! The first argument that is not null.
ghost use Rattle.vortex_sql_choices.specs.Coalesce.{coalesce_row, coalesce_lawful};

use vortex_columns::{Arity, Cell, PType, VortexResult};
use vortex_sql_rows::cells::is_null;
use vortex_sql_rows::row::{RowFn, Signature};
use vortex_sql_rows::types::{Gives, Kind, Nulls, Takes, Types};

/// `coalesce(a, ..)`
pub struct Coalesce;

impl RowFn for Coalesce {
    ghost about = { λ f. coalesce_row };

    fn signature(&self) -> Signature {
        Signature {
            id: "sql.coalesce",
            arity: Arity::Variadic { min: 1, max: None },
            types: Types {
                takes: Takes::Alike(Kind::Any),
                nulls: Nulls::WhereAll,
                gives: Gives::Alike,
            },
            is_strict: false,
            is_infallible: true,
        }
    }

    fn answer<'a>(&self, _ptype: PType, cells: &[Cell<'a>]) -> VortexResult<Cell<'a>> {
        for cell in cells {
            if !is_null(cell) {
                return Ok(*cell);
            }
        }
        Ok(Cell::Null)
    }

    ghost lawful = { λ f. coalesce_lawful };
}
