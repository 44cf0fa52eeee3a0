//! `nullif`: null where two values are equal, else the first.
ghost use Rattle.std.specs.Prelude.{◌≡◌};
ghost use Rattle.vortex_columns.specs.Cells.{cell_value};
ghost use Rattle.vortex_sql_choices.specs.NullIf.{nullif_row, nullif_lawful};

use vortex_columns::{Arity, Cell, PType, VortexResult};
use vortex_sql_rows::row::{RowFn, Signature};
use vortex_sql_rows::types::{Gives, Kind, Nulls, Takes, Types};

/// `nullif(a, b)`
pub struct NullIf;

impl RowFn for NullIf {
    ghost about = { λ f. nullif_row };

    fn signature(&self) -> Signature {
        Signature {
            id: "sql.nullif",
            arity: Arity::Exact(2),
            types: Types {
                takes: Takes::Alike(Kind::Any),
                nulls: Nulls::Always,
                gives: Gives::Alike,
            },
            is_strict: false,
            is_infallible: true,
        }
    }

    fn answer<'a>(&self, _ptype: PType, cells: &[Cell<'a>]) -> VortexResult<Cell<'a>> {
        let [a, b] = cells else {
            return Ok(Cell::Null);
        };
        if a.compare(b).is_eq() {
            Ok(Cell::Null)
        } else {
            Ok(*a)
        }
    }

    ghost lawful = { λ f. nullif_lawful };
}
