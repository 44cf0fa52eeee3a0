//! `in_list`: whether a value is in a list of values.
ghost use Rattle.std.specs.Prelude.{◌≡◌, All, map};
ghost use Rattle.std.specs.List.{list_any};
ghost use Rattle.vortex_columns.specs.Cells.{cell_value, IsCell};
ghost use Rattle.vortex_sql_choices.specs.InList.{in_list_row, in_list_lawful, is_same, listed};

use vortex_columns::{Arity, Cell, PType, VortexResult};
use vortex_sql_rows::cells::is_null;
use vortex_sql_rows::row::{RowFn, Signature, any_null};
use vortex_sql_rows::types::{Gives, Kind, Nulls, Takes, Types};

/// `a in (x, ..)`, as `in_list(a, x, ..)`
pub struct InList;

/// Whether the list has the value.
fn has_value(list: &[Cell<'_>], value: &Cell<'_>) -> bool
    requires listed { All IsCell list.now }
    requires whole { IsCell value.now }
    ensures { result ≡ list_any (λ c. is_same (cell_value value.now) (cell_value c)) list.now }
{
    for cell in list {
        if value.compare(cell).is_eq() {
            return true;
        }
    }
    false
}

/// Whether the value is in the list, or null.
#[tactic(auto, using(vortex_sql_rows::proofs::Maps::any_map))]
fn listed(value: &Cell<'_>, list: &[Cell<'_>]) -> Cell<'static>
    requires listed { All IsCell list.now }
    requires whole { IsCell value.now }
    ensures { cell_value result ≡ listed (cell_value value.now) (map cell_value list.now) }
{
    if is_null(value) {
        Cell::Null
    } else if has_value(list, value) {
        Cell::Bool(true)
    } else if any_null(list) {
        Cell::Null
    } else {
        Cell::Bool(false)
    }
}

impl RowFn for InList {
    ghost about = { λ f. in_list_row };

    fn signature(&self) -> Signature {
        Signature {
            id: "sql.in_list",
            arity: Arity::Variadic { min: 2, max: None },
            types: Types {
                takes: Takes::Alike(Kind::Any),
                nulls: Nulls::WhereAny,
                gives: Gives::Truth,
            },
            is_strict: false,
            is_infallible: true,
        }
    }

    fn answer<'a>(&self, _ptype: PType, cells: &[Cell<'a>]) -> VortexResult<Cell<'a>> {
        match cells {
            [] => Ok(Cell::Null),
            [value, list @ ..] => Ok(listed(value, list)),
        }
    }

    ghost lawful = { λ f. in_list_lawful };
}
