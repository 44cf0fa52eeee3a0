//! `case`: conditions, each with its value, and a last value where no condition is true.
ghost use Rattle.std.specs.Prelude.{◌≡◌, map};
ghost use Rattle.vortex_columns.specs.Cells.{cell_value};
ghost use Rattle.vortex_sql_choices.specs.Case.{case_row, case_lawful, case_value};

use vortex_columns::{Arity, Cell, PType, VortexResult};
use vortex_sql_rows::cells::is_true;
use vortex_sql_rows::row::{RowFn, Signature};
use vortex_sql_rows::types::{Gives, Kind, Nulls, Takes, Types};

/// `case when a then b .. else c end`, as `case(a, b, .., c)`; with three arguments `if(a, b, c)`
pub struct Case;

/// The value of the first condition that is true.
fn case_value<'a>(cells: &[Cell<'a>]) -> Cell<'a>
    ensures { cell_value result ≡ case_value (map cell_value cells.now) }
{
    match cells {
        [] => Cell::Null,
        [last] => *last,
        [condition, value, more @ ..] => {
            if is_true(condition) {
                *value
            } else {
                case_value(more)
            }
        }
    }
}

impl RowFn for Case {
    ghost about = { λ f. case_row };

    fn signature(&self) -> Signature {
        Signature {
            id: "sql.case_when",
            arity: Arity::Variadic { min: 2, max: None },
            types: Types {
                takes: Takes::Cases,
                nulls: Nulls::Cases,
                gives: Gives::Alike,
            },
            is_strict: false,
            is_infallible: true,
        }
    }

    fn answer<'a>(&self, _ptype: PType, cells: &[Cell<'a>]) -> VortexResult<Cell<'a>> {
        Ok(case_value(cells))
    }

    ghost lawful = { λ f. case_lawful };
}
