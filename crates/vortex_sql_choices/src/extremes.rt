//! `greatest` and `least`: of the arguments that are not null.
ghost use Rattle.std.specs.Prelude.{◌≡◌};
ghost use Rattle.vortex_columns.specs.Cells.{cell_value, IsCell};
ghost use Rattle.vortex_sql_choices.specs.Extremes.{extreme_row, extreme_lawful, extreme_id, farther};
ghost use Rattle.vortex_sql_choices.specs.Extremes.{is_farther};

use std::cmp::Ordering;
use vortex_columns::{Arity, Cell, PType, VortexResult};
use vortex_sql_rows::cells::is_null;
use vortex_sql_rows::row::{RowFn, Signature};
use vortex_sql_rows::types::{Gives, Kind, Nulls, Takes, Types};

/// `greatest(a, ..)` or `least(a, ..)`
#[derive(Clone, Copy, Debug, PartialEq, Eq)]
pub enum Extreme {
    Greatest,
    Least,
}

/// Whether a value in that order to another one is farther out.
fn is_farther(extreme: Extreme, order: Ordering) -> bool
    ensures { result ≡ is_farther extreme order }
{
    match extreme {
        Extreme::Greatest => order.is_gt(),
        Extreme::Least => order.is_lt(),
    }
}

/// The one of two values that is farther out; null only if both are.
fn farther<'a>(extreme: Extreme, a: Cell<'a>, b: Cell<'a>) -> Cell<'a>
    requires first { IsCell a }
    requires second { IsCell b }
    ensures value { cell_value result ≡ farther extreme (cell_value a.entry) (cell_value b.entry) }
    ensures whole { IsCell result }
{
    if is_null(&b) {
        return a;
    }
    if is_null(&a) {
        return b;
    }
    if is_farther(extreme, b.compare(&a)) {
        b
    } else {
        a
    }
}

impl RowFn for Extreme {
    ghost about = { extreme_row };

    fn signature(&self) -> Signature {
        let id = match self {
            Extreme::Greatest => "sql.greatest",
            Extreme::Least => "sql.least",
        };
        Signature {
            id,
            arity: Arity::Variadic { min: 1, max: None },
            types: Types {
                takes: Takes::Alike(Kind::Any),
                nulls: Nulls::WhereAll,
                gives: Gives::Alike,
            },
            is_strict: false,
            is_infallible: true,
        }
    }

    fn answer<'a>(&self, _ptype: PType, cells: &[Cell<'a>]) -> VortexResult<Cell<'a>> {
        let mut best = Cell::Null;
        for cell in cells {
            best = farther(*self, best, *cell);
        }
        Ok(best)
    }

    ghost lawful = { extreme_lawful };
}
