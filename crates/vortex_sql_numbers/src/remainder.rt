//! `%`: the remainder, with the sign of the dividend.
ghost use Rattle.std.specs.Prelude.{◌≡◌};
ghost use Rattle.vortex_sql_numbers.specs.Remainder.{remainder_row, remainder_lawful, rest_by};

use vortex_columns::{Cell, PType, VortexResult};
use vortex_sql_rows::cells::{both_ints, int_or_fault};
use vortex_sql_rows::faults::RowFault;
use vortex_sql_rows::row::{RowFn, Signature};
use vortex_sql_rows::types::{Gives, Kind, Takes};

/// `a % b`
pub struct Remainder;

/// None by zero. By -1 it is 0, whose quotient might not fit.
fn rest_by(a: i128, b: i128) -> Option<i128>
    ensures { result ≡ rest_by a b }
{
    if b == 0 {
        return None;
    }
    if b == -1 { Some(0) } else { Some(a % b) }
}

impl RowFn for Remainder {
    ghost about = { λ f. remainder_row };

    fn signature(&self) -> Signature {
        Signature::strict(
            "sql.mod",
            2,
            Takes::Alike(Kind::Integer),
            Gives::Alike,
            false,
        )
    }

    fn answer<'a>(&self, _ptype: PType, cells: &[Cell<'a>]) -> VortexResult<Cell<'a>> {
        let Some((a, b)) = both_ints(cells) else {
            return Ok(Cell::Null);
        };
        int_or_fault(rest_by(a, b), RowFault::ZeroDivisor)
    }

    ghost lawful = { λ f. remainder_lawful };
}
