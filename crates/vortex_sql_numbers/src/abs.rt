//! The absolute value of an integer.
ghost use Rattle.std.specs.Prelude.{◌≡◌};
ghost use Rattle.vortex_sql_numbers.specs.Abs.{abs_row, abs_lawful, magnitude};
ghost use Rattle.vortex_sql_rows.specs.Integers.{checked};

use vortex_columns::{Cell, PType, VortexResult};
use vortex_sql_rows::cells::{int_or_fault, only_int};
use vortex_sql_rows::faults::RowFault;
use vortex_sql_rows::ranges::checked;
use vortex_sql_rows::row::{RowFn, Signature};
use vortex_sql_rows::types::{Gives, Kind, Takes};

/// `abs(a)`
pub struct Abs;

/// None where the type does not have it.
fn magnitude_in(ptype: PType, a: i128) -> Option<i128>
    ensures { result ≡ checked ptype (magnitude a) }
{
    if a >= 0 {
        return checked(ptype, a);
    }
    if a == i128::MIN {
        return None;
    }
    checked(ptype, -a)
}

impl RowFn for Abs {
    ghost about = { λ f. abs_row };

    fn signature(&self) -> Signature {
        Signature::strict(
            "sql.abs",
            1,
            Takes::Alike(Kind::Integer),
            Gives::Alike,
            false,
        )
    }

    fn answer<'a>(&self, ptype: PType, cells: &[Cell<'a>]) -> VortexResult<Cell<'a>> {
        let Some(a) = only_int(cells) else {
            return Ok(Cell::Null);
        };
        int_or_fault(magnitude_in(ptype, a), RowFault::AbsOverflow)
    }

    ghost lawful = { λ f. abs_lawful };
}
