//! The sign of an integer: 1, 0 or -1.
ghost use Rattle.std.specs.Prelude.{◌≡◌};
ghost use Rattle.vortex_sql_numbers.specs.Sign.{sign_row, sign_lawful, sign_of};

use vortex_columns::{Cell, PType, VortexResult};
use vortex_sql_rows::cells::only_int;
use vortex_sql_rows::row::{RowFn, Signature};
use vortex_sql_rows::types::{Gives, Kind, Takes};

/// `sign(a)`
pub struct Sign;

fn sign_of(a: i128) -> i128
    ensures { result ≡ sign_of a }
{
    if a > 0 {
        1
    } else if a < 0 {
        -1
    } else {
        0
    }
}

impl RowFn for Sign {
    ghost about = { λ f. sign_row };

    fn signature(&self) -> Signature {
        Signature::strict(
            "sql.sign",
            1,
            Takes::Alike(Kind::Integer),
            Gives::Alike,
            true,
        )
    }

    fn answer<'a>(&self, _ptype: PType, cells: &[Cell<'a>]) -> VortexResult<Cell<'a>> {
        let Some(a) = only_int(cells) else {
            return Ok(Cell::Null);
        };
        Ok(Cell::Int(sign_of(a)))
    }

    ghost lawful = { λ f. sign_lawful };
}
