//! Minus before a float of 64 bits.
ghost use Rattle.std.specs.Prelude.{◌≡◌};
ghost use Rattle.vortex_sql_rows.specs.AnsweredRows.{AnswersRow};
ghost use Rattle.vortex_sql_floats.specs.Negation.{negated, negate_row, negate_lawful};

use crate::keys::{float_cell, key_in, other_values};
use vortex_columns::{Cell, PType, VortexResult};
use vortex_logical::keys::f64_of_key;
use vortex_sql_rows::cells::only_int;
use vortex_sql_rows::row::{RowFn, Signature};
use vortex_sql_rows::types::{Gives, Kind, Takes};

/// `-a`; that of zero is zero, and that of a NaN a NaN.
pub struct FloatNegate;

fn negated<'a>(a: i128) -> VortexResult<Cell<'a>>
    ensures { AnswersRow (negated a) result }
{
    match key_in(a) {
        Some(key) => float_cell(-f64_of_key(key)),
        None => other_values(),
    }
}

impl RowFn for FloatNegate {
    ghost about = { λ f. negate_row };

    fn signature(&self) -> Signature {
        Signature::strict(
            "sql.float_negate",
            1,
            Takes::Alike(Kind::Within(PType::I64)),
            Gives::Integer(PType::I64),
            true,
        )
    }

    fn answer<'a>(&self, _ptype: PType, cells: &[Cell<'a>]) -> VortexResult<Cell<'a>> {
        match only_int(cells) {
            Some(a) => negated(a),
            None => Ok(Cell::Null),
        }
    }

    ghost lawful = { λ f. negate_lawful };
}
