//! `+`, `-`, `*` and `/` of floats of 64 bits.
ghost use Rattle.std.specs.Prelude.{◌≡◌};
ghost use Rattle.vortex_sql_rows.specs.AnsweredRows.{AnswersRow};
ghost use Rattle.vortex_sql_floats.specs.ArithmeticRows.{arithmetic, operator_row, operator_lawful};
ghost use Rattle.vortex_sql_floats.specs.ArithmeticRows.{operated};

use crate::floats::{FloatOperator, applied, fault_by};
use crate::keys::{float_or_fault, key_in, other_values};
use vortex_columns::{Cell, PType, VortexResult};
use vortex_logical::keys::f64_of_key;
use vortex_sql_rows::cells::both_ints;
use vortex_sql_rows::row::{RowFn, Signature};
use vortex_sql_rows::types::{Gives, Kind, Takes};

/// The integer of the result for the floats of two integers, or its fault.
fn operated<'a>(operator: FloatOperator, a: i64, b: i64) -> VortexResult<Cell<'a>>
    ensures { AnswersRow (operated operator a b) result }
{
    let x = f64_of_key(a);
    let y = f64_of_key(b);
    float_or_fault(fault_by(operator, x, y), applied(operator, x, y))
}

fn arithmetic<'a>(operator: FloatOperator, a: i128, b: i128) -> VortexResult<Cell<'a>>
    ensures { AnswersRow (arithmetic operator a b) result }
{
    match (key_in(a), key_in(b)) {
        (Some(a), Some(b)) => operated(operator, a, b),
        (Some(_), None) => other_values(),
        (None, _) => other_values(),
    }
}

impl RowFn for FloatOperator {
    ghost about = { operator_row };

    fn signature(&self) -> Signature {
        let id = match self {
            FloatOperator::Add => "sql.float_add",
            FloatOperator::Subtract => "sql.float_subtract",
            FloatOperator::Multiply => "sql.float_multiply",
            FloatOperator::Divide => "sql.float_divide",
        };
        Signature::strict(
            id,
            2,
            Takes::Alike(Kind::Within(PType::I64)),
            Gives::Integer(PType::I64),
            false,
        )
    }

    fn answer<'a>(&self, _ptype: PType, cells: &[Cell<'a>]) -> VortexResult<Cell<'a>> {
        let Some((a, b)) = both_ints(cells) else {
            return Ok(Cell::Null);
        };
        arithmetic(*self, a, b)
    }

    ghost lawful = { operator_lawful };
}
