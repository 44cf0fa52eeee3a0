//! Functions of one float over the integer that stands for it.
ghost use Rattle.std.specs.Prelude.{◌≡◌};
ghost use Rattle.vortex_sql_rows.specs.AnsweredRows.{AnswersRow};
ghost use Rattle.vortex_sql_float_functions.specs.FloatRows as specs;

use crate::functions::{FloatFunction, NEGATIVE_ROOT, applied, lacks_root};
use crate::keys::{float_cell, key_in, other_values};
use vortex_columns::{Cell, PType, VortexError, VortexResult};
use vortex_logical::keys::f64_of_key;
use vortex_sql_rows::cells::only_int;
use vortex_sql_rows::row::{RowFn, Signature};
use vortex_sql_rows::types::{Gives, Kind, Takes};

/// The integer of the function's result for a float, or its fault.
fn of_float<'a>(function: FloatFunction, x: f64) -> VortexResult<Cell<'a>>
    ensures { AnswersRow (specs.of_float function x) result }
{
    if lacks_root(function, x) {
        Err(VortexError::Custom(NEGATIVE_ROOT))
    } else {
        float_cell(applied(function, x))
    }
}

/// The same for the integer that stands for the float.
fn of_number<'a>(function: FloatFunction, number: i128) -> VortexResult<Cell<'a>>
    ensures { AnswersRow (specs.of_number function number) result }
{
    match key_in(number) {
        Some(key) => of_float(function, f64_of_key(key)),
        None => other_values(),
    }
}

/// Whether the function has a result for each float.
fn is_total(function: FloatFunction) -> bool
    ensures { result ≡ specs.is_total function }
{
    match function {
        FloatFunction::Sqrt => false,
        FloatFunction::Round
        | FloatFunction::Floor
        | FloatFunction::Ceil
        | FloatFunction::Trunc
        | FloatFunction::Abs
        | FloatFunction::Sign => true,
    }
}

impl RowFn for FloatFunction {
    ghost about = { specs.function_row };

    fn signature(&self) -> Signature {
        let id = match self {
            FloatFunction::Round => "sql.float_round",
            FloatFunction::Floor => "sql.float_floor",
            FloatFunction::Ceil => "sql.float_ceil",
            FloatFunction::Trunc => "sql.float_trunc",
            FloatFunction::Sqrt => "sql.float_sqrt",
            FloatFunction::Abs => "sql.float_abs",
            FloatFunction::Sign => "sql.float_sign",
        };
        Signature::strict(
            id,
            1,
            Takes::Alike(Kind::Within(PType::I64)),
            Gives::Integer(PType::I64),
            is_total(*self),
        )
    }

    fn answer<'a>(&self, _ptype: PType, cells: &[Cell<'a>]) -> VortexResult<Cell<'a>> {
        match only_int(cells) {
            Some(number) => of_number(*self, number),
            None => Ok(Cell::Null),
        }
    }

    ghost lawful = { specs.function_lawful };
}
