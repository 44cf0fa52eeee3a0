//! Conversions to floats of 64 bits: of integers, and of floats of 32 bits.
ghost use Rattle.std.specs.Prelude.{◌≡◌};
ghost use Rattle.vortex_sql_rows.specs.AnsweredRows.{AnswersRow};
ghost use Rattle.vortex_sql_floats.specs.Conversions.{converted, from_int_row};
ghost use Rattle.vortex_sql_floats.specs.Conversions.{from_int_lawful, widened, widen_row};
ghost use Rattle.vortex_sql_floats.specs.Conversions.{widen_lawful, nearest_float};

use crate::keys::{float_cell, narrow_key_in, other_values};
use std::num::{nearest_i64_to_f64, nearest_u64_to_f64};
use vortex_columns::{Cell, PType, VortexResult};
use vortex_logical::conversions::widen_key;
use vortex_sql_rows::cells::only_int;
use vortex_sql_rows::ranges::is_in;
use vortex_sql_rows::row::{RowFn, Signature};
use vortex_sql_rows::types::{Gives, Kind, Takes};

/// An integer of any type as the nearest float, rounded once.
pub struct IntToFloat;

/// A float of 32 bits as the same float of 64 bits.
pub struct WidenFloat;

/// The float nearest to the number, if that is an integer of some type.
fn nearest_float(number: i128) -> Option<f64>
    ensures { result ≡ nearest_float number }
{
    if is_in(PType::I64, number) {
        return Some(nearest_i64_to_f64(number as i64));
    }
    if is_in(PType::U64, number) {
        return Some(nearest_u64_to_f64(number as u64));
    }
    None
}

fn converted<'a>(number: i128) -> VortexResult<Cell<'a>>
    ensures { AnswersRow (converted number) result }
{
    match nearest_float(number) {
        Some(float) => float_cell(float),
        None => other_values(),
    }
}

fn widened<'a>(number: i128) -> VortexResult<Cell<'a>>
    ensures { AnswersRow (widened number) result }
{
    match narrow_key_in(number) {
        Some(key) => Ok(Cell::Int(i128::from(widen_key(key)))),
        None => other_values(),
    }
}

impl RowFn for IntToFloat {
    ghost about = { λ f. from_int_row };

    fn signature(&self) -> Signature {
        Signature::strict(
            "sql.int_to_float",
            1,
            Takes::Alike(Kind::Integer),
            Gives::Integer(PType::I64),
            true,
        )
    }

    fn answer<'a>(&self, _ptype: PType, cells: &[Cell<'a>]) -> VortexResult<Cell<'a>> {
        match only_int(cells) {
            Some(a) => converted(a),
            None => Ok(Cell::Null),
        }
    }

    ghost lawful = { λ f. from_int_lawful };
}

impl RowFn for WidenFloat {
    ghost about = { λ f. widen_row };

    fn signature(&self) -> Signature {
        Signature::strict(
            "sql.float_widen",
            1,
            Takes::Alike(Kind::Within(PType::I32)),
            Gives::Integer(PType::I64),
            true,
        )
    }

    fn answer<'a>(&self, _ptype: PType, cells: &[Cell<'a>]) -> VortexResult<Cell<'a>> {
        match only_int(cells) {
            Some(a) => widened(a),
            None => Ok(Cell::Null),
        }
    }

    ghost lawful = { λ f. widen_lawful };
}
