//! Casts of floats of 64 bits to integer types.
ghost use Rattle.std.specs.Prelude.{◌≡◌};
ghost use Rattle.vortex_sql_rows.specs.AnsweredRows.{AnswersRow};
ghost use Rattle.vortex_sql_floats.specs.ToIntegers.{rounded_in, to_int_id, to_int_lawful};
ghost use Rattle.vortex_sql_floats.specs.ToIntegers.{to_int_row, to_integer, whole_in};

use crate::keys::{key_in, other_values};
use crate::whole::{signed_in, unsigned_in};
use vortex_columns::{Cell, PType, VortexResult};
use vortex_interface::ScalarFnId;
use vortex_logical::keys::f64_of_key;
use vortex_sql_rows::cells::{int_or_fault, only_int};
use vortex_sql_rows::faults::RowFault;
use vortex_sql_rows::ranges::checked;
use vortex_sql_rows::row::{RowFn, Signature};
use vortex_sql_rows::types::{Gives, Kind, Takes};

/// A cast to that type: rounded to the nearest integer, from halfway to the even one, with a fault
/// where the type does not have it.
#[derive(Clone, Copy, Debug, PartialEq, Eq)]
pub struct FloatToInt {
    pub ptype: PType,
}

fn to_int_id(ptype: PType) -> ScalarFnId
    ensures { result.now ≡ to_int_id ptype }
{
    match ptype {
        PType::I8 => "sql.float_to_i8",
        PType::I16 => "sql.float_to_i16",
        PType::I32 => "sql.float_to_i32",
        PType::I64 => "sql.float_to_i64",
        PType::U8 => "sql.float_to_u8",
        PType::U16 => "sql.float_to_u16",
        PType::U32 => "sql.float_to_u32",
        PType::U64 => "sql.float_to_u64",
    }
}

/// The integer of a float without a fraction, if 64 bits have it.
fn whole_in(ptype: PType, float: f64) -> Option<i128>
    ensures { result ≡ whole_in ptype float }
{
    match ptype {
        PType::U64 => unsigned_in(float),
        PType::I8 => signed_in(float),
        PType::I16 => signed_in(float),
        PType::I32 => signed_in(float),
        PType::I64 => signed_in(float),
        PType::U8 => signed_in(float),
        PType::U16 => signed_in(float),
        PType::U32 => signed_in(float),
    }
}

/// The nearest integer, if the type has it.
fn rounded_in(ptype: PType, float: f64) -> Option<i128>
    ensures { result ≡ rounded_in ptype float }
{
    match whole_in(ptype, float.round_ties_even()) {
        Some(number) => checked(ptype, number),
        None => None,
    }
}

fn to_integer<'a>(ptype: PType, number: i128) -> VortexResult<Cell<'a>>
    ensures { AnswersRow (to_integer ptype number) result }
{
    match key_in(number) {
        Some(key) => int_or_fault(
            rounded_in(ptype, f64_of_key(key)),
            RowFault::OutOfRange(ptype),
        ),
        None => other_values(),
    }
}

impl RowFn for FloatToInt {
    ghost about = { λ f. to_int_row f.ptype };

    fn signature(&self) -> Signature {
        Signature::strict(
            to_int_id(self.ptype),
            1,
            Takes::Alike(Kind::Within(PType::I64)),
            Gives::Integer(self.ptype),
            false,
        )
    }

    fn answer<'a>(&self, _ptype: PType, cells: &[Cell<'a>]) -> VortexResult<Cell<'a>> {
        match only_int(cells) {
            Some(a) => to_integer(self.ptype, a),
            None => Ok(Cell::Null),
        }
    }

    ghost lawful = { λ f. to_int_lawful f.ptype };
}
