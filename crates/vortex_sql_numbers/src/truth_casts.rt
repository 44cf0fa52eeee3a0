//! Casts of truth values to integers and texts, and of integers to truth values.
ghost use Rattle.std.specs.Prelude.{◌≡◌};
ghost use Rattle.vortex_sql_numbers.specs.Casts.{truth_row, truth_lawful, truth_id, truth_number};
ghost use Rattle.vortex_sql_numbers.specs.Casts.{nonzero_row, nonzero_lawful, truth_word};
ghost use Rattle.vortex_sql_numbers.specs.Casts.{truth_word_row, truth_word_lawful};

use vortex_columns::{Cell, PType, VortexResult};
use vortex_interface::ScalarFnId;
use vortex_sql_rows::cells::{only_int, only_truth};
use vortex_sql_rows::row::{RowFn, Signature};
use vortex_sql_rows::types::{Gives, Kind, Takes};

/// A cast of a truth value to that type: 1 where it is true, else 0.
#[derive(Clone, Copy, Debug, PartialEq, Eq)]
pub struct TruthToInt {
    pub ptype: PType,
}

/// A cast of an integer to a truth value: whether it is not zero.
pub struct IntToTruth;

/// A cast of a truth value to text: `true` or `false`.
pub struct TruthToText;

fn truth_id(ptype: PType) -> ScalarFnId
    ensures { result.now ≡ truth_id ptype }
{
    match ptype {
        PType::I8 => "sql.bool_to_i8",
        PType::I16 => "sql.bool_to_i16",
        PType::I32 => "sql.bool_to_i32",
        PType::I64 => "sql.bool_to_i64",
        PType::U8 => "sql.bool_to_u8",
        PType::U16 => "sql.bool_to_u16",
        PType::U32 => "sql.bool_to_u32",
        PType::U64 => "sql.bool_to_u64",
    }
}

fn truth_number(truth: bool) -> i128
    ensures { result ≡ truth_number truth }
{
    if truth { 1 } else { 0 }
}

fn truth_word(truth: bool) -> &'static str
    ensures { result.now ≡ truth_word truth }
{
    if truth { "true" } else { "false" }
}

impl RowFn for TruthToInt {
    ghost about = { λ f. truth_row f.ptype };

    fn signature(&self) -> Signature {
        Signature::strict(
            truth_id(self.ptype),
            1,
            Takes::Alike(Kind::Truth),
            Gives::Integer(self.ptype),
            true,
        )
    }

    fn answer<'a>(&self, _ptype: PType, cells: &[Cell<'a>]) -> VortexResult<Cell<'a>> {
        match only_truth(cells) {
            Some(a) => Ok(Cell::Int(truth_number(a))),
            None => Ok(Cell::Null),
        }
    }

    ghost lawful = { λ f. truth_lawful f.ptype };
}

impl RowFn for IntToTruth {
    ghost about = { λ f. nonzero_row };

    fn signature(&self) -> Signature {
        Signature::strict(
            "sql.int_to_bool",
            1,
            Takes::Alike(Kind::Integer),
            Gives::Truth,
            true,
        )
    }

    fn answer<'a>(&self, _ptype: PType, cells: &[Cell<'a>]) -> VortexResult<Cell<'a>> {
        match only_int(cells) {
            Some(a) => Ok(Cell::Bool(a != 0)),
            None => Ok(Cell::Null),
        }
    }

    ghost lawful = { λ f. nonzero_lawful };
}

impl RowFn for TruthToText {
    ghost about = { λ f. truth_word_row };

    fn signature(&self) -> Signature {
        Signature::strict(
            "sql.bool_to_utf8",
            1,
            Takes::Alike(Kind::Truth),
            Gives::Text,
            true,
        )
    }

    fn answer<'a>(&self, _ptype: PType, cells: &[Cell<'a>]) -> VortexResult<Cell<'a>> {
        match only_truth(cells) {
            Some(a) => Ok(Cell::Text(truth_word(a))),
            None => Ok(Cell::Null),
        }
    }

    ghost lawful = { λ f. truth_word_lawful };
}
