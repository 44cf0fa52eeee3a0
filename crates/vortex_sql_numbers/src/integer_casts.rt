//! Casts of integers to integer types.
ghost use Rattle.std.specs.Prelude.{◌≡◌};
ghost use Rattle.vortex_sql_numbers.specs.Casts.{cast_row, cast_lawful, cast_id, widen_row};
ghost use Rattle.vortex_sql_numbers.specs.Casts.{widen_lawful, widen_id};

use vortex_columns::{Cell, PType, VortexResult};
use vortex_interface::ScalarFnId;
use vortex_sql_rows::cells::{int_or_fault, only_int};
use vortex_sql_rows::faults::RowFault;
use vortex_sql_rows::ranges::checked;
use vortex_sql_rows::row::{RowFn, Signature};
use vortex_sql_rows::types::{Gives, Kind, Takes};

/// A cast to that type, with a fault where it does not have the integer.
#[derive(Clone, Copy, Debug, PartialEq, Eq)]
pub struct Cast {
    pub ptype: PType,
}

/// A cast from a type whose every number that type has.
#[derive(Clone, Copy, Debug, PartialEq, Eq)]
pub struct Widen {
    pub ptype: PType,
}

fn cast_id(ptype: PType) -> ScalarFnId
    ensures { result.now ≡ cast_id ptype }
{
    match ptype {
        PType::I8 => "sql.to_i8",
        PType::I16 => "sql.to_i16",
        PType::I32 => "sql.to_i32",
        PType::I64 => "sql.to_i64",
        PType::U8 => "sql.to_u8",
        PType::U16 => "sql.to_u16",
        PType::U32 => "sql.to_u32",
        PType::U64 => "sql.to_u64",
    }
}

impl RowFn for Cast {
    ghost about = { λ f. cast_row f.ptype };

    fn signature(&self) -> Signature {
        Signature::strict(
            cast_id(self.ptype),
            1,
            Takes::Alike(Kind::Integer),
            Gives::Integer(self.ptype),
            false,
        )
    }

    fn answer<'a>(&self, _ptype: PType, cells: &[Cell<'a>]) -> VortexResult<Cell<'a>> {
        let Some(a) = only_int(cells) else {
            return Ok(Cell::Null);
        };
        int_or_fault(checked(self.ptype, a), RowFault::OutOfRange(self.ptype))
    }

    ghost lawful = { λ f. cast_lawful f.ptype };
}

fn widen_id(ptype: PType) -> ScalarFnId
    ensures { result.now ≡ widen_id ptype }
{
    match ptype {
        PType::I8 => "sql.widen_i8",
        PType::I16 => "sql.widen_i16",
        PType::I32 => "sql.widen_i32",
        PType::I64 => "sql.widen_i64",
        PType::U8 => "sql.widen_u8",
        PType::U16 => "sql.widen_u16",
        PType::U32 => "sql.widen_u32",
        PType::U64 => "sql.widen_u64",
    }
}

impl RowFn for Widen {
    ghost about = { λ f. widen_row f.ptype };

    fn signature(&self) -> Signature {
        Signature::strict(
            widen_id(self.ptype),
            1,
            Takes::Alike(Kind::Within(self.ptype)),
            Gives::Integer(self.ptype),
            true,
        )
    }

    fn answer<'a>(&self, _ptype: PType, cells: &[Cell<'a>]) -> VortexResult<Cell<'a>> {
        match only_int(cells) {
            Some(a) => Ok(Cell::Int(a)),
            None => Ok(Cell::Null),
        }
    }

    ghost lawful = { λ f. widen_lawful f.ptype };
}
