//! Casts between dates and timestamps.
ghost use Rattle.std.specs.Prelude.{◌≡◌};
ghost use Rattle.vortex_sql_rows.specs.AnsweredRows.{AnswersRow};
ghost use Rattle.vortex_types.specs.declared.dtype.PType.TheVariants.{I32, I64};
ghost use Rattle.vortex_sql_dates.specs.Casts.{beginning, beginning_row, beginning_lawful};
ghost use Rattle.vortex_sql_dates.specs.Casts.{day_in, day_row, day_lawful};
ghost use Rattle.vortex_sql_dates.specs.StoredRows.{stored};

use crate::stored::{date_in, day_of, instant_in, other_values};
use vortex_columns::{Cell, PType, VortexResult};
use vortex_sql_rows::cells::{int_or_fault, only_int};
use vortex_sql_rows::faults::RowFault;
use vortex_sql_rows::ranges::checked;
use vortex_sql_rows::row::{RowFn, Signature};
use vortex_sql_rows::types::{Gives, Kind, Takes};

/// The timestamp at which a date begins; the fault `IntegerOutOfRange` where 64 bits do not have it.
pub struct DateToTimestamp;

/// The date that a timestamp is in.
pub struct TimestampToDate;

fn beginning<'a>(number: i128) -> VortexResult<Cell<'a>>
    ensures { AnswersRow (stored I32 beginning number) result }
{
    match date_in(number) {
        Some(day) => int_or_fault(
            checked(PType::I64, i128::from(day) * 86_400_000_000),
            RowFault::IntegerOutOfRange,
        ),
        None => other_values(),
    }
}

fn day_in<'a>(number: i128) -> VortexResult<Cell<'a>>
    ensures { AnswersRow (stored I64 day_in number) result }
{
    match instant_in(number) {
        Some(micros) => Ok(Cell::Int(i128::from(day_of(micros)))),
        None => other_values(),
    }
}

impl RowFn for DateToTimestamp {
    ghost about = { λ f. beginning_row };

    fn signature(&self) -> Signature {
        Signature::strict(
            "sql.date_to_timestamp",
            1,
            Takes::Alike(Kind::Within(PType::I32)),
            Gives::Integer(PType::I64),
            false,
        )
    }

    fn answer<'a>(&self, _ptype: PType, cells: &[Cell<'a>]) -> VortexResult<Cell<'a>> {
        match only_int(cells) {
            Some(a) => beginning(a),
            None => Ok(Cell::Null),
        }
    }

    ghost lawful = { λ f. beginning_lawful };
}

impl RowFn for TimestampToDate {
    ghost about = { λ f. day_row };

    fn signature(&self) -> Signature {
        Signature::strict(
            "sql.timestamp_to_date",
            1,
            Takes::Alike(Kind::Within(PType::I64)),
            Gives::Integer(PType::I32),
            true,
        )
    }

    fn answer<'a>(&self, _ptype: PType, cells: &[Cell<'a>]) -> VortexResult<Cell<'a>> {
        match only_int(cells) {
            Some(a) => day_in(a),
            None => Ok(Cell::Null),
        }
    }

    ghost lawful = { λ f. day_lawful };
}
