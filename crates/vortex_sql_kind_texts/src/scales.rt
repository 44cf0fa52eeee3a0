//! Numbers as decimals with more digits after the point.
ghost use Rattle.std.specs.Prelude.{◌≡◌, ◌≤◌};
ghost use Rattle.vortex_columns.specs.Cells.{cell_value};
ghost use Rattle.vortex_logical.specs.Decimals.{shifted, within_digits};
ghost use Rattle.vortex_sql_rows.specs.AnsweredRows.{AnswersRow};
ghost use Rattle.vortex_sql_rows.specs.Shapes.{number_in, with_three};
ghost use Rattle.vortex_sql_kind_texts.specs.DecimalScales as specs;

use crate::cells::{digits_in, from_to, other_values, power_of};
use vortex_columns::{Cell, PType, VortexResult};
use vortex_logical::decimals::within_digits;
use vortex_logical::digits::DecimalDigits;
use vortex_sql_rows::cells::{int_in, int_or_fault};
use vortex_sql_rows::faults::RowFault;
use vortex_sql_rows::row::{RowFn, Signature};
use vortex_sql_rows::types::{Gives, Kind, Takes};

/// A number, whole or the integer that stands for a decimal, times ten to the power of the places
/// that are added, from 0 to 18, if a decimal of the precision, 1 to 18, has it; else the fault
/// `DecimalDigits`. The fault `OtherValues` for other places and precisions.
pub struct DecimalScaled;

/// The product, if it has no more digits than the decimal.
fn added(number: i128, places: u32, digits: DecimalDigits) -> Option<i64>
    requires { places ≤ 18 }
    ensures { result ≡ within_digits digits.precision (shifted number places) }
{
    let _digits = digits.precision();
    if number.unsigned_abs() >= 1_000_000_000_000_000_000 {
        return None;
    }
    within_digits(number * i128::from(power_of(places)), digits)
}

fn places_added<'a>(number: i128, places: u32, digits: DecimalDigits) -> VortexResult<Cell<'a>>
    requires { places ≤ 18 }
    ensures { AnswersRow (specs.places_added number places digits) result }
{
    match added(number, places, digits) {
        Some(number) => Ok(Cell::Int(i128::from(number))),
        None => int_or_fault(None, RowFault::DecimalDigits),
    }
}

fn with_precision<'a>(number: i128, precision: i128, places: u32) -> VortexResult<Cell<'a>>
    requires { places ≤ 18 }
    ensures { AnswersRow (specs.with_precision number precision places) result }
{
    match digits_in(precision, 0) {
        Some(digits) => places_added(number, places, digits),
        None => other_values(),
    }
}

fn scale_number<'a>(number: i128, places: i128, precision: i128) -> VortexResult<Cell<'a>>
    ensures { AnswersRow (specs.scale_number number places precision) result }
{
    match from_to(0, 18, places) {
        Some(places) => with_precision(number, precision, places),
        None => other_values(),
    }
}

fn scaled_of<'a>(
    number: &Cell<'_>,
    places: &Cell<'_>,
    precision: &Cell<'_>,
) -> VortexResult<Cell<'a>>
    ensures { AnswersRow (with_three specs.scale_number (number_in (cell_value number.now))
        (number_in (cell_value places.now)) (number_in (cell_value precision.now))) result }
{
    let Some(number) = int_in(number) else {
        return other_values();
    };
    let Some(places) = int_in(places) else {
        return other_values();
    };
    let Some(precision) = int_in(precision) else {
        return other_values();
    };
    scale_number(number, places, precision)
}

impl RowFn for DecimalScaled {
    ghost about = { λ f. specs.scaled_row };

    fn signature(&self) -> Signature {
        let takes = Takes::Each(Kind::Integer, Kind::Integer, Kind::Integer);
        Signature::strict(
            "sql.decimal_scaled",
            3,
            takes,
            Gives::Integer(PType::I64),
            false,
        )
    }

    fn answer<'a>(&self, _ptype: PType, cells: &[Cell<'a>]) -> VortexResult<Cell<'a>> {
        let [number, places, precision] = cells else {
            return other_values();
        };
        scaled_of(number, places, precision)
    }

    ghost lawful = { λ f. specs.scaled_lawful };
}
