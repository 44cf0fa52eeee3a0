//! Decimals with fewer digits after the point, as PostgreSQL's `round`, `floor`, `ceil` and `trunc`
//! of a `numeric`.
ghost use Rattle.std.specs.Prelude.{◌≡◌, ◌≤◌, ◌^◌};
ghost use Rattle.std.specs.Int.{IsInRange};
ghost use Rattle.vortex_columns.specs.Cells.{cell_value};
ghost use Rattle.vortex_sql_rows.specs.AnsweredRows.{AnswersRow};
ghost use Rattle.vortex_sql_rows.specs.Shapes.{number_in, with_both};
ghost use Rattle.vortex_sql_kind_texts.specs.DecimalRounding as specs;

use crate::cells::{from_to, other_values, power_of, stored_in};
use vortex_columns::{Cell, PType, VortexResult};
use vortex_interface::ScalarFnId;
use vortex_sql_rows::cells::int_in;
use vortex_sql_rows::row::{RowFn, Signature};
use vortex_sql_rows::types::{Gives, Kind, Takes};

/// To which integer a quotient goes.
#[derive(Clone, Copy, Debug, PartialEq, Eq)]
pub enum Rounding {
    /// The nearest; from halfway the one farther from zero.
    Half,
    /// The next below.
    Floor,
    /// The next above.
    Ceiling,
    /// The next toward zero.
    Trunc,
}

/// The integer that stands for a decimal over ten to the power of the places that are dropped, from
/// 0 to 18; the fault `OtherValues` for others. No result is too large.
#[derive(Clone, Copy, Debug, PartialEq, Eq)]
pub struct DecimalRound {
    pub rounding: Rounding,
}

pub(crate) fn with_sign(number: i64, size: u64) -> i128
    ensures { result ≡ specs.with_sign number size }
{
    if number < 0 {
        -i128::from(size)
    } else {
        i128::from(size)
    }
}

/// The number over the power of ten.
fn rounded(rounding: Rounding, power: u64, number: i64) -> i128
    requires { IsInRange 1 1000000000000000000 power }
    ensures { result ≡ specs.rounded rounding power number }
{
    match rounding {
        Rounding::Half => with_sign(number, (number.unsigned_abs() + power / 2) / power),
        Rounding::Floor => i128::from(number).div_euclid(i128::from(power)),
        Rounding::Ceiling => -(-i128::from(number)).div_euclid(i128::from(power)),
        Rounding::Trunc => with_sign(number, number.unsigned_abs() / power),
    }
}

fn places_dropped<'a>(rounding: Rounding, places: i128, number: i64) -> VortexResult<Cell<'a>>
    ensures { AnswersRow (specs.places_dropped rounding places number) result }
{
    match from_to(0, 18, places) {
        Some(places) => Ok(Cell::Int(rounded(rounding, power_of(places), number))),
        None => other_values(),
    }
}

fn round_decimal<'a>(rounding: Rounding, number: i128, places: i128) -> VortexResult<Cell<'a>>
    ensures { AnswersRow (specs.round_decimal rounding number places) result }
{
    match stored_in(number) {
        Some(number) => places_dropped(rounding, places, number),
        None => other_values(),
    }
}

fn round_of<'a>(rounding: Rounding, number: &Cell<'_>, places: &Cell<'_>) -> VortexResult<Cell<'a>>
    ensures { AnswersRow (with_both (specs.round_decimal rounding)
        (number_in (cell_value number.now)) (number_in (cell_value places.now))) result }
{
    let Some(number) = int_in(number) else {
        return other_values();
    };
    let Some(places) = int_in(places) else {
        return other_values();
    };
    round_decimal(rounding, number, places)
}

fn round_id(rounding: Rounding) -> ScalarFnId
    ensures { result.now ≡ specs.round_id rounding }
{
    match rounding {
        Rounding::Half => "sql.decimal_round",
        Rounding::Floor => "sql.decimal_floor",
        Rounding::Ceiling => "sql.decimal_ceiling",
        Rounding::Trunc => "sql.decimal_trunc",
    }
}

impl RowFn for DecimalRound {
    ghost about = { λ f. specs.round_row f.rounding };

    fn signature(&self) -> Signature {
        let takes = Takes::Each(Kind::Within(PType::I64), Kind::Integer, Kind::Integer);
        Signature::strict(
            round_id(self.rounding),
            2,
            takes,
            Gives::Integer(PType::I64),
            false,
        )
    }

    fn answer<'a>(&self, _ptype: PType, cells: &[Cell<'a>]) -> VortexResult<Cell<'a>> {
        match cells {
            [number, places] => round_of(self.rounding, number, places),
            [] => other_values(),
            [_] => other_values(),
            [_, _, _, ..] => other_values(),
        }
    }

    ghost lawful = { λ f. specs.round_lawful f.rounding };
}
