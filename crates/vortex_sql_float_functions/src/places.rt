//! Floats at a place after the point, by their first 15 significant digits.
ghost use Rattle.std.specs.Prelude.{◌≡◌, neg_ℤ, pos};
ghost use Rattle.vortex_sql_rows.specs.AnsweredRows.{AnswersRow};
ghost use Rattle.vortex_sql_float_functions.specs.PlaceRows as specs;

use crate::keys::{float_cell, key_in, other_values};
use vortex_columns::{Cell, PType, VortexResult};
use vortex_float_texts::leading::{FirstDigits, is_float, leading};
use vortex_float_texts::places::{PlaceRounding, rounded};
use vortex_sql_rows::cells::both_ints;
use vortex_sql_rows::row::{RowFn, Signature};
use vortex_sql_rows::types::{Gives, Kind, Takes};

/// A float and a number of places after the point, from 0 to 19: the float nearest to the decimal of
/// the float's first 15 significant digits, rounded at that place, or of all of them where none is
/// after the place; the float itself where the last of them is before the point, and of a NaN and an
/// infinity. No result is too large.
#[derive(Clone, Copy, Debug, PartialEq, Eq)]
pub enum FloatPlaces {
    /// To the nearest decimal, from halfway the one farther from zero.
    Round,
    /// Without the digits that are left out.
    Trunc,
}

fn rounding_of(function: FloatPlaces) -> PlaceRounding
    ensures { result ≡ specs.rounding_of function }
{
    match function {
        FloatPlaces::Round => PlaceRounding::Half,
        FloatPlaces::Trunc => PlaceRounding::Trunc,
    }
}

fn exponent_of(places: u32) -> i64
    ensures { result ≡ neg_ℤ (pos places) }
{
    -i64::from(places)
}

/// The float nearest to the size over 10 to the power of the places, with the sign of the number.
#[tactic(auto, using(crate::proofs::NearestPlaces::nearest_is))]
fn placed_float(number: i64, places: u32, size: u64) -> f64
    ensures { result ≡ specs.placed_float number places size }
{
    fast_float::from_parts::<f64>(number < 0, size, exponent_of(places))
}

/// The float nearest to all 15 digits; the float itself where the last of them is before the point.
fn digits_cell<'a>(number: i64, leading: FirstDigits) -> VortexResult<Cell<'a>>
    ensures { AnswersRow (specs.digits_float number leading) result }
{
    if leading.power <= 400 {
        let places = (400 - leading.power) as u32;
        float_cell(placed_float(number, places, leading.digits))
    } else {
        Ok(Cell::Int(i128::from(number)))
    }
}

fn leading_cell<'a>(number: i64, leading: Option<FirstDigits>) -> VortexResult<Cell<'a>>
    ensures { AnswersRow (specs.leading_float number leading) result }
{
    match leading {
        Some(leading) => digits_cell(number, leading),
        None => Ok(Cell::Int(i128::from(number))),
    }
}

#[tactic(auto, unfolding(crate::specs::PlaceRows::placed))]
fn placed<'a>(function: FloatPlaces, places: u32, number: i64) -> VortexResult<Cell<'a>>
    ensures { AnswersRow (specs.placed function places number) result }
{
    if !is_float(number) {
        return other_values();
    }
    match rounded(rounding_of(function), places as u64, number.unsigned_abs()) {
        Some(size) => float_cell(placed_float(number, places, size)),
        None => leading_cell(number, leading(number.unsigned_abs())),
    }
}

/// The number of places, if it is one from 0 to 19.
fn places_in(places: i128) -> Option<u32>
    ensures { result ≡ specs.places_in places }
{
    if 0 <= places && places <= 19 {
        Some(places as u32)
    } else {
        None
    }
}

fn key_at<'a>(function: FloatPlaces, places: i128, number: i64) -> VortexResult<Cell<'a>>
    ensures { AnswersRow (specs.key_at function places number) result }
{
    match places_in(places) {
        Some(places) => placed(function, places, number),
        None => other_values(),
    }
}

fn at_places<'a>(function: FloatPlaces, number: i128, places: i128) -> VortexResult<Cell<'a>>
    ensures { AnswersRow (specs.at_places function number places) result }
{
    match key_in(number) {
        Some(number) => key_at(function, places, number),
        None => other_values(),
    }
}

impl RowFn for FloatPlaces {
    ghost about = { specs.places_row };

    fn signature(&self) -> Signature {
        let id = match self {
            FloatPlaces::Round => "sql.float_round_places",
            FloatPlaces::Trunc => "sql.float_trunc_places",
        };
        Signature::strict(
            id,
            2,
            Takes::Alike(Kind::Within(PType::I64)),
            Gives::Integer(PType::I64),
            false,
        )
    }

    fn answer<'a>(&self, _ptype: PType, cells: &[Cell<'a>]) -> VortexResult<Cell<'a>> {
        let Some((number, places)) = both_ints(cells) else {
            return Ok(Cell::Null);
        };
        at_places(*self, number, places)
    }

    ghost lawful = { specs.places_lawful };
}
