//! Which function rounds decimals, and what becomes of their digits.
ghost use Rattle.std.specs.Prelude.{◌≡◌, Some};
ghost use Rattle.vortex_logical_casts.specs.Roundings as specs;

use crate::casts::rounding;
use crate::steps::{More, Step};
use vortex_logical::digits::DecimalDigits;
use vortex_standard::{FloatFunction, FloatPlaces, Rounding, Standard};

/// A rounding of decimals.
#[derive(Clone, Copy, Debug, PartialEq, Eq)]
pub struct Rounded {
    pub step: Step,
    /// The digits of the results.
    pub digits: DecimalDigits,
}

/// The rounding of decimals that has the name of one of floats.
fn rounding_of(function: FloatFunction) -> Option<Rounding>
    ensures { result ≡ specs.rounding_of function }
{
    match function {
        FloatFunction::Round => Some(Rounding::Half),
        FloatFunction::Floor => Some(Rounding::Floor),
        FloatFunction::Ceil => Some(Rounding::Ceiling),
        FloatFunction::Trunc => Some(Rounding::Trunc),
        _ => None,
    }
}

/// Whether decimals have the function, which rounds them.
pub fn is_rounding(function: FloatFunction) -> bool
    ensures { result ≡ specs.is_rounding function }
{
    rounding_of(function).is_some()
}

/// How many digits decimals have without the last ones: one more than are left, since 9.9 is rounded
/// to 10.
fn left_precision(precision: u32, dropped: u32) -> u32
    ensures { result ≡ specs.left_precision precision dropped }
{
    let left = precision.saturating_sub(dropped);
    if left < 18 { left + 1 } else { 18 }
}

/// The digits of decimals without the last ones.
fn left_digits(digits: DecimalDigits, dropped: u32) -> Option<DecimalDigits>
    ensures { result ≡ Some (specs.left_digits digits dropped) }
{
    let precision = left_precision(digits.precision(), dropped);
    DecimalDigits::try_new(precision, digits.scale().saturating_sub(dropped))
}

/// The function that rounds decimals of these digits to so many places after the point, and the
/// digits of its results; none of functions that round nothing, and where decimals have no more
/// places.
pub fn decimal_rounding(
    function: FloatFunction,
    digits: DecimalDigits,
    places: u32,
) -> Option<Rounded>
    ensures { result ≡ specs.rounded function digits places }
{
    let by = rounding_of(function)?;
    if digits.scale() <= places {
        return None;
    }
    let dropped = digits.scale() - places;
    let digits = left_digits(digits, dropped)?;
    let step = rounding(by, dropped);
    Some(Rounded { step, digits })
}

/// A float to so many places after the point.
fn placing(function: FloatPlaces, places: u32) -> Step
    ensures { result ≡ specs.placing function places }
{
    let function = Standard::FloatPlaces(function);
    let more = More::One(places);
    Step { function, more }
}

/// The function that rounds floats of 64 bits to so many places after the point; none of functions
/// that take no places.
pub fn float_rounding(function: FloatFunction, places: u32) -> Option<Step>
    ensures { result ≡ specs.float_rounding function places }
{
    match function {
        FloatFunction::Round => Some(placing(FloatPlaces::Round, places)),
        FloatFunction::Trunc => Some(placing(FloatPlaces::Trunc, places)),
        _ => None,
    }
}
