//! The first 15 significant digits of a float, rounded at a place after the point.
ghost use Rattle.std.specs.Prelude.{◌≡◌, ◌^◌, ◌≤◌, ◌<◌};
ghost use Rattle.std.specs.Int.{IsInRange};
ghost use Rattle.vortex_float_texts.specs.Places as specs;

use crate::leading::{FirstDigits, leading};

/// What becomes of a number whose last digits are left out.
#[derive(Clone, Copy, Debug, PartialEq, Eq)]
pub enum PlaceRounding {
    /// The nearest; from halfway the greater one.
    Half,
    /// The next below.
    Trunc,
}

#[tactic(auto, using(crate::proofs::Fifteen::ten_limit, crate::proofs::Powers::ten_positive))]
fn ten_to(power: u32) -> u64
    requires { power ≤ 19 }
    ensures value { result ≡ 10 ^ power }
    ensures range { IsInRange 1 10000000000000000000 result }
{
    10u64.pow(power)
}

#[tactic(auto, using(crate::proofs::Fifteen::half_least))]
fn over(rounding: PlaceRounding, unit: u64, digits: u64) -> u64
    requires { 1 ≤ unit }
    ensures { result ≡ specs.over rounding unit digits }
{
    match rounding {
        PlaceRounding::Half => ((digits as u128 + (unit / 2) as u128) / unit as u128) as u64,
        PlaceRounding::Trunc => digits / unit,
    }
}

/// The number without its last digits.
#[tactic(auto, using(crate::proofs::Fifteen::none_left))]
pub fn without(rounding: PlaceRounding, dropped: u64, digits: u64) -> u64
    ensures { result ≡ specs.without rounding dropped digits }
{
    if dropped < 20 {
        over(rounding, ten_to(dropped as u32), digits)
    } else {
        0
    }
}

/// How many units of the last of so many places after the point the decimal has. None where it has
/// no digit after that place.
pub fn at_place(rounding: PlaceRounding, places: u64, leading: FirstDigits) -> Option<u64>
    ensures { result ≡ specs.at_place rounding places leading }
{
    if 400 <= leading.power || 400 - leading.power <= places {
        return None;
    }
    let dropped = 400 - leading.power - places;
    Some(without(rounding, dropped, leading.digits))
}

/// The same of the float of that pattern.
pub fn rounded(rounding: PlaceRounding, places: u64, size: u64) -> Option<u64>
    ensures { result ≡ specs.rounded rounding places size }
{
    match leading(size) {
        Some(leading) => at_place(rounding, places, leading),
        None => None,
    }
}
