//! The first 15 significant digits of a float of 64 bits.
ghost use Rattle.std.specs.Prelude.{◌≡◌, ◌+◌, ◌/◌, ◌^◌, ◌≤◌, ◌<◌, IfSome};
ghost use Rattle.vortex_float_texts.specs.Candidates as candidates;
ghost use Rattle.vortex_float_texts.specs.Leading as specs;
ghost use Rattle.vortex_float_texts.specs.Widths.{infinity};
ghost use Rattle.vortex_float_texts.specs.declared.width.Width.TheVariants.{F64};

use crate::candidates::nearest;
use crate::scaled::{exponent, halves_at, power_at, significand};
use crate::width::Width;
use vortex_logical::keys::{f64_of_key, key_of_f64};

/// A decimal: `digits` times 10 to the power `power` less 400.
#[derive(Clone, Copy, Debug, PartialEq, Eq)]
pub struct FirstDigits {
    pub digits: u64,
    pub power: u64,
}

/// Whether an integer stands for a float of 64 bits.
pub fn is_float(number: i64) -> bool
    ensures { result ≡ specs.is_float number }
{
    key_of_f64(f64_of_key(number)) == number
}

/// How many digits a number has after its first 15.
fn after_fifteen(number: u128) -> u32
    requires { number < 10000000000000000000000000 }
    ensures value { result ≡ specs.after_fifteen number }
    ensures all { number < 10 ^ (15 + result) }
    ensures few { result ≤ 10 }
{
    let mut limit = 1_000_000_000_000_000u128;
    for place in 0..10 {
        if number < limit {
            return place;
        }
        limit *= 10;
    }
    10
}

/// The decimal nearest to half a number, so many of its last digits left out.
#[tactic(auto, using(crate::proofs::Fifteen::nearest_small))]
fn fifteen(halves: u128, place: u32) -> u64
    requires { (place ≤ 10) × (halves / 2 < 10 ^ (15 + place)) }
    ensures value { result ≡ candidates.nearest halves place }
    ensures small { result ≤ 1000000000000000 }
{
    nearest(halves, place) as u64
}

fn leading_of(size: u64) -> FirstDigits
    requires { size < infinity F64 }
    ensures value { result ≡ specs.leading_of size }
    ensures small { result.digits ≤ 1000000000000000 }
{
    let exponent = exponent(Width::F64, size);
    let halves = halves_at(significand(Width::F64, size), exponent);
    let place = after_fifteen(halves / 2);
    FirstDigits {
        digits: fifteen(halves, place),
        power: power_at(exponent) + place as u64,
    }
}

/// The first 15 significant digits of the float of that pattern, to the nearest, from halfway the
/// even one. None of the infinity and of a NaN.
pub fn leading(size: u64) -> Option<FirstDigits>
    ensures value { result ≡ specs.leading size }
    ensures small { IfSome result (λ l. l.digits ≤ 1000000000000000) }
{
    if size < Width::F64.infinity() {
        Some(leading_of(size))
    } else {
        None
    }
}
