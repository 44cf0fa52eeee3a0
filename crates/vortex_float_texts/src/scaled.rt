//! The size of a float over a power of ten below its last bit.
ghost use Rattle.std.specs.Prelude.{◌≡◌, ◌*◌, ◌/◌, ◌%◌, ◌^◌, ◌<◌, ◌≤◌};
ghost use Rattle.vortex_float_texts.specs.Scaled as specs;
ghost use Rattle.vortex_float_texts.specs.Widths.{infinity};

use crate::width::Width;
use fast_float::power_of_ten;

/// The significand of a pattern.
pub(crate) fn significand(width: Width, size: u64) -> u64
    ensures { result ≡ specs.significand width size }
{
    let hidden = width.hidden();
    let rest = size % hidden;
    if size < hidden { rest } else { hidden + rest }
}

/// Its exponent.
pub(crate) fn exponent(width: Width, size: u64) -> u64
    requires { size < infinity width }
    ensures value { result ≡ specs.exponent width size }
    ensures small { result ≤ 2045 }
{
    width.least() + (size / width.hidden()).saturating_sub(1)
}

/// The power of ten, and 400.
pub(crate) fn power_at(exponent: u64) -> u64
    requires { exponent ≤ 2045 }
    ensures value { result ≡ specs.power_at exponent }
    ensures range { (75 ≤ result) × (result ≤ 691) }
{
    ((exponent * 315_653 + 78_322_000) / 1_048_576).max(75)
}

/// The power of ten as 128 bits.
fn row_at(index: u64) -> u128
    requires { index < 668 }
    ensures { result ≡ specs.row_at index }
{
    power_of_ten(index)
}

/// The product without its last 64 bits, and these.
fn product(row: u128, by: u64) -> (u128, u64)
    ensures { (result.0 ≡ row * by / 18446744073709551616)
        × (result.1 ≡ row * by % 18446744073709551616) }
{
    let by = by as u128;
    let low = (row % 18_446_744_073_709_551_616) * by;
    let high = (row / 18_446_744_073_709_551_616) * by;
    (
        high + low / 18_446_744_073_709_551_616,
        (low % 18_446_744_073_709_551_616) as u64,
    )
}

#[tactic(auto, using(crate::proofs::Powers::two_bound, crate::proofs::Powers::two_least))]
fn two_to(power: u32) -> u128
    requires { (46 ≤ power) × (power ≤ 126) }
    ensures value { result ≡ 2 ^ power }
    ensures least { 70368744177664 ≤ result }
{
    2u128.pow(power)
}

#[tactic(auto, using(crate::proofs::Halves::front_small))]
fn over(high: u128, unit: u128) -> u128
    requires { 70368744177664 ≤ unit }
    ensures value { result ≡ high / unit }
    ensures small { result < 4835703278458516698824704 }
{
    high / unit
}

/// Twice the product without its last bits, and one more where these are not all 0.
#[tactic(auto, using(crate::proofs::Halves::front_is, crate::proofs::Halves::rest_is))]
fn halves(row: u128, by: u64, bits: u64) -> u128
    requires { (110 ≤ bits) × (bits ≤ 190) }
    ensures value { result ≡ specs.halves (row * by) bits }
    ensures small { result < 9671406556917033397649408 }
{
    let (high, low) = product(row, by);
    let unit = two_to((bits - 64) as u32);
    let front = over(high, unit);
    if low == 0 && high % unit == 0 {
        2 * front
    } else {
        2 * front + 1
    }
}

fn bits_at(exponent: u64) -> u64
    requires { exponent ≤ 2045 }
    ensures value { result ≡ specs.bits_at exponent }
    ensures range { (110 ≤ result) × (result ≤ 190) }
{
    let index = 742 - power_at(exponent);
    2340 - exponent - ((index * 217_706 + 58_980) / 65_536 + 2)
}

/// Twice a float over the power of ten, and one more where that is not whole.
pub(crate) fn halves_at(significand: u64, exponent: u64) -> u128
    requires { exponent ≤ 2045 }
    ensures value { result ≡ specs.halves_at significand exponent }
    ensures small { result < 9671406556917033397649408 }
{
    let row = row_at(742 - power_at(exponent));
    halves(row, significand, bits_at(exponent))
}
