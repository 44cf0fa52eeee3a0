//! Decimals: integers at a scale, their texts, their order, and the same number at another scale.
ghost use Rattle.std.specs.Prelude.{◌≡◌, ◌≤◌, ◌<◌, ◌^◌, ◌++◌, IfOk, IfSome, pos, neg_ℤ};
ghost use Rattle.std.specs.Prelude.{drop, length};
ghost use Rattle.std.specs.Int.{IsInRange};
ghost use Rattle.vortex_logical.specs.Decimals.{shifted, decimal_cmp, HasDigits, within_digits};
ghost use Rattle.vortex_logical.specs.Decimals.{rescaled};
ghost use Rattle.vortex_logical.specs.Decimals.{RescalingKeeps, RescalingOrders};
ghost use Rattle.vortex_logical.specs.DecimalTexts.{magnitude_of_text, decimal_of_text};
ghost use Rattle.vortex_logical.specs.DecimalTexts.{magnitude_text, last_digits, decimal_text};
ghost use Rattle.vortex_logical.specs.DecimalTexts.{DecimalsAreReadBack};

use crate::digits::DecimalDigits;
use itoa::Buffer;
use std::alloc::AllocError;
use std::cmp::Ordering;

/// 10 to the power `k`.
#[tactic(auto, using(crate::proofs::DecimalLaws::ten_fits))]
fn power(k: u32) -> i64
    requires { k ≤ 18 }
    ensures { result ≡ pos (10 ^ k) }
{
    10i64.pow(k)
}

/// The same without a sign.
#[tactic(auto, using(crate::proofs::DecimalLaws::ten_between))]
pub(crate) fn power_u64(k: u32) -> u64
    requires { k ≤ 18 }
    ensures value { result ≡ 10 ^ k }
    ensures range { IsInRange 1 1000000000000000000 result }
{
    power(k) as u64
}

/// The product with 10 to the power `k`, in twice the bits.
fn shifted_wide(number: i64, k: u32) -> i128
    requires { k ≤ 18 }
    ensures { result ≡ shifted number k }
{
    number as i128 * power(k) as i128
}

/// The order of two decimals, each at its scale, exactly.
pub fn compare(
    left: i64,
    left_digits: DecimalDigits,
    right: i64,
    right_digits: DecimalDigits,
) -> Ordering
    ensures { result ≡ decimal_cmp left left_digits.scale right right_digits.scale }
{
    shifted_wide(left, right_digits.scale()).cmp(&shifted_wide(right, left_digits.scale()))
}

/// The integer, if it has at most so many digits.
pub fn within_digits(number: i128, digits: DecimalDigits) -> Option<i64>
    ensures { result ≡ within_digits digits.precision number }
{
    if number.unsigned_abs() < power_u64(digits.precision()) as u128 {
        Some(number as i64)
    } else {
        None
    }
}

/// The same number with no fewer digits after the point; none where it has too many digits there.
pub fn rescale(number: i64, from: DecimalDigits, to: DecimalDigits) -> Option<i64>
    requires { from.scale ≤ to.scale }
    ensures { result ≡ rescaled from to number }
{
    within_digits(shifted_wide(number, to.scale() - from.scale()), to)
}

/// A decimal rescaled is the same number.
#[tactic(auto, using(crate::proofs::DecimalLaws::keeps))]
pub fn rescaling_keeps()
    ensures { RescalingKeeps }
{}

/// Decimals at one scale compare as their integers.
#[tactic(auto, using(crate::proofs::DecimalLaws::orders))]
pub fn rescaling_orders()
    ensures { RescalingOrders }
{}

fn magnitude_of_text(digits: DecimalDigits, text: &[u8]) -> Option<u64>
    ensures value { result ≡ magnitude_of_text digits text.now }
    ensures small { IfSome result (λ n. n < 1000000000000000000) }
    ensures within { IfSome result (λ n. n < 10 ^ digits.precision) }
{
    if text.is_empty() || text == b".".as_slice() {
        return None;
    }
    let limit = power_u64(digits.precision());
    let mut number = 0u64;
    let mut left = digits.scale();
    let mut seen = false;
    for i in 0..text.len() {
        let byte = text[i];
        if byte == b'.' && !seen {
            seen = true;
        } else {
            if !byte.is_ascii_digit() || (seen && left == 0) {
                return None;
            }
            if seen {
                left -= 1;
            }
            number = number * 10 + (byte - b'0') as u64;
            if number >= limit {
                return None;
            }
        }
    }
    let scaled = number.checked_mul(power_u64(left))?;
    if scaled < limit { Some(scaled) } else { None }
}

fn negated(number: u64) -> i64
    requires { number < 1000000000000000000 }
    ensures { result ≡ neg_ℤ (pos number) }
{
    -(number as i64)
}

fn without_sign(number: u64) -> i64
    requires { number < 1000000000000000000 }
    ensures { result ≡ pos number }
{
    number as i64
}

/// The integer of a text: a sign or none, digits, at most one point among them or beside them, and
/// behind it at most so many digits as stand after the point. None of any other text, and of one
/// with too many digits.
pub fn read_decimal(digits: DecimalDigits, text: &[u8]) -> Option<i64>
    ensures value { result ≡ decimal_of_text digits text.now }
    ensures within { IfSome result (HasDigits digits.precision) }
{
    match text {
        [b'-', rest @ ..] => Some(negated(magnitude_of_text(digits, rest)?)),
        [b'+', rest @ ..] => Some(without_sign(magnitude_of_text(digits, rest)?)),
        _ => Some(without_sign(magnitude_of_text(digits, text)?)),
    }
}

/// Appends the text with all digits after the point, as `12.50`; without a point where none stand
/// there. Refused only for want of memory, and then part of the text may stand.
pub fn write_decimal(
    digits: DecimalDigits,
    number: i64,
    out: &mut Vec<u8>,
) -> Result<(), AllocError>
    ensures { IfOk result
        (λ _. out.new.items ≡ out.old.items ++ decimal_text digits.scale number) }
{
    if number < 0 {
        out.push(b'-')?;
    }
    write_magnitude(digits.scale(), number.unsigned_abs(), out)
}

fn write_magnitude(scale: u32, number: u64, out: &mut Vec<u8>) -> Result<(), AllocError>
    requires { scale ≤ 18 }
    ensures { IfOk result (λ _. out.new.items ≡ out.old.items ++ magnitude_text scale number) }
{
    let power = power_u64(scale);
    let mut whole = Buffer::new();
    out.extend_from_slice(whole.format(number / power).as_bytes())?;
    if scale == 0 {
        return Ok(());
    }
    out.push(b'.')?;
    write_fraction(scale, number % power, out)?;
    Ok(())
}

/// Appends a number below 10 to the power `scale` as so many digits.
pub(crate) fn write_fraction(scale: u32, number: u64, out: &mut Vec<u8>) -> Result<(), AllocError>
    requires few { scale ≤ 18 }
    requires small { number < 10 ^ scale }
    ensures { IfOk result (λ _. out.new.items ≡ out.old.items ++ last_digits scale number) }
{
    let mut marked = Buffer::new();
    let text = marked.format(power_u64(scale) + number).as_bytes();
    out.extend_from_slice(without_first(text))?;
    Ok(())
}

fn without_first(text: &[u8]) -> &[u8]
    requires { 1 ≤ length text.now }
    ensures { result.now ≡ drop 1 text.now }
{
    &text[1..]
}

/// What is written of a decimal is read back.
pub fn decimals_are_read_back()
    ensures { DecimalsAreReadBack }
{}
