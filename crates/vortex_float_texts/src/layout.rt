//! How the digits of a decimal are laid out.
ghost use Rattle.std.specs.Prelude.{◌≡◌, ◌++◌, ◌≤◌, ◌<◌, IfOk, length, replicate};
ghost use Rattle.vortex_float_texts.specs.Layout as specs;

use crate::width::Width;
use itoa::Buffer;
use std::alloc::AllocError;

fn put_zeros(count: u64, out: &mut Vec<u8>) -> Result<(), AllocError>
    ensures { IfOk result (λ _. out.new.items ≡ out.old.items ++ replicate count 48) }
{
    for zero in 0..count {
        out.push(b'0')?;
    }
    Ok(())
}

/// As 1200.0.
fn put_whole(digits: &[u8], zeros: u64, out: &mut Vec<u8>) -> Result<(), AllocError>
    ensures { IfOk result
        (λ _. out.new.items ≡ out.old.items ++ specs.whole_text digits.now zeros) }
{
    out.extend_from_slice(digits)?;
    put_zeros(zeros, out)?;
    out.extend_from_slice(b".0")
}

/// As 12.5.
fn put_split(digits: &[u8], place: u64, out: &mut Vec<u8>) -> Result<(), AllocError>
    requires { place ≤ length digits.now }
    ensures { IfOk result
        (λ _. out.new.items ≡ out.old.items ++ specs.split_text digits.now place) }
{
    out.extend_from_slice(&digits[..place as usize])?;
    out.push(b'.')?;
    out.extend_from_slice(&digits[place as usize..])
}

/// As 0.00125.
fn put_small(digits: &[u8], zeros: u64, out: &mut Vec<u8>) -> Result<(), AllocError>
    ensures { IfOk result
        (λ _. out.new.items ≡ out.old.items ++ specs.small_text digits.now zeros) }
{
    out.extend_from_slice(b"0.")?;
    put_zeros(zeros, out)?;
    out.extend_from_slice(digits)
}

fn put_fraction(digits: &[u8], out: &mut Vec<u8>) -> Result<(), AllocError>
    ensures { IfOk result (λ _. out.new.items ≡ out.old.items ++ specs.fraction digits.now) }
{
    if digits.is_empty() {
        return Ok(());
    }
    out.push(b'.')?;
    out.extend_from_slice(digits)
}

/// As e20 and e-7.
fn put_exponent(point: u64, out: &mut Vec<u8>) -> Result<(), AllocError>
    ensures { IfOk result (λ _. out.new.items ≡ out.old.items ++ specs.exponent_text point) }
{
    let mut buffer = Buffer::new();
    if point < 401 {
        out.extend_from_slice(b"e-")?;
        out.extend_from_slice(buffer.format(401 - point).as_bytes())
    } else {
        out.extend_from_slice(b"e")?;
        out.extend_from_slice(buffer.format(point - 401).as_bytes())
    }
}

/// As 1.25e20.
fn put_scientific(digits: &[u8], point: u64, out: &mut Vec<u8>) -> Result<(), AllocError>
    ensures { IfOk result
        (λ _. out.new.items ≡ out.old.items ++ specs.scientific_text digits.now point) }
{
    match digits {
        [] => Ok(()),
        [first, rest @ ..] => {
            out.push(*first)?;
            put_fraction(rest, out)?;
            put_exponent(point, out)
        }
    }
}

fn put_laid_out(
    width: Width,
    digits: &[u8],
    power: u64,
    out: &mut Vec<u8>,
) -> Result<(), AllocError>
    requires { (length digits.now ≤ 40) × (power ≤ 1000) }
    ensures { IfOk result
        (λ _. out.new.items ≡ out.old.items ++ specs.laid_out width digits.now power) }
{
    let point = digits.len() as u64 + power;
    if point <= 400 + width.whole_digits() {
        if 400 <= power {
            put_whole(digits, power - 400, out)
        } else if 400 < point {
            put_split(digits, point - 400, out)
        } else if 400 <= point + width.leading_zeros() {
            put_small(digits, 400 - point, out)
        } else {
            put_scientific(digits, point, out)
        }
    } else {
        put_scientific(digits, point, out)
    }
}

/// Appends the text of a decimal: a number times 10 to the power `power` less 400.
pub(crate) fn put_decimal(
    width: Width,
    number: u128,
    power: u64,
    out: &mut Vec<u8>,
) -> Result<(), AllocError>
    requires { power ≤ 1000 }
    ensures { IfOk result
        (λ _. out.new.items ≡ out.old.items ++ specs.decimal_text width number power) }
{
    let mut buffer = Buffer::new();
    put_laid_out(width, buffer.format(number).as_bytes(), power, out)
}
