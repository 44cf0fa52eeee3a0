//! Cells: texts of each kind, read as the integers that stand for them, and written.
ghost use Rattle.std.specs.Prelude.{◌≡◌, IfOk, IfSome, MatchOption, FitsSigned};
ghost use Rattle.std.specs.Int.{w32};
ghost use Rattle.std.specs.Ordering.{int_eq};
ghost use Rattle.vortex_logical.specs.FloatKeys.{key_of_float, float_of_key};
ghost use Rattle.std.specs.Float.{binary32, binary64};
ghost use Rattle.vortex_logical.specs.Written.{Appends};
ghost use Rattle.vortex_logical.specs.Cells.{key_of_text, stored_of_text, IsStored, IsCellText};
ghost use Rattle.vortex_logical.specs.Cells.{WritesCell};
ghost use Rattle.vortex_logical.specs.Cells.{IsKey, CellsAreReadBack};

use crate::dates::{read_date, widened, write_date};
use crate::decimals::{read_decimal, within_digits, write_decimal};
use crate::digits::DecimalDigits;
use crate::keys::{f32_of_key, f64_of_key, key_of_f32, key_of_f64};
use crate::kind::Kind;
use crate::timestamps::{read_timestamp, write_timestamp};
use std::alloc::AllocError;

pub(crate) fn read_f64(text: &[u8]) -> Option<i64>
    ensures value { result ≡ key_of_text binary64 text.now }
    ensures key { IfSome result (IsKey binary64) }
{
    match fast_float::parse::<f64, &[u8]>(text) {
        Ok(float) => Some(key_of_f64(float)),
        Err(_) => None,
    }
}

fn read_f32(text: &[u8]) -> Option<i32>
    ensures value { result ≡ key_of_text binary32 text.now }
    ensures key { IfSome result (IsKey binary32) }
{
    match fast_float::parse::<f32, &[u8]>(text) {
        Ok(float) => Some(key_of_f32(float)),
        Err(_) => None,
    }
}

/// The integer that a column of the kind stores for a text. None of a text that is none of the
/// kind, and of every text for a plain column, which has its own.
///
/// A date is `YYYY-MM-DD`. A timestamp is a date, `T` or a blank, `HH:MM:SS`, up to six digits
/// after a point if it has one, and `Z` or an offset if it has one. A decimal is digits with a sign
/// and a point or without, with no more after the point than its scale, and no more in all than its
/// precision. A float is a decimal number with an exponent or without, `nan`, `inf` or `infinity`.
pub fn read_cell(kind: Kind, text: &[u8]) -> Option<i64>
    ensures value { result ≡ stored_of_text kind text.now }
    ensures stored { IfSome result (IsStored kind) }
{
    match kind {
        Kind::Plain => None,
        Kind::Date => Some(widened(read_date(text)?)),
        Kind::Timestamp => read_timestamp(text),
        Kind::Decimal(digits) => read_decimal(digits, text),
        Kind::F64 => read_f64(text),
        Kind::F32 => Some(widened(read_f32(text)?)),
    }
}

fn narrowed(number: i64) -> Option<i32>
    ensures { MatchOption result (¬ FitsSigned w32 number) (λ n. n ≡ number) }
{
    if -2147483648 <= number && number <= 2147483647 {
        Some(number as i32)
    } else {
        None
    }
}

fn write_day(number: i64, out: &mut Vec<u8>) -> Result<bool, AllocError>
    ensures { IfOk result (WritesCell Kind.Date number out.old.items out.new.items) }
{
    match narrowed(number) {
        Some(day) => write_date(day, out),
        None => Ok(false),
    }
}

fn write_instant(number: i64, out: &mut Vec<u8>) -> Result<bool, AllocError>
    ensures { IfOk result (WritesCell Kind.Timestamp number out.old.items out.new.items) }
{
    write_timestamp(number, out)
}

fn write_digits(digits: DecimalDigits, number: i64, out: &mut Vec<u8>) -> Result<bool, AllocError>
    ensures { IfOk result
        (WritesCell (Kind.Decimal digits) number out.old.items out.new.items) }
{
    if within_digits(number as i128, digits).is_none() {
        return Ok(false);
    }
    write_decimal(digits, number, out)?;
    Ok(true)
}

fn write_f64(key: i64, out: &mut Vec<u8>) -> Result<(), AllocError>
    ensures { IfOk result
        (λ _. Appends (IsCellText Kind.F64 key) out.old.items out.new.items) }
{
    let mut buffer = ryu::Buffer::new();
    out.extend_from_slice(buffer.format(f64_of_key(key)).as_bytes())?;
    Ok(())
}

fn write_f32(key: i32, out: &mut Vec<u8>) -> Result<(), AllocError>
    ensures { IfOk result
        (λ _. Appends (IsCellText Kind.F32 key) out.old.items out.new.items) }
{
    let mut buffer = ryu::Buffer::new();
    out.extend_from_slice(buffer.format(f32_of_key(key)).as_bytes())?;
    Ok(())
}

/// Whether an integer stands for a float of 64 bits.
fn is_f64_key(key: i64) -> bool
    ensures { result ≡ int_eq (key_of_float binary64 (float_of_key binary64 key)) key }
{
    key_of_f64(f64_of_key(key)) == key
}

/// Whether an integer stands for a float of 32 bits.
fn is_f32_key(key: i32) -> bool
    ensures { result ≡ int_eq (key_of_float binary32 (float_of_key binary32 key)) key }
{
    key_of_f32(f32_of_key(key)) == key
}

fn write_wide(key: i64, out: &mut Vec<u8>) -> Result<bool, AllocError>
    ensures { IfOk result (WritesCell Kind.F64 key out.old.items out.new.items) }
{
    if !is_f64_key(key) {
        return Ok(false);
    }
    write_f64(key, out)?;
    Ok(true)
}

fn write_short(key: i32, out: &mut Vec<u8>) -> Result<bool, AllocError>
    ensures { IfOk result (WritesCell Kind.F32 key out.old.items out.new.items) }
{
    if !is_f32_key(key) {
        return Ok(false);
    }
    write_f32(key, out)?;
    Ok(true)
}

fn write_narrow(key: i64, out: &mut Vec<u8>) -> Result<bool, AllocError>
    ensures { IfOk result (WritesCell Kind.F32 key out.old.items out.new.items) }
{
    match narrowed(key) {
        Some(narrow) => write_short(narrow, out),
        None => Ok(false),
    }
}

/// Appends the text of a stored integer, which is read back as the same integer; false, and
/// nothing, exactly where it stands for no value of the kind that has a text. A float is written in digits
/// that are read back as the float. Refused only for want of memory, and then part of the text may
/// stand.
pub fn write_cell(kind: Kind, number: i64, out: &mut Vec<u8>) -> Result<bool, AllocError>
    ensures { IfOk result (WritesCell kind number out.old.items out.new.items) }
{
    match kind {
        Kind::Plain => Ok(false),
        Kind::Date => write_day(number, out),
        Kind::Timestamp => write_instant(number, out),
        Kind::Decimal(digits) => write_digits(digits, number, out),
        Kind::F64 => write_wide(number, out),
        Kind::F32 => write_narrow(number, out),
    }
}

/// What is written of a stored value is read back as the same integer.
pub fn cells_are_read_back()
    ensures { CellsAreReadBack }
{}
