//! Values of one kind as those of the kind in which they meet another. `decimals::rescale` has the
//! digits of a decimal.
ghost use Rattle.std.specs.Prelude.{◌≡◌, IfOk};
ghost use Rattle.std.specs.Float.{binary64};
ghost use Rattle.vortex_logical.specs.DecimalTexts.{decimal_text};
ghost use Rattle.vortex_logical.specs.Cells.{key_of_text};
ghost use Rattle.vortex_logical.specs.MeetingLaws.{CommonDigitsOrder, CommonDigitsHold, wide_key};
ghost use Rattle.vortex_logical.specs.MeetingLaws.{WideKeysAreOrdered};

use crate::cells::read_f64;
use crate::decimals::write_decimal;
use crate::digits::DecimalDigits;
use crate::keys::{f32_of_key, key_of_f64};
use std::alloc::{AllocError, Global};
use std::num::f64_from_bits_with_nan;

/// The same float of 64 bits.
fn same_float(float: f32) -> f64
    ensures { result ≡ float }
{
    if float != float {
        f64_from_bits_with_nan(9221120237041090560)
    } else {
        float as f64
    }
}

/// The integer of the same float of 64 bits.
pub fn widen_key(key: i32) -> i64
    ensures { result ≡ wide_key key }
{
    key_of_f64(same_float(f32_of_key(key)))
}

/// The integer of the float nearest to a decimal, rounded once. Refused only for want of memory.
pub fn key_of_decimal(
    alloc: Global,
    digits: DecimalDigits,
    number: i64,
) -> Result<Option<i64>, AllocError>
    ensures { IfOk result
        (λ key. key ≡ key_of_text binary64 (decimal_text digits.scale number)) }
{
    let mut text = Vec::new(alloc);
    write_decimal(digits, number, &mut text)?;
    Ok(read_f64(text.as_slice()))
}

/// Two decimals with the digits in which they meet compare as their integers.
pub fn common_digits_order()
    ensures { CommonDigitsOrder }
{}

/// Where 18 digits are enough for two decimals, each has an integer with the digits in which they
/// meet.
pub fn common_digits_hold()
    ensures { CommonDigitsHold }
{}

/// Floats of 32 bits are in the order of the same floats of 64 bits.
pub fn wide_keys_are_ordered()
    ensures { WideKeysAreOrdered }
{}
