//! Floats as stored integers in the order of PostgreSQL: a NaN equals a NaN and is the greatest,
//! and -0 equals 0. So what compares, sorts and looks up integers serves floats.
ghost use Rattle.std.specs.Prelude.{◌≡◌};
ghost use Rattle.std.specs.Float.{binary32, binary64};
ghost use Rattle.vortex_logical.specs.FloatKeys.{key_of_float, float_of_key, KeysAreOrdered};
ghost use Rattle.vortex_logical.specs.FloatKeys.{KeysAreReadBack};

use std::num::{
    f32_from_bits_with_nan, f32_to_bits_with_nan, f64_from_bits_with_nan, f64_to_bits_with_nan,
};

/// The integer that stands for a float.
pub fn key_of_f64(float: f64) -> i64
    ensures { result ≡ key_of_float binary64 float }
{
    let bits = f64_to_bits_with_nan(float);
    if 9223372036854775808 <= bits {
        -((bits - 9223372036854775808) as i64)
    } else {
        bits as i64
    }
}

/// The float that an integer stands for.
pub fn f64_of_key(key: i64) -> f64
    ensures { result ≡ float_of_key binary64 key }
{
    let size = key.unsigned_abs();
    if key < 0 {
        f64_from_bits_with_nan(size.wrapping_add(9223372036854775808))
    } else {
        f64_from_bits_with_nan(size)
    }
}

/// The integer that stands for a float of 32 bits.
pub fn key_of_f32(float: f32) -> i32
    ensures { result ≡ key_of_float binary32 float }
{
    let bits = f32_to_bits_with_nan(float);
    if 2147483648 <= bits {
        -((bits - 2147483648) as i32)
    } else {
        bits as i32
    }
}

/// The float of 32 bits that an integer stands for.
pub fn f32_of_key(key: i32) -> f32
    ensures { result ≡ float_of_key binary32 key }
{
    let size = key.unsigned_abs();
    if key < 0 {
        f32_from_bits_with_nan(size.wrapping_add(2147483648))
    } else {
        f32_from_bits_with_nan(size)
    }
}

/// The order of the integers is the order of the floats.
pub fn keys_are_ordered()
    ensures { KeysAreOrdered }
{}

/// The integer of a float is read back as an equal float: as the float itself, but -0 as 0.
pub fn keys_are_read_back()
    ensures { KeysAreReadBack }
{}
