//! Floats without a fraction as integers of 64 bits.
ghost use Rattle.std.specs.Prelude.{◌≡◌};
ghost use Rattle.vortex_sql_floats.specs.WholeFloats.{signed_in, unsigned_in, has_sign_bits};
ghost use Rattle.vortex_sql_floats.specs.WholeFloats.{has_bits};

use std::num::{saturating_f64_to_i64, saturating_f64_to_u64};

fn has_sign_bits(float: f64) -> bool
    ensures { result ≡ has_sign_bits float }
{
    -9223372036854775808.0 <= float && float < 9223372036854775808.0
}

fn has_bits(float: f64) -> bool
    ensures { result ≡ has_bits float }
{
    0.0 <= float && float < 18446744073709551616.0
}

/// The integer of a float without a fraction, if 64 bits have it with a sign.
pub fn signed_in(float: f64) -> Option<i128>
    ensures { result ≡ signed_in float }
{
    if has_sign_bits(float) {
        Some(i128::from(saturating_f64_to_i64(float)))
    } else {
        None
    }
}

/// The same, if 64 bits have it without a sign.
pub fn unsigned_in(float: f64) -> Option<i128>
    ensures { result ≡ unsigned_in float }
{
    if has_bits(float) {
        Some(i128::from(saturating_f64_to_u64(float)))
    } else {
        None
    }
}
