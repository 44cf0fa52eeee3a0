//! What the bits of a float say, and its key, by integers alone. A float's own comparisons would
//! keep the loops that call these from becoming vectors.
#![tactic(auto)]

ghost use Rattle.std.specs.Prelude.{◌≡◌, ◌%◌, pos, from_bits, is_nan};
ghost use Rattle.std.specs.Float.{binary32, binary64, float_is_finite, float_is_infinite};
ghost use Rattle.std.specs.Int.{w32, w64, cast_unsigned};
ghost use Rattle.vortex_logical.specs.FloatKeys.{sign_weight};
ghost use Rattle.vortex_float_bits.specs.FloatBits.{turned, float_of, is_zero};
ghost use Rattle.vortex_float_bits.specs.FloatBits.{wide_key, narrow_key};
ghost use Rattle.vortex_float_bits.specs.FloatBits.{wide_pattern, narrow_pattern};

const WIDE_INFINITY: i64 = 0x7ff0_0000_0000_0000;

const NARROW_INFINITY: i32 = 0x7f80_0000;

/// The key of a NaN of 64 bits, and the pattern that is made of it.
pub const WIDE_NAN: i64 = 0x7ff8_0000_0000_0000;

const NARROW_NAN: i32 = 0x7fc0_0000;

/// The bits of a pattern below the sign's.
fn wide_size(pattern: i64) -> i64
    ensures { result ≡ pos (cast_unsigned w64 pattern % sign_weight binary64) }
{
    if pattern < 0 {
        pattern - i64::MIN
    } else {
        pattern
    }
}

/// The same of 32 bits.
fn narrow_size(pattern: i32) -> i32
    ensures { result ≡ pos (cast_unsigned w32 pattern % sign_weight binary32) }
{
    if pattern < 0 {
        pattern - i32::MIN
    } else {
        pattern
    }
}

/// Whether the float of this pattern is a NaN.
pub fn is_nan(pattern: i64) -> bool
    ensures { result ≡ is_nan (float_of pattern) }
{
    WIDE_INFINITY < wide_size(pattern)
}

/// Whether it is neither a NaN nor infinite.
pub fn is_finite(pattern: i64) -> bool
    ensures { result ≡ float_is_finite (float_of pattern) }
{
    wide_size(pattern) < WIDE_INFINITY
}

/// Whether it is infinite.
pub fn is_infinite(pattern: i64) -> bool
    ensures { result ≡ float_is_infinite (float_of pattern) }
{
    wide_size(pattern) == WIDE_INFINITY
}

/// Whether it is 0 or -0.
pub fn is_zero(pattern: i64) -> bool
    ensures { result ≡ is_zero (float_of pattern) }
{
    wide_size(pattern) == 0
}

/// The key for the pattern of a float that is no NaN, and the pattern for the key.
pub fn turn_wide(from: i64) -> i64
    ensures { result ≡ turned binary64 from }
{
    if from < 0 { i64::MIN - from } else { from }
}

/// The same of 32 bits.
fn turn_narrow(from: i32) -> i32
    ensures { result ≡ turned binary32 from }
{
    if from < 0 { i32::MIN - from } else { from }
}

/// The key of the float of 64 bits that has this pattern.
pub fn wide_key(pattern: i64) -> i64
    ensures { result ≡ wide_key pattern }
{
    if WIDE_INFINITY < wide_size(pattern) {
        WIDE_NAN
    } else {
        turn_wide(pattern)
    }
}

/// The pattern of the float of 64 bits that has this key.
pub fn wide_pattern(key: i64) -> i64
    ensures { result ≡ wide_pattern key }
{
    let pattern = turn_wide(key);
    if WIDE_INFINITY < wide_size(pattern) {
        WIDE_NAN
    } else {
        pattern
    }
}

/// The key of the float of 32 bits that has this pattern.
pub fn narrow_key(pattern: i32) -> i32
    ensures { result ≡ narrow_key pattern }
{
    if NARROW_INFINITY < narrow_size(pattern) {
        NARROW_NAN
    } else {
        turn_narrow(pattern)
    }
}

/// The pattern of the float of 32 bits that has this key.
pub fn narrow_pattern(key: i32) -> i32
    ensures { result ≡ narrow_pattern key }
{
    let pattern = turn_narrow(key);
    if NARROW_INFINITY < narrow_size(pattern) {
        NARROW_NAN
    } else {
        pattern
    }
}
