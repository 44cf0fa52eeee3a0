//! Which of 64 floats are less than others or equal to them, by the processor's comparison of
//! floats: in the order of floats where none is a NaN.
ghost use Rattle.std.specs.Prelude.{◌≡◌, ◌<◌, ◌^◌, ℕ, IfSome, false, is_nan, length, pos};
ghost use Rattle.std.specs.Prelude.{slice_index_or, true};
ghost use Rattle.std.specs.Float.{float_zero};
ghost use Rattle.std.specs.Ordering.{int_cmp, nan_last_cmp};
ghost use Rattle.vortex_bits.specs.Bits.{bit};
ghost use Rattle.vortex_operators.specs.OperatorValues.{holds};
ghost use Rattle.vortex_float_bits.specs.FloatBits.{float_of, wide_key};
ghost use lib.Ieee.{eq, lt};

use std::cmp::Ordering;
use std::simd::prelude::*;
use vortex_float_bits::{is_nan, turn_wide, wide_key};
use vortex_kernels::comparisons::Comparison;
use vortex_logical::keys::keys_are_ordered;

/// Whether one of 64 patterns is a NaN's.
#[inline(always)]
fn has_nan(patterns: &[i64]) -> bool
    requires { length patterns.now ≡ 64 }
    ensures { result ≡ false → (j : ℕ) → j < 64
        → is_nan (float_of (slice_index_or patterns.now j (pos 0))) ≡ false }
{
    let mut has = false;
    for j in 0..64 {
        has |= is_nan(patterns[j]);
    }
    has
}

/// The float of a pattern.
fn wide_float(pattern: i64) -> f64
    requires { is_nan (float_of pattern) ≡ false }
    ensures { result ≡ float_of pattern }
{
    f64::from_bits(pattern.cast_unsigned())
}

/// The floats of 64 patterns.
#[inline(always)]
fn floats_of(patterns: &[i64]) -> [f64; 64]
    requires count { length patterns.now ≡ 64 }
    requires numbers { (j : ℕ) → j < 64
        → is_nan (float_of (slice_index_or patterns.now j (pos 0))) ≡ false }
    ensures count { length result ≡ 64 }
    ensures each { (j : ℕ) → j < 64 → slice_index_or result j float_zero
        ≡ float_of (slice_index_or patterns.now j (pos 0)) }
{
    let mut floats = [0.0; 64];
    for j in 0..64 {
        floats[j] = wide_float(patterns[j]);
    }
    floats
}

/// One float in 64 places.
#[inline(always)]
fn repeated(float: f64) -> [f64; 64]
    ensures count { length result ≡ 64 }
    ensures each { (j : ℕ) → j < 64 → slice_index_or result j float_zero ≡ float }
{
    [float; 64]
}

/// Whether the key of this pattern is that one.
fn is_key_of(pattern: i64, key: i64) -> bool
    ensures { result ≡ true → wide_key pattern ≡ key }
{
    wide_key(pattern) == key
}

/// Which of 32 floats are less than those at the same index.
#[inline(always)]
fn less_half(left: &[f64], right: &[f64]) -> u64
    requires left { length left.now ≡ 32 }
    requires right { length right.now ≡ 32 }
    ensures size { result < 2 ^ 32 }
    ensures each { (j : ℕ) → j < 32 → bit result j
        ≡ lt (slice_index_or left.now j float_zero) (slice_index_or right.now j float_zero) }
{
    f64x32::from_slice(left)
        .simd_lt(f64x32::from_slice(right))
        .cast::<i8>()
        .to_bitmask()
}

/// Which of 32 floats equal those at the same index.
#[inline(always)]
fn equal_half(left: &[f64], right: &[f64]) -> u64
    requires left { length left.now ≡ 32 }
    requires right { length right.now ≡ 32 }
    ensures size { result < 2 ^ 32 }
    ensures each { (j : ℕ) → j < 32 → bit result j
        ≡ eq (slice_index_or left.now j float_zero) (slice_index_or right.now j float_zero) }
{
    f64x32::from_slice(left)
        .simd_eq(f64x32::from_slice(right))
        .cast::<i8>()
        .to_bitmask()
}

/// Which of 64 floats are less than those at the same index, the first as the least significant
/// bit.
#[inline(always)]
fn less_word(left: &[f64], right: &[f64]) -> u64
    requires left { length left.now ≡ 64 }
    requires right { length right.now ≡ 64 }
    ensures { (j : ℕ) → j < 64 → bit result j
        ≡ lt (slice_index_or left.now j float_zero) (slice_index_or right.now j float_zero) }
{
    let low = less_half(&left[..32], &right[..32]);
    let high = less_half(&left[32..], &right[32..]);
    low | (high << 32)
}

/// Which of them are equal.
#[inline(always)]
fn equal_word(left: &[f64], right: &[f64]) -> u64
    requires left { length left.now ≡ 64 }
    requires right { length right.now ≡ 64 }
    ensures { (j : ℕ) → j < 64 → bit result j
        ≡ eq (slice_index_or left.now j float_zero) (slice_index_or right.now j float_zero) }
{
    let low = equal_half(&left[..32], &right[..32]);
    let high = equal_half(&left[32..], &right[32..]);
    low | (high << 32)
}

/// For which of 64 floats that are no NaN the comparison with those at the same index is true.
#[inline(always)]
fn floats_hold<P: Comparison>(left: &[f64], right: &[f64]) -> u64
    requires left { length left.now ≡ 64 }
    requires right { length right.now ≡ 64 }
    requires left_numbers { (j : ℕ) → j < 64
        → is_nan (slice_index_or left.now j float_zero) ≡ false }
    requires right_numbers { (j : ℕ) → j < 64
        → is_nan (slice_index_or right.now j float_zero) ≡ false }
    ensures { (j : ℕ) → j < 64 → bit result j ≡ holds P.operator (nan_last_cmp
        (slice_index_or left.now j float_zero) (slice_index_or right.now j float_zero)) }
{
    if P::holds(Ordering::Equal) {
        if P::holds(Ordering::Less) {
            return !less_word(right, left);
        }
        if P::holds(Ordering::Greater) {
            return !less_word(left, right);
        }
        return equal_word(left, right);
    }
    if P::holds(Ordering::Less) {
        if P::holds(Ordering::Greater) {
            return !equal_word(left, right);
        }
        return less_word(left, right);
    }
    less_word(right, left)
}

/// For which of 64 pairs of patterns the comparison of their keys is true, the first as the least
/// significant bit. None where one is a NaN's.
#[inline(always)]
pub(crate) fn patterns_hold<P: Comparison>(left: &[i64], right: &[i64]) -> Option<u64>
    requires left { length left.now ≡ 64 }
    requires right { length right.now ≡ 64 }
    ensures { IfSome result (λ word. (j : ℕ) → j < 64 → bit word j ≡ holds P.operator (int_cmp
        (wide_key (slice_index_or left.now j (pos 0)))
        (wide_key (slice_index_or right.now j (pos 0))))) }
{
    keys_are_ordered();
    if has_nan(left) {
        return None;
    }
    if has_nan(right) {
        return None;
    }
    Some(floats_hold::<P>(&floats_of(left), &floats_of(right)))
}

/// The same with one key on the right. None where it is no key of a number, too.
#[inline(always)]
pub(crate) fn patterns_hold_with<P: Comparison>(left: &[i64], key: i64) -> Option<u64>
    requires { length left.now ≡ 64 }
    ensures { IfSome result (λ word. (j : ℕ) → j < 64 → bit word j ≡ holds P.operator
        (int_cmp (wide_key (slice_index_or left.now j (pos 0))) key)) }
{
    keys_are_ordered();
    if has_nan(left) {
        return None;
    }
    let right = turn_wide(key);
    if is_nan(right) {
        return None;
    }
    if !is_key_of(right, key) {
        return None;
    }
    Some(floats_hold::<P>(&floats_of(left), &repeated(wide_float(right))))
}
