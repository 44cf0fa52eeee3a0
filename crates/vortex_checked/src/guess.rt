//! Quotients, estimated in vectors of floats and verified in integers.
//!
//! Contracts say nothing about floats: an estimate may be any number, and a wrong one is detected.
ghost use Rattle.std.specs.Prelude.{◌≡◌, ◌/◌, ◌<◌, length};
ghost use Rattle.std.specs.Bool.{FalseIff};

use crate::arithmetic::CheckedArithmetic;
use std::simd::prelude::*;

/// An integer type whose quotients are estimated 64 at a time.
pub trait GuessedDivision: CheckedArithmetic {
    ghost use Rattle.std.specs.Prelude.{◌≡◌, ◌<◌, false, length, Some};
    ghost use Rattle.vortex_checked.specs.Exact.{IsWithin, quotient};

    /// Estimates of 64 quotients.
    type Guesses: Drop;

    /// Whether estimates are likely to pay off. Affects speed only.
    fn may_serve(lefts: &[Self], rights: &[Self]) -> bool {
        true
    }

    fn guesses(lefts: &[Self], rights: &[Self]) -> Self::Guesses
        requires left { length lefts.now ≡ 64 }
        requires right { length rights.now ≡ 64 };

    /// The quotient, truncated toward zero, from the estimate at an index, and whether that is
    /// wrong. Where it is not, this is the quotient, which the type holds.
    fn by_guess(self, rhs: Self, guesses: &Self::Guesses, i: usize) -> (Self, bool)
        requires { i < 64 }
        ensures exact { result.1 ≡ false
            → Some (Self.number result.0) ≡ quotient (Self.number self) (Self.number rhs) }
        ensures fits { IsWithin Self.least Self.greatest (Self.number result.0) };
}

/// Estimates of four quotients of up to 32 bits, as the low bits of the lanes.
///
/// A little less than a half is subtracted from a quotient, and 1.5 * 2^52 added, which rounds it
/// to a whole number. NaN is replaced by 0.
#[inline(always)]
fn low_bits_64(left: f64x4, right: f64x4) -> u64x4 {
    let less = left / right - f64x4::splat(0.49999904632568359375);
    let sum = less + f64x4::splat(6755399441055744.0);
    let none = f64x4::splat(0.0);
    sum.simd_gt(none).select(sum, none).to_bits()
}

/// The same for up to 16 bits: 1.5 * 2^23 is added, and the quotient is made a little greater
/// before a half is subtracted.
#[inline(always)]
fn low_bits_32(left: f32x4, right: f32x4) -> u32x4 {
    let less = left / right * f32x4::splat(1.000003814697265625) - f32x4::splat(0.5);
    let sum = less + f32x4::splat(12582912.0);
    let none = f32x4::splat(0.0);
    sum.simd_gt(none).select(sum, none).to_bits()
}

/// The sizes of four numbers; the least wraps to itself.
#[inline(always)]
fn sizes_of_32(numbers: i32x4) -> i32x4 {
    let signs = numbers >> i32x4::splat(31);
    (numbers ^ signs) - signs
}

/// The same for 16 bits.
#[inline(always)]
fn sizes_of_16(numbers: i16x4) -> i16x4 {
    let signs = numbers >> i16x4::splat(15);
    (numbers ^ signs) - signs
}

/// The size of a number as a float, where a float holds it exactly.
#[inline(always)]
fn float_of_size(number: i64) -> f64 {
    let size = number.unsigned_abs();
    if size < 0x20_0000_0000_0000 {
        size as i64 as f64
    } else {
        0.0
    }
}

/// The sizes of four numbers.
#[inline(always)]
fn floats_of_64(numbers: &[i64]) -> f64x4
    requires { length numbers.now ≡ 4 }
{
    f64x4::from_array([
        float_of_size(numbers[0]),
        float_of_size(numbers[1]),
        float_of_size(numbers[2]),
        float_of_size(numbers[3]),
    ])
}

/// Whether the number is not the quotient, or there is none.
#[inline(always)]
fn is_off_8(left: u8, right: u8, guess: u8) -> bool
    ensures { FalseIff result ((0 < right) × (left / right ≡ guess)) }
{
    let divisor = u16::from(right);
    u16::from(left).wrapping_sub(u16::from(guess) * divisor) >= divisor
}

/// The same for 16 bits.
#[inline(always)]
fn is_off_16(left: u16, right: u16, guess: u16) -> bool
    ensures { FalseIff result ((0 < right) × (left / right ≡ guess)) }
{
    let divisor = u32::from(right);
    u32::from(left).wrapping_sub(u32::from(guess) * divisor) >= divisor
}

/// The same for 32 bits.
#[inline(always)]
fn is_off_32(left: u32, right: u32, guess: u32) -> bool
    ensures { FalseIff result ((0 < right) × (left / right ≡ guess)) }
{
    let divisor = u64::from(right);
    u64::from(left).wrapping_sub(u64::from(guess) * divisor) >= divisor
}

/// The same for 64 bits.
#[inline(always)]
fn is_off_64(left: u64, right: u64, guess: u64) -> bool
    ensures { FalseIff result ((0 < right) × (left / right ≡ guess)) }
{
    let divisor = u128::from(right);
    u128::from(left).wrapping_sub(u128::from(guess) * divisor) >= divisor
}

impl GuessedDivision for u8 {
    type Guesses = [u32; 64];

    #[inline(always)]
    fn guesses(lefts: &[u8], rights: &[u8]) -> [u32; 64] {
        let mut guesses = [0u32; 64];
        for k in 0..16 {
            let left: f32x4 = u8x4::from_slice(&lefts[4 * k..4 * k + 4]).cast();
            let right: f32x4 = u8x4::from_slice(&rights[4 * k..4 * k + 4]).cast();
            low_bits_32(left, right).copy_to_slice(&mut guesses[4 * k..4 * k + 4]);
        }
        guesses
    }

    #[inline(always)]
    fn by_guess(self, rhs: u8, guesses: &[u32; 64], i: usize) -> (u8, bool) {
        let quotient = (guesses[i] % 0x100) as u8;
        (quotient, is_off_8(self, rhs, quotient))
    }
}

impl GuessedDivision for u16 {
    type Guesses = [u32; 64];

    #[inline(always)]
    fn guesses(lefts: &[u16], rights: &[u16]) -> [u32; 64] {
        let mut guesses = [0u32; 64];
        for k in 0..16 {
            let left: f32x4 = u16x4::from_slice(&lefts[4 * k..4 * k + 4]).cast();
            let right: f32x4 = u16x4::from_slice(&rights[4 * k..4 * k + 4]).cast();
            low_bits_32(left, right).copy_to_slice(&mut guesses[4 * k..4 * k + 4]);
        }
        guesses
    }

    #[inline(always)]
    fn by_guess(self, rhs: u16, guesses: &[u32; 64], i: usize) -> (u16, bool) {
        let quotient = (guesses[i] % 0x1_0000) as u16;
        (quotient, is_off_16(self, rhs, quotient))
    }
}

impl GuessedDivision for u32 {
    type Guesses = [u64; 64];

    #[inline(always)]
    fn guesses(lefts: &[u32], rights: &[u32]) -> [u64; 64] {
        let mut guesses = [0u64; 64];
        for k in 0..16 {
            let left: f64x4 = u32x4::from_slice(&lefts[4 * k..4 * k + 4]).cast();
            let right: f64x4 = u32x4::from_slice(&rights[4 * k..4 * k + 4]).cast();
            low_bits_64(left, right).copy_to_slice(&mut guesses[4 * k..4 * k + 4]);
        }
        guesses
    }

    #[inline(always)]
    fn by_guess(self, rhs: u32, guesses: &[u64; 64], i: usize) -> (u32, bool) {
        let quotient = (guesses[i] % 0x1_0000_0000) as u32;
        (quotient, is_off_32(self, rhs, quotient))
    }
}

impl GuessedDivision for i8 {
    type Guesses = [u32; 64];

    #[inline(always)]
    fn guesses(lefts: &[i8], rights: &[i8]) -> [u32; 64] {
        let mut guesses = [0u32; 64];
        for k in 0..16 {
            let left: i16x4 = i8x4::from_slice(&lefts[4 * k..4 * k + 4]).cast();
            let right: i16x4 = i8x4::from_slice(&rights[4 * k..4 * k + 4]).cast();
            let (left, right): (f32x4, f32x4) = (
                sizes_of_16(left).cast(),
                sizes_of_16(right).cast(),
            );
            low_bits_32(left, right).copy_to_slice(&mut guesses[4 * k..4 * k + 4]);
        }
        guesses
    }

    #[inline(always)]
    fn by_guess(self, rhs: i8, guesses: &[u32; 64], i: usize) -> (i8, bool) {
        let (left, right) = (self.unsigned_abs(), rhs.unsigned_abs());
        let size = (guesses[i] % 0x80) as u8;
        let quotient = if (self < 0) == (rhs < 0) {
            size as i8
        } else {
            -(size as i8)
        };
        (quotient, is_off_8(left, right, size))
    }
}

impl GuessedDivision for i16 {
    type Guesses = [u32; 64];

    #[inline(always)]
    fn guesses(lefts: &[i16], rights: &[i16]) -> [u32; 64] {
        let mut guesses = [0u32; 64];
        for k in 0..16 {
            let left: f32x4 = sizes_of_16(i16x4::from_slice(&lefts[4 * k..4 * k + 4])).cast();
            let right: f32x4 = sizes_of_16(i16x4::from_slice(&rights[4 * k..4 * k + 4])).cast();
            low_bits_32(left, right).copy_to_slice(&mut guesses[4 * k..4 * k + 4]);
        }
        guesses
    }

    #[inline(always)]
    fn by_guess(self, rhs: i16, guesses: &[u32; 64], i: usize) -> (i16, bool) {
        let (left, right) = (self.unsigned_abs(), rhs.unsigned_abs());
        let size = (guesses[i] % 0x8000) as u16;
        let quotient = if (self < 0) == (rhs < 0) {
            size as i16
        } else {
            -(size as i16)
        };
        (quotient, is_off_16(left, right, size))
    }
}

impl GuessedDivision for i32 {
    type Guesses = [u64; 64];

    #[inline(always)]
    fn guesses(lefts: &[i32], rights: &[i32]) -> [u64; 64] {
        let mut guesses = [0u64; 64];
        for k in 0..16 {
            let left: f64x4 = sizes_of_32(i32x4::from_slice(&lefts[4 * k..4 * k + 4])).cast();
            let right: f64x4 = sizes_of_32(i32x4::from_slice(&rights[4 * k..4 * k + 4])).cast();
            low_bits_64(left, right).copy_to_slice(&mut guesses[4 * k..4 * k + 4]);
        }
        guesses
    }

    #[inline(always)]
    fn by_guess(self, rhs: i32, guesses: &[u64; 64], i: usize) -> (i32, bool) {
        let (left, right) = (self.unsigned_abs(), rhs.unsigned_abs());
        let size = (guesses[i] % 0x8000_0000) as u32;
        let quotient = if (self < 0) == (rhs < 0) {
            size as i32
        } else {
            -(size as i32)
        };
        (quotient, is_off_32(left, right, size))
    }
}

impl GuessedDivision for i64 {
    type Guesses = [u64; 64];

    /// Floats hold what fits 51 bits.
    #[inline(always)]
    fn may_serve(lefts: &[i64], rights: &[i64]) -> bool {
        let mut bits = 0u64;
        for left in lefts {
            bits |= left.unsigned_abs();
        }
        for right in rights {
            bits |= right.unsigned_abs();
        }
        bits < 1 << 51
    }

    #[inline(always)]
    fn guesses(lefts: &[i64], rights: &[i64]) -> [u64; 64] {
        let mut guesses = [0u64; 64];
        for k in 0..16 {
            let left = floats_of_64(&lefts[4 * k..4 * k + 4]);
            let right = floats_of_64(&rights[4 * k..4 * k + 4]);
            low_bits_64(left, right).copy_to_slice(&mut guesses[4 * k..4 * k + 4]);
        }
        guesses
    }

    #[inline(always)]
    fn by_guess(self, rhs: i64, guesses: &[u64; 64], i: usize) -> (i64, bool) {
        let (left, right) = (self.unsigned_abs(), rhs.unsigned_abs());
        let size = guesses[i] % 0x8_0000_0000_0000;
        let quotient = if (self < 0) == (rhs < 0) {
            size as i64
        } else {
            -(size as i64)
        };
        (quotient, is_off_64(left, right, size))
    }
}
