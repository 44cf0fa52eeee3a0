//! The signed integers. Vectors hold their bits, which determine a number within the type's range;
//! so a loop first proves the ranges, which the compiler removes. A mask of 64-bit lanes is
//! narrowed to bytes, since a wide one is read 16 lanes at a time.

use crate::lanes::LaneInteger;
use std::simd::prelude::*;
use vortex_types::ints::learn_ranges;

impl LaneInteger for i8 {
    #[inline(always)]
    fn equal_word(left: &[i8], right: &[i8]) -> u64 {
        learn_ranges(left);
        learn_ranges(right);
        i8x64::from_slice(left)
            .simd_eq(i8x64::from_slice(right))
            .to_bitmask()
    }

    #[inline(always)]
    fn less_word(left: &[i8], right: &[i8]) -> u64 {
        learn_ranges(left);
        learn_ranges(right);
        i8x64::from_slice(left)
            .simd_lt(i8x64::from_slice(right))
            .to_bitmask()
    }

    #[inline(always)]
    fn equal_word_with(left: &[i8], right: i8) -> u64 {
        learn_ranges(left);
        i8x64::from_slice(left)
            .simd_eq(i8x64::splat(right))
            .to_bitmask()
    }

    #[inline(always)]
    fn less_word_with(left: &[i8], right: i8) -> u64 {
        learn_ranges(left);
        i8x64::from_slice(left)
            .simd_lt(i8x64::splat(right))
            .to_bitmask()
    }

    #[inline(always)]
    fn greater_word_with(left: &[i8], right: i8) -> u64 {
        learn_ranges(left);
        i8x64::from_slice(left)
            .simd_gt(i8x64::splat(right))
            .to_bitmask()
    }
}

impl LaneInteger for i16 {
    #[inline(always)]
    fn equal_word(left: &[i16], right: &[i16]) -> u64 {
        learn_ranges(left);
        learn_ranges(right);
        i16x64::from_slice(left)
            .simd_eq(i16x64::from_slice(right))
            .to_bitmask()
    }

    #[inline(always)]
    fn less_word(left: &[i16], right: &[i16]) -> u64 {
        learn_ranges(left);
        learn_ranges(right);
        i16x64::from_slice(left)
            .simd_lt(i16x64::from_slice(right))
            .to_bitmask()
    }

    #[inline(always)]
    fn equal_word_with(left: &[i16], right: i16) -> u64 {
        learn_ranges(left);
        i16x64::from_slice(left)
            .simd_eq(i16x64::splat(right))
            .to_bitmask()
    }

    #[inline(always)]
    fn less_word_with(left: &[i16], right: i16) -> u64 {
        learn_ranges(left);
        i16x64::from_slice(left)
            .simd_lt(i16x64::splat(right))
            .to_bitmask()
    }

    #[inline(always)]
    fn greater_word_with(left: &[i16], right: i16) -> u64 {
        learn_ranges(left);
        i16x64::from_slice(left)
            .simd_gt(i16x64::splat(right))
            .to_bitmask()
    }
}

impl LaneInteger for i32 {
    #[inline(always)]
    fn equal_word(left: &[i32], right: &[i32]) -> u64 {
        learn_ranges(left);
        learn_ranges(right);
        i32x64::from_slice(left)
            .simd_eq(i32x64::from_slice(right))
            .to_bitmask()
    }

    #[inline(always)]
    fn less_word(left: &[i32], right: &[i32]) -> u64 {
        learn_ranges(left);
        learn_ranges(right);
        i32x64::from_slice(left)
            .simd_lt(i32x64::from_slice(right))
            .to_bitmask()
    }

    #[inline(always)]
    fn equal_word_with(left: &[i32], right: i32) -> u64 {
        learn_ranges(left);
        i32x64::from_slice(left)
            .simd_eq(i32x64::splat(right))
            .to_bitmask()
    }

    #[inline(always)]
    fn less_word_with(left: &[i32], right: i32) -> u64 {
        learn_ranges(left);
        i32x64::from_slice(left)
            .simd_lt(i32x64::splat(right))
            .to_bitmask()
    }

    #[inline(always)]
    fn greater_word_with(left: &[i32], right: i32) -> u64 {
        learn_ranges(left);
        i32x64::from_slice(left)
            .simd_gt(i32x64::splat(right))
            .to_bitmask()
    }
}

impl LaneInteger for i64 {
    #[inline(always)]
    fn equal_word(left: &[i64], right: &[i64]) -> u64 {
        learn_ranges(left);
        learn_ranges(right);
        i64x64::from_slice(left)
            .simd_eq(i64x64::from_slice(right))
            .cast::<i8>()
            .to_bitmask()
    }

    #[inline(always)]
    fn less_word(left: &[i64], right: &[i64]) -> u64 {
        learn_ranges(left);
        learn_ranges(right);
        i64x64::from_slice(left)
            .simd_lt(i64x64::from_slice(right))
            .cast::<i8>()
            .to_bitmask()
    }

    #[inline(always)]
    fn equal_word_with(left: &[i64], right: i64) -> u64 {
        learn_ranges(left);
        i64x64::from_slice(left)
            .simd_eq(i64x64::splat(right))
            .cast::<i8>()
            .to_bitmask()
    }

    #[inline(always)]
    fn less_word_with(left: &[i64], right: i64) -> u64 {
        learn_ranges(left);
        i64x64::from_slice(left)
            .simd_lt(i64x64::splat(right))
            .cast::<i8>()
            .to_bitmask()
    }

    #[inline(always)]
    fn greater_word_with(left: &[i64], right: i64) -> u64 {
        learn_ranges(left);
        i64x64::from_slice(left)
            .simd_gt(i64x64::splat(right))
            .cast::<i8>()
            .to_bitmask()
    }
}
