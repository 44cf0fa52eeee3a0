//! The unsigned integers. A mask of 64-bit lanes is narrowed to bytes, since a wide one is read 16
//! lanes at a time.

use crate::lanes::LaneInteger;
use std::simd::prelude::*;

impl LaneInteger for u8 {
    #[inline(always)]
    fn equal_word(left: &[u8], right: &[u8]) -> u64 {
        u8x64::from_slice(left)
            .simd_eq(u8x64::from_slice(right))
            .to_bitmask()
    }

    #[inline(always)]
    fn less_word(left: &[u8], right: &[u8]) -> u64 {
        u8x64::from_slice(left)
            .simd_lt(u8x64::from_slice(right))
            .to_bitmask()
    }

    #[inline(always)]
    fn equal_word_with(left: &[u8], right: u8) -> u64 {
        u8x64::from_slice(left)
            .simd_eq(u8x64::splat(right))
            .to_bitmask()
    }

    #[inline(always)]
    fn less_word_with(left: &[u8], right: u8) -> u64 {
        u8x64::from_slice(left)
            .simd_lt(u8x64::splat(right))
            .to_bitmask()
    }

    #[inline(always)]
    fn greater_word_with(left: &[u8], right: u8) -> u64 {
        u8x64::from_slice(left)
            .simd_gt(u8x64::splat(right))
            .to_bitmask()
    }
}

impl LaneInteger for u16 {
    #[inline(always)]
    fn equal_word(left: &[u16], right: &[u16]) -> u64 {
        u16x64::from_slice(left)
            .simd_eq(u16x64::from_slice(right))
            .to_bitmask()
    }

    #[inline(always)]
    fn less_word(left: &[u16], right: &[u16]) -> u64 {
        u16x64::from_slice(left)
            .simd_lt(u16x64::from_slice(right))
            .to_bitmask()
    }

    #[inline(always)]
    fn equal_word_with(left: &[u16], right: u16) -> u64 {
        u16x64::from_slice(left)
            .simd_eq(u16x64::splat(right))
            .to_bitmask()
    }

    #[inline(always)]
    fn less_word_with(left: &[u16], right: u16) -> u64 {
        u16x64::from_slice(left)
            .simd_lt(u16x64::splat(right))
            .to_bitmask()
    }

    #[inline(always)]
    fn greater_word_with(left: &[u16], right: u16) -> u64 {
        u16x64::from_slice(left)
            .simd_gt(u16x64::splat(right))
            .to_bitmask()
    }
}

impl LaneInteger for u32 {
    #[inline(always)]
    fn equal_word(left: &[u32], right: &[u32]) -> u64 {
        u32x64::from_slice(left)
            .simd_eq(u32x64::from_slice(right))
            .to_bitmask()
    }

    #[inline(always)]
    fn less_word(left: &[u32], right: &[u32]) -> u64 {
        u32x64::from_slice(left)
            .simd_lt(u32x64::from_slice(right))
            .to_bitmask()
    }

    #[inline(always)]
    fn equal_word_with(left: &[u32], right: u32) -> u64 {
        u32x64::from_slice(left)
            .simd_eq(u32x64::splat(right))
            .to_bitmask()
    }

    #[inline(always)]
    fn less_word_with(left: &[u32], right: u32) -> u64 {
        u32x64::from_slice(left)
            .simd_lt(u32x64::splat(right))
            .to_bitmask()
    }

    #[inline(always)]
    fn greater_word_with(left: &[u32], right: u32) -> u64 {
        u32x64::from_slice(left)
            .simd_gt(u32x64::splat(right))
            .to_bitmask()
    }
}

impl LaneInteger for u64 {
    #[inline(always)]
    fn equal_word(left: &[u64], right: &[u64]) -> u64 {
        u64x64::from_slice(left)
            .simd_eq(u64x64::from_slice(right))
            .cast::<i8>()
            .to_bitmask()
    }

    #[inline(always)]
    fn less_word(left: &[u64], right: &[u64]) -> u64 {
        u64x64::from_slice(left)
            .simd_lt(u64x64::from_slice(right))
            .cast::<i8>()
            .to_bitmask()
    }

    #[inline(always)]
    fn equal_word_with(left: &[u64], right: u64) -> u64 {
        u64x64::from_slice(left)
            .simd_eq(u64x64::splat(right))
            .cast::<i8>()
            .to_bitmask()
    }

    #[inline(always)]
    fn less_word_with(left: &[u64], right: u64) -> u64 {
        u64x64::from_slice(left)
            .simd_lt(u64x64::splat(right))
            .cast::<i8>()
            .to_bitmask()
    }

    #[inline(always)]
    fn greater_word_with(left: &[u64], right: u64) -> u64 {
        u64x64::from_slice(left)
            .simd_gt(u64x64::splat(right))
            .cast::<i8>()
            .to_bitmask()
    }
}
