//! The unsigned integers.
ghost use Rattle.std.specs.Prelude.{◌≡◌, map};

use super::{Ints, NativePType};
use crate::dtype::PType;
use std::cmp::Ordering;

impl NativePType for u8 {
    ghost use Rattle.std.specs.Prelude.{pos, map};
    ghost use Rattle.vortex_types.specs.Numbers.{numbers, ptype_of};
    ghost use Rattle.vortex_types.specs.declared.dtype.PType.TheVariants.{U8};

    ghost number = { pos };

    ghost ptype = { U8 };

    fn to_i128(self) -> i128 {
        i128::from(self)
    }

    fn integer_type() -> PType {
        PType::U8
    }

    fn total_compare(self, other: u8) -> Ordering {
        self.cmp(&other)
    }

    fn zero() -> u8 {
        0
    }

    fn from_i128(value: i128) -> Option<u8> {
        u8::try_from(value).ok()
    }

    fn wrap(values: Vec<u8>) -> Ints
        ensures kind { ptype_of result ≡ U8 }
        ensures values { numbers result ≡ map pos values.items }
    {
        Ints::U8(values)
    }

    fn of(ints: &Ints) -> Option<&[u8]> {
        match ints {
            Ints::U8(xs) => Some(xs.as_slice()),
            _ => None,
        }
    }
}

impl NativePType for u16 {
    ghost use Rattle.std.specs.Prelude.{pos, map};
    ghost use Rattle.vortex_types.specs.Numbers.{numbers, ptype_of};
    ghost use Rattle.vortex_types.specs.declared.dtype.PType.TheVariants.{U16};

    ghost number = { pos };

    ghost ptype = { U16 };

    fn to_i128(self) -> i128 {
        i128::from(self)
    }

    fn integer_type() -> PType {
        PType::U16
    }

    fn total_compare(self, other: u16) -> Ordering {
        self.cmp(&other)
    }

    fn zero() -> u16 {
        0
    }

    fn from_i128(value: i128) -> Option<u16> {
        u16::try_from(value).ok()
    }

    fn wrap(values: Vec<u16>) -> Ints
        ensures kind { ptype_of result ≡ U16 }
        ensures values { numbers result ≡ map pos values.items }
    {
        Ints::U16(values)
    }

    fn of(ints: &Ints) -> Option<&[u16]> {
        match ints {
            Ints::U16(xs) => Some(xs.as_slice()),
            _ => None,
        }
    }
}

impl NativePType for u32 {
    ghost use Rattle.std.specs.Prelude.{pos, map};
    ghost use Rattle.vortex_types.specs.Numbers.{numbers, ptype_of};
    ghost use Rattle.vortex_types.specs.declared.dtype.PType.TheVariants.{U32};

    ghost number = { pos };

    ghost ptype = { U32 };

    fn to_i128(self) -> i128 {
        i128::from(self)
    }

    fn integer_type() -> PType {
        PType::U32
    }

    fn total_compare(self, other: u32) -> Ordering {
        self.cmp(&other)
    }

    fn zero() -> u32 {
        0
    }

    fn from_i128(value: i128) -> Option<u32> {
        u32::try_from(value).ok()
    }

    fn wrap(values: Vec<u32>) -> Ints
        ensures kind { ptype_of result ≡ U32 }
        ensures values { numbers result ≡ map pos values.items }
    {
        Ints::U32(values)
    }

    fn of(ints: &Ints) -> Option<&[u32]> {
        match ints {
            Ints::U32(xs) => Some(xs.as_slice()),
            _ => None,
        }
    }
}

impl NativePType for u64 {
    ghost use Rattle.std.specs.Prelude.{pos, map};
    ghost use Rattle.vortex_types.specs.Numbers.{numbers, ptype_of};
    ghost use Rattle.vortex_types.specs.declared.dtype.PType.TheVariants.{U64};

    ghost number = { pos };

    ghost ptype = { U64 };

    fn to_i128(self) -> i128 {
        i128::from(self)
    }

    fn integer_type() -> PType {
        PType::U64
    }

    fn total_compare(self, other: u64) -> Ordering {
        self.cmp(&other)
    }

    fn zero() -> u64 {
        0
    }

    fn from_i128(value: i128) -> Option<u64> {
        u64::try_from(value).ok()
    }

    fn wrap(values: Vec<u64>) -> Ints
        ensures kind { ptype_of result ≡ U64 }
        ensures values { numbers result ≡ map pos values.items }
    {
        Ints::U64(values)
    }

    fn of(ints: &Ints) -> Option<&[u64]> {
        match ints {
            Ints::U64(xs) => Some(xs.as_slice()),
            _ => None,
        }
    }
}
