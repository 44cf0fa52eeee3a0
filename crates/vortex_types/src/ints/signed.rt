//! The signed integers.
ghost use Rattle.std.specs.Prelude.{◌≡◌, map};

use super::{Ints, NativePType};
use crate::dtype::PType;
use std::cmp::Ordering;

impl NativePType for i8 {
    ghost use Rattle.std.specs.Prelude.{pos, map};
    ghost use Rattle.vortex_types.specs.Numbers.{numbers, ptype_of};
    ghost use Rattle.vortex_types.specs.declared.dtype.PType.TheVariants.{I8};

    ghost number = { λ x. x };

    ghost ptype = { I8 };

    fn to_i128(self) -> i128 {
        i128::from(self)
    }

    fn integer_type() -> PType {
        PType::I8
    }

    fn total_compare(self, other: i8) -> Ordering {
        self.cmp(&other)
    }

    fn zero() -> i8 {
        0
    }

    fn from_i128(value: i128) -> Option<i8> {
        i8::try_from(value).ok()
    }

    fn wrap(values: Vec<i8>) -> Ints
        ensures kind { ptype_of result ≡ I8 }
        ensures values { numbers result ≡ map (λ x. x) values.items }
    {
        Ints::I8(values)
    }

    fn of(ints: &Ints) -> Option<&[i8]> {
        match ints {
            Ints::I8(xs) => Some(xs.as_slice()),
            _ => None,
        }
    }
}

impl NativePType for i16 {
    ghost use Rattle.std.specs.Prelude.{pos, map};
    ghost use Rattle.vortex_types.specs.Numbers.{numbers, ptype_of};
    ghost use Rattle.vortex_types.specs.declared.dtype.PType.TheVariants.{I16};

    ghost number = { λ x. x };

    ghost ptype = { I16 };

    fn to_i128(self) -> i128 {
        i128::from(self)
    }

    fn integer_type() -> PType {
        PType::I16
    }

    fn total_compare(self, other: i16) -> Ordering {
        self.cmp(&other)
    }

    fn zero() -> i16 {
        0
    }

    fn from_i128(value: i128) -> Option<i16> {
        i16::try_from(value).ok()
    }

    fn wrap(values: Vec<i16>) -> Ints
        ensures kind { ptype_of result ≡ I16 }
        ensures values { numbers result ≡ map (λ x. x) values.items }
    {
        Ints::I16(values)
    }

    fn of(ints: &Ints) -> Option<&[i16]> {
        match ints {
            Ints::I16(xs) => Some(xs.as_slice()),
            _ => None,
        }
    }
}

impl NativePType for i32 {
    ghost use Rattle.std.specs.Prelude.{pos, map};
    ghost use Rattle.vortex_types.specs.Numbers.{numbers, ptype_of};
    ghost use Rattle.vortex_types.specs.declared.dtype.PType.TheVariants.{I32};

    ghost number = { λ x. x };

    ghost ptype = { I32 };

    fn to_i128(self) -> i128 {
        i128::from(self)
    }

    fn integer_type() -> PType {
        PType::I32
    }

    fn total_compare(self, other: i32) -> Ordering {
        self.cmp(&other)
    }

    fn zero() -> i32 {
        0
    }

    fn from_i128(value: i128) -> Option<i32> {
        i32::try_from(value).ok()
    }

    fn wrap(values: Vec<i32>) -> Ints
        ensures kind { ptype_of result ≡ I32 }
        ensures values { numbers result ≡ map (λ x. x) values.items }
    {
        Ints::I32(values)
    }

    fn of(ints: &Ints) -> Option<&[i32]> {
        match ints {
            Ints::I32(xs) => Some(xs.as_slice()),
            _ => None,
        }
    }
}

impl NativePType for i64 {
    ghost use Rattle.std.specs.Prelude.{pos, map};
    ghost use Rattle.vortex_types.specs.Numbers.{numbers, ptype_of};
    ghost use Rattle.vortex_types.specs.declared.dtype.PType.TheVariants.{I64};

    ghost number = { λ x. x };

    ghost ptype = { I64 };

    fn to_i128(self) -> i128 {
        i128::from(self)
    }

    fn integer_type() -> PType {
        PType::I64
    }

    fn total_compare(self, other: i64) -> Ordering {
        self.cmp(&other)
    }

    fn zero() -> i64 {
        0
    }

    fn from_i128(value: i128) -> Option<i64> {
        i64::try_from(value).ok()
    }

    fn wrap(values: Vec<i64>) -> Ints
        ensures kind { ptype_of result ≡ I64 }
        ensures values { numbers result ≡ map (λ x. x) values.items }
    {
        Ints::I64(values)
    }

    fn of(ints: &Ints) -> Option<&[i64]> {
        match ints {
            Ints::I64(xs) => Some(xs.as_slice()),
            _ => None,
        }
    }
}
