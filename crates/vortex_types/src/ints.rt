//! Lists of integers of one type.
ghost use Rattle.std.specs.Prelude.{◌≡◌, ◌<◌, All, IfOk, length, map, pos, slice_index_or};
ghost use Rattle.vortex_types.specs.Typing.{FitsPType};
ghost use Rattle.vortex_types.specs.Numbers.{numbers, ptype_of};

mod signed;
mod unsigned;

use crate::dtype::PType;
use std::alloc::{AllocError, Global};
use std::cmp::Ordering;
use vortex_errors::VortexResult;

/// Integers of one type.
#[derive(Drop)]
pub enum Ints {
    I8(Vec<i8>),
    I16(Vec<i16>),
    I32(Vec<i32>),
    I64(Vec<i64>),
    U8(Vec<u8>),
    U16(Vec<u16>),
    U32(Vec<u32>),
    U64(Vec<u64>),
}

impl Ints {
    ghost use Rattle.vortex_errors.specs.Answers.{AnswersUnlessMemory};
    ghost use Rattle.vortex_types.specs.Numbers.{numbers, ptype_of};

    /// The type of the integers.
    pub fn ptype(&self) -> PType
        ensures { result ≡ ptype_of self.now }
    {
        match self {
            Ints::I8(_) => PType::I8,
            Ints::I16(_) => PType::I16,
            Ints::I32(_) => PType::I32,
            Ints::I64(_) => PType::I64,
            Ints::U8(_) => PType::U8,
            Ints::U16(_) => PType::U16,
            Ints::U32(_) => PType::U32,
            Ints::U64(_) => PType::U64,
        }
    }

    /// The number at index `i`.
    pub fn at(&self, i: usize) -> i128
        requires { i < length (numbers self.now) }
        ensures { result ≡ slice_index_or (numbers self.now) i (pos 0) }
    {
        match self {
            Ints::I8(xs) => number_at(xs, i),
            Ints::I16(xs) => number_at(xs, i),
            Ints::I32(xs) => number_at(xs, i),
            Ints::I64(xs) => number_at(xs, i),
            Ints::U8(xs) => number_at(xs, i),
            Ints::U16(xs) => number_at(xs, i),
            Ints::U32(xs) => number_at(xs, i),
            Ints::U64(xs) => number_at(xs, i),
        }
    }

    /// A copy with the same numbers and type.
    pub fn try_clone(&self, _alloc: Global) -> VortexResult<Ints>
        ensures ptype { AnswersUnlessMemory result (λ xs. ptype_of xs ≡ ptype_of self.now) }
        ensures values { AnswersUnlessMemory result (λ xs. numbers xs ≡ numbers self.now) }
    {
        Ok(self.clone()?)
    }
}

/// The same numbers, of the same type.
impl Clone for Ints {
    ghost use Rattle.vortex_types.specs.Numbers.{numbers, ptype_of};

    ghost is_clone = { λ ints copy. (ptype_of copy ≡ ptype_of ints)
        × (numbers copy ≡ numbers ints) };

    fn clone(&self) -> Result<Ints, AllocError> {
        match self {
            Ints::I8(xs) => copy_of(xs),
            Ints::I16(xs) => copy_of(xs),
            Ints::I32(xs) => copy_of(xs),
            Ints::I64(xs) => copy_of(xs),
            Ints::U8(xs) => copy_of(xs),
            Ints::U16(xs) => copy_of(xs),
            Ints::U32(xs) => copy_of(xs),
            Ints::U64(xs) => copy_of(xs),
        }
    }
}

/// One of the eight integer types.
pub trait NativePType: Copy + Drop {
    ghost use Rattle.std.specs.Prelude.{ℤ, pos, map, MatchOption};
    ghost use Rattle.std.specs.Ordering.{int_cmp};
    ghost use Rattle.vortex_types.specs.declared.dtype.PType.{PType};
    ghost use Rattle.vortex_types.specs.Typing.{FitsPType};
    ghost use Rattle.vortex_types.specs.Numbers.{numbers, ptype_of};

    ghost number: { Self → ℤ };

    ghost ptype: { PType };

    /// The number, which is in the range of the type.
    fn to_i128(self) -> i128
        ensures value { result ≡ number self }
        ensures fits { FitsPType ptype (number self) };

    /// Which of the eight it is.
    fn integer_type() -> PType
        ensures { result ≡ ptype };

    /// The order of the numbers.
    fn total_compare(self, other: Self) -> Ordering
        ensures { result ≡ int_cmp (number self) (number other) };

    /// Zero. Allocates nothing.
    fn zero() -> Self
        ensures { number result ≡ pos 0 };

    /// The integer of a number, where the type holds it.
    fn from_i128(value: i128) -> Option<Self>
        ensures { MatchOption result (¬ FitsPType ptype value)
            (λ x. FitsPType ptype value × (number x ≡ value)) };

    /// The same integers, as a list of one of the eight types. Allocates nothing.
    fn wrap(values: Vec<Self>) -> Ints
        ensures kind { ptype_of result ≡ ptype }
        ensures values { numbers result ≡ map number values.items };

    /// The integers, if they are of this type.
    fn of(ints: &Ints) -> Option<&[Self]>
        ensures { MatchOption result (¬ (ptype_of ints.now ≡ ptype))
            (λ xs. (ptype_of ints.now ≡ ptype) × (numbers ints.now ≡ map number xs.now)) };
}

/// The number at index `i`.
#[inline]
fn number_at<T: NativePType>(values: &Vec<T>, i: usize) -> i128
    requires { i < length values.now.items }
    ensures { result ≡ slice_index_or (map T.number values.now.items) i (pos 0) }
{
    values[i].to_i128()
}

/// A copy of integers of one type.
fn copy_of<T: NativePType>(values: &Vec<T>) -> Result<Ints, AllocError>
    requires { (x y : T) → T.is_clone x y → y ≡ x }
    ensures { IfOk result (λ copy. (ptype_of copy ≡ T.ptype)
        × (numbers copy ≡ map T.number values.now.items)) }
{
    let copy = values.as_slice().to_vec(*values.allocator())?;
    Ok(T::wrap(copy))
}

/// Proves to the caller that each number is in the range of its type. Changes nothing.
pub fn learn_ranges<T: NativePType>(values: &[T])
    ensures { All (FitsPType T.ptype) (map T.number values.now) }
{
    for x in values {
        let _ = x.to_i128();
    }
}
