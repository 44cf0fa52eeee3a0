//! The integers that columns hold, as checked arithmetic reads them.
ghost use Rattle.std.specs.Prelude.{◌≡◌, ◌*ℤ◌, ◌<◌, false, Some};
ghost use Rattle.std.specs.Bool.{FalseIff};
ghost use Rattle.vortex_checked.specs.Exact.{quotient};
ghost use Rattle.vortex_checked.specs.Factor.{AreEnds};
ghost use Rattle.vortex_kernels.specs.Words.{FitsResult, AnswersExact};

use vortex_checked::{
    CheckedPrimitiveOp, ConstantArithmetic, Divisor, GuessedDivision, bounded_product,
};
use vortex_columns::NativePType;

/// One of the eight integer types. Columns and checked arithmetic agree on the number of each
/// value, and on the range of the type.
pub trait ArithmeticInteger: NativePType + ConstantArithmetic {
    ghost use Rattle.std.specs.Prelude.{◌≡◌};
    ghost use Rattle.vortex_types.specs.Typing.{least_of, greatest_of};

    ghost same_number: { (x : Self) → Self.CheckedArithmetic.number x ≡ Self.NativePType.number x };

    ghost same_least: { Self.least ≡ least_of Self.ptype };

    ghost same_greatest: { Self.greatest ≡ greatest_of Self.ptype };
}

impl ArithmeticInteger for i8 {
    ghost use Rattle.std.specs.Prelude.{refl};

    ghost same_number = { λ x. refl };

    ghost same_least = { refl };

    ghost same_greatest = { refl };
}

impl ArithmeticInteger for i16 {
    ghost use Rattle.std.specs.Prelude.{refl};

    ghost same_number = { λ x. refl };

    ghost same_least = { refl };

    ghost same_greatest = { refl };
}

impl ArithmeticInteger for i32 {
    ghost use Rattle.std.specs.Prelude.{refl};

    ghost same_number = { λ x. refl };

    ghost same_least = { refl };

    ghost same_greatest = { refl };
}

impl ArithmeticInteger for i64 {
    ghost use Rattle.std.specs.Prelude.{refl};

    ghost same_number = { λ x. refl };

    ghost same_least = { refl };

    ghost same_greatest = { refl };
}

impl ArithmeticInteger for u8 {
    ghost use Rattle.std.specs.Prelude.{refl};

    ghost same_number = { λ x. refl };

    ghost same_least = { refl };

    ghost same_greatest = { refl };
}

impl ArithmeticInteger for u16 {
    ghost use Rattle.std.specs.Prelude.{refl};

    ghost same_number = { λ x. refl };

    ghost same_least = { refl };

    ghost same_greatest = { refl };
}

impl ArithmeticInteger for u32 {
    ghost use Rattle.std.specs.Prelude.{refl};

    ghost same_number = { λ x. refl };

    ghost same_least = { refl };

    ghost same_greatest = { refl };
}

impl ArithmeticInteger for u64 {
    ghost use Rattle.std.specs.Prelude.{refl};

    ghost same_number = { λ x. refl };

    ghost same_least = { refl };

    ghost same_greatest = { refl };
}

/// The operation on two integers: the value, which is the exact result where the integer type holds
/// it, and a flag, which is a fault exactly where it does not.
pub fn apply_checked<T: ArithmeticInteger, O: CheckedPrimitiveOp<T>>(
    left: T,
    right: T,
) -> (T, O::Fail)
    ensures value { T.NativePType.number result.0
        ≡ O.value (T.NativePType.number left) (T.NativePType.number right) }
    ensures exact { AnswersExact T.ptype
        (O.exact (T.NativePType.number left) (T.NativePType.number right))
        (T.NativePType.number result.0) }
    ensures fault { FalseIff (O.Fail.is_fault result.1)
        (FitsResult T.ptype (O.exact (T.NativePType.number left) (T.NativePType.number right))) }
    ensures evidence { O.tells left right result.1 }
{
    O::apply(left, right)
}

/// The product of an integer and a factor within the factor's range: the value, which is the exact
/// product where the integer type holds it, and whether it does not.
#[inline(always)]
pub(crate) fn multiply_bounded<T: ArithmeticInteger>(
    number: T,
    factor: T,
    least: T,
    greatest: T,
) -> (T, bool)
    requires { AreEnds T.least T.greatest (T.CheckedArithmetic.number factor)
        (T.CheckedArithmetic.number least) (T.CheckedArithmetic.number greatest) }
    ensures exact { AnswersExact T.ptype
        (Some (T.NativePType.number number *ℤ T.NativePType.number factor))
        (T.NativePType.number result.0) }
    ensures fault { FalseIff result.1 (FitsResult T.ptype
        (Some (T.NativePType.number number *ℤ T.NativePType.number factor))) }
{
    bounded_product(number, factor, least, greatest)
}

/// The quotient of an integer. The type holds it.
#[inline(always)]
pub(crate) fn divide_by<T: ArithmeticInteger, D: Divisor<T>>(number: T, divisor: &D) -> T
    ensures exact { Some (T.NativePType.number result)
        ≡ quotient (T.NativePType.number number) (D.value divisor.now) }
    ensures fits { FitsResult T.ptype
        (quotient (T.NativePType.number number) (D.value divisor.now)) }
{
    divisor.divide(number)
}

/// The quotient from the estimate at an index, and whether that is wrong. Where it is not, this is
/// the quotient, which the integer type holds.
#[inline(always)]
pub(crate) fn by_guess<T: ArithmeticInteger + GuessedDivision>(
    left: T,
    right: T,
    guesses: &T::Guesses,
    i: usize,
) -> (T, bool)
    requires { i < 64 }
    ensures exact { result.1 ≡ false → Some (T.NativePType.number result.0)
        ≡ quotient (T.NativePType.number left) (T.NativePType.number right) }
    ensures fits { result.1 ≡ false → FitsResult T.ptype
        (quotient (T.NativePType.number left) (T.NativePType.number right)) }
{
    left.by_guess(right, guesses, i)
}
