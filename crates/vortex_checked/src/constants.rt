//! Arithmetic with a constant, which is precomputed before the rows.
ghost use Rattle.std.specs.Prelude.{◌≡◌, IfSome, ℤ, int_lt, pos, Some};
ghost use Rattle.vortex_checked.specs.Exact.{IsWithin, quotient};

use crate::arithmetic::CheckedArithmetic;
use crate::division::{Divisor32, Divisor64, SignedDivisor32, SignedDivisor64};
use crate::division_16::{Divisor16, SignedDivisor16, SizeDivisor16};

/// A number that divides those of a type by multiplication.
pub trait Divisor<T: CheckedArithmetic>: Copy {
    ghost use Rattle.std.specs.Prelude.{◌≡◌, ℤ, Some};
    ghost use Rattle.vortex_checked.specs.Exact.{IsWithin, quotient};

    ghost value: { Self → ℤ };

    /// The quotient, truncated toward zero. The type holds it.
    fn divide(&self, number: T) -> T
        ensures exact { Some (T.number result) ≡ quotient (T.number number) (value self.now) }
        ensures fits { IsWithin T.least T.greatest (T.number result) };
}

/// One of the eight integer types, with a constant operand.
pub trait ConstantArithmetic: CheckedArithmetic {
    ghost use Rattle.std.specs.Prelude.{◌≡◌, IfSome, int_lt, pos};
    ghost use Rattle.vortex_checked.specs.Exact.{IsWithin};

    type Divisor: Divisor<Self>;

    fn least_value() -> Self
        ensures { Self.number result ≡ Self.least };

    fn greatest_value() -> Self
        ensures { Self.number result ≡ Self.greatest };

    fn is_below(self, other: Self) -> bool
        ensures order { result ≡ int_lt (Self.number self) (Self.number other) }
        ensures fits { IsWithin Self.least Self.greatest (Self.number self) };

    /// The number as a divisor, unless it is 0, 1 or -1.
    fn divisor(self) -> Option<Self::Divisor>
        ensures { IfSome result (λ d. Self.Divisor.value d ≡ Self.number self) };

    /// Zero is between the ends of the type.
    ghost holds_zero: { IsWithin Self.least Self.greatest (pos 0) };
}

impl Divisor<i8> for SignedDivisor16 {
    ghost use Rattle.std.specs.Prelude.{pos};

    ghost value = { λ d. d.divisor };

    #[inline(always)]
    fn divide(&self, number: i8) -> i8 {
        self.quotient(i16::from(number)) as i8
    }
}

impl ConstantArithmetic for i8 {
    ghost use Rattle.std.proofs.Common.{arith};

    type Divisor = SignedDivisor16;

    fn least_value() -> i8 {
        i8::MIN
    }

    fn greatest_value() -> i8 {
        i8::MAX
    }

    #[inline(always)]
    fn is_below(self, other: i8) -> bool {
        self < other
    }

    fn divisor(self) -> Option<SignedDivisor16> {
        if self == 0 || self == 1 || self == -1 {
            None
        } else {
            Some(SignedDivisor16::new(i16::from(self)))
        }
    }

    ghost holds_zero = { (omega arith, omega arith) };
}

impl Divisor<i16> for SignedDivisor16 {
    ghost use Rattle.std.specs.Prelude.{pos};

    ghost value = { λ d. d.divisor };

    #[inline(always)]
    fn divide(&self, number: i16) -> i16 {
        self.quotient(number)
    }
}

impl ConstantArithmetic for i16 {
    ghost use Rattle.std.proofs.Common.{arith};

    type Divisor = SignedDivisor16;

    fn least_value() -> i16 {
        i16::MIN
    }

    fn greatest_value() -> i16 {
        i16::MAX
    }

    #[inline(always)]
    fn is_below(self, other: i16) -> bool {
        self < other
    }

    fn divisor(self) -> Option<SignedDivisor16> {
        if self == 0 || self == 1 || self == -1 {
            None
        } else {
            Some(SignedDivisor16::new(self))
        }
    }

    ghost holds_zero = { (omega arith, omega arith) };
}

impl Divisor<i32> for SignedDivisor32 {
    ghost use Rattle.std.specs.Prelude.{pos};

    ghost value = { λ d. d.divisor };

    #[inline(always)]
    fn divide(&self, number: i32) -> i32 {
        self.quotient(number)
    }
}

impl ConstantArithmetic for i32 {
    ghost use Rattle.std.proofs.Common.{arith};

    type Divisor = SignedDivisor32;

    fn least_value() -> i32 {
        i32::MIN
    }

    fn greatest_value() -> i32 {
        i32::MAX
    }

    #[inline(always)]
    fn is_below(self, other: i32) -> bool {
        self < other
    }

    fn divisor(self) -> Option<SignedDivisor32> {
        if self == 0 || self == 1 || self == -1 {
            None
        } else {
            Some(SignedDivisor32::new(self))
        }
    }

    ghost holds_zero = { (omega arith, omega arith) };
}

impl Divisor<i64> for SignedDivisor64 {
    ghost use Rattle.std.specs.Prelude.{pos};

    ghost value = { λ d. d.divisor };

    #[inline(always)]
    fn divide(&self, number: i64) -> i64 {
        self.quotient(number)
    }
}

impl ConstantArithmetic for i64 {
    ghost use Rattle.std.proofs.Common.{arith};

    type Divisor = SignedDivisor64;

    fn least_value() -> i64 {
        i64::MIN
    }

    fn greatest_value() -> i64 {
        i64::MAX
    }

    #[inline(always)]
    fn is_below(self, other: i64) -> bool {
        self < other
    }

    fn divisor(self) -> Option<SignedDivisor64> {
        if self == 0 || self == 1 || self == -1 {
            None
        } else {
            Some(SignedDivisor64::new(self))
        }
    }

    ghost holds_zero = { (omega arith, omega arith) };
}

impl Divisor<u8> for SizeDivisor16 {
    ghost use Rattle.std.specs.Prelude.{pos};

    ghost value = { λ d. pos d.divisor };

    #[inline(always)]
    fn divide(&self, number: u8) -> u8 {
        self.quotient(u16::from(number)) as u8
    }
}

impl ConstantArithmetic for u8 {
    ghost use Rattle.std.proofs.Common.{arith};

    type Divisor = SizeDivisor16;

    fn least_value() -> u8 {
        u8::MIN
    }

    fn greatest_value() -> u8 {
        u8::MAX
    }

    #[inline(always)]
    fn is_below(self, other: u8) -> bool {
        self < other
    }

    fn divisor(self) -> Option<SizeDivisor16> {
        if self < 2 {
            None
        } else {
            Some(SizeDivisor16::new(u16::from(self)))
        }
    }

    ghost holds_zero = { (omega arith, omega arith) };
}

impl Divisor<u16> for Divisor16 {
    ghost use Rattle.std.specs.Prelude.{pos};

    ghost value = { λ d. pos d.divisor };

    #[inline(always)]
    fn divide(&self, number: u16) -> u16 {
        self.quotient(number)
    }
}

impl ConstantArithmetic for u16 {
    ghost use Rattle.std.proofs.Common.{arith};

    type Divisor = Divisor16;

    fn least_value() -> u16 {
        u16::MIN
    }

    fn greatest_value() -> u16 {
        u16::MAX
    }

    #[inline(always)]
    fn is_below(self, other: u16) -> bool {
        self < other
    }

    fn divisor(self) -> Option<Divisor16> {
        if self < 2 {
            None
        } else {
            Some(Divisor16::new(self))
        }
    }

    ghost holds_zero = { (omega arith, omega arith) };
}

impl Divisor<u32> for Divisor32 {
    ghost use Rattle.std.specs.Prelude.{pos};

    ghost value = { λ d. pos d.divisor };

    #[inline(always)]
    fn divide(&self, number: u32) -> u32 {
        self.quotient(number)
    }
}

impl ConstantArithmetic for u32 {
    ghost use Rattle.std.proofs.Common.{arith};

    type Divisor = Divisor32;

    fn least_value() -> u32 {
        u32::MIN
    }

    fn greatest_value() -> u32 {
        u32::MAX
    }

    #[inline(always)]
    fn is_below(self, other: u32) -> bool {
        self < other
    }

    fn divisor(self) -> Option<Divisor32> {
        if self < 2 {
            None
        } else {
            Some(Divisor32::new(self))
        }
    }

    ghost holds_zero = { (omega arith, omega arith) };
}

impl Divisor<u64> for Divisor64 {
    ghost use Rattle.std.specs.Prelude.{pos};

    ghost value = { λ d. pos d.divisor };

    #[inline(always)]
    fn divide(&self, number: u64) -> u64 {
        self.quotient(number)
    }
}

impl ConstantArithmetic for u64 {
    ghost use Rattle.std.proofs.Common.{arith};

    type Divisor = Divisor64;

    fn least_value() -> u64 {
        u64::MIN
    }

    fn greatest_value() -> u64 {
        u64::MAX
    }

    #[inline(always)]
    fn is_below(self, other: u64) -> bool {
        self < other
    }

    fn divisor(self) -> Option<Divisor64> {
        if self < 2 {
            None
        } else {
            Some(Divisor64::new(self))
        }
    }

    ghost holds_zero = { (omega arith, omega arith) };
}
