//! Integer arithmetic that reports where the type does not hold the result.

use crate::failure::Failure;

/// One of the eight integer types. Values are wrapped to the type's bits; overflow is reported
/// separately.
pub trait CheckedArithmetic: Copy + Default + Drop {
    ghost use Rattle.std.specs.Prelude.{◌≡◌, ◌+ℤ◌, ◌-ℤ◌, ◌*ℤ◌, ℤ, pos, Some};
    ghost use Rattle.std.specs.Bool.{FalseIff};
    ghost use Rattle.vortex_checked.specs.Exact.{IsWithin, HasResult, quotient};

    type MulFailure: Failure;

    ghost number: { Self → ℤ };

    ghost least: { ℤ };

    ghost greatest: { ℤ };

    /// A number, wrapped to the type's bits.
    ghost wrapped: { ℤ → ℤ };

    /// The overflow flag of a product.
    ghost mul_evidence: { Self → Self → Self.MulFailure };

    /// The sum, wrapped.
    fn add_value(self, rhs: Self) -> Self
        ensures { number result ≡ wrapped (number self +ℤ number rhs) };

    /// Whether the type does not hold the sum.
    fn add_error(self, rhs: Self) -> bool
        ensures { FalseIff result (IsWithin least greatest (number self +ℤ number rhs)) };

    /// The difference, wrapped.
    fn sub_value(self, rhs: Self) -> Self
        ensures { number result ≡ wrapped (number self -ℤ number rhs) };

    /// Whether the type does not hold the difference.
    fn sub_error(self, rhs: Self) -> bool
        ensures { FalseIff result (IsWithin least greatest (number self -ℤ number rhs)) };

    /// The product, wrapped.
    fn mul_value(self, rhs: Self) -> Self
        ensures { number result ≡ wrapped (number self *ℤ number rhs) };

    /// The overflow flag: the default exactly where the type holds the product.
    fn mul_failure(self, rhs: Self) -> Self::MulFailure
        ensures evidence { result ≡ mul_evidence self rhs }
        ensures fault { FalseIff (Self.MulFailure.is_fault result)
            (IsWithin least greatest (number self *ℤ number rhs)) };

    /// The quotient, truncated toward zero.
    fn div_value(self, rhs: Self) -> Self
        requires { HasResult least greatest (quotient (number self) (number rhs)) }
        ensures { Some (number result) ≡ quotient (number self) (number rhs) };

    /// Whether the divisor is zero, or the type does not hold the quotient.
    fn div_error(self, rhs: Self) -> bool
        ensures { FalseIff result
            (HasResult least greatest (quotient (number self) (number rhs))) };

    /// Wrapping keeps a number that the type holds.
    ghost keeps: { (z : ℤ) → IsWithin least greatest z → wrapped z ≡ z };

    /// The default is zero.
    ghost zero: { (x : Self) → Self.is_default x → number x ≡ pos 0 };
}
