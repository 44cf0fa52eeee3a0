//! Products with a constant.
ghost use Rattle.std.specs.Prelude.{◌≡◌, ◌*ℤ◌, Some};
ghost use Rattle.std.specs.Bool.{FalseIff};
ghost use Rattle.vortex_checked.specs.Exact.{IsWithin, HasResult, quotient};
ghost use Rattle.vortex_checked.specs.Factor.{AreEnds};

use crate::arithmetic::CheckedArithmetic;
use crate::constants::ConstantArithmetic;

/// The quotient where there is one that the type holds, else the other number.
fn quotient_or<T: CheckedArithmetic>(number: T, divisor: T, other: T) -> T
    ensures held { HasResult T.least T.greatest (quotient (T.number number) (T.number divisor))
        → Some (T.number result) ≡ quotient (T.number number) (T.number divisor) }
    ensures other { ¬ HasResult T.least T.greatest
        (quotient (T.number number) (T.number divisor)) → T.number result ≡ T.number other }
{
    if number.div_error(divisor) {
        other
    } else {
        number.div_value(divisor)
    }
}

/// The least and the greatest number whose product with the factor the type holds.
pub fn factor_ends<T: ConstantArithmetic>(factor: T) -> (T, T)
    ensures { AreEnds T.least T.greatest (T.number factor) (T.number result.0)
        (T.number result.1) }
{
    let least = T::least_value();
    let greatest = T::greatest_value();
    if factor.is_below(T::default()) {
        (
            quotient_or(greatest, factor, least),
            quotient_or(least, factor, greatest),
        )
    } else {
        (
            quotient_or(least, factor, least),
            quotient_or(greatest, factor, greatest),
        )
    }
}

/// The product, wrapped, and whether the type does not hold it, from the factor's range.
#[inline(always)]
pub fn bounded_product<T: ConstantArithmetic>(
    number: T,
    factor: T,
    least: T,
    greatest: T,
) -> (T, bool)
    requires { AreEnds T.least T.greatest (T.number factor) (T.number least) (T.number greatest) }
    ensures value { T.number result.0 ≡ T.wrapped (T.number number *ℤ T.number factor) }
    ensures fault { FalseIff result.1
        (IsWithin T.least T.greatest (T.number number *ℤ T.number factor)) }
{
    let is_outside = number.is_below(least) | greatest.is_below(number);
    (number.mul_value(factor), is_outside)
}
