//! The four operations, each a type, so that the operation is chosen once, before the rows.

use crate::arithmetic::CheckedArithmetic;
use crate::failure::Failure;

/// A checked operation on the integers of one type.
pub trait CheckedPrimitiveOp<T: CheckedArithmetic> {
    ghost use Rattle.std.specs.Prelude.{◌≡◌, ℤ, Option, Some};
    ghost use Rattle.std.specs.Bool.{FalseIff};
    ghost use Rattle.vortex_checked.specs.Exact.{HasResult};

    type Fail: Failure;

    /// The operator that the error names where the operation faults.
    const ERROR: &'static str;

    /// The exact result, where there is one.
    ghost exact: { ℤ → ℤ → Option ℤ };

    /// The number that is returned, even where the type does not hold the exact result.
    ghost value: { ℤ → ℤ → ℤ };

    /// What else is known of the flag.
    ghost tells: { T → T → Self.Fail → Type 0 };

    /// The value and the flag, which is the default exactly where the type holds the exact result.
    fn apply(left: T, right: T) -> (T, Self::Fail)
        ensures value { T.number result.0 ≡ value (T.number left) (T.number right) }
        ensures fault { FalseIff (Self.Fail.is_fault result.1)
            (HasResult T.least T.greatest (exact (T.number left) (T.number right))) }
        ensures evidence { tells left right result.1 };

    /// Where the type holds the exact result, it is returned.
    ghost answers: { (a b : ℤ) → HasResult T.least T.greatest (exact a b)
        → exact a b ≡ Some (value a b) };
}

/// Addition: the sum, wrapped.
pub struct CheckedAdd {}

impl<T: CheckedArithmetic> CheckedPrimitiveOp<T> for CheckedAdd {
    ghost use Rattle.std.specs.Prelude.{◌+ℤ◌, Some};
    ghost use Rattle.std.specs.Bool.{⊤};
    ghost use Rattle.std.proofs.Common.{ap, sym};

    type Fail = bool;

    const ERROR: &'static str = "integer overflow in checked add";

    ghost exact = { λ a b. Some (a +ℤ b) };

    ghost value = { λ a b. T.wrapped (a +ℤ b) };

    ghost tells = { λ _ _ _. ⊤ };

    fn apply(left: T, right: T) -> (T, bool) {
        (left.add_value(right), left.add_error(right))
    }

    ghost answers = { λ a b h. ap Some (sym (T.keeps (a +ℤ b) h)) };
}

/// Subtraction: the difference, wrapped.
pub struct CheckedSub {}

impl<T: CheckedArithmetic> CheckedPrimitiveOp<T> for CheckedSub {
    ghost use Rattle.std.specs.Prelude.{◌-ℤ◌, Some};
    ghost use Rattle.std.specs.Bool.{⊤};
    ghost use Rattle.std.proofs.Common.{ap, sym};

    type Fail = bool;

    const ERROR: &'static str = "integer overflow in checked sub";

    ghost exact = { λ a b. Some (a -ℤ b) };

    ghost value = { λ a b. T.wrapped (a -ℤ b) };

    ghost tells = { λ _ _ _. ⊤ };

    fn apply(left: T, right: T) -> (T, bool) {
        (left.sub_value(right), left.sub_error(right))
    }

    ghost answers = { λ a b h. ap Some (sym (T.keeps (a -ℤ b) h)) };
}

/// Multiplication: the product, wrapped.
pub struct CheckedMul {}

impl<T: CheckedArithmetic> CheckedPrimitiveOp<T> for CheckedMul {
    ghost use Rattle.std.specs.Prelude.{◌≡◌, ◌*ℤ◌, Some};
    ghost use Rattle.std.proofs.Common.{ap, sym};

    type Fail = T::MulFailure;

    const ERROR: &'static str = "integer overflow in checked mul";

    ghost exact = { λ a b. Some (a *ℤ b) };

    ghost value = { λ a b. T.wrapped (a *ℤ b) };

    ghost tells = { λ a b e. e ≡ T.mul_evidence a b };

    fn apply(left: T, right: T) -> (T, T::MulFailure) {
        (left.mul_value(right), left.mul_failure(right))
    }

    ghost answers = { λ a b h. ap Some (sym (T.keeps (a *ℤ b) h)) };
}

/// Division: the quotient, truncated toward zero; 0 where it faults.
pub struct CheckedDiv {}

impl<T: CheckedArithmetic> CheckedPrimitiveOp<T> for CheckedDiv {
    ghost use Rattle.std.specs.Bool.{⊤};
    ghost use Rattle.vortex_checked.specs.Exact.{quotient, held_or_zero};
    ghost use Rattle.vortex_checked.specs.Kept.{held_is};

    type Fail = bool;

    const ERROR: &'static str = "integer division by zero or overflow in checked div";

    ghost exact = { quotient };

    ghost value = { λ a b. held_or_zero T.least T.greatest (quotient a b) };

    ghost tells = { λ _ _ _. ⊤ };

    fn apply(left: T, right: T) -> (T, bool) {
        if left.div_error(right) {
            (T::default(), true)
        } else {
            (left.div_value(right), false)
        }
    }

    ghost answers = { λ a b. held_is T.least T.greatest (quotient a b) };
}
