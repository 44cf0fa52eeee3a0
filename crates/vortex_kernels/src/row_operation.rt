//! The row operations, and whether a loop stops at a fault.

use crate::arithmetic_integer::ArithmeticInteger;
use crate::products::VectorMul;
use vortex_checked::{CheckedAdd, CheckedDiv, CheckedMul, CheckedPrimitiveOp, CheckedSub};

/// A checked operation, and the best form of its loop.
pub trait RowOperation<T: ArithmeticInteger>: CheckedPrimitiveOp<T> {
    /// Whether the loop stops at the first fault, even under a null. Else flags are joined over all
    /// rows, so that the loop can become vector code.
    const ENDS_AT_FAULT: bool;
}

impl<T: ArithmeticInteger> RowOperation<T> for CheckedAdd {
    const ENDS_AT_FAULT: bool = false;
}

impl<T: ArithmeticInteger> RowOperation<T> for CheckedSub {
    const ENDS_AT_FAULT: bool = false;
}

impl<T: ArithmeticInteger> RowOperation<T> for CheckedMul {
    const ENDS_AT_FAULT: bool = false;
}

impl<T: ArithmeticInteger> RowOperation<T> for CheckedDiv {
    const ENDS_AT_FAULT: bool = false;
}

/// Multiplication of 64 bits: the product, wrapped. No vector holds such products, and the
/// processor flags each overflow.
pub struct WideMul {}

impl CheckedPrimitiveOp<i64> for WideMul {
    ghost use Rattle.std.specs.Prelude.{◌*ℤ◌, Some};
    ghost use Rattle.std.specs.Bool.{⊤};
    ghost use Rattle.std.specs.Int.{w64, int_wrap};
    ghost use Rattle.std.proofs.Common.{ap, sym};
    ghost use Rattle.vortex_checked.specs.Kept.{signed_keeps};

    type Fail = bool;

    const ERROR: &'static str = "integer overflow in checked mul";

    ghost exact = { λ a b. Some (a *ℤ b) };

    ghost value = { λ a b. int_wrap w64 (a *ℤ b) };

    ghost tells = { λ _ _ _. ⊤ };

    fn apply(left: i64, right: i64) -> (i64, bool) {
        left.overflowing_mul(right)
    }

    ghost answers = { λ a b h. ap Some (sym (signed_keeps w64 (a *ℤ b) h)) };
}

impl CheckedPrimitiveOp<u64> for WideMul {
    ghost use Rattle.std.specs.Prelude.{◌*ℤ◌, pos, Some};
    ghost use Rattle.std.specs.Bool.{⊤};
    ghost use Rattle.std.specs.Int.{int_rem_euclid};
    ghost use Rattle.std.proofs.Common.{ap, sym};
    ghost use Rattle.vortex_checked.specs.Kept.{unsigned_keeps};

    type Fail = bool;

    const ERROR: &'static str = "integer overflow in checked mul";

    ghost exact = { λ a b. Some (a *ℤ b) };

    ghost value = { λ a b. int_rem_euclid (a *ℤ b) (pos 18446744073709551616) };

    ghost tells = { λ _ _ _. ⊤ };

    fn apply(left: u64, right: u64) -> (u64, bool) {
        left.overflowing_mul(right)
    }

    ghost answers = { λ a b h. ap Some (sym (unsigned_keeps 18446744073709551615 (a *ℤ b) h)) };
}

impl RowOperation<i64> for WideMul {
    const ENDS_AT_FAULT: bool = true;
}

impl RowOperation<u64> for WideMul {
    const ENDS_AT_FAULT: bool = true;
}

impl RowOperation<i16> for VectorMul {
    const ENDS_AT_FAULT: bool = false;
}

impl RowOperation<i32> for VectorMul {
    const ENDS_AT_FAULT: bool = false;
}
