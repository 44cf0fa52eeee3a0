//! Products of 16 and 32 bits with an overflow flag as wide as the product, so that a loop which
//! joins the flags becomes vector code.

ghost use Rattle.std.specs.Prelude.{◌≡◌, ◌*ℤ◌, ◌/◌, ◌^◌, pos, negsuc};
ghost use Rattle.std.specs.Bool.{FalseIff};
ghost use Rattle.std.specs.Int.{w16, w32, w64, cast_unsigned};
ghost use Rattle.vortex_checked.specs.Evidence.{is_nonzero};
ghost use Rattle.vortex_checked.specs.Exact.{IsWithin, sign_word};

use vortex_checked::CheckedPrimitiveOp;

/// The upper half of a product in 32 bits.
fn upper_half_16(left: i16, right: i16) -> u16
    ensures { result ≡ cast_unsigned w32 (left *ℤ right) / 2 ^ 16 }
{
    let product = i32::from(left) * i32::from(right);
    (product.cast_unsigned() >> 16) as u16
}

/// A word whose bits are all the sign of a 16-bit number.
fn sign_word_16(number: i16) -> u16
    ensures { result ≡ sign_word w16 number }
{
    if number < 0 { u16::MAX } else { 0 }
}

/// The overflow flag of a product of 16 bits: zero exactly where 16 bits hold it.
fn overflow_16(left: i16, right: i16) -> u16
    ensures { FalseIff (is_nonzero result)
        (IsWithin (negsuc 32767) (pos 32767) (left *ℤ right)) }
{
    upper_half_16(left, right) ^ sign_word_16(left.wrapping_mul(right))
}

/// The upper half of a product in 64 bits.
fn upper_half_32(left: i32, right: i32) -> u32
    ensures { result ≡ cast_unsigned w64 (left *ℤ right) / 2 ^ 32 }
{
    let product = i64::from(left) * i64::from(right);
    (product.cast_unsigned() >> 32) as u32
}

/// A word whose bits are all the sign of a 32-bit number.
fn sign_word_32(number: i32) -> u32
    ensures { result ≡ sign_word w32 number }
{
    if number < 0 { u32::MAX } else { 0 }
}

/// The overflow flag of a product of 32 bits: zero exactly where 32 bits hold it.
fn overflow_32(left: i32, right: i32) -> u32
    ensures { FalseIff (is_nonzero result)
        (IsWithin (negsuc 2147483647) (pos 2147483647) (left *ℤ right)) }
{
    upper_half_32(left, right) ^ sign_word_32(left.wrapping_mul(right))
}

/// Multiplication of 16 and 32 bits: the product, wrapped.
pub struct VectorMul {}

impl CheckedPrimitiveOp<i16> for VectorMul {
    ghost use Rattle.std.specs.Prelude.{◌*ℤ◌, Some};
    ghost use Rattle.std.specs.Bool.{⊤};
    ghost use Rattle.std.specs.Int.{w16, int_wrap};
    ghost use Rattle.std.proofs.Common.{ap, sym};
    ghost use Rattle.vortex_checked.specs.Kept.{signed_keeps};

    type Fail = u16;

    const ERROR: &'static str = "integer overflow in checked mul";

    ghost exact = { λ a b. Some (a *ℤ b) };

    ghost value = { λ a b. int_wrap w16 (a *ℤ b) };

    ghost tells = { λ _ _ _. ⊤ };

    fn apply(left: i16, right: i16) -> (i16, u16) {
        (left.wrapping_mul(right), overflow_16(left, right))
    }

    ghost answers = { λ a b h. ap Some (sym (signed_keeps w16 (a *ℤ b) h)) };
}

impl CheckedPrimitiveOp<i32> for VectorMul {
    ghost use Rattle.std.specs.Prelude.{◌*ℤ◌, Some};
    ghost use Rattle.std.specs.Bool.{⊤};
    ghost use Rattle.std.specs.Int.{w32, int_wrap};
    ghost use Rattle.std.proofs.Common.{ap, sym};
    ghost use Rattle.vortex_checked.specs.Kept.{signed_keeps};

    type Fail = u32;

    const ERROR: &'static str = "integer overflow in checked mul";

    ghost exact = { λ a b. Some (a *ℤ b) };

    ghost value = { λ a b. int_wrap w32 (a *ℤ b) };

    ghost tells = { λ _ _ _. ⊤ };

    fn apply(left: i32, right: i32) -> (i32, u32) {
        (left.wrapping_mul(right), overflow_32(left, right))
    }

    ghost answers = { λ a b h. ap Some (sym (signed_keeps w32 (a *ℤ b) h)) };
}
