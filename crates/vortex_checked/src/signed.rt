//! The signed types.

ghost use Rattle.std.specs.Prelude.{◌≡◌, ◌*ℤ◌, ◌/◌, ◌^◌};
ghost use Rattle.std.specs.Int.{w64, w128, cast_unsigned};
ghost use Rattle.vortex_checked.specs.Exact.{sign_word};

use crate::arithmetic::CheckedArithmetic;

/// The upper half of a product in 128 bits.
fn upper_half(left: i64, right: i64) -> u64
    ensures { result ≡ cast_unsigned w128 (left *ℤ right) / 2 ^ 64 }
{
    let product = i128::from(left) * i128::from(right);
    (product.cast_unsigned() >> 64) as u64
}

/// A word whose bits are all the sign of a number.
fn sign_word(number: i64) -> u64
    ensures { result ≡ sign_word w64 number }
{
    if number < 0 { u64::MAX } else { 0 }
}

impl CheckedArithmetic for i8 {
    ghost use Rattle.std.specs.Prelude.{◌*ℤ◌, pos, negsuc};
    ghost use Rattle.std.specs.Int.{w8, int_wrap};
    ghost use Rattle.vortex_checked.specs.Exact.{is_outside};
    ghost use Rattle.vortex_checked.specs.Kept.{signed_keeps};

    type MulFailure = bool;

    ghost number = { λ z. z };

    ghost least = { negsuc 127 };

    ghost greatest = { pos 127 };

    ghost wrapped = { int_wrap w8 };

    ghost mul_evidence = { λ a b. is_outside (negsuc 127) (pos 127) (a *ℤ b) };

    fn add_value(self, rhs: i8) -> i8 {
        self.wrapping_add(rhs)
    }

    fn add_error(self, rhs: i8) -> bool {
        self.overflowing_add(rhs).1
    }

    fn sub_value(self, rhs: i8) -> i8 {
        self.wrapping_sub(rhs)
    }

    fn sub_error(self, rhs: i8) -> bool {
        self.overflowing_sub(rhs).1
    }

    fn mul_value(self, rhs: i8) -> i8 {
        self.wrapping_mul(rhs)
    }

    fn mul_failure(self, rhs: i8) -> bool {
        let product = i16::from(self) * i16::from(rhs);
        product < -128 || product > 127
    }

    fn div_value(self, rhs: i8) -> i8 {
        self / rhs
    }

    fn div_error(self, rhs: i8) -> bool {
        rhs == 0 || (self == i8::MIN && rhs == -1)
    }

    ghost keeps = { signed_keeps w8 };

    ghost zero = { λ x e. e };
}

impl CheckedArithmetic for i16 {
    ghost use Rattle.std.specs.Prelude.{◌*ℤ◌, pos, negsuc};
    ghost use Rattle.std.specs.Int.{w16, int_wrap};
    ghost use Rattle.vortex_checked.specs.Exact.{is_outside};
    ghost use Rattle.vortex_checked.specs.Kept.{signed_keeps};

    type MulFailure = bool;

    ghost number = { λ z. z };

    ghost least = { negsuc 32767 };

    ghost greatest = { pos 32767 };

    ghost wrapped = { int_wrap w16 };

    ghost mul_evidence = { λ a b. is_outside (negsuc 32767) (pos 32767) (a *ℤ b) };

    fn add_value(self, rhs: i16) -> i16 {
        self.wrapping_add(rhs)
    }

    fn add_error(self, rhs: i16) -> bool {
        self.overflowing_add(rhs).1
    }

    fn sub_value(self, rhs: i16) -> i16 {
        self.wrapping_sub(rhs)
    }

    fn sub_error(self, rhs: i16) -> bool {
        self.overflowing_sub(rhs).1
    }

    fn mul_value(self, rhs: i16) -> i16 {
        self.wrapping_mul(rhs)
    }

    fn mul_failure(self, rhs: i16) -> bool {
        let product = i32::from(self) * i32::from(rhs);
        product < -32768 || product > 32767
    }

    fn div_value(self, rhs: i16) -> i16 {
        self / rhs
    }

    fn div_error(self, rhs: i16) -> bool {
        rhs == 0 || (self == i16::MIN && rhs == -1)
    }

    ghost keeps = { signed_keeps w16 };

    ghost zero = { λ x e. e };
}

impl CheckedArithmetic for i32 {
    ghost use Rattle.std.specs.Prelude.{◌*ℤ◌, pos, negsuc};
    ghost use Rattle.std.specs.Int.{w32, int_wrap};
    ghost use Rattle.vortex_checked.specs.Exact.{is_outside};
    ghost use Rattle.vortex_checked.specs.Kept.{signed_keeps};

    type MulFailure = bool;

    ghost number = { λ z. z };

    ghost least = { negsuc 2147483647 };

    ghost greatest = { pos 2147483647 };

    ghost wrapped = { int_wrap w32 };

    ghost mul_evidence = { λ a b. is_outside (negsuc 2147483647) (pos 2147483647) (a *ℤ b) };

    fn add_value(self, rhs: i32) -> i32 {
        self.wrapping_add(rhs)
    }

    fn add_error(self, rhs: i32) -> bool {
        self.overflowing_add(rhs).1
    }

    fn sub_value(self, rhs: i32) -> i32 {
        self.wrapping_sub(rhs)
    }

    fn sub_error(self, rhs: i32) -> bool {
        self.overflowing_sub(rhs).1
    }

    fn mul_value(self, rhs: i32) -> i32 {
        self.wrapping_mul(rhs)
    }

    fn mul_failure(self, rhs: i32) -> bool {
        let product = i64::from(self) * i64::from(rhs);
        product < -2147483648 || product > 2147483647
    }

    fn div_value(self, rhs: i32) -> i32 {
        self / rhs
    }

    fn div_error(self, rhs: i32) -> bool {
        rhs == 0 || (self == i32::MIN && rhs == -1)
    }

    ghost keeps = { signed_keeps w32 };

    ghost zero = { λ x e. e };
}

impl CheckedArithmetic for i64 {
    ghost use Rattle.std.specs.Prelude.{◌*ℤ◌, pos, negsuc};
    ghost use Rattle.std.specs.Int.{w64, w128, int_wrap};
    ghost use Rattle.vortex_checked.specs.Exact.{wide_evidence};
    ghost use Rattle.vortex_checked.specs.Kept.{signed_keeps};

    type MulFailure = u64;

    ghost number = { λ z. z };

    ghost least = { negsuc 9223372036854775807 };

    ghost greatest = { pos 9223372036854775807 };

    ghost wrapped = { int_wrap w64 };

    ghost mul_evidence = { λ a b. wide_evidence w64 w128 (a *ℤ b) };

    fn add_value(self, rhs: i64) -> i64 {
        self.wrapping_add(rhs)
    }

    fn add_error(self, rhs: i64) -> bool {
        self.overflowing_add(rhs).1
    }

    fn sub_value(self, rhs: i64) -> i64 {
        self.wrapping_sub(rhs)
    }

    fn sub_error(self, rhs: i64) -> bool {
        self.overflowing_sub(rhs).1
    }

    fn mul_value(self, rhs: i64) -> i64 {
        self.wrapping_mul(rhs)
    }

    fn mul_failure(self, rhs: i64) -> u64 {
        upper_half(self, rhs) ^ sign_word(self.wrapping_mul(rhs))
    }

    fn div_value(self, rhs: i64) -> i64 {
        self / rhs
    }

    fn div_error(self, rhs: i64) -> bool {
        rhs == 0 || (self == i64::MIN && rhs == -1)
    }

    ghost keeps = { signed_keeps w64 };

    ghost zero = { λ x e. e };
}
