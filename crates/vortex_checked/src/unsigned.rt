//! The unsigned types.

use crate::arithmetic::CheckedArithmetic;

impl CheckedArithmetic for u8 {
    ghost use Rattle.std.specs.Prelude.{◌*◌, ◌/◌, pos};
    ghost use Rattle.std.specs.Int.{int_rem_euclid};
    ghost use Rattle.std.proofs.Common.{ap};
    ghost use Rattle.vortex_checked.specs.Kept.{unsigned_keeps};

    type MulFailure = u8;

    ghost number = { pos };

    ghost least = { pos 0 };

    ghost greatest = { pos 255 };

    ghost wrapped = { λ z. int_rem_euclid z (pos 256) };

    ghost mul_evidence = { λ a b. a * b / 256 };

    fn add_value(self, rhs: u8) -> u8 {
        self.wrapping_add(rhs)
    }

    fn add_error(self, rhs: u8) -> bool {
        self.overflowing_add(rhs).1
    }

    fn sub_value(self, rhs: u8) -> u8 {
        self.wrapping_sub(rhs)
    }

    fn sub_error(self, rhs: u8) -> bool {
        self < rhs
    }

    fn mul_value(self, rhs: u8) -> u8 {
        self.wrapping_mul(rhs)
    }

    fn mul_failure(self, rhs: u8) -> u8 {
        self.carrying_mul(rhs, 0).1
    }

    fn div_value(self, rhs: u8) -> u8 {
        self / rhs
    }

    fn div_error(self, rhs: u8) -> bool {
        rhs == 0
    }

    ghost keeps = { unsigned_keeps 255 };

    ghost zero = { λ x e. ap pos e };
}

impl CheckedArithmetic for u16 {
    ghost use Rattle.std.specs.Prelude.{◌*◌, ◌/◌, pos};
    ghost use Rattle.std.specs.Int.{int_rem_euclid};
    ghost use Rattle.std.proofs.Common.{ap};
    ghost use Rattle.vortex_checked.specs.Kept.{unsigned_keeps};

    type MulFailure = u16;

    ghost number = { pos };

    ghost least = { pos 0 };

    ghost greatest = { pos 65535 };

    ghost wrapped = { λ z. int_rem_euclid z (pos 65536) };

    ghost mul_evidence = { λ a b. a * b / 65536 };

    fn add_value(self, rhs: u16) -> u16 {
        self.wrapping_add(rhs)
    }

    fn add_error(self, rhs: u16) -> bool {
        self.overflowing_add(rhs).1
    }

    fn sub_value(self, rhs: u16) -> u16 {
        self.wrapping_sub(rhs)
    }

    fn sub_error(self, rhs: u16) -> bool {
        self < rhs
    }

    fn mul_value(self, rhs: u16) -> u16 {
        self.wrapping_mul(rhs)
    }

    fn mul_failure(self, rhs: u16) -> u16 {
        self.carrying_mul(rhs, 0).1
    }

    fn div_value(self, rhs: u16) -> u16 {
        self / rhs
    }

    fn div_error(self, rhs: u16) -> bool {
        rhs == 0
    }

    ghost keeps = { unsigned_keeps 65535 };

    ghost zero = { λ x e. ap pos e };
}

impl CheckedArithmetic for u32 {
    ghost use Rattle.std.specs.Prelude.{◌*◌, ◌/◌, pos};
    ghost use Rattle.std.specs.Int.{int_rem_euclid};
    ghost use Rattle.std.proofs.Common.{ap};
    ghost use Rattle.vortex_checked.specs.Kept.{unsigned_keeps};

    type MulFailure = u32;

    ghost number = { pos };

    ghost least = { pos 0 };

    ghost greatest = { pos 4294967295 };

    ghost wrapped = { λ z. int_rem_euclid z (pos 4294967296) };

    ghost mul_evidence = { λ a b. a * b / 4294967296 };

    fn add_value(self, rhs: u32) -> u32 {
        self.wrapping_add(rhs)
    }

    fn add_error(self, rhs: u32) -> bool {
        self.overflowing_add(rhs).1
    }

    fn sub_value(self, rhs: u32) -> u32 {
        self.wrapping_sub(rhs)
    }

    fn sub_error(self, rhs: u32) -> bool {
        self < rhs
    }

    fn mul_value(self, rhs: u32) -> u32 {
        self.wrapping_mul(rhs)
    }

    fn mul_failure(self, rhs: u32) -> u32 {
        self.carrying_mul(rhs, 0).1
    }

    fn div_value(self, rhs: u32) -> u32 {
        self / rhs
    }

    fn div_error(self, rhs: u32) -> bool {
        rhs == 0
    }

    ghost keeps = { unsigned_keeps 4294967295 };

    ghost zero = { λ x e. ap pos e };
}

impl CheckedArithmetic for u64 {
    ghost use Rattle.std.specs.Prelude.{◌*◌, ◌/◌, pos};
    ghost use Rattle.std.specs.Int.{int_rem_euclid};
    ghost use Rattle.std.proofs.Common.{ap};
    ghost use Rattle.vortex_checked.specs.Kept.{unsigned_keeps};

    type MulFailure = u64;

    ghost number = { pos };

    ghost least = { pos 0 };

    ghost greatest = { pos 18446744073709551615 };

    ghost wrapped = { λ z. int_rem_euclid z (pos 18446744073709551616) };

    ghost mul_evidence = { λ a b. a * b / 18446744073709551616 };

    fn add_value(self, rhs: u64) -> u64 {
        self.wrapping_add(rhs)
    }

    fn add_error(self, rhs: u64) -> bool {
        self.overflowing_add(rhs).1
    }

    fn sub_value(self, rhs: u64) -> u64 {
        self.wrapping_sub(rhs)
    }

    fn sub_error(self, rhs: u64) -> bool {
        self < rhs
    }

    fn mul_value(self, rhs: u64) -> u64 {
        self.wrapping_mul(rhs)
    }

    fn mul_failure(self, rhs: u64) -> u64 {
        self.carrying_mul(rhs, 0).1
    }

    fn div_value(self, rhs: u64) -> u64 {
        self / rhs
    }

    fn div_error(self, rhs: u64) -> bool {
        rhs == 0
    }

    ghost keeps = { unsigned_keeps 18446744073709551615 };

    ghost zero = { λ x e. ap pos e };
}
