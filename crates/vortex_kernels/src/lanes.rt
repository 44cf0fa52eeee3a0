//! The integer types, compared 64 at a time, by the processor's vectors.

mod signed;
mod unsigned;

use vortex_columns::NativePType;

/// One of the eight integer types, 64 of which are compared at once.
pub trait LaneInteger: NativePType {
    ghost use Rattle.std.specs.Prelude.{◌≡◌, ◌<◌, ℕ, map, length};
    ghost use Rattle.vortex_kernels.specs.Words.{bit, Eq, Gt, Lt, holds, int_orders};
    ghost use Rattle.vortex_kernels.specs.Words.{int_orders_with};

    /// Which of 64 integers equal those at the same index, the first as the least significant bit.
    fn equal_word(left: &[Self], right: &[Self]) -> u64
        requires left { length left.now ≡ 64 }
        requires right { length right.now ≡ 64 }
        ensures { (j : ℕ) → j < 64 → bit result j
            ≡ holds Eq (int_orders (map Self.number left.now) (map Self.number right.now) j) };

    /// Which of them are less.
    fn less_word(left: &[Self], right: &[Self]) -> u64
        requires left { length left.now ≡ 64 }
        requires right { length right.now ≡ 64 }
        ensures { (j : ℕ) → j < 64 → bit result j
            ≡ holds Lt (int_orders (map Self.number left.now) (map Self.number right.now) j) };

    /// Which of 64 integers equal a given one.
    fn equal_word_with(left: &[Self], right: Self) -> u64
        requires { length left.now ≡ 64 }
        ensures { (j : ℕ) → j < 64 → bit result j
            ≡ holds Eq (int_orders_with (map Self.number left.now) (Self.number right) j) };

    /// Which of them are less.
    fn less_word_with(left: &[Self], right: Self) -> u64
        requires { length left.now ≡ 64 }
        ensures { (j : ℕ) → j < 64 → bit result j
            ≡ holds Lt (int_orders_with (map Self.number left.now) (Self.number right) j) };

    /// Which of them are greater.
    fn greater_word_with(left: &[Self], right: Self) -> u64
        requires { length left.now ≡ 64 }
        ensures { (j : ℕ) → j < 64 → bit result j
            ≡ holds Gt (int_orders_with (map Self.number left.now) (Self.number right) j) };
}
