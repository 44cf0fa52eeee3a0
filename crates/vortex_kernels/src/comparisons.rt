//! The comparisons, each a type, so that the comparison is chosen once, before the rows.
ghost use Rattle.std.specs.Prelude.{◌≡◌};
ghost use Rattle.vortex_kernels.specs.Words.{CompareOperator, Eq, NotEq, Gt, Gte, Lt, Lte, holds};
ghost use Rattle.vortex_kernels.specs.Words.{byte_order};

use crate::lanes::LaneInteger;
use std::cmp::Ordering;
use vortex_bits::WordFormula;
use vortex_views::{WordsOfBytes, compare, equal};

/// A comparison.
pub trait Comparison: WordFormula + Copy {
    ghost use Rattle.std.specs.Prelude.{◌≡◌, ◌<◌, ℕ, Bool, map, length};
    ghost use Rattle.std.specs.Ordering.{bool_cmp};
    ghost use Rattle.vortex_kernels.specs.Words.{CompareOperator, holds, byte_order, bit};
    ghost use Rattle.vortex_kernels.specs.Words.{int_orders, int_orders_with};

    ghost operator: { CompareOperator };

    /// Whether it is true for that order of left and right.
    fn holds(order: Ordering) -> bool
        ensures { result ≡ holds operator order };

    /// Whether it is true for those texts or byte strings.
    fn holds_of_bytes<A: WordsOfBytes, B: WordsOfBytes>(left: &A, right: &B) -> bool
        ensures { result ≡ holds operator (byte_order (A.value left.now) (B.value right.now)) }
    {
        Self::holds(compare(left, right))
    }

    /// For which of 64 pairs of integers it is true, the first as the least significant bit.
    fn of_integers<T: LaneInteger>(left: &[T], right: &[T]) -> u64
        requires left { length left.now ≡ 64 }
        requires right { length right.now ≡ 64 }
        ensures { (j : ℕ) → j < 64 → bit result j
            ≡ holds operator (int_orders (map T.number left.now) (map T.number right.now) j) };

    /// The same with one integer on the right.
    fn of_integers_with<T: LaneInteger>(left: &[T], right: T) -> u64
        requires { length left.now ≡ 64 }
        ensures { (j : ℕ) → j < 64 → bit result j
            ≡ holds operator (int_orders_with (map T.number left.now) (T.number right) j) };

    /// The formula over words of truth values is the comparison of their order.
    ghost of_bits: { (l r : Bool) → Self.says l r ≡ holds operator (bool_cmp l r) };
}

/// `a = b`
#[derive(Clone, Copy)]
pub struct IsEqual {}

/// `a <> b`
#[derive(Clone, Copy)]
pub struct IsNotEqual {}

/// `a > b`
#[derive(Clone, Copy)]
pub struct IsGreater {}

/// `a >= b`
#[derive(Clone, Copy)]
pub struct IsGreaterOrEqual {}

/// `a < b`
#[derive(Clone, Copy)]
pub struct IsLess {}

/// `a <= b`
#[derive(Clone, Copy)]
pub struct IsLessOrEqual {}

impl WordFormula for IsEqual {
    ghost use Rattle.std.specs.Ordering.{bool_cmp};
    ghost use Rattle.vortex_kernels.specs.Words.{Eq, holds};

    ghost says = { λ l r. holds Eq (bool_cmp l r) };

    fn of_words(left: u64, right: u64) -> u64 {
        !(left ^ right)
    }
}

impl Comparison for IsEqual {
    ghost use Rattle.std.specs.Prelude.{refl};
    ghost use Rattle.vortex_kernels.specs.Words.{Eq};

    ghost operator = { Eq };

    ghost of_bits = { λ l r. refl };

    fn holds(order: Ordering) -> bool {
        order.is_eq()
    }

    fn holds_of_bytes<A: WordsOfBytes, B: WordsOfBytes>(left: &A, right: &B) -> bool {
        equal(left, right)
    }

    #[inline(always)]
    fn of_integers<T: LaneInteger>(left: &[T], right: &[T]) -> u64 {
        T::equal_word(left, right)
    }

    #[inline(always)]
    fn of_integers_with<T: LaneInteger>(left: &[T], right: T) -> u64 {
        T::equal_word_with(left, right)
    }
}

impl WordFormula for IsNotEqual {
    ghost use Rattle.std.specs.Ordering.{bool_cmp};
    ghost use Rattle.vortex_kernels.specs.Words.{NotEq, holds};

    ghost says = { λ l r. holds NotEq (bool_cmp l r) };

    fn of_words(left: u64, right: u64) -> u64 {
        left ^ right
    }
}

impl Comparison for IsNotEqual {
    ghost use Rattle.std.specs.Prelude.{refl};
    ghost use Rattle.vortex_kernels.specs.Words.{NotEq};

    ghost operator = { NotEq };

    ghost of_bits = { λ l r. refl };

    fn holds(order: Ordering) -> bool {
        order.is_ne()
    }

    fn holds_of_bytes<A: WordsOfBytes, B: WordsOfBytes>(left: &A, right: &B) -> bool {
        !equal(left, right)
    }

    #[inline(always)]
    fn of_integers<T: LaneInteger>(left: &[T], right: &[T]) -> u64 {
        !T::equal_word(left, right)
    }

    #[inline(always)]
    fn of_integers_with<T: LaneInteger>(left: &[T], right: T) -> u64 {
        !T::equal_word_with(left, right)
    }
}

impl WordFormula for IsGreater {
    ghost use Rattle.std.specs.Ordering.{bool_cmp};
    ghost use Rattle.vortex_kernels.specs.Words.{Gt, holds};

    ghost says = { λ l r. holds Gt (bool_cmp l r) };

    fn of_words(left: u64, right: u64) -> u64 {
        left & !right
    }
}

impl Comparison for IsGreater {
    ghost use Rattle.std.specs.Prelude.{refl};
    ghost use Rattle.vortex_kernels.specs.Words.{Gt};

    ghost operator = { Gt };

    ghost of_bits = { λ l r. refl };

    fn holds(order: Ordering) -> bool {
        order.is_gt()
    }

    #[inline(always)]
    fn of_integers<T: LaneInteger>(left: &[T], right: &[T]) -> u64 {
        T::less_word(right, left)
    }

    #[inline(always)]
    fn of_integers_with<T: LaneInteger>(left: &[T], right: T) -> u64 {
        T::greater_word_with(left, right)
    }
}

impl WordFormula for IsGreaterOrEqual {
    ghost use Rattle.std.specs.Ordering.{bool_cmp};
    ghost use Rattle.vortex_kernels.specs.Words.{Gte, holds};

    ghost says = { λ l r. holds Gte (bool_cmp l r) };

    fn of_words(left: u64, right: u64) -> u64 {
        left | !right
    }
}

impl Comparison for IsGreaterOrEqual {
    ghost use Rattle.std.specs.Prelude.{refl};
    ghost use Rattle.vortex_kernels.specs.Words.{Gte};

    ghost operator = { Gte };

    ghost of_bits = { λ l r. refl };

    fn holds(order: Ordering) -> bool {
        order.is_ge()
    }

    #[inline(always)]
    fn of_integers<T: LaneInteger>(left: &[T], right: &[T]) -> u64 {
        !T::less_word(left, right)
    }

    #[inline(always)]
    fn of_integers_with<T: LaneInteger>(left: &[T], right: T) -> u64 {
        !T::less_word_with(left, right)
    }
}

impl WordFormula for IsLess {
    ghost use Rattle.std.specs.Ordering.{bool_cmp};
    ghost use Rattle.vortex_kernels.specs.Words.{Lt, holds};

    ghost says = { λ l r. holds Lt (bool_cmp l r) };

    fn of_words(left: u64, right: u64) -> u64 {
        !left & right
    }
}

impl Comparison for IsLess {
    ghost use Rattle.std.specs.Prelude.{refl};
    ghost use Rattle.vortex_kernels.specs.Words.{Lt};

    ghost operator = { Lt };

    ghost of_bits = { λ l r. refl };

    fn holds(order: Ordering) -> bool {
        order.is_lt()
    }

    #[inline(always)]
    fn of_integers<T: LaneInteger>(left: &[T], right: &[T]) -> u64 {
        T::less_word(left, right)
    }

    #[inline(always)]
    fn of_integers_with<T: LaneInteger>(left: &[T], right: T) -> u64 {
        T::less_word_with(left, right)
    }
}

impl WordFormula for IsLessOrEqual {
    ghost use Rattle.std.specs.Ordering.{bool_cmp};
    ghost use Rattle.vortex_kernels.specs.Words.{Lte, holds};

    ghost says = { λ l r. holds Lte (bool_cmp l r) };

    fn of_words(left: u64, right: u64) -> u64 {
        !left | right
    }
}

impl Comparison for IsLessOrEqual {
    ghost use Rattle.std.specs.Prelude.{refl};
    ghost use Rattle.vortex_kernels.specs.Words.{Lte};

    ghost operator = { Lte };

    ghost of_bits = { λ l r. refl };

    fn holds(order: Ordering) -> bool {
        order.is_le()
    }

    #[inline(always)]
    fn of_integers<T: LaneInteger>(left: &[T], right: &[T]) -> u64 {
        !T::less_word(right, left)
    }

    #[inline(always)]
    fn of_integers_with<T: LaneInteger>(left: &[T], right: T) -> u64 {
        !T::greater_word_with(left, right)
    }
}
