//! The floats of a side of a comparison, 64 at a time: as patterns where they lie in a caller's
//! buffers, else as keys.
ghost use Rattle.std.specs.Prelude.{◌≡◌, ◌<◌, ◌+◌, ◌^◌, ℕ, IfSome, length, map, pos};
ghost use Rattle.std.specs.Prelude.{slice_index_or};
ghost use Rattle.std.specs.Ordering.{int_cmp};
ghost use Rattle.vortex_kernels.specs.Words.{bit, holds};

use crate::float_words::{patterns_hold, patterns_hold_with};
use vortex_arrow::ArrowValues;
use vortex_float_bits::{narrow_key, wide_key};
use vortex_kernels::comparisons::Comparison;
use vortex_kernels::lanes::LaneInteger;
use vortex_kernels::numbers::{ListedNumbers, Numbers, OneNumber};

/// Integers of which 64 are read at once.
pub(crate) trait Lanes<T: FloatLane>: Numbers<T> + Copy {
    /// Those of rows `at` to `at + 63`.
    fn lanes(&self, at: usize) -> [T; 64]
        requires place { at + 64 < 2 ^ 64 }
        requires rows { (j : ℕ) → j < 64 → Self.has_row self.now (at + j) }
        ensures count { length result ≡ 64 }
        ensures each { (j : ℕ) → j < 64
            → slice_index_or (map T.number result) j (pos 0) ≡ Self.number_at self.now (at + j) };

    /// The patterns of which these are the keys, where they lie.
    fn patterns(&self, at: usize) -> Option<&[T]>
        requires place { at + 64 < 2 ^ 64 }
        requires rows { (j : ℕ) → j < 64 → Self.has_row self.now (at + j) }
        ensures count { IfSome result (λ xs. length xs.now ≡ 64) }
        ensures each { IfSome result (λ xs. (j : ℕ) → j < 64
            → slice_index_or (map T.key xs.now) j (pos 0) ≡ Self.number_at self.now (at + j)) };

    /// The integer that is in each row.
    fn one(&self) -> Option<T>
        ensures { IfSome result (λ x. (i : ℕ) → Self.number_at self.now i ≡ T.number x) };
}

/// An integer type of patterns of floats, and of their keys, which are in the order of the floats.
pub(crate) trait FloatLane: LaneInteger {
    ghost use Rattle.std.specs.Prelude.{◌≡◌, ℤ, IfSome, map};
    ghost use Rattle.vortex_arrow.specs.Layouts.{layout_of, numbers};

    /// The key of a pattern.
    ghost key: { Self → ℤ };

    fn key_of(self) -> Self
        ensures { Self.number result ≡ key self };

    /// The patterns that values are; none for others.
    fn of_values<'a>(values: ArrowValues<'a>) -> Option<&'a [Self]>
        ensures { IfSome result
            (λ xs. layout_of values.entry ≡ numbers Self.ptype (map key xs.now)) };
}

impl FloatLane for i64 {
    ghost use Rattle.vortex_arrow.specs.Floats.{wide_key};

    ghost key = { wide_key };

    fn key_of(self) -> i64 {
        wide_key(self)
    }

    fn of_values<'a>(values: ArrowValues<'a>) -> Option<&'a [i64]> {
        match values {
            ArrowValues::Float64(xs) => Some(xs),
            _ => None,
        }
    }
}

impl FloatLane for i32 {
    ghost use Rattle.vortex_arrow.specs.Floats.{narrow_key};

    ghost key = { narrow_key };

    fn key_of(self) -> i32 {
        narrow_key(self)
    }

    fn of_values<'a>(values: ArrowValues<'a>) -> Option<&'a [i32]> {
        match values {
            ArrowValues::Float32(xs) => Some(xs),
            _ => None,
        }
    }
}

/// Whether the comparison is true in rows `at` to `at + 63` of patterns on the left, and patterns or
/// one key on the right. None for other sides, and where one of these rows is a NaN.
#[inline(always)]
fn hold_as_floats<P: Comparison, L: Lanes<i64>, R: Lanes<i64>>(
    left: &L,
    right: &R,
    at: usize,
) -> Option<u64>
    requires place { at + 64 < 2 ^ 64 }
    requires left { (j : ℕ) → j < 64 → L.has_row left.now (at + j) }
    requires right { (j : ℕ) → j < 64 → R.has_row right.now (at + j) }
    ensures { IfSome result (λ word. (j : ℕ) → j < 64 → bit word j ≡ holds P.operator
        (int_cmp (L.number_at left.now (at + j)) (R.number_at right.now (at + j)))) }
{
    let lefts = left.patterns(at)?;
    if let Some(rights) = right.patterns(at) {
        return patterns_hold::<P>(lefts, rights);
    }
    let key = right.one()?;
    patterns_hold_with::<P>(lefts, key)
}

/// Such a type, of which 64 are compared at once.
pub(crate) trait ComparedLane: FloatLane {
    ghost use Rattle.std.specs.Prelude.{◌≡◌, ◌<◌, ◌+◌, ◌^◌, ℕ};
    ghost use Rattle.std.specs.Ordering.{int_cmp};
    ghost use Rattle.vortex_kernels.specs.Words.{bit, holds};

    /// Whether the comparison is true in rows `at` to `at + 63` of two sides, the first as the
    /// least significant bit. Each width has its own, since only then an array's size is known.
    fn hold_from<P: Comparison, L: Lanes<Self>, R: Lanes<Self>>(
        left: &L,
        right: &R,
        at: usize,
    ) -> u64
        requires place { at + 64 < 2 ^ 64 }
        requires left { (j : ℕ) → j < 64 → L.has_row left.now (at + j) }
        requires right { (j : ℕ) → j < 64 → R.has_row right.now (at + j) }
        ensures { (j : ℕ) → j < 64 → bit result j ≡ holds P.operator
            (int_cmp (L.number_at left.now (at + j)) (R.number_at right.now (at + j))) };
}

impl ComparedLane for i64 {
    #[inline(always)]
    fn hold_from<P: Comparison, L: Lanes<i64>, R: Lanes<i64>>(
        left: &L,
        right: &R,
        at: usize,
    ) -> u64 {
        match hold_as_floats::<P, L, R>(left, right, at) {
            Some(word) => word,
            None => P::of_integers(&left.lanes(at), &right.lanes(at)),
        }
    }
}

impl ComparedLane for i32 {
    #[inline(always)]
    fn hold_from<P: Comparison, L: Lanes<i32>, R: Lanes<i32>>(
        left: &L,
        right: &R,
        at: usize,
    ) -> u64 {
        P::of_integers(&left.lanes(at), &right.lanes(at))
    }
}

/// The keys of patterns.
#[derive(Clone, Copy)]
pub(crate) struct ListedPatterns<'a, T: FloatLane> {
    pub(crate) patterns: &'a [T],
}

impl<T: FloatLane> Numbers<T> for ListedPatterns<'_, T> {
    ghost has_row = { λ n i. i < length n.patterns.now };

    ghost number_at = { λ n i. slice_index_or (map T.key n.patterns.now) i (pos 0) };

    fn at(&self, i: usize) -> T {
        self.patterns[i].key_of()
    }
}

/// The keys of 64 patterns.
#[inline(always)]
fn keys_of<T: FloatLane>(patterns: &[T]) -> [T; 64]
    requires { length patterns.now ≡ 64 }
    ensures count { length result ≡ 64 }
    ensures each { (j : ℕ) → j < 64 → slice_index_or (map T.number result) j (pos 0)
        ≡ slice_index_or (map T.key patterns.now) j (pos 0) }
{
    let mut keys = [T::zero(); 64];
    for j in 0..64 {
        keys[j] = patterns[j].key_of();
    }
    keys
}

impl<T: FloatLane> Lanes<T> for ListedPatterns<'_, T> {
    #[inline(always)]
    fn lanes(&self, at: usize) -> [T; 64] {
        keys_of(&self.patterns[at..at + 64])
    }

    #[inline(always)]
    fn patterns(&self, at: usize) -> Option<&[T]> {
        Some(&self.patterns[at..at + 64])
    }

    fn one(&self) -> Option<T> {
        None
    }
}

/// A copy of 64 integers.
#[inline(always)]
fn copy_of<T: LaneInteger>(values: &[T]) -> [T; 64]
    requires { length values.now ≡ 64 }
    ensures count { length result ≡ 64 }
    ensures each { (j : ℕ) → j < 64 → slice_index_or (map T.number result) j (pos 0)
        ≡ slice_index_or (map T.number values.now) j (pos 0) }
{
    let mut copy = [T::zero(); 64];
    for j in 0..64 {
        copy[j] = values[j];
    }
    copy
}

impl<T: FloatLane> Lanes<T> for ListedNumbers<'_, T> {
    #[inline(always)]
    fn lanes(&self, at: usize) -> [T; 64] {
        copy_of(&self.values[at..at + 64])
    }

    fn patterns(&self, _at: usize) -> Option<&[T]> {
        None
    }

    fn one(&self) -> Option<T> {
        None
    }
}

impl<T: FloatLane> Lanes<T> for OneNumber<T> {
    #[inline(always)]
    fn lanes(&self, _at: usize) -> [T; 64] {
        [self.value; 64]
    }

    fn patterns(&self, _at: usize) -> Option<&[T]> {
        None
    }

    fn one(&self) -> Option<T> {
        Some(self.value)
    }
}
