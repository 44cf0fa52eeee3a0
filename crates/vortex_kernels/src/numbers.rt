//! One side of arithmetic: the integers of a column, or one integer in each row.
ghost use Rattle.std.specs.Prelude.{◌≡◌, ◌<◌, ℕ, ℤ, pos, map, length, slice_index_or};

use vortex_columns::NativePType;

/// An integer for each row.
pub trait Numbers<T: NativePType> {
    ghost has_row: { Self → ℕ → Type 0 };

    /// The number in a row. Arbitrary under a null.
    ghost number_at: { Self → ℕ → ℤ };

    fn at(&self, i: usize) -> T
        requires { has_row self.now i }
        ensures { T.number result ≡ number_at self.now i };
}

/// The integers of a column.
#[derive(Clone, Copy)]
pub struct ListedNumbers<'a, T: NativePType> {
    pub values: &'a [T],
}

impl<T: NativePType> Numbers<T> for ListedNumbers<'_, T> {
    ghost has_row = { λ n i. i < length n.values.now };

    ghost number_at = { λ n i. slice_index_or (map T.number n.values.now) i (pos 0) };

    fn at(&self, i: usize) -> T {
        self.values[i]
    }
}

/// One integer in each row.
#[derive(Clone, Copy)]
pub struct OneNumber<T: NativePType> {
    pub value: T,
}

impl<T: NativePType> Numbers<T> for OneNumber<T> {
    ghost use Rattle.std.specs.Bool.{⊤};

    ghost has_row = { λ n i. ⊤ };

    ghost number_at = { λ n i. T.number n.value };

    fn at(&self, _i: usize) -> T {
        self.value
    }
}
