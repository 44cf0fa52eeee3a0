//! Rows read 64 at once, from any row on.
ghost use Rattle.std.specs.Prelude.{◌≡◌, ◌<◌, ◌≤◌, ◌+◌, ◌^◌, ℕ};
ghost use Rattle.vortex_kernels.specs.Words.{AnswersUnlessMemory, AreRows, bit};

use std::alloc::Global;
use vortex_bits::{BitWords, RowBits, collect_rows, collect_words};
use vortex_columns::{BitBuffer, VortexResult};

/// A bit for each row, for one of them or for 64 at once.
pub(crate) trait SpanBits: RowBits {
    /// Rows `at` to `at + 63`, the first as the least significant bit.
    fn span(&self, at: usize) -> u64
        requires place { at + 64 < 2 ^ 64 }
        requires rows { (j : ℕ) → j < 64 → Self.has_row self.now (at + j) }
        ensures { (j : ℕ) → j < 64 → bit result j ≡ Self.row_bit self.now (at + j) };
}

/// At least 64 rows, as words.
#[derive(Clone, Copy)]
struct Spans<'a, S: SpanBits> {
    rows: &'a S,
    len: usize,
}

impl<S: SpanBits> BitWords for Spans<'_, S> {
    ghost has_row = { λ s i. (i < s.len) × ((64 ≤ s.len) × ((s.len < 2 ^ 64)
        × ((n : ℕ) → n < s.len → S.has_row s.rows.now n))) };

    ghost row_bit = { λ s i. S.row_bit s.rows.now i };

    fn word(&self, k: usize) -> u64 {
        self.rows.span(64 * k)
    }

    fn last(&self, k: usize, _count: usize) -> u64 {
        // the last 64 rows at once; those before the word are shifted out
        let first = 64 * k;
        let at = first.min(self.len - 64);
        self.rows.span(at) >> (first - at)
    }
}

/// The bit of each row.
pub(crate) fn collect_spans<S: SpanBits>(
    alloc: Global,
    rows: &S,
    len: usize,
) -> VortexResult<BitBuffer>
    requires { (i : ℕ) → i < len → S.has_row rows.now i }
    ensures { AnswersUnlessMemory result (AreRows len (S.row_bit rows.now)) }
{
    if len < 64 {
        collect_rows(alloc, rows, len)
    } else {
        collect_words(alloc, &Spans { rows, len }, len)
    }
}
