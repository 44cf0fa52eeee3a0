//! A test of texts after a test of any bytes, which leaves few rows.
ghost use Rattle.std.specs.Prelude.{◌≡◌, ◌<◌, ◌&&◌, ℕ, List, true, false, not, length, IsUtf8};
ghost use Rattle.vortex_like.specs.Words.{AnswersUnlessMemory, is_null, row, AreTold, IsSaid};
ghost use Rattle.std.specs.Prelude.{nat_eq};
ghost use Rattle.std.specs.List.{ends_with};
ghost use Rattle.std.specs.Str.{chars};
ghost use Rattle.vortex_like.specs.Words.{is_match};
ghost use Rattle.vortex_like.specs.Words.{turned, texts_of, text_at, AreTexts};

use crate::text_tests::ByBytes;
use crate::texts::Texts;
use crate::token_test::TokenTest;
use std::alloc::Global;
use vortex_bits::{RowBits, collect_rows};
use vortex_columns::{BitBuffer, Column, VortexResult};
use vortex_views::{Row, ValueTest, WholeEnd, WordsOfBytes};

/// The result of both tests for each text. The null check and the second test run only for rows
/// that pass the first test.
#[derive(Clone, Copy)]
struct Prefiltered<'a, F: ValueTest, T: ValueTest> {
    column: &'a Column,
    texts: Texts<'a>,
    front: &'a F,
    test: &'a T,
    negated: bool,
}

impl<F: ValueTest, T: ValueTest> RowBits for Prefiltered<'_, F, T> {
    ghost has_row = { λ r i. (i < length r.column.now.rows) × (i < length (texts_of r.texts))
        × F.can_read r.front.now (text_at (texts_of r.texts) i)
        × (is_null (row r.column.now.rows i) ≡ false
        → T.can_read r.test.now (text_at (texts_of r.texts) i)) };

    ghost row_bit = { λ r i. turned r.negated
        (F.said r.front.now (text_at (texts_of r.texts) i)
        && (not (is_null (row r.column.now.rows i))
        && T.said r.test.now (text_at (texts_of r.texts) i))) };

    fn bit(&self, i: usize) -> bool {
        let row = self.texts.row(i);
        let passes = self.front.passes(&row) && (self.column.is_valid(i) && self.test.passes(&row));
        passes != self.negated
    }
}

/// The results of a test for the texts of a column, after another test that all its matches pass.
pub(crate) fn tested_after<'a, F: ValueTest, T: ValueTest>(
    alloc: Global,
    column: &'a Column,
    texts: Texts<'a>,
    tests: (&'a F, &'a T),
    negated: bool,
) -> VortexResult<BitBuffer>
    requires texts { AreTexts column.now (texts_of texts) }
    requires any { (bytes : List ℕ) → F.can_read tests.0.now bytes }
    requires reads { (bytes : List ℕ) → IsUtf8 bytes → T.can_read tests.1.now bytes }
    requires needed { (bytes : List ℕ) → IsUtf8 bytes → T.said tests.1.now bytes ≡ true
        → F.said tests.0.now bytes ≡ true }
    ensures { AnswersUnlessMemory result (AreTold (length column.now.rows)
        (λ i b. IsSaid (T.said tests.entry.1.now) negated (row column.now.rows i) b)) }
{
    let rows = Prefiltered {
        column,
        texts,
        front: tests.0,
        test: tests.1,
        negated,
    };
    collect_rows(alloc, &rows, column.len())
}

/// A test by words of a text's prefix and suffix.
#[derive(Clone, Copy)]
struct BothEnds<'a, F: ValueTest> {
    front: &'a F,
    end: WholeEnd<'a>,
}

impl<F: ValueTest> ValueTest for BothEnds<'_, F> {
    ghost can_read = { λ t bytes. F.can_read t.front.now bytes };

    ghost said = { λ t bytes. F.said t.front.now bytes
        && ends_with nat_eq bytes t.end.literal.now };

    #[inline(always)]
    fn passes(&self, row: &Row<'_>) -> bool {
        self.front.passes(row) && self.end.passes(row)
    }
}

/// The results of a token test for the texts of a column, after a test of their prefixes, and of
/// their suffixes if the tokens end with characters.
pub(crate) fn tested_after_ends<'a, F: ValueTest>(
    alloc: Global,
    column: &'a Column,
    texts: Texts<'a>,
    tests: (&'a F, &'a TokenTest),
    negated: bool,
) -> VortexResult<BitBuffer>
    requires texts { AreTexts column.now (texts_of texts) }
    requires any { (bytes : List ℕ) → F.can_read tests.0.now bytes }
    requires needed { (bytes : List ℕ) → IsUtf8 bytes
        → is_match tests.1.now.case_insensitive tests.1.now.tokens.items (chars bytes) ≡ true
        → F.said tests.0.now bytes ≡ true }
    ensures { AnswersUnlessMemory result (AreTold (length column.now.rows) (λ i b. IsSaid
        (λ bytes. is_match tests.entry.1.now.case_insensitive tests.entry.1.now.tokens.items
        (chars bytes)) negated (row column.now.rows i) b)) }
{
    let (front, test) = tests;
    let by_bytes = ByBytes { test };
    if test.end.is_empty() {
        return tested_after(alloc, column, texts, (front, &by_bytes), negated);
    }
    let ends = BothEnds {
        front,
        end: WholeEnd::new(test.end.as_bytes()),
    };
    tested_after(alloc, column, texts, (&ends, &by_bytes), negated)
}
