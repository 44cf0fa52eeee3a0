//! One pattern against the texts of a column: a loop for each form, chosen before the rows.
ghost use Rattle.std.specs.Prelude.{◌≡◌, ◌<◌, ◌&&◌, ℕ, List, true, false, not, length, nat_eq};
ghost use Rattle.std.specs.Prelude.{string_bytes, IsUtf8, IsTrue, slice_index_or};
ghost use Rattle.std.specs.List.{starts_with, ends_with};
ghost use Rattle.std.specs.Str.{chars, bytes_eq};
ghost use Rattle.vortex_like.specs.Words.{AnswersUnlessMemory, is_match, is_null, row, AreTold};
ghost use Rattle.vortex_like.specs.Words.{IsSaid, turned, texts_of, text_at, AreTexts, AreAscii};
ghost use Rattle.vortex_like.specs.Words.{test_form, test_tokens, test_folds, is_ascii_form};
ghost use Rattle.vortex_like.specs.Words.{form_said, holds_inside};

use crate::any_prefix::AnyPrefixTest;
use crate::first_byte::FirstByte;
use crate::form_test::FormTest;
use crate::gathered::held_rows;
use crate::prefiltered::{tested_after, tested_after_ends};
use crate::small_inside::SmallInsideTest;
use crate::text_tests::{ByBytes, EndTest, FrontTest, InsideTest, TextTest, WholeTest};
use crate::texts::Texts;
use crate::token_test::TokenTest;
use std::alloc::Global;
use vortex_bits::{RowBits, collect_rows};
use vortex_columns::{BitBuffer, Column, VortexResult};
use vortex_views::{
    BinaryView, LongPrefix, LongWhole, Row, ShortPrefix, ShortWhole, ValueTest, WholeEnd,
    WordsOfBytes,
};

/// Fewer texts than this are searched one by one.
const FEW: usize = 64;

/// The result for each text of a test that reads any bytes, also under a null.
#[derive(Clone, Copy)]
struct Tested<'a, T: ValueTest> {
    texts: Texts<'a>,
    test: &'a T,
    negated: bool,
}

impl<T: ValueTest> RowBits for Tested<'_, T> {
    ghost has_row = { λ r i. (i < length (texts_of r.texts))
        × T.can_read r.test.now (text_at (texts_of r.texts) i) };

    ghost row_bit = { λ r i. turned r.negated
        (T.said r.test.now (text_at (texts_of r.texts) i)) };

    fn bit(&self, i: usize) -> bool {
        self.test.passes(&self.texts.row(i)) != self.negated
    }
}

/// The same for a test that reads only texts: rows that are null are skipped.
#[derive(Clone, Copy)]
struct ValidTested<'a, T: ValueTest> {
    column: &'a Column,
    tested: Tested<'a, T>,
}

impl<T: ValueTest> RowBits for ValidTested<'_, T> {
    ghost has_row = { λ r i. (i < length r.column.now.rows)
        × (is_null (row r.column.now.rows i) ≡ false → (i < length (texts_of r.tested.texts))
        × T.can_read r.tested.test.now (text_at (texts_of r.tested.texts) i)) };

    ghost row_bit = { λ r i. not (is_null (row r.column.now.rows i))
        && turned r.tested.negated
        (T.said r.tested.test.now (text_at (texts_of r.tested.texts) i)) };

    fn bit(&self, i: usize) -> bool {
        self.column.is_valid(i) && self.tested.bit(i)
    }
}

/// The results for a column of a test that reads any bytes, negated if `negated`.
fn test_results<T: ValueTest>(
    alloc: Global,
    column: &Column,
    texts: Texts<'_>,
    test: &T,
    negated: bool,
) -> VortexResult<BitBuffer>
    requires texts { AreTexts column.now (texts_of texts) }
    requires reads { (bytes : List ℕ) → T.can_read test.now bytes }
    ensures { AnswersUnlessMemory result (AreTold (length column.now.rows)
        (λ i b. IsSaid (T.said test.now) negated (row column.now.rows i) b)) }
{
    let rows = Tested {
        texts,
        test,
        negated,
    };
    collect_rows(alloc, &rows, column.len())
}

/// The results of a test that reads only texts, never under a null.
fn text_results<'a, T: ValueTest>(
    alloc: Global,
    column: &'a Column,
    texts: Texts<'a>,
    test: &'a T,
    negated: bool,
) -> VortexResult<BitBuffer>
    requires texts { AreTexts column.now (texts_of texts) }
    requires reads { (bytes : List ℕ) → IsUtf8 bytes → T.can_read test.now bytes }
    ensures { AnswersUnlessMemory result (AreTold (length column.now.rows)
        (λ i b. IsSaid (T.said test.now) negated (row column.now.rows i) b)) }
{
    let tested = Tested {
        texts,
        test,
        negated,
    };
    let rows = ValidTested { column, tested };
    collect_rows(alloc, &rows, column.len())
}

/// The results of a token test for the texts of a column. Large columns are filtered by the texts'
/// first bytes, unless the tokens begin with `%`.
fn first_byte_results<'a, T: ValueTest>(
    alloc: Global,
    column: &'a Column,
    texts: Texts<'a>,
    tests: (&'a TokenTest, &'a T),
    negated: bool,
) -> VortexResult<BitBuffer>
    requires texts { AreTexts column.now (texts_of texts) }
    requires reads { (bytes : List ℕ) → IsUtf8 bytes → T.can_read tests.1.now bytes }
    requires same { (bytes : List ℕ) → T.said tests.1.now bytes
        ≡ is_match tests.0.now.case_insensitive tests.0.now.tokens.items (chars bytes) }
    ensures { AnswersUnlessMemory result (AreTold (length column.now.rows)
        (λ i b. IsSaid (T.said tests.entry.1.now) negated (row column.now.rows i) b)) }
{
    let (tokens, test) = tests;
    let own = tokens.tokens.as_slice();
    if column.len() < FEW || own.is_empty() || own[0].is_any() {
        return text_results(alloc, column, texts, test, negated);
    }
    let first = FirstByte::new(alloc, own, tokens.case_insensitive)?;
    tested_after(alloc, column, texts, (&first, test), negated)
}

/// The results of a token test, after a test by words of each text's prefix and suffix, or else of
/// its first byte.
fn token_results<'a>(
    alloc: Global,
    column: &'a Column,
    texts: Texts<'a>,
    test: &'a TokenTest,
    negated: bool,
) -> VortexResult<BitBuffer>
    requires { AreTexts column.now (texts_of texts) }
    ensures { AnswersUnlessMemory result (AreTold (length column.now.rows) (λ i b. IsSaid
        (λ bytes. is_match test.now.case_insensitive test.now.tokens.items (chars bytes))
        negated (row column.now.rows i) b)) }
{
    let front = test.front.as_bytes();
    if front.is_empty() && test.end.is_empty() {
        return first_byte_results(alloc, column, texts, (test, &ByBytes { test }), negated);
    }
    if front.len() <= 4 {
        let front = ShortPrefix::new(front);
        return tested_after_ends(alloc, column, texts, (&front, test), negated);
    }
    let front = LongPrefix::new(front);
    tested_after_ends(alloc, column, texts, (&front, test), negated)
}

/// Which texts begin with a literal part, ignoring case, likewise.
pub(crate) fn any_prefix_results(
    alloc: Global,
    column: &Column,
    texts: Texts<'_>,
    test: &AnyPrefixTest,
    negated: bool,
) -> VortexResult<BitBuffer>
    requires { AreTexts column.now (texts_of texts) }
    ensures { AnswersUnlessMemory result (AreTold (length column.now.rows) (λ i b. IsSaid
        (λ bytes. is_match test.now.tokens.case_insensitive test.now.tokens.tokens.items
        (chars bytes)) negated (row column.now.rows i) b)) }
{
    first_byte_results(
        alloc,
        column,
        texts,
        (&test.tokens, &ByBytes { test }),
        negated,
    )
}

/// Which texts of a column equal this one, negated if `negated`: by the words of their views; the
/// literal's words are precomputed.
fn whole_results(
    alloc: Global,
    column: &Column,
    texts: Texts<'_>,
    test: &WholeTest,
    negated: bool,
) -> VortexResult<BitBuffer>
    requires { AreTexts column.now (texts_of texts) }
    ensures { AnswersUnlessMemory result (AreTold (length column.now.rows) (λ i b. IsSaid
        (λ bytes. bytes_eq (string_bytes test.now.literal) bytes)
        negated (row column.now.rows i) b)) }
{
    let literal = test.literal.as_bytes();
    if literal.len() <= BinaryView::MAX_INLINED_SIZE {
        return test_results(alloc, column, texts, &ShortWhole::new(literal), negated);
    }
    if literal.len() <= BinaryView::MAX_SIZE {
        return test_results(alloc, column, texts, &LongWhole::new(literal), negated);
    }
    test_results(alloc, column, texts, &ByBytes { test }, negated)
}

/// Which texts begin with it, likewise.
fn prefix_results(
    alloc: Global,
    column: &Column,
    texts: Texts<'_>,
    test: &FrontTest,
    negated: bool,
) -> VortexResult<BitBuffer>
    requires { AreTexts column.now (texts_of texts) }
    ensures { AnswersUnlessMemory result (AreTold (length column.now.rows) (λ i b. IsSaid
        (λ bytes. starts_with nat_eq bytes (string_bytes test.now.literal))
        negated (row column.now.rows i) b)) }
{
    let literal = test.literal.as_bytes();
    if literal.len() <= 4 {
        return test_results(alloc, column, texts, &ShortPrefix::new(literal), negated);
    }
    test_results(alloc, column, texts, &LongPrefix::new(literal), negated)
}

/// Which texts end with it, likewise.
fn suffix_results(
    alloc: Global,
    column: &Column,
    texts: Texts<'_>,
    test: &EndTest,
    negated: bool,
) -> VortexResult<BitBuffer>
    requires { AreTexts column.now (texts_of texts) }
    ensures { AnswersUnlessMemory result (AreTold (length column.now.rows) (λ i b. IsSaid
        (λ bytes. ends_with nat_eq bytes (string_bytes test.now.literal))
        negated (row column.now.rows i) b)) }
{
    let end = WholeEnd::new(test.literal.as_bytes());
    test_results(alloc, column, texts, &end, negated)
}

/// Rows that are known to contain a needle or not, negated if `negated`.
#[derive(Clone, Copy)]
struct Held<'a> {
    held: &'a [bool],
    negated: bool,
}

impl RowBits for Held<'_> {
    ghost has_row = { λ r i. i < length r.held.now };

    ghost row_bit = { λ r i. turned r.negated (slice_index_or r.held.now i false) };

    fn bit(&self, i: usize) -> bool {
        self.held[i] != self.negated
    }
}

/// Which texts of a column contain it, likewise: by one search over many if there are many.
fn search_results(
    alloc: Global,
    column: &Column,
    texts: Texts<'_>,
    test: &InsideTest,
    negated: bool,
) -> VortexResult<BitBuffer>
    requires { AreTexts column.now (texts_of texts) }
    ensures { AnswersUnlessMemory result (AreTold (length column.now.rows) (λ i b. IsSaid
        (holds_inside test.now.finder) negated (row column.now.rows i) b)) }
{
    if column.len() < FEW {
        return test_results(alloc, column, texts, &ByBytes { test }, negated);
    }
    let held = held_rows(alloc, &texts, test, false)?;
    let rows = Held {
        held: held.as_slice(),
        negated,
    };
    collect_rows(alloc, &rows, column.len())
}

/// Which texts of a column contain a literal part, ignoring case, likewise, by lower case; each is
/// ASCII or null.
fn lower_case_results(
    alloc: Global,
    column: &Column,
    texts: Texts<'_>,
    test: &SmallInsideTest,
    negated: bool,
) -> VortexResult<BitBuffer>
    requires texts { AreTexts column.now (texts_of texts) }
    requires ascii { AreAscii column.now (texts_of texts) }
    ensures { AnswersUnlessMemory result (AreTold (length column.now.rows) (λ i b. IsSaid
        (λ bytes. is_match test.now.tokens.case_insensitive test.now.tokens.tokens.items
        (chars bytes)) negated (row column.now.rows i) b)) }
{
    let held = held_rows(alloc, &texts, &test.search, true)?;
    let rows = Held {
        held: held.as_slice(),
        negated,
    };
    collect_rows(alloc, &rows, column.len())
}

/// The results of the test of a pattern for the texts of a column, negated if `negated`.
fn form_results(
    alloc: Global,
    column: &Column,
    texts: Texts<'_>,
    test: &FormTest,
    negated: bool,
    ascii: bool,
) -> VortexResult<BitBuffer>
    requires texts { AreTexts column.now (texts_of texts) }
    requires ascii { IsTrue ascii → AreAscii column.now (texts_of texts) }
    ensures { AnswersUnlessMemory result (AreTold (length column.now.rows)
        (λ i b. IsSaid (form_said test.now) negated (row column.now.rows i) b)) }
{
    match test {
        FormTest::Eq(test) => whole_results(alloc, column, texts, test, negated),
        FormTest::StartsWith(test) => prefix_results(alloc, column, texts, test, negated),
        FormTest::EndsWith(test) => suffix_results(alloc, column, texts, test, negated),
        FormTest::Contains(test) => search_results(alloc, column, texts, test, negated),
        FormTest::IEqAscii(test) => {
            test_results(alloc, column, texts, &ByBytes { test }, negated)
        }
        FormTest::IStartsWithAscii(test) => {
            test_results(alloc, column, texts, &ByBytes { test }, negated)
        }
        FormTest::IEndsWithAscii(test) => {
            test_results(alloc, column, texts, &ByBytes { test }, negated)
        }
        FormTest::Tokens(test) => token_results(alloc, column, texts, test, negated),
        FormTest::SmallInside(test) if ascii => {
            lower_case_results(alloc, column, texts, test, negated)
        }
        FormTest::SmallInside(test) => {
            token_results(alloc, column, texts, &test.tokens, negated)
        }
    }
}

/// Which texts of a column the test's tokens match, negated if `negated`. With `ascii` each text
/// that is not null is ASCII.
pub(crate) fn tested_by_form(
    alloc: Global,
    column: &Column,
    texts: Texts<'_>,
    test: &FormTest,
    negated: bool,
    ascii: bool,
) -> VortexResult<BitBuffer>
    requires texts { AreTexts column.now (texts_of texts) }
    requires all { IsTrue ascii → AreAscii column.now (texts_of texts) }
    requires ascii { is_ascii_form (test_form test.now) ≡ true
        → AreAscii column.now (texts_of texts) }
    ensures { AnswersUnlessMemory result (AreTold (length column.now.rows) (λ i b. IsSaid
        (λ bytes. is_match (test_folds test.now) (test_tokens test.now) (chars bytes))
        negated (row column.now.rows i) b)) }
{
    form_results(alloc, column, texts, test, negated, ascii)
}
