//! The test that a pattern is compiled to, by its form.
ghost use Rattle.std.specs.Prelude.{◌≡◌, ◌≢◌, ◌+◌, ◌*◌, ◌<◌, ◌≤◌, [], length, true, false};
ghost use Rattle.std.specs.Prelude.{IsTrue, IsUtf8, string_bytes};
ghost use Rattle.std.specs.Str.{chars, IsAscii};
ghost use Rattle.vortex_like.specs.Words.{AnswersUnlessMemory, is_match, asked, form_of};
ghost use Rattle.vortex_like.specs.Words.{plain_form, folded_form, test_form, test_tokens};
ghost use Rattle.vortex_like.specs.Words.{test_folds, is_ascii_form, form_said, IsTestOf};
ghost use Rattle.vortex_like.specs.Words.{IsNeeded, IsNeededEnd, tokens_of, inside_tokens};

use crate::cuts::cut_at_special;
use crate::folded_tests::{FoldedEndTest, FoldedFrontTest, FoldedText, FoldedWholeTest};
use crate::form::{LikeForm, PatternShape, shape_of};
use crate::small_inside::{SmallInsideTest, folds_to_small};
use crate::text_tests::{EndTest, FrontTest, InsideTest, TextTest, WholeTest};
use crate::token::Looks;
use crate::token_reading::{last_part, tokens_of};
use crate::token_test::TokenTest;
use std::alloc::Global;
use vortex_types::VortexResult;

/// The test for a text, one variant for each form.
#[derive(Drop)]
pub(crate) enum FormTest {
    Eq(WholeTest),
    StartsWith(FrontTest),
    EndsWith(EndTest),
    Contains(InsideTest),
    IEqAscii(FoldedWholeTest),
    IStartsWithAscii(FoldedFrontTest),
    IEndsWithAscii(FoldedEndTest),
    Tokens(TokenTest),
    /// Tokens, also for `Contains` ignoring case.
    SmallInside(SmallInsideTest),
}

/// The prefix of each text that a pattern matches: its characters before the first special one;
/// empty if case is ignored.
fn needed_prefix(
    alloc: Global,
    pattern: &str,
    escape: Option<char>,
    case_insensitive: bool,
) -> VortexResult<String>
    ensures { AnswersUnlessMemory result (λ front. IsNeeded case_insensitive
        (tokens_of escape (chars pattern.now)) (string_bytes front)) }
{
    if case_insensitive {
        return Ok(String::new(alloc));
    }
    let cut = cut_at_special(pattern, escape);
    Ok(String::from_str(alloc, cut.front)?)
}

/// The suffix of each text that a pattern matches: its characters after the last special one; empty
/// if case is ignored.
fn needed_end(
    alloc: Global,
    pattern: &str,
    escape: Option<char>,
    case_insensitive: bool,
) -> VortexResult<String>
    ensures { AnswersUnlessMemory result (λ end. IsNeededEnd case_insensitive
        (tokens_of escape (chars pattern.now)) (string_bytes end)) }
{
    if case_insensitive {
        return Ok(String::new(alloc));
    }
    let part = last_part(pattern, escape);
    Ok(String::from_str(alloc, part)?)
}

/// The tokens of a pattern, as a test.
pub(crate) fn tokens_test(
    alloc: Global,
    pattern: &str,
    escape: Option<char>,
    case_insensitive: bool,
) -> VortexResult<TokenTest>
    ensures tokens { AnswersUnlessMemory result
        (λ t. t.tokens.items ≡ tokens_of escape (chars pattern.now)) }
    ensures folds { AnswersUnlessMemory result (λ t. t.case_insensitive ≡ case_insensitive) }
{
    let tokens = tokens_of(alloc, pattern, escape)?;
    let front = needed_prefix(alloc, pattern, escape, case_insensitive)?;
    let end = needed_end(alloc, pattern, escape, case_insensitive)?;
    Ok(TokenTest::new(tokens, case_insensitive, front, end))
}

/// The test of a pattern token by token.
fn token_test(
    alloc: Global,
    pattern: &str,
    escape: Option<char>,
    case_insensitive: bool,
) -> VortexResult<FormTest>
    ensures { AnswersUnlessMemory result
        (IsTestOf escape (chars pattern.now) case_insensitive LikeForm.Tokens) }
{
    Ok(FormTest::Tokens(tokens_test(alloc, pattern, escape, case_insensitive)?))
}

/// The test, with folding, of a pattern that is this literal part between two `%`: token by token,
/// but for ASCII texts by lower case if that decides equal foldings.
fn small_inside_test(
    alloc: Global,
    pattern: &str,
    escape: Option<char>,
    literal: &str,
) -> VortexResult<FormTest>
    requires { tokens_of escape (chars pattern.now) ≡ inside_tokens (chars literal.now) }
    ensures { AnswersUnlessMemory result
        (IsTestOf escape (chars pattern.now) true LikeForm.Tokens) }
{
    let tokens = tokens_test(alloc, pattern, escape, true)?;
    if !literal.is_ascii() || !folds_to_small() {
        return Ok(FormTest::Tokens(tokens));
    }
    let test = SmallInsideTest::new(alloc, tokens, literal)?;
    Ok(FormTest::SmallInside(test))
}

/// The test of a pattern without folding.
fn plain_test(alloc: Global, pattern: &str, escape: Option<char>) -> VortexResult<FormTest>
    ensures { AnswersUnlessMemory result
        (IsTestOf escape (chars pattern.now) false (plain_form escape (chars pattern.now))) }
{
    match shape_of(pattern, escape) {
        PatternShape::Whole(text) => {
            let literal = String::from_str(alloc, text)?;
            Ok(FormTest::Eq(WholeTest { literal }))
        }
        PatternShape::Front(text) => {
            let literal = String::from_str(alloc, text)?;
            Ok(FormTest::StartsWith(FrontTest { literal }))
        }
        PatternShape::End(text) => {
            let literal = String::from_str(alloc, text)?;
            Ok(FormTest::EndsWith(EndTest { literal }))
        }
        PatternShape::Inside(text) => {
            let literal = String::from_str(alloc, text)?;
            Ok(FormTest::Contains(InsideTest::new(literal)))
        }
        PatternShape::Other => token_test(alloc, pattern, escape, false),
    }
}

/// The test of a pattern with folding, for ASCII texts.
fn folded_test(alloc: Global, pattern: &str, escape: Option<char>) -> VortexResult<FormTest>
    ensures { AnswersUnlessMemory result
        (IsTestOf escape (chars pattern.now) true
        (folded_form (plain_form escape (chars pattern.now)))) }
{
    match shape_of(pattern, escape) {
        PatternShape::Whole(literal) => {
            let text = FoldedText::new(alloc, literal)?;
            Ok(FormTest::IEqAscii(FoldedWholeTest { text }))
        }
        PatternShape::Front(literal) => {
            let text = FoldedText::new(alloc, literal)?;
            Ok(FormTest::IStartsWithAscii(FoldedFrontTest { text }))
        }
        PatternShape::End(literal) => {
            let text = FoldedText::new(alloc, literal)?;
            Ok(FormTest::IEndsWithAscii(FoldedEndTest { text }))
        }
        PatternShape::Inside(literal) => small_inside_test(alloc, pattern, escape, literal),
        PatternShape::Other => token_test(alloc, pattern, escape, true),
    }
}

/// The test of a pattern, by its form.
pub(crate) fn form_test(
    alloc: Global,
    pattern: &str,
    escape: Option<char>,
    case_insensitive: bool,
    ascii_haystack: bool,
) -> VortexResult<FormTest>
    ensures { AnswersUnlessMemory result (IsTestOf escape (chars pattern.now) case_insensitive
        (form_of escape (chars pattern.now) case_insensitive ascii_haystack)) }
{
    if !case_insensitive {
        return plain_test(alloc, pattern, escape);
    }
    if ascii_haystack && pattern.is_ascii() {
        return folded_test(alloc, pattern, escape);
    }
    token_test(alloc, pattern, escape, true)
}

impl FormTest {
    /// The form of the pattern.
    pub(crate) fn form(&self) -> LikeForm
        ensures { result ≡ test_form self.now }
    {
        match self {
            FormTest::Eq(_) => LikeForm::Eq,
            FormTest::StartsWith(_) => LikeForm::StartsWith,
            FormTest::EndsWith(_) => LikeForm::EndsWith,
            FormTest::Contains(_) => LikeForm::Contains,
            FormTest::IEqAscii(_) => LikeForm::IEqAscii,
            FormTest::IStartsWithAscii(_) => LikeForm::IStartsWithAscii,
            FormTest::IEndsWithAscii(_) => LikeForm::IEndsWithAscii,
            FormTest::Tokens(_) => LikeForm::Tokens,
            FormTest::SmallInside(_) => LikeForm::Tokens,
        }
    }

    /// The test's result for a text, by its bytes.
    fn says(&self, haystack: &[u8]) -> bool
        requires { IsUtf8 haystack.now }
        ensures { result ≡ form_said self.now haystack.now }
    {
        match self {
            FormTest::Eq(test) => test.passes(haystack),
            FormTest::StartsWith(test) => test.passes(haystack),
            FormTest::EndsWith(test) => test.passes(haystack),
            FormTest::Contains(test) => test.passes(haystack),
            FormTest::IEqAscii(test) => test.passes(haystack),
            FormTest::IStartsWithAscii(test) => test.passes(haystack),
            FormTest::IEndsWithAscii(test) => test.passes(haystack),
            FormTest::Tokens(test) => test.passes(haystack),
            FormTest::SmallInside(test) => test.tokens.passes(haystack),
        }
    }

    /// Whether a text passes.
    #[tactic(auto, using(crate::proofs::FormAnswers::form_answer))]
    pub(crate) fn passes(&self, haystack: &[u8]) -> bool
        requires utf8 { IsUtf8 haystack.now }
        requires ascii { is_ascii_form (test_form self.now) ≡ true → IsAscii haystack.now }
        ensures { result
            ≡ is_match (test_folds self.now) (test_tokens self.now) (chars haystack.now) }
    {
        self.says(haystack)
    }

    /// The same, and how often a token was compared with a character.
    pub(crate) fn passes_counted(&self, haystack: &[u8]) -> (bool, Looks)
        requires utf8 { IsUtf8 haystack.now }
        requires ascii { is_ascii_form (test_form self.now) ≡ true → IsAscii haystack.now }
        ensures test { result.0
            ≡ is_match (test_folds self.now) (test_tokens self.now) (chars haystack.now) }
        ensures none { test_form self.now ≢ LikeForm.Tokens → result.1 ≡ 0 }
        ensures most { result.1
            ≤ (length (chars haystack.now) + 1) * (length (test_tokens self.now) + 1) }
        ensures least { test_form self.now ≡ LikeForm.Tokens → IsTrue result.0
            → asked (test_tokens self.now) ≤ result.1 }
        ensures some { test_form self.now ≡ LikeForm.Tokens → 0 < asked (test_tokens self.now)
            → chars haystack.now ≢ [] → 0 < result.1 }
    {
        match self {
            FormTest::Tokens(test) => test.passes_counted(haystack),
            FormTest::SmallInside(test) => test.tokens.passes_counted(haystack),
            _ => (self.passes(haystack), Looks::new()),
        }
    }
}
