//! A pattern, compiled once, and the texts that it matches.
ghost use Rattle.std.specs.Prelude.{◌≡◌, ◌≢◌, ◌+◌, ◌*◌, ◌<◌, ◌≤◌, ◌↔◌, [], Some, length};
ghost use Rattle.std.specs.Prelude.{IsTrue, IsUtf8};
ghost use Rattle.std.specs.Str.{chars, IsAscii};
ghost use Rattle.vortex_like.specs.Words.{AnswersUnlessMemory, Match, is_match, pattern_of, asked};
ghost use Rattle.vortex_like.specs.Words.{backslash};
ghost use Rattle.vortex_like.specs.Words.{row, AreTold, IsSaid, texts_of, AreTexts, AreAscii};

use crate::column_test::tested_by_form;
use crate::form::LikeForm;
use crate::form_test::{FormTest, form_test};
use crate::options::LikeOptions;
use crate::texts::Texts;
use crate::token::Looks;
use std::alloc::Global;
use std::marker::Model;
use vortex_columns::{BitBuffer, Column, VortexResult};

/// A pattern, compiled for many texts.
#[derive(Drop)]
pub struct LikePattern {
    test: FormTest,
    ascii_haystack: bool,
}

impl Model for LikePattern {
    ghost use Rattle.vortex_like.specs.Patterns.{PatternView};

    ghost Value = { PatternView };

    ghost use Rattle.vortex_like.specs.FormTests.{test_form, test_tokens, test_folds};
    ghost use Rattle.vortex_like.specs.FormTests.{is_ascii_form};
    ghost use Rattle.std.specs.Prelude.{◌≡◌, true};

    ghost view = { λ a. record {
      tokens = test_tokens a.test;
      case_insensitive = test_folds a.test;
      ascii_haystack = a.ascii_haystack;
      form = test_form a.test;
    } };

    ghost invariant = { λ a. is_ascii_form (test_form a.test) ≡ true → a.ascii_haystack ≡ true };
}

impl LikePattern {
    /// The pattern of a text: `%` is any sequence of characters, newlines too, `_` one character, a
    /// backslash and a character that character, a backslash at the end itself, and every other
    /// character itself.
    ///
    /// With `case_insensitive` a character matches each one with the same simple case folding.
    /// `ascii_haystack` promises that every text to match is ASCII. The pattern has the first form
    /// that fits: without folding Eq, StartsWith, EndsWith, Contains or Tokens; with folding, where
    /// it and every text to match are ASCII, IEqAscii, IStartsWithAscii, IEndsWithAscii or Tokens,
    /// and else Tokens. Fails only where memory runs out (E9).
    pub fn compile(
        alloc: Global,
        pattern: &str,
        case_insensitive: bool,
        ascii_haystack: bool,
    ) -> VortexResult<LikePattern>
        ensures { AnswersUnlessMemory result
            (λ p. p ≡ pattern_of (Some backslash) pattern.now case_insensitive ascii_haystack) }
    {
        let options = LikeOptions {
            negated: false,
            case_insensitive,
            escape: Some('\\'),
        };
        LikePattern::compile_with(alloc, pattern, options, ascii_haystack)
    }

    /// The same with the escape of the options instead of the backslash, or with none, and with
    /// folding if they ignore case. If the escape is `%` or `_`, that is no wildcard; it is
    /// compared unchanged, even ignoring case. A form's literal part has no escape, and an escape
    /// `%` gives only Eq, IEqAscii and Tokens. Negation does not matter for a pattern. Fails only
    /// where memory runs out (E9).
    pub fn compile_with(
        alloc: Global,
        pattern: &str,
        options: LikeOptions,
        ascii_haystack: bool,
    ) -> VortexResult<LikePattern>
        ensures { AnswersUnlessMemory result (λ p. p
            ≡ pattern_of options.escape pattern.now options.case_insensitive ascii_haystack) }
    {
        let past_case = options.case_insensitive;
        let test = form_test(alloc, pattern, options.escape, past_case, ascii_haystack)?;
        Ok(LikePattern {
            test,
            ascii_haystack,
        })
    }

    /// The form of the pattern.
    pub fn form(&self) -> LikeForm
        ensures { result ≡ self.now.form }
    {
        self.test.form()
    }

    /// Whether the pattern matches a text, whole, by the text's UTF-8 bytes. Allocates nothing.
    pub fn matches(&self, haystack: &[u8]) -> bool
        requires utf8 { IsUtf8 haystack.now }
        requires ascii { IsTrue self.now.ascii_haystack → IsAscii haystack.now }
        ensures answer { IsTrue result
            ↔ Match self.now.case_insensitive self.now.tokens (chars haystack.now) }
        ensures test { result
            ≡ is_match self.now.case_insensitive self.now.tokens (chars haystack.now) }
    {
        self.test.passes(haystack)
    }

    /// The same, and how often a token was compared with a character: at most (characters + 1)
    /// times (tokens + 1). Forms other than Tokens compare none. Tokens compares each token but `%`
    /// at least once where it matches, and one of them where it does not, if there is one and the
    /// text is not empty.
    pub fn matches_counted(&self, haystack: &[u8]) -> (bool, Looks)
        requires utf8 { IsUtf8 haystack.now }
        requires ascii { IsTrue self.now.ascii_haystack → IsAscii haystack.now }
        ensures answer { IsTrue result.0
            ↔ Match self.now.case_insensitive self.now.tokens (chars haystack.now) }
        ensures test { result.0
            ≡ is_match self.now.case_insensitive self.now.tokens (chars haystack.now) }
        ensures looks { result.1
            ≤ (length (chars haystack.now) + 1) * (length self.now.tokens + 1) }
        ensures none { self.now.form ≢ LikeForm.Tokens → result.1 ≡ 0 }
        ensures least { self.now.form ≡ LikeForm.Tokens → IsTrue result.0
            → asked self.now.tokens ≤ result.1 }
        ensures some { self.now.form ≡ LikeForm.Tokens → 0 < asked self.now.tokens
            → chars haystack.now ≢ [] → 0 < result.1 }
    {
        self.test.passes_counted(haystack)
    }

    /// Whether it matches each text of a column, negated if `negated`. Arbitrary for a null row.
    pub(crate) fn matched_rows(
        &self,
        alloc: Global,
        column: &Column,
        texts: Texts<'_>,
        negated: bool,
    ) -> VortexResult<BitBuffer>
        requires texts { AreTexts column.now (texts_of texts) }
        requires ascii { IsTrue self.now.ascii_haystack → AreAscii column.now (texts_of texts) }
        ensures { AnswersUnlessMemory result (AreTold (length column.now.rows) (λ i b. IsSaid
            (λ bytes. is_match self.now.case_insensitive self.now.tokens (chars bytes))
            negated (row column.now.rows i) b)) }
    {
        let ascii = self.ascii_haystack;
        tested_by_form(alloc, column, texts, &self.test, negated, ascii)
    }
}
