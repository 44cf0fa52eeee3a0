//! Texts that begin with a literal part, ignoring case: if a text's first bytes are ASCII they
//! decide, so no test is needed whether all of it is.
ghost use Rattle.std.specs.Prelude.{◌≡◌, ℕ, List, true, IsUtf8};
ghost use Rattle.std.specs.Str.{chars};
ghost use Rattle.vortex_errors.specs.Answers.{AnswersUnlessMemory};
ghost use Rattle.vortex_like.specs.Shapes.{front_tokens};
ghost use Rattle.vortex_like.specs.Tokens.{is_match};

use crate::folded_tests::FoldedText;
use crate::text_tests::TextTest;
use crate::token_test::TokenTest;
use std::alloc::Global;
use vortex_types::VortexResult;

/// Tokens that ask for a literal part at the start, ignoring case, and the part, whose foldings
/// decide for texts whose first bytes are ASCII.
#[derive(Drop)]
pub(crate) struct AnyPrefixTest {
    text: FoldedText,
    pub(crate) tokens: TokenTest,
    ghost past_case: { tokens.case_insensitive ≡ true },
    ghost same: { tokens.tokens.items ≡ front_tokens text },
}

impl AnyPrefixTest {
    pub(crate) fn new(
        alloc: Global,
        tokens: TokenTest,
        literal: &str,
    ) -> VortexResult<AnyPrefixTest>
        requires past_case { tokens.case_insensitive ≡ true }
        requires tokens { tokens.tokens.items ≡ front_tokens (chars literal.now) }
        ensures { AnswersUnlessMemory result (λ t. t.tokens ≡ tokens) }
    {
        let text = FoldedText::new(alloc, literal)?;
        Ok(AnyPrefixTest { text, tokens })
    }
}

impl TextTest for AnyPrefixTest {
    ghost can_read = { λ t bytes. IsUtf8 bytes };

    ghost said = { λ t bytes. is_match t.tokens.case_insensitive t.tokens.tokens.items
        (chars bytes) };

    fn passes(&self, haystack: &[u8]) -> bool {
        let len = self.text.len();
        if haystack.len() >= len && haystack[..len].is_ascii() {
            return self.text.equals(&haystack[..len]);
        }
        self.tokens.passes(haystack)
    }
}
