//! Texts that contain a literal part, ignoring case, for ASCII: characters fold alike exactly where
//! they have the same lower case.
ghost use Rattle.std.specs.Prelude.{◌≡◌, ◌<◌, ℕ, List, true, IsTrue};
ghost use Rattle.std.specs.Str.{chars, IsAscii};
ghost use Rattle.vortex_errors.specs.Answers.{AnswersUnlessMemory};
ghost use Rattle.vortex_like.specs.ByteTests.{holds_inside};
ghost use Rattle.vortex_like.specs.Shapes.{inside_tokens};
ghost use Rattle.vortex_like.specs.SmallLetters.{FoldsToSmall, small};
ghost use Rattle.vortex_like.specs.Tokens.{is_match};

use crate::text_tests::InsideTest;
use crate::token_test::TokenTest;
use std::alloc::Global;
use unicode::case::simple_fold;
use vortex_types::VortexResult;

/// Whether each ASCII character folds to its lower-case letter, or to itself if it is no letter.
pub(crate) fn folds_to_small() -> bool
    ensures { IsTrue result → FoldsToSmall }
{
    for c in 0..128u8 {
        if simple_fold(char::from(c)) != char::from(c.to_ascii_lowercase()) {
            return false;
        }
    }
    true
}

/// Tokens that ask for a literal part, ignoring case, and a search that replaces them for an ASCII
/// text: for the literal's lower case in that of the text.
#[derive(Drop)]
pub(crate) struct SmallInsideTest {
    pub(crate) tokens: TokenTest,
    pub(crate) search: InsideTest,
    ghost same: { (bytes : List ℕ) → IsAscii bytes
        → holds_inside search.finder (small bytes)
        ≡ is_match tokens.case_insensitive tokens.tokens.items (chars bytes) },
}

impl SmallInsideTest {
    pub(crate) fn new(
        alloc: Global,
        tokens: TokenTest,
        literal: &str,
    ) -> VortexResult<SmallInsideTest>
        requires letters { FoldsToSmall }
        requires ascii { IsAscii literal.now }
        requires past_case { tokens.case_insensitive ≡ true }
        requires tokens { tokens.tokens.items ≡ inside_tokens (chars literal.now) }
        ensures { AnswersUnlessMemory result (λ t. t.tokens ≡ tokens) }
    {
        let mut own = String::from_str(alloc, literal)?;
        own.make_ascii_lowercase();
        Ok(SmallInsideTest {
            tokens,
            search: InsideTest::new(own),
        })
    }
}
