//! The test of texts token by token.
ghost use Rattle.std.specs.Prelude.{◌≡◌, ◌≢◌, ◌+◌, ◌*◌, ◌<◌, ◌≤◌, ℕ, List, [], length, IsTrue};
ghost use Rattle.std.specs.Prelude.{IsUtf8, string_bytes};
ghost use Rattle.std.specs.Str.{chars};
ghost use Rattle.vortex_like.specs.Tokens.{is_match};
ghost use Rattle.vortex_like.specs.Places.{asked};
ghost use Rattle.vortex_like.specs.Fronts.{IsNeeded, IsNeededEnd};

use crate::matching::match_tokens;
use crate::text_tests::TextTest;
use crate::token::{LikeToken, Looks};

/// Whether tokens match a text. Reads characters, so only valid texts.
#[derive(Drop)]
pub(crate) struct TokenTest {
    pub(crate) tokens: Vec<LikeToken>,
    pub(crate) case_insensitive: bool,
    /// A prefix of each text that passes.
    pub(crate) front: String,
    ghost needed: { IsNeeded case_insensitive tokens.items (string_bytes front) },
    /// A suffix of each text that passes.
    pub(crate) end: String,
    ghost needed_end: { IsNeededEnd case_insensitive tokens.items (string_bytes end) },
}

impl TokenTest {
    pub(crate) fn new(
        tokens: Vec<LikeToken>,
        case_insensitive: bool,
        front: String,
        end: String,
    ) -> TokenTest
        requires front { IsNeeded case_insensitive tokens.items (string_bytes front) }
        requires end { IsNeededEnd case_insensitive tokens.items (string_bytes end) }
        ensures tokens { result.tokens.items ≡ tokens.items }
        ensures folds { result.case_insensitive ≡ case_insensitive }
    {
        TokenTest {
            tokens,
            case_insensitive,
            front,
            end,
        }
    }

    /// Whether a text passes, and how often a token was compared with a character.
    pub(crate) fn passes_counted(&self, haystack: &[u8]) -> (bool, Looks)
        requires { IsUtf8 haystack.now }
        ensures test { result.0
            ≡ is_match self.now.case_insensitive self.now.tokens.items (chars haystack.now) }
        ensures most { result.1
            ≤ (length (chars haystack.now) + 1) * (length self.now.tokens.items + 1) }
        ensures least { IsTrue result.0 → asked self.now.tokens.items ≤ result.1 }
        ensures some { 0 < asked self.now.tokens.items → chars haystack.now ≢ []
            → 0 < result.1 }
    {
        let text = unsafe { str::from_utf8_unchecked(haystack) };
        match_tokens(self.tokens.as_slice(), text, self.case_insensitive)
    }
}

impl TextTest for TokenTest {
    ghost can_read = { λ t bytes. IsUtf8 bytes };

    ghost said = { λ t bytes. is_match t.case_insensitive t.tokens.items (chars bytes) };

    fn passes(&self, haystack: &[u8]) -> bool {
        let (found, _) = self.passes_counted(haystack);
        found
    }
}
