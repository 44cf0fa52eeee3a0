//! Tests of texts by their bytes, one for each form without folding.
ghost use Rattle.std.specs.Prelude.{◌≡◌, ℕ, List, Bool, IsUtf8, string_bytes, nat_eq, length};
ghost use Rattle.std.specs.List.{starts_with, ends_with};
ghost use Rattle.std.specs.Str.{bytes_eq};
ghost use Rattle.memchr.specs.Find.{FindsNeedle};
ghost use Rattle.vortex_like.specs.ByteTests.{holds_inside};

use memchr::memmem::{Finder, FinderBuilder};
use vortex_views::{Row, ValueTest, WordsOfBytes};

/// A test of texts, by their bytes, that allocates nothing.
pub(crate) trait TextTest {
    /// The bytes that may be read.
    ghost can_read: { Self → List ℕ → Type 0 };

    /// The result for them, text or not (as may be under a null).
    ghost said: { Self → List ℕ → Bool };

    fn passes(&self, haystack: &[u8]) -> bool
        requires { can_read self.now haystack.now }
        ensures { result ≡ said self.now haystack.now };
}

/// The same test for a row's text, by its bytes.
#[derive(Clone, Copy)]
pub(crate) struct ByBytes<'a, T: TextTest> {
    pub(crate) test: &'a T,
}

impl<T: TextTest> ValueTest for ByBytes<'_, T> {
    ghost can_read = { λ t bytes. T.can_read t.test.now bytes };

    ghost said = { λ t bytes. T.said t.test.now bytes };

    #[inline(always)]
    fn passes(&self, row: &Row<'_>) -> bool {
        self.test.passes(row.value_bytes())
    }
}

/// Whether a text is this one.
#[derive(Drop)]
pub(crate) struct WholeTest {
    pub(crate) literal: String,
}

impl TextTest for WholeTest {
    ghost can_read = { λ t bytes. Unit {0} };

    ghost said = { λ t bytes. bytes_eq (string_bytes t.literal) bytes };

    fn passes(&self, haystack: &[u8]) -> bool {
        self.literal.as_bytes() == haystack
    }
}

/// Whether a text begins with this one.
#[derive(Drop)]
pub(crate) struct FrontTest {
    pub(crate) literal: String,
}

impl TextTest for FrontTest {
    ghost can_read = { λ t bytes. Unit {0} };

    ghost said = { λ t bytes. starts_with nat_eq bytes (string_bytes t.literal) };

    fn passes(&self, haystack: &[u8]) -> bool {
        haystack.starts_with(self.literal.as_bytes())
    }
}

/// Whether a text ends with this one.
#[derive(Drop)]
pub(crate) struct EndTest {
    pub(crate) literal: String,
}

impl TextTest for EndTest {
    ghost can_read = { λ t bytes. Unit {0} };

    ghost said = { λ t bytes. ends_with nat_eq bytes (string_bytes t.literal) };

    fn passes(&self, haystack: &[u8]) -> bool {
        haystack.ends_with(self.literal.as_bytes())
    }
}

/// Whether a text contains this one. The searcher is built once.
#[derive(Drop)]
pub(crate) struct InsideTest {
    finder: Finder<'static>,
    ghost utf8: { ∥ IsUtf8 finder ∥₁ },
}

impl InsideTest {
    pub(crate) fn new(literal: String) -> InsideTest
        ensures { result.finder ≡ string_bytes literal }
    {
        InsideTest {
            finder: FinderBuilder::new().build_forward_owned(literal.into_bytes()),
        }
    }

    /// How many bytes the literal has.
    pub(crate) fn len(&self) -> usize
        ensures { result ≡ length self.now.finder }
    {
        self.finder.needle().len()
    }

    /// Its first position in these bytes.
    pub(crate) fn find(&self, haystack: &[u8]) -> Option<usize>
        ensures { FindsNeedle haystack.now self.now.finder 0 result }
    {
        self.finder.find(haystack)
    }
}

impl TextTest for InsideTest {
    ghost can_read = { λ t bytes. Unit {0} };

    ghost said = { λ t bytes. holds_inside t.finder bytes };

    fn passes(&self, haystack: &[u8]) -> bool {
        self.finder.find(haystack).is_some()
    }
}
