//! Positions of tokens in their text.
ghost use Rattle.std.specs.Prelude.{◌≡◌, ◌+◌, ℕ};
ghost use Rattle.vortex_syntax.specs.Refusals.{place_in};

use crate::expected::Expected;

/// The bytes at which tokens begin (there may be more), the byte at which the text ends, and what
/// may follow a tree of the tokens.
#[derive(Clone, Copy, Debug)]
pub struct TokenPlaces<'s> {
    pub bytes: &'s [usize],
    pub end: usize,
    pub behind: Expected,
}

impl<'s> TokenPlaces<'s> {
    /// The byte at which the token of that number begins, or the end of the text.
    pub fn byte(&self, number: usize) -> usize
        ensures { result ≡ place_in self.now number }
    {
        match self.bytes.get(number) {
            Some(byte) => *byte,
            None => self.end,
        }
    }

    /// The positions of the tokens after the first ones.
    pub fn after(&self, count: usize) -> TokenPlaces<'s>
        ensures { (n : ℕ) → place_in result n ≡ place_in self.now (count + n) }
    {
        let bytes = self.bytes;
        TokenPlaces {
            bytes: &bytes[count.min(bytes.len())..],
            end: self.end,
            behind: self.behind,
        }
    }
}
