//! The tokens of a text.
ghost use Rattle.std.specs.Prelude.{◌≡◌, ◌≤◌, ◌++◌, ◌∷◌, [], ℕ, List, map, vec_len};
ghost use Rattle.std.specs.Prelude.{IfOk, IfErr, OnOk};
ghost use Rattle.vortex_syntax.specs.Tokens as seen;
ghost use Rattle.vortex_syntax.specs.Tokens.{token_in};
ghost use Rattle.vortex_syntax.specs.Lexing.{Lexes};
ghost use Rattle.vortex_syntax.specs.Errors.{AnswersUnlessMemory};
ghost use Rattle.vortex_syntax.specs.Refusals.{StandsAt, HasNoTokens, byte_in, place_in};

use crate::error::SyntaxError;
use crate::expected::Expected;
use crate::pieces::{Piece, first_piece};
use crate::places::TokenPlaces;
use crate::token::Token;
use std::alloc::{AllocError, Global};

/// The tokens of a text, the byte at which each begins, and the byte at which the text ends.
#[derive(Drop)]
pub struct Tokens<'a> {
    pub tokens: Vec<Token<'a>>,
    pub places: Vec<usize>,
    pub end: usize,
}

impl<'a> Tokens<'a> {
    fn push(&mut self, token: Token<'a>, place: usize) -> Result<(), AllocError>
        ensures tokens { OnOk result
            (self.new.tokens.items ≡ self.old.tokens.items ++ token.entry ∷ []) }
        ensures places { OnOk result (self.new.places.items ≡ self.old.places.items ++ place ∷ []) }
        ensures end { self.new.end ≡ self.old.end }
    {
        self.places.push(place)?;
        self.tokens.push(token)?;
        Ok(())
    }

    /// Positions of the tokens, and what may follow a tree of them.
    pub(crate) fn placed(&self, behind: Expected) -> TokenPlaces<'_>
        ensures { (n : ℕ) → place_in result n ≡ byte_in self.now n }
    {
        TokenPlaces {
            bytes: self.places.as_slice(),
            end: self.end,
            behind,
        }
    }

    /// The byte at which the token of that number begins, or the end of the text.
    pub fn byte(&self, number: usize) -> usize
        ensures { result ≡ byte_in self.now number }
    {
        match self.places.get(number) {
            Some(place) => *place,
            None => self.end,
        }
    }
}

/// The tokens of the text. `NoToken` exactly where it has none, at a byte at which no token begins.
pub fn read_tokens(alloc: Global, text: &[u8]) -> Result<Tokens<'_>, SyntaxError>
    // The result is the tokens of the text.
    ensures found { IfOk result (λ t. Lexes text.now (map token_in t.tokens.items)) }
    // The tokens of the text are returned.
    ensures only { (ts : List seen.Token) → Lexes text.now ts
        → AnswersUnlessMemory result (λ t. map token_in t.tokens.items ≡ ts) }
    // Each token is at its byte, and the end of the text follows.
    ensures places { IfOk result (λ t. (n : ℕ) → n ≤ vec_len t.tokens
        → StandsAt text.now n (byte_in t n)) }
    ensures refused { IfErr result (HasNoTokens text.now) }
{
    let mut read = Tokens {
        tokens: Vec::new(alloc),
        places: Vec::new(alloc),
        end: text.len(),
    };
    let mut rest = text;
    while !rest.is_empty() {
        let place = text.len() - rest.len();
        let Some((piece, behind)) = first_piece(rest) else {
            return Err(SyntaxError::NoToken(place));
        };
        match piece {
            Piece::Gap => {}
            Piece::Token(token) => read.push(token, place)?,
        }
        rest = behind;
    }
    Ok(read)
}
