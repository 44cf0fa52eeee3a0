//! The tokens of a pattern, and the count of looks at them.
ghost use Rattle.std.specs.Prelude.{◌≡◌, ◌+◌, ◌<◌, ◌-◌, ◌^◌};
ghost use Rattle.vortex_like.specs.Words.{any, one, character, is_any, accepts};

use std::marker::Model;
use unicode::case::simple_fold;

/// What a pattern asks for at one position of a text: any sequence of characters, one character, or
/// that character.
#[derive(Drop)]
pub struct LikeToken {
    kind: Kind,
}

#[derive(Clone, Copy)]
enum Kind {
    Any,
    One,
    Char(char),
}

impl Model for LikeToken {
    ghost use Rattle.vortex_like.specs.Tokens.{Token};

    ghost Value = { Token };

    ghost use Rattle.vortex_like.specs.TokenKinds.{token_of};

    ghost view = { λ a. token_of a.kind };
}

/// How often a token was compared with a character.
#[derive(Drop)]
pub struct Looks {
    count: u128,
}

impl Model for Looks {
    ghost use Rattle.std.specs.Prelude.{ℕ};

    ghost Value = { ℕ };

    ghost view = { λ a. a.count };
}

impl Looks {
    /// No looks so far.
    pub fn new() -> Looks
        ensures { result ≡ 0 }
    {
        Looks { count: 0 }
    }

    /// How many looks there were.
    pub fn count(&self) -> u128
        ensures { result ≡ self.now }
    {
        self.count
    }
}

impl LikeToken {
    /// Any sequence of characters, even an empty one.
    pub fn any() -> LikeToken
        ensures { result ≡ any }
    {
        LikeToken { kind: Kind::Any }
    }

    /// Any one character.
    pub fn one() -> LikeToken
        ensures { result ≡ one }
    {
        LikeToken { kind: Kind::One }
    }

    /// That character.
    pub fn character(c: char) -> LikeToken
        ensures { result ≡ character c }
    {
        LikeToken {
            kind: Kind::Char(c),
        }
    }

    /// Whether it is any sequence.
    pub fn is_any(&self) -> bool
        ensures { result ≡ is_any self.now }
    {
        match self.kind {
            Kind::Any => true,
            _ => false,
        }
    }

    /// Whether the token accepts a text of this one character. Only here is a token compared with a
    /// character; it counts as one look.
    pub fn accepts(&self, c: char, case_insensitive: bool, looks: &mut Looks) -> bool
        requires { looks.old < 2 ^ 128 - 1 }
        ensures answer { result ≡ accepts case_insensitive self.now c }
        ensures counted { looks.new ≡ looks.old + 1 }
    {
        looks.count += 1;
        match self.kind {
            Kind::Any => true,
            Kind::One => true,
            Kind::Char(own) if case_insensitive => simple_fold(own) == simple_fold(c),
            Kind::Char(own) => own == c,
        }
    }
}
