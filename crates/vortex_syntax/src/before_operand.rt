//! What a token does to what is read where an operand, or exactly one token, may follow.
ghost use Rattle.std.specs.Prelude.{◌≡◌, option_map};
ghost use Rattle.vortex_syntax.specs.Tokens.{token_in};
ghost use Rattle.vortex_syntax.specs.Reading as specs;
ghost use Rattle.vortex_syntax.specs.Reading.{frames_in, steps_in, seen, Gives};

use crate::frame::{CasePart, Frame, Mode};
use crate::levels::{
    ATOM, BIT_NOT, DISTINCT, IS, LITERAL, NOT, PREDICATE, TYPED, is_operand, operand_level,
};
use crate::pieces::is_same_word;
use crate::reading::Reading;
use crate::step::{BetweenKind, Call, LikeKind, Step, Test};
use crate::token::{Sign, Token};
use std::alloc::AllocError;

/// What follows a column or a literal.
fn mode_behind(token: Token<'_>) -> Mode
    ensures { result ≡ specs.mode_behind (token_in token.entry) }
{
    match token {
        Token::Name(_) => Mode::Named,
        _ => Mode::Have(operand_level(token)),
    }
}

impl<'a> Reading<'a> {
    /// The bracket of a call without arguments.
    fn close_expected(&mut self) -> Result<Option<Mode>, AllocError>
        ensures { Gives result self.new
            (specs.close_expected (frames_in self.old) (steps_in self.old)) }
    {
        match self.top() {
            Some(Frame::Arguments(name, 0)) => {
                self.at = self.top_sign();
                self.drop_top();
                self.emit(Step::Apply(name, 0))?;
                Ok(Some(Mode::Have(ATOM)))
            }
            _ => Ok(None),
        }
    }

    /// `symmetric` after `between`.
    fn symmetric_expected(&mut self) -> Result<Option<Mode>, AllocError>
        ensures { Gives result self.new
            (specs.symmetric_expected (frames_in self.old) (steps_in self.old)) }
    {
        match self.top() {
            Some(Frame::Between(kind)) if !kind.symmetric => {
                self.at = self.top_sign();
                self.drop_top();
                self.wait(Frame::Between(BetweenKind {
                    negated: kind.negated,
                    symmetric: true,
                }))?;
                Ok(Some(Mode::Want))
            }
            _ => Ok(None),
        }
    }

    fn sign_expected(&mut self, sign: Sign) -> Result<Option<Mode>, AllocError>
        ensures { Gives result self.new
            (specs.sign_expected (frames_in self.old) (steps_in self.old) sign) }
    {
        match sign {
            Sign::Minus => Ok(Some(Mode::Signed)),
            Sign::Plus => {
                self.wait(Frame::Plus)?;
                Ok(Some(Mode::Want))
            }
            Sign::BitNot => {
                if BIT_NOT < self.top_hole() {
                    return Ok(None);
                }
                self.wait(Frame::BitNot)?;
                Ok(Some(Mode::Want))
            }
            Sign::Not => {
                if NOT < self.top_hole() {
                    return Ok(None);
                }
                self.wait(Frame::Not)?;
                Ok(Some(Mode::Want))
            }
            Sign::Open => {
                self.wait(Frame::Open)?;
                Ok(Some(Mode::Want))
            }
            Sign::Cast => Ok(Some(Mode::Casting(false))),
            Sign::TryCast => Ok(Some(Mode::Casting(true))),
            Sign::Symmetric => self.symmetric_expected(),
            Sign::Case => {
                self.wait(Frame::Case(CasePart::Operand, false, 0))?;
                Ok(Some(Mode::Want))
            }
            Sign::When => self.when_expected(),
            Sign::Side(side) => self.side_expected(side),
            Sign::From => self.from_expected(),
            Sign::Close => self.close_expected(),
            _ => Ok(None),
        }
    }

    /// A column or a literal.
    fn operand_read(&mut self, token: Token<'a>) -> Result<Option<Mode>, AllocError>
        ensures { Gives result self.new
            (specs.operand_read (frames_in self.old) (steps_in self.old) (token_in token.entry)) }
    {
        if self.top_ceiling() < operand_level(token) {
            return Ok(None);
        }
        self.emit(Step::Operand(token))?;
        Ok(Some(mode_behind(token)))
    }

    /// The first token of an operand.
    pub fn before_operand(&mut self, token: Token<'a>) -> Result<Option<Mode>, AllocError>
        ensures { Gives result self.new
            (specs.before_operand (frames_in self.old) (steps_in self.old) (token_in token.entry)) }
    {
        if is_operand(token) {
            return self.operand_read(token);
        }
        match token {
            Token::Sign(sign) => self.sign_expected(sign),
            Token::Function(name) => {
                self.wait(Frame::Arguments(name, 0))?;
                Ok(Some(Mode::Want))
            }
            _ => Ok(None),
        }
    }

    /// The digits after a minus sign.
    fn digits_read(&mut self, digits: &'a [u8]) -> Result<Option<Mode>, AllocError>
        ensures { Gives result self.new
            (specs.digits_read (frames_in self.old) (steps_in self.old) digits.now) }
    {
        if self.top_ceiling() < LITERAL {
            return Ok(None);
        }
        self.emit(Step::Negative(digits))?;
        Ok(Some(Mode::Have(LITERAL)))
    }

    /// What follows a minus sign, at that byte. Where it is no operand, the sign's frame is dropped
    /// again, and what could have followed the sign is told.
    pub fn signed(&mut self, token: Token<'a>, place: usize) -> Result<Option<Mode>, AllocError>
        ensures { Gives result self.new
            (specs.signed (frames_in self.old) (steps_in self.old) (token_in token.entry)) }
    {
        if let Token::Number(digits) = token {
            return self.digits_read(digits);
        }
        self.wait(Frame::Minus)?;
        self.at = place;
        match self.before_operand(token)? {
            Some(mode) => Ok(Some(mode)),
            None => {
                self.drop_top();
                Ok(None)
            }
        }
    }

    /// The type after two colons.
    pub fn type_expected(&mut self, token: Token<'a>) -> Result<Option<Mode>, AllocError>
        ensures { Gives result self.new
            (specs.type_expected (frames_in self.old) (steps_in self.old) (token_in token.entry)) }
    {
        match token {
            Token::Name(word) => {
                self.emit(Step::Typed(word, false))?;
                Ok(Some(Mode::Have(TYPED)))
            }
            Token::Nullable(word) => {
                self.emit(Step::Typed(word, true))?;
                Ok(Some(Mode::Have(TYPED)))
            }
            _ => Ok(None),
        }
    }

    /// The type to which two colons cast.
    pub fn conversion_expected(
        &mut self,
        level: u8,
        token: Token<'a>,
    ) -> Result<Option<Mode>, AllocError>
        ensures { Gives result self.new (specs.conversion_expected level (frames_in self.old)
            (steps_in self.old) (token_in token.entry)) }
    {
        match token {
            Token::Name(word) => {
                self.emit(Step::Cast(false, word, false))?;
                Ok(Some(Mode::Have(level)))
            }
            Token::Nullable(word) => {
                self.emit(Step::Cast(false, word, true))?;
                Ok(Some(Mode::Have(level)))
            }
            _ => Ok(None),
        }
    }

    /// The type to cast to.
    pub fn cast_expected(
        &mut self,
        tried: bool,
        token: Token<'a>,
    ) -> Result<Option<Mode>, AllocError>
        ensures { Gives result self.new (specs.cast_expected tried (frames_in self.old)
            (steps_in self.old) (token_in token.entry)) }
    {
        match token {
            Token::Name(word) => {
                self.emit(Step::Cast(tried, word, false))?;
                Ok(Some(Mode::CastEnd))
            }
            Token::Nullable(word) => {
                self.emit(Step::Cast(tried, word, true))?;
                Ok(Some(Mode::CastEnd))
            }
            _ => Ok(None),
        }
    }

    /// The end of a test.
    fn tested(&mut self, test: Test, negated: bool) -> Result<Option<Mode>, AllocError>
        ensures { Gives result self.new
            (specs.tested test negated (frames_in self.old) (steps_in self.old)) }
    {
        self.emit(Step::Call(Call::Is(test, negated)))?;
        Ok(Some(Mode::Have(IS)))
    }

    /// `not` after `is`, or after `is not`.
    fn is_not(&mut self, negated: bool) -> Option<Mode>
        ensures { option_map (seen self.new) result
            ≡ specs.is_not negated (frames_in self.old) (steps_in self.old) }
    {
        if negated { None } else { Some(Mode::Is(true)) }
    }

    /// `distinct` after `is`, or after `is not`.
    fn distinct(&mut self, negated: bool) -> Option<Mode>
        ensures { option_map (seen self.new) result
            ≡ specs.distinct negated (frames_in self.old) (steps_in self.old) }
    {
        if DISTINCT < self.top_hole() {
            None
        } else {
            Some(Mode::Distinct(negated))
        }
    }

    /// A word after `is`, or after `is not`: `unknown`, which is a name elsewhere.
    fn word_tested(&mut self, negated: bool, word: &[u8]) -> Result<Option<Mode>, AllocError>
        ensures { Gives result self.new
            (specs.word_tested negated word.now (frames_in self.old) (steps_in self.old)) }
    {
        if is_same_word(word, b"unknown") {
            self.tested(Test::Unknown, negated)
        } else {
            Ok(None)
        }
    }

    /// What follows `is`, or `is not`.
    pub fn after_is(&mut self, negated: bool, token: Token<'a>) -> Result<Option<Mode>, AllocError>
        ensures { Gives result self.new (specs.after_is negated (frames_in self.old)
            (steps_in self.old) (token_in token.entry)) }
    {
        match token {
            Token::Sign(Sign::Null) => self.tested(Test::Null, negated),
            Token::Sign(Sign::True) => self.tested(Test::True, negated),
            Token::Sign(Sign::False) => self.tested(Test::False, negated),
            Token::Name(word) => self.word_tested(negated, word),
            Token::Sign(Sign::Not) => Ok(self.is_not(negated)),
            Token::Sign(Sign::Distinct) => Ok(self.distinct(negated)),
            _ => Ok(None),
        }
    }

    /// The `from` after `distinct`.
    pub fn after_distinct(
        &mut self,
        negated: bool,
        token: Token<'a>,
    ) -> Result<Option<Mode>, AllocError>
        ensures { Gives result self.new (specs.after_distinct negated (frames_in self.old)
            (steps_in self.old) (token_in token.entry)) }
    {
        match token {
            Token::Sign(Sign::From) => {
                self.wait(Frame::Distinct(negated))?;
                Ok(Some(Mode::Want))
            }
            _ => Ok(None),
        }
    }

    /// The bracket after `in`, or after `not in`.
    pub fn after_in(&mut self, negated: bool, token: Token<'a>) -> Result<Option<Mode>, AllocError>
        ensures { Gives result self.new (specs.after_in negated (frames_in self.old)
            (steps_in self.old) (token_in token.entry)) }
    {
        match token {
            Token::Sign(Sign::Open) => {
                self.wait(Frame::Items(negated, 0))?;
                Ok(Some(Mode::Want))
            }
            _ => Ok(None),
        }
    }

    /// The bracket after `cast`, or after `try_cast`.
    pub fn after_cast(&mut self, tried: bool, token: Token<'a>) -> Result<Option<Mode>, AllocError>
        ensures { Gives result self.new (specs.after_cast tried (frames_in self.old)
            (steps_in self.old) (token_in token.entry)) }
    {
        match token {
            Token::Sign(Sign::Open) => {
                self.wait(Frame::Cast(tried))?;
                Ok(Some(Mode::Want))
            }
            _ => Ok(None),
        }
    }

    /// The bracket after the type of a cast.
    pub fn after_cast_type(&mut self, token: Token<'a>) -> Result<Option<Mode>, AllocError>
        ensures { Gives result self.new
            (specs.after_cast_type (frames_in self.old) (steps_in self.old) (token_in token.entry)) }
    {
        match token {
            Token::Sign(Sign::Close) => Ok(Some(Mode::Have(ATOM))),
            _ => Ok(None),
        }
    }

    /// The text after `escape`.
    pub fn after_escape(
        &mut self,
        kind: LikeKind,
        token: Token<'a>,
    ) -> Result<Option<Mode>, AllocError>
        ensures { Gives result self.new
            (specs.after_escape kind (frames_in self.old) (steps_in self.old) (token_in token.entry)) }
    {
        match token {
            Token::Text(text) => {
                self.emit(Step::Escaped(kind, text))?;
                Ok(Some(Mode::Have(PREDICATE)))
            }
            _ => Ok(None),
        }
    }
}
