//! What a token after a bare name does to what is read.
ghost use Rattle.std.specs.Prelude.{◌≡◌, Some};
ghost use Rattle.vortex_syntax.specs.Tokens.{token_in};
ghost use Rattle.vortex_syntax.specs.Postfix.{last_name};
ghost use Rattle.vortex_syntax.specs.Reading as specs;
ghost use Rattle.vortex_syntax.specs.Reading.{frames_in, steps_in, Gives};

use crate::frame::{Frame, Mode};
use crate::levels::{ATOM, are_digits, is_interval, is_unit, takes_word};
use crate::reading::Reading;
use crate::step::Step;
use crate::token::{Sign, Token};
use std::alloc::AllocError;

impl<'a> Reading<'a> {
    /// A bracket after a bare name, with a gap between them.
    fn open_call(&mut self) -> Result<Option<Mode>, AllocError>
        ensures { Gives result self.new
            (specs.open_call (frames_in self.old) (steps_in self.old)) }
    {
        match self.tree.pop_name() {
            Some((name, place)) => {
                self.at = place;
                self.wait(Frame::Arguments(name, 0))?;
                Ok(Some(Mode::Want))
            }
            None => Ok(None),
        }
    }

    /// Digits after `interval`.
    fn counted(&mut self, token: Token<'a>) -> Result<Option<Mode>, AllocError>
        ensures { Gives result self.new
            (specs.counted (frames_in self.old) (steps_in self.old) (token_in token.entry)) }
    {
        self.emit(Step::Operand(token))?;
        Ok(Some(Mode::Unit))
    }

    /// A text after the name of its type, at that byte.
    fn titled(
        &mut self,
        name: &'a [u8],
        place: usize,
        text: &'a [u8],
    ) -> Result<Option<Mode>, AllocError>
        ensures { Gives result self.new
            (specs.titled (frames_in self.old) (steps_in self.old) name.now text.now) }
    {
        self.emit(Step::Operand(Token::Text(text)))?;
        self.emit_at(Step::Typed(name, false), place)?;
        Ok(Some(Mode::Have(ATOM)))
    }

    /// A text after that name, at that byte.
    fn literal_of(
        &mut self,
        name: &'a [u8],
        place: usize,
        text: &'a [u8],
    ) -> Result<Option<Mode>, AllocError>
        ensures { Gives result self.new
            (specs.literal_of (frames_in self.old) text.now (Some (steps_in self.old, name.now))) }
    {
        if is_interval(name) && are_digits(text) {
            self.counted(Token::Text(text))
        } else {
            self.titled(name, place, text)
        }
    }

    /// A text after a bare name, which is the name of its type.
    fn text_named(&mut self, text: &'a [u8]) -> Result<Option<Mode>, AllocError>
        ensures { Gives result self.new
            (specs.text_named (frames_in self.old) (steps_in self.old) text.now) }
    {
        match self.tree.pop_name() {
            Some((name, place)) => self.literal_of(name, place, text),
            None => Ok(None),
        }
    }

    /// A number after that name.
    fn number_of(&mut self, name: &[u8], digits: &'a [u8]) -> Result<Option<Mode>, AllocError>
        ensures { Gives result self.new
            (specs.number_of (frames_in self.old) digits.now (Some (steps_in self.old, name.now))) }
    {
        if is_interval(name) && are_digits(digits) {
            self.counted(Token::Number(digits))
        } else {
            Ok(None)
        }
    }

    /// A number after a bare name.
    fn number_named(&mut self, digits: &'a [u8]) -> Result<Option<Mode>, AllocError>
        ensures { Gives result self.new
            (specs.number_named (frames_in self.old) (steps_in self.old) digits.now) }
    {
        match self.tree.pop_name() {
            Some((name, _)) => self.number_of(name, digits),
            None => Ok(None),
        }
    }

    /// The unit of an interval.
    pub fn unit_expected(&mut self, token: Token<'a>) -> Result<Option<Mode>, AllocError>
        ensures { Gives result self.new
            (specs.unit_expected (frames_in self.old) (steps_in self.old) (token_in token.entry)) }
    {
        match token {
            Token::Name(unit) if is_unit(unit) => {
                self.emit(Step::Typed(unit, false))?;
                Ok(Some(Mode::Have(ATOM)))
            }
            _ => Ok(None),
        }
    }

    /// A bare name before `from`, which is the first argument in a call of that function, as a text.
    fn word_of(&mut self, function: &'a [u8]) -> Result<Option<Mode>, AllocError>
        ensures { Gives result self.new
            (specs.word_of function.now (frames_in self.old) (last_name (steps_in self.old))) }
    {
        match self.tree.pop_name() {
            Some((word, place)) => {
                self.emit_at(Step::Operand(Token::Text(word)), place)?;
                self.wait(Frame::Extract(function))?;
                Ok(Some(Mode::Want))
            }
            None => Ok(None),
        }
    }

    /// Whether a bare name and `from` may come next, as the first argument of `extract`.
    fn waits_word(&self) -> bool
        ensures { result ≡ specs.waits_word (frames_in self.now) }
    {
        match self.top() {
            Some(Frame::Arguments(function, 0)) => takes_word(function),
            _ => false,
        }
    }

    /// `from` after a bare name in a call.
    fn word_from(&mut self) -> Result<Option<Mode>, AllocError>
        ensures { Gives result self.new
            (specs.word_from (frames_in self.old) (steps_in self.old)) }
    {
        match self.top() {
            Some(Frame::Arguments(function, _)) => {
                self.at = self.top_sign();
                self.drop_top();
                self.word_of(function)
            }
            _ => Ok(None),
        }
    }

    /// `from` after a bare name, which is a word where the bracket of `extract` comes before it.
    fn from_named(&mut self) -> Result<Option<Mode>, AllocError>
        ensures { Gives result self.new
            (specs.from_named (frames_in self.old) (steps_in self.old)) }
    {
        if self.waits_word() {
            return self.word_from();
        }
        self.behind(ATOM, Token::Sign(Sign::From))
    }

    /// A token after a bare name.
    pub fn after_name(&mut self, token: Token<'a>) -> Result<Option<Mode>, AllocError>
        ensures { Gives result self.new
            (specs.after_name (frames_in self.old) (steps_in self.old) (token_in token.entry)) }
    {
        match token {
            Token::Sign(Sign::Open) => self.open_call(),
            Token::Sign(Sign::From) => self.from_named(),
            Token::Text(text) => self.text_named(text),
            Token::Number(digits) => self.number_named(digits),
            _ => self.behind(ATOM, token),
        }
    }
}
