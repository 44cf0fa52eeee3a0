//! What `from`, `for`, `in` and a side do to what is read, in a call of a function that takes them.
ghost use Rattle.std.specs.Prelude.{◌≡◌};
ghost use Rattle.vortex_syntax.specs.Reading as specs;
ghost use Rattle.vortex_syntax.specs.Reading.{frames_in, steps_in, Gives};

use crate::frame::{Frame, Mode};
use crate::levels::{is_for, takes_from, takes_in, takes_side};
use crate::reading::Reading;
use crate::token::TrimSide;
use std::alloc::AllocError;

impl<'a> Reading<'a> {
    /// `from`, which ends the first argument, or what a text is trimmed by.
    pub(crate) fn from_of(&mut self) -> Result<Option<Mode>, AllocError>
        ensures { Gives result self.new
            (specs.from_behind (frames_in self.old) (steps_in self.old)) }
    {
        match self.top() {
            Some(Frame::Arguments(function, 0)) => {
                if takes_from(function) {
                    self.at = self.top_sign();
                    self.drop_top();
                    self.wait(Frame::From(function))?;
                    Ok(Some(Mode::Want))
                } else if takes_side(function) {
                    self.at = self.top_sign();
                    self.drop_top();
                    self.wait(Frame::TrimBy(TrimSide::Both))?;
                    Ok(Some(Mode::Want))
                } else {
                    Ok(None)
                }
            }
            Some(Frame::Trim(side)) => {
                self.at = self.top_sign();
                self.drop_top();
                self.wait(Frame::TrimBy(side))?;
                Ok(Some(Mode::Want))
            }
            _ => Ok(None),
        }
    }

    /// A side after the bracket of a function that takes it.
    pub(crate) fn side_expected(&mut self, side: TrimSide) -> Result<Option<Mode>, AllocError>
        ensures { Gives result self.new
            (specs.side_expected side (frames_in self.old) (steps_in self.old)) }
    {
        match self.top() {
            Some(Frame::Arguments(function, 0)) => {
                if takes_side(function) {
                    self.at = self.top_sign();
                    self.drop_top();
                    self.wait(Frame::Trim(side))?;
                    Ok(Some(Mode::Want))
                } else {
                    Ok(None)
                }
            }
            _ => Ok(None),
        }
    }

    /// `from` directly after a side.
    pub(crate) fn from_expected(&mut self) -> Result<Option<Mode>, AllocError>
        ensures { Gives result self.new
            (specs.from_expected (frames_in self.old) (steps_in self.old)) }
    {
        match self.top() {
            Some(Frame::Trim(side)) => {
                self.at = self.top_sign();
                self.drop_top();
                self.wait(Frame::TrimFrom(side))?;
                Ok(Some(Mode::Want))
            }
            _ => Ok(None),
        }
    }

    /// A word, which ends the second argument if it is `for`.
    pub(crate) fn for_of(&mut self, word: &[u8]) -> Result<Option<Mode>, AllocError>
        ensures { Gives result self.new
            (specs.for_behind word.now (frames_in self.old) (steps_in self.old)) }
    {
        match self.top() {
            Some(Frame::From(function)) => {
                if is_for(word) {
                    self.at = self.top_sign();
                    self.drop_top();
                    self.wait(Frame::For(function))?;
                    Ok(Some(Mode::Want))
                } else {
                    Ok(None)
                }
            }
            _ => Ok(None),
        }
    }

    /// Whether `in` would end the first argument.
    fn waits_in(&self) -> bool
        ensures { result ≡ specs.waits_in (frames_in self.now) }
    {
        match self.top() {
            Some(Frame::Arguments(function, 0)) => takes_in(function),
            _ => false,
        }
    }

    /// `in`, which ends the first argument.
    fn place_of(&mut self) -> Result<Option<Mode>, AllocError>
        ensures { Gives result self.new
            (specs.place_of (frames_in self.old) (steps_in self.old)) }
    {
        match self.top() {
            Some(Frame::Arguments(function, _)) => {
                self.at = self.top_sign();
                self.drop_top();
                self.wait(Frame::Place(function))?;
                Ok(Some(Mode::Want))
            }
            _ => Ok(None),
        }
    }

    /// `in`, which ends the first argument of a function that takes it, or else is that of IN.
    pub(crate) fn place_or_list(&mut self, level: u8) -> Result<Option<Mode>, AllocError>
        ensures { Gives result self.new
            (specs.place_behind level (frames_in self.old) (steps_in self.old)) }
    {
        if self.waits_in() {
            return self.place_of();
        }
        Ok(self.in_of(false, level))
    }
}
