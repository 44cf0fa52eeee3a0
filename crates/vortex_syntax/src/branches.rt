//! What the words of a CASE do to what is read.
ghost use Rattle.vortex_syntax.specs.Reading as specs;
ghost use Rattle.vortex_syntax.specs.Reading.{frames_in, steps_in, Gives};

use crate::after_operand::one_more;
use crate::frame::{CasePart, Frame, Mode};
use crate::levels::ATOM;
use crate::reading::Reading;
use crate::step::Step;
use crate::token::Sign;
use std::alloc::AllocError;

impl<'a> Reading<'a> {
    fn case_waits(
        &mut self,
        part: CasePart,
        has_operand: bool,
        count: usize,
    ) -> Result<Option<Mode>, AllocError>
        ensures { Gives result self.new
            (specs.case_waits part has_operand count (frames_in self.old) (steps_in self.old)) }
    {
        self.wait(Frame::Case(part, has_operand, count))?;
        Ok(Some(Mode::Want))
    }

    fn case_ends(
        &mut self,
        has_operand: bool,
        count: usize,
        has_else: bool,
    ) -> Result<Option<Mode>, AllocError>
        ensures { Gives result self.new
            (specs.case_ends has_operand count has_else (frames_in self.old) (steps_in self.old)) }
    {
        self.emit(Step::Case(has_operand, count, has_else))?;
        Ok(Some(Mode::Have(ATOM)))
    }

    /// A word after that part of a CASE, whose frame is taken. Where the word does not belong there
    /// the frame is put back, by which it is told what does.
    fn case_behind(
        &mut self,
        part: CasePart,
        has_operand: bool,
        count: usize,
        sign: Sign,
    ) -> Result<Option<Mode>, AllocError>
        ensures { Gives result self.new (specs.case_behind part has_operand count
            (frames_in self.old) (steps_in self.old) sign) }
    {
        match (part, sign) {
            (CasePart::Operand, Sign::When) => self.case_waits(CasePart::When, true, 0),
            (CasePart::When, Sign::Then) => self.case_waits(CasePart::Then, has_operand, count),
            (CasePart::Then, Sign::When) => {
                self.case_waits(CasePart::When, has_operand, one_more(count)?)
            }
            (CasePart::Then, Sign::Else) => {
                self.case_waits(CasePart::Else, has_operand, one_more(count)?)
            }
            (CasePart::Then, Sign::End) => self.case_ends(has_operand, one_more(count)?, false),
            (CasePart::Else, Sign::End) => self.case_ends(has_operand, count, true),
            _ => {
                self.wait(Frame::Case(part, has_operand, count))?;
                Ok(None)
            }
        }
    }

    /// `when`, `then`, `else` or `end` after an operand.
    pub fn case_word(&mut self, sign: Sign) -> Result<Option<Mode>, AllocError>
        ensures { Gives result self.new
            (specs.case_word (frames_in self.old) (steps_in self.old) sign) }
    {
        match self.top() {
            Some(Frame::Case(part, has_operand, count)) => {
                self.at = self.top_sign();
                self.drop_top();
                self.case_behind(part, has_operand, count, sign)
            }
            _ => Ok(None),
        }
    }

    /// The first `when` of a CASE without an operand.
    pub fn when_expected(&mut self) -> Result<Option<Mode>, AllocError>
        ensures { Gives result self.new
            (specs.when_expected (frames_in self.old) (steps_in self.old)) }
    {
        match self.top() {
            Some(Frame::Case(CasePart::Operand, _, _)) => {
                self.at = self.top_sign();
                self.drop_top();
                self.case_waits(CasePart::When, false, 0)
            }
            _ => Ok(None),
        }
    }
}
