//! What is read so far, and what a sign closes.
ghost use Rattle.std.specs.Prelude.{◌≡◌, ◌++◌, ◌∷◌, [], ◌<◌, List, ℕ, vec_len};
ghost use Rattle.std.specs.Prelude.{IfOk, OnOk, IfSome, MatchOption};
ghost use Rattle.vortex_syntax.specs.Postfix.{step_in};
ghost use Rattle.vortex_syntax.specs.Frames as seen;
ghost use Rattle.vortex_syntax.specs.Frames.{frame_in};
ghost use Rattle.vortex_syntax.specs.Reading.{frames_in, steps_in, operand_of, settled};
ghost use Rattle.vortex_syntax.specs.Reading.{closed_once, Gives, waiting, shifted};

use crate::frame::{Frame, Mode, ceiling, closing, guard, hole, whole};
use crate::levels::{LITERAL, OR};
use crate::step::Step;
use crate::tree::SyntaxTree;
use std::alloc::{AllocError, Global};

/// What is read so far: the pending frames, each with the byte of its sign, and the steps.
#[derive(Drop)]
pub struct Reading<'a> {
    pub frames: Vec<Frame<'a>>,
    pub signs: Vec<usize>,
    pub tree: SyntaxTree<'a>,
    /// The byte at which the next step is reported.
    pub at: usize,
}

impl<'a> Reading<'a> {
    pub fn new(alloc: Global) -> Reading<'a>
        ensures frames { frames_in result ≡ [] }
        ensures steps { steps_in result ≡ [] }
    {
        Reading {
            frames: Vec::new(alloc),
            signs: Vec::new(alloc),
            tree: SyntaxTree::new(alloc),
            at: 0,
        }
    }

    pub fn wait(&mut self, frame: Frame<'a>) -> Result<(), AllocError>
        ensures frames { OnOk result
            (frames_in self.new ≡ frame_in frame.entry ∷ frames_in self.old) }
        ensures steps { steps_in self.new ≡ steps_in self.old }
    {
        let sign = self.at;
        self.signs.push(sign)?;
        self.frames.push(frame)?;
        Ok(())
    }

    pub fn emit_at(&mut self, step: Step<'a>, place: usize) -> Result<(), AllocError>
        ensures steps { OnOk result
            (steps_in self.new ≡ steps_in self.old ++ (step_in step.entry ∷ [])) }
        ensures frames { frames_in self.new ≡ frames_in self.old }
    {
        self.tree.push(step, place)
    }

    pub fn emit(&mut self, step: Step<'a>) -> Result<(), AllocError>
        ensures steps { OnOk result
            (steps_in self.new ≡ steps_in self.old ++ (step_in step.entry ∷ [])) }
        ensures frames { frames_in self.new ≡ frames_in self.old }
    {
        let place = self.at;
        self.emit_at(step, place)
    }

    /// The last frame, without taking it.
    pub fn top(&self) -> Option<Frame<'a>>
        ensures { MatchOption result (frames_in self.now ≡ [])
            (λ f. (fs : List seen.Frame) × (frames_in self.now ≡ frame_in f ∷ fs)) }
    {
        self.frames.last().copied()
    }

    /// The byte of the last frame's sign.
    pub(crate) fn top_sign(&self) -> usize {
        match self.signs.last() {
            Some(place) => *place,
            None => self.at,
        }
    }

    /// Takes the last frame, if there is one.
    pub fn drop_top(&mut self)
        ensures frames { (f : seen.Frame) (fs : List seen.Frame) → frames_in self.old ≡ f ∷ fs
            → frames_in self.new ≡ fs }
        ensures steps { steps_in self.new ≡ steps_in self.old }
        ensures fewer { (f : seen.Frame) (fs : List seen.Frame) → frames_in self.old ≡ f ∷ fs
            → vec_len self.new.frames < vec_len self.old.frames }
    {
        let _taken = self.frames.pop();
        let _sign = self.signs.pop();
    }

    /// The least level of an operand that the last frame waits for.
    pub fn top_hole(&self) -> u8
        ensures { result ≡ seen.top_hole (frames_in self.now) }
    {
        match self.top() {
            Some(frame) => hole(frame),
            None => OR,
        }
    }

    /// The highest level of an operand that the last frame waits for.
    pub fn top_ceiling(&self) -> u8
        ensures { result ≡ seen.top_ceiling (frames_in self.now) }
    {
        match self.top() {
            Some(frame) => ceiling(frame),
            None => LITERAL,
        }
    }

    /// Closes the last frame where it binds tighter than a sign of that level, and returns its
    /// level.
    pub fn close_one(&mut self, reach: u8) -> Result<Option<u8>, AllocError>
        ensures closes { IfOk result (λ r. (l : ℕ)
            → settled reach l (frames_in self.old) (steps_in self.old)
            ≡ closed_once r reach l (frames_in self.new) (steps_in self.new)) }
        ensures fewer { IfOk result
            (λ r. IfSome r (λ l. vec_len self.new.frames < vec_len self.old.frames)) }
    {
        let Some(frame) = self.top() else {
            return Ok(None);
        };
        if reach >= guard(frame) {
            return Ok(None);
        }
        let sign = self.top_sign();
        self.emit_at(Step::Call(closing(frame)), sign)?;
        self.drop_top();
        Ok(Some(whole(frame)))
    }

    /// Closes frames that bind tighter than a sign of that level, and returns the operand's level.
    pub fn settle(&mut self, reach: u8, level: u8) -> Result<u8, AllocError>
        ensures { IfOk result (λ l. settled reach level (frames_in self.old) (steps_in self.old)
            ≡ operand_of l (frames_in self.new) (steps_in self.new)) }
    {
        let mut level = level;
        while let Some(closed) = self.close_one(reach)? {
            level = closed;
        }
        Ok(level)
    }

    /// Waits after a sign of level `reach` with that frame. None if the left operand's level is
    /// below `least`, or the sign binds less tightly than the last frame requires.
    pub fn wait_if(
        &mut self,
        reach: u8,
        least: u8,
        frame: Frame<'a>,
        level: u8,
    ) -> Result<Option<Mode>, AllocError>
        ensures { Gives result self.new
            (waiting reach least (frame_in frame.entry) (operand_of level (frames_in self.old) (steps_in self.old))) }
    {
        if level < least || reach < self.top_hole() {
            return Ok(None);
        }
        self.wait(frame)?;
        Ok(Some(Mode::Want))
    }

    pub fn shift(
        &mut self,
        reach: u8,
        least: u8,
        frame: Frame<'a>,
        level: u8,
    ) -> Result<Option<Mode>, AllocError>
        ensures { Gives result self.new
            (shifted reach least (frame_in frame.entry) level (frames_in self.old) (steps_in self.old)) }
    {
        let level = self.settle(reach, level)?;
        self.wait_if(reach, least, frame, level)
    }
}
