//! Writing LIKE.
ghost use Rattle.std.specs.Prelude.{◌≡◌, ◌++◌, map};
ghost use Rattle.vortex_errors.specs.Answers.{AnswersUnlessMemory};
ghost use Rattle.vortex_syntax.specs.Spelling.{escape_tokens, like_sign};
ghost use Rattle.vortex_expressions.specs.Writing.{escape_written, like_kind};
ghost use Rattle.vortex_expressions.specs.WritingSteps as steps;
ghost use Rattle.vortex_expressions.specs.WritingSteps.{tasks_in, token, Plans};

use crate::spelled::is_own_escape;
use crate::tasks::{TreeWriter, WriteTask, operand_at};
use vortex_columns::VortexResult;
use vortex_functions::{BoundExpression, LikeOptions};
use vortex_standard::Standard;
use vortex_syntax::Sign;
use vortex_syntax::levels::CONCAT;

impl<'t> TreeWriter<'t> {
    /// The escape, if it is not the backslash.
    fn put_escape(&mut self, escape: Option<char>) -> VortexResult<()>
        ensures tasks { AnswersUnlessMemory result (λ _. tasks_in self.new
            ≡ map token (escape_tokens (escape_written escape)) ++ tasks_in self.old) }
        ensures writer { self.new.writer ≡ self.old.writer }
    {
        if is_own_escape(escape) {
            return Ok(());
        }
        self.put(WriteTask::Escape(escape))?;
        self.put(WriteTask::Sign(Sign::Escape))
    }

    /// `like` or `ilike`, with or without `not` before it.
    fn put_like(&mut self, options: LikeOptions) -> VortexResult<()>
        ensures tasks { AnswersUnlessMemory result (λ _. tasks_in self.new
            ≡ map token (like_sign (like_kind options)) ++ tasks_in self.old) }
        ensures writer { self.new.writer ≡ self.old.writer }
    {
        let like = if options.case_insensitive {
            Sign::Ilike
        } else {
            Sign::Like
        };
        self.put(WriteTask::Sign(like))?;
        if options.negated {
            return self.put(WriteTask::Sign(Sign::Not));
        }
        Ok(())
    }

    pub(crate) fn like(
        &mut self,
        options: LikeOptions,
        operands: &'t [BoundExpression<Standard>],
        depth: usize,
    ) -> VortexResult<bool>
        ensures { AnswersUnlessMemory result
            (Plans (steps.like_plan depth options operands.now) self.old self.new) }
    {
        let Some(text) = operand_at(operands, 0) else {
            return Ok(false);
        };
        let Some(pattern) = operand_at(operands, 1) else {
            return Ok(false);
        };
        self.put_escape(options.escape)?;
        self.put(WriteTask::Tree(pattern, CONCAT, depth))?;
        self.put_like(options)?;
        self.put(WriteTask::Tree(text, CONCAT, depth))?;
        Ok(true)
    }
}
