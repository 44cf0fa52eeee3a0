//! Writing a tree from left to right: what is still to be written is in a list.
ghost use Rattle.std.specs.Prelude.{◌≡◌, ◌∷◌, [], ◌++◌, map, MatchOption, slice_get};
ghost use Rattle.std.specs.Prelude.{Some, None};
ghost use Rattle.vortex_errors.specs.Answers.{AnswersUnlessMemory};
ghost use Rattle.vortex_functions.specs.FunctionOf.{function_of};
ghost use Rattle.vortex_syntax.specs.Writing.{Holds, text_token};
ghost use Rattle.vortex_expressions.specs.Writing.{escape_text};
ghost use Rattle.vortex_expressions.specs.Writing.{null_test};
ghost use Rattle.vortex_standard.specs.Names.{name_of};
ghost use Rattle.vortex_expressions.specs.WritingSteps as steps;
ghost use Rattle.vortex_expressions.specs.WritingSteps.{task_in, tasks_in, token, Plans, Pushes};
ghost use Rattle.vortex_expressions.specs.WritingSteps.{Steps};

use crate::spelled::{
    escape_text, is_within, operator_sign, tree_level, write_column, write_literal,
    written_operator,
};
use std::alloc::Global;
use vortex_columns::VortexResult;
use vortex_functions::{BoundExpression, ScalarFnRef};
use vortex_operators::BetweenOptions;
use vortex_standard::Standard;
use vortex_syntax::levels::{CONCAT, IS, NOT, OR, left, right};
use vortex_syntax::{DEPTH, Sign, Writer, WrittenOperator as Written};

/// What is still to be written.
#[derive(Drop)]
pub(crate) enum WriteTask<'t> {
    Sign(Sign),
    /// A tree at a level, inside that many open brackets.
    Tree(&'t BoundExpression<Standard>, u8, usize),
    /// The only type to cast to.
    TruthType,
    /// The text after `escape`.
    Escape(Option<char>),
    /// The name of a function, with its bracket.
    Function(&'static str),
}

/// What is written, and what is still to be written, the next at the end.
#[derive(Drop)]
pub(crate) struct TreeWriter<'t> {
    alloc: Global,
    pub(crate) writer: Writer,
    tasks: Vec<WriteTask<'t>>,
}

/// The operand at an index.
pub(crate) fn operand_at<'t>(
    operands: &'t [BoundExpression<Standard>],
    place: usize,
) -> Option<&'t BoundExpression<Standard>>
    ensures { MatchOption result (slice_get operands.now place ≡ None)
        (λ t. slice_get operands.now place ≡ Some t.now) }
{
    operands.get(place)
}

impl<'t> TreeWriter<'t> {
    pub(crate) fn new(alloc: Global) -> TreeWriter<'t>
        ensures tasks { tasks_in result ≡ [] }
        ensures writer { Holds [] result.writer }
    {
        TreeWriter {
            alloc,
            writer: Writer::new(alloc),
            tasks: Vec::new(alloc),
        }
    }

    /// Pushes what comes next.
    pub(crate) fn next(&mut self) -> Option<WriteTask<'t>>
        ensures tasks { MatchOption result (tasks_in self.old ≡ [])
            (λ t. tasks_in self.old ≡ task_in t ∷ tasks_in self.new) }
        ensures writer { self.new.writer ≡ self.old.writer }
    {
        self.tasks.pop()
    }

    /// Pushes something before what is still to be written.
    pub(crate) fn put(&mut self, task: WriteTask<'t>) -> VortexResult<()>
        ensures tasks { AnswersUnlessMemory result
            (λ _. tasks_in self.new ≡ task_in task.entry ∷ tasks_in self.old) }
        ensures writer { self.new.writer ≡ self.old.writer }
    {
        self.tasks.push(task)?;
        Ok(())
    }

    fn binary(
        &mut self,
        operator: Written,
        operands: &'t [BoundExpression<Standard>],
        depth: usize,
    ) -> VortexResult<bool>
        ensures { AnswersUnlessMemory result
            (Plans (steps.binary_plan depth operator operands.now) self.old self.new) }
    {
        let Some(first) = operand_at(operands, 0) else {
            return Ok(false);
        };
        let Some(second) = operand_at(operands, 1) else {
            return Ok(false);
        };
        self.put(WriteTask::Tree(second, right(operator), depth))?;
        self.put(WriteTask::Sign(operator_sign(operator)))?;
        self.put(WriteTask::Tree(first, left(operator), depth))?;
        Ok(true)
    }

    fn negation(
        &mut self,
        operands: &'t [BoundExpression<Standard>],
        depth: usize,
    ) -> VortexResult<bool>
        ensures { AnswersUnlessMemory result
            (Plans (steps.not_plan depth operands.now) self.old self.new) }
    {
        let Some(operand) = operand_at(operands, 0) else {
            return Ok(false);
        };
        self.put(WriteTask::Tree(operand, NOT, depth))?;
        self.put(WriteTask::Sign(Sign::Not))?;
        Ok(true)
    }

    /// `is null`, or `is not null`.
    fn put_null_test(&mut self, negated: bool) -> VortexResult<()>
        ensures tasks { AnswersUnlessMemory result
            (λ _. tasks_in self.new ≡ map token (null_test negated) ++ tasks_in self.old) }
        ensures writer { self.new.writer ≡ self.old.writer }
    {
        self.put(WriteTask::Sign(Sign::Null))?;
        if negated {
            self.put(WriteTask::Sign(Sign::Not))?;
            return self.put(WriteTask::Sign(Sign::Is));
        }
        self.put(WriteTask::Sign(Sign::Is))
    }

    fn test(
        &mut self,
        negated: bool,
        operands: &'t [BoundExpression<Standard>],
        depth: usize,
    ) -> VortexResult<bool>
        ensures { AnswersUnlessMemory result
            (Plans (steps.test_plan depth negated operands.now) self.old self.new) }
    {
        let Some(operand) = operand_at(operands, 0) else {
            return Ok(false);
        };
        self.put_null_test(negated)?;
        self.put(WriteTask::Tree(operand, IS, depth))?;
        Ok(true)
    }

    fn cast(
        &mut self,
        operands: &'t [BoundExpression<Standard>],
        depth: usize,
    ) -> VortexResult<bool>
        ensures { AnswersUnlessMemory result
            (Plans (steps.cast_plan depth operands.now) self.old self.new) }
    {
        if depth >= DEPTH {
            return Ok(false);
        }
        let Some(operand) = operand_at(operands, 0) else {
            return Ok(false);
        };
        self.put(WriteTask::Sign(Sign::Close))?;
        self.put(WriteTask::TruthType)?;
        self.put(WriteTask::Sign(Sign::As))?;
        self.put(WriteTask::Tree(operand, OR, depth + 1))?;
        self.put(WriteTask::Sign(Sign::Open))?;
        self.put(WriteTask::Sign(Sign::Cast))?;
        Ok(true)
    }

    fn between(
        &mut self,
        options: &BetweenOptions,
        operands: &'t [BoundExpression<Standard>],
        depth: usize,
    ) -> VortexResult<bool>
        ensures { AnswersUnlessMemory result
            (Plans (steps.between_plan depth options.now operands.now) self.old self.new) }
    {
        if !is_within(options) {
            return Ok(false);
        }
        let Some(operand) = operand_at(operands, 0) else {
            return Ok(false);
        };
        let Some(lower) = operand_at(operands, 1) else {
            return Ok(false);
        };
        let Some(upper) = operand_at(operands, 2) else {
            return Ok(false);
        };
        self.put(WriteTask::Tree(upper, CONCAT, depth))?;
        self.put(WriteTask::Sign(Sign::And))?;
        self.put(WriteTask::Tree(lower, CONCAT, depth))?;
        self.put(WriteTask::Sign(Sign::Between))?;
        self.put(WriteTask::Tree(operand, CONCAT, depth))?;
        Ok(true)
    }

    /// Pushes arguments after the first, each after a comma, and the closing bracket.
    fn put_more(
        &mut self,
        operands: &'t [BoundExpression<Standard>],
        depth: usize,
    ) -> VortexResult<()>
        ensures tasks { AnswersUnlessMemory result
            (λ _. tasks_in self.new ≡ steps.more_parts depth operands.now ++ tasks_in self.old) }
        ensures writer { self.new.writer ≡ self.old.writer }
    {
        self.put(WriteTask::Sign(Sign::Close))?;
        let mut left = operands.len();
        while left > 0 {
            left -= 1;
            self.put(WriteTask::Tree(&operands[left], OR, depth))?;
            self.put(WriteTask::Sign(Sign::Comma))?;
        }
        Ok(())
    }

    /// Pushes the arguments of a call, and the closing bracket.
    fn put_arguments(
        &mut self,
        operands: &'t [BoundExpression<Standard>],
        depth: usize,
    ) -> VortexResult<()>
        ensures tasks { AnswersUnlessMemory result
            (λ _. tasks_in self.new ≡ steps.argument_parts depth operands.now ++ tasks_in self.old) }
        ensures writer { self.new.writer ≡ self.old.writer }
    {
        match operands {
            [] => self.put(WriteTask::Sign(Sign::Close)),
            [first, rest @ ..] => {
                self.put_more(rest, depth)?;
                self.put(WriteTask::Tree(first, OR, depth))
            }
        }
    }

    /// The call of a function by its name.
    fn named_call(
        &mut self,
        function: &Standard,
        operands: &'t [BoundExpression<Standard>],
        depth: usize,
    ) -> VortexResult<bool>
        ensures { AnswersUnlessMemory result
            (Plans (steps.named_plan depth (name_of function.now) operands.now) self.old self.new) }
    {
        if depth >= DEPTH {
            return Ok(false);
        }
        self.put_arguments(operands, depth + 1)?;
        self.put(WriteTask::Function(function.name()))?;
        Ok(true)
    }

    /// Pushes the parts of a call; returns whether it has a text.
    fn call(
        &mut self,
        function: &ScalarFnRef<Standard>,
        operands: &'t [BoundExpression<Standard>],
        depth: usize,
    ) -> VortexResult<bool>
        ensures { AnswersUnlessMemory result
            (Plans (steps.call_plan depth (function_of function.now) operands.now)
            self.old self.new) }
    {
        match function {
            ScalarFnRef::Binary(operator) => {
                self.binary(written_operator(*operator), operands, depth)
            }
            ScalarFnRef::Not => self.negation(operands, depth),
            ScalarFnRef::IsNull => self.test(false, operands, depth),
            ScalarFnRef::IsNotNull => self.test(true, operands, depth),
            ScalarFnRef::Cast => self.cast(operands, depth),
            ScalarFnRef::Between(options) => self.between(options, operands, depth),
            ScalarFnRef::Like(options) => self.like(*options, operands, depth),
            ScalarFnRef::Custom(custom) => self.named_call(custom.vtable(), operands, depth),
        }
    }

    /// A tree without brackets around it.
    fn bare(&mut self, tree: &'t BoundExpression<Standard>, depth: usize) -> VortexResult<bool>
        ensures { AnswersUnlessMemory result (Steps (steps.tree depth 0 tree.now) self.old self.new) }
    {
        if let Some(function) = tree.as_scalar() {
            return self.call(function, tree.children(), depth);
        }
        if let Some(scalar) = tree.as_literal() {
            return write_literal(&mut self.writer, self.alloc, scalar);
        }
        write_column(&mut self.writer, self.alloc, tree)
    }

    /// A tree in brackets.
    fn brackets(&mut self, tree: &'t BoundExpression<Standard>, depth: usize) -> VortexResult<bool>
        ensures { AnswersUnlessMemory result
            (Plans (steps.bracket_plan depth tree.now) self.old self.new) }
    {
        if depth >= DEPTH {
            return Ok(false);
        }
        self.put(WriteTask::Sign(Sign::Close))?;
        self.put(WriteTask::Tree(tree, OR, depth + 1))?;
        self.put(WriteTask::Sign(Sign::Open))?;
        Ok(true)
    }

    /// A tree, in brackets if it binds less tightly than required there.
    fn tree(
        &mut self,
        tree: &'t BoundExpression<Standard>,
        level: u8,
        depth: usize,
    ) -> VortexResult<bool>
        ensures { AnswersUnlessMemory result
            (Steps (steps.tree depth level tree.now) self.old self.new) }
    {
        if tree_level(tree) < level {
            return self.brackets(tree, depth);
        }
        self.bare(tree, depth)
    }

    fn write_escape(&mut self, escape: Option<char>) -> VortexResult<()>
        ensures tasks { tasks_in self.new ≡ tasks_in self.old }
        ensures written { AnswersUnlessMemory result
            (λ _. Pushes (text_token (escape_text escape) ∷ []) self.old.writer self.new.writer) }
    {
        let text = escape_text(self.alloc, escape)?;
        self.writer.push_text(text.as_str())?;
        Ok(())
    }

    /// The effect of a task on what is written and what is left; returns whether there is a text.
    pub(crate) fn step(&mut self, task: WriteTask<'t>) -> VortexResult<bool>
        ensures { AnswersUnlessMemory result (Steps (task_in task.entry) self.old self.new) }
    {
        match task {
            WriteTask::Sign(sign) => {
                self.writer.push_sign(sign)?;
                Ok(true)
            }
            WriteTask::TruthType => {
                self.writer.push_type("bool", true)?;
                Ok(true)
            }
            WriteTask::Escape(escape) => {
                self.write_escape(escape)?;
                Ok(true)
            }
            WriteTask::Function(name) => {
                self.writer.push_function(name)?;
                Ok(true)
            }
            WriteTask::Tree(tree, level, depth) => self.tree(tree, level, depth),
        }
    }
}
