//! Programs: expressions that were read, each tree as it was written and as it is run.
ghost use Rattle.std.specs.Prelude.{◌≡◌, slice_get, if◌then◌else◌, List, map, IfOk, IfErr};
ghost use Rattle.vortex_errors.specs.Answers.{AnswersUnlessMemory};
ghost use Rattle.vortex_types.specs.TypeOf.{struct_fields};
ghost use Rattle.vortex_syntax.specs.Refusals.{ListStopsAt};
ghost use Rattle.vortex_expressions.specs.declared.refusal.Refusal.{Refusal};
ghost use Rattle.vortex_expressions.specs.Answers as specs;
ghost use Rattle.vortex_expressions.specs.Answers.{ExpressesAll, IsRefusedAll};
ghost use Rattle.vortex_expressions.specs.Reading.{ReadUnlessMemory, RefusesAs, TellsWhy};
ghost use Rattle.vortex_program.specs.declared.form.Form.TheVariants.{Answers};
ghost use Rattle.vortex_program.specs.Texts.{AreAnswersOf};
ghost use Rattle.vortex_program.specs.Programs.{trees_of, IsOptimized, AreOptimized, IsTextAt};
ghost use Rattle.vortex_program.specs.Programs.{AreRewrites};

use crate::answer::Answer;
use crate::naming::text_of;
use crate::parsed::parse_answers;
use std::alloc::Global;
use vortex_columns::{StructFields, VortexResult};
use vortex_expressions::TextError;
use vortex_functions::BoundExpression;
use vortex_logical::kind::Kind;
use vortex_rewriting::Rewrite;
use vortex_standard::Standard;

/// An expression over the fields of a scope, which was read.
#[derive(Drop)]
pub struct Program {
    pub scope: StructFields,
    /// The kinds of the fields' values, by place; further fields are plain.
    pub kinds: Vec<Kind>,
    /// The answers as they were written, with their kinds and names.
    pub written: Vec<Answer>,
    /// The same as they are run: what rules make of each, of the same kind. They have no names.
    pub optimized: Vec<Answer>,
    pub ghost rewrites: { ∥ AreRewrites written.items optimized.items ∥₁ },
}

/// What rules make of a tree.
fn optimized_tree(
    alloc: Global,
    tree: &BoundExpression<Standard>,
) -> VortexResult<BoundExpression<Standard>>
    ensures { AnswersUnlessMemory result (IsOptimized tree.now) }
{
    let optimized = tree.optimize_recursive(alloc, tree.weight())?;
    Ok(optimized.tree)
}

/// What rules make of each answer, of the same kind.
fn optimized_answers(alloc: Global, written: &[Answer]) -> VortexResult<Vec<Answer>>
    ensures { AnswersUnlessMemory result (λ made. AreOptimized written.now made.items) }
{
    let mut answers = Vec::new(alloc);
    for answer in written {
        let tree = optimized_tree(alloc, &answer.tree)?;
        let name = String::new(alloc);
        answers.push(Answer {
            name,
            tree,
            kind: answer.kind,
        })?;
    }
    Ok(answers)
}

/// The text of an answer; none where there is no answer of that number.
fn text_at(alloc: Global, answers: &[Answer], answer: usize) -> VortexResult<Option<String>>
    ensures { AnswersUnlessMemory result (IsTextAt (slice_get (trees_of answers.now) answer)) }
{
    match answers.get(answer) {
        Some(answer) => Ok(Some(text_of(alloc, &answer.tree)?)),
        None => Ok(None),
    }
}

impl Program {
    /// Reads a list of answers over the fields of a scope whose values are of these kinds, by
    /// place; further fields are plain: `price * stock as worth, price > 100`. Ok exactly where the
    /// text is such a list, where no allocation fails.
    pub fn read(
        alloc: Global,
        scope: StructFields,
        kinds: Vec<Kind>,
        text: &str,
    ) -> Result<Program, TextError>
        ensures scope { IfOk result (λ p. p.scope ≡ scope) }
        ensures kinds { IfOk result (λ p. p.kinds ≡ kinds) }
        ensures found { IfOk result (λ p.
            AreAnswersOf Answers (struct_fields scope) kinds.items text.now p.written.items) }
        ensures kept { IfOk result (λ p. AreOptimized p.written.items p.optimized.items) }
        ensures only { (list : List specs.Answer)
            → ExpressesAll (struct_fields scope) kinds.items text.now list
            → ReadUnlessMemory result
            (λ p. trees_of p.written.items ≡ map (λ a. a.tree) list) }
        ensures refused { (r : Refusal)
            → IsRefusedAll (struct_fields scope) kinds.items text.now r → RefusesAs r result }
        ensures why { IfErr result (TellsWhy ListStopsAt
            (IsRefusedAll (struct_fields scope) kinds.items text.now) text.now) }
    {
        let parsed = match parse_answers(alloc, text) {
            Ok(parsed) => parsed,
            Err(error) => return Err(error),
        };
        let written = match parsed.bind(alloc, &scope, &kinds) {
            Ok(written) => written,
            Err(error) => return Err(error),
        };
        match Program::of(alloc, scope, kinds, written) {
            Ok(program) => Ok(program),
            Err(_) => Err(TextError::out_of_memory(alloc)),
        }
    }

    /// The program of answers over a scope whose fields have values of these kinds. E9 where an
    /// allocation fails.
    pub fn of(
        alloc: Global,
        scope: StructFields,
        kinds: Vec<Kind>,
        written: Vec<Answer>,
    ) -> VortexResult<Program>
        ensures { AnswersUnlessMemory result (λ p. (p.scope ≡ scope) × (p.kinds ≡ kinds)
            × (p.written ≡ written) × AreOptimized p.written.items p.optimized.items) }
    {
        let optimized = optimized_answers(alloc, &written)?;
        Ok(Program {
            scope,
            kinds,
            written,
            optimized,
        })
    }

    /// The text of an answer, as it was written or as it is run; none where there is no answer of
    /// that number. E9 where memory is refused.
    pub fn text(
        &self,
        alloc: Global,
        answer: usize,
        optimized: bool,
    ) -> VortexResult<Option<String>>
        ensures { let trees = if optimized then trees_of self.now.optimized.items
            else trees_of self.now.written.items in
            AnswersUnlessMemory result (IsTextAt (slice_get trees answer)) }
    {
        if optimized {
            text_at(alloc, &self.optimized, answer)
        } else {
            text_at(alloc, &self.written, answer)
        }
    }
}
