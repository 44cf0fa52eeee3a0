//! Texts that were parsed once, before the columns that they name are known.
ghost use Rattle.std.specs.Prelude.{◌≡◌, ◌∷◌, [], None, ℕ, List, map, IfOk, IfErr};
ghost use Rattle.vortex_types.specs.TypeOf.{struct_fields};
ghost use Rattle.vortex_syntax.specs.Syntax.{Syntax};
ghost use Rattle.vortex_syntax.specs.Grammar.{Reads};
ghost use Rattle.vortex_syntax.specs.AnswerLists as syntax;
ghost use Rattle.vortex_syntax.specs.AnswerLists.{answer_in, told, ReadsAnswers};
ghost use Rattle.vortex_syntax.specs.Refusals.{ListStopsAt, TreeStopsAt};
ghost use Rattle.vortex_expressions.specs.declared.refusal.Refusal.{Refusal};
ghost use Rattle.vortex_expressions.specs.Answers as specs;
ghost use Rattle.vortex_expressions.specs.Reading.{ReadUnlessMemory, RefusesAs, TellsWhy};
ghost use Rattle.vortex_program.specs.declared.form.Form.TheVariants as form;
ghost use Rattle.vortex_program.specs.Texts.{IsRead, unnamed, Means, IsRefusedOver, StopsAt};
ghost use Rattle.vortex_program.specs.Texts.{AreAnswersOf};
ghost use Rattle.vortex_program.specs.Naming.{IsNamedAnswer, AreWordsOf, worded};
ghost use Rattle.vortex_functions.specs.Walks.{AllMean};
ghost use Rattle.vortex_program.specs.Programs.{trees_of};

use crate::answer::Answer;
use crate::form::Form;
use crate::naming::all_named;
use std::alloc::Global;
use vortex_columns::StructFields;
use vortex_expressions::{TextError, bind_answers};
use vortex_logical::kind::Kind;
use vortex_syntax::{SyntaxAnswer, SyntaxTree, answer_texts, read_answer_list, read_syntax};

/// A text that was parsed, with what it says: answers or a condition, whose columns are not yet
/// known.
#[derive(Drop)]
pub struct Parsed<'t> {
    pub text: &'t str,
    pub form: Form,
    /// The answers in their order; a condition is one answer without a name.
    pub answers: Vec<SyntaxAnswer<'t>>,
}

/// Parses a list of answers, each with a name after `as` or without one:
/// `price * stock as worth, price > 100`. Ok exactly where the text is such a list, whatever columns
/// there are.
pub fn parse_answers(alloc: Global, text: &str) -> Result<Parsed<'_>, TextError>
    ensures text { IfOk result (λ p. p.text.now ≡ text.now) }
    ensures read { IfOk result IsRead }
    ensures form { IfOk result (λ p. p.form ≡ form.Answers) }
    ensures only { (list : List syntax.Answer) → ReadsAnswers text.now list
        → ReadUnlessMemory result (λ p. map answer_in p.answers.items ≡ map told list) }
    ensures why { IfErr result (TellsWhy ListStopsAt (λ _. ⊥) text.now) }
{
    match read_answer_list(alloc, text.as_bytes()) {
        Ok(answers) => Ok(Parsed {
            text,
            form: Form::Answers,
            answers,
        }),
        Err(error) => Err(TextError::of_syntax(alloc, text, error)),
    }
}

/// A tree as the one answer of a condition.
fn one_answer<'t>(alloc: Global, tree: SyntaxTree<'t>) -> Result<Vec<SyntaxAnswer<'t>>, TextError>
    ensures { ReadUnlessMemory result
        (λ answers. map answer_in answers.items ≡ unnamed tree.entry) }
{
    let mut answers = Vec::new(alloc);
    match answers.push(SyntaxAnswer { tree, name: None }) {
        Ok(()) => Ok(answers),
        Err(_) => Err(TextError::out_of_memory(alloc)),
    }
}

/// Parses one expression without a name: `price > 100 and stock is not null`. Ok exactly where the
/// text is one, whatever columns there are.
pub fn parse_condition(alloc: Global, text: &str) -> Result<Parsed<'_>, TextError>
    ensures text { IfOk result (λ p. p.text.now ≡ text.now) }
    ensures read { IfOk result IsRead }
    ensures form { IfOk result (λ p. p.form ≡ form.Condition) }
    ensures only { (tree : Syntax) → Reads text.now tree → ReadUnlessMemory result
        (λ p. map answer_in p.answers.items ≡ told (record { tree = tree; name = None }) ∷ []) }
    ensures why { IfErr result (TellsWhy TreeStopsAt (λ _. ⊥) text.now) }
{
    let tree = match read_syntax(alloc, text.as_bytes()) {
        Ok(tree) => tree,
        Err(error) => return Err(TextError::of_syntax(alloc, text, error)),
    };
    match one_answer(alloc, tree) {
        Ok(answers) => Ok(Parsed {
            text,
            form: Form::Condition,
            answers,
        }),
        Err(error) => Err(error),
    }
}

/// Each answer of a text with its name; or that memory ran out.
fn name_all(
    alloc: Global,
    scope: &StructFields,
    text: &str,
    list: &[vortex_expressions::Answer],
) -> Result<Vec<Answer>, TextError>
    ensures { ReadUnlessMemory result (λ answers. (words : List (List ℕ))
        × AreWordsOf text.now words × AllMean (IsNamedAnswer (struct_fields scope.now))
        (worded (map specs.answer_in list.now) words) answers.items) }
{
    let Ok(words) = answer_texts(alloc, text.as_bytes()) else {
        return Err(TextError::out_of_memory(alloc));
    };
    match all_named(alloc, scope, &words, list) {
        Ok(answers) => Ok(answers),
        Err(_) => Err(TextError::out_of_memory(alloc)),
    }
}

impl Parsed<'_> {
    /// The answers over the columns of a scope whose values are of these kinds, by place; further
    /// columns are plain. Each has the kind of its values, and its name: the one after its `as`,
    /// else that of the column which it is, else its text, with one blank between tokens where
    /// needed. Together with parsing it finds the answers that the text means over the scope, and
    /// fails as the text is refused over it: that is said of what was parsed, which each clause asks
    /// first.
    pub fn bind(
        &self,
        alloc: Global,
        scope: &StructFields,
        kinds: &[Kind],
    ) -> Result<Vec<Answer>, TextError>
        ensures found { IsRead self.now → IfOk result (λ v.
            AreAnswersOf self.now.form (struct_fields scope.now) kinds.now self.now.text.now
            v.items) }
        ensures only { (list : List specs.Answer) → IsRead self.now
            → Means self.now.form (struct_fields scope.now) kinds.now self.now.text.now list
            → ReadUnlessMemory result (λ v. trees_of v.items ≡ map (λ a. a.tree) list) }
        ensures refused { (r : Refusal) → IsRead self.now
            → IsRefusedOver self.now.form (struct_fields scope.now) kinds.now self.now.text.now r
            → RefusesAs r result }
        ensures why { IsRead self.now → IfErr result (TellsWhy (StopsAt self.now.form)
            (IsRefusedOver self.now.form (struct_fields scope.now) kinds.now self.now.text.now)
            self.now.text.now) }
    {
        match bind_answers(alloc, scope, kinds, self.text, &self.answers) {
            Ok(list) => name_all(alloc, scope, self.text, &list),
            Err(error) => Err(error),
        }
    }
}
