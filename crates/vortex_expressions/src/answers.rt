//! Lists of answers: `price * stock as worth, price > 100 as dear`.
ghost use Rattle.std.specs.Prelude.{◌≡◌, map, option_map, MatchResult, IfOk, IfErr};
ghost use Rattle.std.specs.Prelude.{string_bytes, List};
ghost use Rattle.vortex_types.specs.TypeOf.{struct_fields};
ghost use Rattle.vortex_syntax.specs.Tokens.{token_in};
ghost use Rattle.vortex_syntax.specs.AnswerLists as syntax;
ghost use Rattle.vortex_syntax.specs.Refusals.{ListStopsAt};
ghost use Rattle.vortex_expressions.specs.declared.refusal.Refusal.{Refusal};
ghost use Rattle.vortex_expressions.specs.Answers as specs;
ghost use Rattle.vortex_expressions.specs.Answers.{answer_in, name_of, written_name, answer_left};
ghost use Rattle.vortex_expressions.specs.Answers.{answers_left, ExpressesAll, IsRefusedAll};
ghost use Rattle.vortex_expressions.specs.Answering.{Gives};
ghost use Rattle.vortex_expressions.specs.Reading.{ReadUnlessMemory, RefusesAs, Finds};
ghost use Rattle.vortex_expressions.specs.Reading.{TellsWhy};

use crate::error::TextError;
use crate::item::LogicalTree;
use crate::messages::{out_of_memory, unnamed, unread};
use crate::quotes::{between_quotes, text_of};
use crate::read::bind_logical_steps;
use crate::refusal::BindStop;
use std::alloc::Global;
use vortex_columns::StructFields;
use vortex_functions::BoundExpression;
use vortex_logical::kind::Kind;
use vortex_standard::Standard;
use vortex_syntax::{SyntaxAnswer, Token, read_answer_list};

/// A tree, the kind of its values, and the name after its `as`, if it has one.
#[derive(Drop)]
pub struct Answer {
    pub tree: BoundExpression<Standard>,
    pub kind: Kind,
    pub name: Option<String>,
}

/// The name after `as`, without its quotes.
fn name_of(alloc: Global, token: Token<'_>) -> Result<String, BindStop>
    ensures { Gives string_bytes result (name_of (token_in token.entry)) }
{
    match token {
        Token::Name(name) => text_of(alloc, name),
        Token::Quoted(name) => between_quotes(alloc, b'"', name),
        _ => Err(BindStop::Missing),
    }
}

fn written_name(alloc: Global, token: Option<Token<'_>>) -> Result<Option<String>, BindStop>
    ensures { Gives (option_map string_bytes) result
        (written_name (option_map token_in token.entry)) }
{
    match token {
        Some(token) => Ok(Some(name_of(alloc, token)?)),
        None => Ok(None),
    }
}

/// An answer over the columns of a scope with kinds.
fn bind_answer(
    alloc: Global,
    scope: &StructFields,
    kinds: &[Kind],
    text: &str,
    answer: &SyntaxAnswer<'_>,
) -> Result<Answer, TextError>
    ensures { Finds answer_in result
        (answer_left (struct_fields scope.now) kinds.now (syntax.answer_in answer.now)) }
{
    let LogicalTree { tree, kind } = bind_logical_steps(alloc, scope, kinds, text, &answer.tree)?;
    match written_name(alloc, answer.name) {
        Ok(name) => Ok(Answer { tree, kind, name }),
        Err(stop) => Err(unnamed(alloc, text, stop)),
    }
}

/// The answers of a list that was parsed from the text, over the columns of a scope whose values are
/// of these kinds, by place; further columns are plain. They are the results of the steps of its
/// trees, from left to right, with their names. Fails with the first error, at its position in the
/// text.
pub fn bind_answers(
    alloc: Global,
    scope: &StructFields,
    kinds: &[Kind],
    text: &str,
    list: &[SyntaxAnswer<'_>],
) -> Result<Vec<Answer>, TextError>
    ensures { Finds (λ v. map answer_in v.items) result
        (answers_left (struct_fields scope.now) kinds.now (map syntax.answer_in list.now)) }
{
    let mut answers = Vec::new(alloc);
    for answer in list {
        let bound = bind_answer(alloc, scope, kinds, text, answer)?;
        if answers.push(bound).is_err() {
            return Err(out_of_memory(alloc));
        }
    }
    Ok(answers)
}

/// Reads a list of answers over the columns of a scope whose values are of these kinds, by place;
/// further columns are plain. Each has a name after `as` or none:
/// `price * stock as worth, price > 100`. Ok exactly if the text is such a list: its trees, with the
/// kinds of their values and their names.
pub fn read_answers(
    alloc: Global,
    scope: &StructFields,
    kinds: &[Kind],
    text: &str,
) -> Result<Vec<Answer>, TextError>
    // The result is the meaning of the text.
    ensures found { IfOk result
        (λ v. ExpressesAll (struct_fields scope.now) kinds.now text.now (map answer_in v.items)) }
    // The meaning of the text is returned.
    ensures only { (list : List specs.Answer) → ExpressesAll (struct_fields scope.now) kinds.now text.now list
        → ReadUnlessMemory result (λ v. map answer_in v.items ≡ list) }
    // An error of the text is returned.
    ensures refused { (r : Refusal) → IsRefusedAll (struct_fields scope.now) kinds.now text.now r
        → RefusesAs r result }
    // Why there is no result, and at which byte of a text that is no list.
    ensures told { IfErr result
        (TellsWhy ListStopsAt (IsRefusedAll (struct_fields scope.now) kinds.now text.now) text.now) }
{
    match read_answer_list(alloc, text.as_bytes()) {
        Ok(list) => bind_answers(alloc, scope, kinds, text, &list),
        Err(error) => Err(unread(alloc, text, error)),
    }
}
