//! Names of answers that were given none.
ghost use Rattle.std.specs.Prelude.{◌≡◌, List, [], map, slice_index_or, string_bytes};
ghost use Rattle.vortex_errors.specs.Answers.{AnswersUnlessMemory};
ghost use Rattle.vortex_functions.specs.Walks.{AllMean};
ghost use Rattle.vortex_expressions.specs.Answers.{answer_in};
ghost use Rattle.vortex_types.specs.TypeOf.{struct_fields};
ghost use Rattle.vortex_program.specs.Naming.{IsNamedAnswer, IsTreeText, IsNameOf, IsWordsOf};
ghost use Rattle.vortex_program.specs.Naming.{worded, worded_as};

use crate::answer::Answer;
use std::alloc::Global;
use std::str;
use vortex_columns::{StructFields, VortexResult};
use vortex_expressions::write_expression;
use vortex_functions::BoundExpression;
use vortex_standard::Standard;

/// The text of a tree: as it is written, or else as it is printed.
pub(crate) fn text_of(alloc: Global, tree: &BoundExpression<Standard>) -> VortexResult<String>
    ensures { AnswersUnlessMemory result (λ text. IsTreeText tree.now (string_bytes text)) }
{
    match write_expression(alloc, tree)? {
        Some(text) => Ok(text),
        None => tree.sql_text(alloc),
    }
}

/// The words of an answer as a name: the text of its tree if they are no UTF-8.
fn words_or_text(
    alloc: Global,
    words: &[u8],
    tree: &BoundExpression<Standard>,
) -> VortexResult<String>
    ensures { AnswersUnlessMemory result
        (λ name. IsWordsOf words.now tree.now (string_bytes name)) }
{
    match str::from_utf8(words) {
        Ok(words) => Ok(String::from_str(alloc, words)?),
        Err(_) => Ok(text_of(alloc, tree)?),
    }
}

/// The name of an answer that has none: that of the field which it is, or its words.
fn name_of(
    alloc: Global,
    scope: &StructFields,
    words: &[u8],
    tree: &BoundExpression<Standard>,
) -> VortexResult<String>
    ensures { AnswersUnlessMemory result
        (λ name. IsNameOf (struct_fields scope.now) words.now tree.now (string_bytes name)) }
{
    let Some(place) = tree.as_column() else {
        return words_or_text(alloc, words, tree);
    };
    if place < scope.len() {
        Ok(String::from_str(alloc, scope.name(place))?)
    } else {
        words_or_text(alloc, words, tree)
    }
}

/// An answer with its kind and its name: the one after its `as`, else that of the field which it
/// is, else its words. E9 where memory is refused.
fn named(
    alloc: Global,
    scope: &StructFields,
    words: &[u8],
    answer: &vortex_expressions::Answer,
) -> VortexResult<Answer>
    ensures { AnswersUnlessMemory result
        (IsNamedAnswer (struct_fields scope.now) (worded_as (answer_in answer.now) words.now)) }
{
    let name = match &answer.name {
        Some(name) => String::from_str(alloc, name.as_str())?,
        None => name_of(alloc, scope, words, &answer.tree)?,
    };
    let tree = answer.tree.try_clone(alloc)?;
    Ok(Answer {
        name,
        tree,
        kind: answer.kind,
    })
}

/// The words of that number; none where there are none.
fn words_at(words: &[Vec<u8>], number: usize) -> &[u8]
    ensures { result.now ≡ slice_index_or (map (λ w. w.items) words.now) number [] }
{
    match words.get(number) {
        Some(words) => words.as_slice(),
        None => &[],
    }
}

/// Each answer with its name, which may be its words, by number. E9 where memory is refused.
pub(crate) fn all_named(
    alloc: Global,
    scope: &StructFields,
    words: &[Vec<u8>],
    list: &[vortex_expressions::Answer],
) -> VortexResult<Vec<Answer>>
    ensures { AnswersUnlessMemory result
        (λ answers. AllMean (IsNamedAnswer (struct_fields scope.now))
        (worded (map answer_in list.now) (map (λ w. w.items) words.now)) answers.items) }
{
    let mut answers = Vec::new(alloc);
    for (i, answer) in list.iter().enumerate() {
        answers.push(named(alloc, scope, words_at(words, i), answer)?)?;
    }
    Ok(answers)
}
