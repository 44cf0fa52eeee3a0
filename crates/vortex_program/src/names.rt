//! The columns that a text names.
ghost use Rattle.std.specs.Prelude.{◌≡◌, ◌++◌, map, option_map, string_bytes};
ghost use Rattle.std.specs.List.{flat_map};
ghost use Rattle.vortex_errors.specs.Answers.{AnswersUnlessMemory};
ghost use Rattle.vortex_syntax.specs.AnswerLists.{answer_in};
ghost use Rattle.vortex_syntax.specs.Tokens.{token_in};
ghost use Rattle.vortex_syntax.specs.Postfix.{step_in};
ghost use Rattle.vortex_program.specs.Names.{text_named, token_named, listed, step_names};
ghost use Rattle.vortex_program.specs.Names.{answer_names, AreNamesOf};
ghost use Rattle.vortex_program.specs.Texts.{IsRead};

use crate::parsed::Parsed;
use std::alloc::Global;
use std::str;
use vortex_columns::VortexResult;
use vortex_expressions::quotes::unquoted;
use vortex_syntax::{Step, SyntaxAnswer, Token};

/// The bytes as a name, where they are UTF-8.
fn text_named(alloc: Global, bytes: &[u8]) -> VortexResult<Option<String>>
    ensures { AnswersUnlessMemory result
        (λ name. option_map string_bytes name ≡ text_named bytes.now) }
{
    match str::from_utf8(bytes) {
        Ok(text) => Ok(Some(String::from_str(alloc, text)?)),
        Err(_) => Ok(None),
    }
}

/// The name that a token is, without its quotes.
fn token_named(alloc: Global, token: Token<'_>) -> VortexResult<Option<String>>
    ensures { AnswersUnlessMemory result
        (λ name. option_map string_bytes name ≡ token_named (token_in token.entry)) }
{
    match token {
        Token::Name(name) => text_named(alloc, name),
        Token::Quoted(name) => {
            let name = unquoted(alloc, b'"', name)?;
            text_named(alloc, &name)
        }
        _ => Ok(None),
    }
}

/// Adds the name that a token is, if it is one.
fn push_name(alloc: Global, names: &mut Vec<String>, token: Token<'_>) -> VortexResult<()>
    ensures { AnswersUnlessMemory result (λ _. map string_bytes names.new.items
        ≡ map string_bytes names.old.items ++ listed (token_named (token_in token.entry))) }
{
    if let Some(name) = token_named(alloc, token)? {
        names.push(name)?;
    }
    Ok(())
}

/// Adds the name that a step is, if it is one.
fn push_step(alloc: Global, names: &mut Vec<String>, step: &Step<'_>) -> VortexResult<()>
    ensures { AnswersUnlessMemory result (λ _. map string_bytes names.new.items
        ≡ map string_bytes names.old.items ++ step_names (step_in step.now)) }
{
    match step {
        Step::Operand(token) => push_name(alloc, names, *token),
        _ => Ok(()),
    }
}

/// Adds the names of steps.
fn push_steps(alloc: Global, names: &mut Vec<String>, steps: &[Step<'_>]) -> VortexResult<()>
    ensures { AnswersUnlessMemory result (λ _. map string_bytes names.new.items
        ≡ map string_bytes names.old.items ++ flat_map (λ s. step_names (step_in s)) steps.now) }
{
    for step in steps {
        push_step(alloc, names, step)?;
    }
    Ok(())
}

/// Adds the columns that an answer names.
fn push_names(alloc: Global, names: &mut Vec<String>, answer: &SyntaxAnswer<'_>) -> VortexResult<()>
    ensures { AnswersUnlessMemory result (λ _. map string_bytes names.new.items
        ≡ map string_bytes names.old.items ++ answer_names (answer_in answer.now)) }
{
    push_steps(alloc, names, answer.tree.steps.as_slice())?;
    Ok(())
}

/// Adds the columns that answers name.
fn push_all(
    alloc: Global,
    names: &mut Vec<String>,
    answers: &[SyntaxAnswer<'_>],
) -> VortexResult<()>
    ensures { AnswersUnlessMemory result (λ _. map string_bytes names.new.items ≡ map string_bytes names.old.items
        ++ flat_map (λ a. answer_names (answer_in a)) answers.now) }
{
    for answer in answers {
        push_names(alloc, names, answer)?;
    }
    Ok(())
}

impl Parsed<'_> {
    /// Each column that the text names, in order, as often as it names it. E9 where an allocation
    /// fails.
    pub fn names(&self, alloc: Global) -> VortexResult<Vec<String>>
        ensures { IsRead self.now → AnswersUnlessMemory result (λ names.
            AreNamesOf self.now.form self.now.text.now (map string_bytes names.items)) }
    {
        let mut names = Vec::new(alloc);
        push_all(alloc, &mut names, &self.answers)?;
        Ok(names)
    }
}
