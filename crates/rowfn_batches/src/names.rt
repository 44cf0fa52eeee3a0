//! The names of the answers, of which no two are one.
ghost use Rattle.std.specs.Prelude.{◌≡◌, ◌<◌, ◌↔◌, IsTrue, IfOk, MatchBool, MatchResult, length};
ghost use Rattle.std.specs.Prelude.{string_bytes};
ghost use Rattle.rowfn_batches.specs.Names.{names_of, RepeatsLater, StandsLast, AreApart};
ghost use Rattle.rowfn_batches.specs.Names.{TellsTwice, RefusesNames};

use crate::errors::StreamError;
use std::alloc::{AllocError, Global};
use vortex_program::{Answer, Program};

/// Whether two answers have one name.
fn have_one_name(first: &Answer, second: &Answer) -> bool
    ensures { IsTrue result ↔ (string_bytes first.now.name ≡ string_bytes second.now.name) }
{
    first.name.as_bytes() == second.name.as_bytes()
}

/// Whether an answer behind that place has the name of the one there.
fn repeats_later(answers: &[Answer], place: usize) -> bool
    requires { place < length answers.now }
    ensures { MatchBool result (RepeatsLater (names_of answers.now) place)
        (StandsLast (names_of answers.now) place) }
{
    for other in place + 1..answers.len() {
        if have_one_name(&answers[place], &answers[other]) {
            return true;
        }
    }
    false
}

/// The error for the name of an answer, which stands twice.
fn twice(alloc: Global, answer: &Answer) -> Result<StreamError, AllocError>
    ensures { IfOk result (λ e. TellsTwice (string_bytes answer.now.name) e) }
{
    let name = String::from_str(alloc, answer.name.as_str())?;
    Ok(StreamError::AnswerTwice(name))
}

/// Refused where two of the answers have one name, with that name, and where memory runs out.
fn check_each(alloc: Global, answers: &[Answer]) -> Result<(), StreamError>
    ensures { MatchResult result (λ _. AreApart (names_of answers.now))
        (RefusesNames (names_of answers.now)) }
{
    for place in 0..answers.len() {
        if repeats_later(answers, place) {
            return Err(twice(alloc, &answers[place])?);
        }
    }
    Ok(())
}

/// Refused where two answers have one name, with that name, and where memory runs out.
pub fn check_names(alloc: Global, program: &Program) -> Result<(), StreamError>
    ensures { MatchResult result (λ _. AreApart (names_of program.now.written.items))
        (RefusesNames (names_of program.now.written.items)) }
{
    check_each(alloc, &program.written)
}
