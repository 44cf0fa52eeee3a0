//! Lists of answers.
ghost use Rattle.std.specs.Prelude.{◌≡◌, ◌+◌, ◌<◌, ◌&&◌, ◌∷◌, [], map, take, drop, length};
ghost use Rattle.std.specs.Prelude.{List, option_map, IfOk, IfErr, IfSome, MatchOption};
ghost use Rattle.std.specs.Prelude.{MatchResult};
ghost use Rattle.vortex_syntax.specs.Tokens.{token_in};
ghost use Rattle.vortex_syntax.specs.Errors.{UnlessMemory, AnswersUnlessMemory};
ghost use Rattle.vortex_syntax.specs.Reading.{steps_of};
ghost use Rattle.vortex_syntax.specs.AnswerLists.{Answer, is_name, ReadsAnswers, told, answer_in};
ghost use Rattle.vortex_syntax.specs.AnswerParts as specs;
ghost use Rattle.vortex_syntax.specs.AnswerParts.{is_comma, depth_behind, ends_answer, is_as};
ghost use Rattle.vortex_syntax.specs.AnswerParts.{answer_parts, told_as, answer_of, all_answers};
ghost use Rattle.vortex_syntax.specs.AnswerParts.{Tells};
ghost use Rattle.vortex_syntax.specs.Refusals.{RefusesBy, TreeStopsAt, ListStopsAt, NamesPlace};
ghost use Rattle.vortex_syntax.specs.Refusals.{tree_tokens};

use crate::error::SyntaxError;
use crate::expected::Expected;
use crate::lexing::read_tokens;
use crate::nesting::too_deep;
use crate::places::TokenPlaces;
use crate::reader::read_steps;
use crate::token::{Sign, Token};
use crate::tree::SyntaxTree;
use std::alloc::Global;

/// An answer in a list: a tree, and the name after its `as`, a `Name` or a `Quoted`.
#[derive(Drop)]
pub struct SyntaxAnswer<'a> {
    pub tree: SyntaxTree<'a>,
    pub name: Option<Token<'a>>,
}

fn is_comma(token: Token<'_>) -> bool
    ensures { result ≡ is_comma (token_in token.entry) }
{
    matches!(token, Token::Sign(Sign::Comma))
}

fn is_as(token: Token<'_>) -> bool
    ensures { result ≡ is_as (token_in token.entry) }
{
    matches!(token, Token::Sign(Sign::As))
}

fn is_name(token: Token<'_>) -> bool
    ensures { result ≡ is_name (token_in token.entry) }
{
    matches!(token, Token::Name(_) | Token::Quoted(_))
}

/// Whether the tokens are `as` and a name.
fn is_naming(word: Token<'_>, name: Token<'_>) -> bool
    ensures { result ≡ (is_as (token_in word.entry) && is_name (token_in name.entry)) }
{
    is_as(word) && is_name(name)
}

/// The tokens of a tree and the name after them, where the last two tokens are `as` and a name.
pub(crate) fn split_name<'s, 'a>(tokens: &'s [Token<'a>]) -> Option<(&'s [Token<'a>], Token<'a>)>
    ensures { option_map (λ x. (map token_in x.0.now, token_in x.1)) result
        ≡ specs.split_name (map token_in tokens.now) }
{
    let Some((name, front)) = tokens.split_last() else {
        return None;
    };
    let Some((word, tree)) = front.split_last() else {
        return None;
    };
    if is_naming(*word, *name) {
        Some((tree, *name))
    } else {
        None
    }
}

/// The tree that the tokens spell, with that name.
fn read_named<'a>(
    alloc: Global,
    tokens: &[Token<'a>],
    places: TokenPlaces<'_>,
    name: Option<Token<'a>>,
) -> Result<SyntaxAnswer<'a>, SyntaxError>
    ensures told { Tells result
        (told_as (option_map token_in name.entry) (steps_of (map token_in tokens.now))) }
    ensures refused { IfErr result
        (NamesPlace (TreeStopsAt (map token_in tokens.now)) places.entry) }
{
    let tree = read_steps(alloc, tokens, places)?;
    Ok(SyntaxAnswer { tree, name })
}

/// The answer that the tokens between two commas spell.
fn read_answer<'a>(
    alloc: Global,
    tokens: &[Token<'a>],
    places: TokenPlaces<'_>,
) -> Result<SyntaxAnswer<'a>, SyntaxError>
    ensures told { Tells result (answer_of (map token_in tokens.now)) }
    ensures refused { IfErr result
        (NamesPlace (TreeStopsAt (tree_tokens (map token_in tokens.now))) places.entry) }
{
    match split_name(tokens) {
        Some((tree, name)) => read_named(alloc, tree, places, Some(name)),
        None => read_named(alloc, tokens, places, None),
    }
}

/// Whether the token is a comma outside of brackets, where that many are open.
fn ends_answer(depth: usize, token: Token<'_>) -> bool
    ensures { result ≡ ends_answer depth (token_in token.entry) }
{
    is_comma(token) && depth == 0
}

/// How many brackets are open after the token, with that many before it.
fn depth_behind(depth: usize, token: Token<'_>) -> usize
    ensures { depth < 18446744073709551615 → result ≡ depth_behind depth (token_in token.entry) }
{
    match token {
        Token::Function(_) => depth.saturating_add(1),
        Token::Sign(Sign::Open) => depth.saturating_add(1),
        Token::Sign(Sign::Close) => depth.saturating_sub(1),
        _ => depth,
    }
}

/// The number of the first comma outside of brackets.
pub(crate) fn first_comma(tokens: &[Token<'_>]) -> Option<usize>
    ensures parts { MatchOption result
        (answer_parts (map token_in tokens.now) ≡ map token_in tokens.now ∷ [])
        (λ n. answer_parts (map token_in tokens.now) ≡ map token_in (take n tokens.now)
        ∷ answer_parts (map token_in (drop (n + 1) tokens.now))) }
    ensures within { IfSome result (λ n. n < length tokens.now) }
{
    let mut depth = 0usize;
    for (i, token) in tokens.iter().enumerate() {
        if ends_answer(depth, *token) {
            return Some(i);
        }
        depth = depth_behind(depth, *token);
    }
    None
}

/// The answers that the tokens spell; else the first token with which none continues, by its byte.
fn read_parts<'a>(
    alloc: Global,
    tokens: &[Token<'a>],
    places: TokenPlaces<'_>,
) -> Result<Vec<SyntaxAnswer<'a>>, SyntaxError>
    ensures read { MatchResult result
        (λ v. all_answers (map token_in tokens.now) ≡ Some (map answer_in v.items))
        (UnlessMemory (all_answers (map token_in tokens.now) ≡ None)) }
    ensures refused { IfErr result
        (NamesPlace (ListStopsAt (map token_in tokens.now)) places.entry) }
{
    let mut answers = Vec::new(alloc);
    let mut from = 0;
    while let Some(count) = first_comma(&tokens[from..]) {
        let answer = read_answer(alloc, &tokens[from..from + count], places.after(from))?;
        answers.push(answer)?;
        from += count + 1;
    }
    let answer = read_answer(alloc, &tokens[from..], places.after(from))?;
    answers.push(answer)?;
    Ok(answers)
}

/// Parses a list of answers, one or more with commas between: each a tree, and its name after `as`
/// if it has one. Fails exactly where the text is no list: `NoToken`, `TooDeep`, or `Unexpected`
/// with what was expected, each with the byte.
pub fn read_answer_list(alloc: Global, text: &[u8]) -> Result<Vec<SyntaxAnswer<'_>>, SyntaxError>
    // The result is a list of the text.
    ensures found { IfOk result (λ v. (answers : List Answer) × ReadsAnswers text.now answers
        × (map answer_in v.items ≡ map told answers)) }
    // A list of the text is returned.
    ensures only { (answers : List Answer) → ReadsAnswers text.now answers
        → AnswersUnlessMemory result (λ v. map answer_in v.items ≡ map told answers) }
    // An error is the text's, with its byte.
    ensures refused { IfErr result (RefusesBy ListStopsAt text.now) }
{
    let read = read_tokens(alloc, text)?;
    let tokens = read.tokens.as_slice();
    if let Some(number) = too_deep(tokens) {
        return Err(SyntaxError::TooDeep(read.byte(number)));
    }
    read_parts(alloc, tokens, read.placed(Expected::OperatorOrName))
}
