//! The tokens of patterns.
ghost use Rattle.std.specs.Prelude.{◌≡◌, ◌<◌, ◌∷◌, [], length, MatchOption};
ghost use Rattle.std.specs.Str.{chars};
ghost use Rattle.vortex_like.specs.Words.{AnswersUnlessMemory, plain_token, tokens_of, IsLastPart};

use crate::characters::{Symbol, first_symbol};
use crate::cuts::cut_at_special;
use crate::token::LikeToken;
use std::alloc::Global;
use vortex_types::VortexResult;

/// The token of a character that is not escaped and is not the escape.
fn plain_token(c: char) -> LikeToken
    ensures { result ≡ plain_token c }
{
    match c {
        '%' => LikeToken::any(),
        '_' => LikeToken::one(),
        _ => LikeToken::character(c),
    }
}

/// The first token of a pattern, and the pattern after it.
fn first_token(pattern: &str, escape: Option<char>) -> Option<(LikeToken, &str)>
    ensures token { MatchOption result (chars pattern.now ≡ [])
        (λ parts. tokens_of escape (chars pattern.now)
        ≡ parts.0 ∷ tokens_of escape (chars parts.1.now)) }
    ensures falls { MatchOption result (chars pattern.now ≡ [])
        (λ parts. length (chars parts.1.now) < length (chars pattern.now)) }
{
    let (symbol, behind) = first_symbol(pattern, escape)?;
    let token = match symbol {
        Symbol::Plain(c) => plain_token(c),
        Symbol::Escaped(c) => LikeToken::character(c),
    };
    Some((token, behind))
}

/// The tokens of a pattern.
pub(crate) fn tokens_of(
    alloc: Global,
    pattern: &str,
    escape: Option<char>,
) -> VortexResult<Vec<LikeToken>>
    ensures { AnswersUnlessMemory result
        (λ tokens. tokens.items ≡ tokens_of escape (chars pattern.now)) }
{
    let mut tokens = Vec::new(alloc);
    let mut rest = pattern;
    while let Some((token, behind)) = first_token(rest, escape) {
        tokens.push(token)?;
        rest = behind;
    }
    Ok(tokens)
}

/// The part of a pattern after its last special character.
pub(crate) fn last_part(pattern: &str, escape: Option<char>) -> &str
    ensures { IsLastPart escape (chars pattern.now) (chars result.now) }
{
    let mut rest = pattern;
    loop {
        let cut = cut_at_special(rest, escape);
        let Some((_, behind)) = first_token(cut.rest, escape) else {
            return cut.front;
        };
        rest = behind;
    }
}
