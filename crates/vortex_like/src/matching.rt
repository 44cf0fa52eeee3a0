//! The matcher of tokens and text.
ghost use Rattle.std.specs.Prelude.{◌≡◌, ◌+◌, ◌*◌, ◌<◌, ◌≤◌, ◌↔◌, ◌^◌, ◌-◌, true, IsTrue, length};
ghost use Rattle.std.specs.Prelude.{◌≢◌, [], drop, MatchOption};
ghost use Rattle.std.specs.Str.{chars};
ghost use Rattle.vortex_like.specs.Words.{Match, begins_with_any, first_accepts, asked, IsLast};
ghost use Rattle.vortex_like.specs.Words.{IsFurther};

use crate::characters::split_first;
use crate::token::{LikeToken, Looks};

/// A position in the tokens, and the rest of the text.
#[derive(Clone, Copy)]
struct Place<'a> {
    at: usize,
    text: &'a str,
}

/// Whether the token at an index is any sequence.
fn begins_with_any(tokens: &[LikeToken], at: usize) -> bool
    ensures { result ≡ begins_with_any (drop at tokens.now) }
{
    match tokens.get(at) {
        Some(token) => token.is_any(),
        None => false,
    }
}

/// Whether there is a token at an index, and it accepts the character.
fn first_accepts(
    tokens: &[LikeToken],
    at: usize,
    c: char,
    case_insensitive: bool,
    looks: &mut Looks,
) -> bool
    requires { at < length tokens.now → looks.old < 2 ^ 128 - 1 }
    ensures answer { result ≡ first_accepts case_insensitive (drop at tokens.now) c }
    ensures most { looks.new ≤ looks.old + 1 }
    ensures least { looks.old ≤ looks.new }
    ensures counted { at < length tokens.now → looks.new ≡ looks.old + 1 }
{
    match tokens.get(at) {
        Some(token) => token.accepts(c, case_insensitive, looks),
        None => false,
    }
}

/// The same position, one character later.
fn one_further(back: Option<Place<'_>>) -> Option<Place<'_>>
    ensures { MatchOption result (IsLast back.entry) (IsFurther back.entry) }
{
    let place = back?;
    let (_, text) = split_first(place.text)?;
    Some(Place { at: place.at, text })
}

/// Whether the tokens match the text, and how often a token was compared with a character. Walks
/// over the text once, and backtracks only to the last `%`, one character later each time. A `%` at
/// the end matches the rest at once.
pub(crate) fn match_tokens(
    tokens: &[LikeToken],
    text: &str,
    case_insensitive: bool,
) -> (bool, Looks)
    ensures answer { IsTrue result.0 ↔ Match case_insensitive tokens.now (chars text.now) }
    ensures most { result.1 ≤ (length (chars text.now) + 1) * (length tokens.now + 1) }
    ensures least { IsTrue result.0 → asked tokens.now ≤ result.1 }
    ensures some { 0 < asked tokens.now → chars text.now ≢ [] → 0 < result.1 }
{
    let mut looks = Looks::new();
    let mut at = 0;
    let mut rest = text;
    let mut back = None;
    loop {
        if begins_with_any(tokens, at) {
            at += 1;
            if at == tokens.len() {
                return (true, looks);
            }
            back = Some(Place { at, text: rest });
            continue;
        }
        let Some((c, after)) = split_first(rest) else {
            return (at == tokens.len(), looks);
        };
        if first_accepts(tokens, at, c, case_insensitive, &mut looks) {
            at += 1;
            rest = after;
            continue;
        }
        let Some(place) = one_further(back) else {
            return (false, looks);
        };
        at = place.at;
        rest = place.text;
        back = Some(place);
    }
}
