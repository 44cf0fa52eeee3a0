//! The simple shapes of a pattern.
ghost use Rattle.std.specs.Prelude.{◌≡◌, true, Some, MatchOption};
ghost use Rattle.std.specs.Str.{chars};
ghost use Rattle.vortex_like.specs.Words.{AnswersUnlessMemory, tokens_of, character, symbol_token};
ghost use Rattle.vortex_like.specs.Words.{is_wildcard, meets_escape, IsVariantOf, TellsMatches};
ghost use Rattle.vortex_like.specs.Words.{is_escape, backslash, IsUnescaped};

use crate::characters::{Symbol, first_symbol, is_escape, split_first};
use crate::cuts::cut_at_special;
use std::alloc::Global;
use std::borrow::CowStr;
use vortex_types::VortexResult;

/// A pattern that only one text matches, or a prefix of every text that matches it. Two are equal
/// by form and text, borrowed or owned.
#[derive(Debug, Drop, PartialEq)]
pub enum LikeVariant<'a> {
    /// The pattern has no wildcard.
    Exact(CowStr<'a>),
    /// The text before the first wildcard.
    Prefix(CowStr<'a>),
}

/// A text without escapes, read from a pattern up to its first wildcard or its end.
#[derive(Drop)]
struct Unescaped {
    text: String,
    at_wildcard: bool,
}

/// The ordinary character, unless it is a wildcard.
fn literal(symbol: Symbol) -> Option<char>
    ensures { MatchOption result (is_wildcard (symbol_token symbol) ≡ true)
        (λ c. symbol_token symbol ≡ character c) }
{
    match symbol {
        Symbol::Escaped(c) => Some(c),
        Symbol::Plain('%') => None,
        Symbol::Plain('_') => None,
        Symbol::Plain(c) => Some(c),
    }
}

/// The text before the first wildcard, or of the whole pattern, without its escapes.
fn without_escapes(alloc: Global, pattern: &str, escape: Option<char>) -> VortexResult<Unescaped>
    ensures { AnswersUnlessMemory result (IsUnescaped escape (chars pattern.now)) }
{
    let mut text = String::new(alloc);
    let mut rest = pattern;
    while let Some((symbol, behind)) = first_symbol(rest, escape) {
        let Some(c) = literal(symbol) else {
            return Ok(Unescaped {
                text,
                at_wildcard: true,
            });
        };
        text.push(c)?;
        rest = behind;
    }
    Ok(Unescaped {
        text,
        at_wildcard: false,
    })
}

/// The shape of a pattern that has an escape before its first wildcard.
fn owned_variant<'a>(
    alloc: Global,
    pattern: &str,
    escape: Option<char>,
) -> VortexResult<LikeVariant<'a>>
    requires { meets_escape escape (chars pattern.now) ≡ true }
    ensures { AnswersUnlessMemory result (λ v. IsVariantOf escape (chars pattern.now) (Some v)) }
{
    let Unescaped { text, at_wildcard } = without_escapes(alloc, pattern, escape)?;
    if at_wildcard {
        Ok(LikeVariant::Prefix(CowStr::Owned(text)))
    } else {
        Ok(LikeVariant::Exact(CowStr::Owned(text)))
    }
}

/// The shape of a pattern, unless it begins with a wildcard.
fn variant_of(
    alloc: Global,
    pattern: &str,
    escape: Option<char>,
) -> VortexResult<Option<LikeVariant<'_>>>
    ensures { AnswersUnlessMemory result (IsVariantOf escape (chars pattern.now)) }
{
    let cut = cut_at_special(pattern, escape);
    match split_first(cut.rest) {
        None => Ok(Some(LikeVariant::Exact(CowStr::Borrowed(cut.front)))),
        Some((c, _)) => {
            if is_escape(escape, c) {
                return Ok(Some(owned_variant(alloc, pattern, escape)?));
            }
            if cut.front.is_empty() {
                return Ok(None);
            }
            Ok(Some(LikeVariant::Prefix(CowStr::Borrowed(cut.front))))
        }
    }
}

impl<'a> LikeVariant<'a> {
    /// The simple shape of a pattern of LIKE: its text if it has no wildcard, or the text before
    /// its first one, each without its escapes. None exactly if it begins with a wildcard that is
    /// not escaped.
    ///
    /// The text is borrowed if there is no escape before that point (a backslash at the end is
    /// one). Fails only where memory runs out (E9).
    pub fn from_str(alloc: Global, pattern: &'a str) -> VortexResult<Option<LikeVariant<'a>>>
        ensures variant { AnswersUnlessMemory result
            (IsVariantOf (Some backslash) (chars pattern.now)) }
        ensures matches { AnswersUnlessMemory result
            (TellsMatches (Some backslash) (chars pattern.now)) }
    {
        LikeVariant::from_str_with(alloc, pattern, Some('\\'))
    }

    /// The same with that escape instead of the backslash, or with none. If a wildcard is the
    /// escape, it is no wildcard. Fails only where memory runs out (E9).
    pub fn from_str_with(
        alloc: Global,
        pattern: &'a str,
        escape: Option<char>,
    ) -> VortexResult<Option<LikeVariant<'a>>>
        ensures variant { AnswersUnlessMemory result (IsVariantOf escape (chars pattern.now)) }
        ensures matches { AnswersUnlessMemory result (TellsMatches escape (chars pattern.now)) }
    {
        variant_of(alloc, pattern, escape)
    }
}
