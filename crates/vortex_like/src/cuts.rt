//! Patterns cut at their first special character.
ghost use Rattle.std.specs.Prelude.{◌≡◌};
ghost use Rattle.std.specs.Str.{chars};
ghost use Rattle.vortex_like.specs.Words.{is_special, IsPassed, StartsSpecial, IsCutOf};

use crate::characters::{is_escape, split_first};

/// Whether a character is a wildcard or the escape.
fn is_special(escape: Option<char>, c: char) -> bool
    ensures { result ≡ is_special escape c }
{
    is_escape(escape, c) || (c == '%' || c == '_')
}

/// A pattern, cut before its first special character.
#[derive(Clone, Copy)]
pub(crate) struct Cut<'a> {
    pub(crate) front: &'a str,
    pub(crate) rest: &'a str,
}

/// The rest of a pattern from its first special character on.
fn from_special(pattern: &str, escape: Option<char>) -> &str
    ensures passed { IsPassed escape pattern.now result.now }
    ensures special { StartsSpecial escape (chars result.now) }
{
    let mut rest = pattern;
    while let Some((c, behind)) = split_first(rest) {
        if is_special(escape, c) {
            return rest;
        }
        rest = behind;
    }
    rest
}

/// The part of a pattern without special characters, and the rest after it.
pub(crate) fn cut_at_special(pattern: &str, escape: Option<char>) -> Cut<'_>
    ensures { IsCutOf escape (chars pattern.now) result }
{
    let rest = from_special(pattern, escape);
    let front = &pattern[..pattern.len() - rest.len()];
    Cut { front, rest }
}
