//! Texts, one character at a time.
ghost use Rattle.std.specs.Prelude.{◌≡◌, ◌<◌, [], ◌∷◌, ◌++◌, length, MatchOption, encode_utf8};
ghost use Rattle.std.specs.Str.{chars};
ghost use Rattle.vortex_like.specs.Words.{is_escape, tokens_of, symbol_token};

/// The first character of a text, and the text after it.
pub(crate) fn split_first(text: &str) -> Option<(char, &str)>
    ensures characters { MatchOption result (chars text.now ≡ [])
        (λ parts. chars text.now ≡ parts.0 ∷ chars parts.1.now) }
    ensures bytes { MatchOption result (text.now ≡ [])
        (λ parts. text.now ≡ encode_utf8 parts.0 ++ parts.1.now) }
{
    let mut rest = text.chars();
    let first = rest.next()?;
    Some((first, rest.as_str()))
}

/// A character of a pattern, as it is read.
#[derive(Clone, Copy)]
pub(crate) enum Symbol {
    /// It follows an escape, or is an escape at the end.
    Escaped(char),
    Plain(char),
}

/// Whether a character escapes the one after it.
pub(crate) fn is_escape(escape: Option<char>, c: char) -> bool
    ensures { result ≡ is_escape escape c }
{
    match escape {
        Some(own) => c == own,
        None => false,
    }
}

/// The first character of a pattern, with its meaning, and the rest of the pattern.
pub(crate) fn first_symbol(pattern: &str, escape: Option<char>) -> Option<(Symbol, &str)>
    ensures token { MatchOption result (chars pattern.now ≡ [])
        (λ parts. tokens_of escape (chars pattern.now)
        ≡ symbol_token parts.0 ∷ tokens_of escape (chars parts.1.now)) }
    ensures falls { MatchOption result (chars pattern.now ≡ [])
        (λ parts. length (chars parts.1.now) < length (chars pattern.now)) }
{
    let (c, after) = split_first(pattern)?;
    if !is_escape(escape, c) {
        return Some((Symbol::Plain(c), after));
    }
    match split_first(after) {
        Some((escaped, behind)) => Some((Symbol::Escaped(escaped), behind)),
        None => Some((Symbol::Escaped(c), after)),
    }
}
