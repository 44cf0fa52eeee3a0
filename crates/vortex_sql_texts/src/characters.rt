//! Parts of texts, counted in characters.
ghost use Rattle.std.specs.Prelude.{◌≡◌, [], ◌∷◌, ⊤, IsUtf8, MatchOption, length};
ghost use Rattle.std.specs.Str.{chars};
ghost use Rattle.vortex_sql_texts.specs.Characters.{after_chars, at_least_zero, first_chars};

/// The first character of a text, and the text after it.
pub(crate) fn split_first(text: &str) -> Option<(char, &str)>
    ensures characters { MatchOption result (chars text.now ≡ [])
        (λ parts. chars text.now ≡ parts.0 ∷ chars parts.1.now) }
    ensures utf8 { MatchOption result ⊤ (λ parts. IsUtf8 parts.1.now) }
{
    let mut rest = text.chars();
    let first = rest.next()?;
    Some((first, rest.as_str()))
}

pub(crate) fn count_chars(text: &str) -> usize
    ensures { result ≡ length (chars text.now) }
{
    text.chars().count()
}

/// The text without its first `count` characters.
pub(crate) fn after_chars(text: &str, count: u128) -> &str
    ensures { result.now ≡ after_chars count text.now }
{
    let mut rest = text;
    for _ in 0..count {
        match split_first(rest) {
            Some((_, after)) => rest = after,
            None => return rest,
        }
    }
    rest
}

/// The first `count` characters of a text.
pub(crate) fn first_chars(text: &str, count: u128) -> &str
    ensures { result.now ≡ first_chars count text.now }
{
    let rest = after_chars(text, count);
    &text[..text.len() - rest.len()]
}

/// The number, or zero where it is negative.
pub(crate) fn at_least_zero(number: i128) -> u128
    ensures { result ≡ at_least_zero number }
{
    if number < 0 { 0 } else { number as u128 }
}
