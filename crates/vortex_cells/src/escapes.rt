//! Escape characters of LIKE, written as texts.
ghost use Rattle.std.specs.Prelude.{◌≡◌, [], ◌∷◌, MatchOption};
ghost use Rattle.std.specs.Str.{chars};
ghost use Rattle.vortex_cells.specs.Escapes.{escape_of};

/// The first character of a text, and the text after it.
fn split_first(text: &str) -> Option<(char, &str)>
    ensures { MatchOption result (chars text.now ≡ [])
        (λ parts. chars text.now ≡ parts.0 ∷ chars parts.1.now) }
{
    let mut rest = text.chars();
    let first = rest.next()?;
    Some((first, rest.as_str()))
}

/// The escape character of a text: its only character, or none if it is empty; `None` if it has
/// more.
pub fn escape_of(text: &str) -> Option<Option<char>>
    ensures { result ≡ escape_of (chars text.now) }
{
    match split_first(text) {
        None => Some(None),
        Some((c, behind)) => match split_first(behind) {
            None => Some(Some(c)),
            Some(_) => None,
        },
    }
}
