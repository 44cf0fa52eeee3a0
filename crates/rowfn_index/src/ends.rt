//! Ends of texts, cut off.
ghost use Rattle.std.specs.Prelude.{◌≡◌, ◌≤◌, ◌<◌, ◌+◌, ◌++◌, ◌∷◌, [], IfOk, IfSome, List, ℕ, length};
ghost use Rattle.std.specs.Prelude.{string_bytes, slice_index};
ghost use Rattle.rowfn_index.specs.Ends.{BeginsWith, IsRaised, IsTextAbove};

use std::alloc::{AllocError, Global};

/// How many bytes of a text are kept, at most.
const KEPT: usize = 24;

/// How many bytes a character has, at most.
const WIDEST: usize = 4;

/// The first characters of a text: so many bytes, or as many fewer as end a character.
fn prefix_of(text: &str) -> &str
    ensures { BeginsWith text.now result.now }
{
    for cut in 0..WIDEST {
        if let Some(prefix) = text.get(..KEPT - cut) {
            return prefix;
        }
    }
    ""
}

/// A text that is not above this one: the text itself where it is short, else its first characters.
pub fn low_end(text: &str) -> &str
    ensures { BeginsWith text.now result.now }
{
    if text.len() <= KEPT {
        return text;
    }
    prefix_of(text)
}

/// The last of the first bytes that is a character of ASCII with another one after it.
fn raised_place(bytes: &[u8]) -> Option<usize>
    requires { KEPT ≤ length bytes.now }
    ensures { IfSome result (λ place. (place < length bytes.now)
        × (slice_index bytes.now place < 127)) }
{
    for cut in 0..KEPT {
        let place = KEPT - 1 - cut;
        if bytes[place] < 127 {
            return Some(place);
        }
    }
    None
}

/// The bytes of a text up to a character of ASCII, and that one raised.
fn raised_at(alloc: Global, text: &str, place: usize) -> Result<Option<String>, AllocError>
    requires within { place < length text.now }
    requires rises { slice_index text.now place < 127 }
    ensures { IfOk result (λ end. IfSome end (λ s. IsRaised text.now (string_bytes s))) }
{
    let Some(prefix) = text.get(..place) else {
        return Ok(None);
    };
    let mut end = String::from_str(alloc, prefix)?;
    end.push(char::from(text.as_bytes()[place] + 1))?;
    Ok(Some(end))
}

/// A text that is not below this one: the text itself where it is short, else its first characters, of
/// which the last is raised. That is one of ASCII; none where there is none among them.
pub fn high_end(alloc: Global, text: &str) -> Result<Option<String>, AllocError>
    ensures { IfOk result (λ end. IfSome end (λ s. IsTextAbove text.now (string_bytes s))) }
{
    if text.len() <= KEPT {
        return Ok(Some(String::from_str(alloc, text)?));
    }
    match raised_place(text.as_bytes()) {
        Some(place) => raised_at(alloc, text, place),
        None => Ok(None),
    }
}
