//! Parts of texts, counted in characters.
ghost use Rattle.std.specs.Prelude.{◌≡◌, IfOk, drop, length, option_to_list, string_bytes, take};
ghost use Rattle.std.specs.Str.{chars};
ghost use Rattle.vortex_sql_texts.specs.Characters.{after_chars, at_least_zero, first_chars};

use std::alloc::{AllocError, Global};

pub(crate) fn first_of(text: &str) -> Option<char>
    ensures { option_to_list result ≡ take 1 (chars text.now) }
{
    text.chars().next()
}

/// The text without its first character.
pub(crate) fn after_first(text: &str) -> &str
    ensures { chars result.now ≡ drop 1 (chars text.now) }
{
    let mut rest = text.chars();
    match rest.next() {
        Some(_first) => rest.as_str(),
        None => text,
    }
}

pub(crate) fn count_chars(text: &str) -> usize
    ensures { result ≡ length (chars text.now) }
{
    text.chars().count()
}

/// A number that counts as many characters of the text: that of its bytes where the count is more.
fn count_in(text: &str, count: u128) -> usize
    ensures first { first_chars result text.now ≡ first_chars count text.now }
    ensures after { after_chars result text.now ≡ after_chars count text.now }
{
    if count < text.len() as u128 {
        count as usize
    } else {
        text.len()
    }
}

/// The first `count` characters of a text.
pub(crate) fn first_chars(alloc: Global, text: &str, count: u128) -> Result<String, AllocError>
    ensures { IfOk result (λ made. string_bytes made ≡ first_chars count text.now) }
{
    text.chars().take(count_in(text, count)).collect(alloc)
}

/// The text without its first `count` characters.
pub(crate) fn after_chars(alloc: Global, text: &str, count: u128) -> Result<String, AllocError>
    ensures { IfOk result (λ made. string_bytes made ≡ after_chars count text.now) }
{
    text.chars().skip(count_in(text, count)).collect(alloc)
}

/// The number, or zero where it is negative.
pub(crate) fn at_least_zero(number: i128) -> u128
    ensures { result ≡ at_least_zero number }
{
    if number < 0 { 0 } else { number as u128 }
}
