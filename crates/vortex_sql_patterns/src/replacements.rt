//! What a replacement writes for a match.
ghost use Rattle.std.specs.Prelude.{◌≡◌, ◌<◌, ◌++◌, ◌∷◌, [], ℕ, List, true, false, ⊤, length};
ghost use Rattle.std.specs.Prelude.{IsUtf8, IfOk, IfSome, MatchOption, string_bytes};
ghost use Rattle.std.specs.Str.{chars};
ghost use Rattle.vortex_sql_patterns.specs.Items.{captured, item_bytes};
ghost use Rattle.vortex_sql_patterns.specs.Replacing.{escaped, is_escaped, written};

use regex::Captures;
use std::alloc::AllocError;

/// An item of a replacement.
#[derive(Clone, Copy)]
pub(crate) enum Item {
    Sign(char),
    /// What a group spans; group 0 is the match.
    Group(usize),
}

/// The first character of a text, and the text after it.
fn split_first(text: &str) -> Option<(char, &str)>
    ensures characters { MatchOption result (chars text.now ≡ [])
        (λ parts. chars text.now ≡ parts.0 ∷ chars parts.1.now) }
    ensures utf8 { MatchOption result ⊤ (λ parts. IsUtf8 parts.1.now) }
{
    let mut rest = text.chars();
    let first = rest.next()?;
    Some((first, rest.as_str()))
}

/// What a sign stands for behind a backslash, if for something else than both.
fn escaped(sign: char) -> Option<Item>
    ensures { MatchOption result (is_escaped sign ≡ false) (λ item. (is_escaped sign ≡ true)
        × ((group : ℕ → List ℕ) → item_bytes group item ≡ escaped group sign)) }
{
    if sign == '\\' {
        Some(Item::Sign(sign))
    } else if sign == '&' {
        Some(Item::Group(0))
    } else if '1' <= sign && sign <= '9' {
        Some(Item::Group(sign as usize - 48))
    } else {
        None
    }
}

/// The first item of a replacement, and what is behind it.
fn next_item(rest: &str) -> Option<(Item, &str)>
    ensures value { MatchOption result (chars rest.now ≡ []) (λ x. (group : ℕ → List ℕ)
        → written group (chars rest.now) ≡ item_bytes group x.0 ++ written group (chars x.1.now)) }
    ensures shorter { IfSome result (λ x. length (chars x.1.now) < length (chars rest.now)) }
    ensures utf8 { IfSome result (λ x. IsUtf8 x.1.now) }
{
    let (sign, after) = split_first(rest)?;
    if sign != '\\' {
        return Some((Item::Sign(sign), after));
    }
    let Some((next, behind)) = split_first(after) else {
        return Some((Item::Sign(sign), after));
    };
    match escaped(next) {
        Some(item) => Some((item, behind)),
        None => Some((Item::Sign(sign), after)),
    }
}

/// Appends what an item writes.
fn push_item(made: &mut String, groups: &Captures<'_, '_>, item: Item) -> Result<(), AllocError>
    ensures { IfOk result (λ _. string_bytes made.new
        ≡ string_bytes made.old ++ item_bytes (captured groups.now) item) }
{
    match item {
        Item::Sign(sign) => made.push(sign),
        Item::Group(number) => match groups.get(number) {
            Some(part) => made.push_str(part.as_str()),
            None => Ok(()),
        },
    }
}

/// Appends what a replacement writes.
pub(crate) fn push_written(
    made: &mut String,
    groups: &Captures<'_, '_>,
    replacement: &str,
) -> Result<(), AllocError>
    ensures { IfOk result (λ _. string_bytes made.new
        ≡ string_bytes made.old ++ written (captured groups.now) (chars replacement.now)) }
{
    let mut rest = replacement;
    while let Some((item, after)) = next_item(rest) {
        push_item(made, groups, item)?;
        rest = after;
    }
    Ok(())
}
