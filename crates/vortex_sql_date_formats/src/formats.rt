//! Formats of dates and timestamps: the items that they are made of.
ghost use Rattle.std.specs.Prelude.{◌≡◌, ◌∷◌, ◌<◌, ◌≤◌, [], false, IfSome, MatchOption};
ghost use Rattle.std.specs.Prelude.{length};
ghost use Rattle.vortex_sql_date_formats.specs.Formats as specs;

use crate::items::FormatItem;
use crate::words::word;

/// Whether a byte stands for itself: no letter, no digit, no double quote and no backslash does.
fn is_literal(byte: u8) -> bool
    ensures { result ≡ specs.is_literal byte }
{
    !(byte.is_ascii_alphanumeric() || byte == b'"' || byte == b'\\')
}

/// The item of a byte that begins no word.
fn literal(byte: u8) -> FormatItem
    ensures { result ≡ specs.literal byte }
{
    if is_literal(byte) {
        FormatItem::Literal(byte)
    } else {
        FormatItem::Unknown
    }
}

/// The first item of a format that begins with no double quote, outside of them, and the format
/// after it.
fn plain_item(format: &[u8]) -> Option<(FormatItem, &[u8])>
    requires { specs.begins_quote format.now ≡ false }
    ensures items { MatchOption result (specs.items_from false format.now ≡ [])
        (λ p. specs.items_from false format.now ≡ p.0 ∷ specs.items_from false p.1.now) }
    ensures shorter { IfSome result (λ p. length p.1.now < length format.now) }
{
    match word(format) {
        Some((item, width)) => Some((item, &format[width..])),
        None => match format {
            [byte, rest @ ..] => Some((literal(*byte), rest)),
            [] => None,
        },
    }
}

/// The item of a byte in double quotes: itself, but no backslash.
fn quoted(byte: u8) -> FormatItem
    ensures { result ≡ specs.quoted byte }
{
    if byte == b'\\' {
        FormatItem::Unknown
    } else {
        FormatItem::Literal(byte)
    }
}

/// The format after the double quotes that it begins with, and whether it goes on within such.
fn after_quotes(is_quoted: bool, format: &[u8]) -> (bool, &[u8])
    ensures items { specs.items_from result.0 result.1.now
        ≡ specs.items_from is_quoted format.now }
    ensures no_more { specs.begins_quote result.1.now ≡ false }
    ensures bound { specs.items_bound result.0 result.1.now
        ≤ specs.items_bound is_quoted format.now }
{
    let mut within = is_quoted;
    let mut rest = format;
    while let [b'"', after @ ..] = rest {
        within = !within;
        rest = after;
    }
    (within, rest)
}

/// The first item of a format, whether the format after it begins within double quotes, and that
/// format; none at its end. Double quotes without an end are an item that is not known.
pub(crate) fn next_item(is_quoted: bool, format: &[u8]) -> Option<(FormatItem, bool, &[u8])>
    ensures items { MatchOption result (specs.items_from is_quoted format.now ≡ [])
        (λ p. specs.items_from is_quoted format.now
        ≡ p.0 ∷ specs.items_from p.1 p.2.now) }
    ensures fewer { IfSome result (λ p. specs.items_bound p.1 p.2.now
        < specs.items_bound is_quoted format.now) }
{
    let (within, rest) = after_quotes(is_quoted, format);
    if !within {
        let (item, after) = plain_item(rest)?;
        return Some((item, false, after));
    }
    match rest {
        [byte, after @ ..] => Some((quoted(*byte), true, after)),
        [] => Some((FormatItem::Unknown, false, rest)),
    }
}
