//! Names of types with sizes: `decimal(12, 2)`, `varchar(12)`.
ghost use Rattle.std.specs.Prelude.{◌≡◌, ◌<◌, ◌≤◌, length, option_map, IfSome};
ghost use Rattle.vortex_syntax.specs.declared.pieces.Run.TheVariants.{Word};
ghost use Rattle.vortex_syntax.specs.Pieces.{piece_in, front, behind, behind_size, behind_close};
ghost use Rattle.vortex_syntax.specs.Pieces.{behind_last, behind_sizes, sizes_at, behind_sized};
ghost use Rattle.vortex_syntax.specs.Pieces.{sized_or_word};
ghost use Rattle.std.specs.List.{list_any};
ghost use Rattle.vortex_syntax.specs.SizeDigits.{size_digits, scale_digits, digits_in, all_sizes};
ghost use Rattle.vortex_syntax.specs.SizeDigits.{is_text_name, is_comma, sizes_of, text_size_of};

use crate::pieces::{
    Piece, Run, begins_digits, is_sized_word, is_text_word, split_run, word_before,
};
use crate::token::Token;

/// What follows digits, with blanks round them.
fn behind_size(text: &[u8]) -> Option<&[u8]>
    ensures behind { option_map (λ rest. rest.now) result ≡ behind_size text.now }
    ensures shorter { IfSome result (λ rest. length rest.now ≤ length text.now) }
{
    let digits = split_run(Run::Blank, text).1;
    if !begins_digits(digits) {
        return None;
    }
    Some(split_run(Run::Blank, split_run(Run::Digits, digits).1).1)
}

fn behind_close(text: &[u8]) -> Option<&[u8]>
    ensures behind { option_map (λ rest. rest.now) result ≡ behind_close text.now }
    ensures shorter { IfSome result (λ rest. length rest.now ≤ length text.now) }
{
    match text {
        [b')', rest @ ..] => Some(rest),
        _ => None,
    }
}

/// What follows a first size: a bracket, or a comma, the second size and a bracket.
fn behind_last(text: &[u8]) -> Option<&[u8]>
    ensures behind { option_map (λ rest. rest.now) result ≡ behind_last text.now }
    ensures shorter { IfSome result (λ rest. length rest.now ≤ length text.now) }
{
    match text {
        [b')', rest @ ..] => Some(rest),
        [b',', rest @ ..] => behind_close(behind_size(rest)?),
        _ => None,
    }
}

/// What follows a bracket with sizes.
fn behind_sizes(text: &[u8]) -> Option<&[u8]>
    ensures behind { option_map (λ rest. rest.now) result ≡ behind_sizes text.now }
    ensures shorter { IfSome result (λ rest. length rest.now < length text.now) }
{
    match text {
        [b'(', rest @ ..] => behind_last(behind_size(rest)?),
        _ => None,
    }
}

/// What follows the sizes of that word.
fn sizes_at<'a>(word: &[u8], text: &'a [u8]) -> Option<&'a [u8]>
    ensures behind { option_map (λ rest. rest.now) result ≡ sizes_at word.now text.now }
    ensures shorter { IfSome result (λ rest. length rest.now < length text.now) }
{
    if is_sized_word(word) {
        behind_sizes(text)
    } else {
        None
    }
}

/// The piece of the word at the start, with its sizes if it has some, and what follows it.
pub(crate) fn sized_or_word(text: &[u8]) -> (Piece<'_>, &[u8])
    ensures piece { (piece_in result.0, result.1.now)
        ≡ sized_or_word text.now (behind_sized text.now) }
    ensures shorter { length result.1.now ≤ length (behind Word text.now) }
{
    let (word, behind) = split_run(Run::Word, text);
    match sizes_at(word, behind) {
        Some(rest) => (
            Piece::Token(Token::Name(&text[..text.len() - rest.len()])),
            rest,
        ),
        None => word_before(word, behind),
    }
}

fn size_digits(text: &[u8]) -> &[u8]
    ensures { result.now ≡ size_digits text.now }
{
    split_run(Run::Digits, split_run(Run::Blank, text).1).0
}

/// The digits of a scale after a comma; a scale that is left out is 0.
fn scale_digits(text: &[u8]) -> &[u8]
    ensures { result.now ≡ scale_digits text.now }
{
    match text {
        [b',', rest @ ..] => size_digits(rest),
        _ => b"0",
    }
}

/// The digits of precision and scale after the bracket.
fn digits_in(text: &[u8]) -> Option<(&[u8], &[u8])>
    ensures { option_map (λ x. (x.0.now, x.1.now)) result ≡ digits_in text.now }
{
    match text {
        [_, rest @ ..] => {
            let behind = behind_size(rest)?;
            Some((size_digits(rest), scale_digits(behind)))
        }
        _ => None,
    }
}

/// The digits of the sizes in the name of a type, as written.
fn all_sizes(name: &[u8]) -> Option<(&[u8], &[u8])>
    ensures { option_map (λ x. (x.0.now, x.1.now)) result ≡ all_sizes name.now }
{
    let (word, behind) = split_run(Run::Word, name);
    match sizes_at(word, behind) {
        Some([]) => digits_in(behind),
        _ => None,
    }
}

fn is_text_name(name: &[u8]) -> bool
    ensures { result ≡ is_text_name name.now }
{
    is_text_word(split_run(Run::Word, name).0)
}

/// The digits of precision and scale in the name of a type, as written: `NUMERIC( 12, 2 )` has 12
/// and 2, `decimal(5)` has 5 and 0. None in other names.
pub fn sizes_of(name: &[u8]) -> Option<(&[u8], &[u8])>
    ensures { option_map (λ x. (x.0.now, x.1.now)) result ≡ sizes_of name.now }
{
    if is_text_name(name) {
        None
    } else {
        all_sizes(name)
    }
}

fn has_comma(name: &[u8]) -> bool
    ensures { result ≡ list_any is_comma name.now }
{
    name.iter().any(|byte| *byte == b',')
}

/// The digits of the only size in the name of a type of texts: `VARCHAR( 12 )` has 12. None in other
/// names.
pub fn text_size_of(name: &[u8]) -> Option<&[u8]>
    ensures { option_map (λ digits. digits.now) result ≡ text_size_of name.now }
{
    if !is_text_name(name) || has_comma(name) {
        return None;
    }
    match all_sizes(name) {
        Some((digits, _)) => Some(digits),
        None => None,
    }
}
