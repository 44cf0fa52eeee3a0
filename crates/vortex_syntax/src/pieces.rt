//! The pieces of a text: gaps and tokens.
ghost use Rattle.std.specs.Prelude.{◌≡◌, ◌<◌, ◌≤◌, suc, length, option_map, IfSome, take, drop};
ghost use Rattle.vortex_syntax.specs.Keywords.{same_word, keyword_of};
ghost use Rattle.vortex_syntax.specs.Tokens.{token_in};
ghost use Rattle.vortex_syntax.specs.Pieces.{piece_in, is_blank, begins_word, is_in, front, behind};
ghost use Rattle.vortex_syntax.specs.Pieces.{name_before, keyword_or_name, word_before, number_before, closed};
ghost use Rattle.vortex_syntax.specs.Pieces.{quoted_by, first_piece, behind_fraction};
ghost use Rattle.vortex_syntax.specs.Pieces.{behind_sign, begins_digits, begins_exponent};
ghost use Rattle.vortex_syntax.specs.Pieces.{behind_exponent, begins_number, behind_number};
ghost use Rattle.vortex_syntax.specs.Pieces.{front_number, is_decimal_word, is_text_word};
ghost use Rattle.vortex_syntax.specs.Pieces.{is_sized_word};

use crate::gaps::{divide_or_comment, minus_or_comment};
use crate::signs::longest_sign;
use crate::sizes::sized_or_word;
use crate::token::{Sign, Token, TrimSide};

/// Classes of bytes that continue a run.
#[derive(Clone, Copy, Debug, PartialEq, Eq)]
pub enum Run {
    /// Letters, digits and `_`.
    Word,
    Digits,
    Blank,
    /// All bytes except ends of lines.
    Line,
}

/// A piece of a text.
#[derive(Clone, Copy, Debug, PartialEq, Eq)]
pub enum Piece<'a> {
    /// White space or a comment.
    Gap,
    Token(Token<'a>),
}

fn is_blank(byte: u8) -> bool
    ensures { result ≡ is_blank byte }
{
    byte == b' ' || byte == b'\t' || byte == b'\n' || byte == b'\r'
}

pub(crate) fn begins_word(byte: u8) -> bool
    ensures { result ≡ begins_word byte }
{
    byte.is_ascii_alphabetic() || byte == b'_'
}

pub(crate) fn is_in(run: Run, byte: u8) -> bool
    ensures { result ≡ is_in run byte }
{
    match run {
        Run::Word => byte.is_ascii_alphanumeric() || byte == b'_',
        Run::Digits => byte.is_ascii_digit(),
        Run::Blank => is_blank(byte),
        Run::Line => { if byte == b'\n' { false } else { byte != b'\r' } }
    }
}

/// How many bytes of the run are at the start of the text.
fn run_len(run: Run, text: &[u8]) -> usize
    ensures within { result ≤ length text.now }
    ensures front { take result text.now ≡ front run text.now }
    ensures behind { drop result text.now ≡ behind run text.now }
{
    for (i, byte) in text.iter().enumerate() {
        if !is_in(run, *byte) {
            return i;
        }
    }
    text.len()
}

/// The bytes of the run at the start of the text, and the bytes after them.
pub(crate) fn split_run(run: Run, text: &[u8]) -> (&[u8], &[u8])
    ensures front { result.0.now ≡ front run text.now }
    ensures behind { result.1.now ≡ behind run text.now }
    ensures shorter { length result.1.now ≤ length text.now }
{
    text.split_at(run_len(run, text))
}

/// Whether it is that word, ignoring case.
pub(crate) fn is_same_word(word: &[u8], other: &[u8]) -> bool
    ensures { result ≡ same_word word.now other.now }
{
    word.eq_ignore_ascii_case(other)
}

#[tactic(auto, unfolding(crate::specs::Keywords::keyword_of))]
pub(crate) fn keyword_of(word: &[u8]) -> Option<Sign>
    ensures { result ≡ keyword_of word.now }
{
    if is_same_word(word, b"and") {
        Some(Sign::And)
    } else if is_same_word(word, b"or") {
        Some(Sign::Or)
    } else if is_same_word(word, b"not") {
        Some(Sign::Not)
    } else if is_same_word(word, b"is") {
        Some(Sign::Is)
    } else if is_same_word(word, b"null") {
        Some(Sign::Null)
    } else if is_same_word(word, b"between") {
        Some(Sign::Between)
    } else if is_same_word(word, b"like") {
        Some(Sign::Like)
    } else if is_same_word(word, b"ilike") {
        Some(Sign::Ilike)
    } else if is_same_word(word, b"escape") {
        Some(Sign::Escape)
    } else if is_same_word(word, b"true") {
        Some(Sign::True)
    } else if is_same_word(word, b"false") {
        Some(Sign::False)
    } else if is_same_word(word, b"cast") {
        Some(Sign::Cast)
    } else if is_same_word(word, b"as") {
        Some(Sign::As)
    } else if is_same_word(word, b"distinct") {
        Some(Sign::Distinct)
    } else if is_same_word(word, b"from") {
        Some(Sign::From)
    } else if is_same_word(word, b"in") {
        Some(Sign::In)
    } else if is_same_word(word, b"case") {
        Some(Sign::Case)
    } else if is_same_word(word, b"when") {
        Some(Sign::When)
    } else if is_same_word(word, b"then") {
        Some(Sign::Then)
    } else if is_same_word(word, b"else") {
        Some(Sign::Else)
    } else if is_same_word(word, b"end") {
        Some(Sign::End)
    } else if is_same_word(word, b"isnull") {
        Some(Sign::IsNull)
    } else if is_same_word(word, b"notnull") {
        Some(Sign::NotNull)
    } else if is_same_word(word, b"try_cast") {
        Some(Sign::TryCast)
    } else if is_same_word(word, b"symmetric") {
        Some(Sign::Symmetric)
    } else if is_same_word(word, b"regexp") || is_same_word(word, b"rlike") {
        Some(Sign::BitNot)
    } else if is_same_word(word, b"both") {
        Some(Sign::Side(TrimSide::Both))
    } else if is_same_word(word, b"leading") {
        Some(Sign::Side(TrimSide::Leading))
    } else if is_same_word(word, b"trailing") {
        Some(Sign::Side(TrimSide::Trailing))
    } else {
        None
    }
}

fn is_decimal_word(word: &[u8]) -> bool
    ensures { result ≡ is_decimal_word word.now }
{
    is_same_word(word, b"decimal") || is_same_word(word, b"numeric")
}

pub(crate) fn is_text_word(word: &[u8]) -> bool
    ensures { result ≡ is_text_word word.now }
{
    is_same_word(word, b"varchar")
}

/// Whether the word is a type's whose name has sizes.
pub(crate) fn is_sized_word(word: &[u8]) -> bool
    ensures { result ≡ is_sized_word word.now }
{
    is_decimal_word(word) || is_text_word(word)
}

/// The piece of a name, with an opening bracket if one follows directly that is not one of sizes.
fn name_before<'a>(word: &'a [u8], rest: &'a [u8]) -> (Piece<'a>, &'a [u8])
    ensures piece { (piece_in result.0, result.1.now) ≡ name_before word.now rest.now }
    ensures shorter { length result.1.now ≤ length rest.now }
{
    match rest {
        [b'(', behind @ ..] => {
            if is_sized_word(word) {
                (Piece::Token(Token::Name(word)), rest)
            } else {
                (Piece::Token(Token::Function(word)), behind)
            }
        }
        _ => (Piece::Token(Token::Name(word)), rest),
    }
}

fn keyword_or_name<'a>(word: &'a [u8], rest: &'a [u8]) -> (Piece<'a>, &'a [u8])
    ensures piece { (piece_in result.0, result.1.now)
        ≡ keyword_or_name word.now (keyword_of word.now) rest.now }
    ensures shorter { length result.1.now ≤ length rest.now }
{
    match keyword_of(word) {
        Some(sign) => (Piece::Token(Token::Sign(sign)), rest),
        None => name_before(word, rest),
    }
}

/// The piece of a word, by what follows the word, and what follows the piece.
pub(crate) fn word_before<'a>(word: &'a [u8], rest: &'a [u8]) -> (Piece<'a>, &'a [u8])
    ensures piece { (piece_in result.0, result.1.now) ≡ word_before word.now rest.now }
    ensures shorter { length result.1.now ≤ length rest.now }
{
    match rest {
        [b'?', rest @ ..] => (Piece::Token(Token::Nullable(word)), rest),
        _ => keyword_or_name(word, rest),
    }
}

/// What follows a point and digits, where a point comes first.
fn behind_fraction(text: &[u8]) -> &[u8]
    ensures behind { result.now ≡ behind_fraction text.now }
    ensures shorter { length result.now ≤ length text.now }
{
    match text {
        [b'.', digits @ ..] => split_run(Run::Digits, digits).1,
        _ => text,
    }
}

fn behind_sign(text: &[u8]) -> &[u8]
    ensures behind { result.now ≡ behind_sign text.now }
    ensures shorter { length result.now ≤ length text.now }
{
    match text {
        [byte, rest @ ..] if *byte == b'+' || *byte == b'-' => rest,
        _ => text,
    }
}

pub(crate) fn begins_digits(text: &[u8]) -> bool
    ensures { result ≡ begins_digits text.now }
{
    match text {
        [byte, ..] => byte.is_ascii_digit(),
        _ => false,
    }
}

fn begins_exponent(byte: u8, rest: &[u8]) -> bool
    ensures { result ≡ begins_exponent byte rest.now }
{
    (byte == b'E' || byte == b'e') && begins_digits(behind_sign(rest))
}

/// What follows an exponent, where one comes first.
fn behind_exponent(text: &[u8]) -> &[u8]
    ensures behind { result.now ≡ behind_exponent text.now }
    ensures shorter { length result.now ≤ length text.now }
{
    match text {
        [byte, rest @ ..] if begins_exponent(*byte, rest) => {
            split_run(Run::Digits, behind_sign(rest)).1
        }
        _ => text,
    }
}

fn begins_number(text: &[u8]) -> bool
    ensures { result ≡ begins_number text.now }
{
    match text {
        [b'.', rest @ ..] => begins_digits(rest),
        _ => begins_digits(text),
    }
}

/// The number at the start of the text, and what follows it.
fn split_number(text: &[u8]) -> (&[u8], &[u8])
    ensures front { result.0.now ≡ front_number text.now }
    ensures behind { result.1.now ≡ behind_number text.now }
{
    let behind = behind_exponent(behind_fraction(split_run(Run::Digits, text).1));
    (&text[..text.len() - behind.len()], behind)
}

/// The piece of a number, by what follows it.
fn number_before<'a>(number: &'a [u8], rest: &'a [u8]) -> Option<(Piece<'a>, &'a [u8])>
    ensures piece { option_map (λ x. (piece_in x.0, x.1.now)) result
        ≡ number_before number.now rest.now }
    ensures shorter { IfSome result (λ x. length x.1.now ≤ length rest.now) }
{
    if let Some(byte) = rest.first()
        && is_in(Run::Word, *byte)
    {
        return None;
    }
    Some((Piece::Token(Token::Number(number)), rest))
}

/// How many bytes come before the first quote that is not doubled.
fn closing_quote(quote: u8, text: &[u8]) -> Option<usize>
    ensures closed { option_map (λ n. (take n text.now, drop (suc n) text.now)) result
        ≡ closed quote text.now }
    ensures within { IfSome result (λ n. n < length text.now) }
{
    let mut i = 0;
    while i < text.len() {
        if text[i] != quote {
            i += 1;
        } else if i + 1 < text.len() && text[i + 1] == quote {
            i += 2;
        } else {
            return Some(i);
        }
    }
    None
}

/// The text up to its closing quote, and what follows that.
fn split_quoted(quote: u8, text: &[u8]) -> Option<(&[u8], &[u8])>
    ensures closed { option_map (λ x. (x.0.now, x.1.now)) result ≡ closed quote text.now }
    ensures shorter { IfSome result (λ x. length x.1.now < length text.now) }
{
    let n = closing_quote(quote, text)?;
    Some((&text[..n], &text[n + 1..]))
}

/// The first piece of the text, and what follows it; nothing where none begins.
#[tactic(auto, unfolding(crate::specs::Pieces::first_piece))]
pub(crate) fn first_piece(text: &[u8]) -> Option<(Piece<'_>, &[u8])>
    ensures piece { option_map (λ x. (piece_in x.0, x.1.now)) result ≡ first_piece text.now }
    ensures shorter { IfSome result (λ x. length x.1.now < length text.now) }
{
    let (first, rest) = text.split_first()?;
    if is_blank(*first) {
        Some((Piece::Gap, rest))
    } else if *first == b'-' {
        minus_or_comment(rest)
    } else if *first == b'/' {
        divide_or_comment(rest)
    } else if begins_word(*first) {
        Some(sized_or_word(text))
    } else if begins_number(text) {
        let (number, behind) = split_number(text);
        number_before(number, behind)
    } else if *first == b'\'' {
        let (text, behind) = split_quoted(b'\'', rest)?;
        Some((Piece::Token(Token::Text(text)), behind))
    } else if *first == b'"' {
        let (name, behind) = split_quoted(b'"', rest)?;
        Some((Piece::Token(Token::Quoted(name)), behind))
    } else {
        longest_sign(*first, rest)
    }
}
