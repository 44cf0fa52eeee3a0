//! The signs of a text.
ghost use Rattle.std.specs.Prelude.{◌≡◌, ◌≤◌, length, option_map, IfSome};
ghost use Rattle.vortex_syntax.specs.Pieces.{piece_in, sign_of_three, sign_of_two, sign_of_one};
ghost use Rattle.vortex_syntax.specs.Pieces.{longest_sign};

use crate::pieces::Piece;
use crate::token::{Sign, Token};

/// The sign of three characters at the start, by its first two and what follows them.
fn sign_of_three(first: u8, second: u8, rest: &[u8]) -> Option<(Piece<'_>, &[u8])>
    ensures piece { option_map (λ x. (piece_in x.0, x.1.now)) result
        ≡ sign_of_three first second rest.now }
    ensures shorter { IfSome result (λ x. length x.1.now ≤ length rest.now) }
{
    match (first, second, rest) {
        (b'!', b'~', [b'*', behind @ ..]) => {
            Some((Piece::Token(Token::Sign(Sign::NotMatchAnyCase)), behind))
        }
        _ => None,
    }
}

fn sign_of_two(first: u8, second: u8) -> Option<Sign>
    ensures { result ≡ sign_of_two first second }
{
    match (first, second) {
        (b'<', b'=') => Some(Sign::LessOrEqual),
        (b'<', b'>') => Some(Sign::NotEqual),
        (b'<', b'<') => Some(Sign::ShiftLeft),
        (b'>', b'=') => Some(Sign::GreaterOrEqual),
        (b'>', b'>') => Some(Sign::ShiftRight),
        (b'!', b'=') => Some(Sign::NotEqual),
        (b'!', b'~') => Some(Sign::NotMatch),
        (b'~', b'*') => Some(Sign::MatchAnyCase),
        (b'=', b'=') => Some(Sign::Equal),
        (b':', b':') => Some(Sign::Typed),
        (b'|', b'|') => Some(Sign::Concat),
        _ => None,
    }
}

fn sign_of_one(byte: u8) -> Option<Sign>
    ensures { result ≡ sign_of_one byte }
{
    match byte {
        b'=' => Some(Sign::Equal),
        b'<' => Some(Sign::Less),
        b'>' => Some(Sign::Greater),
        b'+' => Some(Sign::Plus),
        b'*' => Some(Sign::Times),
        b'%' => Some(Sign::Modulo),
        b'&' => Some(Sign::BitAnd),
        b'|' => Some(Sign::BitOr),
        b'#' => Some(Sign::BitXor),
        b'~' => Some(Sign::BitNot),
        b'(' => Some(Sign::Open),
        b')' => Some(Sign::Close),
        b',' => Some(Sign::Comma),
        _ => None,
    }
}

/// The sign at the start, of three characters if there is one, or else of two if there is one.
pub(crate) fn longest_sign(first: u8, rest: &[u8]) -> Option<(Piece<'_>, &[u8])>
    ensures piece { option_map (λ x. (piece_in x.0, x.1.now)) result ≡ longest_sign first rest.now }
    ensures shorter { IfSome result (λ x. length x.1.now ≤ length rest.now) }
{
    if let [second, behind @ ..] = rest {
        if let Some(found) = sign_of_three(first, *second, behind) {
            return Some(found);
        }
        if let Some(sign) = sign_of_two(first, *second) {
            return Some((Piece::Token(Token::Sign(sign)), behind));
        }
    }
    let sign = sign_of_one(first)?;
    Some((Piece::Token(Token::Sign(sign)), rest))
}
