//! Comments, and the signs that could begin one.
ghost use Rattle.std.specs.Prelude.{◌==◌, ◌&&◌, ◌≡◌, ◌≤◌, length, option_map, IfSome, drop};
ghost use Rattle.vortex_syntax.specs.Pieces.{piece_in, minus_or_comment, behind_comment};
ghost use Rattle.vortex_syntax.specs.Pieces.{divide_or_comment};

use crate::pieces::{Piece, Run, split_run};
use crate::token::{Sign, Token};

/// Minus, or a comment if a second minus follows.
pub(crate) fn minus_or_comment(rest: &[u8]) -> Option<(Piece<'_>, &[u8])>
    ensures piece { option_map (λ x. (piece_in x.0, x.1.now)) result ≡ minus_or_comment rest.now }
    ensures shorter { IfSome result (λ x. length x.1.now ≤ length rest.now) }
{
    match rest {
        [b'-', comment @ ..] => {
            let (_, behind) = split_run(Run::Line, comment);
            Some((Piece::Gap, behind))
        }
        _ => Some((Piece::Token(Token::Sign(Sign::Minus)), rest)),
    }
}

/// Whether two bytes are these.
fn are_bytes(first: u8, second: u8, one: u8, other: u8) -> bool
    ensures { result ≡ ((first == one) && (second == other)) }
{
    first == one && second == other
}

/// How many bytes there are up to the end of a comment, after its `/*`. Comments nest.
fn comment_len(text: &[u8]) -> Option<usize>
    ensures behind { option_map (λ n. drop n text.now) result ≡ behind_comment 0 text.now }
    ensures within { IfSome result (λ n. n ≤ length text.now) }
{
    let mut depth = 0usize;
    let mut i = 0usize;
    while i + 1 < text.len() {
        if are_bytes(text[i], text[i + 1], b'/', b'*') {
            depth += 1;
            i += 2;
        } else if are_bytes(text[i], text[i + 1], b'*', b'/') {
            if depth == 0 {
                return Some(i + 2);
            }
            depth -= 1;
            i += 2;
        } else {
            i += 1;
        }
    }
    None
}

/// What follows a comment, after its `/*`.
fn behind_comment(text: &[u8]) -> Option<&[u8]>
    ensures behind { option_map (λ x. x.now) result ≡ behind_comment 0 text.now }
    ensures shorter { IfSome result (λ x. length x.now ≤ length text.now) }
{
    let n = comment_len(text)?;
    Some(&text[n..])
}

/// Divide, or a comment if an asterisk follows.
pub(crate) fn divide_or_comment(rest: &[u8]) -> Option<(Piece<'_>, &[u8])>
    ensures piece { option_map (λ x. (piece_in x.0, x.1.now)) result ≡ divide_or_comment rest.now }
    ensures shorter { IfSome result (λ x. length x.1.now ≤ length rest.now) }
{
    match rest {
        [b'*', comment @ ..] => {
            let behind = behind_comment(comment)?;
            Some((Piece::Gap, behind))
        }
        _ => Some((Piece::Token(Token::Sign(Sign::Divide)), rest)),
    }
}
