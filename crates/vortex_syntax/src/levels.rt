//! The levels of operators and of operands.
ghost use Rattle.std.specs.Prelude.{◌≡◌};
ghost use Rattle.std.specs.Char.{is_ascii_digit};
ghost use Rattle.std.specs.List.{list_all};
ghost use Rattle.vortex_syntax.specs.Tokens.{token_in};
ghost use Rattle.vortex_syntax.specs.Levels as levels;

use crate::pieces::{begins_digits, is_same_word};
use crate::step::WrittenOperator;
use crate::token::{Sign, Token};

pub const OR: u8 = 0;

pub const AND: u8 = 1;

pub const NOT: u8 = 2;

pub const DISTINCT: u8 = 3;

pub const IS: u8 = 4;

pub const COMPARISON: u8 = 5;

pub const PREDICATE: u8 = 6;

pub const CONCAT: u8 = 7;

pub const BIT_NOT: u8 = 8;

pub const SUM: u8 = 9;

pub const PRODUCT: u8 = 10;

pub const SIGN: u8 = 11;

pub const ATOM: u8 = 12;

pub const TYPED: u8 = 13;

pub const LITERAL: u8 = 14;

pub fn own(operator: WrittenOperator) -> u8
    ensures { result ≡ levels.own operator }
{
    match operator {
        WrittenOperator::Or => OR,
        WrittenOperator::And => AND,
        WrittenOperator::Concat
        | WrittenOperator::BitAnd
        | WrittenOperator::BitOr
        | WrittenOperator::BitXor
        | WrittenOperator::ShiftLeft
        | WrittenOperator::ShiftRight
        | WrittenOperator::Matches
        | WrittenOperator::MatchesAnyCase
        | WrittenOperator::NotMatches
        | WrittenOperator::NotMatchesAnyCase => CONCAT,
        WrittenOperator::Add | WrittenOperator::Sub => SUM,
        WrittenOperator::Mul | WrittenOperator::Div | WrittenOperator::Mod => PRODUCT,
        _ => COMPARISON,
    }
}

pub fn left(operator: WrittenOperator) -> u8
    ensures { result ≡ levels.left operator }
{
    match operator {
        WrittenOperator::Or => OR,
        WrittenOperator::And => AND,
        WrittenOperator::Concat
        | WrittenOperator::BitAnd
        | WrittenOperator::BitOr
        | WrittenOperator::BitXor
        | WrittenOperator::ShiftLeft
        | WrittenOperator::ShiftRight
        | WrittenOperator::Matches
        | WrittenOperator::MatchesAnyCase
        | WrittenOperator::NotMatches
        | WrittenOperator::NotMatchesAnyCase => CONCAT,
        WrittenOperator::Add | WrittenOperator::Sub => SUM,
        WrittenOperator::Mul | WrittenOperator::Div | WrittenOperator::Mod => PRODUCT,
        _ => PREDICATE,
    }
}

pub fn right(operator: WrittenOperator) -> u8
    ensures { result ≡ levels.right operator }
{
    match operator {
        WrittenOperator::Or => AND,
        WrittenOperator::And => NOT,
        WrittenOperator::Concat
        | WrittenOperator::BitAnd
        | WrittenOperator::BitOr
        | WrittenOperator::BitXor
        | WrittenOperator::ShiftLeft
        | WrittenOperator::ShiftRight
        | WrittenOperator::Matches
        | WrittenOperator::MatchesAnyCase
        | WrittenOperator::NotMatches
        | WrittenOperator::NotMatchesAnyCase => BIT_NOT,
        WrittenOperator::Add | WrittenOperator::Sub => PRODUCT,
        WrittenOperator::Mul | WrittenOperator::Div | WrittenOperator::Mod => SIGN,
        _ => PREDICATE,
    }
}

fn is_literal_sign(sign: Sign) -> bool
    ensures { result ≡ levels.is_literal_sign sign }
{
    matches!(sign, Sign::True | Sign::False | Sign::Null)
}

pub fn is_operand(token: Token<'_>) -> bool
    ensures { result ≡ levels.is_operand (token_in token.entry) }
{
    match token {
        Token::Nullable(_) | Token::Function(_) => false,
        Token::Sign(sign) => is_literal_sign(sign),
        _ => true,
    }
}

pub fn operand_level(token: Token<'_>) -> u8
    ensures { result ≡ levels.operand_level (token_in token.entry) }
{
    match token {
        Token::Name(_) | Token::Quoted(_) => ATOM,
        _ => LITERAL,
    }
}

/// Whether it is the name of the type of intervals.
pub(crate) fn is_interval(word: &[u8]) -> bool
    ensures { result ≡ levels.is_interval word.now }
{
    is_same_word(word, b"interval")
}

fn is_either(word: &[u8], one: &[u8], more: &[u8]) -> bool
    ensures { result ≡ levels.is_either word.now one.now more.now }
{
    is_same_word(word, one) || is_same_word(word, more)
}

/// Whether it is a word for a unit of intervals, in either case: `year`, `month`, `week`, `day`,
/// `hour`, `minute` or `second`, or the same with `s`.
pub fn is_unit(word: &[u8]) -> bool
    ensures { result ≡ levels.is_unit word.now }
{
    is_either(word, b"year", b"years")
        || is_either(word, b"month", b"months")
        || is_either(word, b"week", b"weeks")
        || is_either(word, b"day", b"days")
        || is_either(word, b"hour", b"hours")
        || is_either(word, b"minute", b"minutes")
        || is_either(word, b"second", b"seconds")
}

fn has_only_digits(text: &[u8]) -> bool
    ensures { result ≡ list_all is_ascii_digit text.now }
{
    text.iter().all(|byte| byte.is_ascii_digit())
}

/// Whether it is digits alone, at least one.
pub(crate) fn are_digits(text: &[u8]) -> bool
    ensures { result ≡ levels.are_digits text.now }
{
    begins_digits(text) && has_only_digits(text)
}

/// The one function that takes a word before `from`.
pub(crate) fn takes_word(function: &[u8]) -> bool
    ensures { result ≡ levels.takes_word function.now }
{
    is_same_word(function, b"extract")
}

/// The functions that take `from` after their first argument, and `for` after their second.
pub(crate) fn takes_from(function: &[u8]) -> bool
    ensures { result ≡ levels.takes_from function.now }
{
    is_same_word(function, b"substring") || is_same_word(function, b"substr")
}

/// The function that takes `in` after its first argument.
pub(crate) fn takes_in(function: &[u8]) -> bool
    ensures { result ≡ levels.takes_in function.now }
{
    is_same_word(function, b"position")
}

/// The function that takes a side, and `from` after what it trims by.
pub(crate) fn takes_side(function: &[u8]) -> bool
    ensures { result ≡ levels.takes_side function.now }
{
    is_same_word(function, b"trim")
}

/// The least level of a first argument.
pub(crate) fn first_level(function: &[u8]) -> u8
    ensures { result ≡ levels.first_level function.now }
{
    if takes_in(function) { CONCAT } else { OR }
}

pub(crate) fn is_for(word: &[u8]) -> bool
    ensures { result ≡ levels.is_for word.now }
{
    is_same_word(word, b"for")
}
