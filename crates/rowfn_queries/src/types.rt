//! The types of declared columns: `i64`, `utf8?`, `text`, `date`, `decimal(12,2)`, `decimal?(12,2)`.
ghost use Rattle.std.specs.Prelude.{◌≡◌, ◌≤◌, map, length, IfOk, OnSome, string_bytes};
ghost use Rattle.std.specs.Option.{option_map};
ghost use Rattle.vortex_types.specs.TypeOf.{type_of, allows_null};
ghost use Rattle.vortex_syntax.specs.Tokens.{token_in};
ghost use Rattle.rowfn_queries.specs.ColumnTypes.{type_in};
ghost use Rattle.rowfn_queries.specs.Outcomes.{Gives};
ghost use Rattle.rowfn_queries.specs.DeclaredTypes.{is_comma, is_open, is_close, token_text};
ghost use Rattle.rowfn_queries.specs.DeclaredTypes.{type_by, declared_type, type_of_name};
ghost use Rattle.rowfn_queries.specs.DeclaredTypes.{is_decimal_word, count_of, count_in, kind_with};
ghost use Rattle.rowfn_queries.specs.DeclaredTypes.{decimal_of, decimal_at, type_at_word};
ghost use Rattle.rowfn_queries.specs.DeclaredTypes.{sized_kind, sized_or_word, type_at};
ghost use Rattle.vortex_syntax.specs.SizeDigits.{sizes_of};
ghost use Rattle.vortex_logical.specs.Kinds.{decimal_kind, digit_of, teen_of};

use crate::column_type::ColumnType;
use crate::scope::ScopeReason;
use std::alloc::Global;
use std::str;
use vortex_columns::Nullability;
use vortex_expressions::{named_type, word_kind};
use vortex_logical::digits::DecimalDigits;
use vortex_logical::kind::Kind;
use vortex_syntax::{Sign, Token, sizes_of};

/// A type as it is written, and how many tokens of it follow its first.
#[derive(Drop)]
pub(crate) struct WrittenType {
    pub(crate) column: ColumnType,
    pub(crate) further: usize,
}

pub(crate) fn is_comma(token: Token<'_>) -> bool
    ensures { result ≡ is_comma (token_in token.entry) }
{
    matches!(token, Token::Sign(Sign::Comma))
}

fn is_open(token: Token<'_>) -> bool
    ensures { result ≡ is_open (token_in token.entry) }
{
    matches!(token, Token::Sign(Sign::Open))
}

fn is_close(token: Token<'_>) -> bool
    ensures { result ≡ is_close (token_in token.entry) }
{
    matches!(token, Token::Sign(Sign::Close))
}

/// The bytes as a text.
pub(crate) fn token_text(alloc: Global, bytes: &[u8]) -> Result<String, ScopeReason>
    ensures { Gives string_bytes result (token_text bytes.now) }
{
    match str::from_utf8(bytes) {
        Ok(text) => Ok(String::from_str(alloc, text)?),
        Err(_) => Err(ScopeReason::NotUtf8),
    }
}

/// The type of that name in expressions, where types also have SQL's names; else the kind.
fn declared_type(name: &str, nullability: Nullability) -> Option<ColumnType>
    ensures { option_map (λ t. type_in t) result
        ≡ declared_type (allows_null nullability) name.now }
{
    match named_type(name, nullability) {
        Some(dtype) => Some(ColumnType::plain(dtype)),
        None => ColumnType::of_kind(word_kind(name)?, nullability),
    }
}

fn type_of_name(
    alloc: Global,
    name: &[u8],
    nullability: Nullability,
) -> Result<WrittenType, ScopeReason>
    ensures given { Gives (λ t. type_by t) result
        (type_of_name (allows_null nullability) name.now) }
    ensures further { IfOk result (λ t. t.further ≡ 0) }
{
    let name = token_text(alloc, name)?;
    match declared_type(name.as_str(), nullability) {
        Some(column) => Ok(WrittenType { column, further: 0 }),
        None => Err(ScopeReason::UnknownType),
    }
}

fn is_decimal_word(word: &[u8]) -> bool
    ensures { result ≡ is_decimal_word word.now }
{
    word == b"decimal".as_slice() || word == b"numeric".as_slice()
}

fn digit_of(byte: u8) -> Option<u32>
    ensures { result ≡ digit_of byte }
{
    if byte.is_ascii_digit() {
        Some((byte - b'0') as u32)
    } else {
        None
    }
}

/// A number from 10 to 19.
fn teen_of(ten: u8, byte: u8) -> Option<u32>
    ensures { result ≡ teen_of ten byte }
{
    if ten == b'1' {
        Some(10 + digit_of(byte)?)
    } else {
        None
    }
}

/// A number from 0 to 19.
fn count_of(digits: &[u8]) -> Option<u32>
    ensures { result ≡ count_of digits.now }
{
    match digits {
        [digit] => digit_of(*digit),
        [ten, digit] => teen_of(*ten, *digit),
        _ => None,
    }
}

fn count_in(token: Token<'_>) -> Option<u32>
    ensures { result ≡ count_in (token_in token.entry) }
{
    match token {
        Token::Number(digits) => count_of(digits),
        _ => None,
    }
}

fn kind_with(precision: Option<u32>, scale: Option<u32>) -> Option<Kind>
    ensures { result ≡ kind_with precision scale }
{
    match (precision, scale) {
        (Some(precision), Some(scale)) => {
            Some(Kind::Decimal(DecimalDigits::try_new(precision, scale)?))
        }
        _ => None,
    }
}

/// The decimal of the digits `12, 2)`.
fn decimal_of(tokens: &[Token<'_>]) -> Option<Kind>
    ensures kind { result ≡ decimal_of (map token_in tokens.now) }
    ensures tokens { OnSome result (4 ≤ length tokens.now) }
{
    match tokens {
        [precision, comma, scale, close, ..] => {
            if is_comma(*comma) && is_close(*close) {
                kind_with(count_in(*precision), count_in(*scale))
            } else {
                None
            }
        }
        _ => None,
    }
}

/// The decimal whose digits stand there, of so many further tokens.
fn decimal_at(
    nullability: Nullability,
    further: usize,
    tokens: &[Token<'_>],
) -> Result<WrittenType, ScopeReason>
    ensures given { Gives (λ t. type_by t) result
        (decimal_at (allows_null nullability) further (map token_in tokens.now)) }
    ensures further { IfOk result (λ t. (t.further ≡ further) × (4 ≤ length tokens.now)) }
{
    let Some(kind) = decimal_of(tokens) else {
        return Err(ScopeReason::UnknownType);
    };
    match ColumnType::of_kind(kind, nullability) {
        Some(column) => Ok(WrittenType { column, further }),
        None => Err(ScopeReason::UnknownType),
    }
}

/// The type that begins with a word; behind that of a decimal its digits may stand in brackets.
fn type_at_word(
    alloc: Global,
    word: &[u8],
    nullability: Nullability,
    behind: &[Token<'_>],
) -> Result<WrittenType, ScopeReason>
    ensures given { Gives (λ t. type_by t) result
        (type_at_word (allows_null nullability) word.now (map token_in behind.now)) }
    ensures further { IfOk result (λ t. (t.further ≤ 5) × (t.further ≤ length behind.now)) }
{
    let Some(open) = behind.first() else {
        return type_of_name(alloc, word, nullability);
    };
    if is_decimal_word(word) && is_open(*open) {
        decimal_at(nullability, 5, &behind[1..])
    } else {
        type_of_name(alloc, word, nullability)
    }
}

/// The decimal of the digits in its name.
fn sized_kind(precision: &[u8], scale: &[u8]) -> Option<Kind>
    ensures { result ≡ sized_kind (precision.now, scale.now) }
{
    kind_with(count_of(precision), count_of(scale))
}

/// The type of a name without a question mark: with sizes it is a decimal's.
fn sized_or_word(
    alloc: Global,
    word: &[u8],
    behind: &[Token<'_>],
) -> Result<WrittenType, ScopeReason>
    ensures given { Gives (λ t. type_by t) result
        (sized_or_word word.now (map token_in behind.now) (sizes_of word.now)) }
    ensures further { IfOk result (λ t. (t.further ≤ 5) × (t.further ≤ length behind.now)) }
{
    let Some((precision, scale)) = sizes_of(word) else {
        return type_at_word(alloc, word, Nullability::NonNullable, behind);
    };
    let Some(kind) = sized_kind(precision, scale) else {
        return Err(ScopeReason::UnknownType);
    };
    match ColumnType::of_kind(kind, Nullability::NonNullable) {
        Some(column) => Ok(WrittenType { column, further: 0 }),
        None => Err(ScopeReason::UnknownType),
    }
}

/// The type that begins with a token. A question mark right behind its word says that it has null,
/// as `i64?` or `decimal?(12,2)`.
pub(crate) fn type_at(
    alloc: Global,
    token: Token<'_>,
    behind: &[Token<'_>],
) -> Result<WrittenType, ScopeReason>
    ensures given { Gives (λ t. type_by t) result
        (type_at (token_in token.entry) (map token_in behind.now)) }
    ensures further { IfOk result (λ t. (t.further ≤ 5) × (t.further ≤ length behind.now)) }
{
    match token {
        Token::Name(word) => sized_or_word(alloc, word, behind),
        Token::Nullable(word) => type_at_word(alloc, word, Nullability::Nullable, behind),
        Token::Function(_) => Err(ScopeReason::UnknownType),
        _ => Err(ScopeReason::NoType),
    }
}
