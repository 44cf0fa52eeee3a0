//! Numbers parsed from digits.
ghost use Rattle.std.specs.Prelude.{◌≡◌, pos, ◌∷◌, Some, is_some, option_map, MatchOption, ⊤, ◌<◌, ◌≤◌, length};
ghost use Rattle.std.specs.List.{list_all};
ghost use Rattle.std.specs.Char.{is_ascii_digit};
ghost use Rattle.vortex_cells.specs.CellValues.{digits_of, negative, integer_of};
ghost use Rattle.vortex_cells.specs.Cells.{ReadsNumber};

use std::str;

fn all_digits(word: &str) -> bool
    ensures { result ≡ list_all is_ascii_digit word.now }
{
    word.as_bytes().iter().all(|byte| byte.is_ascii_digit())
}

/// Whether there are only digits, at least one.
pub fn are_digits(word: &str) -> bool
    ensures { result ≡ is_some (digits_of word.now) }
{
    !word.is_empty() && all_digits(word)
}

/// The number of digits, few enough for 64 bits; none if there are other bytes.
#[inline(always)]
fn few_digits(digits: &[u8]) -> Option<u64>
    requires some { 0 < length digits.now }
    requires few { length digits.now ≤ 19 }
    ensures { MatchOption result ⊤ (λ n. digits_of digits.now ≡ Some n) }
{
    let mut number = 0u64;
    for byte in digits {
        if !byte.is_ascii_digit() {
            return None;
        }
        number = number * 10 + (*byte - b'0') as u64;
    }
    Some(number)
}

/// The number of digits; none if there are other bytes, or 64 bits do not hold it.
#[inline(never)]
fn many_digits(digits: &[u8]) -> Option<u64>
    requires { 0 < length digits.now }
    ensures { MatchOption result ⊤ (λ n. digits_of digits.now ≡ Some n) }
{
    let mut number = 0u64;
    for byte in digits {
        if !byte.is_ascii_digit() {
            return None;
        }
        number = number.checked_mul(10)?.checked_add((*byte - b'0') as u64)?;
    }
    Some(number)
}

/// The number of digits; none if there are other bytes, or 64 bits do not hold it.
#[inline(always)]
fn short_number(digits: &[u8]) -> Option<u64>
    ensures { MatchOption result ⊤ (λ n. digits_of digits.now ≡ Some n) }
{
    match digits.len() {
        0 => None,
        1..=19 => few_digits(digits),
        _ => many_digits(digits),
    }
}

/// The same as a signed number.
#[inline(always)]
fn short_plain(digits: &[u8]) -> Option<i128>
    ensures { MatchOption result ⊤ (λ z. option_map pos (digits_of digits.now) ≡ Some z) }
{
    let number = short_number(digits)?;
    Some(i128::from(number))
}

/// The same after a minus sign.
#[inline(always)]
fn short_negative(digits: &[u8]) -> Option<i128>
    ensures { MatchOption result ⊤ (λ z. option_map negative (digits_of digits.now) ≡ Some z) }
{
    let number = short_number(digits)?;
    Some(-i128::from(number))
}

/// The number of digits; none if there are other bytes, and for a number outside every integer
/// type. Numbers of 64 bits, which nearly all are, are read in machine words.
fn read_plain(word: &str) -> Option<i128>
    ensures { ReadsNumber (option_map pos (digits_of word.now)) result }
{
    if let Some(number) = short_plain(word.as_bytes()) {
        return Some(number);
    }
    if !are_digits(word) {
        return None;
    }
    word.parse::<i128>().ok()
}

/// The same after a minus sign, with which the word begins.
fn read_negative(word: &str, digits: &str) -> Option<i128>
    requires { word.now ≡ 45 ∷ digits.now }
    ensures { ReadsNumber (option_map negative (digits_of digits.now)) result }
{
    if let Some(number) = short_negative(digits.as_bytes()) {
        return Some(number);
    }
    if !are_digits(digits) {
        return None;
    }
    word.parse::<i128>().ok()
}

/// The number of a word: digits, optionally after a minus sign; none for other words, and for a
/// number outside every integer type.
pub fn read_integer(word: &str) -> Option<i128>
    ensures { ReadsNumber (integer_of word.now) result }
{
    match word.strip_prefix('-') {
        Some(digits) => read_negative(word, digits),
        None => read_plain(word),
    }
}

/// The number of bytes, if 64 bits and a sign hold it; none for others.
#[inline(always)]
fn short_integer(bytes: &[u8]) -> Option<i128>
    ensures { MatchOption result ⊤ (λ z. integer_of bytes.now ≡ Some z) }
{
    let (first, rest) = bytes.split_first()?;
    if *first == b'-' {
        short_negative(rest)
    } else {
        short_plain(bytes)
    }
}

/// The number of bytes, if it may have more bits.
#[cold]
#[inline(never)]
fn long_integer(bytes: &[u8]) -> Option<i128>
    ensures { ReadsNumber (integer_of bytes.now) result }
{
    match str::from_utf8(bytes) {
        Ok(word) => read_integer(word),
        Err(_) => None,
    }
}

/// The number of bytes, as `read_integer` parses a word.
#[inline(always)]
pub fn read_integer_in(bytes: &[u8]) -> Option<i128>
    ensures { ReadsNumber (integer_of bytes.now) result }
{
    match short_integer(bytes) {
        Some(number) => Some(number),
        None => long_integer(bytes),
    }
}
