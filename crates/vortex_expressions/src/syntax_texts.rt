//! Reports of syntax errors, in words.
use crate::hints::hint_at;
use crate::words::{found_at, nearest_keyword};
use std::alloc::Global;
use vortex_columns::{VortexError, VortexResult};
use vortex_syntax::{DEPTH, Expected, SyntaxError};

/// The byte at an index of the text, and the one before it.
fn bytes_at(text: &str, byte: usize) -> (Option<u8>, Option<u8>) {
    let bytes = text.as_bytes();
    let before = match byte.checked_sub(1) {
        Some(before) => bytes.get(before).copied(),
        None => None,
    };
    (before, bytes.get(byte).copied())
}

/// The report where no token begins.
fn token_text(alloc: Global, text: &str, byte: usize) -> VortexResult<String> {
    let found = found_at(text, byte);
    let hint = hint_at(text, byte);
    let told = match bytes_at(text, byte) {
        (_, Some(b'\'' | b'"')) => format!(in alloc; "a quote is not closed")?,
        (_, Some(b'.')) => format!(in alloc;
            "found {found}; write a name with dots in double quotes"
        )?,
        (_, Some(b'0'..=b'9')) => format!(in alloc;
            "{found} is no number; write a name that begins with a digit in double quotes"
        )?,
        _ if !hint.is_empty() => format!(in alloc; "found {found}; {hint}")?,
        (_, Some(b'|')) => format!(in alloc; "found {found}; is or meant?")?,
        _ => format!(in alloc; "no word and no sign begins with {found}")?,
    };
    Ok(told)
}

/// Whether what was expected is a word between operands.
fn is_operator(expected: Expected) -> bool {
    matches!(
        expected,
        Expected::OperatorOrEnd
            | Expected::OperatorOrName
            | Expected::OperatorOrClose
            | Expected::OperatorOrComma
            | Expected::OperatorOrFrom
            | Expected::OperatorOrFor
            | Expected::OperatorOrIn
            | Expected::OperatorOrFromOnly
            | Expected::OperatorOrAs
            | Expected::OperatorOrAnd
            | Expected::PredicateWord
    )
}

/// The report where no expression continues.
fn unexpected_text(
    alloc: Global,
    text: &str,
    byte: usize,
    expected: Expected,
) -> VortexResult<String> {
    let found = found_at(text, byte);
    let hint = hint_at(text, byte);
    if !hint.is_empty() {
        return Ok(format!(in alloc; "found {found}, expected {expected}; {hint}")?);
    }
    if is_operator(expected) {
        if let Some(word) = nearest_keyword(alloc, text, byte)? {
            return Ok(format!(in alloc; "found {found}, expected {expected}; is {word} meant?")?);
        }
    }
    Ok(format!(in alloc; "found {found}, expected {expected}")?)
}

/// The report for a text that is written as no expression.
pub(crate) fn syntax_text(alloc: Global, text: &str, error: SyntaxError) -> VortexResult<String> {
    match error {
        SyntaxError::NoToken(byte) => token_text(alloc, text, byte),
        SyntaxError::Unexpected(byte, expected) => unexpected_text(alloc, text, byte, expected),
        SyntaxError::TooDeep(_) => Ok(format!(in alloc; "brackets nest deeper than {DEPTH}")?),
        SyntaxError::OutOfMemory => Err(VortexError::OutOfMemory),
    }
}
