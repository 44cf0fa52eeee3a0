//! What a word says, and how wrong words are reported.

use clap::error::ErrorKind;
use clap::{Command, Error};

/// Whether a word is the second of two; it may be no other.
pub(crate) fn is_second(word: &str, first: &str, second: &str) -> Option<bool> {
    if word == second {
        Some(true)
    } else if word == first {
        Some(false)
    } else {
        None
    }
}

/// The error for wrong words.
pub(crate) fn refusal(
    command: &mut Command<'_>,
    kind: ErrorKind,
    message: &str,
) -> Result<Error, Error> {
    Ok(command.error(kind, message)?)
}
