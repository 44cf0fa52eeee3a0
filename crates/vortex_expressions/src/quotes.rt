//! Texts and names without their quotes.
ghost use Rattle.std.specs.Prelude.{◌≡◌, IfOk, string_bytes};
ghost use Rattle.vortex_expressions.specs.Calls.{unquoted, text_of, between_quotes};
ghost use Rattle.vortex_expressions.specs.Answering.{Gives};

use crate::refusal::{BindStop, Refusal};
use std::alloc::{AllocError, Global};
use std::str;

/// The text between quotes, doubled quotes once. Fails only where memory runs out.
pub fn unquoted(alloc: Global, quote: u8, written: &[u8]) -> Result<Vec<u8>, AllocError>
    ensures { IfOk result (λ text. text.items ≡ unquoted quote written.now) }
{
    let mut text = Vec::new(alloc);
    let mut is_doubled = false;
    for byte in written {
        if is_doubled {
            is_doubled = false;
        } else {
            text.push(*byte)?;
            is_doubled = *byte == quote;
        }
    }
    Ok(text)
}

/// The bytes as a text.
pub(crate) fn text_of(alloc: Global, bytes: &[u8]) -> Result<String, BindStop>
    ensures { Gives string_bytes result (text_of bytes.now) }
{
    match str::from_utf8(bytes) {
        Ok(text) => Ok(String::from_str(alloc, text)?),
        Err(_) => Err(BindStop::Refused(Refusal::NotUtf8)),
    }
}

/// The text in quotes.
pub(crate) fn between_quotes(alloc: Global, quote: u8, written: &[u8]) -> Result<String, BindStop>
    ensures { Gives string_bytes result (between_quotes quote written.now) }
{
    let text = unquoted(alloc, quote, written)?;
    text_of(alloc, &text)
}
