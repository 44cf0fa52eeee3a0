//! What messages have of errors, of fields and of texts.

use rowfn_csv::other_dates::{DateReading, date_form};
use rowfn_csv::other_numbers::{NumberReading, number_form};
use std::fmt::{self, Write};
use vortex_columns::VortexError;
use vortex_standard::ErrorText;

/// Writes an error's number and its name, and what the fault of a function of SQL is.
pub(crate) fn write_error<W: fmt::Write>(
    f: &mut fmt::Formatter<W>,
    error: &VortexError,
) -> fmt::Result {
    let (number, name) = (error.number(), error.name());
    write!(f, "E{number} {name}")?;
    match ErrorText::new(error).text() {
        Some(text) => write!(f, ": {text}"),
        None => Ok(()),
    }
}

/// How the fault of a text ends that is read by a format.
const BY_FORMAT: &str = "date format";

/// What a text is not, if the fault is that of a cast of a text or of one that is read by a format:
/// `is no date`.
pub(crate) fn cast_reason(error: &VortexError) -> Option<&'static str> {
    let fault = ErrorText::new(error).text()?.strip_prefix("text that ")?;
    match fault.split_once(" in cast") {
        Some((reason, _)) => Some(reason),
        None if fault.ends_with(BY_FORMAT) => Some(fault),
        None => None,
    }
}

/// Writes what reads a text that is no value of a cast, if it is a date or a number in another form.
fn write_reading<W: fmt::Write>(
    f: &mut fmt::Formatter<W>,
    reason: &str,
    text: &str,
) -> fmt::Result {
    let written = "s";
    if reason == "is no date" || reason == "is no timestamp" {
        return match date_form(text) {
            Some(form) => {
                let reading = DateReading {
                    written,
                    text,
                    form,
                };
                write!(f, "{reading} reads it, ")
            }
            None => Ok(()),
        };
    }
    match number_form(text) {
        Some(form) if !reason.ends_with(BY_FORMAT) => {
            let reading = NumberReading { written, form };
            write!(f, "{reading} reads it, ")
        }
        _ => Ok(()),
    }
}

/// Writes the beginning of a text that a cast cannot read, and what it is not.
pub(crate) fn write_cast<W: fmt::Write>(
    f: &mut fmt::Formatter<W>,
    error: &VortexError,
    text: &str,
) -> fmt::Result {
    let (number, name) = (error.number(), error.name());
    let (reported, is_cut) = message_text(text);
    let cut = if is_cut { ".." } else { "" };
    let reason = cast_reason(error).unwrap_or("is not read");
    let tried = if reason.ends_with(BY_FORMAT) {
        "try_to_date and try_to_timestamp are"
    } else {
        "try_cast is"
    };
    write!(f, "E{number} {name}: {reported:?}{cut} {reason} (")?;
    write_reading(f, reason, text)?;
    write!(f, "{tried} null there)")
}

/// Writes bytes that are no UTF-8, those beyond plain ASCII by their numbers.
pub(crate) fn write_bytes<W: fmt::Write>(f: &mut fmt::Formatter<W>, bytes: &[u8]) -> fmt::Result {
    for byte in bytes {
        if byte.is_ascii_graphic() && *byte != b'"' && *byte != b'\\' || *byte == b' ' {
            f.write_char(char::from(*byte))?;
        } else {
            write!(f, "\\x{byte:02x}")?;
        }
    }
    Ok(())
}

/// How much of a field is told: so many characters, or bytes where it is no text.
const TOLD: usize = 80;

/// What is told of a text: its beginning, and whether more stands behind that.
pub(crate) fn message_text(text: &str) -> (&str, bool) {
    match text.char_indices().nth(TOLD) {
        None => (text, false),
        Some((end, _)) => (text.get(..end).unwrap_or(""), true),
    }
}

/// The same of bytes that are no text.
pub(crate) fn message_bytes(bytes: &[u8]) -> (&[u8], bool) {
    match bytes.get(..TOLD) {
        None => (bytes, false),
        Some(told) => (told, true),
    }
}
