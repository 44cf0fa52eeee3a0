//! The bytes that separate fields and begin comments, and the texts that are null between them.
ghost use Rattle.std.specs.Prelude.{◌≡◌, IfSome, IsTrue, Some};
ghost use Rattle.std.specs.List.{list_any};
ghost use Rattle.rowfn_options.specs.Fields.{is_quote_or_end, ends_field, has_mark};
ghost use Rattle.rowfn_options.specs.Fields.{begins_with, MayPart, MayComment, MayBeNull};

/// The bytes that have a meaning of their own in a line.
#[derive(Clone, Copy)]
pub(crate) struct Bytes {
    /// Between two fields of the input.
    pub(crate) delimiter: u8,
    /// Between two fields of the output.
    pub(crate) output_delimiter: u8,
    /// At the start of a comment.
    pub(crate) comment: Option<u8>,
}

/// Whether a byte is a quote, or ends a line.
fn is_quote_or_end(byte: u8) -> bool
    ensures { result ≡ is_quote_or_end byte }
{
    byte == b'"' || byte == b'\r' || byte == b'\n'
}

/// The byte that a word says: a byte of ASCII that is neither a quote nor the end of a line, or a
/// tab as `\t`.
pub(crate) fn read_delimiter(word: &str) -> Option<u8>
    ensures { IfSome result MayPart }
{
    if word == "\\t" {
        return Some(b'\t');
    }
    match word.as_bytes() {
        [byte] if byte.is_ascii() && !is_quote_or_end(*byte) => Some(*byte),
        _ => None,
    }
}

/// A byte that is no delimiter, so that it may begin comments: fields that begin with it are
/// written in quotes.
pub(crate) fn read_comment(word: &str, delimiter: u8, output_delimiter: u8) -> Option<u8>
    ensures { IfSome result (MayComment delimiter output_delimiter) }
{
    let byte = read_delimiter(word)?;
    if byte == delimiter || byte == output_delimiter {
        None
    } else {
        Some(byte)
    }
}

/// Whether a byte ends a field that stands in no quotes, or asks for quotes.
fn ends_field(byte: u8, delimiter: u8) -> bool
    ensures { result ≡ ends_field delimiter byte }
{
    byte == delimiter || is_quote_or_end(byte)
}

/// Whether such a byte stands in a text.
fn has_end(text: &str, delimiter: u8) -> bool
    ensures { result ≡ list_any (ends_field delimiter) text.now }
{
    text.as_bytes()
        .iter()
        .any(|byte| ends_field(*byte, delimiter))
}

/// Whether a text begins with a byte order mark.
fn has_mark(text: &str) -> bool
    ensures { result ≡ has_mark text.now }
{
    text.as_bytes().starts_with(b"\xef\xbb\xbf".as_slice())
}

/// Whether a text begins with a byte, if there is one.
fn begins_with(text: &[u8], byte: Option<u8>) -> bool
    ensures { result ≡ begins_with byte text.now }
{
    match (text, byte) {
        ([first, ..], Some(byte)) => *first == byte,
        _ => false,
    }
}

/// Whether a text can be null: in no quotes it is read back as one field, also where it is the
/// first of the input, whose byte order mark is skipped, and of a line, which may be a comment.
pub(crate) fn is_bare(text: &str, bytes: Bytes) -> bool
    ensures { IsTrue result
        → MayBeNull bytes.delimiter bytes.output_delimiter bytes.comment text.now }
{
    !has_mark(text)
        && !has_end(text, bytes.delimiter)
        && !has_end(text, bytes.output_delimiter)
        && !begins_with(text.as_bytes(), bytes.comment)
}
