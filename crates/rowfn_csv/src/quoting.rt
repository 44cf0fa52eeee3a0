//! Fields in quotes.
ghost use Rattle.std.specs.Prelude.{◌≡◌, ◌++◌, ◌≤◌, length, take, drop, OnOk};
ghost use Rattle.rowfn_csv.specs.Fields.{is_special, is_mistaken, needs_quotes, doubled, quoted};
ghost use Rattle.rowfn_csv.specs.Fields.{text_field};
ghost use Rattle.rowfn_csv.specs.Formats.{is_comment_line};
ghost use Rattle.std.specs.List.{list_any, flat_map};

use crate::format::Format;
use std::alloc::AllocError;

/// Whether a byte of a field asks for quotes around the field.
fn is_special(byte: u8, delimiter: u8) -> bool
    ensures { result ≡ is_special delimiter byte }
{
    byte == b'"' || byte == delimiter || byte == b'\n' || byte == b'\r'
}

/// Whether a field holds a byte that asks for quotes.
fn holds_special(field: &[u8], delimiter: u8) -> bool
    ensures { result ≡ list_any (is_special delimiter) field.now }
{
    field.iter().any(|byte| is_special(*byte, delimiter))
}

/// Whether other programs take a field in no quotes for what it is not: PostgreSQL's COPY ends at
/// `\.`, and a byte order mark at the start of an input is passed over.
fn is_mistaken(field: &[u8]) -> bool
    ensures { result ≡ is_mistaken field.now }
{
    field == b"\\.".as_slice() || field.starts_with(b"\xef\xbb\xbf".as_slice())
}

/// Whether a field at the start of a line makes the line a comment.
fn is_comment_line(field: &[u8], format: &Format<'_>) -> bool
    ensures { result ≡ is_comment_line format.now.comment field.now }
{
    match field {
        [first, ..] => format.begins_comment(*first),
        [] => false,
    }
}

/// Whether a text is written in quotes: an empty one, one that holds a quote, the output's
/// delimiter or the end of a line, and one that without them is null, begins a comment or is
/// mistaken.
fn needs_quotes(field: &[u8], format: &Format<'_>) -> bool
    ensures { result ≡ needs_quotes format.now field.now }
{
    field.is_empty()
        || holds_special(field, format.output_delimiter)
        || format.is_null_text(field)
        || is_comment_line(field, format)
        || is_mistaken(field)
}

/// Adds a byte that stands between quotes.
fn push_doubled(bytes: &mut Vec<u8>, byte: u8) -> Result<(), AllocError>
    ensures { OnOk result (bytes.new.items ≡ bytes.old.items ++ doubled byte) }
{
    if byte == b'"' {
        bytes.push(b'"')?;
    }
    bytes.push(byte)?;
    Ok(())
}

/// Adds the bytes that stand between quotes.
fn push_inner(bytes: &mut Vec<u8>, field: &[u8]) -> Result<(), AllocError>
    ensures { OnOk result (bytes.new.items ≡ bytes.old.items ++ flat_map doubled field.now) }
{
    for byte in field {
        push_doubled(bytes, *byte)?;
    }
    Ok(())
}

/// Adds a field in quotes, in which each quote stands twice. Refused only for want of memory.
pub fn push_quoted(bytes: &mut Vec<u8>, field: &[u8]) -> Result<(), AllocError>
    ensures { OnOk result (bytes.new.items ≡ bytes.old.items ++ quoted field.now) }
{
    bytes.push(b'"')?;
    push_inner(bytes, field)?;
    bytes.push(b'"')?;
    Ok(())
}

/// Puts a text that was added behind a place into quotes, where it needs them; `spare` is a buffer
/// for that. Refused only for want of memory.
pub fn quote_from(
    bytes: &mut Vec<u8>,
    start: usize,
    format: &Format<'_>,
    spare: &mut Vec<u8>,
) -> Result<(), AllocError>
    requires { start ≤ length bytes.old.items }
    ensures { OnOk result (bytes.new.items
        ≡ take start bytes.old.items ++ text_field format.now (drop start bytes.old.items)) }
{
    let field = &bytes.as_slice()[start..];
    if !needs_quotes(field, format) {
        return Ok(());
    }
    spare.clear();
    spare.extend_from_slice(field)?;
    bytes.truncate(start);
    push_quoted(bytes, spare)
}

/// A text as a field: as it stands, or in quotes, where it needs them. `in_quotes` is the text in
/// quotes.
pub fn field_of<'t>(text: &'t [u8], in_quotes: &'t [u8], format: &Format<'_>) -> &'t [u8]
    requires { in_quotes.now ≡ quoted text.now }
    ensures { result.now ≡ text_field format.now text.now }
{
    if needs_quotes(text, format) {
        in_quotes
    } else {
        text
    }
}
