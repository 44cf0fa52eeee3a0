//! What an index says of its file as a whole.
ghost use Rattle.rowfn_index.specs.Heads.{IsIndexFormat};

use rowfn_csv::Format;
use std::alloc::{AllocError, Global};
use std::str;

/// The file of an index.
#[derive(Clone, Copy, Debug, PartialEq, Eq)]
pub struct FileFacts {
    /// How many bytes it has.
    pub bytes: u64,
    /// How many of them are before the first chunk: those of the header, where there is one.
    pub header_bytes: u64,
    pub header_digest: u64,
}

/// A column of an index.
#[derive(Drop)]
pub struct IndexedColumn {
    pub name: String,
    /// Its place in a row, counted from 0.
    pub place: usize,
    /// The text of its type.
    pub dtype: String,
}

/// What an index says of its file as a whole.
#[derive(Drop)]
pub struct IndexHead {
    /// With which options the rows were read.
    pub words: Vec<String>,
    pub file: FileFacts,
    pub columns: Vec<IndexedColumn>,
}

/// How the fields of an index are written.
pub(crate) fn index_format() -> Format<'static>
    ensures { IsIndexFormat result }
{
    Format {
        delimiter: b',',
        output_delimiter: b',',
        null: b"",
        more_nulls: &[],
        quoted_nulls: false,
        comment: None,
        fits: false,
        blank_rows: false,
        any_truths: false,
    }
}

/// The word of an option that has a byte.
fn byte_word(alloc: Global, name: &str, byte: u8) -> Result<String, AllocError> {
    let byte = char::from(byte);
    format!(in alloc; "{name} {byte:?}")
}

/// The word of a text for null, in quotes too or not.
fn null_word(alloc: Global, null: &[u8], is_quoted: bool) -> Result<String, AllocError> {
    let null = str::from_utf8(null).unwrap_or("");
    if is_quoted {
        return format!(in alloc; "--null-quoted --null {null:?}");
    }
    format!(in alloc; "--null {null:?}")
}

/// The words of the options by which rows are read, each of them said.
pub fn reading_words(
    alloc: Global,
    format: &Format<'_>,
    header: bool,
    max_field: usize,
) -> Result<Vec<String>, AllocError> {
    let mut words = Vec::new(alloc);
    words.push(byte_word(alloc, "--delimiter", format.delimiter)?)?;
    words.push(match format.comment {
        Some(byte) => byte_word(alloc, "--comment", byte)?,
        None => String::from_str(alloc, "no --comment")?,
    })?;
    let header = if header { "--header" } else { "--no-header" };
    words.push(String::from_str(alloc, header)?)?;
    let blank = if format.blank_rows { "null" } else { "skip" };
    words.push(format!(in alloc; "--blank-lines {blank}")?)?;
    let truths = if format.any_truths { "any" } else { "plain" };
    words.push(format!(in alloc; "--bool {truths}")?)?;
    words.push(format!(in alloc; "--max-field {max_field}")?)?;
    words.push(null_word(alloc, format.null, format.quoted_nulls)?)?;
    for null in format.more_nulls {
        words.push(null_word(alloc, null, format.quoted_nulls)?)?;
    }
    Ok(words)
}
