//! The query that the options ask of rows.

use crate::failure::ProgramError;
use rowfn_csv::Format;
use rowfn_options::{Options, Source};
use rowfn_queries::{Again, Query, QueryError, Words, read_query};
use std::alloc::Global;
use std::fs;
use std::io::{ErrorKind, Read};
use std::rt::Files;

/// The text of the file of an expression.
fn file_text(rt: &(impl Files + AllocGlobal), name: &str) -> Result<String, ProgramError> {
    match fs::read_to_string(rt, name) {
        Ok(text) => Ok(text),
        Err(error) if error.kind() == ErrorKind::InvalidData => {
            Err(ProgramError::NoText(String::from_str(rt.alloc(), name)?))
        }
        Err(error) => Err(ProgramError::Input(String::from_str(rt.alloc(), name)?, error)),
    }
}

/// How rows are read and written, with that text for null, and more texts that are read as null.
pub(crate) fn format_with<'a>(
    options: &Options<'_>,
    null: &'a [u8],
    more_nulls: &'a [&'a [u8]],
) -> Format<'a> {
    Format {
        delimiter: options.delimiter,
        output_delimiter: options.output_delimiter,
        null,
        more_nulls,
        quoted_nulls: options.quoted_nulls,
        comment: options.comment,
        fits: options.fits,
        blank_rows: options.blank_rows,
        any_truths: options.any_truths,
    }
}

/// What texts ask.
fn read_texts<R: Read>(
    rt: &(impl Files + AllocGlobal),
    options: &Options<'_>,
    answers: Option<&str>,
    reader: &mut Again<R>,
) -> Result<Query, QueryError> {
    let words = Words {
        columns: options.columns,
        answers,
        condition: options.condition,
        header: options.header,
        infers: options.infers,
        skips: options.skips,
    };
    let format = format_with(options, options.null.as_bytes(), &options.more_nulls);
    read_query(
        rt.alloc(),
        words,
        format,
        options.max_field as usize,
        reader,
    )
}

/// Whether a text is like the path of a file: it has a point or a slash, and no blank.
pub(crate) fn is_like_path(text: &str) -> bool {
    text.bytes().any(|byte| byte == b'.' || byte == b'/') && !text.bytes().any(|byte| byte == b' ')
}

/// What a text asks. Where it is refused next to a condition and names a file, that is probably the
/// file of the rows.
fn read_text<R: Read>(
    rt: &(impl Files + AllocGlobal),
    options: &Options<'_>,
    text: &str,
    reader: &mut Again<R>,
) -> Result<Query, ProgramError> {
    match read_texts(rt, options, Some(text), reader) {
        Ok(query) => Ok(query),
        Err(error) if options.condition.is_some() && fs::open(rt, text).is_ok() => {
            Err(ProgramError::QueryOfFile(error, String::from_str(rt.alloc(), text)?))
        }
        Err(error) if options.condition.is_some() && is_like_path(text) => {
            Err(ProgramError::QueryOfNoFile(error, String::from_str(rt.alloc(), text)?))
        }
        Err(error) => Err(ProgramError::Query(error)),
    }
}

/// What is asked of the rows of a reader.
pub(crate) fn query_of<R: Read>(
    rt: &(impl Files + AllocGlobal),
    options: &Options<'_>,
    reader: &mut Again<R>,
) -> Result<Query, ProgramError> {
    match options.source {
        Source::Nowhere => Ok(read_texts(rt, options, None, reader)?),
        Source::Text(text) => read_text(rt, options, text, reader),
        Source::File(name) => {
            let text = file_text(rt, name)?;
            Ok(read_texts(rt, options, Some(text.as_str()), reader)?)
        }
    }
}
