//! How fields are written, as the options say it.
ghost use Rattle.std.specs.Prelude.{IfOk, IfSome, All};
ghost use Rattle.rowfn_options.specs.Fields.{MayPart, MayComment, MayBeNull, AreBytes, AreFields};

use crate::bytes::{Bytes, is_bare, read_comment, read_delimiter};
use crate::file_names::usual_delimiter;
use crate::words::{is_second, refusal};
use clap::error::ErrorKind;
use clap::{ArgMatches, Command, Error};
use std::alloc::Global;

/// How fields are written, as the options say it.
#[derive(Drop)]
pub(crate) struct Fields<'a> {
    pub(crate) bytes: Bytes,
    pub(crate) nulls: Nulls<'a>,
    pub(crate) shapes: Shapes,
}

/// The texts for null: the one that is written, and the others that are read as null.
#[derive(Drop)]
pub(crate) struct Nulls<'a> {
    pub(crate) written: &'a str,
    pub(crate) others: Vec<&'a [u8]>,
}

/// Which lines and fields are taken.
#[derive(Clone, Copy)]
pub(crate) struct Shapes {
    pub(crate) fits: bool,
    pub(crate) blank_rows: bool,
    pub(crate) any_truths: bool,
}

/// The byte between two fields of the input: that which is usual in its file where none is given.
fn delimiter_option(matches: &ArgMatches<'_>, command: &mut Command<'_>) -> Result<u8, Error>
    ensures { IfOk result MayPart }
{
    let Some(word) = matches.get_str("delimiter") else {
        return Ok(usual_delimiter(matches));
    };
    match read_delimiter(word) {
        Some(delimiter) => Ok(delimiter),
        None => {
            let message = "--delimiter: expected one byte of ASCII, no quote and no end of a line";
            Err(refusal(command, ErrorKind::InvalidValue, message)?)
        }
    }
}

/// The byte between two fields of the output: that of the input where no other is given.
fn output_delimiter_option(
    matches: &ArgMatches<'_>,
    command: &mut Command<'_>,
    delimiter: u8,
) -> Result<u8, Error>
    requires { MayPart delimiter }
    ensures { IfOk result MayPart }
{
    let Some(word) = matches.get_str("output-delimiter") else {
        return Ok(delimiter);
    };
    if !matches.contains_id("expression") && !matches.contains_id("file") {
        let message = "--output-delimiter: rows without answers are written as they are: \
                       expected an EXPRESSION or --file";
        return Err(refusal(command, ErrorKind::ArgumentConflict, message)?);
    }
    match read_delimiter(word) {
        Some(delimiter) => Ok(delimiter),
        None => {
            let message =
                "--output-delimiter: expected one byte of ASCII, no quote and no end of a \
                 line";
            Err(refusal(command, ErrorKind::InvalidValue, message)?)
        }
    }
}

/// The byte that begins comments, if there are any.
fn comment_option(
    matches: &ArgMatches<'_>,
    command: &mut Command<'_>,
    delimiter: u8,
    output_delimiter: u8,
) -> Result<Option<u8>, Error>
    ensures { IfOk result (λ comment. IfSome comment (MayComment delimiter output_delimiter)) }
{
    let Some(word) = matches.get_str("comment") else {
        return Ok(None);
    };
    match read_comment(word, delimiter, output_delimiter) {
        Some(byte) => Ok(Some(byte)),
        None => {
            let message =
                "--comment: expected one byte of ASCII, no delimiter, no quote and no end \
                 of a line";
            Err(refusal(command, ErrorKind::InvalidValue, message)?)
        }
    }
}

/// The bytes that have a meaning of their own in a line.
fn bytes_option(matches: &ArgMatches<'_>, command: &mut Command<'_>) -> Result<Bytes, Error>
    ensures { IfOk result (λ b. AreBytes b.delimiter b.output_delimiter b.comment) }
{
    let delimiter = delimiter_option(matches, command)?;
    let output_delimiter = output_delimiter_option(matches, command, delimiter)?;
    let comment = comment_option(matches, command, delimiter, output_delimiter)?;
    Ok(Bytes {
        delimiter,
        output_delimiter,
        comment,
    })
}

/// A text that is to be null.
fn checked_null<'a>(
    command: &mut Command<'_>,
    text: &'a str,
    bytes: Bytes,
) -> Result<&'a str, Error>
    ensures { IfOk result (λ t.
        MayBeNull bytes.delimiter bytes.output_delimiter bytes.comment t.now) }
{
    if is_bare(text, bytes) {
        return Ok(text);
    }
    let message = "--null: expected a text without a delimiter, a quote, an end of a line and a \
                   byte order mark, which does not begin with the byte of --comment";
    Err(refusal(command, ErrorKind::InvalidValue, message)?)
}

/// The texts for null.
fn nulls_option<'a>(
    alloc: Global,
    matches: &ArgMatches<'a>,
    command: &mut Command<'_>,
    bytes: Bytes,
) -> Result<Nulls<'a>, Error>
    ensures { IfOk result (λ nulls.
        MayBeNull bytes.delimiter bytes.output_delimiter bytes.comment nulls.written.now
        × All (λ n. MayBeNull bytes.delimiter bytes.output_delimiter bytes.comment n.now)
        nulls.others.items) }
{
    let mut others = Vec::new(alloc);
    let Some([written, rest @ ..]) = matches.get_strs("null") else {
        let written = checked_null(command, "", bytes)?;
        return Ok(Nulls { written, others });
    };
    let written = checked_null(command, *written, bytes)?;
    for text in rest {
        let text = checked_null(command, *text, bytes)?;
        others.push(text.as_bytes())?;
    }
    Ok(Nulls { written, others })
}

/// Which lines and fields are taken.
fn shapes_option(matches: &ArgMatches<'_>, command: &mut Command<'_>) -> Result<Shapes, Error> {
    let ragged = matches.get_str("ragged").unwrap_or("refuse");
    let Some(fits) = is_second(ragged, "refuse", "fit") else {
        let message = "--ragged: expected refuse or fit";
        return Err(refusal(command, ErrorKind::InvalidValue, message)?);
    };
    if fits && matches.get_flag("append") {
        let message =
            "--append: answers behind rows of another width would stand below other names: \
                       expected --ragged refuse";
        return Err(refusal(command, ErrorKind::ArgumentConflict, message)?);
    }
    let blank_lines = matches.get_str("blank-lines").unwrap_or("skip");
    let Some(blank_rows) = is_second(blank_lines, "skip", "null") else {
        let message = "--blank-lines: expected null or skip";
        return Err(refusal(command, ErrorKind::InvalidValue, message)?);
    };
    let truths = matches.get_str("bool").unwrap_or("plain");
    let Some(any_truths) = is_second(truths, "plain", "any") else {
        let message = "--bool: expected plain or any";
        return Err(refusal(command, ErrorKind::InvalidValue, message)?);
    };
    Ok(Shapes {
        fits,
        blank_rows,
        any_truths,
    })
}

/// How fields are written.
pub(crate) fn fields_option<'a>(
    alloc: Global,
    matches: &ArgMatches<'a>,
    command: &mut Command<'_>,
) -> Result<Fields<'a>, Error>
    ensures { IfOk result (λ fields. AreFields fields.bytes.delimiter fields.bytes.output_delimiter
        fields.bytes.comment fields.nulls.written.now fields.nulls.others.items) }
{
    let bytes = bytes_option(matches, command)?;
    let nulls = nulls_option(alloc, matches, command, bytes)?;
    let shapes = shapes_option(matches, command)?;
    Ok(Fields {
        bytes,
        nulls,
        shapes,
    })
}
