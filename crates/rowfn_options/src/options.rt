//! What the options say.
ghost use Rattle.std.specs.Prelude.{◌≡◌, IfOk};
ghost use Rattle.clap.specs.Values.{kind_of};
ghost use Rattle.rowfn_options.specs.Fields.{AreFields};
ghost use Rattle.rowfn_options.specs.Statuses.{status_of};

use crate::command::command;
use crate::fields::{Fields, fields_option};
use crate::file_names::is_bare_word;
use crate::indexes::{Indexes, indexes_option};
use crate::words::{is_second, refusal};
use clap::error::ErrorKind;
use clap::{ArgMatches, Command, Error};
use std::alloc::Global;

/// What is done with the expression.
#[derive(Clone, Copy, Debug, PartialEq, Eq)]
pub enum Action {
    /// Its answers are written.
    Answer,
    /// It is printed, and no rows are read.
    Explain,
}

/// Where the expression is.
#[derive(Clone, Copy)]
pub enum Source<'a> {
    /// Nowhere: rows are taken as they stand.
    Nowhere,
    /// In this text.
    Text(&'a str),
    /// In the file of that name.
    File(&'a str),
}

/// What the options say.
#[derive(Drop)]
pub struct Options<'a> {
    /// The byte between two fields of the input.
    pub delimiter: u8,
    /// The byte between two fields of the output.
    pub output_delimiter: u8,
    /// The byte that begins comments, if there are any.
    pub comment: Option<u8>,
    /// Whether the first record names the columns.
    pub header: bool,
    /// The text that is written for null, and is read as null in no quotes.
    pub null: &'a str,
    /// More texts that are read as null in no quotes.
    pub more_nulls: Vec<&'a [u8]>,
    /// Whether these texts are null in quotes too.
    pub quoted_nulls: bool,
    /// Whether records shorter or longer than the header are fitted; else they are refused.
    pub fits: bool,
    /// Whether an empty line is a row of one null.
    pub blank_rows: bool,
    /// Whether truth values are read in any spelling.
    pub any_truths: bool,
    /// How many rows are read, answered and written together, if that is said; at least 1.
    pub batch: Option<u32>,
    /// With how many bytes of the input those are enough, if that is said; at least 1.
    pub batch_bytes: Option<u64>,
    /// Whether answers are written whenever the input pauses.
    pub flushes: bool,
    /// How many bytes a field has, at most; at least 1.
    pub max_field: u64,
    /// The number of the first row in reports; at least 1.
    pub first_row: u64,
    pub action: Action,
    /// Whether each row's own fields are written before its answers.
    pub appends: bool,
    /// Whether the rows are counted at the end.
    pub summary: bool,
    /// Whether it is printed, while rows are read, how many were.
    pub progress: bool,
    /// Whether a bad row is left out; else it ends the stream.
    pub skips: bool,
    /// The file that bad rows are reported in.
    pub errors_to: Option<&'a str>,
    /// The columns that are declared.
    pub columns: Option<&'a str>,
    /// Whether columns that are not declared take their types from the first rows.
    pub infers: bool,
    /// In which rows is answered, if not in all.
    pub condition: Option<&'a str>,
    pub source: Source<'a>,
    /// The file of the rows, where they are not those of standard input.
    pub input: Option<&'a str>,
    /// The file that an index of the rows is written to; no rows are written then.
    pub write_index: Option<&'a str>,
    /// The file of the index by which parts of the input are skipped.
    pub index: Option<&'a str>,
    /// How many rows a part has that an index describes, at most; at least 1.
    pub chunk_rows: u32,
}

fn action_option(matches: &ArgMatches<'_>) -> Action {
    if matches.get_flag("explain") {
        Action::Explain
    } else {
        Action::Answer
    }
}

/// Where the expression is: the first word is it, where no file is.
fn source_option<'a>(matches: &ArgMatches<'a>) -> Source<'a> {
    match (matches.get_str("file"), matches.get_str("expression")) {
        (Some(name), _) => Source::File(name),
        (None, Some(text)) => Source::Text(text),
        (None, None) => Source::Nowhere,
    }
}

/// How names of files of rows end.
const ENDINGS: [&str; 5] = [".csv", ".tsv", ".tab", ".txt", ".gz"];

/// Whether a text is no expression, but the name of a file of rows.
fn is_file_name(text: &str) -> bool {
    let ends = |end: &&str| text.as_bytes().ends_with(end.as_bytes());
    is_bare_word(text) && ENDINGS.iter().any(ends)
}

/// Fails where the name of a file stands where the expression does; a condition needs none.
fn expect_expression(matches: &ArgMatches<'_>, command: &mut Command<'_>) -> Result<(), Error> {
    match source_option(matches) {
        Source::Text(text) if is_file_name(text) && !matches.contains_id("where") => {
            let message = "EXPRESSION: that is the name of a file; expected an expression \
                           before it, as in rowfn_stream 'a + b' table.csv";
            Err(refusal(command, ErrorKind::InvalidValue, message)?)
        }
        _ => Ok(()),
    }
}

/// The words that may name the file of the rows: the first one where the expression is in a file,
/// else the second one.
fn input_words<'a>(matches: &ArgMatches<'a>) -> [Option<&'a str>; 2] {
    if matches.contains_id("file") {
        [matches.get_str("expression"), matches.get_str("input-file")]
    } else {
        [matches.get_str("input-file"), None]
    }
}

/// The file of the rows; nothing for standard input.
fn input_option<'a>(
    matches: &ArgMatches<'a>,
    command: &mut Command<'_>,
) -> Result<Option<&'a str>, Error> {
    let name = match (input_words(matches), matches.get_str("input")) {
        ([word, None], None) => word,
        ([None, None], named) => named,
        _ => {
            let message = "expected one file of rows: with --file the first word is it";
            return Err(refusal(command, ErrorKind::ArgumentConflict, message)?);
        }
    };
    Ok(name.filter(|name| *name != "-"))
}

/// The file that bad rows are reported in: not that of the rows.
fn errors_to_option<'a>(
    matches: &ArgMatches<'a>,
    command: &mut Command<'_>,
    input: Option<&str>,
) -> Result<Option<&'a str>, Error> {
    let name = matches.get_str("errors-to");
    if name.is_some() && name == input {
        let message = "--errors-to: expected another file than that of the rows";
        return Err(refusal(command, ErrorKind::ArgumentConflict, message)?);
    }
    Ok(name)
}

/// What is done with bad rows.
#[derive(Clone, Copy)]
struct Refused<'a> {
    skips: bool,
    errors_to: Option<&'a str>,
}

/// What is done with bad rows.
fn refused_option<'a>(
    matches: &ArgMatches<'a>,
    command: &mut Command<'_>,
    input: Option<&str>,
) -> Result<Refused<'a>, Error> {
    let errors = matches.get_str("errors").unwrap_or("stop");
    let Some(skips) = is_second(errors, "stop", "skip") else {
        let message = "--errors: expected skip or stop";
        return Err(refusal(command, ErrorKind::InvalidValue, message)?);
    };
    let errors_to = errors_to_option(matches, command, input)?;
    Ok(Refused { skips, errors_to })
}

/// The options of the words that matched.
fn options_of<'a>(
    matches: &ArgMatches<'a>,
    fields: Fields<'a>,
    input: Option<&'a str>,
    refused: Refused<'a>,
    indexes: Indexes<'a>,
) -> Options<'a>
    ensures bytes { (result.delimiter ≡ fields.entry.bytes.delimiter)
        × (result.output_delimiter ≡ fields.entry.bytes.output_delimiter)
        × (result.comment ≡ fields.entry.bytes.comment) }
    ensures nulls { (result.null ≡ fields.entry.nulls.written)
        × (result.more_nulls ≡ fields.entry.nulls.others) }
{
    Options {
        delimiter: fields.bytes.delimiter,
        output_delimiter: fields.bytes.output_delimiter,
        comment: fields.bytes.comment,
        header: !matches.get_flag("no-header"),
        null: fields.nulls.written,
        more_nulls: fields.nulls.others,
        quoted_nulls: matches.get_flag("null-quoted"),
        fits: fields.shapes.fits,
        blank_rows: fields.shapes.blank_rows,
        any_truths: fields.shapes.any_truths,
        batch: matches.get_one::<u32>("batch"),
        batch_bytes: matches.get_one::<u64>("batch-bytes"),
        flushes: matches.get_flag("flush"),
        max_field: matches.get_one::<u64>("max-field").unwrap_or(1 << 28),
        first_row: matches.get_one::<u64>("first-row").unwrap_or(1),
        action: action_option(matches),
        appends: matches.get_flag("append"),
        summary: matches.get_flag("summary"),
        progress: matches.get_flag("progress"),
        skips: refused.skips,
        errors_to: refused.errors_to,
        columns: matches.get_str("columns"),
        infers: !matches.get_flag("no-infer"),
        condition: matches.get_str("where"),
        source: source_option(matches),
        input,
        write_index: indexes.written,
        index: indexes.used,
        chunk_rows: indexes.chunk_rows,
    }
}

/// The options that the words after the program's name say; the first word is that name. Fails for
/// wrong words, with the text to print; so do `--help` and `--version`.
pub fn read_options<'a>(alloc: Global, words: &'a [String]) -> Result<Options<'a>, Error>
    // Which options the words say is tested; fields that are written so can be read back.
    ensures { IfOk result (λ options. AreFields options.delimiter options.output_delimiter
        options.comment options.null.now options.more_nulls.items) }
{
    let mut command = command(alloc)?;
    let matches = command.try_get_matches_from_mut(words)?;
    let fields = fields_option(alloc, &matches, &mut command)?;
    let input = input_option(&matches, &mut command)?;
    let refused = refused_option(&matches, &mut command, input)?;
    let indexes = indexes_option(&matches, &mut command, input)?;
    expect_expression(&matches, &mut command)?;
    Ok(options_of(&matches, fields, input, refused, indexes))
}

/// The program's status where its words give no options: 0 where help or the version was asked for,
/// 3 where an allocation failed, and 64 for wrong words.
pub fn status(error: &Error) -> u8
    ensures { result ≡ status_of (kind_of error.now) }
{
    match error.kind() {
        ErrorKind::DisplayHelp | ErrorKind::DisplayVersion => 0,
        ErrorKind::OutOfMemory => 3,
        _ => 64,
    }
}
