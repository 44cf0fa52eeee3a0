//! A command line, from its words to its status.

use crate::failure::ProgramError;
use crate::first_row::first_error;
use crate::indexing::write_index;
use crate::planning::{index_error, plan_of};
use crate::queries::{is_like_path, query_of};
use crate::standard_error::StandardError;
use crate::streams::{Rows, run_counted};
use rowfn_batches::{Refusals, StreamError, check_names, explain, refusals_in};
use rowfn_index::IndexError;
use rowfn_options::{Action, Options, Source, read_options, status};
use rowfn_queries::{Again, Query, Question};
use std::cell::Cell;
use std::fs;
use std::io::{Read, Seek};
use std::rt::Files;

/// Prints a program on standard output: each tree as it is written, and as rules make it.
fn print_program(
    console: &(impl Print + AllocGlobal),
    question: &Question,
) -> Result<(), StreamError> {
    match explain(console.alloc(), &question.program) {
        Ok(text) => match print!(console; "{text}") {
            Ok(()) => Ok(()),
            Err(error) => Err(StreamError::Writing(error)),
        },
        Err(_) => Err(StreamError::OutOfMemory),
    }
}

/// Prints what is asked: the answers, and after them the condition.
fn print_query(console: &(impl Print + AllocGlobal), query: &Query) -> Result<(), StreamError> {
    if let Some(answers) = &query.answers {
        check_names(console.alloc(), &answers.program)?;
        print_program(console, answers)?;
    }
    if let Some(condition) = &query.condition {
        print_program(console, condition)?;
    }
    Ok(())
}

/// Says which columns are text by one field, and probably not meant to be: what compares them compares
/// texts.
fn note_mixed(console: &impl Eprint, query: &Query) {
    for mixed in query.mixed.iter() {
        if mixed.is_meant {
            let _ = eprintln!(console; "rowfn_stream: note: {mixed}; texts compare by their bytes");
        }
    }
}

/// Passes rows on, and reports bad ones where the options say.
fn pass_rows<R: Read + Drop, F: Read + Seek + Drop>(
    files: &(impl Files + AllocGlobal),
    console: &(impl Print + Eprint + AllocGlobal),
    options: &Options<'_>,
    query: &Query,
    rows: Rows<'_, R, F>,
) -> Result<(), ProgramError> {
    match options.errors_to {
        Some(name) => {
            let refusals = refusals_in(files, name)?;
            run_counted(console, options, query, rows, refusals)
        }
        None => {
            let refusals = Refusals::new(console.alloc(), StandardError { console });
            run_counted(console, options, query, rows, refusals)
        }
    }
}

/// Passes the rows of a file on that an index, in the file of that name, does not exclude.
fn pass_planned<Fs: Files + AllocGlobal, R: Read + Drop>(
    files: &Fs,
    console: &(impl Print + Eprint + AllocGlobal),
    options: &Options<'_>,
    query: &Query,
    name: &str,
) -> Result<(), ProgramError> {
    let input = options.input.unwrap_or("-");
    let changed = Cell::new(None);
    let plan = plan_of(files, options, query, input, name, &changed)?;
    let rows: Rows<'_, R, Fs::File> = Rows::Planned(plan);
    match (
        pass_rows(files, console, options, query, rows),
        changed.get(),
    ) {
        (Err(_), Some(chunk)) => {
            let error = IndexError::OtherChunk(chunk.saturating_add(1));
            Err(index_error(files, name, error))
        }
        (passed, _) => passed,
    }
}

/// Does what the options ask for with the rows of a reader.
fn perform_on<Fs: Files + AllocGlobal, R: Read + Drop>(
    files: &Fs,
    console: &(impl Print + Eprint + AllocGlobal),
    options: &Options<'_>,
    reader: R,
) -> Result<(), ProgramError> {
    let mut reader = Again::new(files.alloc(), reader);
    let query = match query_of(files, options, &mut reader) {
        Ok(query) => query,
        Err(error) => return Err(first_error(files.alloc(), options, &mut reader, error)),
    };
    if options.action == Action::Explain {
        return Ok(print_query(console, &query)?);
    }
    if let Some(column) = query.compared_column(files.alloc())? {
        return Err(ProgramError::Compared(column));
    }
    note_mixed(console, &query);
    match options.index {
        Some(name) => pass_planned::<Fs, R>(files, console, options, &query, name),
        None => {
            let rows: Rows<'_, Again<R>, Fs::File> = Rows::Whole(reader);
            pass_rows(files, console, options, &query, rows)
        }
    }
}

/// Whether a text is the path of a file that there is, with a point or a slash.
fn is_path(files: &impl Files, text: &str) -> bool {
    is_like_path(text) && fs::open(files, text).is_ok()
}

/// The options, where the only word next to a condition is the path of a file: that of the rows.
fn with_rows<'a>(files: &impl Files, options: Options<'a>) -> Options<'a> {
    match options.source {
        Source::Text(text)
            if options.condition.is_some()
                && options.input.is_none()
                && options.output_delimiter == options.delimiter
                && is_path(files, text) => {
            Options {
                source: Source::Nowhere,
                input: Some(text),
                ..options
            }
        }
        _ => options,
    }
}

/// Does what the options ask for with the rows of the file that they name, or of standard input.
fn perform<R: Read + Drop>(
    files: &(impl Files + AllocGlobal),
    console: &(impl Print + Eprint + AllocGlobal),
    options: &Options<'_>,
    input: R,
) -> Result<(), ProgramError> {
    let Some(name) = options.input else {
        return perform_on(files, console, options, input);
    };
    if let Some(index) = options.write_index {
        return write_index(files, options, name, index);
    }
    match fs::open(files, name) {
        Ok(file) => perform_on(files, console, options, file),
        Err(error) => Err(ProgramError::Input(String::from_str(files.alloc(), name)?, error)),
    }
}

/// Prints why there are no options: help, the version, or what is wrong with the words. Returns the
/// status.
fn print_no_options(console: &(impl Print + Eprint), error: &clap::Error) -> u8 {
    match error.print(console) {
        Ok(()) => status(error),
        Err(failed) => {
            let _ = eprintln!(console; "rowfn_stream: writing: {failed}");
            3
        }
    }
}

/// The status where nobody reads the output any more, as with `| head`: the one that a shell
/// reports of a program that this signal ends. Nothing is printed then.
const PIPE_CLOSED: u8 = 141;

/// Runs a command line of `rowfn_stream`, whose first word is the program's name: with these files,
/// this standard input, and this standard output and error. Prints what went wrong on standard
/// error. Returns the status, which is 0 where nothing did.
pub fn run_command<R: Read + Drop>(
    files: &(impl Files + AllocGlobal),
    console: &(impl Print + Eprint + AllocGlobal),
    words: &[String],
    input: R,
) -> u8 {
    let options = match read_options(console.alloc(), words) {
        Ok(options) => options,
        Err(error) => return print_no_options(console, &error),
    };
    let options = with_rows(files, options);
    match perform(files, console, &options, input) {
        Ok(()) => 0,
        Err(error) if error.is_closed_pipe() => PIPE_CLOSED,
        Err(error) => {
            let _ = eprintln!(console; "rowfn_stream: {error}");
            error.status()
        }
    }
}
