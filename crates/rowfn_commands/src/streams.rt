//! The stream that options ask for, over any reader, with what it says of rows and how it ends.

use crate::choices::is_fault_of_choices;
use crate::failure::ProgramError;
use crate::planned::{Plan, run_plan};
use crate::progress::{PRINTED_BYTES, Progress};
use crate::queries::format_with;
use rowfn_batches::{Refusals, RefusedRows, Request, Settings, StreamError, Summary, Watched, run};
use rowfn_csv::Format;
use rowfn_options::Options;
use rowfn_queries::{Query, Question};
use std::alloc::Global;
use std::cell::Cell;
use std::io::{self, Read, Seek, Write};
use vortex_columns::StructFields;
use vortex_program::rows_at_once;

/// Over how many rows a question is asked at once; 0 where there is none.
fn rows_at_once_of(alloc: Global, question: &Option<Question>) -> Result<usize, StreamError> {
    match question {
        Some(question) => match rows_at_once(alloc, &question.program.optimized) {
            Ok(rows) => Ok(rows),
            Err(_) => Err(StreamError::OutOfMemory),
        },
        None => Ok(0),
    }
}

/// How many rows a batch has where the options do not say it: as the question that takes most.
fn usual_batch(alloc: Global, query: &Query) -> Result<usize, StreamError> {
    let answers = rows_at_once_of(alloc, &query.answers)?;
    let condition = rows_at_once_of(alloc, &query.condition)?;
    Ok(answers.max(condition))
}

/// How rows are read and written, with batches of so many rows where the options do not say it; the
/// rows that were passed on are counted in a cell.
pub(crate) fn settings_of<'a>(
    options: &Options<'_>,
    format: Format<'a>,
    usual: usize,
    rows: &'a Cell<u64>,
) -> Settings<'a> {
    let bytes = (usual as u64).saturating_mul(64).max(1 << 20);
    Settings {
        format,
        header: options.header,
        batch: options.batch.map(|rows| rows as usize).unwrap_or(usual),
        batch_bytes: options.batch_bytes.unwrap_or(bytes),
        flushes: options.flushes,
        max_field: options.max_field as usize,
        picks_rows: false,
        appends: options.appends,
        rows_before: options.first_row.saturating_sub(1),
        rows_passed: Some(rows),
    }
}

/// What is asked of rows, as a stream takes it.
#[derive(Clone, Copy)]
pub(crate) struct Asked<'a> {
    pub(crate) answers: Option<Request<'a>>,
    pub(crate) condition: Option<Request<'a>>,
}

/// The rows that are passed on.
#[derive(Drop)]
pub(crate) enum Rows<'a, R, F> {
    /// All of a reader.
    Whole(R),
    /// Those of a file that an index does not exclude.
    Planned(Plan<'a, F>),
}

/// A question, as a stream takes it, where its columns are at those places.
pub(crate) fn asked_at<'a>(question: &'a Question, places: &'a [Option<usize>]) -> Request<'a> {
    Request {
        program: &question.program,
        places,
    }
}

/// A question, if there is one.
fn request_of(question: &Option<Question>) -> Option<Request<'_>> {
    match question {
        Some(question) => Some(asked_at(question, &question.places)),
        None => None,
    }
}

/// What a query asks.
pub(crate) fn asked_of(query: &Query) -> Asked<'_> {
    Asked {
        answers: request_of(&query.answers),
        condition: request_of(&query.condition),
    }
}

/// Runs the stream of a query, and returns how many rows it read and wrote.
pub(crate) fn run_query<R: Read + Drop, E: Write + Drop>(
    console: &(impl Print + AllocGlobal),
    settings: Settings<'_>,
    asked: Asked<'_>,
    reader: R,
    refused: &mut RefusedRows<E>,
) -> Result<Summary, StreamError> {
    let alloc = console.alloc();
    let picking = Settings {
        picks_rows: true,
        ..settings
    };
    let mut out = io::writer(console);
    let (settings, answers, condition) = match (asked.answers, asked.condition) {
        (Some(answers), condition) => (settings, answers, condition),
        (None, Some(condition)) => (picking, condition, None),
        (None, None) => {
            return Ok(Summary {
                rows_read: 0,
                rows_written: 0,
            });
        }
    };
    run(
        alloc,
        &settings,
        &answers,
        condition.as_ref(),
        reader,
        &mut out,
        refused,
    )
}

/// The same, with the rows counted on standard error while they are read, where that is asked.
/// `rows` and `null` must outlive `settings`, so they are locals here.
fn run_watched<R: Read + Drop, F: Read + Seek + Drop, E: Write + Drop>(
    console: &(impl Print + Eprint + AllocGlobal),
    options: &Options<'_>,
    query: &Query,
    rows_of: Rows<'_, R, F>,
    refused: &mut RefusedRows<E>,
) -> Result<Summary, StreamError> {
    let alloc = console.alloc();
    let usual = usual_batch(alloc, query)?;
    let null = String::from_str(alloc, options.null)?;
    let rows = Cell::new(0);
    let format = format_with(options, null.as_bytes(), &options.more_nulls);
    let settings = settings_of(options, format, usual, &rows);
    let reader = match rows_of {
        Rows::Whole(reader) => reader,
        Rows::Planned(plan) => return run_plan(console, settings, query, plan, refused),
    };
    let asked = asked_of(query);
    if !options.progress {
        return run_query(console, settings, asked, reader, refused);
    }
    let watched = Watched::new(reader, Progress { console }, &rows, PRINTED_BYTES);
    let passed = run_query(console, settings, asked, watched, refused);
    let _ = eprintln!(console; "\rrows {}", rows.get());
    passed
}

/// The error, with advice where the type that a field has not was taken from the first rows.
pub(crate) fn advised(inferred: &StructFields, error: StreamError) -> ProgramError {
    let is_inferred = match &error {
        StreamError::Misfit { column, .. } => inferred.find(column.as_str()).is_some(),
        _ => false,
    };
    if is_inferred {
        ProgramError::Inferred(error)
    } else {
        ProgramError::Stream(error)
    }
}

/// Writes the reports that were not yet written, and before them that of the row whose error ended
/// the stream, where a file has the reports.
fn report_last<E: Write + Drop>(
    options: &Options<'_>,
    passed: &Result<Summary, StreamError>,
    refusals: &mut Refusals<E>,
) -> Result<(), StreamError> {
    if let Err(error) = passed {
        if options.errors_to.is_some() && error.row().is_some() {
            refusals.tell(error)?;
        }
    }
    refusals.flush()
}

/// The error, where reports of bad rows could not be written.
fn unreported(
    console: &impl AllocGlobal,
    options: &Options<'_>,
    error: StreamError,
) -> ProgramError {
    let name = options.errors_to.unwrap_or("standard error");
    match (error, String::from_str(console.alloc(), name)) {
        (StreamError::Writing(error), Ok(name)) => ProgramError::Reporting(name, error),
        (error, _) => ProgramError::Stream(error),
    }
}

/// How a stream ended, with its last reports written.
fn ended<E: Write + Drop>(
    console: &impl AllocGlobal,
    options: &Options<'_>,
    query: &Query,
    passed: Result<Summary, StreamError>,
    refusals: &mut Refusals<E>,
) -> Result<Summary, ProgramError> {
    let passed = match report_last(options, &passed, refusals) {
        Ok(()) => passed,
        Err(error) => Err(error),
    };
    match passed {
        Ok(summary) => Ok(summary),
        Err(error) if refusals.has_failed() => Err(unreported(console, options, error)),
        Err(error) if is_fault_of_choices(console.alloc(), query, &error) => {
            Err(ProgramError::Chosen(error))
        }
        Err(error) => Err(advised(&query.inferred, error)),
    }
}

/// Runs the stream, with bad rows reported and skipped or up to the first, as the options say.
/// Returns how many were skipped, and how it ended.
fn run_reported<R: Read + Drop, F: Read + Seek + Drop, E: Write + Drop>(
    console: &(impl Print + Eprint + AllocGlobal),
    options: &Options<'_>,
    query: &Query,
    rows: Rows<'_, R, F>,
    refusals: Refusals<E>,
) -> (u64, Result<Summary, ProgramError>) {
    if !options.skips {
        let mut refused: RefusedRows<E> = RefusedRows::End;
        let passed = run_watched(console, options, query, rows, &mut refused);
        let mut refusals = refusals;
        return (0, ended(console, options, query, passed, &mut refusals));
    }
    let mut refused = RefusedRows::Skip(refusals);
    let passed = run_watched(console, options, query, rows, &mut refused);
    match &mut refused {
        RefusedRows::Skip(refusals) => {
            let skipped = refusals.count();
            (skipped, ended(console, options, query, passed, refusals))
        }
        RefusedRows::End => match passed {
            Ok(summary) => (0, Ok(summary)),
            Err(error) => (0, Err(ProgramError::Stream(error))),
        },
    }
}

/// Runs the stream, and prints its counts, where they are asked. Fails where rows were skipped.
pub(crate) fn run_counted<R: Read + Drop, F: Read + Seek + Drop, E: Write + Drop>(
    console: &(impl Print + Eprint + AllocGlobal),
    options: &Options<'_>,
    query: &Query,
    rows: Rows<'_, R, F>,
    refusals: Refusals<E>,
) -> Result<(), ProgramError> {
    let (skipped, passed) = run_reported(console, options, query, rows, refusals);
    match passed {
        Ok(
            Summary {
                rows_read,
                rows_written,
            },
        ) => {
            if options.summary {
                let _ = eprintln!(console; "rows read {rows_read}, rows written {rows_written}");
            }
            if skipped == 0 {
                Ok(())
            } else {
                Err(ProgramError::LeftOut(skipped))
            }
        }
        Err(failure) => {
            if skipped != 0 && !failure.is_closed_pipe() {
                let _ = eprintln!(console; "rowfn_stream: {}", ProgramError::LeftOut(skipped));
            }
            Err(failure)
        }
    }
}
