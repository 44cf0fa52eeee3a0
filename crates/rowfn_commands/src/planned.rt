//! A stream over the chunks of a file that an index does not exclude.

use crate::streams::{Asked, asked_at, asked_of, run_query};
use rowfn_batches::{RefusedRows, Request, Settings, StreamError, Summary};
use rowfn_index::{Action, ChunkFile, Step};
use rowfn_queries::{Query, Question};
use std::io::{self, Read, Seek, Write};

/// What is done with a file by its index.
#[derive(Drop)]
pub(crate) struct Plan<'a, F> {
    pub(crate) file: ChunkFile<'a, F>,
    /// The bytes of the file before its chunks.
    pub(crate) header: Vec<u8>,
    pub(crate) steps: Vec<Step>,
    /// Where the columns of the answers are in a row, and those of the condition.
    pub(crate) answers: Vec<Option<usize>>,
    pub(crate) condition: Vec<Option<usize>>,
}

/// A question at those places, if there is one.
fn placed<'a>(question: &'a Option<Question>, places: &'a [Option<usize>]) -> Option<Request<'a>> {
    match question {
        Some(question) => Some(asked_at(question, places)),
        None => None,
    }
}

/// Both counts in all.
fn added(before: Summary, more: Summary) -> Summary {
    Summary {
        rows_read: before.rows_read.saturating_add(more.rows_read),
        rows_written: before.rows_written.saturating_add(more.rows_written),
    }
}

/// Writes the bytes of the chunks that a file is at.
fn copy_chunks<F: Read + Seek>(
    console: &impl Print,
    file: &mut ChunkFile<'_, F>,
) -> Result<(), StreamError> {
    let mut out = io::writer(console);
    for _turn in 0..u64::MAX {
        match file.next_bytes() {
            Ok(Some(bytes)) => {
                if let Err(error) = out.write_all(bytes) {
                    return Err(StreamError::Writing(error));
                }
            }
            Ok(None) => return Ok(()),
            Err(error) => return Err(StreamError::Reading(error)),
        }
    }
    Ok(())
}

/// Does a step with chunks of a file, of which `first` is the first. Returns how many rows they have,
/// and how many are written.
fn pass_step<F: Read + Seek + Drop, E: Write + Drop>(
    console: &(impl Print + AllocGlobal),
    settings: Settings<'_>,
    asked: Asked<'_>,
    file: &mut ChunkFile<'_, F>,
    step: Step,
    first: usize,
    refused: &mut RefusedRows<E>,
) -> Result<Summary, StreamError> {
    let rows_read = file.rows(first, step.count);
    file.begin(first, step.count);
    match step.action {
        Action::Run => run_query(console, settings, asked, file, refused),
        Action::Skip => Ok(Summary {
            rows_read,
            rows_written: 0,
        }),
        Action::Copy => {
            copy_chunks(console, file)?;
            Ok(Summary {
                rows_read,
                rows_written: rows_read,
            })
        }
    }
}

/// Runs the stream of a query over a file by the steps of its index: what is written, and how it ends,
/// is what it would be over the whole file.
pub(crate) fn run_plan<F: Read + Seek + Drop, E: Write + Drop>(
    console: &(impl Print + AllocGlobal),
    settings: Settings<'_>,
    query: &Query,
    plan: Plan<'_, F>,
    refused: &mut RefusedRows<E>,
) -> Result<Summary, StreamError> {
    let Plan {
        mut file,
        header,
        steps,
        answers,
        condition,
    } = plan;
    let header = header.as_slice();
    let mut summary = run_query(console, settings, asked_of(query), header, refused)?;
    let asked = Asked {
        answers: placed(&query.answers, &answers),
        condition: placed(&query.condition, &condition),
    };
    let mut first = 0;
    for step in &steps {
        let settings = Settings {
            header: false,
            rows_before: settings.rows_before.saturating_add(summary.rows_read),
            ..settings
        };
        let more = pass_step(console, settings, asked, &mut file, *step, first, refused)?;
        summary = added(summary, more);
        first = first.saturating_add(step.count);
    }
    Ok(summary)
}
