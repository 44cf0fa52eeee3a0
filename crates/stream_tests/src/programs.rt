//! Questions of texts, as `price i32, 3 as stock i32?: price * stock as worth`, and how their rows are
//! read.

use rowfn_batches::{Format, Request, Settings};
use rowfn_queries::{Declared, Question, read_scope};
use std::alloc::Global;
use vortex_program::Program;

/// A question, as a stream takes it.
pub(crate) fn asked(question: &Question) -> Request<'_> {
    Request {
        program: &question.program,
        places: &question.places,
    }
}

/// The question of columns and an expression, with a colon and a blank between.
pub(crate) fn read_asked(alloc: Global, text: &str) -> Option<Question> {
    let (columns, expression) = text.split_once(": ")?;
    let Declared {
        columns,
        kinds,
        places,
    } = read_scope(alloc, columns).ok()?;
    let program = Program::read(alloc, columns, kinds, expression).ok()?;
    Some(Question { program, places })
}

/// Rows with a header and commas, by batches of so many, or so many bytes.
pub(crate) fn settings(batch: usize, batch_bytes: u64) -> Settings<'static> {
    Settings {
        format: Format {
            delimiter: b',',
            output_delimiter: b',',
            null: b"",
            more_nulls: &[],
            quoted_nulls: false,
            comment: None,
            fits: false,
            blank_rows: false,
            any_truths: false,
        },
        header: true,
        batch,
        batch_bytes,
        flushes: false,
        max_field: usize::MAX,
        picks_rows: false,
        appends: false,
        rows_before: 0,
        rows_passed: None,
    }
}
