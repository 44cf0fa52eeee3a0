//! Encoded columns: a caller's run-length column behind the adaptors, and dictionaries.

mod dictionaries;
mod runs;

use fixtures::{Made, reads};
use std::alloc::Global;
use vortex_columns::{Column, VortexResult};

/// An answer on the heap, if there is one.
type Answer = VortexResult<Option<Box<Column>>>;

/// An answer, put on the heap.
fn held(alloc: Global, answer: VortexResult<Option<Column>>) -> Answer {
    match answer? {
        Some(column) => Ok(Some(Box::new(alloc, column)?)),
        None => Ok(None),
    }
}

/// Whether there is an answer, and it has this text.
fn says(rt: HostRuntime, answer: Answer, expected: &str) -> VortexResult<bool> {
    match answer? {
        Some(column) => reads(rt, Ok(column), expected),
        None => Ok(false),
    }
}
