//! The first row, where a query is refused by types that it kept from being known.

use crate::failure::ProgramError;
use crate::queries::format_with;
use rowfn_batches::StreamError;
use rowfn_csv::{FoundRecord, Records};
use rowfn_options::Options;
use rowfn_queries::{Again, QueryError};
use std::alloc::Global;
use std::io::Read;
use vortex_columns::VortexError;
use vortex_expressions::{Reason, Refusal};

/// Whether it is one of types that do not go together, or of a call that there is not.
fn is_refusal_of_types(refusal: &Refusal) -> bool {
    match refusal {
        Refusal::NotHeld | Refusal::NoFunction | Refusal::NoCast | Refusal::Kinds(_) => true,
        Refusal::Binding(error) => matches!(error, VortexError::TypeMismatch(_)),
        _ => false,
    }
}

fn is_reason_of_types(reason: &Reason) -> bool {
    match reason {
        Reason::Refused(refusal) => is_refusal_of_types(refusal),
        _ => false,
    }
}

/// The same, where no field is known that made one of them text.
fn is_query_of_types(error: &QueryError) -> bool {
    match error {
        QueryError::NoTruth(_) => true,
        QueryError::Unread(_, error, field) => field.is_none() && is_reason_of_types(&error.reason),
        _ => false,
    }
}

fn is_of_types(error: &ProgramError) -> bool {
    match error {
        ProgramError::Query(error) => is_query_of_types(error),
        _ => false,
    }
}

/// The error of the first row behind the header, where it has another width.
fn width_error<R: Read>(
    alloc: Global,
    options: &Options<'_>,
    reader: &mut Again<R>,
) -> Option<StreamError> {
    let format = format_with(options, options.null.as_bytes(), &options.more_nulls);
    let mut records = Records::new(alloc, format, options.max_field as usize, reader);
    if records.read_record() != FoundRecord::Record {
        return None;
    }
    let wanted = records.record().len();
    let is_row = records.read() == FoundRecord::Record;
    if !is_row || records.is_open() || records.is_outgrown() {
        return None;
    }
    let found = records.record().len();
    if found == wanted || options.fits && !records.has_surplus(wanted) {
        return None;
    }
    Some(StreamError::Width {
        row: options.first_row,
        wanted,
        found,
    })
}

/// Why a query is refused. Where types are why, and were to be taken from the first rows, the first
/// row comes before them if it has another width than the header: then no row gave a type. The rows
/// that were read for the query are given once more.
pub(crate) fn first_error<R: Read>(
    alloc: Global,
    options: &Options<'_>,
    reader: &mut Again<R>,
    error: ProgramError,
) -> ProgramError {
    let is_inferred = options.header && !options.skips && reader.has_kept();
    if !is_inferred || !is_of_types(&error) {
        return error;
    }
    match width_error(alloc, options, reader) {
        Some(width) => ProgramError::Stream(width),
        None => error,
    }
}
