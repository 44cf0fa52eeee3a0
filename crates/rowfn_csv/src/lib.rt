//! Records of CSV: read one at a time with their bytes, gathered by the batch, and written; and the
//! forms of their fields.
#![tactic(auto)]

pub mod batch;
mod comments;
mod fields;
pub mod format;
mod growth;
pub mod laws;
pub mod other_dates;
pub mod other_numbers;
pub mod quoting;
mod raw;
pub mod records;
mod tee;
pub mod truths;

pub use batch::Batch;
pub use csv::ByteRecord;
pub use format::Format;
pub use quoting::{field_of, push_quoted, quote_from};
pub use raw::without_line_end;
pub use records::{FoundRecord, RecordError, Records, Span};
pub use truths::{Spelled, truth_spelled};
