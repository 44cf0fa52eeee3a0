//! How rows are read, answered and written.

use rowfn_csv::Format;
use std::cell::Cell;

/// How rows are read, answered and written.
#[derive(Clone, Copy)]
pub struct Settings<'a> {
    /// How fields are separated and which are null, in the input and in the output.
    pub format: Format<'a>,
    /// Whether the first record of the input names its columns, and that of the output the answers.
    pub header: bool,
    /// How many rows a batch has, at most; 0 is taken for 1.
    pub batch: usize,
    /// A batch ends once its rows have this many bytes of the input.
    pub batch_bytes: u64,
    /// Whether a batch ends, too, where no further row was read yet, so that its answers are written
    /// before more is read.
    pub flushes: bool,
    /// How many bytes a field has, at most.
    pub max_field: usize,
    /// Whether the rows of the input are written in which the only answer is true, in place of
    /// answers.
    pub picks_rows: bool,
    /// Whether each row's own fields are written before its answers.
    pub appends: bool,
    /// How many rows are before those of the input, where it is a part of a whole.
    pub rows_before: u64,
    /// Where the rows that were read and answered are counted, if anybody asks.
    pub rows_passed: Option<&'a Cell<u64>>,
}
