//! How a stream reads the rows of a batch.
ghost use Rattle.std.specs.Prelude.{◌≡◌, ◌≢◌, ◌&&◌, not, Bool, List, Some, length};
ghost use Rattle.csv.specs.Records.{fields_of};
ghost use Rattle.rowfn_csv.specs.KeptLines.{last_bytes, is_ended};
ghost use Rattle.rowfn_csv.specs.Records.{Field, SaysFields};
ghost use Rattle.rowfn_batches.specs.Passing.{IsRefilled, is_full, is_end, error_behind};
ghost use Rattle.rowfn_batches.specs.Filtering.{rows_before};
ghost use Rattle.rowfn_batches.specs.Widths.{first_width, row_width, has_width, is_whole};

use super::Stream;
use crate::answering::row_number;
use crate::errors::StreamError;
use crate::header::Layout;
use rowfn_csv::{Batch, FoundRecord, RecordError, Records};
use std::alloc::AllocError;
use std::io::Read;

/// How the reading of a batch ended.
#[derive(Drop)]
pub(super) enum Filled {
    /// The batch is full.
    Full,
    /// The input is at its end.
    Ended,
    /// No row can be read behind those of the batch.
    Broken(StreamError),
}

impl Filled {
    /// Whether more rows may follow.
    pub(super) fn goes_on(&self) -> bool
        ensures { result ≡ is_full self.now }
    {
        matches!(self, Filled::Full)
    }

    /// Whether the input is at its end.
    pub(super) fn is_end(&self) -> bool
        ensures { result ≡ is_end self.now }
    {
        matches!(self, Filled::Ended)
    }

    /// What ends the stream behind the batch, if anything does.
    pub(super) fn into_error(self) -> Option<StreamError>
        ensures { result ≡ error_behind self }
    {
        match self {
            Filled::Broken(error) => Some(error),
            Filled::Full | Filled::Ended => None,
        }
    }
}

/// What a read that failed ends.
#[cold]
#[inline(never)]
fn broken_by(error: RecordError) -> Filled {
    Filled::Broken(StreamError::from(error))
}

/// Adds the fields of the last record to a batch: those of the columns of a layout.
#[inline(always)]
fn add_last<R: Read>(
    records: &mut Records<'_, R>,
    batch: &mut Batch,
    layout: &Layout,
) -> Result<(), AllocError> {
    match &layout.spelled {
        Some(columns) => records.add_spelled_to(batch, columns),
        None => records.add_to(batch, &layout.places),
    }
}

impl<'a, R: Read + Drop> Stream<'a, R> {
    /// How many fields each row has where the last record is the first row: as many as that, but no
    /// fewer than reach to each column of the answers and of the condition.
    #[cold]
    #[inline(never)]
    fn first_width(&self) -> usize
        ensures { result ≡ first_width self.now.layout.places.items self.now.condition
            (length (fields_of self.now.records.last)) }
    {
        let width = self.layout.width_by(self.records.record().len());
        match &self.condition {
            Some(condition) => condition.layout.width_by(width),
            None => width,
        }
    }

    /// How many fields each row has, where the last record is the first row unless that is known.
    #[inline(always)]
    fn row_width(&self) -> usize
        ensures { result ≡ row_width self.now }
    {
        match self.width {
            Some(width) => width,
            None => self.first_width(),
        }
    }

    /// Settles how many fields each row has, by the first row where no header says it.
    #[inline(always)]
    fn settle_width(&mut self)
        ensures refilled { IsRefilled self.old self.new }
        ensures width { self.new.width ≡ Some (row_width self.old) }
    {
        self.width = Some(self.row_width());
    }

    /// How many rows stand before the batch, those before the input among them.
    pub(super) fn rows_before(&self) -> u64
        ensures { result ≡ rows_before self.now }
    {
        self.settings
            .rows_before
            .saturating_add(self.summary.rows_read)
    }

    /// Whether the last record has as many fields as are expected: so many; or, where records are
    /// fitted, fewer, or more of which those past that many are empty.
    #[inline(always)]
    fn has_width(&self) -> bool
        ensures { result ≡ has_width self.now.settings.format.fits self.now.width
            (fields_of self.now.records.last) }
    {
        let Some(width) = self.width else {
            return false;
        };
        let found = self.records.record().len();
        found == width || self.settings.format.fits && !self.records.has_surplus(width)
    }

    /// Whether the last record is a row: closed, and of as many fields as are expected, none of which
    /// is too long.
    #[inline(always)]
    fn is_whole(&self) -> bool
        ensures { (closed : Bool) → (said : List Field)
            → self.now.records.format.delimiter ≢ 34
            → SaysFields self.now.records.format.delimiter closed (last_bytes self.now.records)
            said
            → result ≡ is_whole (has_width self.now.settings.format.fits self.now.width
            (fields_of self.now.records.last)) (is_ended self.now.records && not closed)
            self.now.records.is_outgrown }
    {
        self.has_width() && !self.records.is_open() && !self.records.is_outgrown()
    }

    /// Why the last record is no row.
    #[cold]
    #[inline(never)]
    fn misshapen(&self) -> StreamError {
        let row = row_number(self.rows_before(), self.batch.len());
        if self.records.is_outgrown() {
            let limit = self.settings.max_field;
            return StreamError::FieldTooLong { row, limit };
        }
        if self.records.is_open() {
            return StreamError::OpenQuote { row };
        }
        StreamError::Width {
            row,
            wanted: self.width.unwrap_or(0),
            found: self.records.record().len(),
        }
    }

    /// Whether the rows that were read from a place of the input on have enough bytes, or are to be
    /// answered before more is read.
    #[inline(always)]
    fn is_full(&self, begin: u64) -> bool {
        self.records.span().end.saturating_sub(begin) >= self.settings.batch_bytes
            || self.settings.flushes && self.records.is_drained()
    }

    fn clear_batch(&mut self)
        ensures { IsRefilled self.old self.new }
    {
        self.batch.clear();
        if let Some(condition) = &mut self.condition {
            condition.batch.clear();
        }
    }

    /// Adds the last record to the batch.
    #[inline(always)]
    fn add_row(&mut self) -> Result<(), AllocError>
        ensures { IsRefilled self.old self.new }
    {
        add_last(&mut self.records, &mut self.batch, &self.layout)?;
        match &mut self.condition {
            Some(condition) => {
                add_last(&mut self.records, &mut condition.batch, &condition.layout)
            }
            None => Ok(()),
        }
    }

    /// Reads the rows of the next batch.
    pub(super) fn fill(&mut self) -> Filled
        ensures { IsRefilled self.old self.new }
    {
        self.clear_batch();
        let begin = self.records.keep_from_here();
        'rows: for _ in 0..self.settings.batch.max(1) {
            match self.records.read() {
                FoundRecord::Record => {}
                FoundRecord::End => return Filled::Ended,
                FoundRecord::Failed => return broken_by(self.records.take_error()),
            }
            self.settle_width();
            if !self.is_whole() {
                return Filled::Broken(self.misshapen());
            }
            if self.add_row().is_err() {
                return broken_by(RecordError::OutOfMemory);
            }
            if self.is_full(begin) {
                return Filled::Full;
            }
        }
        Filled::Full
    }
}
