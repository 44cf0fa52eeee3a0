//! How a chunk is read and described.

use super::{Scan, check_bytes};
use crate::chunk::Chunk;
use crate::digest::digest_of;
use crate::measured::{ColumnEnds, column_ends};
use crate::writing::push_chunk;
use rowfn_batches::{Request, Settings, StreamError, read_columns};
use rowfn_csv::{FoundRecord, Span};
use std::alloc::AllocError;
use std::io::{self, ErrorKind, Read};

/// With how many bytes of the file the rows of a chunk are enough.
const CHUNK_BYTES: u64 = 1 << 22;

/// How the rows of a chunk ended.
#[derive(Drop)]
enum Filled {
    /// There are enough.
    Full,
    /// The file is at its end.
    Ended,
    /// No row can be read after them.
    Broken(StreamError),
}

/// Whether bytes from a place of the file on are the lines of rows that lie so, and nothing else.
fn are_lines(spans: &[Span], start: u64, end: u64) -> bool {
    let mut place = start;
    for span in spans {
        if span.start != place {
            return false;
        }
        place = span.end;
    }
    place == end
}

impl<R: Read + Drop> Scan<'_, R> {
    /// The number of the row that comes next.
    fn next_row(&self) -> u64 {
        self.settings
            .rows_before
            .saturating_add(self.rows_read)
            .saturating_add(self.batch.len() as u64)
            .saturating_add(1)
    }

    /// How many fields each row has; as many as the last record where that is not known, but no fewer
    /// than reach to each column.
    fn row_width(&self) -> usize {
        if let Some(width) = self.width {
            return width;
        }
        let mut width = self.records.record().len();
        for column in &self.columns {
            width = width.max(column.place.saturating_add(1));
        }
        width
    }

    /// Why the last record is no row; nothing where it is one.
    fn misshapen(&self, wanted: usize) -> Option<StreamError> {
        let row = self.next_row();
        let found = self.records.record().len();
        if self.records.is_outgrown() {
            let limit = self.settings.max_field;
            return Some(StreamError::FieldTooLong { row, limit });
        }
        if self.records.is_open() {
            return Some(StreamError::OpenQuote { row });
        }
        if found != wanted {
            return Some(StreamError::Width { row, wanted, found });
        }
        None
    }

    /// Reads the rows of the next chunk.
    fn fill(&mut self) -> Filled {
        self.batch.clear();
        let _kept_from = self.records.keep_from_here();
        for _ in 0..self.chunk_rows.max(1) {
            match self.records.read() {
                FoundRecord::Record => {}
                FoundRecord::End => return Filled::Ended,
                FoundRecord::Failed => {
                    return Filled::Broken(StreamError::from(self.records.take_error()));
                }
            }
            let width = self.row_width();
            self.width = Some(width);
            if let Some(error) = self.misshapen(width) {
                return Filled::Broken(error);
            }
            let added = self.records.add_spelled_to(&mut self.batch, &self.columns);
            if added.is_err() {
                return Filled::Broken(StreamError::OutOfMemory);
            }
            if self.records.span().end.saturating_sub(self.offset) >= CHUNK_BYTES {
                return Filled::Full;
            }
        }
        Filled::Full
    }

    /// The error with which a stream over the rows of the chunk ends.
    fn check_rows(&self) -> Result<(), StreamError> {
        let end = match self.batch.spans().last() {
            Some(span) => span.end,
            None => self.offset,
        };
        let settings = Settings {
            header: false,
            rows_before: self.settings.rows_before.saturating_add(self.rows_read),
            ..self.settings
        };
        let bytes = self.records.bytes(Span {
            start: self.offset,
            end,
        });
        let asked = Request {
            program: self.asked.program,
            places: &self.places,
        };
        check_bytes(self.alloc, &settings, &asked, self.offset, bytes)
    }

    /// What is known of the columns of the chunk. Fails where a field does not fit.
    fn measure(&self) -> Result<Vec<ColumnEnds>, StreamError> {
        let program = self.asked.program;
        let fields = self.batch.fields(self.alloc)?;
        let rows = self.batch.len();
        let read = read_columns(self.alloc, &program.scope, &program.kinds, &fields, rows);
        let Ok(columns) = read else {
            self.check_rows()?;
            return Err(StreamError::OutOfMemory);
        };
        let mut ends = Vec::new(self.alloc);
        for column in &columns {
            match column_ends(self.alloc, column) {
                Ok(found) => ends.push(found)?,
                Err(_) => return Err(StreamError::OutOfMemory),
            }
        }
        Ok(ends)
    }

    /// The chunk up to a place of the file. Fails where its bytes were not all read.
    fn chunk_to(&self, end: u64) -> Result<Chunk, StreamError> {
        let count = end.saturating_sub(self.offset);
        let bytes = self.records.bytes(Span {
            start: self.offset,
            end,
        });
        if bytes.len() as u64 != count {
            let error = io::Error::from(ErrorKind::UnexpectedEof);
            return Err(StreamError::Reading(error));
        }
        Ok(Chunk {
            offset: self.offset,
            bytes: count,
            rows: self.batch.len() as u64,
            whole: are_lines(self.batch.spans(), self.offset, end),
            digest: digest_of(bytes),
        })
    }

    /// Adds the line of the chunk up to a place of the file.
    fn push_chunk_to(&mut self, end: u64, ends: &[ColumnEnds]) -> Result<(), StreamError> {
        let chunk = self.chunk_to(end)?;
        if chunk.bytes != 0 {
            push_chunk(&mut self.entries, &chunk, ends)?;
        }
        self.rows_read = self.rows_read.saturating_add(chunk.rows);
        self.offset = end;
        Ok(())
    }

    /// Reads and describes the next chunk. Returns whether more may follow.
    pub(super) fn read_chunk(&mut self) -> Result<bool, StreamError> {
        let filled = self.fill();
        let ends = self.measure()?;
        let read = self.records.span().end;
        let bytes = self.file.bytes;
        match filled {
            Filled::Broken(error) => Err(error),
            Filled::Full => {
                self.push_chunk_to(read, &ends)?;
                Ok(true)
            }
            Filled::Ended => {
                self.push_chunk_to(bytes, &ends)?;
                Ok(false)
            }
        }
    }
}
