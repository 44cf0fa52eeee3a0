//! The records of the input, one at a time, each with its bytes.
ghost use Rattle.std.specs.Prelude.{◌≡◌, ◌≢◌, ◌≤◌, ◌∷◌, [], ◌++◌, ◌&&◌, Bool, not, List, map};
ghost use Rattle.std.specs.Prelude.{OnOk, IsSome, None, true, false, unwrap_or, MatchBool};
ghost use Rattle.csv.specs.Records.{fields_of};
ghost use Rattle.csv.specs.Reading.{reader_source};
ghost use Rattle.rowfn_csv.specs.KeptLines.{line_of, last_bytes, is_ended};
ghost use Rattle.rowfn_csv.specs.Comments.{BeginsLines};
ghost use Rattle.rowfn_csv.specs.Reads.{ReadsOne, KeepsFormat, HasLineEnd, bytes_behind};
ghost use Rattle.rowfn_csv.specs.Reads.{IsNoComment};
ghost use Rattle.rowfn_csv.specs.Records.{Field, SaysFields, field_taken, field_spelled};
ghost use Rattle.rowfn_csv.specs.Records.{has_surplus};
ghost use Rattle.rowfn_csv.specs.declared.records.RecordError.TheVariants.{OutOfMemory};

mod blank_lines;
mod spans;

use self::blank_lines::Ahead;
use crate::batch::Batch;
use crate::fields::{add_fields, has_surplus};
use crate::format::Format;
use crate::raw::{Quotes, from_record, has_line_end, is_closed, without_line_end};
use crate::tee::Tee;
use crate::truths::{Chosen, Spelled};
use csv::{ByteRecord, Error, ErrorKind, Reader, ReaderBuilder};
use std::alloc::{AllocError, Global};
use std::io::{self, Read};

/// Where a record lies in the input, counted in bytes: from its first field up to the end of its
/// line.
#[derive(Clone, Copy)]
pub struct Span {
    pub start: u64,
    pub end: u64,
}

/// Why no record could be read.
#[derive(Drop)]
pub enum RecordError {
    /// The reader failed.
    Io(io::Error),
    /// Memory ran out.
    OutOfMemory,
}

/// What a read found. It is small, since it is handed on with each record; what failed stands
/// beside the records.
#[derive(Clone, Copy, PartialEq, Eq)]
pub enum FoundRecord {
    /// A record, or a line without a byte that is one.
    Record,
    /// The end of the input.
    End,
    /// No record could be read: `take_error` tells why.
    Failed,
}

/// The records of the input. The last one that was read stands here.
#[derive(Drop)]
pub struct Records<'a, R> {
    reader: Reader<Tee<R>>,
    last: ByteRecord,
    span: Span,
    format: Format<'a>,
    quotes: Quotes,
    ahead: Ahead,
    limit: usize,
    is_outgrown: bool,
    error: Option<RecordError>,
}

/// Why a read failed.
fn read_error(error: Error) -> RecordError {
    match error.into_kind() {
        ErrorKind::Io(error) => RecordError::Io(error),
        _ => RecordError::OutOfMemory,
    }
}

/// Whether a field of a record is longer than a limit.
#[inline(always)]
fn is_outgrown(row: &ByteRecord, limit: usize) -> bool {
    row.as_slice().len() > limit && has_longer(row, limit)
}

#[cold]
#[inline(never)]
fn has_longer(row: &ByteRecord, limit: usize) -> bool {
    for place in 0..row.len() {
        if row.get(place).is_some_and(|field| field.len() > limit) {
            return true;
        }
    }
    false
}

impl<'a, R: Read> Records<'a, R> {
    /// The records of a reader, whose fields have so many bytes at most. Nothing is read yet.
    pub fn new(alloc: Global, format: Format<'a>, limit: usize, reader: R) -> Records<'a, R>
        ensures format { (result.format ≡ format.entry) × (result.limit ≡ limit) }
        ensures reader { (reader_source result.reader).inner ≡ reader }
        ensures lines { BeginsLines format.entry.delimiter format.entry.comment
            (reader_source result.reader).lines }
        ensures none_read { (fields_of result.last ≡ []) × (result.is_outgrown ≡ false)
            × (result.span ≡ record { start = 0; end = 0 }) × (result.error ≡ None) }
    {
        let reader = ReaderBuilder::new()
            .delimiter(format.delimiter)
            .has_headers(false)
            .flexible(true)
            .from_reader(alloc, Tee::new(alloc, reader, &format, limit));
        Records {
            reader,
            last: ByteRecord::new(alloc),
            span: Span { start: 0, end: 0 },
            format,
            quotes: Quotes::new(alloc),
            ahead: Ahead::new(alloc),
            limit,
            is_outgrown: false,
            error: None,
        }
    }

    /// Reads the next record, or the next blank line where that is one. Skips comments: lines that
    /// begin with the format's comment byte, outside quotes, up to the end of the line.
    #[inline(always)]
    pub fn read(&mut self) -> FoundRecord
        ensures reads { ReadsOne self.old self.new result }
        ensures no_comment { self.old.format.blank_rows ≡ false → IsNoComment result self.new }
    {
        if self.format.blank_rows {
            self.read_with_blank_lines()
        } else {
            self.read_record()
        }
    }

    /// Why the last read failed.
    pub fn take_error(&mut self) -> RecordError
        ensures error { result ≡ unwrap_or self.old.error OutOfMemory }
        ensures kept { self.new ≡ record self.old { error = None } }
    {
        self.error.take().unwrap_or(RecordError::OutOfMemory)
    }

    /// Reads the next record after blank lines and comments. One of which a field is too long is
    /// not read to its end.
    #[inline(always)]
    pub fn read_record(&mut self) -> FoundRecord
        ensures reads { ReadsOne self.old self.new result }
        ensures no_comment { IsNoComment result self.new }
    {
        let start = self.reader.position().byte;
        self.reader.get_ref().begin_record(start);
        match self.reader.read_byte_record(&mut self.last) {
            Ok(true) => self.is_outgrown = is_outgrown(&self.last, self.limit),
            Ok(false) => return FoundRecord::End,
            Err(error) => {
                if !self.note(error) {
                    return FoundRecord::Failed;
                }
            }
        }
        self.span = self.span_of(start, self.reader.position().byte);
        FoundRecord::Record
    }

    /// Notes why a read failed; answers whether there is a record all the same, of which a field is
    /// too long.
    #[cold]
    #[inline(never)]
    fn note(&mut self, error: Error) -> bool
        ensures kept { KeepsFormat self.old self.new }
        ensures outgrown { result ≡ true → self.new.error ≡ self.old.error }
        ensures failed { result ≡ false → IsSome self.new.error }
    {
        if self.reader.get_ref().is_outgrown() {
            self.is_outgrown = true;
            return true;
        }
        self.error = Some(read_error(error));
        false
    }

    /// Whether a field of the last record is too long: the record is no row.
    pub fn is_outgrown(&self) -> bool
        ensures { result ≡ self.now.is_outgrown }
    {
        self.is_outgrown
    }

    /// Whether no record is there behind the last one, as far as the input was read: the next one
    /// is yet to come, or its end is.
    pub fn is_drained(&self) -> bool
        ensures { MatchBool result
            (¬ HasLineEnd self.now.format.delimiter (bytes_behind self.now))
            (HasLineEnd self.now.format.delimiter (bytes_behind self.now)) }
    {
        let rest = self.reader.get_ref().from(self.span.end);
        !has_line_end(
            from_record(rest, self.format.comment),
            self.format.delimiter,
        )
    }

    /// The fields of the last record.
    pub fn record(&self) -> &ByteRecord
        ensures { result.now ≡ self.now.last }
    {
        &self.last
    }

    /// Where the last record lies.
    pub fn span(&self) -> Span
        ensures { result ≡ self.now.span }
    {
        self.span
    }

    /// The bytes of a record that is still kept.
    pub fn bytes(&self, span: Span) -> &[u8]
        ensures { result.now ≡ line_of self.now span }
    {
        self.reader.get_ref().between(span.start, span.end)
    }

    /// The records that are given from here on are kept, and none before them. Answers where they
    /// begin in the input, counted in bytes.
    pub fn keep_from_here(&self) -> u64
        ensures { result ≤ self.now.span.end }
    {
        let place = self.reader.position().byte.min(self.span.end);
        self.reader.get_ref().keep_from(place);
        place
    }

    /// Whether the last record ends within quotes: it then is the input's last, and no read behind
    /// it tells so.
    #[inline(always)]
    pub fn is_open(&self) -> bool
        ensures { (closed : Bool) → (said : List Field) → self.now.format.delimiter ≢ 34
            → SaysFields self.now.format.delimiter closed (last_bytes self.now) said
            → result ≡ (is_ended self.now && not closed) }
    {
        if !self.reader.get_ref().is_ended() {
            return false;
        }
        let raw = without_line_end(self.bytes(self.span));
        !is_closed(raw, self.format.delimiter)
    }

    /// Whether the last record has a field past that many which is not empty.
    pub fn has_surplus(&self, width: usize) -> bool
        ensures { result ≡ has_surplus (fields_of self.now.last) width }
    {
        has_surplus(&self.last, width)
    }

    /// Adds the fields of the last record at those places to the batch, as a row. A field past the
    /// record's end is null where records are fitted, and else an empty text. Fails only where an
    /// allocation fails.
    #[inline(always)]
    pub fn add_to(&mut self, batch: &mut Batch, places: &[usize]) -> Result<(), AllocError>
        ensures fields { (closed : Bool) → (said : List Field) → self.old.format.delimiter ≢ 34
            → SaysFields self.old.format.delimiter closed (last_bytes self.old) said
            → OnOk result (batch.new.fields ≡ batch.old.fields
            ++ map (field_taken self.old.format (fields_of self.old.last) said) places.now) }
        ensures spans { OnOk result (batch.new.spans ≡ batch.old.spans ++ (self.old.span ∷ [])) }
    {
        self.add_columns_to(batch, places)
    }

    /// Adds the fields of the last record to the batch, as `add_to` does, but truth values as
    /// `true` and `false` where a column's may stand in any spelling. Refused only for want of
    /// memory.
    pub fn add_spelled_to(
        &mut self,
        batch: &mut Batch,
        columns: &[Spelled],
    ) -> Result<(), AllocError>
        ensures fields { (closed : Bool) → (said : List Field) → self.old.format.delimiter ≢ 34
            → SaysFields self.old.format.delimiter closed (last_bytes self.old) said
            → OnOk result (batch.new.fields ≡ batch.old.fields
            ++ map (field_spelled self.old.format (fields_of self.old.last) said) columns.now) }
        ensures spans { OnOk result (batch.new.spans ≡ batch.old.spans ++ (self.old.span ∷ [])) }
    {
        self.add_columns_to(batch, columns)
    }

    /// Adds the fields of the last record in those columns to the batch, as a row.
    #[inline(always)]
    fn add_columns_to<C: Chosen>(
        &mut self,
        batch: &mut Batch,
        columns: &[C],
    ) -> Result<(), AllocError>
        ensures fields { (closed : Bool) → (said : List Field) → self.old.format.delimiter ≢ 34
            → SaysFields self.old.format.delimiter closed (last_bytes self.old) said
            → OnOk result (batch.new.fields ≡ batch.old.fields
            ++ map (λ c. field_spelled self.old.format (fields_of self.old.last) said
            (C.spelled c)) columns.now) }
        ensures spans { OnOk result (batch.new.spans ≡ batch.old.spans ++ (self.old.span ∷ [])) }
    {
        self.quotes.forget();
        add_fields(
            &self.last,
            self.reader.get_ref(),
            self.span,
            &self.format,
            &mut self.quotes,
            batch,
            columns,
        )?;
        batch.end_row(self.span)
    }
}
