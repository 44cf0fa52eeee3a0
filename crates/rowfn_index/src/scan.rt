//! The rows of a file, read once, chunk by chunk, to be described by an index.
ghost use Rattle.std.specs.Prelude.{◌≡◌, IfOk};

mod chunks;

use crate::digest::digest_of;
use crate::entries::Entries;
use crate::head::FileFacts;
use crate::range::mark_before;
use rowfn_batches::{RefusedRows, Request, Settings, StreamError, run};
use rowfn_csv::{Batch, ByteRecord, FoundRecord, Records, Span, Spelled};
use std::alloc::Global;
use std::io::{self, Read};
use vortex_columns::StructFields;

/// The rows of a file between two chunks.
#[derive(Drop)]
pub struct Scan<'a, R> {
    alloc: Global,
    settings: Settings<'a>,
    asked: Request<'a>,
    records: Records<'a, R>,
    /// Where the columns are in a row.
    columns: Vec<Spelled>,
    places: Vec<Option<usize>>,
    /// How many fields a row has, once that is known.
    width: Option<usize>,
    file: FileFacts,
    /// How many rows a chunk has, at most.
    chunk_rows: usize,
    /// Where the next chunk begins.
    offset: u64,
    rows_read: u64,
    batch: Batch,
    entries: Entries,
}

/// Runs a stream over bytes from a place of the file on, for the error with which it ends: what a
/// stream would report of them.
fn check_bytes(
    alloc: Global,
    settings: &Settings<'_>,
    asked: &Request<'_>,
    offset: u64,
    bytes: &[u8],
) -> Result<(), StreamError> {
    let settings = Settings {
        picks_rows: true,
        ..*settings
    };
    let mut refused: RefusedRows<io::Sink> = RefusedRows::End;
    run(
        alloc,
        &settings,
        asked,
        None,
        mark_before(offset, bytes).chain(bytes),
        &mut io::sink(),
        &mut refused,
    )?;
    Ok(())
}

/// Reads the header, where there is one. Returns how many bytes of the file that is.
fn read_header<R: Read>(
    settings: &Settings<'_>,
    records: &mut Records<'_, R>,
) -> Result<u64, StreamError> {
    if !settings.header {
        return Ok(0);
    }
    match records.read_record() {
        FoundRecord::Failed => Err(StreamError::from(records.take_error())),
        FoundRecord::Record | FoundRecord::End => Ok(records.span().end),
    }
}

/// The first field of a header that is that name; 0 where there is none.
fn place_named(header: &ByteRecord, name: &str) -> usize {
    for place in 0..header.len() {
        if header.get(place) == Some(name.as_bytes()) {
            return place;
        }
    }
    0
}

/// Where the columns are in a row: where it is said, else where the header has their names.
fn columns_of(
    alloc: Global,
    settings: &Settings<'_>,
    scope: &StructFields,
    said: &[Option<usize>],
    header: &ByteRecord,
) -> Result<Vec<Spelled>, StreamError> {
    let mut columns = Vec::new(alloc);
    for column in 0..scope.len() {
        let place = match said.get(column) {
            Some(Some(place)) => *place,
            _ => place_named(header, scope.name(column)),
        };
        let is_truth = settings.format.any_truths && scope.dtype(column).is_boolean();
        columns.push(Spelled { place, is_truth })?;
    }
    Ok(columns)
}

/// The places of columns.
fn places_of(alloc: Global, columns: &[Spelled]) -> Result<Vec<Option<usize>>, StreamError> {
    let mut places = Vec::new(alloc);
    for column in columns {
        places.push(Some(column.place))?;
    }
    Ok(places)
}

impl<'a, R: Read + Drop> Scan<'a, R> {
    /// Reads the header of a file of so many bytes, of which all columns are asked for. Fails where
    /// a stream would.
    pub fn start(
        alloc: Global,
        settings: &Settings<'a>,
        asked: &Request<'a>,
        bytes: u64,
        chunk_rows: usize,
        reader: R,
    ) -> Result<Scan<'a, R>, StreamError>
        ensures { IfOk result (λ scan. scan.file.bytes ≡ bytes) }
    {
        let mut records = Records::new(alloc, settings.format, settings.max_field, reader);
        let end = read_header(settings, &mut records)?;
        let header = records.bytes(Span { start: 0, end });
        check_bytes(alloc, settings, asked, 0, header)?;
        let header_digest = digest_of(header);
        let scope = &asked.program.scope;
        let columns = columns_of(alloc, settings, scope, asked.places, records.record())?;
        let places = places_of(alloc, &columns)?;
        let width = if settings.header {
            Some(records.record().len())
        } else {
            None
        };
        Ok(Scan {
            alloc,
            settings: *settings,
            asked: *asked,
            records,
            columns,
            places,
            width,
            file: FileFacts {
                bytes,
                header_bytes: end,
                header_digest,
            },
            chunk_rows,
            offset: end,
            rows_read: 0,
            batch: Batch::new(alloc),
            entries: Entries::new(alloc),
        })
    }

    /// What is known of the file.
    pub fn file(&self) -> FileFacts
        ensures { result ≡ self.now.file }
    {
        self.file
    }

    /// The places of the columns, of each one.
    pub fn places(&self) -> &[Option<usize>]
        ensures { result.now ≡ self.now.places.items }
    {
        &self.places
    }

    /// The lines of the chunks that were read.
    pub fn lines(&self) -> &[u8]
        ensures { result.now ≡ self.now.entries.bytes.items }
    {
        &self.entries.bytes
    }

    /// Reads all chunks. Fails where a stream would, with the number of the row.
    pub fn read_all(&mut self) -> Result<(), StreamError> {
        for _turn in 0..u64::MAX {
            if !self.read_chunk()? {
                return Ok(());
            }
        }
        Ok(())
    }
}
