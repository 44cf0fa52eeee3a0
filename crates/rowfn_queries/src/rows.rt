//! The first rows of an input, and the names of its columns.
ghost use Rattle.std.specs.Prelude.{◌≡◌, ◌≢◌, ◌&&◌, not, Bool, List, IfErr};
ghost use Rattle.csv.specs.Records.{fields_of};
ghost use Rattle.rowfn_csv.specs.KeptLines.{last_bytes, is_ended};
ghost use Rattle.rowfn_csv.specs.Records.{Field, SaysFields};
ghost use Rattle.rowfn_queries.specs.Refusals.{IsOfInput};
ghost use Rattle.rowfn_queries.specs.Samples.{has_width, sampled_as};

use crate::error::{HeaderFault, QueryError};
use crate::places::numbered_place;
use crate::scopes::is_in_names;
use rowfn_csv::{Batch, ByteRecord, FoundRecord, RecordError, Records};
use std::alloc::{AllocError, Global};
use std::io::Read;
use std::str;

/// From how many rows types are taken, at most.
pub const SAMPLED_ROWS: usize = 8192;

/// With how many bytes of the input those rows are enough.
pub const SAMPLED_BYTES: u64 = 1 << 23;

/// Rows, and where the columns stand in them that are wanted.
#[derive(Drop)]
pub(crate) struct Rows {
    /// The names of the wanted columns, each once.
    pub(crate) names: Vec<String>,
    pub(crate) places: Vec<usize>,
    /// How many fields a row has.
    pub(crate) width: usize,
    /// The fields of the wanted columns.
    pub(crate) batch: Batch,
    /// The number of each row in the input, counted from 1.
    pub(crate) numbers: Vec<usize>,
    /// How many records were read behind the header.
    pub(crate) records_read: usize,
    /// Whether they are as many as types are taken from, at most: others may follow.
    pub(crate) is_full: bool,
}

impl Rows {
    /// No columns and no rows. Takes no memory.
    fn of_width(alloc: Global, width: usize) -> Rows {
        Rows {
            names: Vec::new(alloc),
            places: Vec::new(alloc),
            width,
            batch: Batch::new(alloc),
            numbers: Vec::new(alloc),
            records_read: 0,
            is_full: false,
        }
    }

    /// Adds the last record.
    fn add_last<R: Read>(&mut self, records: &mut Records<'_, R>) -> Result<(), AllocError> {
        records.add_to(&mut self.batch, &self.places)?;
        self.numbers.push(self.records_read)?;
        Ok(())
    }
}

/// What a read that failed ends.
fn unread(error: RecordError) -> QueryError
    ensures { IsOfInput result }
{
    match error {
        RecordError::Io(error) => QueryError::Reading(error),
        RecordError::OutOfMemory => QueryError::OutOfMemory,
    }
}

/// Adds the names of a header, each once; returns where the wanted ones stand.
fn push_header(
    alloc: Global,
    header: &ByteRecord,
    wanted: &[String],
    names: &mut Vec<String>,
) -> Result<Vec<usize>, AllocError> {
    let mut places = Vec::new(alloc);
    for place in 0..header.len() {
        let Some(field) = header.get(place) else {
            continue;
        };
        let Ok(name) = str::from_utf8(field) else {
            continue;
        };
        if is_in_names(names, name) {
            continue;
        }
        names.push(String::from_str(alloc, name)?)?;
        if is_in_names(wanted, name) {
            places.push(place)?;
        }
    }
    Ok(places)
}

/// The names at places of a header.
fn names_at(
    alloc: Global,
    header: &ByteRecord,
    places: &[usize],
) -> Result<Vec<String>, AllocError> {
    let mut names = Vec::new(alloc);
    for place in places {
        let field = header.get(*place).unwrap_or(&[]);
        names.push(String::from_str(alloc, str::from_utf8(field).unwrap_or(""))?)?;
    }
    Ok(names)
}

/// Reads a header. Refused where there is none.
fn read_header<R: Read>(records: &mut Records<'_, R>, max_field: usize) -> Result<(), QueryError>
    ensures { IfErr result IsOfInput }
{
    match records.read_record() {
        FoundRecord::End => Err(QueryError::Header(HeaderFault::Missing)),
        FoundRecord::Record if records.is_outgrown() => {
            Err(QueryError::Header(HeaderFault::TooLong(max_field)))
        }
        FoundRecord::Record if records.is_open() => Err(QueryError::Header(HeaderFault::Open)),
        FoundRecord::Record => Ok(()),
        FoundRecord::Failed => Err(unread(records.take_error())),
    }
}

/// Reads the header; adds its names.
pub(crate) fn read_named<R: Read>(
    alloc: Global,
    records: &mut Records<'_, R>,
    max_field: usize,
    wanted: &[String],
    names: &mut Vec<String>,
) -> Result<Rows, QueryError>
    ensures { IfErr result IsOfInput }
{
    read_header(records, max_field)?;
    let mut rows = Rows::of_width(alloc, records.record().len());
    rows.places = push_header(alloc, records.record(), wanted, names)?;
    rows.names = names_at(alloc, records.record(), &rows.places)?;
    Ok(rows)
}

/// `c1` for the first column of an input without a header, `c2` for the second.
fn numbered_name(alloc: Global, place: usize) -> Result<String, AllocError> {
    let number = place.saturating_add(1);
    format!(in alloc; "c{number}")
}

/// Adds the names `c1`, `c2`, .. of so many columns; the rows have those that are wanted.
fn push_numbered(
    alloc: Global,
    width: usize,
    wanted: &[String],
    names: &mut Vec<String>,
) -> Result<Rows, AllocError> {
    let mut rows = Rows::of_width(alloc, width);
    for place in 0..width {
        let name = numbered_name(alloc, place)?;
        if is_in_names(wanted, name.as_str()) {
            rows.places.push(place)?;
            rows.names.push(String::from_str(alloc, name.as_str())?)?;
        }
        names.push(name)?;
    }
    Ok(rows)
}

/// The wanted columns `c1`, `c2`, .. of an input that begins with no row.
fn needed_numbered(alloc: Global, wanted: &[String]) -> Result<Rows, AllocError> {
    let mut rows = Rows::of_width(alloc, 0);
    for name in wanted {
        if let Some(place) = numbered_place(name.as_str()) {
            rows.places.push(place)?;
            rows.names.push(String::from_str(alloc, name.as_str())?)?;
        }
    }
    Ok(rows)
}

/// Reads the first row of an input without a header; adds the names `c1`, `c2`, .. of its columns.
pub(crate) fn read_numbered<R: Read>(
    alloc: Global,
    records: &mut Records<'_, R>,
    wanted: &[String],
    names: &mut Vec<String>,
) -> Result<Rows, QueryError>
    ensures { IfErr result IsOfInput }
{
    let is_row = match records.read() {
        FoundRecord::Failed => return Err(unread(records.take_error())),
        FoundRecord::End => false,
        FoundRecord::Record => !records.is_open() && !records.is_outgrown(),
    };
    if !is_row {
        return Ok(needed_numbered(alloc, wanted)?);
    }
    let mut rows = push_numbered(alloc, records.record().len(), wanted, names)?;
    rows.records_read = 1;
    rows.add_last(records)?;
    Ok(rows)
}

/// What a record behind the header is to the first rows.
#[derive(Clone, Copy)]
pub(crate) enum Sampled {
    /// One of them.
    Row,
    /// A bad row that is left out of them.
    LeftOut,
    /// None of them, and no other follows.
    End,
}

/// Whether the last record has so many fields; or, where records are fitted, fewer, or more of which
/// those past that many are empty.
fn has_width<R: Read>(records: &Records<'_, R>, width: usize, fits: bool) -> bool
    ensures { result ≡ has_width fits width (fields_of records.now.last) }
{
    records.record().len() == width || fits && !records.has_surplus(width)
}

/// What the last record is to the first rows, of so many fields. `fits` says whether shorter records
/// are rows, and longer ones whose further fields are empty; `skips` whether bad rows are left out.
fn sampled_as<R: Read>(records: &Records<'_, R>, width: usize, fits: bool, skips: bool) -> Sampled
    ensures { (closed : Bool) → (said : List Field) → records.now.format.delimiter ≢ 34
        → SaysFields records.now.format.delimiter closed (last_bytes records.now) said
        → result ≡ sampled_as skips (has_width fits width (fields_of records.now.last))
        (is_ended records.now && not closed) records.now.is_outgrown }
{
    if records.is_open() || records.is_outgrown() {
        Sampled::End
    } else if has_width(records, width, fits) {
        Sampled::Row
    } else if skips {
        Sampled::LeftOut
    } else {
        Sampled::End
    }
}

/// Adds the rows that follow, at most so many, and no more after the record that ends with enough
/// bytes: all up to the first record that is no row, or all that are rows, where `skips` says that bad
/// ones are left out.
pub(crate) fn read_rows<R: Read>(
    records: &mut Records<'_, R>,
    rows: &mut Rows,
    fits: bool,
    skips: bool,
) -> Result<(), RecordError> {
    for _ in 0..SAMPLED_BYTES {
        match records.read() {
            FoundRecord::Record => {}
            FoundRecord::End => return Ok(()),
            FoundRecord::Failed => return Err(records.take_error()),
        }
        rows.records_read = rows.records_read.saturating_add(1);
        match sampled_as(records, rows.width, fits, skips) {
            Sampled::Row => {
                if rows.add_last(records).is_err() {
                    return Err(RecordError::OutOfMemory);
                }
            }
            Sampled::LeftOut => {}
            Sampled::End => return Ok(()),
        }
        if rows.batch.len() >= SAMPLED_ROWS || records.span().end >= SAMPLED_BYTES {
            rows.is_full = true;
            return Ok(());
        }
    }
    Ok(())
}
