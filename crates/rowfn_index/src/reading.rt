//! An index, as it is read.
ghost use Rattle.std.specs.Prelude.{◌≡◌, []};
ghost use Rattle.csv.specs.Reading.{reader_source};
ghost use Rattle.csv.specs.Records.{fields_of};
ghost use Rattle.rowfn_index.specs.Heads.{IsIndexFormat};

mod chunks;

use crate::error::IndexError;
use crate::head::{FileFacts, IndexHead, IndexedColumn, index_format};
use crate::writing::{TITLE, VERSION};
pub use chunks::{ChunkTable, read_chunks};
use rowfn_csv::{ByteRecord, FoundRecord, Records};
use std::alloc::Global;
use std::io::Read;
use std::str;

/// The lines of an index before its chunks.
pub(crate) const HEAD_LINES: u64 = 5;

/// The text of a field; empty where there is none, or it is no text.
fn text_at(record: &ByteRecord, place: usize) -> &str {
    str::from_utf8(record.get(place).unwrap_or(&[])).unwrap_or("")
}

/// The number of a field.
fn number_at(record: &ByteRecord, place: usize, line: u64) -> Result<u64, IndexError> {
    match text_at(record, place).parse::<u64>() {
        Ok(number) => Ok(number),
        Err(_) => Err(IndexError::Line(line)),
    }
}

/// Reads the next line of an index, whose first field is that.
fn read_line<R: Read>(
    records: &mut Records<'_, R>,
    title: &str,
    line: u64,
) -> Result<(), IndexError> {
    match records.read_record() {
        FoundRecord::Record if text_at(records.record(), 0) == title && !records.is_open() => Ok(
            (),
        ),
        FoundRecord::Record | FoundRecord::End if line == 1 => Err(IndexError::NoIndex),
        _ => Err(IndexError::Line(line)),
    }
}

/// The texts of the fields of a line after the first.
fn words_in(alloc: Global, record: &ByteRecord) -> Result<Vec<String>, IndexError> {
    let mut words = Vec::new(alloc);
    for place in 1..record.len() {
        words.push(String::from_str(alloc, text_at(record, place))?)?;
    }
    Ok(words)
}

/// The columns of a line, of which each has three fields.
fn columns_in(
    alloc: Global,
    record: &ByteRecord,
    line: u64,
) -> Result<Vec<IndexedColumn>, IndexError> {
    let count = record.len() / 3;
    if record.len() % 3 != 1 {
        return Err(IndexError::Line(line));
    }
    let mut columns = Vec::new(alloc);
    for number in 0..count {
        let name = number.saturating_mul(3).saturating_add(1);
        let place = name.saturating_add(1);
        let dtype = name.saturating_add(2);
        columns.push(IndexedColumn {
            name: String::from_str(alloc, text_at(record, name))?,
            place: number_at(record, place, line)? as usize,
            dtype: String::from_str(alloc, text_at(record, dtype))?,
        })?;
    }
    Ok(columns)
}

/// The records of an index, none of them read.
pub fn index_records<R: Read>(alloc: Global, reader: R) -> Records<'static, R>
    ensures format { IsIndexFormat result.format }
    ensures reader { (reader_source result.reader).inner ≡ reader }
    ensures none_read { fields_of result.last ≡ [] }
{
    Records::new(alloc, index_format(), usize::MAX, reader)
}

/// Reads an index up to its chunks. Fails where it is none of this version.
pub fn read_head<R: Read>(
    alloc: Global,
    records: &mut Records<'_, R>,
) -> Result<IndexHead, IndexError> {
    read_line(records, TITLE, 1)?;
    let version = text_at(records.record(), 1);
    if version != VERSION {
        return Err(IndexError::OtherVersion(String::from_str(alloc, version)?));
    }
    read_line(records, "options", 2)?;
    let words = words_in(alloc, records.record())?;
    read_line(records, "file", 3)?;
    let file = FileFacts {
        bytes: number_at(records.record(), 1, 3)?,
        header_bytes: number_at(records.record(), 2, 3)?,
        header_digest: number_at(records.record(), 3, 3)?,
    };
    read_line(records, "columns", 4)?;
    let columns = columns_in(alloc, records.record(), 4)?;
    read_line(records, "offset", HEAD_LINES)?;
    Ok(IndexHead {
        words,
        file,
        columns,
    })
}
