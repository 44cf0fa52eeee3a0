//! The index of a file's rows, written.

use crate::failure::ProgramError;
use crate::queries::format_with;
use crate::streams::{advised, settings_of};
use rowfn_batches::{Request, Settings, StreamError};
use rowfn_csv::{ByteRecord, Format, FoundRecord, Records};
use rowfn_index::{IndexHead, IndexedColumn, Scan, reading_words, write_head};
use rowfn_options::Options;
use rowfn_queries::{Again, ColumnType, Query, QueryError, Question, Words, read_query};
use std::alloc::{AllocError, Global};
use std::cell::Cell;
use std::io::{self, Read, Seek, SeekFrom, Write};
use std::rt::Files;
use std::{fs, str};
use vortex_logical::kind::Kind;
use vortex_program::Program;

/// Whether a field of a record is a name that no other field is.
fn is_sole(record: &ByteRecord, place: usize) -> bool {
    for other in 0..record.len() {
        if other != place && record.get(other) == record.get(place) {
            return false;
        }
    }
    true
}

/// Adds a name to a list of answers, in double quotes.
fn push_name(list: &mut String, name: &str) -> Result<(), AllocError> {
    if !list.is_empty() {
        list.push_str(", ")?;
    }
    list.push_str("\"")?;
    for (turn, part) in name.split('"').enumerate() {
        if turn != 0 {
            list.push_str("\"\"")?;
        }
        list.push_str(part)?;
    }
    list.push_str("\"")
}

/// The columns of a first record, as a list of answers: those that a header names once, or `c1`,
/// `c2`, .. without a header.
fn list_of(alloc: Global, record: &ByteRecord, header: bool) -> Result<String, AllocError> {
    let mut list = String::new(alloc);
    for place in 0..record.len() {
        if !header {
            let number = place.saturating_add(1);
            push_name(&mut list, format!(in alloc; "c{number}")?.as_str())?;
            continue;
        }
        let Ok(name) = str::from_utf8(record.get(place).unwrap_or(&[])) else {
            continue;
        };
        if is_sole(record, place) {
            push_name(&mut list, name)?;
        }
    }
    Ok(list)
}

/// All columns that take their types from the first rows, as a list of answers; a constant where
/// there are none.
fn all_columns<R: Read>(
    alloc: Global,
    options: &Options<'_>,
    format: Format<'_>,
    reader: &mut Again<R>,
) -> Result<String, AllocError> {
    let mut records = Records::new(alloc, format, options.max_field as usize, reader);
    let found = if options.header {
        records.read_record()
    } else {
        records.read()
    };
    let is_read = options.infers && found == FoundRecord::Record && !records.is_outgrown();
    if is_read {
        let list = list_of(alloc, records.record(), options.header)?;
        if !list.is_empty() {
            return Ok(list);
        }
    }
    String::from_str(alloc, "true")
}

/// The columns of a program at their places, with the texts of their types.
fn indexed(
    alloc: Global,
    program: &Program,
    places: &[Option<usize>],
) -> Result<Vec<IndexedColumn>, StreamError> {
    let mut columns = Vec::new(alloc);
    for number in 0..program.scope.len() {
        columns.push(IndexedColumn {
            name: String::from_str(alloc, program.scope.name(number))?,
            place: places.get(number).copied().unwrap_or(None).unwrap_or(0),
            dtype: type_text(alloc, program, number)?,
        })?;
    }
    Ok(columns)
}

/// The text of the type of a program's column; empty where there is none of that number.
pub(crate) fn type_text(
    alloc: Global,
    program: &Program,
    number: usize,
) -> Result<String, StreamError> {
    if number >= program.scope.len() {
        return Ok(String::new(alloc));
    }
    let Ok(dtype) = program.scope.dtype(number).try_clone(alloc) else {
        return Err(StreamError::OutOfMemory);
    };
    let column = ColumnType {
        dtype,
        kind: program.kinds.get(number).copied().unwrap_or(Kind::Plain),
    };
    Ok(format!(in alloc; "{column}")?)
}

/// The text of the index of rows, of which all columns are asked for.
fn text_of<R: Read + Drop>(
    alloc: Global,
    options: &Options<'_>,
    settings: &Settings<'_>,
    question: &Question,
    bytes: u64,
    reader: R,
) -> Result<Vec<u8>, StreamError> {
    let asked = Request {
        program: &question.program,
        places: &question.places,
    };
    let rows = options.chunk_rows as usize;
    let mut scan = Scan::start(alloc, settings, &asked, bytes, rows, reader)?;
    scan.read_all()?;
    let head = IndexHead {
        words: reading_words(alloc, &settings.format, settings.header, settings.max_field)?,
        file: scan.file(),
        columns: indexed(alloc, &question.program, scan.places())?,
    };
    let mut text = write_head(alloc, &head)?;
    text.extend_from_slice(scan.lines())?;
    Ok(text)
}

/// The query of a list of columns, with the declared ones.
fn query_of_columns<'a, R: Read>(
    alloc: Global,
    options: &Options<'_>,
    format: Format<'_>,
    columns: Option<&'a str>,
    list: Option<&'a str>,
    reader: &mut Again<R>,
) -> Result<Query, QueryError> {
    let words = Words {
        columns,
        answers: list,
        condition: None,
        header: options.header,
        infers: options.infers,
        skips: options.skips,
    };
    read_query(alloc, words, format, options.max_field as usize, reader)
}

/// The text of the index of the rows of a reader, which has so many bytes.
fn index_of<R: Read + Drop>(
    alloc: Global,
    options: &Options<'_>,
    bytes: u64,
    reader: R,
) -> Result<Vec<u8>, ProgramError> {
    let null = String::from_str(alloc, options.null)?;
    let rows = Cell::new(0);
    let format = format_with(options, null.as_bytes(), &options.more_nulls);
    let settings = settings_of(options, format, 1, &rows);
    let mut first = Again::new(alloc, reader);
    let list = all_columns(alloc, options, format, &mut first)?;
    first.rewind(None);
    let mut reader = Again::new(alloc, first);
    let query = query_of_columns(
        alloc,
        options,
        format,
        options.columns,
        Some(list.as_str()),
        &mut reader,
    )?;
    match &query.answers {
        Some(question) if question.program.scope.len() != 0 => {
            match text_of(alloc, options, &settings, question, bytes, reader) {
                Ok(text) => Ok(text),
                Err(error) => Err(advised(&query.inferred, error)),
            }
        }
        _ => Err(ProgramError::NoColumns),
    }
}

/// How many bytes a file has; it then is at its start.
pub(crate) fn length_of<F: Seek>(file: &mut F) -> io::Result<u64> {
    let bytes = file.seek(SeekFrom::End(0))?;
    file.seek(SeekFrom::Start(0))?;
    Ok(bytes)
}

/// Writes a file.
fn write_file(
    files: &(impl Files + AllocGlobal),
    name: &str,
    bytes: &[u8],
) -> Result<(), ProgramError> {
    let written = match fs::create(files, name) {
        Ok(mut file) => file.write_all(bytes),
        Err(error) => Err(error),
    };
    match written {
        Ok(()) => Ok(()),
        Err(error) => {
            let name = String::from_str(files.alloc(), name)?;
            Err(ProgramError::Reporting(name, error))
        }
    }
}

/// Writes the index of the rows of the file that the options name. Where a row is bad, none is.
pub(crate) fn write_index(
    files: &(impl Files + AllocGlobal),
    options: &Options<'_>,
    input: &str,
    name: &str,
) -> Result<(), ProgramError> {
    let alloc = files.alloc();
    let opened = match fs::open(files, input) {
        Ok(mut file) => match length_of(&mut file) {
            Ok(bytes) => Ok((file, bytes)),
            Err(error) => Err(error),
        },
        Err(error) => Err(error),
    };
    match opened {
        Ok((file, bytes)) => {
            let text = index_of(alloc, options, bytes, file)?;
            write_file(files, name, &text)
        }
        Err(error) => Err(ProgramError::Input(String::from_str(alloc, input)?, error)),
    }
}
