//! The chunks of an index, with what it says of columns.
ghost use Rattle.std.specs.Prelude.{IfOk};
ghost use Rattle.rowfn_index.specs.Chunks.{AreBetween};

use super::HEAD_LINES;
use crate::chunk::Chunk;
use crate::error::IndexError;
use crate::head::{FileFacts, IndexHead};
use crate::writing::FACTS;
use rowfn_batches::{FieldsError, read_columns};
use rowfn_csv::{Batch, FoundRecord, Records};
use std::alloc::Global;
use std::io::Read;
use vortex_columns::{Cell, Column, DType, Nullability, PType, StructFields};
use vortex_pruning::FieldStatistics;

/// The chunks of an index, and what it says of columns in each of them.
#[derive(Drop)]
pub struct ChunkTable {
    pub chunks: Vec<Chunk>,
    pub fields: Vec<FieldStatistics>,
}

/// The type of a count.
fn count_type() -> DType {
    DType::Primitive(PType::U64, Nullability::NonNullable)
}

/// The fields of a chunk before those of its columns.
fn fact_fields(alloc: Global) -> Result<StructFields, IndexError> {
    let truth = DType::Bool(Nullability::NonNullable);
    let [offset, bytes, rows, whole, digest] = FACTS;
    Ok(StructFields::of(
        alloc,
        &[
            (offset, count_type()),
            (bytes, count_type()),
            (rows, count_type()),
            (whole, truth),
            (digest, count_type()),
        ],
    )?)
}

/// The fields of columns: of each its count of nulls, its low end and its high end.
fn end_fields(alloc: Global, scope: &StructFields) -> Result<StructFields, IndexError> {
    let mut names = Vec::new(alloc);
    let mut types = Vec::new(alloc);
    for column in 0..scope.len() {
        let name = scope.name(column);
        let dtype = scope.dtype(column);
        names.push(format!(in alloc; "nulls of {name}")?)?;
        types.push(count_type())?;
        names.push(format!(in alloc; "low of {name}")?)?;
        types.push(
            dtype
                .try_clone(alloc)?
                .with_nullability(Nullability::Nullable),
        )?;
        names.push(format!(in alloc; "high of {name}")?)?;
        types.push(
            dtype
                .try_clone(alloc)?
                .with_nullability(Nullability::Nullable),
        )?;
    }
    Ok(StructFields::try_new(alloc, names, types)?)
}

/// Where the fields of columns are in the line of a chunk; these are their numbers in the index.
fn end_places(alloc: Global, numbers: &[usize]) -> Result<Vec<usize>, IndexError> {
    let mut places = Vec::new(alloc);
    for number in numbers {
        let first = number.saturating_mul(3).saturating_add(FACTS.len());
        places.push(first)?;
        places.push(first.saturating_add(1))?;
        places.push(first.saturating_add(2))?;
    }
    Ok(places)
}

/// Reads the lines of all chunks: their facts, and the fields at those places.
fn read_lines<R: Read>(
    records: &mut Records<'_, R>,
    width: usize,
    facts: &mut Batch,
    ends: &mut Batch,
    places: &[usize],
) -> Result<(), IndexError> {
    for turn in 0..u64::MAX {
        match records.read_record() {
            FoundRecord::Record if records.record().len() == width && !records.is_open() => {}
            FoundRecord::End => return Ok(()),
            _ => return Err(IndexError::Line(turn.saturating_add(HEAD_LINES + 1))),
        }
        records.add_to(facts, &[0, 1, 2, 3, 4])?;
        records.add_to(ends, places)?;
    }
    Ok(())
}

/// The columns of the lines of chunks.
fn columns_in(
    alloc: Global,
    fields: &StructFields,
    batch: &Batch,
) -> Result<Vec<Column>, IndexError> {
    let cells = batch.fields(alloc)?;
    match read_columns(alloc, fields, &[], &cells, batch.len()) {
        Ok(columns) => Ok(columns),
        Err(FieldsError::Misfit { row, .. }) => {
            Err(IndexError::Line((row as u64).saturating_add(HEAD_LINES + 1)))
        }
        Err(_) => Err(IndexError::OutOfMemory),
    }
}

/// The number of a row; 0 where there is none.
fn number_in(columns: &[Column], column: usize, row: usize) -> u64 {
    match columns.get(column) {
        Some(column) if row < column.len() => {
            match column.cell(row) {
                Cell::Int(number) => u64::try_from(number).unwrap_or(0),
                _ => 0,
            }
        }
        _ => 0,
    }
}

/// Whether a row is true.
fn truth_in(columns: &[Column], column: usize, row: usize) -> bool {
    match columns.get(column) {
        Some(column) if row < column.len() => { matches!(column.cell(row), Cell::Bool(true)) }
        _ => false,
    }
}

/// The chunks of a file, one after the other from its header to its end.
fn chunks_in(
    alloc: Global,
    columns: &[Column],
    count: usize,
    file: &FileFacts,
) -> Result<Vec<Chunk>, IndexError>
    ensures { IfOk result
        (λ chunks. AreBetween file.now.header_bytes chunks.items file.now.bytes) }
{
    let mut chunks = Vec::new(alloc);
    let mut end = file.header_bytes;
    for row in 0..count {
        let chunk = Chunk {
            offset: number_in(columns, 0, row),
            bytes: number_in(columns, 1, row),
            rows: number_in(columns, 2, row),
            whole: truth_in(columns, 3, row),
            digest: number_in(columns, 4, row),
        };
        let line = (row as u64).saturating_add(HEAD_LINES + 1);
        if chunk.offset != end {
            return Err(IndexError::Line(line));
        }
        let Some(next) = end.checked_add(chunk.bytes) else {
            return Err(IndexError::Line(line));
        };
        end = next;
        chunks.push(chunk)?;
    }
    if end != file.bytes {
        return Err(IndexError::Line((count as u64).saturating_add(HEAD_LINES + 1)));
    }
    Ok(chunks)
}

/// A copy of a column, if there is one of that number.
fn copied(alloc: Global, columns: &[Column], number: usize) -> Result<Option<Column>, IndexError> {
    match columns.get(number) {
        Some(column) => Ok(Some(column.try_clone(alloc)?)),
        None => Ok(None),
    }
}

/// What is known of the columns of a scope, of which each has three columns.
fn statistics_in(
    alloc: Global,
    scope: &StructFields,
    columns: &[Column],
) -> Result<Vec<FieldStatistics>, IndexError> {
    let mut fields = Vec::new(alloc);
    for field in 0..scope.len() {
        let first = field.saturating_mul(3);
        fields.push(FieldStatistics {
            dtype: scope.dtype(field).try_clone(alloc)?,
            nulls: copied(alloc, columns, first)?,
            low: copied(alloc, columns, first.saturating_add(1))?,
            high: copied(alloc, columns, first.saturating_add(2))?,
        })?;
    }
    Ok(fields)
}

/// Reads the chunks of an index whose head was read, and what it says of the columns of a scope; these
/// are their numbers in the index. Fails where the chunks do not follow one another from the header to
/// the end of the file.
pub fn read_chunks<R: Read>(
    alloc: Global,
    records: &mut Records<'_, R>,
    head: &IndexHead,
    scope: &StructFields,
    numbers: &[usize],
) -> Result<ChunkTable, IndexError>
    ensures { IfOk result (λ table. AreBetween head.now.file.header_bytes table.chunks.items
        head.now.file.bytes) }
{
    let width = head
        .columns
        .len()
        .saturating_mul(3)
        .saturating_add(FACTS.len());
    let places = end_places(alloc, numbers)?;
    let (mut facts, mut ends) = (Batch::new(alloc), Batch::new(alloc));
    read_lines(records, width, &mut facts, &mut ends, &places)?;
    let columns = columns_in(alloc, &fact_fields(alloc)?, &facts)?;
    let chunks = chunks_in(alloc, &columns, facts.len(), &head.file)?;
    let columns = columns_in(alloc, &end_fields(alloc, scope)?, &ends)?;
    let fields = statistics_in(alloc, scope, &columns)?;
    Ok(ChunkTable { chunks, fields })
}
