//! Cases of expressions over columns with kinds, whose cells are written as in files.

use std::alloc::Global;
use std::str;
use vortex_columns::{Cell, Column, ExecutionCtx, PType, StructFields, VortexError, VortexResult};
use vortex_expressions::{LogicalTree, read_logical};
use vortex_logical::cells::{read_cell, write_cell};
use vortex_logical::kind::{Kind, kind_named};

/// Columns, their names and types, and their kinds.
#[derive(Drop)]
struct LogicalBatch {
    row_count: usize,
    scope: StructFields,
    columns: Vec<Column>,
    kinds: Vec<Kind>,
}

/// The stored integer of a cell; E12 if the cell is none of the kind.
fn stored(kind: Kind, cell: &str) -> VortexResult<Option<i64>> {
    if cell == "null" {
        return Ok(None);
    }
    let number = match kind {
        Kind::Plain => cell.parse::<i64>().ok(),
        _ => read_cell(kind, cell.as_bytes()),
    };
    match number {
        Some(number) => Ok(Some(number)),
        None => Err(VortexError::InvalidColumn),
    }
}

fn narrow(number: Option<i64>) -> VortexResult<Option<i32>> {
    match number {
        None => Ok(None),
        Some(number) => match i32::try_from(number) {
            Ok(number) => Ok(Some(number)),
            Err(_) => Err(VortexError::InvalidColumn),
        },
    }
}

fn wide_column(alloc: Global, kind: Kind, cells: &str) -> VortexResult<Column> {
    let mut rows = Vec::new(alloc);
    for cell in cells.split(' ') {
        rows.push(stored(kind, cell)?)?;
    }
    Column::of_ints::<i64>(alloc, &rows)
}

fn narrow_column(alloc: Global, kind: Kind, cells: &str) -> VortexResult<Column> {
    let mut rows = Vec::new(alloc);
    for cell in cells.split(' ') {
        rows.push(narrow(stored(kind, cell)?)?)?;
    }
    Column::of_ints::<i32>(alloc, &rows)
}

fn text_column(alloc: Global, cells: &str) -> VortexResult<Column> {
    let mut rows = Vec::new(alloc);
    for cell in cells.split(' ') {
        rows.push(if cell == "null" { None } else { Some(cell) })?;
    }
    Column::of_texts(alloc, &rows)
}

/// A column of a kind, or of `i32`, `i64` or `utf8`.
fn column_of(alloc: Global, name: &str, cells: &str) -> VortexResult<(Kind, Column)> {
    if name == "utf8" {
        return Ok((Kind::Plain, text_column(alloc, cells)?));
    }
    let kind = match kind_named(name) {
        Some(kind) => kind,
        None => Kind::Plain,
    };
    match kind.stored_ptype() {
        Some(PType::I32) => Ok((kind, narrow_column(alloc, kind, cells)?)),
        None if name == "i32" => Ok((kind, narrow_column(alloc, kind, cells)?)),
        _ => Ok((kind, wide_column(alloc, kind, cells)?)),
    }
}

/// Columns of lines, each a name, a kind and cells.
fn read_columns(alloc: Global, text: &str) -> VortexResult<LogicalBatch> {
    let mut batch = LogicalBatch {
        row_count: 0,
        scope: StructFields::new(alloc),
        columns: Vec::new(alloc),
        kinds: Vec::new(alloc),
    };
    for line in text.split('\n') {
        let Some((name, rest)) = line.split_once(' ') else {
            return Err(VortexError::InvalidColumn);
        };
        let Some((kind, cells)) = rest.split_once(' ') else {
            return Err(VortexError::InvalidColumn);
        };
        if batch.scope.find(name).is_some() {
            return Err(VortexError::InvalidColumn);
        }
        let (kind, column) = column_of(alloc, kind, cells)?;
        batch.row_count = column.len();
        let dtype = column.dtype().try_clone(alloc)?;
        batch.scope.push(String::from_str(alloc, name)?, dtype)?;
        batch.columns.push(column)?;
        batch.kinds.push(kind)?;
    }
    Ok(batch)
}

/// A cell, as it is written in files.
fn push_cell(out: &mut Vec<u8>, kind: Kind, cell: Cell<'_>) -> VortexResult<()> {
    let number = match cell {
        Cell::Int(number) => i64::try_from(number).ok(),
        _ => None,
    };
    match number {
        Some(number) => if !write_cell(kind, number, out)? {
            out.extend_from_slice(b"?")?;
        },
        None => out.extend_from_slice(b"null")?,
    }
    Ok(())
}

/// The kind of an answer, and its cells.
fn rows_text(alloc: Global, batch: &LogicalBatch, answer: &LogicalTree) -> VortexResult<String> {
    let mut ctx = ExecutionCtx::new(alloc);
    let column = answer
        .tree
        .execute(&batch.columns, batch.row_count, &mut ctx)?;
    let column = column.into_owned()?;
    if answer.kind == Kind::Plain {
        return column.text(alloc);
    }
    let kind = answer.kind;
    let mut cells = Vec::new(alloc);
    for row in 0..column.len() {
        cells.extend_from_slice(b" ")?;
        push_cell(&mut cells, kind, column.cell(row))?;
    }
    let cells = str::from_utf8(&cells).unwrap_or("");
    Ok(format!(in alloc; "{kind}:{cells}")?)
}

/// The rows of an expression over columns with kinds, or why the text is none.
pub(crate) fn logical_text(alloc: Global, columns: &str, text: &str) -> VortexResult<String> {
    let batch = read_columns(alloc, columns)?;
    match read_logical(alloc, &batch.scope, &batch.kinds, text) {
        Ok(answer) => rows_text(alloc, &batch, &answer),
        Err(error) => Ok(format!(in alloc; "{error}")?),
    }
}
