//! Columns of a kind, read from fields, bytes or null each, stored row by row with those of other
//! columns.
ghost use Rattle.std.specs.Prelude.{◌≡◌, ◌<◌, ◌*◌, None, map, length, option_map, MatchOption};
ghost use Rattle.std.specs.Prelude.{List, Option, is_some};
ghost use Rattle.std.specs.Option.{option_and_then};
ghost use Rattle.vortex_errors.specs.Answers.{AnswersUnlessMemory};
ghost use Rattle.vortex_types.specs.LogicalTypes.{integer_type, is_nullable};
ghost use Rattle.vortex_types.specs.TypeOf.{type_of, allows_null};
ghost use Rattle.vortex_types.specs.Values.{Value, number};
ghost use Rattle.vortex_columns.specs.ValidityView.{validity_of};
ghost use Rattle.vortex_cells.specs.CellValues.{column_where};
ghost use Rattle.vortex_cells.specs.Cells.{cell_in, cells_apart, item_or_null, AreCells};
ghost use Rattle.vortex_cells.specs.Cells.{cells_validity};
ghost use Rattle.vortex_cells.specs.Fields.{field_cell};
ghost use Rattle.vortex_logical_cells.specs.StoredFields.{stored_value, stored_values};
ghost use Rattle.vortex_logical_cells.specs.StoredFields.{column_of_kind, fits_as, fits_kind};

use crate::readers::{Dates, Decimals, KindReader, ShortFloats, Timestamps, WideFloats};
use std::alloc::Global;
use vortex_cells::cells::cell_fits;
use vortex_cells::fields::{column_of_fields, text_of};
use vortex_columns::{BitBuffer, Column, DType, NativePType, Nullability, Validity, VortexResult};
use vortex_logical::cells::read_cell;
use vortex_logical::kind::Kind;

/// The stored integer of a field, or null; none if it is no value of the column.
#[inline(always)]
fn read_field<T: NativePType, R: KindReader<T>>(
    reader: &R,
    nullability: Nullability,
    field: Option<&[u8]>,
) -> Option<Option<T>>
    ensures { option_map (item_or_null (λ x. number (T.number x))) result
        ≡ stored_value (R.kind reader.now) (allows_null nullability) (cell_in field.entry) }
{
    match field {
        Some(text) => Some(Some(reader.read(text)?)),
        None if nullability.is_nullable() => Some(None),
        None => None,
    }
}

/// The stored integers of fields, zero under each null, and which are not null.
#[derive(Drop)]
struct StoredRows<T> {
    items: Vec<T>,
    valid: Vec<bool>,
}

/// The stored integer of each field of a column, in rows of `width` fields; none if one is no value
/// of the column. E9 where an allocation fails.
fn read_rows<T: NativePType, R: KindReader<T>>(
    reader: &R,
    alloc: Global,
    nullability: Nullability,
    fields: &[Option<&[u8]>],
    width: usize,
    row_count: usize,
    column: usize,
) -> VortexResult<Option<StoredRows<T>>>
    requires column { column < width }
    requires even { length fields.now ≡ width * row_count }
    ensures { let said = stored_values (R.kind reader.now) (allows_null nullability)
        (cells_apart (map cell_in fields.now) width row_count column) in
        AnswersUnlessMemory result (λ read. MatchOption read (said ≡ None)
        (λ rows. AreCells (allows_null nullability)
        (map (λ x. number (T.number x)) rows.items.items) rows.valid.items said)) }
{
    let mut items = Vec::with_capacity(alloc, row_count)?;
    let mut valid = Vec::with_capacity(alloc, row_count)?;
    for row in 0..row_count {
        let place = row * width + column;
        let Some(item) = read_field(reader, nullability, fields[place]) else {
            return Ok(None);
        };
        valid.push_reserved(item.is_some());
        items.push_reserved(item.unwrap_or(T::zero()));
    }
    Ok(Some(StoredRows { items, valid }))
}

/// The validity of a column whose rows are valid where marked. E9 where an allocation fails.
fn rows_validity(alloc: Global, nullability: Nullability, valid: &[bool]) -> VortexResult<Validity>
    ensures { AnswersUnlessMemory result
        (λ v. validity_of v ≡ cells_validity (allows_null nullability) valid.now) }
{
    match nullability {
        Nullability::NonNullable => Ok(Validity::NonNullable),
        Nullability::Nullable => Ok(Validity::Array(BitBuffer::from_bools(alloc, valid)?)),
    }
}

/// The column of stored integers. E9 where an allocation fails.
fn column_of_rows<T: NativePType>(
    alloc: Global,
    nullability: Nullability,
    rows: StoredRows<T>,
) -> VortexResult<Column>
    ensures { (said : Option (List Value)) → AreCells (allows_null nullability)
        (map (λ x. number (T.number x)) rows.items.items) rows.valid.items said
        → AnswersUnlessMemory result (λ c. Some c ≡ option_and_then
        (column_where (integer_type T.ptype (allows_null nullability))) said) }
{
    let StoredRows { items, valid } = rows;
    let validity = rows_validity(alloc, nullability, &valid)?;
    Column::try_primitive(alloc, items, validity)
}

/// The column of its fields, in rows of `width` fields; none if one is no value of the column. E9
/// where an allocation fails.
fn read_column<T: NativePType, R: KindReader<T>>(
    reader: &R,
    alloc: Global,
    nullability: Nullability,
    fields: &[Option<&[u8]>],
    width: usize,
    row_count: usize,
    column: usize,
) -> VortexResult<Option<Column>>
    requires column { column < width }
    requires even { length fields.now ≡ width * row_count }
    ensures { AnswersUnlessMemory result (λ c. c ≡ option_and_then
        (column_where (integer_type T.ptype (allows_null nullability)))
        (stored_values (R.kind reader.now) (allows_null nullability)
        (cells_apart (map cell_in fields.now) width row_count column))) }
{
    match read_rows(reader, alloc, nullability, fields, width, row_count, column)? {
        Some(rows) => Ok(Some(column_of_rows(alloc, nullability, rows)?)),
        None => Ok(None),
    }
}

/// The column of the fields of a column in rows of `width` fields, each bytes or null: for a plain
/// column what `column_of_fields` returns; for a kind the integers that stand for the texts, of the
/// type that the kind is stored in, nullable as `dtype` is. None if a field is no text of the kind,
/// or null where `dtype` has no null. E9 where an allocation fails.
pub fn column_of_kind(
    alloc: Global,
    kind: Kind,
    dtype: &DType,
    fields: &[Option<&[u8]>],
    width: usize,
    row_count: usize,
    column: usize,
) -> VortexResult<Option<Column>>
    requires column { column < width }
    requires even { length fields.now ≡ width * row_count }
    ensures { AnswersUnlessMemory result (λ c. c ≡ column_of_kind kind (type_of dtype.now)
        (cells_apart (map cell_in fields.now) width row_count column)) }
{
    let (n, w, rows, k) = (dtype.nullability(), width, row_count, column);
    match kind {
        Kind::Plain => column_of_fields(alloc, dtype, fields, w, rows, k),
        Kind::Date => read_column(&Dates {}, alloc, n, fields, w, rows, k),
        Kind::Timestamp => read_column(&Timestamps {}, alloc, n, fields, w, rows, k),
        Kind::Decimal(digits) => read_column(&Decimals { digits }, alloc, n, fields, w, rows, k),
        Kind::F64 => read_column(&WideFloats {}, alloc, n, fields, w, rows, k),
        Kind::F32 => read_column(&ShortFloats {}, alloc, n, fields, w, rows, k),
    }
}

/// The cell of a field; none for bytes that are not UTF-8.
#[inline(always)]
fn cell_of_field<'a>(field: Option<&'a [u8]>) -> Option<Option<&'a str>>
    ensures { option_map cell_in result ≡ field_cell (cell_in field.entry) }
{
    let Some(bytes) = field else {
        return Some(None);
    };
    let text = text_of(bytes)?;
    Some(Some(text))
}

/// Whether a field is a value of a plain column's type.
fn fits_plain(dtype: &DType, field: Option<&[u8]>) -> bool
    ensures { result ≡ fits_as (type_of dtype.now) (field_cell (cell_in field.entry)) }
{
    match cell_of_field(field) {
        Some(cell) => cell_fits(dtype, cell),
        None => false,
    }
}

/// Whether a field is a text of a kind, or null in a column that has null.
fn fits_stored(kind: Kind, nullability: Nullability, field: Option<&[u8]>) -> bool
    ensures { result
        ≡ is_some (stored_value kind (allows_null nullability) (cell_in field.entry)) }
{
    match field {
        Some(text) => read_cell(kind, text).is_some(),
        None => nullability.is_nullable(),
    }
}

/// Whether a field is a value of a column of the kind: a text of the kind, or null where `dtype`
/// has null; for a plain column a value of `dtype`.
pub fn field_fits_kind(kind: Kind, dtype: &DType, field: Option<&[u8]>) -> bool
    ensures { result ≡ fits_kind kind (type_of dtype.now) (cell_in field.entry) }
{
    match kind {
        Kind::Plain => fits_plain(dtype, field),
        kind => fits_stored(kind, dtype.nullability(), field),
    }
}
