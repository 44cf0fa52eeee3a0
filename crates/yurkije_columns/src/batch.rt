//! The columns of a batch, read over the fields of a scope.
ghost use Rattle.std.specs.Prelude.{◌≡◌, ◌↔◌, Bool, IfSome, IsTrue, ℕ, List, length, map};
ghost use Rattle.std.specs.Prelude.{MatchResult};
ghost use Rattle.vortex_types.specs.LogicalTypes.{integer_type, field_count};
ghost use Rattle.vortex_types.specs.TypeOf.{type_of, struct_fields, allows_null};
ghost use Rattle.vortex_arrow.specs.Columns.{arrow_column};
ghost use Rattle.vortex_arrow.specs.Layouts.{layout_of, layout_type};
ghost use Rattle.yurkije_columns.specs.Batches.{type_borrowed, Serves, RefusesColumn, AllServe};
ghost use Rattle.yurkije_columns.specs.Batches.{ServesIfRead, RefusesIfRead, batch_column};
ghost use Rattle.yurkije_columns.specs.Batches.{RefusesBatch, IsOf};
ghost use Rattle.yurkije_columns.specs.Kinds.{values_number};

use crate::kinds::{decimal_number, nullability, number_at};
use std::alloc::Global;
use vortex_arrow::{ArrowColumn, ArrowError, ArrowValues, to_column};
use vortex_columns::{Column, DType, PType, StructFields};
use vortex_logical::kind::Kind as LogicalKind;

/// What is wrong with a column of a batch.
#[derive(Clone, Copy, Debug, Drop, PartialEq, Eq)]
pub enum ColumnFault {
    /// There is none for that field.
    Missing,
    /// There is no field for it.
    Unasked,
    /// Its values are of another type than the field or mean something else, or it is nullable and
    /// the field is not, or the other way round.
    OtherType,
    /// It has another number of rows than the batch.
    OtherLength { rows: usize },
    /// Its buffers are refused, or memory ran out.
    Unread(ArrowError),
}

/// Why a batch is refused: the first column that is wrong.
#[derive(Clone, Copy, Debug, Drop, PartialEq, Eq)]
pub struct ColumnError {
    pub column: usize,
    pub fault: ColumnFault,
}

/// The type of a column's values. Allocates nothing.
pub fn dtype_of(column: &ArrowColumn<'_>) -> DType
    ensures { type_of result ≡ type_borrowed column.now }
{
    let nullability = nullability(column.nullable);
    match column.values {
        ArrowValues::Bool(_) => DType::Bool(nullability),
        ArrowValues::Int8(_) => DType::Primitive(PType::I8, nullability),
        ArrowValues::Int16(_) => DType::Primitive(PType::I16, nullability),
        ArrowValues::Int32(_) => DType::Primitive(PType::I32, nullability),
        ArrowValues::Int64(_) => DType::Primitive(PType::I64, nullability),
        ArrowValues::UInt8(_) => DType::Primitive(PType::U8, nullability),
        ArrowValues::UInt16(_) => DType::Primitive(PType::U16, nullability),
        ArrowValues::UInt32(_) => DType::Primitive(PType::U32, nullability),
        ArrowValues::UInt64(_) => DType::Primitive(PType::U64, nullability),
        ArrowValues::Utf8 { .. } => DType::Utf8(nullability),
        ArrowValues::LargeUtf8 { .. } => DType::Utf8(nullability),
        ArrowValues::Utf8View { .. } => DType::Utf8(nullability),
        ArrowValues::Binary { .. } => DType::Binary(nullability),
        ArrowValues::LargeBinary { .. } => DType::Binary(nullability),
        ArrowValues::BinaryView { .. } => DType::Binary(nullability),
        ArrowValues::Date(_) => DType::Primitive(PType::I32, nullability),
        ArrowValues::Timestamp(_) => DType::Primitive(PType::I64, nullability),
        ArrowValues::Decimal { .. } => DType::Primitive(PType::I64, nullability),
        ArrowValues::Float64(_) => DType::Primitive(PType::I64, nullability),
        ArrowValues::Float32(_) => DType::Primitive(PType::I32, nullability),
    }
}

/// The integer type of values that are integers, or that integers stand for.
fn stored_ptype(values: &ArrowValues<'_>) -> Option<PType>
    ensures { IfSome result (λ p. (n : Bool)
        → layout_type (layout_of values.now) n ≡ integer_type p n) }
{
    match values {
        ArrowValues::Int8(_) => Some(PType::I8),
        ArrowValues::Int16(_) => Some(PType::I16),
        ArrowValues::Int32(_) | ArrowValues::Date(_) | ArrowValues::Float32(_) => Some(PType::I32),
        ArrowValues::Int64(_)
        | ArrowValues::Timestamp(_)
        | ArrowValues::Decimal { .. }
        | ArrowValues::Float64(_) => Some(PType::I64),
        ArrowValues::UInt8(_) => Some(PType::U8),
        ArrowValues::UInt16(_) => Some(PType::U16),
        ArrowValues::UInt32(_) => Some(PType::U32),
        ArrowValues::UInt64(_) => Some(PType::U64),
        _ => None,
    }
}

/// Whether a column's values have the type. For integers no type is made.
pub fn has_dtype(column: &ArrowColumn<'_>, dtype: &DType) -> bool
    ensures { IsTrue result ↔ (type_borrowed column.now ≡ type_of dtype.now) }
{
    match (stored_ptype(&column.values), dtype) {
        (Some(ptype), DType::Primitive(other, allows_null)) => {
            ptype == *other && nullability(column.nullable) == *allows_null
        }
        _ => dtype_of(column) == *dtype,
    }
}

/// The number of what a column's values mean; 0 where that is what their type says.
fn number_of(values: ArrowValues<'_>) -> u32
    ensures { result ≡ values_number values.entry }
{
    match values {
        ArrowValues::Float64(_) => 16,
        ArrowValues::Float32(_) => 17,
        ArrowValues::Date(_) => 18,
        ArrowValues::Timestamp(_) => 19,
        ArrowValues::Decimal {
            precision,
            scale,
            ..
        } => decimal_number(precision, scale),
        _ => 0,
    }
}

/// Refuses a column of another type than its field, whose values mean what the number says, or of
/// another number of rows.
pub(crate) fn check_shape(
    dtype: &DType,
    number: u32,
    column: &ArrowColumn<'_>,
    rows: usize,
) -> Result<(), ColumnFault>
    ensures { MatchResult result
        (λ _. IsOf (type_of dtype.now) number column.now × (column.now.length ≡ rows))
        (RefusesColumn (type_of dtype.now) number rows column.now) }
{
    if !has_dtype(column, dtype) {
        return Err(ColumnFault::OtherType);
    }
    if number_of(column.values) != number {
        return Err(ColumnFault::OtherType);
    }
    if column.length != rows {
        return Err(ColumnFault::OtherLength {
            rows: column.length,
        });
    }
    Ok(())
}

/// The column of a field of that type, whose values mean what the number says.
pub(crate) fn read_field(
    alloc: Global,
    dtype: &DType,
    number: u32,
    column: &ArrowColumn<'_>,
    rows: usize,
) -> Result<Column, ColumnFault>
    ensures { MatchResult result
        (λ c. Serves (type_of dtype.now) number rows column.now × (c ≡ arrow_column column.now))
        (RefusesColumn (type_of dtype.now) number rows column.now) }
{
    check_shape(dtype, number, column, rows)?;
    match to_column(alloc, column) {
        Ok(column) => Ok(column),
        Err(error) => Err(ColumnFault::Unread(error)),
    }
}

/// The same of a column that may be unread: then nulls are in its place.
fn read_if_some(
    alloc: Global,
    dtype: &DType,
    number: u32,
    column: &Option<ArrowColumn<'_>>,
    rows: usize,
) -> Result<Column, ColumnFault>
    ensures { MatchResult result
        (λ c. ServesIfRead (type_of dtype.now) number rows column.now
        × (c ≡ batch_column rows column.now))
        (RefusesIfRead (type_of dtype.now) number rows column.now) }
{
    match column {
        Some(column) => read_field(alloc, dtype, number, column, rows),
        None => Ok(Column::null(rows)),
    }
}

/// Refuses a batch of fewer or more columns than fields.
pub(crate) fn check_count(
    scope: &StructFields,
    columns: &[Option<ArrowColumn<'_>>],
) -> Result<(), ColumnError>
    ensures { MatchResult result
        (λ _. length columns.now ≡ field_count (struct_fields scope.now))
        (λ e. (kinds : List _) → (rows : ℕ)
        → RefusesBatch (struct_fields scope.now) kinds rows columns.now e) }
{
    if columns.len() < scope.len() {
        return Err(ColumnError {
            column: columns.len(),
            fault: ColumnFault::Missing,
        });
    }
    if scope.len() < columns.len() {
        return Err(ColumnError {
            column: scope.len(),
            fault: ColumnFault::Unasked,
        });
    }
    Ok(())
}

/// The columns of a batch of so many rows, one for each field of the scope, each copied once. What
/// the values of the fields mean is told by place; further fields are plain. Where a column is None,
/// which no answer reads, nulls are in its place. Refuses the first column that is wrong: one that is
/// missing or not asked for, and else of another type than its field or of another meaning, then of
/// another number of rows, then for its buffers.
pub fn read_batch(
    alloc: Global,
    scope: &StructFields,
    kinds: &[LogicalKind],
    columns: &[Option<ArrowColumn<'_>>],
    rows: usize,
) -> Result<Vec<Column>, ColumnError>
    ensures { MatchResult result
        (λ read. AllServe (struct_fields scope.now) kinds.now rows columns.now
        × (read.items ≡ map (batch_column rows) columns.now))
        (RefusesBatch (struct_fields scope.now) kinds.now rows columns.now) }
{
    check_count(scope, columns)?;
    let Ok(mut read) = Vec::with_capacity(alloc, columns.len()) else {
        return Err(ColumnError {
            column: 0,
            fault: ColumnFault::Unread(ArrowError::OutOfMemory),
        });
    };
    for (k, column) in columns.iter().enumerate() {
        match read_if_some(alloc, scope.dtype(k), number_at(kinds, k), column, rows) {
            Ok(field) => read.push_reserved(field),
            Err(fault) => return Err(ColumnError { column: k, fault }),
        }
    }
    Ok(read)
}
