//! The columns of a batch, checked where they lie.
ghost use Rattle.std.specs.Prelude.{◌≡◌, ◌<◌, ◌≤◌, ◌+◌, ◌*◌, ◌^◌, ◌↔◌, ℕ, IsTrue, MatchResult};
ghost use Rattle.std.specs.Prelude.{length};
ghost use Rattle.vortex_types.specs.TypeOf.{type_of, struct_fields};
ghost use Rattle.vortex_arrow.specs.Columns.{HasBitsFor, IsWellFormed};
ghost use Rattle.vortex_arrow.specs.Layouts.{HasItems, layout_of};
ghost use Rattle.vortex_arrow.specs.Refusals.{AreLongEnough, MayBeNulls, RefusesNull, TellsOf};
ghost use Rattle.yurkije_columns.specs.Batches.{Serves, RefusesColumn, AllServe, RefusesBatch};
ghost use Rattle.yurkije_columns.specs.Batches.{ServesIfRead, RefusesIfRead};
ghost use Rattle.yurkije_columns.specs.Checking.{IsFlat};

use crate::batch::{ColumnError, ColumnFault, check_count, check_shape, read_field};
use crate::kinds::number_at;
use std::alloc::Global;
use vortex_arrow::{ArrowColumn, ArrowError, ArrowValues, to_column};
use vortex_columns::{DType, StructFields};
use vortex_logical::kind::Kind as LogicalKind;

/// Whether the column is of truth values or of values that integers stand for, and ends at a place that a usize holds.
pub fn is_flat(column: &ArrowColumn<'_>) -> bool
    ensures { IsTrue result ↔ IsFlat column.now }
{
    match column.values {
        ArrowValues::Bool(_)
        | ArrowValues::Int8(_)
        | ArrowValues::Int16(_)
        | ArrowValues::Int32(_)
        | ArrowValues::Int64(_)
        | ArrowValues::UInt8(_)
        | ArrowValues::UInt16(_)
        | ArrowValues::UInt32(_)
        | ArrowValues::UInt64(_)
        | ArrowValues::Date(_)
        | ArrowValues::Timestamp(_)
        | ArrowValues::Decimal { .. }
        | ArrowValues::Float64(_)
        | ArrowValues::Float32(_) => column.offset.checked_add(column.length).is_some(),
        _ => false,
    }
}

/// Refuses the first null of a column that is not nullable. Its bits are copied where it has some,
/// and nothing else is.
fn check_nulls(alloc: Global, column: &ArrowColumn<'_>) -> Result<(), ArrowError>
    ensures { MatchResult result (λ _. MayBeNulls column.now) (RefusesNull column.now) }
{
    if column.nullable {
        return Ok(());
    }
    let Some(bits) = column.validity else {
        return Ok(());
    };
    let truths = ArrowColumn {
        nullable: false,
        length: column.length,
        offset: column.offset,
        validity: Some(bits),
        values: ArrowValues::Bool(bits),
    };
    match to_column(alloc, &truths) {
        Ok(_) => Ok(()),
        Err(ArrowError::UnexpectedNull { row }) => Err(ArrowError::UnexpectedNull { row }),
        Err(_) => Err(ArrowError::OutOfMemory),
    }
}

/// Whether so many bits lie in the bytes.
fn are_bits(bytes: &[u8], count: usize) -> bool
    ensures { IsTrue result → count ≤ 8 * length bytes.now }
{
    if count % 8 == 0 {
        count / 8 <= bytes.len()
    } else {
        count / 8 < bytes.len()
    }
}

/// Whether the validity has a bit for each item before that one.
fn has_bits(validity: Option<&[u8]>, end: usize) -> bool
    ensures { IsTrue result → HasBitsFor validity.entry 0 end }
{
    match validity {
        Some(bits) => are_bits(bits, end),
        None => true,
    }
}

/// Whether truth values or integers have each item before that one.
fn has_items(values: &ArrowValues<'_>, end: usize) -> bool
    ensures { IsTrue result → HasItems (layout_of values.now) 0 end }
{
    match values {
        ArrowValues::Bool(bits) => are_bits(bits, end),
        ArrowValues::Int8(items) => end <= items.len(),
        ArrowValues::Int16(items) => end <= items.len(),
        ArrowValues::Int32(items) => end <= items.len(),
        ArrowValues::Int64(items) => end <= items.len(),
        ArrowValues::UInt8(items) => end <= items.len(),
        ArrowValues::UInt16(items) => end <= items.len(),
        ArrowValues::UInt32(items) => end <= items.len(),
        ArrowValues::UInt64(items) => end <= items.len(),
        ArrowValues::Date(items) => end <= items.len(),
        ArrowValues::Timestamp(items) => end <= items.len(),
        ArrowValues::Decimal { values, .. } => end <= values.len(),
        ArrowValues::Float64(patterns) => end <= patterns.len(),
        ArrowValues::Float32(patterns) => end <= patterns.len(),
        _ => false,
    }
}

/// Refuses buffers that are too short: no row of them is read. Where they are long enough, no column
/// of no rows is made to say so.
fn check_end(alloc: Global, column: &ArrowColumn<'_>) -> Result<(), ArrowError>
    requires { IsFlat column.now }
    ensures { MatchResult result (λ _. AreLongEnough column.now) (TellsOf column.now) }
{
    let end = column.offset + column.length;
    if has_bits(column.validity, end) && has_items(&column.values, end) {
        return Ok(());
    }
    let end = ArrowColumn {
        nullable: column.nullable,
        length: 0,
        offset: end,
        validity: column.validity,
        values: column.values,
    };
    match to_column(alloc, &end) {
        Ok(_) => {}
        Err(error) => return Err(error),
    }
    Ok(())
}

/// What `to_column` says of a column of truth values or integers, which is not read.
fn check_flat(alloc: Global, column: &ArrowColumn<'_>) -> Result<(), ArrowError>
    requires { IsFlat column.now }
    ensures { MatchResult result (λ _. IsWellFormed column.now) (TellsOf column.now) }
{
    check_end(alloc, column)?;
    check_nulls(alloc, column)
}

/// Whether a column serves a field of that type.
fn check_field(
    alloc: Global,
    dtype: &DType,
    number: u32,
    column: &ArrowColumn<'_>,
    rows: usize,
) -> Result<(), ColumnFault>
    ensures { MatchResult result (λ _. Serves (type_of dtype.now) number rows column.now)
        (RefusesColumn (type_of dtype.now) number rows column.now) }
{
    if !is_flat(column) {
        return match read_field(alloc, dtype, number, column, rows) {
            Ok(_) => Ok(()),
            Err(fault) => Err(fault),
        };
    }
    check_shape(dtype, number, column, rows)?;
    match check_flat(alloc, column) {
        Ok(()) => Ok(()),
        Err(error) => Err(ColumnFault::Unread(error)),
    }
}

/// The same of a column that may be unread: then it does.
fn check_if_some(
    alloc: Global,
    dtype: &DType,
    number: u32,
    column: &Option<ArrowColumn<'_>>,
    rows: usize,
) -> Result<(), ColumnFault>
    ensures { MatchResult result (λ _. ServesIfRead (type_of dtype.now) number rows column.now)
        (RefusesIfRead (type_of dtype.now) number rows column.now) }
{
    match column {
        Some(column) => check_field(alloc, dtype, number, column, rows),
        None => Ok(()),
    }
}

/// What `read_batch` says of the columns of a batch. Truth values and integers are not copied, but for
/// the validity of a column that is not nullable.
pub fn check_batch(
    alloc: Global,
    scope: &StructFields,
    kinds: &[LogicalKind],
    columns: &[Option<ArrowColumn<'_>>],
    rows: usize,
) -> Result<(), ColumnError>
    ensures { MatchResult result
        (λ _. AllServe (struct_fields scope.now) kinds.now rows columns.now)
        (RefusesBatch (struct_fields scope.now) kinds.now rows columns.now) }
{
    check_count(scope, columns)?;
    for (k, column) in columns.iter().enumerate() {
        match check_if_some(alloc, scope.dtype(k), number_at(kinds, k), column, rows) {
            Ok(()) => {}
            Err(fault) => return Err(ColumnError { column: k, fault }),
        }
    }
    Ok(())
}
