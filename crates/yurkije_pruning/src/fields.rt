//! Statistics that are lent, read over the fields of a scope.
ghost use Rattle.std.specs.Prelude.{◌≡◌, ◌↔◌, IsTrue, MatchResult, length};
ghost use Rattle.vortex_types.specs.LogicalTypes.{field_count};
ghost use Rattle.vortex_types.specs.TypeOf.{type_of, struct_fields};
ghost use Rattle.yurkije_columns.specs.Outputs.{IsOfKind};
ghost use Rattle.yurkije_pruning.specs.Lent.{IsTyped, RefusesType, Reads, RefusesRead, IsPart};
ghost use Rattle.yurkije_pruning.specs.Lent.{RefusesPart, IsWrong, IsField, RefusesField};
ghost use Rattle.yurkije_pruning.specs.Lent.{AreFields, RefusesCount, RefusesStatistics};

use crate::error::{Part, PartFault, PruneError};
use crate::lent::BorrowedStatistics;
use std::alloc::Global;
use vortex_arrow::to_column;
use vortex_columns::{Column, DType, Nullability, PType, StructFields};
use vortex_logical::kind::Kind as LogicalKind;
use vortex_pruning::FieldStatistics;
use yurkije_columns::{BorrowedColumn, Kind, kind_numbered, number_at};

/// Whether values of the kind have the type, with null or without.
fn is_of_type(kind: Kind, dtype: &DType) -> bool
    ensures { IsTrue result ↔ IsOfKind kind (type_of dtype.now) }
{
    kind.dtype(dtype.is_nullable()) == *dtype
}

/// Refuses a column of another type, or whose values mean something else than the number says.
fn check_type(dtype: &DType, number: u32, column: &BorrowedColumn<'_>) -> Result<(), PartFault>
    ensures { MatchResult result (λ _. IsTyped (type_of dtype.now) number column.now)
        (RefusesType (type_of dtype.now) number column.now) }
{
    let Some(kind) = kind_numbered(column.kind) else {
        return Err(PartFault::UnknownKind);
    };
    if !is_of_type(kind, dtype) {
        return Err(PartFault::OtherType);
    }
    if kind.logical_number() == number {
        Ok(())
    } else {
        Err(PartFault::OtherType)
    }
}

/// The column, copied once.
fn read_column(alloc: Global, column: &BorrowedColumn<'_>) -> Result<Column, PartFault>
    ensures { MatchResult result (Reads column.now) (RefusesRead column.now) }
{
    let Some(arrow) = column.arrow_column() else {
        return Err(PartFault::UnknownKind);
    };
    match to_column(alloc, &arrow) {
        Ok(column) => Ok(column),
        Err(error) => Err(PartFault::Unread(error)),
    }
}

/// A column of statistics of that type and meaning, with an item for each of so many groups; none where it has
/// no rows.
fn read_part(
    alloc: Global,
    dtype: &DType,
    number: u32,
    column: &BorrowedColumn<'_>,
    groups: usize,
) -> Result<Option<Column>, PartFault>
    ensures { MatchResult result (IsPart (type_of dtype.now) number groups column.now)
        (RefusesPart (type_of dtype.now) number groups column.now) }
{
    if column.rows == 0 {
        return Ok(None);
    }
    match check_type(dtype, number, column) {
        Ok(()) => {}
        Err(fault) => return Err(fault),
    }
    if column.rows != groups {
        return Err(PartFault::OtherLength { rows: column.rows });
    }
    match read_column(alloc, column) {
        Ok(column) => Ok(Some(column)),
        Err(fault) => Err(fault),
    }
}

/// The same of that part of a field's statistics.
fn read_named(
    alloc: Global,
    field: usize,
    part: Part,
    dtype: &DType,
    number: u32,
    column: &BorrowedColumn<'_>,
    groups: usize,
) -> Result<Option<Column>, PruneError>
    ensures { MatchResult result (IsPart (type_of dtype.now) number groups column.now)
        (IsWrong field part (type_of dtype.now) number groups column.now) }
{
    match read_part(alloc, dtype, number, column, groups) {
        Ok(column) => Ok(column),
        Err(fault) => Err(PruneError::Column { field, part, fault }),
    }
}

/// The statistics of a field of that type, whose values mean what the number says.
fn read_field(
    alloc: Global,
    field: usize,
    dtype: &DType,
    number: u32,
    lent: &BorrowedStatistics<'_>,
    groups: usize,
) -> Result<FieldStatistics, PruneError>
    ensures { MatchResult result (IsField (type_of dtype.now) number groups lent.now)
        (RefusesField field (type_of dtype.now) number groups lent.now) }
{
    let count = DType::Primitive(PType::U64, Nullability::NonNullable);
    let low = match read_named(alloc, field, Part::Low, dtype, number, &lent.low, groups) {
        Ok(low) => low,
        Err(error) => return Err(error),
    };
    let high = match read_named(alloc, field, Part::High, dtype, number, &lent.high, groups) {
        Ok(high) => high,
        Err(error) => return Err(error),
    };
    let nulls = match read_named(alloc, field, Part::Nulls, &count, 0, &lent.nulls, groups) {
        Ok(nulls) => nulls,
        Err(error) => return Err(error),
    };
    let Ok(dtype) = dtype.try_clone(alloc) else {
        return Err(PruneError::out_of_memory());
    };
    Ok(FieldStatistics {
        dtype,
        low,
        high,
        nulls,
    })
}

/// Refuses statistics of fewer or more fields than the scope has.
fn check_count(scope: &StructFields, lent: &[BorrowedStatistics<'_>]) -> Result<(), PruneError>
    ensures { MatchResult result
        (λ _. length lent.now ≡ field_count (struct_fields scope.now))
        (RefusesCount (struct_fields scope.now) lent.now) }
{
    if lent.len() < scope.len() {
        return Err(PruneError::Missing { field: lent.len() });
    }
    if scope.len() < lent.len() {
        return Err(PruneError::Unasked { field: scope.len() });
    }
    Ok(())
}

/// The statistics of the fields of a scope in so many groups, each column copied once; none in the
/// place of a column without rows. What the values of the fields mean is told by place; further fields
/// are plain. Refuses statistics of fewer or more fields than the scope has;
/// else the first column that is wrong: of its kind, of its type, of its number of items, or of its
/// buffers. E9 where an allocation fails.
pub fn read_statistics(
    alloc: Global,
    scope: &StructFields,
    kinds: &[LogicalKind],
    lent: &[BorrowedStatistics<'_>],
    groups: usize,
) -> Result<Vec<FieldStatistics>, PruneError>
    ensures { MatchResult result
        (λ fields. AreFields (struct_fields scope.now) kinds.now groups lent.now fields.items)
        (RefusesStatistics (struct_fields scope.now) kinds.now groups lent.now) }
{
    match check_count(scope, lent) {
        Ok(()) => {}
        Err(error) => return Err(error),
    }
    let mut fields = Vec::new(alloc);
    for k in 0..lent.len() {
        let field = match read_field(
            alloc,
            k,
            scope.dtype(k),
            number_at(kinds, k),
            &lent[k],
            groups,
        ) {
            Ok(field) => field,
            Err(error) => return Err(error),
        };
        match fields.push(field) {
            Ok(()) => {}
            Err(_) => return Err(PruneError::out_of_memory()),
        }
    }
    Ok(fields)
}
