//! The extreme rows of a column, whose kind and validity are chosen before the rows.
ghost use Rattle.std.specs.Prelude.{◌≡◌, ◌<◌, ℕ, true, false, not, length, MatchOption};
ghost use Rattle.std.specs.Prelude.{slice_index_or, None, count_by};
ghost use Rattle.vortex_types.specs.LogicalTypes.{is_bool_type};
ghost use Rattle.vortex_columns.specs.Words.{type_of, row, is_null};
ghost use Rattle.vortex_columns.specs.ColumnView.{IsIntegerType, is_bytes_like};
ghost use Rattle.vortex_statistics.specs.Extremes.{AreExtremeRows, IsCounted, is_measured};
ghost use Rattle.vortex_statistics.specs.Measured.{Marks, HasValues};

use crate::extremes::{BitRows, ByteRows, EveryRow, IntRows, ListedRows, extremes};
use vortex_bits::{BitBuffer, RowBits};
use vortex_columns::{Column, DType, NativePType, PType, ValidRows};

/// Whether a column of the type has its ends looked for.
fn is_measured(dtype: &DType) -> bool
    ensures { result ≡ is_measured (type_of dtype.now) }
{
    match dtype {
        DType::Bool(_) => true,
        DType::Primitive(_, _) => true,
        DType::Utf8(_) => true,
        DType::Binary(_) => true,
        _ => false,
    }
}

/// The first bit that is set.
fn first_set(bits: &BitBuffer) -> Option<usize>
    ensures { MatchOption result
        ((i : ℕ) → i < length bits.now → slice_index_or bits.now i false ≡ false)
        (IsCounted (length bits.now) (λ i. slice_index_or bits.now i false)) }
{
    for i in 0..bits.len() {
        if bits.value(i) {
            return Some(i);
        }
    }
    None
}

/// The extreme rows of a column of truth values.
fn extreme_bits<V: RowBits>(column: &Column, valid: &V, first: usize) -> (usize, usize)
    requires marks { Marks column.now (V.has_row valid.now) (V.row_bit valid.now) }
    requires first { IsCounted (length column.now.rows)
        (λ i. not (is_null (row column.now.rows i))) first }
    requires kind { is_bool_type column.now.dtype ≡ true }
    requires computed { column.now.constant ≡ None }
    ensures { AreExtremeRows column.now.rows result.0 result.1 }
{
    match column.bits() {
        Some(bits) => extremes(&BitRows { bits }, valid, first, column.len()),
        None => (first, first),
    }
}

/// The extreme rows of a column of integers of one type.
fn extreme_ints<V: RowBits, T: NativePType>(
    column: &Column,
    valid: &V,
    first: usize,
) -> (usize, usize)
    requires marks { Marks column.now (V.has_row valid.now) (V.row_bit valid.now) }
    requires first { IsCounted (length column.now.rows)
        (λ i. not (is_null (row column.now.rows i))) first }
    requires kind { IsIntegerType T.ptype column.now.dtype }
    requires computed { column.now.constant ≡ None }
    ensures { AreExtremeRows column.now.rows result.0 result.1 }
{
    match column.ints::<T>() {
        Some(integers) => {
            let rows = IntRows::<T> { integers };
            extremes(&rows, valid, first, column.len())
        }
        None => (first, first),
    }
}

/// The extreme rows of a column of texts or byte strings.
fn extreme_bytes<V: RowBits>(column: &Column, valid: &V, first: usize) -> (usize, usize)
    requires marks { Marks column.now (V.has_row valid.now) (V.row_bit valid.now) }
    requires first { IsCounted (length column.now.rows)
        (λ i. not (is_null (row column.now.rows i))) first }
    requires kind { is_bytes_like column.now.dtype ≡ true }
    requires computed { column.now.constant ≡ None }
    ensures { AreExtremeRows column.now.rows result.0 result.1 }
{
    match column.views() {
        Some(views) => extremes(&ByteRows { views }, valid, first, column.len()),
        None => (first, first),
    }
}

/// The extreme rows of a column that is not constant.
fn extremes_by<V: RowBits>(column: &Column, valid: &V, first: usize) -> (usize, usize)
    requires marks { Marks column.now (V.has_row valid.now) (V.row_bit valid.now) }
    requires first { IsCounted (length column.now.rows)
        (λ i. not (is_null (row column.now.rows i))) first }
    requires kind { is_measured column.now.dtype ≡ true }
    requires computed { column.now.constant ≡ None }
    ensures { AreExtremeRows column.now.rows result.0 result.1 }
{
    match column.dtype() {
        DType::Bool(_) => extreme_bits(column, valid, first),
        DType::Primitive(PType::I8, _) => extreme_ints::<V, i8>(column, valid, first),
        DType::Primitive(PType::I16, _) => extreme_ints::<V, i16>(column, valid, first),
        DType::Primitive(PType::I32, _) => extreme_ints::<V, i32>(column, valid, first),
        DType::Primitive(PType::I64, _) => extreme_ints::<V, i64>(column, valid, first),
        DType::Primitive(PType::U8, _) => extreme_ints::<V, u8>(column, valid, first),
        DType::Primitive(PType::U16, _) => extreme_ints::<V, u16>(column, valid, first),
        DType::Primitive(PType::U32, _) => extreme_ints::<V, u32>(column, valid, first),
        DType::Primitive(PType::U64, _) => extreme_ints::<V, u64>(column, valid, first),
        _ => extreme_bytes(column, valid, first),
    }
}

/// The extreme rows, of which one is `first`; of a constant, the first.
fn extremes_from<V: RowBits>(column: &Column, valid: &V, first: usize) -> (usize, usize)
    requires marks { Marks column.now (V.has_row valid.now) (V.row_bit valid.now) }
    requires first { IsCounted (length column.now.rows)
        (λ i. not (is_null (row column.now.rows i))) first }
    requires kind { is_measured column.now.dtype ≡ true }
    ensures { AreExtremeRows column.now.rows result.0 result.1 }
{
    match column.as_constant() {
        Some(_) => (first, first),
        None => extremes_by(column, valid, first),
    }
}

/// A least and a greatest of the rows that are not null, where the column has such and their ends
/// are looked for.
pub(crate) fn extreme_rows(column: &Column) -> Option<(usize, usize)>
    ensures { MatchOption result (¬ HasValues column.now)
        (λ p. HasValues column.now × AreExtremeRows column.now.rows p.0 p.1) }
{
    if !is_measured(column.dtype()) {
        return None;
    }
    match column.valid_rows() {
        ValidRows::No => None,
        ValidRows::Every if column.len() == 0 => None,
        ValidRows::Every => Some(extremes_from(column, &EveryRow {}, 0)),
        ValidRows::Listed(bits) => {
            let first = first_set(bits)?;
            Some(extremes_from(column, &ListedRows { bits }, first))
        }
    }
}

/// How many bits are not set.
fn count_unset(bits: &BitBuffer) -> usize
    ensures { result ≡ count_by not bits.now }
{
    let mut count = 0;
    for i in 0..bits.len() {
        if !bits.value(i) {
            count += 1;
        }
    }
    count
}

/// How many rows are null.
pub(crate) fn null_count(column: &Column) -> usize
    ensures { result ≡ count_by is_null column.now.rows }
{
    match column.valid_rows() {
        ValidRows::Every => 0,
        ValidRows::No => column.len(),
        ValidRows::Listed(bits) => count_unset(bits),
    }
}
