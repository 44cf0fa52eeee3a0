//! Columns parsed from fields, bytes or null each, stored row by row with those of other columns.
ghost use Rattle.std.specs.Prelude.{◌≡◌, ◌<◌, ◌*◌, None, map, length, MatchOption, IsUtf8};
ghost use Rattle.std.specs.Option.{option_and_then};
ghost use Rattle.vortex_errors.specs.Answers.{AnswersUnlessMemory};
ghost use Rattle.vortex_types.specs.LogicalTypes.{integer_type};
ghost use Rattle.vortex_types.specs.TypeOf.{type_of, allows_null};
ghost use Rattle.vortex_cells.specs.CellValues.{column_where};
ghost use Rattle.vortex_cells.specs.Cells.{cell_in, AreCells, cells_apart};
ghost use Rattle.vortex_cells.specs.Fields.{field_values, column_of_fields, ReadsBytes, ReadsField};

use crate::cells::{BoolCells, CellKind, Cells, IntCells, TextCells, column_of};
use crate::digits::read_integer_in;
use std::alloc::Global;
use std::str;
use vortex_columns::{Column, DType, NativePType, Nullability, PType, VortexResult};

/// The text of bytes; none if they are not UTF-8. ASCII, which nearly all texts are, is tested by
/// words.
#[inline(always)]
pub fn text_of(bytes: &[u8]) -> Option<&str>
    ensures { MatchOption result (¬ (IsUtf8 bytes.now))
        (λ text. (text.now ≡ bytes.now) × IsUtf8 bytes.now) }
{
    if bytes.is_ascii() {
        return Some(unsafe { str::from_utf8_unchecked(bytes) });
    }
    str::from_utf8(bytes).ok()
}

/// Values of one kind, parsed from bytes; texts are borrowed.
trait FieldKind<'a>: CellKind<'a> {
    /// The value of bytes; none if they are no value of this kind, or not UTF-8.
    fn read_bytes(bytes: &'a [u8]) -> Option<Self::Item>
        ensures { ReadsBytes Self.value Self.kind bytes.now result };
}

/// The value of bytes as a text.
#[inline(always)]
fn read_text<'a, K: CellKind<'a>>(bytes: &'a [u8]) -> Option<K::Item>
    ensures { ReadsBytes K.value K.kind bytes.now result }
{
    match text_of(bytes) {
        Some(text) => K::read(text),
        None => None,
    }
}

impl<'a> FieldKind<'a> for BoolCells {
    #[inline(always)]
    fn read_bytes(bytes: &'a [u8]) -> Option<bool> {
        read_text::<BoolCells>(bytes)
    }
}

/// Integers are read directly from the bytes.
impl<'a, T: NativePType> FieldKind<'a> for IntCells<T> {
    #[inline(always)]
    fn read_bytes(bytes: &'a [u8]) -> Option<T> {
        match read_integer_in(bytes) {
            Some(number) => T::from_i128(number),
            None => None,
        }
    }
}

impl<'a> FieldKind<'a> for TextCells {
    #[inline(always)]
    fn read_bytes(bytes: &'a [u8]) -> Option<&'a str> {
        read_text::<TextCells>(bytes)
    }
}

/// The value of a field, or null; none if it is no value of the type.
#[inline(always)]
fn read_field<'a, K: FieldKind<'a>>(
    nullability: Nullability,
    field: Option<&'a [u8]>,
) -> Option<Option<K::Item>>
    ensures { ReadsField K.value (K.kind (allows_null nullability)) (cell_in field.entry) result }
{
    match field {
        Some(bytes) => Some(Some(K::read_bytes(bytes)?)),
        None if nullability.is_nullable() => Some(None),
        None => None,
    }
}

/// The value of each field of a column, in rows of `width` fields; none if one is no value of the
/// type. E9 where an allocation fails.
fn read_fields<'a, K: FieldKind<'a>>(
    alloc: Global,
    nullability: Nullability,
    fields: &[Option<&'a [u8]>],
    width: usize,
    row_count: usize,
    column: usize,
) -> VortexResult<Option<Cells<K::Item>>>
    requires column { column < width }
    requires even { length fields.now ≡ width * row_count }
    ensures { AnswersUnlessMemory result (λ read. MatchOption read
        (field_values (K.kind (allows_null nullability))
        (cells_apart (map cell_in fields.now) width row_count column) ≡ None)
        (λ c. AreCells (allows_null nullability) (map K.value c.items.items) c.valid.items
        (field_values (K.kind (allows_null nullability))
        (cells_apart (map cell_in fields.now) width row_count column)))) }
{
    let mut items = Vec::with_capacity(alloc, row_count)?;
    let mut valid = Vec::with_capacity(alloc, row_count)?;
    for row in 0..row_count {
        let place = row * width + column;
        let Some(item) = read_field::<K>(nullability, fields[place]) else {
            return Ok(None);
        };
        valid.push_reserved(item.is_some());
        items.push_reserved(item.unwrap_or(K::blank()));
    }
    Ok(Some(Cells { items, valid }))
}

/// The column of its fields, in rows of `width` fields; none if one is no value of the type, or a
/// text is too long for a column. E9 where an allocation fails.
fn read_column<'a, K: FieldKind<'a>>(
    alloc: Global,
    nullability: Nullability,
    fields: &[Option<&'a [u8]>],
    width: usize,
    row_count: usize,
    column: usize,
) -> VortexResult<Option<Column>>
    requires column { column < width }
    requires even { length fields.now ≡ width * row_count }
    ensures { AnswersUnlessMemory result
        (λ c. c ≡ option_and_then (column_where (K.kind (allows_null nullability)))
        (field_values (K.kind (allows_null nullability))
        (cells_apart (map cell_in fields.now) width row_count column))) }
{
    match read_fields::<K>(alloc, nullability, fields, width, row_count, column)? {
        Some(read) => column_of::<K>(alloc, nullability, read),
        None => Ok(None),
    }
}

/// The same for an integer type.
fn read_int_column(
    alloc: Global,
    ptype: PType,
    nullability: Nullability,
    fields: &[Option<&[u8]>],
    width: usize,
    row_count: usize,
    column: usize,
) -> VortexResult<Option<Column>>
    requires column { column < width }
    requires even { length fields.now ≡ width * row_count }
    ensures { AnswersUnlessMemory result
        (λ c. c ≡ option_and_then (column_where (integer_type ptype (allows_null nullability)))
        (field_values (integer_type ptype (allows_null nullability))
        (cells_apart (map cell_in fields.now) width row_count column))) }
{
    let (n, w, rows, k) = (nullability, width, row_count, column);
    match ptype {
        PType::I8 => read_column::<IntCells<i8>>(alloc, n, fields, w, rows, k),
        PType::I16 => read_column::<IntCells<i16>>(alloc, n, fields, w, rows, k),
        PType::I32 => read_column::<IntCells<i32>>(alloc, n, fields, w, rows, k),
        PType::I64 => read_column::<IntCells<i64>>(alloc, n, fields, w, rows, k),
        PType::U8 => read_column::<IntCells<u8>>(alloc, n, fields, w, rows, k),
        PType::U16 => read_column::<IntCells<u16>>(alloc, n, fields, w, rows, k),
        PType::U32 => read_column::<IntCells<u32>>(alloc, n, fields, w, rows, k),
        PType::U64 => read_column::<IntCells<u64>>(alloc, n, fields, w, rows, k),
    }
}

/// The column of the fields of a column in rows of `width` fields, each bytes or null; none if one
/// is no value of the type (or is not UTF-8), if no cells have the type, or if a text is longer
/// than 4,294,967,295 bytes. E9 where an allocation fails.
pub fn column_of_fields(
    alloc: Global,
    dtype: &DType,
    fields: &[Option<&[u8]>],
    width: usize,
    row_count: usize,
    column: usize,
) -> VortexResult<Option<Column>>
    requires column { column < width }
    requires even { length fields.now ≡ width * row_count }
    ensures { AnswersUnlessMemory result (λ c. c ≡ column_of_fields (type_of dtype.now)
        (cells_apart (map cell_in fields.now) width row_count column)) }
{
    let (w, rows, k) = (width, row_count, column);
    match dtype {
        DType::Bool(n) => read_column::<BoolCells>(alloc, *n, fields, w, rows, k),
        DType::Utf8(n) => read_column::<TextCells>(alloc, *n, fields, w, rows, k),
        DType::Primitive(ptype, n) => read_int_column(alloc, *ptype, *n, fields, w, rows, k),
        _ => Ok(None),
    }
}
