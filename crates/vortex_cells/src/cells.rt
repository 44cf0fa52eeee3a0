//! Columns and values parsed from cells, each a text or null.
ghost use Rattle.std.specs.Prelude.{◌≡◌, refl, [], Bool, None, map, option_map, is_some};
ghost use Rattle.std.specs.Prelude.{MatchOption, Option, List};
ghost use Rattle.std.specs.Option.{option_and_then};
ghost use Rattle.vortex_errors.specs.Answers.{AnswersUnlessMemory};
ghost use Rattle.vortex_types.specs.LogicalTypes.{LogicalType, bool_type, integer_type, text_type};
ghost use Rattle.vortex_types.specs.LogicalTypes.{is_nullable};
ghost use Rattle.vortex_types.specs.TypeOf.{type_of, allows_null};
ghost use Rattle.vortex_types.specs.Values.{Value, truth, number, text};
ghost use Rattle.vortex_types.specs.ValueOf.{value_of};
ghost use Rattle.vortex_types.specs.Typing.{HasType};
ghost use Rattle.vortex_columns.specs.ValidityView.{validity_of};
ghost use Rattle.vortex_cells.specs.CellValues.{text_bytes, cell_value, cell_values, column_from};
ghost use Rattle.vortex_cells.specs.CellValues.{column_of_cells, literal_of_cell, cell_fits};
ghost use Rattle.vortex_cells.specs.CellValues.{column_where};
ghost use Rattle.vortex_cells.specs.Cells.{cell_in, AreCells, cells_validity};
ghost use Rattle.vortex_cells.specs.Answering.{ReadsItem, ReadsCell, MakesColumn};

use crate::digits::read_integer;
use std::alloc::Global;
use std::marker::PhantomData;
use vortex_columns::{
    BitBuffer, Column, DType, NativePType, Nullability, PType, Scalar, ScalarValue, Validity,
    VortexError, VortexResult,
};

/// The types of one kind, nullable or not.
pub(crate) trait CellTypes {
    ghost kind: { Bool → LogicalType };

    ghost nullable: { (n : Bool) → is_nullable (kind n) ≡ n };
}

/// Values of one kind, parsed from texts; texts are borrowed.
pub(crate) trait CellKind<'a>: CellTypes {
    type Item: Copy + Drop;

    ghost value: { Self.Item → Value };

    /// The value of a text; none if it is no value of this kind.
    fn read(text: &'a str) -> Option<Self::Item>
        ensures { ReadsItem value Self.kind text.now result };

    /// The item under a null.
    fn blank() -> Self::Item
        ensures { text_bytes (value result) ≡ [] };

    /// The scalar of the value, of the kind's types. E9 where an allocation fails.
    fn scalar_value(alloc: Global, item: Self::Item) -> VortexResult<ScalarValue>
        ensures value { AnswersUnlessMemory result (λ v. value_of v ≡ value item) }
        ensures typed { (n : Bool) → HasType (Self.kind n) (value item) };

    /// A column of the values. E12 exactly if a list of valid bits has another length, a text is
    /// longer than 4,294,967,295 bytes, or the texts need too many buffers.
    fn column(alloc: Global, values: Vec<Self::Item>, validity: Validity) -> VortexResult<Column>
        ensures { MakesColumn value Self.kind (validity_of validity) values.items result };
}

pub(crate) struct BoolCells {}

pub(crate) struct IntCells<T: NativePType>(PhantomData<T>);

pub(crate) struct TextCells {}

impl CellTypes for BoolCells {
    ghost kind = { bool_type };

    ghost nullable = { λ n. refl };
}

impl<T: NativePType> CellTypes for IntCells<T> {
    ghost kind = { integer_type T.ptype };

    ghost nullable = { λ n. refl };
}

impl CellTypes for TextCells {
    ghost kind = { text_type };

    ghost nullable = { λ n. refl };
}

impl<'a> CellKind<'a> for BoolCells {
    type Item = bool;

    ghost value = { truth };

    fn read(text: &'a str) -> Option<bool> {
        if text == "true" {
            Some(true)
        } else if text == "false" {
            Some(false)
        } else {
            None
        }
    }

    fn blank() -> bool {
        false
    }

    fn scalar_value(_alloc: Global, item: bool) -> VortexResult<ScalarValue> {
        Ok(ScalarValue::Bool(item))
    }

    fn column(alloc: Global, values: Vec<bool>, validity: Validity) -> VortexResult<Column>
        ensures { MakesColumn truth bool_type (validity_of validity) values.items result }
    {
        let bits = BitBuffer::from_bools(alloc, &values)?;
        Column::try_bool(alloc, bits, validity)
    }
}

impl<'a, T: NativePType> CellKind<'a> for IntCells<T> {
    type Item = T;

    ghost value = { λ x. number (T.number x) };

    fn read(text: &'a str) -> Option<T> {
        match read_integer(text) {
            Some(number) => T::from_i128(number),
            None => None,
        }
    }

    fn blank() -> T {
        T::zero()
    }

    fn scalar_value(_alloc: Global, item: T) -> VortexResult<ScalarValue> {
        Ok(ScalarValue::Int(item.to_i128()))
    }

    fn column(alloc: Global, values: Vec<T>, validity: Validity) -> VortexResult<Column>
        ensures { MakesColumn (λ x. number (T.number x)) (integer_type T.ptype)
            (validity_of validity) values.items result }
    {
        Column::try_primitive(alloc, values, validity)
    }
}

impl<'a> CellKind<'a> for TextCells {
    type Item = &'a str;

    ghost value = { λ s. text s.now };

    fn read(text: &'a str) -> Option<&'a str> {
        Some(text)
    }

    fn blank() -> &'a str {
        ""
    }

    fn scalar_value(alloc: Global, item: &'a str) -> VortexResult<ScalarValue> {
        Ok(ScalarValue::Utf8(String::from_str(alloc, item)?))
    }

    fn column(alloc: Global, values: Vec<&'a str>, validity: Validity) -> VortexResult<Column>
        ensures { MakesColumn (λ s. text s.now) text_type (validity_of validity)
            values.entry.items result }
    {
        Column::try_texts(alloc, &values, validity)
    }
}

/// The value of a cell, or null; none if it is no value of the type.
#[inline(always)]
fn read_cell<'a, K: CellKind<'a>>(
    nullability: Nullability,
    cell: Option<&'a str>,
) -> Option<Option<K::Item>>
    ensures { ReadsCell K.value (K.kind (allows_null nullability)) (cell_in cell.entry) result }
{
    match cell {
        Some(text) => Some(Some(K::read(text)?)),
        None if nullability.is_nullable() => Some(None),
        None => None,
    }
}

/// The values of cells: an item for each, with a blank under each null, and which are not null.
#[derive(Drop)]
pub(crate) struct Cells<T> {
    pub(crate) items: Vec<T>,
    pub(crate) valid: Vec<bool>,
}

/// The value of each cell; none if one is no value of the type. E9 where an allocation fails.
fn read_cells<'a, K: CellKind<'a>>(
    alloc: Global,
    nullability: Nullability,
    cells: &[Option<&'a str>],
) -> VortexResult<Option<Cells<K::Item>>>
    ensures { AnswersUnlessMemory result (λ read. MatchOption read
        (cell_values (K.kind (allows_null nullability)) (map cell_in cells.now) ≡ None)
        (λ c. AreCells (allows_null nullability) (map K.value c.items.items) c.valid.items
        (cell_values (K.kind (allows_null nullability)) (map cell_in cells.now)))) }
{
    let mut items = Vec::with_capacity(alloc, cells.len())?;
    let mut valid = Vec::with_capacity(alloc, cells.len())?;
    for cell in cells {
        let Some(item) = read_cell::<K>(nullability, *cell) else {
            return Ok(None);
        };
        valid.push(item.is_some())?;
        items.push(item.unwrap_or(K::blank()))?;
    }
    Ok(Some(Cells { items, valid }))
}

/// The validity of a column whose cells are valid where marked.
fn cells_validity(alloc: Global, nullability: Nullability, valid: &[bool]) -> VortexResult<Validity>
    ensures { AnswersUnlessMemory result
        (λ v. validity_of v ≡ cells_validity (allows_null nullability) valid.now) }
{
    match nullability {
        Nullability::NonNullable => Ok(Validity::NonNullable),
        Nullability::Nullable => Ok(Validity::Array(BitBuffer::from_bools(alloc, valid)?)),
    }
}

/// The column of the values; none if a text is too long for a column. E9 where an allocation fails.
pub(crate) fn column_of<'a, K: CellKind<'a>>(
    alloc: Global,
    nullability: Nullability,
    cells: Cells<K::Item>,
) -> VortexResult<Option<Column>>
    ensures { (said : Option (List Value)) → AreCells (allows_null nullability)
        (map K.value cells.items.items) cells.valid.items said
        → AnswersUnlessMemory result
        (λ c. c ≡ option_and_then (column_where (K.kind (allows_null nullability))) said) }
{
    let Cells { items, valid } = cells;
    let validity = cells_validity(alloc, nullability, &valid)?;
    match K::column(alloc, items, validity) {
        Ok(column) => Ok(Some(column)),
        Err(VortexError::InvalidColumn) => Ok(None),
        Err(error) => Err(error),
    }
}

/// The column of the cells; none if one is no value of the type, or a text is too long for a
/// column. E9 where an allocation fails.
fn read_column<'a, K: CellKind<'a>>(
    alloc: Global,
    nullability: Nullability,
    cells: &[Option<&'a str>],
) -> VortexResult<Option<Column>>
    ensures { AnswersUnlessMemory result
        (λ c. c ≡ column_from (K.kind (allows_null nullability)) (map cell_in cells.now)) }
{
    match read_cells::<K>(alloc, nullability, cells)? {
        Some(read) => column_of::<K>(alloc, nullability, read),
        None => Ok(None),
    }
}

/// The value of the cell, with its type; none if it is no value of the type. E9 where an allocation
/// fails.
fn read_value<'a, K: CellKind<'a>>(
    alloc: Global,
    dtype: DType,
    cell: Option<&'a str>,
) -> VortexResult<Option<Scalar>>
    requires { type_of dtype ≡ K.kind (is_nullable (type_of dtype)) }
    ensures { AnswersUnlessMemory result (λ s. s ≡ option_map
        (λ v. record { dtype = type_of dtype; value = v })
        (cell_value (type_of dtype) (cell_in cell.entry))) }
{
    match read_cell::<K>(dtype.nullability(), cell) {
        Some(Some(item)) => {
            let value = K::scalar_value(alloc, item)?;
            Ok(Some(Scalar::try_new(dtype, Some(value))?))
        }
        Some(None) => Ok(Some(Scalar::try_new(dtype, None)?)),
        None => Ok(None),
    }
}

/// Whether the cell has a value of the type.
fn holds_value<'a, K: CellKind<'a>>(nullability: Nullability, cell: Option<&'a str>) -> bool
    ensures { result
        ≡ is_some (cell_value (K.kind (allows_null nullability)) (cell_in cell.entry)) }
{
    read_cell::<K>(nullability, cell).is_some()
}

/// The call over the cells of an integer type. Only here is it dispatched.
macro_rules! with_int_cells {
    ($ptype:expr, $read:ident($($argument:expr),*)) => {
        match $ptype {
            PType::I8 => $read::<IntCells<i8>>($($argument),*),
            PType::I16 => $read::<IntCells<i16>>($($argument),*),
            PType::I32 => $read::<IntCells<i32>>($($argument),*),
            PType::I64 => $read::<IntCells<i64>>($($argument),*),
            PType::U8 => $read::<IntCells<u8>>($($argument),*),
            PType::U16 => $read::<IntCells<u16>>($($argument),*),
            PType::U32 => $read::<IntCells<u32>>($($argument),*),
            PType::U64 => $read::<IntCells<u64>>($($argument),*),
        }
    };
}

/// The column of the cells of an integer type; none if one is no value of it. E9 where an
/// allocation fails.
fn read_int_column(
    alloc: Global,
    ptype: PType,
    nullability: Nullability,
    cells: &[Option<&str>],
) -> VortexResult<Option<Column>>
    ensures { AnswersUnlessMemory result
        (λ c. c ≡ column_from (integer_type ptype (allows_null nullability))
        (map cell_in cells.now)) }
{
    with_int_cells!(ptype, read_column(alloc, nullability, cells))
}

/// The column of cells, each a text or null; none if one is no value of the type, if no cells have
/// the type, or if a text is longer than 4,294,967,295 bytes. E9 where an allocation fails.
pub fn column_of_cells(
    alloc: Global,
    dtype: &DType,
    cells: &[Option<&str>],
) -> VortexResult<Option<Column>>
    ensures { AnswersUnlessMemory result
        (λ c. c ≡ column_of_cells (type_of dtype.now) (map cell_in cells.now)) }
{
    match dtype {
        DType::Bool(nullability) => read_column::<BoolCells>(alloc, *nullability, cells),
        DType::Utf8(nullability) => read_column::<TextCells>(alloc, *nullability, cells),
        DType::Primitive(ptype, nullability) => {
            read_int_column(alloc, *ptype, *nullability, cells)
        }
        _ => Ok(None),
    }
}

/// The value of a cell with that type; none if it is no value of it, or no cells have the type. E9
/// where an allocation fails.
pub fn literal_of_cell(
    alloc: Global,
    dtype: &DType,
    cell: Option<&str>,
) -> VortexResult<Option<Scalar>>
    ensures { AnswersUnlessMemory result
        (λ s. s ≡ literal_of_cell (type_of dtype.now) (cell_in cell.entry)) }
{
    match dtype {
        DType::Bool(nullability) => {
            read_value::<BoolCells>(alloc, DType::Bool(*nullability), cell)
        }
        DType::Utf8(nullability) => {
            read_value::<TextCells>(alloc, DType::Utf8(*nullability), cell)
        }
        DType::Primitive(ptype, nullability) => {
            let dtype = DType::Primitive(*ptype, *nullability);
            with_int_cells!(*ptype, read_value(alloc, dtype, cell))
        }
        _ => Ok(None),
    }
}

/// Whether the cell has a value of the type.
pub fn cell_fits(dtype: &DType, cell: Option<&str>) -> bool
    ensures { result ≡ cell_fits (type_of dtype.now) (cell_in cell.entry) }
{
    match dtype {
        DType::Bool(nullability) => holds_value::<BoolCells>(*nullability, cell),
        DType::Utf8(nullability) => holds_value::<TextCells>(*nullability, cell),
        DType::Primitive(ptype, nullability) => {
            with_int_cells!(*ptype, holds_value(*nullability, cell))
        }
        _ => false,
    }
}
