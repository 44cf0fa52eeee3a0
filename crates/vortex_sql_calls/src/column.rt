//! A column of cells.
ghost use Rattle.std.specs.Prelude.{◌≡◌, ◌<◌, ℕ, ℤ, List, true, length, map, not};
ghost use Rattle.vortex_errors.specs.Answers.{AnswersUnlessMemory};
ghost use Rattle.vortex_types.specs.LogicalTypes.{bool_type, text_type, is_nullable};
ghost use Rattle.vortex_types.specs.TypeOf.{type_of, allows_null};
ghost use Rattle.vortex_types.specs.Values.{is_null, number, text};
ghost use Rattle.vortex_types.specs.Typing.{FitsPType};
ghost use Rattle.vortex_columns.specs.ColumnView.{IsIntegerType};
ghost use Rattle.vortex_columns.specs.Cells.{cell_value};
ghost use Rattle.vortex_columns.specs.Made.{borrowed_texts};
ghost use Rattle.vortex_columns.specs.ValidRows.{IsValidity};
ghost use Rattle.vortex_columns.specs.ValidityView.{validity_of};
ghost use Rattle.vortex_kernels.specs.Rows.{HasRows};
ghost use Rattle.vortex_sql_rows.specs.Types.{is_single};
ghost use Rattle.vortex_sql_rows.specs.Shapes.{is_true};
ghost use Rattle.vortex_sql_calls.specs.Columns.{cell_row, AreCellsOf, AreNumbers, AreTexts};

use std::alloc::Global;
use vortex_bits::{RowBits, collect_rows};
use vortex_columns::{
    Cell, Column, DType, NativePType, Nullability, PType, Validity, VortexError, VortexResult,
};
use vortex_sql_rows::cells::{int_in, is_null, is_true};

/// Whether each cell is there.
#[derive(Clone, Copy)]
struct ValidCells<'a> {
    cells: &'a [Cell<'a>],
}

impl RowBits for ValidCells<'_> {
    ghost has_row = { λ r i. i < length r.cells.now };

    ghost row_bit = { λ r i. not (is_null (cell_row r.cells.now i)) };

    fn bit(&self, i: usize) -> bool {
        !is_null(&self.cells[i])
    }
}

/// The truth value of each cell.
#[derive(Clone, Copy)]
struct TruthCells<'a> {
    cells: &'a [Cell<'a>],
}

impl RowBits for TruthCells<'_> {
    ghost has_row = { λ r i. i < length r.cells.now };

    ghost row_bit = { λ r i. is_true (cell_row r.cells.now i) };

    fn bit(&self, i: usize) -> bool {
        is_true(&self.cells[i])
    }
}

/// Which cells are there; all are where the type has no null.
#[tactic(auto, using(crate::proofs::Columns::plain_valid))]
fn cells_validity<'a>(alloc: Global, dtype: &DType, cells: &'a [Cell<'a>]) -> VortexResult<Validity>
    requires { AreCellsOf (type_of dtype.now) cells.now }
    ensures { AnswersUnlessMemory result (λ v. IsValidity (is_nullable (type_of dtype.now))
        (length cells.now) (λ i. not (is_null (cell_row cells.now i))) (validity_of v)) }
{
    if !dtype.is_nullable() {
        return Ok(Validity::NonNullable);
    }
    let valid = collect_rows(alloc, &ValidCells { cells }, cells.len())?;
    Ok(Validity::Array(valid))
}

fn bools<'a>(alloc: Global, dtype: &DType, cells: &'a [Cell<'a>]) -> VortexResult<Column>
    requires bool { type_of dtype.now ≡ bool_type (is_nullable (type_of dtype.now)) }
    requires typed { AreCellsOf (type_of dtype.now) cells.now }
    ensures { AnswersUnlessMemory result
        (HasRows (type_of dtype.now) (length cells.now) (cell_row cells.now)) }
{
    let validity = cells_validity(alloc, dtype, cells)?;
    let bits = collect_rows(alloc, &TruthCells { cells }, cells.len())?;
    Column::try_bool(alloc, bits, validity)
}

/// The integer that a cell is, where it is one of the type.
fn int_at<T: NativePType>(cell: &Cell<'_>) -> T
    ensures { (z : ℤ) → cell_value cell.now ≡ number z → FitsPType T.ptype z
        → T.number result ≡ z }
{
    match int_in(cell) {
        Some(value) => match T::from_i128(value) {
            Some(made) => made,
            None => T::zero(),
        },
        None => T::zero(),
    }
}

/// The integers of cells.
fn int_values<T: NativePType>(
    alloc: Global,
    dtype: &DType,
    cells: &[Cell<'_>],
) -> VortexResult<Vec<T>>
    requires integers { IsIntegerType T.ptype (type_of dtype.now) }
    requires typed { AreCellsOf (type_of dtype.now) cells.now }
    ensures { AnswersUnlessMemory result
        (λ values. AreNumbers cells.now (length cells.now) (map T.number values.items)) }
{
    let mut values = Vec::new(alloc);
    for i in 0..cells.len() {
        values.push(int_at::<T>(&cells[i]))?;
    }
    Ok(values)
}

fn ints<'a, T: NativePType>(
    alloc: Global,
    dtype: &DType,
    cells: &'a [Cell<'a>],
) -> VortexResult<Column>
    requires integers { IsIntegerType T.ptype (type_of dtype.now) }
    requires typed { AreCellsOf (type_of dtype.now) cells.now }
    ensures { AnswersUnlessMemory result
        (HasRows (type_of dtype.now) (length cells.now) (cell_row cells.now)) }
{
    let validity = cells_validity(alloc, dtype, cells)?;
    let values = int_values::<T>(alloc, dtype, cells)?;
    Column::try_primitive(alloc, values, validity)
}

/// The text that a cell is.
fn text_at<'a>(cell: &Cell<'a>) -> &'a str
    ensures { (bs : List ℕ) → cell_value cell.now ≡ text bs → result.now ≡ bs }
{
    match cell {
        Cell::Text(value) => value,
        Cell::Null => "",
        Cell::Bool(_) => "",
        Cell::Int(_) => "",
        Cell::Bytes(_) => "",
        Cell::Sequence(_) => "",
    }
}

/// The texts of cells.
fn text_values<'a>(alloc: Global, cells: &[Cell<'a>]) -> VortexResult<Vec<&'a str>>
    ensures { AnswersUnlessMemory result
        (λ values. AreTexts cells.now (length cells.now) (borrowed_texts values.items)) }
{
    let mut values = Vec::new(alloc);
    for i in 0..cells.len() {
        values.push(text_at(&cells[i]))?;
    }
    Ok(values)
}

/// Texts of more than 2 to the power of 64 bytes, and those that are too long for a view, are want
/// of memory.
fn texts<'a>(alloc: Global, dtype: &DType, cells: &'a [Cell<'a>]) -> VortexResult<Column>
    requires text { type_of dtype.now ≡ text_type (is_nullable (type_of dtype.now)) }
    requires typed { AreCellsOf (type_of dtype.now) cells.now }
    ensures { AnswersUnlessMemory result
        (HasRows (type_of dtype.now) (length cells.now) (cell_row cells.now)) }
{
    let validity = cells_validity(alloc, dtype, cells)?;
    let values = text_values(alloc, cells)?;
    match Column::try_texts(alloc, &values, validity) {
        Ok(column) => Ok(column),
        Err(_) => Err(VortexError::OutOfMemory),
    }
}

/// The column of that type with these rows.
pub fn column_of<'a>(alloc: Global, dtype: &DType, cells: &'a [Cell<'a>]) -> VortexResult<Column>
    requires single { is_single (type_of dtype.now) ≡ true }
    requires typed { AreCellsOf (type_of dtype.now) cells.now }
    ensures { AnswersUnlessMemory result
        (HasRows (type_of dtype.now) (length cells.now) (cell_row cells.now)) }
{
    match dtype {
        DType::Bool(_) => bools(alloc, dtype, cells),
        DType::Utf8(_) => texts(alloc, dtype, cells),
        DType::Primitive(ptype, _) => match ptype {
            PType::I8 => ints::<i8>(alloc, dtype, cells),
            PType::I16 => ints::<i16>(alloc, dtype, cells),
            PType::I32 => ints::<i32>(alloc, dtype, cells),
            PType::I64 => ints::<i64>(alloc, dtype, cells),
            PType::U8 => ints::<u8>(alloc, dtype, cells),
            PType::U16 => ints::<u16>(alloc, dtype, cells),
            PType::U32 => ints::<u32>(alloc, dtype, cells),
            PType::U64 => ints::<u64>(alloc, dtype, cells),
        },
        _ => Err(VortexError::OutOfMemory),
    }
}
