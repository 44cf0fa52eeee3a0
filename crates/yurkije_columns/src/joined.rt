//! Columns of truth values or integers, appended to one another.
ghost use Rattle.std.specs.Prelude.{◌≡◌, ◌<◌, ◌≤◌, ◌+◌, ◌*◌, ◌/◌, ℕ, length, map, take, drop};
ghost use Rattle.std.specs.Prelude.{true, false, [], ◌++◌, OnErr, OnOk, MatchOption};
ghost use Rattle.vortex_errors.specs.Answers.{AnswersUnlessMemory};
ghost use Rattle.vortex_types.specs.LogicalTypes.{is_bool_type};
ghost use Rattle.vortex_types.specs.TypeOf.{type_of};
ghost use Rattle.vortex_columns.specs.ColumnView.{IsIntegerType};
ghost use Rattle.vortex_columns.specs.ValidityView.{validity_of, FitsRows};
ghost use Rattle.vortex_arrow.specs.Layouts.{bits, numbers, HasItems};
ghost use Rattle.vortex_arrow.specs.Columns.{column_from};
ghost use Rattle.vortex_arrow.specs.Written.{bytes_for, AreCopied};
ghost use Rattle.yurkije_columns.specs.Joining.{layout_joined, validity_in, is_flat_type};
ghost use Rattle.yurkije_columns.specs.Joining.{AreOfType, Joins, HaveRoom};

use std::alloc::Global;
use std::marker::Model;
use vortex_arrow::{CopyError, bytes_for, copy_bools, copy_integers};
use vortex_columns::{
    BitBuffer, Column, DType, NativePType, PType, Validity, VortexError, VortexResult,
};

/// Copies truth values after others, from one byte on.
fn put_bools(
    column: &Column,
    at: usize,
    validity: &mut [u8],
    values: &mut [u8],
) -> Result<(), CopyError>
    requires kind { is_bool_type column.now.dtype ≡ true }
    requires bits { at + bytes_for (length column.now.rows) ≤ length validity.old }
    requires items { at + bytes_for (length column.now.rows) ≤ length values.old }
    ensures before { (take at validity.new ≡ take at validity.old)
        × (take at values.new ≡ take at values.old) }
    ensures copied { OnOk result
        (AreCopied column.now.rows (drop at validity.new) (bits (drop at values.new))) }
{
    copy_bools(column, &mut validity[at..], &mut values[at..])
}

/// Copies integers after others: which rows are not null from one byte on, and the integers from
/// one place on.
fn put_integers<T: NativePType>(
    column: &Column,
    at: usize,
    from: usize,
    validity: &mut [u8],
    values: &mut [T],
) -> Result<(), CopyError>
    requires kind { IsIntegerType T.ptype column.now.dtype }
    requires bits { at + bytes_for (length column.now.rows) ≤ length validity.old }
    requires items { from + length column.now.rows ≤ length values.old }
    ensures before { (take at validity.new ≡ take at validity.old)
        × (take from values.new ≡ take from values.old) }
    ensures copied { OnOk result (AreCopied column.now.rows (drop at validity.new)
        (numbers T.ptype (map T.number (drop from values.new)))) }
{
    copy_integers(column, &mut validity[at..], &mut values[from..])
}

/// Appends truth values to `len` others, which end with a byte.
fn push_bools(
    column: &Column,
    len: usize,
    validity: &mut Vec<u8>,
    values: &mut Vec<u8>,
) -> VortexResult<()>
    requires kind { is_bool_type column.now.dtype ≡ true }
    requires whole { 8 * (len / 8) ≡ len }
    requires room { HaveRoom len validity.old.items (bits values.old.items) }
    ensures joined { AnswersUnlessMemory result (λ _. Joins len column.now.rows validity.old.items
        (bits values.old.items) validity.new.items (bits values.new.items)) }
    ensures kept { OnErr result (HaveRoom len validity.new.items (bits values.new.items)) }
{
    let at = len / 8;
    let Some(end) = at.checked_add(bytes_for(column.len())) else {
        return Err(VortexError::OutOfMemory);
    };
    validity.resize(end, 0)?;
    values.resize(end, 0)?;
    match put_bools(column, at, validity, values) {
        Ok(()) => Ok(()),
        Err(_) => Err(VortexError::OutOfMemory),
    }
}

/// Appends integers to `len` others, of which the bits of those that are not null end with a byte.
fn push_integers<T: NativePType>(
    column: &Column,
    len: usize,
    validity: &mut Vec<u8>,
    values: &mut Vec<T>,
) -> VortexResult<()>
    requires kind { IsIntegerType T.ptype column.now.dtype }
    requires whole { 8 * (len / 8) ≡ len }
    requires room { HaveRoom len validity.old.items
        (numbers T.ptype (map T.number values.old.items)) }
    ensures joined { AnswersUnlessMemory result (λ _. Joins len column.now.rows validity.old.items
        (numbers T.ptype (map T.number values.old.items)) validity.new.items
        (numbers T.ptype (map T.number values.new.items))) }
    ensures kept { OnErr result (HaveRoom len validity.new.items
        (numbers T.ptype (map T.number values.new.items))) }
{
    let at = len / 8;
    let (Some(bytes), Some(end)) = (
        at.checked_add(bytes_for(column.len())),
        len.checked_add(column.len()),
    ) else {
        return Err(VortexError::OutOfMemory);
    };
    validity.resize(bytes, 0)?;
    values.resize(end, T::zero())?;
    match put_integers(column, at, len, validity, values) {
        Ok(()) => Ok(()),
        Err(_) => Err(VortexError::OutOfMemory),
    }
}

/// Which of `len` rows are not null.
fn validity_in(bits: Vec<u8>, nullable: bool, len: usize) -> VortexResult<Validity>
    requires { len ≤ 8 * length bits.items }
    ensures { AnswersUnlessMemory result (λ v. validity_of v ≡ validity_in nullable bits.items len) }
{
    if !nullable {
        return Ok(Validity::NonNullable);
    }
    match BitBuffer::new(bits, 0, len) {
        Ok(bits) => Ok(Validity::Array(bits)),
        Err(_) => Err(VortexError::OutOfMemory),
    }
}

/// A column of `len` truth values.
fn column_of_bools(
    alloc: Global,
    values: Vec<u8>,
    len: usize,
    validity: Validity,
) -> VortexResult<Column>
    requires items { len ≤ 8 * length values.items }
    requires fits { FitsRows (validity_of validity) len }
    ensures { AnswersUnlessMemory result
        (λ c. c ≡ column_from (bits values.items) (validity_of validity) 0 len) }
{
    let Ok(bits) = BitBuffer::new(values, 0, len) else {
        return Err(VortexError::OutOfMemory);
    };
    match Column::try_bool(alloc, bits, validity) {
        Ok(column) => Ok(column),
        Err(_) => Err(VortexError::OutOfMemory),
    }
}

/// A column of the first integers.
fn column_of_integers<T: NativePType>(
    alloc: Global,
    values: Vec<T>,
    len: usize,
    validity: Validity,
) -> VortexResult<Column>
    requires items { len ≤ length values.items }
    requires fits { FitsRows (validity_of validity) len }
    ensures { AnswersUnlessMemory result (λ c. c ≡ column_from
        (numbers T.ptype (map T.number values.items)) (validity_of validity) 0 len) }
{
    let mut first = values;
    first.truncate(len);
    match Column::try_primitive(alloc, first, validity) {
        Ok(column) => Ok(column),
        Err(_) => Err(VortexError::OutOfMemory),
    }
}

/// Truth values as bits, or integers of one type.
#[derive(Drop)]
enum Values {
    Bools(Vec<u8>),
    I8(Vec<i8>),
    I16(Vec<i16>),
    I32(Vec<i32>),
    I64(Vec<i64>),
    U8(Vec<u8>),
    U16(Vec<u16>),
    U32(Vec<u32>),
    U64(Vec<u64>),
}

impl Values {
    /// None yet, with room for so many; no list where they are of another type.
    fn with_capacity(alloc: Global, dtype: &DType, rows: usize) -> VortexResult<Option<Values>>
        ensures { AnswersUnlessMemory result (λ o. MatchOption o
            (is_flat_type (type_of dtype.now) ≡ false)
            (λ v. AreOfType (layout_joined v) (type_of dtype.now))) }
    {
        let values = match dtype {
            DType::Bool(_) => Values::Bools(Vec::with_capacity(alloc, bytes_for(rows))?),
            DType::Primitive(PType::I8, _) => Values::I8(Vec::with_capacity(alloc, rows)?),
            DType::Primitive(PType::I16, _) => Values::I16(Vec::with_capacity(alloc, rows)?),
            DType::Primitive(PType::I32, _) => Values::I32(Vec::with_capacity(alloc, rows)?),
            DType::Primitive(PType::I64, _) => Values::I64(Vec::with_capacity(alloc, rows)?),
            DType::Primitive(PType::U8, _) => Values::U8(Vec::with_capacity(alloc, rows)?),
            DType::Primitive(PType::U16, _) => Values::U16(Vec::with_capacity(alloc, rows)?),
            DType::Primitive(PType::U32, _) => Values::U32(Vec::with_capacity(alloc, rows)?),
            DType::Primitive(PType::U64, _) => Values::U64(Vec::with_capacity(alloc, rows)?),
            _ => return Ok(None),
        };
        Ok(Some(values))
    }

    /// Puts the values of a column behind so many, and the bits of its rows that are not null behind
    /// those.
    fn push(&mut self, column: &Column, len: usize, validity: &mut Vec<u8>) -> VortexResult<()>
        requires kind { AreOfType (layout_joined self.old) column.now.dtype }
        requires whole { 8 * (len / 8) ≡ len }
        requires room { HaveRoom len validity.old.items (layout_joined self.old) }
        ensures kind { AreOfType (layout_joined self.new) column.now.dtype }
        ensures joined { AnswersUnlessMemory result
            (λ _. Joins len column.now.rows validity.old.items (layout_joined self.old)
            validity.new.items (layout_joined self.new)) }
        ensures kept { OnErr result (HaveRoom len validity.new.items (layout_joined self.new)) }
    {
        match self {
            Values::Bools(values) => push_bools(column, len, validity, values),
            Values::I8(values) => push_integers(column, len, validity, values),
            Values::I16(values) => push_integers(column, len, validity, values),
            Values::I32(values) => push_integers(column, len, validity, values),
            Values::I64(values) => push_integers(column, len, validity, values),
            Values::U8(values) => push_integers(column, len, validity, values),
            Values::U16(values) => push_integers(column, len, validity, values),
            Values::U32(values) => push_integers(column, len, validity, values),
            Values::U64(values) => push_integers(column, len, validity, values),
        }
    }

    /// The column of the first of them.
    fn into_column(self, alloc: Global, len: usize, validity: Validity) -> VortexResult<Column>
        requires items { HasItems (layout_joined self) 0 len }
        requires fits { FitsRows (validity_of validity) len }
        ensures { AnswersUnlessMemory result
            (λ c. c ≡ column_from (layout_joined self) (validity_of validity) 0 len) }
    {
        match self {
            Values::Bools(values) => column_of_bools(alloc, values, len, validity),
            Values::I8(values) => column_of_integers(alloc, values, len, validity),
            Values::I16(values) => column_of_integers(alloc, values, len, validity),
            Values::I32(values) => column_of_integers(alloc, values, len, validity),
            Values::I64(values) => column_of_integers(alloc, values, len, validity),
            Values::U8(values) => column_of_integers(alloc, values, len, validity),
            Values::U16(values) => column_of_integers(alloc, values, len, validity),
            Values::U32(values) => column_of_integers(alloc, values, len, validity),
            Values::U64(values) => column_of_integers(alloc, values, len, validity),
        }
    }
}

/// The rows of columns of one type, one column after another, in the buffers of one column.
#[derive(Drop)]
pub struct Joined {
    nullable: bool,
    len: usize,
    validity: Vec<u8>,
    values: Values,
}

impl Model for Joined {
    ghost use Rattle.vortex_columns.specs.ColumnView.{ColumnView, coded_column};
    ghost use Rattle.yurkije_columns.specs.Joining.{joined_column, IsJoined};

    ghost Value = { ColumnView };

    ghost coded = { coded_column };

    ghost view = { joined_column };

    ghost invariant = { IsJoined };
}

impl Joined {
    /// No row of that type yet, with room for so many; none where the type is neither of truth
    /// values nor of integers.
    pub fn new(alloc: Global, dtype: &DType, rows: usize) -> VortexResult<Option<Joined>>
        ensures { AnswersUnlessMemory result (λ o. MatchOption o
            (is_flat_type (type_of dtype.now) ≡ false)
            (λ j. (j.dtype ≡ type_of dtype.now) × (j.rows ≡ []))) }
    {
        let Some(values) = Values::with_capacity(alloc, dtype, rows)? else {
            return Ok(None);
        };
        Ok(Some(Joined {
            nullable: dtype.is_nullable(),
            len: 0,
            validity: Vec::with_capacity(alloc, bytes_for(rows))?,
            values,
        }))
    }

    /// Puts the rows of a column of the type behind those that stand there, whose bits end with a
    /// byte.
    pub fn push(&mut self, column: &Column) -> VortexResult<()>
        requires dtype { column.now.dtype ≡ self.old.dtype }
        requires whole { 8 * (length self.old.rows / 8) ≡ length self.old.rows }
        ensures dtype { AnswersUnlessMemory result (λ _. self.new.dtype ≡ self.old.dtype) }
        ensures rows { AnswersUnlessMemory result
            (λ _. self.new.rows ≡ self.old.rows ++ column.now.rows) }
    {
        let _typed = column.dtype();
        let Some(end) = self.len.checked_add(column.len()) else {
            return Err(VortexError::OutOfMemory);
        };
        self.values.push(column, self.len, &mut self.validity)?;
        self.len = end;
        Ok(())
    }

    /// The column of the rows.
    pub fn into_column(self, alloc: Global) -> VortexResult<Column>
        ensures { AnswersUnlessMemory result (λ c. c ≡ self) }
    {
        let validity = validity_in(self.validity, self.nullable, self.len)?;
        self.values.into_column(alloc, self.len, validity)
    }
}
