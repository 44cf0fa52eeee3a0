//! Answers copied into a caller's buffers.
ghost use Rattle.std.specs.Prelude.{◌≡◌, ◌↔◌, IsTrue, MatchResult, OnOk, OnErr, true, ⊤};
ghost use Rattle.vortex_columns.specs.ColumnView.{is_bytes_like};
ghost use Rattle.yurkije_columns.specs.Outputs.{IsSize, RefusesSize, StandsIn, RefusesRoom};
ghost use Rattle.yurkije_columns.specs.Outputs.{IsCopied, RefusesCopy, IsOfKind, KeepsLoans};

use crate::kinds::{Kind, kind_numbered};
use vortex_arrow::{
    CopyError, byte_count, bytes_for, copy_bools, copy_integers, copy_narrow_floats, copy_texts,
    copy_wide_floats,
};
use vortex_columns::{Column, DType};

/// What an answer takes: how long buffers have to be at least.
#[repr(C)]
#[derive(Clone, Copy, Drop)]
pub struct Size {
    pub rows: usize,
    /// Bytes of bits.
    pub validity: usize,
    /// Integers, or bytes of truth values; none of texts.
    pub values: usize,
    /// One more than rows, of texts and byte strings alone.
    pub offsets: usize,
    /// Bytes, of texts and byte strings alone.
    pub data: usize,
}

/// A caller's buffers for an answer, as C has them: the kind says which of them are written.
#[repr(C)]
#[derive(Drop)]
pub struct Room<'a> {
    pub kind: u32,
    pub validity: &'a mut [u8],
    pub bools: &'a mut [u8],
    pub i8s: &'a mut [i8],
    pub i16s: &'a mut [i16],
    /// Integers, days, or patterns of floats.
    pub i32s: &'a mut [i32],
    /// Integers, microseconds, decimals, or patterns of floats.
    pub i64s: &'a mut [i64],
    pub u8s: &'a mut [u8],
    pub u16s: &'a mut [u16],
    pub u32s: &'a mut [u32],
    pub u64s: &'a mut [u64],
    pub offsets32: &'a mut [i32],
    pub offsets64: &'a mut [i64],
    pub data: &'a mut [u8],
}

/// The size of a column of texts or byte strings.
fn text_size(column: &Column) -> Result<Size, CopyError>
    requires { is_bytes_like column.now.dtype ≡ true }
    ensures { MatchResult result (IsSize column.now) (RefusesSize column.now) }
{
    let rows = column.len();
    let Some(offsets) = rows.checked_add(1) else {
        return Err(CopyError::TooLong);
    };
    match byte_count(column) {
        Some(data) => Ok(Size {
            rows,
            validity: bytes_for(rows),
            values: 0,
            offsets,
            data,
        }),
        None => Err(CopyError::TooLong),
    }
}

/// How long the buffers for a column have to be. Refused where it is of a type that is not copied,
/// and where its texts have more bytes, or offsets, than a usize counts.
pub fn size_of(column: &Column) -> Result<Size, CopyError>
    ensures { MatchResult result (IsSize column.now) (RefusesSize column.now) }
{
    let rows = column.len();
    let validity = bytes_for(rows);
    let values = match column.dtype() {
        DType::Bool(_) => validity,
        DType::Primitive(_, _) => rows,
        DType::Utf8(_) | DType::Binary(_) => return text_size(column),
        _ => return Err(CopyError::OtherType),
    };
    Ok(Size {
        rows,
        validity,
        values,
        offsets: 0,
        data: 0,
    })
}

/// Whether values of the kind have the type of the column.
fn is_of_kind(kind: Kind, column: &Column) -> bool
    ensures { IsTrue result ↔ IsOfKind kind column.now.dtype }
{
    kind.dtype(column.dtype().is_nullable()) == *column.dtype()
}

/// Copies a column into the buffers of its kind: the bits of the rows that are not null, and the
/// values.
fn copy_into(column: &Column, kind: Kind, room: &mut Room<'_>) -> Result<(), CopyError>
    requires { IsOfKind kind column.now.dtype }
    ensures copied { OnOk result (StandsIn kind column.now room.old room.new) }
    ensures refused { MatchResult result (λ _. ⊤) (RefusesRoom kind column.now room.old) }
    ensures kept { OnErr result (room.new ≡ room.old) }
    ensures loans { KeepsLoans room.old room.new }
{
    match kind {
        Kind::Bool => copy_bools(column, room.validity, room.bools),
        Kind::I8 => copy_integers(column, room.validity, room.i8s),
        Kind::I16 => copy_integers(column, room.validity, room.i16s),
        Kind::I32 => copy_integers(column, room.validity, room.i32s),
        Kind::I64 => copy_integers(column, room.validity, room.i64s),
        Kind::U8 => copy_integers(column, room.validity, room.u8s),
        Kind::U16 => copy_integers(column, room.validity, room.u16s),
        Kind::U32 => copy_integers(column, room.validity, room.u32s),
        Kind::U64 => copy_integers(column, room.validity, room.u64s),
        Kind::Utf8 => copy_texts(column, room.validity, room.offsets32, room.data),
        Kind::LargeUtf8 => copy_texts(column, room.validity, room.offsets64, room.data),
        Kind::Binary => copy_texts(column, room.validity, room.offsets32, room.data),
        Kind::LargeBinary => copy_texts(column, room.validity, room.offsets64, room.data),
        Kind::F64 => copy_wide_floats(column, room.validity, room.i64s),
        Kind::F32 => copy_narrow_floats(column, room.validity, room.i32s),
        Kind::Date => copy_integers(column, room.validity, room.i32s),
        Kind::Timestamp => copy_integers(column, room.validity, room.i64s),
        Kind::Decimal { .. } => copy_integers(column, room.validity, room.i64s),
        Kind::Utf8View | Kind::BinaryView => Err(CopyError::OtherType),
    }
}

/// Why an answer is not copied.
#[derive(Clone, Copy, Debug, Drop, PartialEq, Eq)]
pub enum RoomError {
    /// The room's kind is none.
    UnknownKind,
    /// The answer is of another kind, or a buffer is too short.
    Uncopied(CopyError),
}

/// Copies an answer, whose values mean what the number says, into the caller's buffers, each from
/// its first item on. What lies behind stays as it was, and so do the buffers of other kinds, and all
/// where the copy is refused.
pub fn copy_answer(column: &Column, number: u32, room: &mut Room<'_>) -> Result<(), RoomError>
    ensures copied { OnOk result (IsCopied column.now number room.old room.new) }
    ensures refused { MatchResult result (λ _. ⊤) (RefusesCopy column.now number room.old) }
    ensures kept { OnErr result (room.new ≡ room.old) }
    ensures loans { KeepsLoans room.old room.new }
{
    let Some(kind) = kind_numbered(room.kind) else {
        return Err(RoomError::UnknownKind);
    };
    if !is_of_kind(kind, column) {
        return Err(RoomError::Uncopied(CopyError::OtherType));
    }
    if kind.logical_number() != number {
        return Err(RoomError::Uncopied(CopyError::OtherType));
    }
    match copy_into(column, kind, room) {
        Ok(()) => Ok(()),
        Err(error) => Err(RoomError::Uncopied(error)),
    }
}
