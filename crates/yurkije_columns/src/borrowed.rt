//! Columns as a C caller lends them.
ghost use Rattle.std.specs.Prelude.{◌≡◌, option_map, MatchOption, MatchResult, None, true};
ghost use Rattle.vortex_arrow.specs.Layouts.{layout_of};
ghost use Rattle.yurkije_columns.specs.Kinds.{kind_numbered, logical_number, values_number};
ghost use Rattle.yurkije_columns.specs.Borrowed.{borrowed_layout, bits_borrowed, Says, SaysIfRead};
ghost use Rattle.yurkije_columns.specs.Borrowed.{AllSay, is_read, RefusesBorrowed};

use crate::kinds::{Kind, kind_numbered};
use std::alloc::{AllocError, Global};
use vortex_arrow::{ArrowColumn, ArrowValues};

/// Rows of one kind in Arrow's columnar format, as C has them: the kind says which slices are read.
/// No row is null where the validity is empty.
#[repr(C)]
#[derive(Clone, Copy)]
pub struct BorrowedColumn<'a> {
    pub kind: u32,
    pub nullable: bool,
    pub rows: usize,
    /// Row `i` is item `offset + i` of the validity and of the values.
    pub offset: usize,
    pub validity: &'a [u8],
    pub bools: &'a [u8],
    pub i8s: &'a [i8],
    pub i16s: &'a [i16],
    /// Integers, days, or patterns of floats.
    pub i32s: &'a [i32],
    /// Integers, microseconds, decimals, or patterns of floats.
    pub i64s: &'a [i64],
    pub u8s: &'a [u8],
    pub u16s: &'a [u16],
    pub u32s: &'a [u32],
    pub u64s: &'a [u64],
    pub offsets32: &'a [i32],
    pub offsets64: &'a [i64],
    pub data: &'a [u8],
    pub views: &'a [[u8; 16]],
    pub buffers: &'a [&'a [u8]],
}

/// The slice, with an address of its own where it is empty: C may have lent none.
pub fn placed<T>(slice: &[T]) -> &[T]
    ensures { result.now ≡ slice.now }
{
    if slice.is_empty() { &[] } else { slice }
}

impl<'a> BorrowedColumn<'a> {
    /// The buffers that a column of the kind has.
    fn values(&self, kind: Kind) -> ArrowValues<'a>
        ensures layout { layout_of result ≡ borrowed_layout kind self.now }
        ensures means { values_number result ≡ logical_number kind }
    {
        let (views, buffers) = (placed(self.views), placed(self.buffers));
        let (offsets32, offsets64) = (placed(self.offsets32), placed(self.offsets64));
        let data = placed(self.data);
        match kind {
            Kind::Bool => ArrowValues::Bool(placed(self.bools)),
            Kind::I8 => ArrowValues::Int8(placed(self.i8s)),
            Kind::I16 => ArrowValues::Int16(placed(self.i16s)),
            Kind::I32 => ArrowValues::Int32(placed(self.i32s)),
            Kind::I64 => ArrowValues::Int64(placed(self.i64s)),
            Kind::U8 => ArrowValues::UInt8(placed(self.u8s)),
            Kind::U16 => ArrowValues::UInt16(placed(self.u16s)),
            Kind::U32 => ArrowValues::UInt32(placed(self.u32s)),
            Kind::U64 => ArrowValues::UInt64(placed(self.u64s)),
            Kind::Utf8 => ArrowValues::Utf8 {
                offsets: offsets32,
                data,
            },
            Kind::LargeUtf8 => ArrowValues::LargeUtf8 {
                offsets: offsets64,
                data,
            },
            Kind::Utf8View => ArrowValues::Utf8View { views, buffers },
            Kind::Binary => ArrowValues::Binary {
                offsets: offsets32,
                data,
            },
            Kind::LargeBinary => ArrowValues::LargeBinary {
                offsets: offsets64,
                data,
            },
            Kind::BinaryView => ArrowValues::BinaryView { views, buffers },
            Kind::F64 => ArrowValues::Float64(placed(self.i64s)),
            Kind::F32 => ArrowValues::Float32(placed(self.i32s)),
            Kind::Date => ArrowValues::Date(placed(self.i32s)),
            Kind::Timestamp => ArrowValues::Timestamp(placed(self.i64s)),
            Kind::Decimal { precision, scale } => ArrowValues::Decimal {
                precision,
                scale,
                values: placed(self.i64s),
            },
        }
    }

    /// The bits of the rows that are not null, where there are any.
    fn bits(&self) -> Option<&'a [u8]>
        ensures { option_map (λ b. b.now) result ≡ bits_borrowed self.now.validity.now }
    {
        if self.validity.is_empty() {
            None
        } else {
            Some(self.validity)
        }
    }

    /// The same column with its values by their kind; none where the kind is none.
    pub fn arrow_column(&self) -> Option<ArrowColumn<'a>>
        ensures { MatchOption result (kind_numbered self.now.kind ≡ None) (Says self.now) }
    {
        let kind = kind_numbered(self.kind)?;
        Some(ArrowColumn {
            nullable: self.nullable,
            length: self.rows,
            offset: self.offset,
            validity: self.bits(),
            values: self.values(kind),
        })
    }
}

/// Whether a column is marked as read.
fn is_read(reads: &[bool], column: usize) -> bool
    ensures { result ≡ is_read reads.now column }
{
    match reads.get(column) {
        Some(read) => *read,
        None => false,
    }
}

/// The column with its values by its kind, or none where it is not read. None at all where it is read
/// and its kind is none.
fn arrow_if_read<'a>(borrowed: &BorrowedColumn<'a>, read: bool) -> Option<Option<ArrowColumn<'a>>>
    ensures { MatchOption result ((read ≡ true) × (kind_numbered borrowed.now.kind ≡ None))
        (SaysIfRead read borrowed.now) }
{
    if read {
        Some(Some(borrowed.arrow_column()?))
    } else {
        Some(None)
    }
}

/// Why columns that are lent are not taken.
#[derive(Clone, Copy, Debug, Drop, PartialEq, Eq)]
pub enum BorrowedError {
    /// The kind of that column is none.
    UnknownKind { column: usize },
    OutOfMemory,
}

impl From<AllocError> for BorrowedError {
    ghost use Rattle.yurkije_columns.specs.declared.borrowed.BorrowedError.TheVariants.{OutOfMemory};
    ghost use Rattle.std.specs.Prelude.{◌≡◌};

    ghost from_gives = { λ _ e. e ≡ OutOfMemory };

    fn from(_error: AllocError) -> BorrowedError {
        BorrowedError::OutOfMemory
    }
}

/// Each column that is marked as read, with its values by its kind; None in the place of each other,
/// of which nothing is asked. Refuses the first that is read and whose kind is none.
pub fn arrow_columns<'a>(
    alloc: Global,
    borrowed: &[BorrowedColumn<'a>],
    reads: &[bool],
) -> Result<Vec<Option<ArrowColumn<'a>>>, BorrowedError>
    ensures { MatchResult result (λ columns. AllSay reads.now borrowed.now columns.items)
        (RefusesBorrowed reads.now borrowed.now) }
{
    let mut columns = Vec::with_capacity(alloc, borrowed.len())?;
    for (column, borrowed) in borrowed.iter().enumerate() {
        match arrow_if_read(borrowed, is_read(reads, column)) {
            Some(arrow) => columns.push_reserved(arrow),
            None => return Err(BorrowedError::UnknownKind { column }),
        }
    }
    Ok(columns)
}
