//! A caller's column, as it lies in memory.

/// Rows of one type in Arrow's columnar format, borrowed where they lie. A batch of a larger column
/// is the same buffers with another offset and length.
#[derive(Clone, Copy)]
pub struct ArrowColumn<'a> {
    /// Whether a row can be null.
    pub nullable: bool,
    /// How many rows there are.
    pub length: usize,
    /// Row `i` is item `offset + i` of the validity and of the values.
    pub offset: usize,
    /// A bit for each item, from the least significant of the first byte on: set where the item is
    /// not null. None where no row is null.
    pub validity: Option<&'a [u8]>,
    pub values: ArrowValues<'a>,
}

/// The buffers of a column, by its type.
#[derive(Clone, Copy)]
pub enum ArrowValues<'a> {
    /// A bit for each item, from the least significant of the first byte on.
    Bool(&'a [u8]),
    Int8(&'a [i8]),
    Int16(&'a [i16]),
    Int32(&'a [i32]),
    Int64(&'a [i64]),
    UInt8(&'a [u8]),
    UInt16(&'a [u16]),
    UInt32(&'a [u32]),
    UInt64(&'a [u64]),
    /// Days since 1970-01-01.
    Date(&'a [i32]),
    /// Microseconds since 1970-01-01T00:00:00.
    Timestamp(&'a [i64]),
    /// Numbers of at most `precision` digits, of which the last `scale` stand after the point: the
    /// integers of their digits without the point.
    Decimal {
        precision: u8,
        scale: u8,
        values: &'a [i64],
    },
    /// The patterns of floats, as IEEE 754 has them. A column has their keys.
    Float64(&'a [i64]),
    Float32(&'a [i32]),
    /// Item `k` is the text of bytes `offsets[k]` to `offsets[k + 1]` of the data.
    Utf8 {
        offsets: &'a [i32],
        data: &'a [u8],
    },
    LargeUtf8 {
        offsets: &'a [i64],
        data: &'a [u8],
    },
    Binary {
        offsets: &'a [i32],
        data: &'a [u8],
    },
    LargeBinary {
        offsets: &'a [i64],
        data: &'a [u8],
    },
    /// Item `k` is the text of 16-byte view `k`: of at most 12 bytes and within the view, or in one
    /// of the buffers. The view's numbers are read without a sign.
    Utf8View {
        views: &'a [[u8; 16]],
        buffers: &'a [&'a [u8]],
    },
    BinaryView {
        views: &'a [[u8; 16]],
        buffers: &'a [&'a [u8]],
    },
}
