//! What tests lend.

use yurkije_columns::{BorrowedColumn, BorrowedField};

/// No column yet: of that kind and so many rows, all of which are there.
pub fn borrowed<'a>(kind: u32, rows: usize) -> BorrowedColumn<'a> {
    BorrowedColumn {
        kind,
        nullable: false,
        rows,
        offset: 0,
        validity: &[],
        bools: &[],
        i8s: &[],
        i16s: &[],
        i32s: &[],
        i64s: &[],
        u8s: &[],
        u16s: &[],
        u32s: &[],
        u64s: &[],
        offsets32: &[],
        offsets64: &[],
        data: &[],
        views: &[],
        buffers: &[],
    }
}

/// "[1, null, 2, 4, 8]" of `i32?`.
pub fn numbers<'a>() -> BorrowedColumn<'a> {
    BorrowedColumn {
        nullable: true,
        validity: &[0b00011101],
        i32s: &[1, 0, 2, 4, 8],
        ..borrowed(4, 5)
    }
}

/// "['joe', null, null, 'mark', '']" of `utf8?`.
pub fn names<'a>() -> BorrowedColumn<'a> {
    BorrowedColumn {
        nullable: true,
        validity: &[0b00011001],
        offsets32: &[0, 3, 3, 3, 7, 7],
        data: b"joemark",
        ..borrowed(10, 5)
    }
}

fn field(name: &'static [u8], kind: u32) -> BorrowedField<'static> {
    BorrowedField {
        name,
        kind,
        nullable: true,
    }
}

/// `number i32?, name utf8?`.
pub fn fields() -> [BorrowedField<'static>; 2] {
    [field(b"number", 4), field(b"name", 12)]
}
