//! Columns made of a caller's buffers.

use crate::questions::sure;
use fixtures::{Made, kept, reads, same};
use std::alloc::Global;
use vortex_arrow::{ArrowColumn, ArrowError, ArrowValues, ValueFault, to_column};
use vortex_columns::VortexError;

/// The column, on the heap.
fn made(alloc: Global, column: ArrowColumn<'_>) -> Made {
    match to_column(alloc, &column) {
        Ok(column) => kept(alloc, Ok(column)),
        Err(_) => Err(VortexError::InvalidColumn),
    }
}

/// Rows from an item on, of a nullable column.
fn nullable<'a>(
    validity: &'a [u8],
    offset: usize,
    length: usize,
    values: ArrowValues<'a>,
) -> ArrowColumn<'a> {
    ArrowColumn {
        nullable: true,
        length,
        offset,
        validity: Some(validity),
        values,
    }
}

/// Rows from an item on, none of which is null.
fn plain<'a>(offset: usize, length: usize, values: ArrowValues<'a>) -> ArrowColumn<'a> {
    ArrowColumn {
        nullable: false,
        length,
        offset,
        validity: None,
        values,
    }
}

/// "[1, null, 2, 4, 8]", whose validity is 00011101; and bits 5 to 9 of 11000000 and 00000001.
#[test]
fn integers_and_truth_values_are_read(rt: HostRuntime) {
    let alloc = rt.alloc();
    let five = ArrowValues::Int32(&[1, 0, 2, 4, 8]);
    let column = made(alloc, nullable(&[0b00011101], 0, 5, five));
    sure(&rt, reads(rt, column, "i32?: 1 null 2 4 8"));
    let bits = ArrowValues::Bool(&[0b11000000, 0b00000001]);
    let column = made(alloc, nullable(&[0b11100000, 0b00000001], 5, 5, bits));
    sure(&rt, reads(rt, column, "bool?: false true true true null"));
}

/// "['joe', null, null, 'mark']", whose validity is 00001001 and whose offsets are 0, 3, 3, 3, 7.
#[test]
fn texts_by_offsets_are_read(rt: HostRuntime) {
    let alloc = rt.alloc();
    let utf8 = ArrowValues::Utf8 {
        offsets: &[0, 3, 3, 3, 7],
        data: b"joemark",
    };
    let column = made(alloc, nullable(&[0b00001001], 0, 4, utf8));
    sure(&rt, reads(rt, column, "utf8?: \"joe\" null null \"mark\""));
    let binary = ArrowValues::LargeBinary {
        offsets: &[0, 3, 3, 3, 7],
        data: b"joemark",
    };
    let column = made(alloc, plain(2, 2, binary));
    sure(&rt, reads(rt, column, "binary: 0x 0x6d61726b"));
}

/// A view of 12 bytes, one of 13 in the second buffer from byte 2 on, and one with arbitrary bytes.
const VIEWS: [[u8; 16]; 3] = [
    *b"\x0c\0\0\0twelve bytes",
    *b"\x0d\0\0\0thir\x01\0\0\0\x02\0\0\0",
    [255; 16],
];

#[test]
fn texts_by_views_are_read(rt: HostRuntime) {
    let values = ArrowValues::Utf8View {
        views: &VIEWS,
        buffers: &[b"", b"--thirteenbytes"],
    };
    let text = "utf8?: \"twelve bytes\" \"thirteenbytes\" null";
    let column = made(rt.alloc(), nullable(&[0b00000011], 0, 3, values));
    sure(&rt, reads(rt, column, text));
}

/// Whether the buffers are an error, with these words.
fn refuses(rt: HostRuntime, column: ArrowColumn<'_>, expected: ArrowError, words: &str) -> bool {
    match to_column(rt.alloc(), &column) {
        Ok(_) => false,
        Err(error) => match format!(in rt.alloc(); "{error}") {
            Ok(text) => same(rt, error, expected) && same(rt, text.as_str(), words),
            Err(_) => false,
        },
    }
}

#[test]
fn offsets_are_refused_under_nulls_too(rt: HostRuntime) {
    let falls = ArrowValues::Binary {
        offsets: &[0, 3, 2, 3],
        data: b"joe",
    };
    let expected = ArrowError::InvalidValue {
        row: 1,
        fault: ValueFault::OffsetsFall,
    };
    assert!(rt;
        refuses(
            rt,
            nullable(&[0b101], 0, 3, falls),
            expected,
            "row 1: offsets fall"
        )
    );
}
