//! Answers that are measured and copied, and texts that are cut.

use crate::lending::{names, numbers};
use crate::running::answers_of;
use fixtures::same;
use vortex_columns::Column;
use yurkije_columns::{Room, Size, copy_answer, put_message, put_text, size_of};

/// The first answer of a text over the columns.
fn first(rt: HostRuntime, text: &[u8]) -> Option<Box<Column>> {
    let alloc = rt.alloc();
    let Ok(mut columns) = answers_of(alloc, text, &[numbers(), names()]) else {
        return None;
    };
    columns.truncate(1);
    match columns.pop() {
        Some(column) => Box::new(alloc, column).ok(),
        None => None,
    }
}

fn is_size(rt: HostRuntime, answer: Option<Box<Column>>) -> bool {
    let Some(column) = answer else {
        return false;
    };
    match size_of(&column) {
        Ok(
            Size {
                rows,
                validity,
                values,
                offsets,
                data,
            },
        ) => same(rt, [rows, validity, values, offsets, data], [5, 1, 0, 6, 7]),
        Err(_) => false,
    }
}

/// Whether an answer is copied into a room for 32-bit integers, and the last of these is kept.
fn is_copied(rt: HostRuntime, answer: Option<Box<Column>>) -> bool {
    let Some(column) = answer else {
        return false;
    };
    let mut validity = [99u8];
    let mut numbers = [9i32; 6];
    let mut room = Room {
        kind: 4,
        validity: &mut validity,
        bools: &mut [],
        i8s: &mut [],
        i16s: &mut [],
        i32s: &mut numbers,
        i64s: &mut [],
        u8s: &mut [],
        u16s: &mut [],
        u32s: &mut [],
        u64s: &mut [],
        offsets32: &mut [],
        offsets64: &mut [],
        data: &mut [],
    };
    let copied = copy_answer(&column, 0, &mut room).is_ok();
    same(
        rt,
        (copied, validity, numbers),
        (true, [0b00011101], [1, 0, 2, 4, 8, 9]),
    )
}

#[test]
fn answers_are_measured_and_copied(rt: HostRuntime) {
    assert!(rt; is_size(rt, first(rt, b"name")));
    assert!(rt; is_copied(rt, first(rt, b"number")));
}

#[test]
fn texts_are_cut_at_a_character(rt: HostRuntime) {
    let mut room = [b'-'; 4];
    let count = put_text("abc\u{e9}", &mut room);
    assert!(rt; same(rt, (count, room), (3, *b"abc-")));
    let mut room = [b'-'; 5];
    let count = put_message("abc\u{e9}", &mut room);
    assert!(rt; same(rt, (count, room), (3, *b"abc\0-")));
}
