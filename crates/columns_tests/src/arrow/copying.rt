//! Columns copied into a caller's buffers.

use crate::questions::sure;
use fixtures::{Made, bools, kept, nullable_bools, same};
use std::alloc::Global;
use vortex_arrow::{
    CopyError, byte_count, copy_bools, copy_integers, copy_mask, copy_texts, copy_true_rows,
    true_count,
};
use vortex_columns::{Column, VortexResult};

/// "[1, null, 2, 4, 8]".
fn five(alloc: Global) -> Made {
    let rows = [Some(1), None, Some(2), Some(4), Some(8)];
    kept(alloc, Column::of_ints(alloc, &rows))
}

/// Whether a column of 32-bit integers is copied as this validity and these values, and an item
/// after them is kept.
fn copies_ints(rt: HostRuntime, column: Made, valid: u8, expected: [i32; 6]) -> VortexResult<bool> {
    let mut validity = [99, 99];
    let mut values = [7; 6];
    let copied = copy_integers(&*column?, &mut validity, &mut values);
    Ok(copied.is_ok() && same(rt, validity, [valid, 99]) && same(rt, values, expected))
}

/// Whether a column of truth values is copied as these bits.
fn copies_bools(rt: HostRuntime, column: Made, expected: [u8; 2]) -> VortexResult<bool> {
    let mut validity = [99; 2];
    let mut values = [99; 2];
    let copied = copy_bools(&*column?, &mut validity, &mut values);
    Ok(copied.is_ok() && same(rt, validity, [255, 1]) && same(rt, values, expected))
}

/// "['joe', null, null, 'mark']".
fn names(alloc: Global) -> Made {
    let rows = [Some("joe"), None, None, Some("mark")];
    kept(alloc, Column::of_texts(alloc, &rows))
}

/// Whether a column of texts is copied as these offsets and this data.
fn copies_texts(rt: HostRuntime, column: Made, expected: [i32; 5]) -> VortexResult<bool> {
    let column = column?;
    let mut validity = [0];
    let mut offsets = [0; 5];
    let mut data = [b'.'; 8];
    let counted = same(rt, byte_count(&column), Some(7));
    let copied = copy_texts(&column, &mut validity, &mut offsets, &mut data);
    let rows = same(rt, validity, [0b00001001]) && same(rt, offsets, expected);
    Ok(counted && copied.is_ok() && rows && same(rt, data, *b"joemark."))
}

#[test]
fn columns_are_copied(rt: HostRuntime) {
    let alloc = rt.alloc();
    sure(
        &rt,
        copies_ints(rt, five(alloc), 0b00011101, [1, 0, 2, 4, 8, 7]),
    );
    let nine = [true, false, false, false, false, false, false, false, true];
    sure(&rt, copies_bools(rt, bools(alloc, &nine), [1, 1]));
    sure(&rt, copies_texts(rt, names(alloc), [0, 3, 3, 3, 7]));
}

/// Whether two rows are true, with these numbers and these bytes, and an item after them is kept.
fn selects(rt: HostRuntime, column: Made, rows: [u32; 4], bytes: [u8; 5]) -> VortexResult<bool> {
    let column = column?;
    let mut numbers = [77; 4];
    let mut mask = [9; 5];
    let copied = copy_true_rows(&column, &mut numbers);
    let masked = copy_mask(&column, &mut mask).is_ok() && same(rt, mask, bytes);
    let counted = same(rt, true_count(&column), 2) && same(rt, copied, Ok(2));
    Ok(masked && counted && same(rt, numbers, rows))
}

#[test]
fn true_rows_are_copied(rt: HostRuntime) {
    let rows = [Some(false), Some(true), None, Some(true)];
    let column = nullable_bools(rt.alloc(), &rows);
    sure(&rt, selects(rt, column, [1, 3, 77, 77], [0, 1, 0, 1, 9]));
}

/// Whether texts are refused as integers, and so in these words.
fn are_refused(rt: HostRuntime, column: Made, words: &str) -> VortexResult<bool> {
    let mut validity = [0];
    let mut integers = [0i64; 5];
    let refused = copy_integers(&*column?, &mut validity, &mut integers);
    let text = format!(in rt.alloc(); "{}", CopyError::OtherType)?;
    Ok(same(rt, refused, Err(CopyError::OtherType)) && same(rt, text.as_str(), words))
}

#[test]
fn other_types_are_refused(rt: HostRuntime) {
    let words = "the column is of another type";
    sure(&rt, are_refused(rt, names(rt.alloc()), words));
}
