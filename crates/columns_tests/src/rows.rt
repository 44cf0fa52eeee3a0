//! Rows of columns as Rust's own values.

use crate::questions::sure;
use fixtures::{Made, constant, kept, numbers, same};
use std::alloc::Global;
use vortex_columns::{Column, ExecutionCtx, PType, Validity, VortexResult};

/// Whether a column of truth values has these rows, and is not read as integers.
fn reads_bools(alloc: Global, rows: &[Option<bool>]) -> VortexResult<bool> {
    let column = kept(alloc, Column::of_bools(alloc, rows))?;
    Ok(match column.bool_rows() {
        Some(read) => column.int_rows::<u8>().is_none() && read.eq(rows.iter().copied()),
        None => false,
    })
}

/// Whether a column of 32-bit integers has these rows.
fn reads_ints(column: Made, rows: &[Option<i32>]) -> VortexResult<bool> {
    Ok(match column?.int_rows::<i32>() {
        Some(read) => read.eq(rows.iter().copied()),
        None => false,
    })
}

/// Whether a column of texts has these rows.
fn reads_texts(column: Made, rows: &[Option<&str>]) -> VortexResult<bool> {
    Ok(match column?.text_rows() {
        Some(read) => read.eq(rows.iter().copied()),
        None => false,
    })
}

/// Whether these are the bytes of the first row.
fn begins_with(rt: HostRuntime, column: Made, expected: &[u8]) -> VortexResult<bool> {
    let column = column?;
    if column.len() == 0 {
        return Ok(false);
    }
    Ok(same(rt, column.bytes_at(0), Some(expected)))
}

/// A column of texts, none of which is null.
fn plain_texts(alloc: Global, texts: &[&str]) -> Made {
    kept(
        alloc,
        Column::try_texts(alloc, texts, Validity::NonNullable),
    )
}

#[test]
fn rows_are_read_in_their_order(rt: HostRuntime) {
    let alloc = rt.alloc();
    sure(&rt, reads_bools(alloc, &[Some(true), None, Some(false)]));
    let rows = [None, Some(-3), Some(7)];
    sure(
        &rt,
        reads_ints(kept(alloc, Column::of_ints(alloc, &rows)), &rows),
    );
    sure(
        &rt,
        reads_texts(
            plain_texts(alloc, &["new", "\u{a3}"]),
            &[Some("new"), Some("\u{a3}")],
        ),
    );
    sure(&rt, begins_with(rt, plain_texts(alloc, &["new"]), b"new"));
}

/// Whether the true rows of a column have these numbers, and are taken by them.
fn true_in(rt: HostRuntime, column: Made, expected: &[u32]) -> VortexResult<bool> {
    let alloc = rt.alloc();
    let column = column?;
    if !column.dtype().is_boolean() {
        return Ok(false);
    }
    let codes = column.true_rows(alloc)?;
    let taken = kept(alloc, column.take(&codes, &mut ExecutionCtx::new(alloc)))?;
    Ok(same(rt, codes.as_slice(), expected) && same(rt, taken.len(), expected.len()))
}

#[test]
fn true_rows_are_numbered(rt: HostRuntime) {
    let alloc = rt.alloc();
    let rows = [Some(false), Some(true), None, Some(true)];
    sure(
        &rt,
        true_in(rt, kept(alloc, Column::of_bools(alloc, &rows)), &[1, 3]),
    );
}

/// Whether two columns are equal.
fn are_equal(rt: HostRuntime, left: Made, right: Made) -> VortexResult<bool> {
    let (left, right) = (left?, right?);
    Ok(same(rt, &*left, &*right))
}

#[test]
fn columns_are_equal_by_type_and_rows(rt: HostRuntime) {
    let alloc = rt.alloc();
    let fives = constant(alloc, PType::I32, 5, 2);
    sure(&rt, are_equal(rt, numbers(alloc, &[5i32, 5]), fives));
}
