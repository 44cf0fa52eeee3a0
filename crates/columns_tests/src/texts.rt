//! The texts of columns that no script prints.

use crate::columns::{byte_lists, lists, maps, records};
use crate::questions::sure;
use fixtures::{Made, bools, kept, same};
use vortex_columns::{Column, VortexResult};

/// Whether the column's text is this one, also for debugging.
fn reads(rt: HostRuntime, column: Made, expected: &str) -> VortexResult<bool> {
    let alloc = rt.alloc();
    let column = column?;
    let text = column.text(alloc)?;
    let printed = format!(in alloc; "{:?}", *column)?;
    Ok(same(rt, text.as_str(), expected) && same(rt, printed.as_str(), expected))
}

#[test]
fn flat_columns_have_texts(rt: HostRuntime) {
    let alloc = rt.alloc();
    sure(
        &rt,
        reads(rt, bools(alloc, &[false, true]), "bool: false true"),
    );
    sure(
        &rt,
        reads(rt, kept(alloc, Ok(Column::null(2))), "null: null null"),
    );
    sure(&rt, reads(rt, byte_lists(alloc), "binary?: null"));
}

#[test]
fn columns_of_lists_and_records_have_texts(rt: HostRuntime) {
    let alloc = rt.alloc();
    let entries = "map[i32, i32]: [{key: 6, value: 6}] []";
    let pairs = "struct{a: i32, b: i32}: {a: 5, b: 5} {a: 6, b: 6}";
    sure(
        &rt,
        reads(rt, lists(alloc, [0, 0], [2, 1]), "list[i32]: [5, 6] [5]"),
    );
    sure(&rt, reads(rt, maps(alloc, [1, 0], [1, 0]), entries));
    sure(&rt, reads(rt, records(alloc), pairs));
}
