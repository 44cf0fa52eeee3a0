//! Dates and floats, which are read and run as their kinds say.

use crate::lending::borrowed;
use crate::running::is_text;
use fixtures::same;
use std::alloc::Global;
use vortex_columns::Column;
use yurkije_columns::{BorrowedColumn, BorrowedField, arrow_columns, read_fields, read_kinds};
use yurkije_core::{Expression, Program, kinds_of, read_program, run_program};

/// `day date, value f64`.
fn fields() -> [BorrowedField<'static>; 2] {
    [
        BorrowedField {
            name: b"day",
            kind: 18,
            nullable: false,
        },
        BorrowedField {
            name: b"value",
            kind: 16,
            nullable: false,
        },
    ]
}

/// 1970-01-01 and 2024-01-01.
fn days<'a>(kind: u32) -> BorrowedColumn<'a> {
    BorrowedColumn {
        i32s: &[0, 19723],
        ..borrowed(kind, 2)
    }
}

/// 1.5 and -2, by their patterns.
fn values<'a>() -> BorrowedColumn<'a> {
    BorrowedColumn {
        i64s: &[4609434218613702656, -4611686018427387904],
        ..borrowed(16, 2)
    }
}

/// The program of a text over the fields. None where memory ran out, too: no test wants a text that is
/// none.
fn program_of(alloc: Global, text: &[u8]) -> Option<Program> {
    let Ok(scope) = read_fields(alloc, &fields()) else {
        return None;
    };
    let Ok(kinds) = read_kinds(alloc, &fields()) else {
        return None;
    };
    read_program(alloc, scope, kinds, text).ok()
}

/// The answers of a text over days of that kind and the values.
fn answers_of(alloc: Global, text: &[u8], kind: u32) -> Option<Vec<Column>> {
    let expression = Expression::of(alloc, program_of(alloc, text)?).ok()?;
    let columns = arrow_columns(alloc, &[days(kind), values()], &expression.reads).ok()?;
    run_program(alloc, &expression.program, &columns, 2).ok()
}

fn answers(rt: HostRuntime, text: &[u8], expected: [&str; 2]) -> bool {
    match answers_of(rt.alloc(), text, 18) {
        Some(columns) => {
            is_text(rt, &columns, 0, expected[0]) && is_text(rt, &columns, 1, expected[1])
        }
        None => false,
    }
}

/// Whether the first answer of a text has values of the kind of that number.
fn means(rt: HostRuntime, text: &[u8], expected: u32) -> bool {
    let Some(program) = program_of(rt.alloc(), text) else {
        return false;
    };
    match kinds_of(rt.alloc(), &program.written) {
        Ok(kinds) => same(rt, yurkije_columns::number_at(&kinds, 0), expected),
        Err(_) => false,
    }
}

#[test]
fn dates_and_floats_are_run(rt: HostRuntime) {
    assert!(rt;
        answers(
            rt,
            b"day + 1, value > 1.0",
            ["i32: 1 19724", "bool: true false"]
        )
    );
    assert!(rt; answers_of(rt.alloc(), b"day", 4).is_none());
}

#[test]
fn answers_have_kinds(rt: HostRuntime) {
    assert!(rt; means(rt, b"day + 1", 18));
    assert!(rt; means(rt, b"value + 1.0", 16));
    assert!(rt; means(rt, b"day = day", 0));
}
