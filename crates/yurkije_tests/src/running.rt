//! Programs that are run over borrowed columns, and refusals in words.

use crate::lending::{names, numbers};
use crate::reading::program_of;
use fixtures::same;
use std::alloc::Global;
use vortex_columns::Column;
use yurkije_columns::{BorrowedColumn, BorrowedError, arrow_columns, borrowed_words};
use yurkije_core::{BatchRunError, ErrorNumbers, Expression, run_program, run_words};

/// The expression of a text over the fields. None where memory ran out: no test wants a text that is
/// none.
fn expression_of(alloc: Global, text: &[u8]) -> Option<Expression> {
    match program_of(alloc, text) {
        Ok(program) => Expression::of(alloc, program).ok(),
        Err(_) => None,
    }
}

/// The answers of a text over columns of five rows.
pub fn answers_of(
    alloc: Global,
    text: &[u8],
    columns: &[BorrowedColumn<'_>],
) -> Result<Vec<Column>, BatchRunError> {
    let Some(expression) = expression_of(alloc, text) else {
        return Err(BatchRunError::Program(vortex_program::RunError::OutOfMemory));
    };
    match arrow_columns(alloc, columns, &expression.reads) {
        Ok(columns) => run_program(alloc, &expression.program, &columns, 5),
        Err(_) => Err(BatchRunError::Program(vortex_program::RunError::OutOfMemory)),
    }
}

/// Whether an answer's text is this one.
pub fn is_text(rt: HostRuntime, answers: &[Column], answer: usize, expected: &str) -> bool {
    match answers.get(answer) {
        Some(column) => match column.text(rt.alloc()) {
            Ok(text) => same(rt, text.as_str(), expected),
            Err(_) => false,
        },
        None => false,
    }
}

/// Whether the answers of a text are those.
fn answers(rt: HostRuntime, text: &[u8], expected: [&str; 2]) -> bool {
    match answers_of(rt.alloc(), text, &[numbers(), names()]) {
        Ok(columns) => {
            is_text(rt, &columns, 0, expected[0]) && is_text(rt, &columns, 1, expected[1])
        }
        Err(_) => false,
    }
}

#[test]
fn columns_are_answered(rt: HostRuntime) {
    let expected = ["i32?: 1 null 4 16 64", "bool?: true null null false false"];
    assert!(rt; answers(rt, b"number * number, name like '%o%'", expected));
}

#[test]
fn columns_are_run_where_they_lie(rt: HostRuntime) {
    let expected = [
        "bool?: false null true true false",
        "bool?: true null false true true",
    ];
    assert!(rt; answers(rt, b"number > 1 and number <= 4, not number = 2", expected));
}

#[test]
fn constants_and_null_tests_are_run_where_columns_lie(rt: HostRuntime) {
    let expected = [
        "bool?: false null false true true",
        "bool: true false true true true",
    ];
    assert!(rt; answers(rt, b"3 < number, number is not null", expected));
}

/// Whether the run of a text over the columns is refused with that status, column and row, in these
/// words.
fn refuses(
    rt: HostRuntime,
    text: &[u8],
    columns: &[BorrowedColumn<'_>],
    expected: (u32, usize, usize),
    words: &str,
) -> bool {
    let alloc = rt.alloc();
    let Some(expression) = expression_of(alloc, text) else {
        return false;
    };
    let Ok(columns) = arrow_columns(alloc, columns, &expression.reads) else {
        return false;
    };
    let Err(error) = run_program(alloc, &expression.program, &columns, 5) else {
        return false;
    };
    let codes = ErrorNumbers::of_run(&error);
    match run_words(alloc, &expression.program, &error, 5) {
        Ok(said) => {
            same(rt, (codes.status, codes.column, codes.row), expected)
                && same(rt, said.as_str(), words)
        }
        Err(_) => false,
    }
}

#[test]
fn columns_and_faults_are_refused_with_their_rows(rt: HostRuntime) {
    let falls = BorrowedColumn {
        offsets32: &[0, 3, 2, 3, 7, 7],
        ..names()
    };
    let words = "column 1 (name): row 1: offsets fall";
    assert!(rt; refuses(rt, b"number, name", &[numbers(), falls], (125, 1, 1), words));
    let words = "row 3, answer 1 (q): integer division by zero or overflow in checked div";
    let text = b"number, 1 / (number - 4) as q";
    assert!(rt; refuses(rt, text, &[numbers(), names()], (7, usize::MAX, 3), words));
}

/// Whether the first answer of a text is this one, over the numbers and a column of no kind.
fn answers_unread(rt: HostRuntime, text: &[u8], expected: &str) -> bool {
    let unread = BorrowedColumn {
        kind: 99,
        rows: 7,
        offset: usize::MAX,
        ..names()
    };
    match answers_of(rt.alloc(), text, &[numbers(), unread]) {
        Ok(columns) => is_text(rt, &columns, 0, expected),
        Err(_) => false,
    }
}

#[test]
fn columns_that_are_not_read_are_not_looked_at(rt: HostRuntime) {
    assert!(rt; answers_unread(rt, b"number < 4", "bool?: true null true false false"));
}

/// Whether the answers of a text read the fields of those numbers.
fn reads(rt: HostRuntime, text: &[u8], expected: &[usize]) -> bool {
    let Some(expression) = expression_of(rt.alloc(), text) else {
        return false;
    };
    match expression.fields_read(rt.alloc()) {
        Ok(numbers) => numbers.as_slice() == expected,
        Err(_) => false,
    }
}

#[test]
fn fields_that_are_read_are_numbered(rt: HostRuntime) {
    assert!(rt; reads(rt, b"name like 'a%', 1", &[1]));
}

#[test]
fn columns_of_no_kind_are_refused(rt: HostRuntime) {
    let error = BorrowedError::UnknownKind { column: 3 };
    let words = "column 3: no kind has that number";
    assert!(rt; matches!(borrowed_words(rt.alloc(), error), Ok(said) if said.as_str() == words));
}
