//! Fields as the cells of columns.

use crate::programs::read_asked;
use fixtures::same;
use rowfn_batches::read_columns;
use std::alloc::Global;

/// Why five fields are no two rows of two columns.
fn refusal_of(alloc: Global) -> Option<String> {
    let question = read_asked(alloc, "a i8, b bool: a")?;
    let fields: [Option<&[u8]>; 5] = [Some(b"1"), Some(b"true"), Some(b"2"), None, Some(b"3")];
    match read_columns(
        alloc,
        &question.program.scope,
        &question.program.kinds,
        &fields,
        2,
    ) {
        Ok(_) => None,
        Err(error) => format!(in alloc; "{error}").ok(),
    }
}

#[test]
fn fields_that_are_no_whole_rows_make_no_columns(rt: HostRuntime) {
    match refusal_of(rt.alloc()) {
        Some(text) => {
            assert!(rt; same(rt, text.as_str(), "the fields are not those of whole rows"));
        }
        None => assert!(rt; false),
    }
}
