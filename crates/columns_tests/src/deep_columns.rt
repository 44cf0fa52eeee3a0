//! Columns too deep for recursion.

use crate::questions::sure;
use crate::taken::are_below;
use fixtures::{Made, kept, names};
use std::alloc::Global;
use vortex_columns::{Column, ExecutionCtx, Validity, VortexResult};

/// Of columns within columns. Each has its whole type, so memory is quadratic in this.
const COLUMNS: usize = 1_000;

/// Of records, whose types have names too.
const RECORDS: usize = 500;

/// Lists of one element within one another, in one row.
fn singles(alloc: Global) -> Made {
    let mut column = kept(alloc, Ok(Column::null(1)))?;
    for _ in 0..COLUMNS {
        let elements = Box::into_inner(column);
        let validity = Validity::NonNullable;
        column = kept(
            alloc,
            Column::try_fixed_size_list(alloc, elements, 1, 1, validity),
        )?;
    }
    Ok(column)
}

/// Records of one field within one another, in one row.
fn records(alloc: Global) -> Made {
    let mut column = kept(alloc, Ok(Column::null(1)))?;
    for _ in 0..RECORDS {
        let words = names(alloc, &["a"])?;
        let mut parts = Vec::new(alloc);
        parts.push(Box::into_inner(column))?;
        let validity = Validity::NonNullable;
        column = kept(alloc, Column::try_struct(alloc, words, parts, 1, validity))?;
    }
    Ok(column)
}

/// Whether the one row of a column is taken twice.
fn is_taken_twice(alloc: Global, column: Made) -> VortexResult<bool> {
    let column = column?;
    let codes = [0, 0];
    if !are_below(&codes, column.len()) {
        return Ok(false);
    }
    let taken = kept(alloc, column.take(&codes, &mut ExecutionCtx::new(alloc)))?;
    Ok(taken.len() == 2)
}

#[test]
fn rows_of_deep_columns_are_taken(rt: HostRuntime) {
    let alloc = rt.alloc();
    sure(&rt, is_taken_twice(alloc, singles(alloc)));
    sure(&rt, is_taken_twice(alloc, records(alloc)));
}
