//! Rows taken of columns of each kind.
ghost use Rattle.std.specs.Prelude.{◌<◌, ◌↔◌, IsTrue, All};

use crate::columns::lists;
use crate::questions::sure;
use fixtures::{Made, kept, names, same};
use std::alloc::Global;
use vortex_columns::{Column, ExecutionCtx, Validity, VortexResult};

/// Whether each code is below this count.
pub fn are_below(codes: &[u32], count: usize) -> bool
    ensures { IsTrue result ↔ All (λ code. code < count) codes.now }
{
    for code in codes {
        if *code as usize >= count {
            return false;
        }
    }
    true
}

/// Whether the rows of these numbers are those of another column.
fn gives(rt: HostRuntime, column: Made, codes: &[u32], expected: Made) -> VortexResult<bool> {
    let alloc = rt.alloc();
    let (column, expected) = (column?, expected?);
    if !are_below(codes, column.len()) {
        return Ok(false);
    }
    let taken = kept(alloc, column.take(codes, &mut ExecutionCtx::new(alloc)))?;
    Ok(same(rt, &*taken, &*expected))
}

/// Records of a number and a name.
fn people(alloc: Global, ages: &[i32], words: &[&str]) -> Made {
    let mut fields = Vec::new(alloc);
    let values = ages.to_vec(alloc)?;
    fields.push(Column::try_primitive(alloc, values, Validity::NonNullable)?)?;
    fields.push(Column::try_utf8(alloc, names(alloc, words)?, Validity::NonNullable)?)?;
    let names = names(alloc, &["age", "name"])?;
    kept(
        alloc,
        Column::try_struct(alloc, names, fields, ages.len(), Validity::AllValid),
    )
}

#[test]
fn rows_are_taken(rt: HostRuntime) {
    let alloc = rt.alloc();
    let expected = people(alloc, &[8, 9, 8], &["bo", "hello, world, again", "bo"]);
    let column = people(alloc, &[9, 8], &["hello, world, again", "bo"]);
    sure(&rt, gives(rt, column, &[1, 0, 1], expected));
}

#[test]
fn nested_rows_are_taken(rt: HostRuntime) {
    let alloc = rt.alloc();
    let expected = lists(alloc, [1, 0], [1, 2]);
    sure(
        &rt,
        gives(rt, lists(alloc, [0, 1], [2, 1]), &[1, 0], expected),
    );
}
