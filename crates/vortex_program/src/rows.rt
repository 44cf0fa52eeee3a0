//! Some rows of columns.
ghost use Rattle.std.specs.Prelude.{◌≡◌, ◌+◌, ◌^◌, ◌≤◌, ◌⊎◌, All, length};
ghost use Rattle.std.specs.List.{range_with_len};
ghost use Rattle.vortex_errors.specs.Answers.{AnswersUnlessMemory};
ghost use Rattle.vortex_columns.specs.Taken.{AreRowsOf};
ghost use Rattle.vortex_program.specs.Rows.{HasRows, HaveRows, HaveRowsAt, IsMarked, IsPart};
ghost use Rattle.vortex_program.specs.Rows.{IsPartAt, numbered};

use std::alloc::Global;
use vortex_columns::{Column, ExecutionCtx, VortexResult};

/// How many rows have numbers by which they are taken.
pub(crate) const NUMBERED: usize = 1 << 32;

/// The numbers of `count` rows from the first on.
fn row_numbers(alloc: Global, first: usize, count: usize) -> VortexResult<Vec<u32>>
    requires { first + count ≤ 2 ^ 32 }
    ensures { AnswersUnlessMemory result (λ numbers. numbers.items ≡ range_with_len first count) }
{
    let mut numbers = Vec::with_capacity(alloc, count)?;
    for i in 0..count {
        numbers.push_reserved((first + i) as u32);
    }
    Ok(numbers)
}

/// The numbers of `count` rows from the first on, of which a single row needs none.
fn taken_numbers(alloc: Global, first: usize, count: usize) -> VortexResult<Vec<u32>>
    requires { (count ≡ 1) ⊎ (first + count ≤ 2 ^ 32) }
    ensures { AnswersUnlessMemory result
        (λ numbers. (count ≡ 1) ⊎ (numbers.items ≡ range_with_len first count)) }
{
    if count == 1 {
        return Ok(Vec::new(alloc));
    }
    row_numbers(alloc, first, count)
}

/// So many rows of a column, from the first on, which have these numbers; a single row as a
/// constant.
fn column_rows(
    alloc: Global,
    column: &Column,
    first: usize,
    count: usize,
    numbers: &[u32],
    ctx: &mut ExecutionCtx,
) -> VortexResult<Column>
    requires numbered { (count ≡ 1) ⊎ (numbers.now ≡ range_with_len first count) }
    requires within { first + count ≤ length column.now.rows }
    ensures { AnswersUnlessMemory result (HasRows first count column.now) }
{
    if count == 1 {
        let scalar = column.scalar_at(alloc, first)?;
        return Column::constant(alloc, scalar, 1);
    }
    column.take(numbers, ctx)
}

/// The same where the column is read; of any other as many nulls.
fn column_part(
    alloc: Global,
    column: &Column,
    read: bool,
    first: usize,
    count: usize,
    numbers: &[u32],
    ctx: &mut ExecutionCtx,
) -> VortexResult<Column>
    requires numbered { (count ≡ 1) ⊎ (numbers.now ≡ range_with_len first count) }
    requires within { first + count ≤ length column.now.rows }
    ensures { AnswersUnlessMemory result (IsPart read first count column.now) }
{
    if read {
        return column_rows(alloc, column, first, count, numbers, ctx);
    }
    Ok(Column::null(count))
}

/// The rows with these numbers of a column that is read; of any other as many nulls.
fn numbered_part(
    column: &Column,
    read: bool,
    numbers: &[u32],
    ctx: &mut ExecutionCtx,
) -> VortexResult<Column>
    requires { AreRowsOf column.now numbers.now }
    ensures { AnswersUnlessMemory result
        (IsPartAt read (numbered numbers.now) (length numbers.now) column.now) }
{
    if read {
        return column.take(numbers, ctx);
    }
    Ok(Column::null(numbers.len()))
}

/// The rows with these numbers of each column that is read; in the place of each other as many
/// nulls. E9 where an allocation fails.
pub(crate) fn numbered_rows(
    alloc: Global,
    columns: &[Column],
    read: &[bool],
    numbers: &[u32],
    ctx: &mut ExecutionCtx,
) -> VortexResult<Vec<Column>>
    requires read { length read.now ≡ length columns.now }
    requires within { All (λ c. AreRowsOf c numbers.now) columns.now }
    ensures { AnswersUnlessMemory result (λ taken. HaveRowsAt (IsMarked read.now columns.now)
        (numbered numbers.now) (length numbers.now) columns.now taken.items) }
{
    let mut taken = Vec::new(alloc);
    for (k, column) in columns.iter().enumerate() {
        taken.push(numbered_part(column, read[k], numbers, ctx)?)?;
    }
    Ok(taken)
}

/// So many rows, from the first on, of each column that is read; in the place of each other as many
/// nulls. E9 where an allocation fails.
pub(crate) fn rows_of(
    alloc: Global,
    columns: &[Column],
    read: &[bool],
    first: usize,
    count: usize,
    ctx: &mut ExecutionCtx,
) -> VortexResult<Vec<Column>>
    requires numbered { (count ≡ 1) ⊎ (first + count ≤ 2 ^ 32) }
    requires read { length read.now ≡ length columns.now }
    requires within { All (λ c. first + count ≤ length c.rows) columns.now }
    ensures { AnswersUnlessMemory result
        (λ taken. HaveRows (IsMarked read.now columns.now) first count columns.now taken.items) }
{
    let numbers = taken_numbers(alloc, first, count)?;
    let mut taken = Vec::new(alloc);
    for (k, column) in columns.iter().enumerate() {
        taken.push(column_part(alloc, column, read[k], first, count, &numbers, ctx)?)?;
    }
    Ok(taken)
}
