//! The rows that runs stand for.
ghost use Rattle.std.specs.Prelude.{◌≡◌, ◌<◌, ◌≤◌, length, not, true};
ghost use Rattle.caller_functions.specs.Words.{AnswersUnlessMemory, HasRunRows, IsRunValidity};
ghost use Rattle.caller_functions.specs.Words.{cell_value, is_bool_type, is_null, is_true, row};
ghost use Rattle.caller_functions.specs.Words.{run_at, validity_of};

use std::alloc::Global;
use vortex_bits::{RowBits, collect_rows};
use vortex_columns::{Cell, Column, Validity, VortexResult};

/// The run that a row lies in: how many begin at it or before it, the first, which begins at row 0,
/// not counted.
fn run_of(starts: &[usize], i: usize) -> usize
    ensures says { result ≡ run_at starts.now i }
    ensures within { result ≤ length starts.now }
{
    starts.iter().filter(|start| **start <= i).count()
}

/// Whether a cell holds the truth value true.
fn is_true(cell: Cell<'_>) -> bool
    ensures { result ≡ is_true (cell_value cell.entry) }
{
    match cell {
        Cell::Bool(value) => value,
        Cell::Null => false,
        Cell::Int(_) => false,
        Cell::Text(_) => false,
        Cell::Bytes(_) => false,
        Cell::Sequence(_) => false,
    }
}

/// The truth value in each row.
#[derive(Clone, Copy)]
struct RunTruths<'a> {
    values: &'a Column,
    starts: &'a [usize],
}

impl RowBits for RunTruths<'_> {
    ghost has_row = { λ r i. length r.starts.now < length r.values.now.rows };

    ghost row_bit = { λ r i. is_true (row r.values.now.rows (run_at r.starts.now i)) };

    fn bit(&self, i: usize) -> bool {
        is_true(self.values.cell(run_of(self.starts, i)))
    }
}

/// Whether each row is not null.
#[derive(Clone, Copy)]
struct RunValid<'a> {
    values: &'a Column,
    starts: &'a [usize],
}

impl RowBits for RunValid<'_> {
    ghost has_row = { λ r i. length r.starts.now < length r.values.now.rows };

    ghost row_bit = { λ r i. not (is_null (row r.values.now.rows (run_at r.starts.now i))) };

    fn bit(&self, i: usize) -> bool {
        self.values.is_valid(run_of(self.starts, i))
    }
}

/// Which rows are not null.
fn run_validity(
    alloc: Global,
    values: &Column,
    starts: &[usize],
    len: usize,
) -> VortexResult<Validity>
    requires { length starts.now < length values.now.rows }
    ensures { AnswersUnlessMemory result
        (λ v. IsRunValidity values.now starts.now len (validity_of v)) }
{
    if !values.dtype().is_nullable() {
        return Ok(Validity::NonNullable);
    }
    let valid = collect_rows(alloc, &RunValid { values, starts }, len)?;
    Ok(Validity::Array(valid))
}

/// The rows of runs of Bool.
pub(crate) fn bool_runs(
    alloc: Global,
    values: &Column,
    starts: &[usize],
    len: usize,
) -> VortexResult<Column>
    requires bool { is_bool_type values.now.dtype ≡ true }
    requires within { length starts.now < length values.now.rows }
    ensures { AnswersUnlessMemory result (HasRunRows values.now starts.now len) }
{
    // so that its rows are known to have its type
    let _ = values.dtype();
    let validity = run_validity(alloc, values, starts, len)?;
    let bits = collect_rows(alloc, &RunTruths { values, starts }, len)?;
    Column::try_bool(alloc, bits, validity)
}
