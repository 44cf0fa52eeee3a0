//! The results of a call, row by row.
ghost use Rattle.std.specs.Prelude.{◌≡◌, ◌<◌, ◌≤◌, Some, length, map, IfOk, IfSome};
ghost use Rattle.regex.specs.Strings.{matcher_pattern};
ghost use Rattle.vortex_errors.specs.Answers.{Answers};
ghost use Rattle.vortex_columns.specs.Cells.{cell_value};
ghost use Rattle.vortex_interface.specs.Outcomes.{values_at, IsCallFault};
ghost use Rattle.vortex_sql_calls.specs.Calls.{AnsweredRows};
ghost use Rattle.vortex_sql_rows.specs.AnsweredRows.{AnswersRow};
ghost use Rattle.vortex_sql_patterns.specs.PatternFunctions.{first_group, IsReadBy};
ghost use Rattle.vortex_sql_patterns.specs.Lookups.{function_of, lookup_in, lookup_of};

use crate::answers::answer;
use crate::compiled::{compile_for, first_group};
use crate::lookups::{GroupNumber, Lookup, lookup_in};
use regex::Matcher;
use std::alloc::Global;
use vortex_columns::{Cell, VortexResult};
use vortex_interface::ExecutionArgs;
use vortex_sql_calls::call::read_cells;

/// The result of a row by a compiled pattern; none where the row has another pattern.
fn answer_by<'a>(
    lookup: Lookup,
    first: GroupNumber,
    matcher: &mut Matcher<'_>,
    pattern: &str,
    cells: &[Cell<'a>],
) -> Option<VortexResult<Cell<'a>>>
    requires compiled { IsReadBy (function_of lookup) pattern.now (matcher_pattern matcher.old) }
    requires first { first.number ≡ first_group (function_of lookup) pattern.now }
    ensures same { matcher_pattern matcher.new ≡ matcher_pattern matcher.old }
    ensures value { IfSome result
        (AnswersRow (lookup_of lookup (map cell_value cells.now))) }
{
    let Some((text, other, number)) = lookup_in(lookup, cells) else {
        return Some(Ok(Cell::Null));
    };
    if pattern == other {
        Some(answer(lookup, first, matcher, text, number))
    } else {
        None
    }
}

/// Appends the result of the next row, whose text, pattern and number these are, and those of the
/// rows behind it up to one with another pattern. The pattern is compiled once.
fn push_run<'a, A: ExecutionArgs>(
    alloc: Global,
    lookup: Lookup,
    args: &'a A,
    row: (&'a str, &'a str, GroupNumber),
    rows: &mut Vec<Cell<'a>>,
) -> VortexResult<()>
    requires below { length rows.old.items < A.rows args.now }
    requires next { lookup_in lookup (values_at (A.inputs args.now) (length rows.old.items))
        ≡ Some (row.0.now, row.1.now, row.2.number) }
    requires answered { AnsweredRows (lookup_of lookup) (A.inputs args.now)
        (length rows.old.items) rows.old.items }
    ensures answered { Answers result
        (λ _. AnsweredRows (lookup_of lookup) (A.inputs args.now) (length rows.new.items)
        rows.new.items)
        (IsCallFault (λ ts. lookup_of lookup) (A.inputs args.now) (A.rows args.now)) }
    ensures more { IfOk result (λ _. length rows.old.items < length rows.new.items) }
    ensures most { IfOk result (λ _. length rows.new.items ≤ A.rows args.now) }
{
    let (text, pattern, number) = row;
    let regex = compile_for(alloc, lookup, pattern)?;
    let first = first_group(&regex);
    let mut matcher = regex.matcher(alloc)?;
    let mut cells = Vec::new(alloc);
    let made = answer(lookup, first, &mut matcher, text, number)?;
    rows.push(made)?;
    for i in rows.len()..args.row_count() {
        read_cells(args, i, &mut cells)?;
        let Some(next) = answer_by(lookup, first, &mut matcher, pattern, &cells) else {
            return Ok(());
        };
        let cell = next?;
        rows.push(cell)?;
    }
    Ok(())
}

/// The result of each row.
pub(crate) fn matched_cells<'a, A: ExecutionArgs>(
    alloc: Global,
    lookup: Lookup,
    args: &'a A,
) -> VortexResult<Vec<Cell<'a>>>
    ensures { Answers result
        (λ rows. AnsweredRows (lookup_of lookup) (A.inputs args.now) (A.rows args.now)
        rows.items)
        (IsCallFault (λ ts. lookup_of lookup) (A.inputs args.now) (A.rows args.now)) }
{
    let mut rows = Vec::new(alloc);
    let mut cells = Vec::new(alloc);
    'rows: while rows.len() < args.row_count() {
        read_cells(args, rows.len(), &mut cells)?;
        match lookup_in(lookup, &cells) {
            Some(row) => push_run(alloc, lookup, args, row, &mut rows)?,
            None => rows.push(Cell::Null)?,
        }
    }
    Ok(rows)
}
