//! The texts of a call of `regexp_replace`, row by row.
ghost use Rattle.std.specs.Prelude.{◌≡◌, ◌<◌, ◌≤◌, true, Some, length, map, IfOk, IfSome, All, false};
ghost use Rattle.regex.specs.Strings.{matcher_pattern};
ghost use Rattle.vortex_errors.specs.Answers.{Answers, AnswersUnlessMemory};
ghost use Rattle.vortex_columns.specs.Cells.{cell_value, IsCell};
ghost use Rattle.vortex_interface.specs.Outcomes.{values_at, IsCallFault};
ghost use Rattle.vortex_sql_calls.specs.Calls.{MadeRows};
ghost use Rattle.vortex_sql_rows.specs.AnsweredRows.{text_or_null, MakesRow};
ghost use Rattle.vortex_sql_patterns.specs.Patterns.{IsPatternOf};
ghost use Rattle.vortex_sql_patterns.specs.RegexpReplace.{asked_by, asked_in, in_case, replace_of, with_flags};

use crate::replace::{RegexpReplace, compile_in, replaced_by, with_flags};
use crate::requests::{Request, request_in};
use regex::Matcher;
use std::alloc::Global;
use vortex_columns::{Cell, PType, VortexError, VortexResult};
use vortex_interface::ExecutionArgs;
use vortex_sql_calls::call::read_cells;
use vortex_sql_rows::faults::RowFault;
use vortex_sql_rows::row::make_row;

/// Whether two rows have the same flags and the same pattern.
fn is_alike(a: &Request<'_>, b: &Request<'_>) -> bool
    ensures { result ≡ true → (a.now.flags.now ≡ b.now.flags.now)
        × (a.now.pattern.now ≡ b.now.pattern.now) }
{
    if a.flags == b.flags {
        a.pattern == b.pattern
    } else {
        false
    }
}

/// The text of a row by the pattern that was compiled for another one; none where the row has
/// other flags or another pattern.
fn replaced_next(
    alloc: Global,
    first: &Request<'_>,
    flags: (bool, bool),
    matcher: &mut Matcher<'_>,
    cells: &[Cell<'_>],
) -> Option<VortexResult<Option<String>>>
    requires cells { All IsCell cells.now }
    requires flags { with_flags (false, false) first.now.flags.now ≡ Some flags }
    requires compiled { IsPatternOf (in_case flags.1 first.now.pattern.now)
        (matcher_pattern matcher.old) }
    ensures same { matcher_pattern matcher.new ≡ matcher_pattern matcher.old }
    ensures value { IfSome result (MakesRow (replace_of (map cell_value cells.now))) }
{
    let Some(next) = request_in(cells) else {
        return Some(make_row(alloc, &RegexpReplace, PType::I64, cells));
    };
    if is_alike(first, &next) {
        Some(replaced_by(alloc, flags.0, matcher, next.text, next.other))
    } else {
        None
    }
}

/// Appends the text of the next row, which asks for this, and those of the rows behind it up to
/// one with other flags or another pattern. The pattern is compiled once.
fn push_run<A: ExecutionArgs>(
    alloc: Global,
    args: &A,
    first: &Request<'_>,
    rows: &mut Vec<Option<String>>,
) -> VortexResult<()>
    requires below { length rows.old.items < A.rows args.now }
    requires next { asked_in (values_at (A.inputs args.now) (length rows.old.items))
        ≡ Some (asked_by first.now) }
    requires made { MadeRows replace_of (A.inputs args.now) (length rows.old.items)
        rows.old.items }
    ensures made { Answers result
        (λ _. MadeRows replace_of (A.inputs args.now) (length rows.new.items) rows.new.items)
        (IsCallFault (λ ts. replace_of) (A.inputs args.now) (A.rows args.now)) }
    ensures more { IfOk result (λ _. length rows.old.items < length rows.new.items) }
    ensures most { IfOk result (λ _. length rows.new.items ≤ A.rows args.now) }
{
    let Some(flags) = with_flags(first.flags) else {
        return Err(VortexError::Custom(RowFault::NoPattern.number()));
    };
    let regex = compile_in(alloc, flags.1, first.pattern)?;
    let mut matcher = regex.matcher(alloc)?;
    let mut cells = Vec::new(alloc);
    let made = replaced_by(alloc, flags.0, &mut matcher, first.text, first.other)?;
    rows.push(made)?;
    for i in rows.len()..args.row_count() {
        read_cells(args, i, &mut cells)?;
        let Some(next) = replaced_next(alloc, first, flags, &mut matcher, &cells) else {
            return Ok(());
        };
        let text = next?;
        rows.push(text)?;
    }
    Ok(())
}

/// The text of each row.
pub(crate) fn replaced_texts<A: ExecutionArgs>(
    alloc: Global,
    args: &A,
) -> VortexResult<Vec<Option<String>>>
    ensures { Answers result
        (λ rows. MadeRows replace_of (A.inputs args.now) (A.rows args.now) rows.items)
        (IsCallFault (λ ts. replace_of) (A.inputs args.now) (A.rows args.now)) }
{
    let mut rows = Vec::new(alloc);
    let mut cells = Vec::new(alloc);
    'rows: while rows.len() < args.row_count() {
        read_cells(args, rows.len(), &mut cells)?;
        match request_in(&cells) {
            Some(request) => push_run(alloc, args, &request, &mut rows)?,
            None => {
                let made = make_row(alloc, &RegexpReplace, PType::I64, &cells)?;
                rows.push(made)?;
            }
        }
    }
    Ok(rows)
}

fn text_cell(made: &Option<String>) -> Cell<'_>
    ensures { cell_value result ≡ text_or_null made.now }
{
    match made {
        Some(text) => Cell::Text(text.as_str()),
        None => Cell::Null,
    }
}

/// The cells of texts that were made.
pub(crate) fn text_cells(alloc: Global, made: &[Option<String>]) -> VortexResult<Vec<Cell<'_>>>
    ensures { AnswersUnlessMemory result
        (λ cells. map cell_value cells.items ≡ map text_or_null made.now) }
{
    let mut cells = Vec::new(alloc);
    for text in made {
        cells.push(text_cell(text))?;
    }
    Ok(cells)
}
