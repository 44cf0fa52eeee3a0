//! Groups of rows, and what their statistics say of conditions.
//!
//! Each column has a row for each group. Of each field of the conditions there are three: its low
//! ends, under its name, its high ends, and its counts of nulls. The last column has the counts of
//! rows.

use crate::expressions::Batch;
use std::alloc::Global;
use vortex_columns::{Column, ExecutionCtx, VortexError, VortexResult};
use vortex_expressions::{Answer, read_answers, write_expression};
use vortex_pruning::{FieldStatistics, GroupError, Pruned, prune_groups, residual, statistics_in};
use vortex_statistics::Statistics;

/// A copy of a column, if there is one of that number.
fn copied(alloc: Global, batch: &Batch, number: usize) -> VortexResult<Option<Column>> {
    match batch.columns.get(number) {
        Some(column) => Ok(Some(column.try_clone(alloc)?)),
        None => Ok(None),
    }
}

/// The statistics of the field whose low ends are the column of that number. Of a column that has
/// no low ends nothing is known.
fn field_at(
    alloc: Global,
    batch: &Batch,
    column: &Column,
    number: usize,
) -> VortexResult<FieldStatistics> {
    let dtype = column.dtype().try_clone(alloc)?;
    if number % 3 != 0 {
        return Ok(FieldStatistics {
            dtype,
            low: None,
            high: None,
            nulls: None,
        });
    }
    Ok(FieldStatistics {
        dtype,
        low: copied(alloc, batch, number)?,
        high: copied(alloc, batch, number.saturating_add(1))?,
        nulls: copied(alloc, batch, number.saturating_add(2))?,
    })
}

/// The statistics of each column, as a field of its name.
fn fields_of(alloc: Global, batch: &Batch) -> VortexResult<Vec<FieldStatistics>> {
    let mut fields = Vec::new(alloc);
    for (number, column) in batch.columns.iter().enumerate() {
        fields.push(field_at(alloc, batch, column, number)?)?;
    }
    Ok(fields)
}

/// Writes what is known of each group, as a line.
fn push_groups(alloc: Global, out: &mut String, groups: &[Pruned]) -> VortexResult<()> {
    let mut separator = "";
    for group in groups {
        let (verdict, (least, most)) = (group.verdict, group.trues);
        let faults = if group.faultless { "" } else { " may fault" };
        let text = format!(in alloc; "{separator}{verdict:?} {least}-{most}{faults}")?;
        out.push_str(text.as_str())?;
        separator = ", ";
    }
    out.push_str("\n")?;
    Ok(())
}

/// Writes what is known of a condition in each group, or the group and the field whose statistics
/// contradict themselves.
fn push_answer(
    alloc: Global,
    out: &mut String,
    answer: &Answer,
    fields: &[FieldStatistics],
    counts: &[u64],
) -> VortexResult<()> {
    match prune_groups(&answer.tree, fields, counts, &mut ExecutionCtx::new(alloc)) {
        Ok(groups) => push_groups(alloc, out, &groups),
        Err(GroupError::Statistics { group, field }) => {
            out.push_str(format!(in alloc; "group {group}, field {field}\n")?.as_str())?;
            Ok(())
        }
        Err(GroupError::Refused(error)) => Err(error),
    }
}

/// Writes the text of what statistics leave of a tree in a group.
fn push_residual(
    alloc: Global,
    out: &mut String,
    answer: &Answer,
    statistics: &[Statistics],
    rows: u64,
) -> VortexResult<()> {
    let left = residual(
        &answer.tree,
        statistics,
        rows,
        &mut ExecutionCtx::new(alloc),
    )?;
    match write_expression(alloc, &left.tree)? {
        Some(text) => out.push_str(text.as_str())?,
        None => out.push_str("no text")?,
    }
    Ok(())
}

/// Writes what is left of a tree in each group, as a line.
fn push_left(
    alloc: Global,
    out: &mut String,
    answer: &Answer,
    fields: &[FieldStatistics],
    counts: &[u64],
) -> VortexResult<()> {
    let mut separator = "";
    for (group, rows) in counts.iter().enumerate() {
        out.push_str(separator)?;
        match statistics_in(alloc, fields, group, *rows) {
            Ok(statistics) => push_residual(alloc, out, answer, &statistics, *rows)?,
            Err(_) => return Err(VortexError::InvalidColumn),
        }
        separator = " | ";
    }
    out.push_str("\n")?;
    Ok(())
}

/// The counts of rows. E12 if the last column has none.
fn counts_of(batch: &Batch) -> VortexResult<&[u64]> {
    match batch.columns.last() {
        Some(column) => column.ints().ok_or(VortexError::InvalidColumn),
        None => Err(VortexError::InvalidColumn),
    }
}

/// What is known of each condition of a list, or if `left` is set what is left of each tree, in a
/// line each, or why the text is no list.
pub(crate) fn groups_text(
    alloc: Global,
    batch: &Batch,
    text: &str,
    left: bool,
) -> VortexResult<String> {
    let fields = fields_of(alloc, batch)?;
    let counts = counts_of(batch)?;
    let mut out = String::new(alloc);
    match read_answers(alloc, &batch.scope, &[], text) {
        Ok(answers) => {
            for answer in answers.iter() {
                if left {
                    push_left(alloc, &mut out, answer, &fields, counts)?;
                } else {
                    push_answer(alloc, &mut out, answer, &fields, counts)?;
                }
            }
            Ok(out)
        }
        Err(error) => Ok(format!(in alloc; "{error}")?),
    }
}
