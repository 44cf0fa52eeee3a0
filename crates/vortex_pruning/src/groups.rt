//! Conditions over several groups of rows, by statistics that are columns.
ghost use Rattle.std.specs.Prelude.{◌≡◌, option_map, IfOk, MatchResult};
ghost use Rattle.vortex_columns.specs.Words.{AnswersUnlessMemory};
ghost use Rattle.vortex_functions.specs.Words.{AllMean};
ghost use Rattle.vortex_statistics.specs.Parts.{end_view};
ghost use Rattle.vortex_pruning.specs.Groups.{outer_end, count_in, told_at, field_in, statistics_in};
ghost use Rattle.vortex_pruning.specs.Groups.{PruneAll, RefusesField, RefusesFields, RefusesGroup};
ghost use Rattle.vortex_pruning.specs.Groups.{IsOfField};
ghost use Rattle.vortex_pruning.specs.Groups.{RefusesGroups};
ghost use Rattle.vortex_pruning.specs.Pruning.{Prunes};
ghost use Rattle.vortex_columns.specs.Cells.{cell_value};

use crate::functions::ScalarFnRanges;
use crate::pruned::Pruned;
use crate::trees::prune;
use std::alloc::Global;
use vortex_columns::{Cell, Column, DType, ExecutionCtx, ScalarValue, VortexError, VortexResult};
use vortex_functions::BoundExpression;
use vortex_statistics::{End, Statistics};

/// What is known of a field of the scope in each of several groups of rows. The row of a column
/// speaks of the group of that number; where it is null, or there is no such row or no column,
/// nothing is known.
#[derive(Drop)]
pub struct FieldStatistics {
    /// The type of the field.
    pub dtype: DType,
    /// No value of the group is below its row. It need not be the value of a row.
    pub low: Option<Column>,
    /// And none is above it.
    pub high: Option<Column>,
    /// How many rows of the group are null: numbers.
    pub nulls: Option<Column>,
}

/// Why no groups are pruned.
#[derive(Debug, Drop)]
pub enum GroupError {
    /// The statistics of a field contradict themselves in a group.
    Statistics { group: usize, field: usize },
    /// The tree is refused, or memory ran out.
    Refused(VortexError),
}

/// The end of a group, which no row need have.
fn end_at(alloc: Global, ends: &Option<Column>, group: usize) -> VortexResult<Option<End>>
    ensures { AnswersUnlessMemory result
        (λ e. option_map end_view e ≡ told_at outer_end group ends.now) }
{
    let Some(column) = ends else {
        return Ok(None);
    };
    if group >= column.len() {
        return Ok(None);
    }
    match column.cell(group) {
        Cell::Int(n) => Ok(Some(End::outer(ScalarValue::Int(n)))),
        cell => match cell.try_to_value(alloc)? {
            Some(value) => Ok(Some(End::outer(value))),
            None => Ok(None),
        },
    }
}

/// A count, if the value is a number of 64 bits.
fn count_in(cell: &Cell<'_>) -> Option<u64>
    ensures { result ≡ count_in (cell_value cell.now) }
{
    match cell {
        Cell::Int(n) if 0 <= *n && *n <= 18_446_744_073_709_551_615 => Some(*n as u64),
        _ => None,
    }
}

/// How many rows of a group are null.
fn count_at(counts: &Option<Column>, group: usize) -> Option<u64>
    ensures { result ≡ told_at count_in group counts.now }
{
    let Some(column) = counts else {
        return None;
    };
    if group >= column.len() {
        return None;
    }
    count_in(&column.cell(group))
}

/// Statistics of each field, of which nothing is known but its type.
fn unknown_fields(alloc: Global, fields: &[FieldStatistics]) -> VortexResult<Vec<Statistics>>
    ensures { AnswersUnlessMemory result (λ found. AllMean IsOfField fields.now found.items) }
{
    let mut found = Vec::with_capacity(alloc, fields.len())?;
    for number in 0..fields.len() {
        let dtype = fields[number].dtype.try_clone(alloc)?;
        found.push(Statistics::unknown(dtype))?;
    }
    Ok(found)
}

/// Puts what is known of the field of that number in a group of so many rows in place of what was
/// known of it in another, unless it contradicts itself.
fn replace_field(
    alloc: Global,
    field: &FieldStatistics,
    number: usize,
    group: usize,
    rows: u64,
    statistics: &mut Statistics,
) -> Result<(), GroupError>
    requires { IsOfField field.now statistics.old }
    ensures { MatchResult result (λ _. statistics.new ≡ field_in group rows field.now)
        (RefusesField field.now number group rows) }
{
    let Ok(low) = end_at(alloc, &field.low, group) else {
        return Err(GroupError::Refused(VortexError::OutOfMemory));
    };
    let Ok(high) = end_at(alloc, &field.high, group) else {
        return Err(GroupError::Refused(VortexError::OutOfMemory));
    };
    let nulls = count_at(&field.nulls, group);
    match statistics.try_replace(Some(rows), nulls, low, high) {
        Ok(()) => Ok(()),
        Err(_) => Err(GroupError::Statistics {
            group,
            field: number,
        }),
    }
}

/// The same of each field: the first whose statistics contradict themselves is refused.
fn replace_fields(
    alloc: Global,
    fields: &[FieldStatistics],
    group: usize,
    rows: u64,
    statistics: &mut Vec<Statistics>,
) -> Result<(), GroupError>
    requires { AllMean IsOfField fields.now statistics.old.items }
    ensures { MatchResult result
        (λ _. statistics.new.items ≡ statistics_in group rows fields.now)
        (RefusesFields fields.now group rows) }
{
    for number in 0..fields.len() {
        match replace_field(
            alloc,
            &fields[number],
            number,
            group,
            rows,
            &mut statistics[number],
        ) {
            Ok(()) => {}
            Err(error) => return Err(error),
        }
    }
    Ok(())
}

/// The statistics of each field in a group of so many rows. The first field whose statistics
/// contradict themselves is refused.
pub fn statistics_in(
    alloc: Global,
    fields: &[FieldStatistics],
    group: usize,
    rows: u64,
) -> Result<Vec<Statistics>, GroupError>
    ensures { MatchResult result (λ found. found.items ≡ statistics_in group rows fields.now)
        (RefusesFields fields.now group rows) }
{
    let Ok(mut found) = unknown_fields(alloc, fields) else {
        return Err(GroupError::Refused(VortexError::OutOfMemory));
    };
    match replace_fields(alloc, fields, group, rows, &mut found) {
        Ok(()) => Ok(found),
        Err(error) => Err(error),
    }
}

/// What is known of a condition in one group, whose statistics take the place of those of another.
fn prune_group<C: ScalarFnRanges>(
    tree: &BoundExpression<C>,
    fields: &[FieldStatistics],
    group: usize,
    rows: u64,
    statistics: &mut Vec<Statistics>,
    ctx: &mut ExecutionCtx,
) -> Result<Pruned, GroupError>
    requires { AllMean IsOfField fields.now statistics.old.items }
    ensures pruned { MatchResult result
        (λ p. Prunes C.meaning rows (statistics_in group rows fields.now) tree.now p)
        (RefusesGroup C.meaning fields.now tree.now group rows) }
    ensures kept { IfOk result (λ _. AllMean IsOfField fields.now statistics.new.items) }
{
    match replace_fields(ctx.alloc(), fields, group, rows, statistics) {
        Ok(()) => {}
        Err(error) => return Err(error),
    }
    match prune(tree, statistics, rows, ctx) {
        Ok(pruned) => Ok(pruned),
        Err(error) => Err(GroupError::Refused(error)),
    }
}

/// What `prune` says of each group of rows, of which each has so many, by the statistics of the
/// fields in that group, which stand in the places of the scope. The first group that is refused
/// ends it: statistics that contradict themselves, by their field; else what `prune` refuses.
pub fn prune_groups<C: ScalarFnRanges>(
    tree: &BoundExpression<C>,
    fields: &[FieldStatistics],
    rows: &[u64],
    ctx: &mut ExecutionCtx,
) -> Result<Vec<Pruned>, GroupError>
    ensures { MatchResult result
        (λ found. PruneAll C.meaning fields.now tree.now rows.now found.items)
        (RefusesGroups C.meaning fields.now tree.now rows.now) }
{
    let Ok(mut statistics) = unknown_fields(ctx.alloc(), fields) else {
        return Err(GroupError::Refused(VortexError::OutOfMemory));
    };
    let mut found = Vec::new(ctx.alloc());
    for group in 0..rows.len() {
        let pruned = match prune_group(tree, fields, group, rows[group], &mut statistics, ctx) {
            Ok(pruned) => pruned,
            Err(error) => return Err(error),
        };
        match found.push(pruned) {
            Ok(()) => {}
            Err(_) => return Err(GroupError::Refused(VortexError::OutOfMemory)),
        }
    }
    Ok(found)
}
