//! The rows whose value a set has, and the column of these.
ghost use Rattle.std.specs.Prelude.{◌≡◌, ◌<◌, ◌&&◌, ◌||◌, not, length, map};
ghost use Rattle.std.specs.Prelude.{slice_index_or};
ghost use Rattle.vortex_errors.specs.Answers.{AnswersUnlessMemory};
ghost use Rattle.vortex_types.specs.LogicalTypes.{bool_type, is_nullable};
ghost use Rattle.vortex_types.specs.Values.{is_null, null};
ghost use Rattle.vortex_columns.specs.ColumnView.{row};
ghost use Rattle.vortex_columns.specs.ValidRows.{IsValidity};
ghost use Rattle.vortex_columns.specs.ValidityView.{validity_of};
ghost use Rattle.vortex_kernels.specs.Rows.{HasRows};
ghost use Rattle.vortex_sets.specs.ItemSets.{is_member};
ghost use Rattle.vortex_sql_in_list.specs.InLists.{AreItems, in_values};

use crate::rows::ItemRows;
use std::alloc::Global;
use vortex_bits::{RowBits, collect_rows};
use vortex_columns::{Column, Validity, VortexResult, both_valid};
use vortex_sets::{ItemSet, SetItem};

/// Whether the set has the value of a row.
#[derive(Drop)]
struct FoundRows<'a, I: SetItem, R: ItemRows<I>> {
    set: &'a ItemSet<I>,
    rows: &'a R,
}

impl<I: SetItem, R: ItemRows<I>> RowBits for FoundRows<'_, I, R> {
    ghost has_row = { λ r i. i < length (R.values r.rows.now) };

    ghost row_bit = { λ r i. is_member (map I.value r.set.now.items.items)
        (slice_index_or (R.values r.rows.now) i null) };

    fn bit(&self, i: usize) -> bool {
        self.set.contains(self.rows.item(i))
    }
}

/// Whether a row is not null and the set has its value.
#[derive(Drop)]
struct ValidFound<'a, I: SetItem, R: ItemRows<I>> {
    column: &'a Column,
    found: FoundRows<'a, I, R>,
}

impl<I: SetItem, R: ItemRows<I>> RowBits for ValidFound<'_, I, R> {
    ghost has_row = { λ r i. (i < length r.column.now.rows)
        × (i < length (R.values r.found.rows.now)) };

    ghost row_bit = { λ r i. not (is_null (row r.column.now.rows i))
        && is_member (map I.value r.found.set.now.items.items)
        (slice_index_or (R.values r.found.rows.now) i null) };

    fn bit(&self, i: usize) -> bool {
        self.column.is_valid(i) && self.found.bit(i)
    }
}

/// The rows that have an answer: those that are not null, and where the list has a null, of these
/// those whose value the set has.
fn answered_rows<I: SetItem, R: ItemRows<I>>(
    alloc: Global,
    rows: &ValidFound<'_, I, R>,
    has_null: bool,
) -> VortexResult<Validity>
    requires { length (R.values rows.now.found.rows.now) ≡ length rows.now.column.now.rows }
    ensures { AnswersUnlessMemory result (λ v. IsValidity
        (is_nullable rows.now.column.now.dtype || has_null) (length rows.now.column.now.rows)
        (λ i. not (is_null (row rows.now.column.now.rows i)) && (not has_null
        || is_member (map I.value rows.now.found.set.now.items.items)
        (slice_index_or (R.values rows.now.found.rows.now) i null))) (validity_of v)) }
{
    if has_null {
        let valid = collect_rows(alloc, rows, rows.column.len())?;
        return Ok(Validity::Array(valid));
    }
    both_valid(alloc, rows.column, rows.column)
}

/// Whether each row's value is in the set, or null is in the list.
pub(crate) fn found_column<I: SetItem, R: ItemRows<I>>(
    alloc: Global,
    column: &Column,
    rows: &R,
    set: &ItemSet<I>,
    has_null: bool,
) -> VortexResult<Column>
    requires { AreItems column.now (R.values rows.now) }
    ensures { AnswersUnlessMemory result (HasRows
        (bool_type (is_nullable column.now.dtype || has_null)) (length column.now.rows)
        (λ i. in_values (map I.value set.now.items.items) has_null (row column.now.rows i))) }
{
    let found = FoundRows { set, rows };
    let bits = collect_rows(alloc, &found, column.len())?;
    let validity = answered_rows(alloc, &ValidFound { column, found }, has_null)?;
    Column::try_bool(alloc, bits, validity)
}
