//! The items of a list, where each is the same in every row.
ghost use Rattle.std.specs.Prelude.{◌≡◌, ◌<◌, ℕ, IfSome, drop, length, map};
ghost use Rattle.vortex_errors.specs.Answers.{AnswersUnlessMemory};
ghost use Rattle.vortex_columns.specs.ColumnView.{row};
ghost use Rattle.vortex_interface.specs.Outcomes.{values_at};
ghost use Rattle.vortex_sql_in_list.specs.InLists.{AddsItem, AreListed, item_value};

use std::alloc::Global;
use vortex_columns::{Cell, Column, NativePType, VortexResult};
use vortex_interface::ExecutionArgs;
use vortex_sets::{IntItem, SetItem, TextItem};

/// Items of one kind, read from cells.
pub(crate) trait CellItem<'a>: SetItem {
    ghost use Rattle.std.specs.Prelude.{◌≡◌, IfSome};
    ghost use Rattle.vortex_columns.specs.Cells.{cell_value};
    ghost use Rattle.vortex_sql_in_list.specs.InLists.{item_value};

    /// The item or null that a cell is; none where it is neither.
    fn of_cell(cell: &Cell<'a>) -> Option<Option<Self>>
        ensures { IfSome result (λ item. cell_value cell.now ≡ item_value Self.value item) };
}

impl<'a, T: NativePType> CellItem<'a> for IntItem<T> {
    fn of_cell(cell: &Cell<'a>) -> Option<Option<IntItem<T>>> {
        match cell {
            Cell::Null => Some(None),
            Cell::Int(number) => match T::from_i128(*number) {
                Some(number) => Some(Some(IntItem { number })),
                None => None,
            },
            Cell::Bool(_) => None,
            Cell::Text(_) => None,
            Cell::Bytes(_) => None,
            Cell::Sequence(_) => None,
        }
    }
}

impl<'a> CellItem<'a> for TextItem<'a> {
    fn of_cell(cell: &Cell<'a>) -> Option<Option<TextItem<'a>>> {
        match cell {
            Cell::Null => Some(None),
            Cell::Text(text) => Some(Some(TextItem::new(text.as_bytes()))),
            Cell::Bool(_) => None,
            Cell::Int(_) => None,
            Cell::Bytes(_) => None,
            Cell::Sequence(_) => None,
        }
    }
}

/// The items of a list that are not null, and whether it has a null.
#[derive(Drop)]
pub(crate) struct Items<I: SetItem> {
    pub(crate) values: Vec<I>,
    pub(crate) has_null: bool,
}

impl<I: SetItem> Items<I> {
    fn add(&mut self, item: Option<I>) -> VortexResult<()>
        ensures { AnswersUnlessMemory result (λ _. AddsItem I.value item
            (map I.value self.old.values.items) (map I.value self.new.values.items)
            self.old.has_null self.new.has_null) }
    {
        match item {
            Some(value) => self.values.push(value)?,
            None => self.has_null = true,
        }
        Ok(())
    }
}

/// The item or null in each row of a column; none where it is not constant, or holds neither.
fn item_of<'a, I: CellItem<'a>>(column: &'a Column) -> Option<Option<I>>
    ensures { IfSome result (λ item. (i : ℕ) → i < length column.now.rows
        → row column.now.rows i ≡ item_value I.value item) }
{
    match column.as_constant() {
        Some(scalar) => I::of_cell(&scalar.cell()),
        None => None,
    }
}

/// The items of a list; none where one of them is not constant, or no item of the kind.
pub(crate) fn constant_items<'a, I: CellItem<'a>, A: ExecutionArgs>(
    alloc: Global,
    args: &'a A,
) -> VortexResult<Option<Items<I>>>
    ensures { AnswersUnlessMemory result (λ made. IfSome made (λ items. (i : ℕ)
        → i < A.rows args.now → AreListed (map I.value items.values.items) items.has_null
        (drop 1 (values_at (A.inputs args.now) i)))) }
{
    let mut items = Items {
        values: Vec::new(alloc),
        has_null: false,
    };
    for k in 1..args.num_inputs() {
        let input = args.get(k)?;
        let Some(item) = item_of::<I>(input) else {
            return Ok(None);
        };
        items.add(item)?;
    }
    Ok(Some(items))
}
