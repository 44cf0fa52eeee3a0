//! The rows of a column as Rust's own values, in their order: none for null. They are borrowed,
//! which allocates nothing.
ghost use Rattle.std.specs.Prelude.{◌≡◌, ◌∷◌, [], true, false, MatchOption, IfSome};
ghost use Rattle.vortex_columns.specs.Words.{IsCell, cell_value, HasType};
ghost use Rattle.vortex_columns.specs.Words.{bool_type, integer_type, text_type};
ghost use Rattle.vortex_columns.specs.RowValues.{bool_row, int_row, text_row};

use super::Column;
use crate::cell::Cell;
use std::marker::{Model, PhantomData};
use vortex_types::{DType, NativePType};

/// The rows of a column from one on, as cells; the view is the remaining values.
#[derive(Drop)]
pub(super) struct CellRows<'a> {
    column: &'a Column,
    next: usize,
}

impl<'a> Model for CellRows<'a> {
    ghost use Rattle.std.specs.Prelude.{List, drop, length, ◌≤◌};
    ghost use Rattle.std.specs.Coded.{coded_list};
    ghost use Rattle.vortex_types.specs.Values.{Value as RowValue};
    ghost use Rattle.vortex_types.specs.Codes.{coded_value};

    ghost Value = { List RowValue };

    ghost coded = { coded_list coded_value };

    ghost view = { λ a. drop a.next a.column.now.rows };

    ghost invariant = { λ a. a.next ≤ length a.column.now.rows };
}

impl<'a> CellRows<'a> {
    pub(super) fn of(column: &'a Column) -> CellRows<'a>
        ensures { result ≡ column.now.rows }
    {
        CellRows { column, next: 0 }
    }

    /// The next row; none after the last.
    pub(super) fn next_cell(&mut self) -> Option<Cell<'a>>
        ensures whole { IfSome result IsCell }
        ensures rows { MatchOption result ((self.old ≡ []) × (self.new ≡ []))
            (λ c. self.old ≡ cell_value c ∷ self.new) }
    {
        if self.next == self.column.len() {
            return None;
        }
        let cell = self.column.cell(self.next);
        self.next += 1;
        Some(cell)
    }
}

/// The truth value of a cell of Bool.
fn bool_in(cell: Cell<'_>) -> Option<bool>
    requires { HasType (bool_type true) (cell_value cell) }
    ensures { bool_row result ≡ cell_value cell.entry }
{
    match cell {
        Cell::Bool(b) => Some(b),
        _ => None,
    }
}

/// The integer of a cell of that type.
fn int_in<T: NativePType>(cell: Cell<'_>) -> Option<T>
    requires { HasType (integer_type T.ptype true) (cell_value cell) }
    ensures { int_row T.number result ≡ cell_value cell.entry }
{
    match cell {
        Cell::Int(n) => T::from_i128(n),
        _ => None,
    }
}

/// The text of a cell of Utf8.
fn text_in<'a>(cell: Cell<'a>) -> Option<&'a str>
    requires { HasType (text_type true) (cell_value cell) }
    ensures { text_row result ≡ cell_value cell.entry }
{
    match cell {
        Cell::Text(text) => Some(text),
        _ => None,
    }
}

/// The rows of a column of Bool; the view is the remaining values.
#[derive(Drop)]
pub struct BoolRows<'a> {
    cells: CellRows<'a>,
}

impl<'a> Model for BoolRows<'a> {
    ghost use Rattle.std.specs.Prelude.{List, true};
    ghost use Rattle.std.specs.Coded.{coded_list};
    ghost use Rattle.vortex_types.specs.Values.{Value as RowValue};
    ghost use Rattle.vortex_types.specs.Codes.{coded_value};
    ghost use Rattle.vortex_types.specs.LogicalTypes.{bool_type};
    ghost use Rattle.vortex_columns.specs.ColumnView.{AreTyped};

    ghost Value = { List RowValue };

    ghost coded = { coded_list coded_value };

    ghost view = { λ a. a.cells };

    ghost invariant = { λ a. AreTyped (bool_type true) a.cells };
}

impl<'a> Iterator for BoolRows<'a> {
    ghost use Rattle.std.specs.Iterator.{YieldsFirstBy, item_count};

    type Item = Option<bool>;

    ghost next_gives = { YieldsFirstBy bool_row (λ rows. rows) };

    ghost remaining = { item_count (λ rows. rows) };

    fn next(&mut self) -> Option<Option<bool>> {
        Some(bool_in(self.cells.next_cell()?))
    }
}

/// The rows of a column of integers of one type; the view is the remaining values.
#[derive(Drop)]
pub struct IntRows<'a, T: NativePType> {
    cells: CellRows<'a>,
    kind: PhantomData<T>,
}

impl<'a, T: NativePType> Model for IntRows<'a, T> {
    ghost use Rattle.std.specs.Prelude.{List, true};
    ghost use Rattle.std.specs.Coded.{coded_list};
    ghost use Rattle.vortex_types.specs.Values.{Value as RowValue};
    ghost use Rattle.vortex_types.specs.Codes.{coded_value};
    ghost use Rattle.vortex_types.specs.LogicalTypes.{integer_type};
    ghost use Rattle.vortex_columns.specs.ColumnView.{AreTyped};

    ghost Value = { List RowValue };

    ghost coded = { coded_list coded_value };

    ghost view = { λ a. a.cells };

    ghost invariant = { λ a. AreTyped (integer_type T.ptype true) a.cells };
}

impl<'a, T: NativePType> Iterator for IntRows<'a, T> {
    ghost use Rattle.std.specs.Iterator.{YieldsFirstBy, item_count};

    type Item = Option<T>;

    ghost next_gives = { YieldsFirstBy (int_row T.number) (λ rows. rows) };

    ghost remaining = { item_count (λ rows. rows) };

    fn next(&mut self) -> Option<Option<T>> {
        Some(int_in(self.cells.next_cell()?))
    }
}

/// The rows of a column of Utf8; the view is the remaining values.
#[derive(Drop)]
pub struct TextRows<'a> {
    cells: CellRows<'a>,
}

impl<'a> Model for TextRows<'a> {
    ghost use Rattle.std.specs.Prelude.{List, true};
    ghost use Rattle.std.specs.Coded.{coded_list};
    ghost use Rattle.vortex_types.specs.Values.{Value as RowValue};
    ghost use Rattle.vortex_types.specs.Codes.{coded_value};
    ghost use Rattle.vortex_types.specs.LogicalTypes.{text_type};
    ghost use Rattle.vortex_columns.specs.ColumnView.{AreTyped};

    ghost Value = { List RowValue };

    ghost coded = { coded_list coded_value };

    ghost view = { λ a. a.cells };

    ghost invariant = { λ a. AreTyped (text_type true) a.cells };
}

impl<'a> Iterator for TextRows<'a> {
    ghost use Rattle.std.specs.Iterator.{YieldsFirstBy, item_count};

    type Item = Option<&'a str>;

    ghost next_gives = { YieldsFirstBy text_row (λ rows. rows) };

    ghost remaining = { item_count (λ rows. rows) };

    fn next(&mut self) -> Option<Option<&'a str>> {
        Some(text_in(self.cells.next_cell()?))
    }
}

/// The rows in their order, none for null; also of constants. Allocates nothing.
impl Column {
    ghost use Rattle.vortex_types.specs.LogicalTypes.{is_bool_type, is_text_type};
    ghost use Rattle.vortex_columns.specs.ColumnView.{IsIntegerType};

    /// The truth values of a column of Bool; none for another type.
    pub fn bool_rows(&self) -> Option<BoolRows<'_>>
        ensures { MatchOption result (is_bool_type self.now.dtype ≡ false)
            (λ rows. (is_bool_type self.now.dtype ≡ true) × (rows ≡ self.now.rows)) }
    {
        match self.dtype() {
            DType::Bool(_) => Some(BoolRows {
                cells: CellRows::of(self),
            }),
            _ => None,
        }
    }

    /// The integers of a column of that integer type; none for another type.
    pub fn int_rows<T: NativePType>(&self) -> Option<IntRows<'_, T>>
        ensures { MatchOption result (¬ IsIntegerType T.ptype self.now.dtype)
            (λ rows. IsIntegerType T.ptype self.now.dtype × (rows ≡ self.now.rows)) }
    {
        match self.dtype() {
            DType::Primitive(ptype, _) if *ptype == T::integer_type() => Some(IntRows {
                cells: CellRows::of(self),
                kind: PhantomData,
            }),
            _ => None,
        }
    }

    /// The texts of a column of Utf8, borrowed; none for another type.
    pub fn text_rows(&self) -> Option<TextRows<'_>>
        ensures { MatchOption result (is_text_type self.now.dtype ≡ false)
            (λ rows. (is_text_type self.now.dtype ≡ true) × (rows ≡ self.now.rows)) }
    {
        match self.dtype() {
            DType::Utf8(_) => Some(TextRows {
                cells: CellRows::of(self),
            }),
            _ => None,
        }
    }
}
