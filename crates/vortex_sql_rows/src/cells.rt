//! What a cell is, and results made of that.
ghost use Rattle.std.specs.Prelude.{◌≡◌, map};
ghost use Rattle.std.specs.Option.{option_copied};
ghost use Rattle.vortex_types.specs.Values.{is_null};
ghost use Rattle.vortex_columns.specs.Cells.{cell_value};
ghost use Rattle.vortex_sql_rows.specs.AnsweredRows.{AnswersRow};
ghost use Rattle.vortex_sql_rows.specs.Integers.{int_or_fault};
ghost use Rattle.vortex_sql_rows.specs.Shapes.{is_true, number_in, text_in, truth_in};
ghost use Rattle.vortex_sql_rows.specs.Shapes.{only_int, only_text, only_truth, both_ints};

use crate::faults::RowFault;
use vortex_columns::{Cell, VortexError, VortexResult};

/// Whether a cell is null.
pub fn is_null(cell: &Cell<'_>) -> bool
    ensures { result ≡ is_null (cell_value cell.now) }
{
    match cell {
        Cell::Null => true,
        Cell::Bool(_) => false,
        Cell::Int(_) => false,
        Cell::Text(_) => false,
        Cell::Bytes(_) => false,
        Cell::Sequence(_) => false,
    }
}

/// The number that a cell is.
pub fn int_in(cell: &Cell<'_>) -> Option<i128>
    ensures { result ≡ number_in (cell_value cell.now) }
{
    match cell {
        Cell::Int(number) => Some(*number),
        Cell::Null => None,
        Cell::Bool(_) => None,
        Cell::Text(_) => None,
        Cell::Bytes(_) => None,
        Cell::Sequence(_) => None,
    }
}

/// The truth value that a cell is.
pub fn truth_in(cell: &Cell<'_>) -> Option<bool>
    ensures { result ≡ truth_in (cell_value cell.now) }
{
    match cell {
        Cell::Bool(value) => Some(*value),
        Cell::Null => None,
        Cell::Int(_) => None,
        Cell::Text(_) => None,
        Cell::Bytes(_) => None,
        Cell::Sequence(_) => None,
    }
}

/// The text that a cell is.
pub fn text_in<'a>(cell: &Cell<'a>) -> Option<&'a str>
    ensures { option_copied result ≡ text_in (cell_value cell.now) }
{
    match cell {
        Cell::Text(value) => Some(value),
        Cell::Null => None,
        Cell::Bool(_) => None,
        Cell::Int(_) => None,
        Cell::Bytes(_) => None,
        Cell::Sequence(_) => None,
    }
}

/// The number of a row of one cell.
pub fn only_int(cells: &[Cell<'_>]) -> Option<i128>
    ensures { result ≡ only_int (map cell_value cells.now) }
{
    let [a] = cells else {
        return None;
    };
    int_in(a)
}

/// The truth value of a row of one cell.
pub fn only_truth(cells: &[Cell<'_>]) -> Option<bool>
    ensures { result ≡ only_truth (map cell_value cells.now) }
{
    let [a] = cells else {
        return None;
    };
    truth_in(a)
}

/// The text of a row of one cell.
pub fn only_text<'a>(cells: &[Cell<'a>]) -> Option<&'a str>
    ensures { option_copied result ≡ only_text (map cell_value cells.now) }
{
    let [a] = cells else {
        return None;
    };
    text_in(a)
}

/// The numbers of a row of two cells.
pub fn both_ints(cells: &[Cell<'_>]) -> Option<(i128, i128)>
    ensures { result ≡ both_ints (map cell_value cells.now) }
{
    let [a, b] = cells else {
        return None;
    };
    match (int_in(a), int_in(b)) {
        (Some(a), Some(b)) => Some((a, b)),
        (Some(_), None) => None,
        (None, _) => None,
    }
}

/// Whether a cell is true.
pub fn is_true(cell: &Cell<'_>) -> bool
    ensures { result ≡ is_true (cell_value cell.now) }
{
    match cell {
        Cell::Bool(value) => *value,
        Cell::Null => false,
        Cell::Int(_) => false,
        Cell::Text(_) => false,
        Cell::Bytes(_) => false,
        Cell::Sequence(_) => false,
    }
}

/// The number, or the fault where there is none.
pub fn int_or_fault<'a>(value: Option<i128>, fault: RowFault) -> VortexResult<Cell<'a>>
    ensures { AnswersRow (int_or_fault fault value) result }
{
    match value {
        Some(value) => Ok(Cell::Int(value)),
        None => Err(VortexError::Custom(fault.number())),
    }
}
