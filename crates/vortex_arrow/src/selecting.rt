//! The rows that are true, by their numbers or as a byte a row.
ghost use Rattle.std.specs.Prelude.{◌≡◌, ◌≤◌, ◌+◌, true, length};
ghost use Rattle.std.specs.Prelude.{map, take, pos, MatchResult, OnErr, OnOk, IfOk, ⊤};
ghost use Rattle.vortex_types.specs.LogicalTypes.{is_bool_type};
ghost use Rattle.vortex_columns.specs.TrueRows.{true_rows};
ghost use Rattle.vortex_arrow.specs.Written.{SameBehind, RefusesSelection, RefusesMask, mask_of};

use crate::error::CopyError;
use crate::offsets::IndexType;
use crate::set_bits::{count_set, write_flags, write_set};
use crate::true_words::{TrueWords, true_words};
use vortex_columns::{Column, DType};

/// How many rows are true. Takes no memory.
pub fn true_count(column: &Column) -> usize
    ensures { result ≡ length (true_rows column.now.rows) }
{
    let count = column.len();
    match true_words(column) {
        TrueWords::Listed(rows) => count_set(&rows, count),
        TrueWords::Joint(rows) => count_set(&rows, count),
        TrueWords::Same(rows) => count_set(&rows, count),
    }
}

/// Writes the numbers of the rows that are true, and tells how many they are.
fn write_true_rows<I: IndexType>(column: &Column, numbers: &mut [I]) -> usize
    requires room { length (true_rows column.now.rows) ≤ length numbers.old }
    requires most { length column.now.rows ≤ I.most + 1 }
    ensures count { result ≡ length (true_rows column.now.rows) }
    ensures numbers { map I.number (take result numbers.new) ≡ map pos (true_rows column.now.rows) }
    ensures behind { SameBehind result numbers.old numbers.new }
{
    let count = column.len();
    match true_words(column) {
        TrueWords::Listed(rows) => write_set(&rows, count, numbers),
        TrueWords::Joint(rows) => write_set(&rows, count, numbers),
        TrueWords::Same(rows) => write_set(&rows, count, numbers),
    }
}

/// Copies the numbers of the rows of a column of truth values that are true, from 0 on and
/// ascending, and answers how many they are, as `true_count` does. What lies behind them stays as
/// it was, and all where the copy is refused.
pub fn copy_true_rows<I: IndexType>(column: &Column, numbers: &mut [I]) -> Result<usize, CopyError>
    ensures copied { IfOk result (λ count. (count ≡ length (true_rows column.now.rows))
        × (map I.number (take count numbers.new) ≡ map pos (true_rows column.now.rows))
        × SameBehind count numbers.old numbers.new) }
    ensures refused { MatchResult result (λ _. ⊤)
        (RefusesSelection column.now (length numbers.old) I.most) }
    ensures kept { OnErr result (numbers.new ≡ numbers.old) }
{
    match column.dtype() {
        DType::Bool(_) => {}
        _ => return Err(CopyError::OtherType),
    }
    if column.len() > 0 && column.len() - 1 > I::most() {
        return Err(CopyError::TooLong);
    }
    if numbers.len() < true_count(column) {
        return Err(CopyError::ValuesTooShort);
    }
    Ok(write_true_rows(column, numbers))
}

/// Writes 1 for each row that is true, and 0 for each other.
fn write_mask(column: &Column, mask: &mut [u8])
    requires { length column.now.rows ≤ length mask.old }
    ensures written { take (length column.now.rows) mask.new ≡ mask_of column.now.rows }
    ensures behind { SameBehind (length column.now.rows) mask.old mask.new }
{
    let count = column.len();
    match true_words(column) {
        TrueWords::Listed(rows) => write_flags(&rows, count, mask),
        TrueWords::Joint(rows) => write_flags(&rows, count, mask),
        TrueWords::Same(rows) => write_flags(&rows, count, mask),
    }
}

/// Copies a column of truth values as a byte a row: 1 where the row is true, 0 where it is false or
/// null. What lies behind them stays as it was, and all where the copy is refused.
pub fn copy_mask(column: &Column, mask: &mut [u8]) -> Result<(), CopyError>
    ensures copied { OnOk result
        (take (length column.now.rows) mask.new ≡ mask_of column.now.rows) }
    ensures behind { OnOk result (SameBehind (length column.now.rows) mask.old mask.new) }
    ensures refused { MatchResult result (λ _. ⊤) (RefusesMask column.now (length mask.old)) }
    ensures kept { OnErr result (mask.new ≡ mask.old) }
{
    match column.dtype() {
        DType::Bool(_) => {}
        _ => return Err(CopyError::OtherType),
    }
    if mask.len() < column.len() {
        return Err(CopyError::ValuesTooShort);
    }
    write_mask(column, mask);
    Ok(())
}
