//! A `Column` copied into a caller's buffers.
ghost use Rattle.std.specs.Prelude.{◌≡◌, ◌≤◌, ◌<◌, ◌+◌, ◌↔◌, ℕ, true, false, not, length, map};
ghost use Rattle.std.specs.Prelude.{take, drop, MatchResult, IsTrue, OnErr, OnOk, pos, ⊤};
ghost use Rattle.std.specs.Prelude.{slice_index_or};
ghost use Rattle.vortex_bits.specs.Bits.{bit_of};
ghost use Rattle.vortex_types.specs.LogicalTypes.{is_bool_type, integer_type};
ghost use Rattle.vortex_types.specs.Typing.{HasType};
ghost use Rattle.vortex_columns.specs.Words.{cell_value};
ghost use Rattle.vortex_types.specs.TypeOf.{type_of};
ghost use Rattle.vortex_types.specs.Values.{truth, number, is_null};
ghost use Rattle.vortex_columns.specs.ColumnView.{row, IsUnlessNull, IsIntegerType, HasBits};
ghost use Rattle.vortex_arrow.specs.Layouts.{bits, numbers};
ghost use Rattle.vortex_arrow.specs.Written.{bytes_for, SameBehind, AreCopied, RefusesValues};

use crate::bits_out::{bytes_for, write_bits, write_same};
use crate::error::CopyError;
use vortex_columns::{Cell, Column, DType, NativePType, ValidRows};

/// Writes which rows are not null.
pub(crate) fn write_validity(column: &Column, out: &mut [u8])
    requires { bytes_for (length column.now.rows) ≤ length out.old }
    ensures bits { (i : ℕ) → i < length column.now.rows
        → bit_of out.new i ≡ not (is_null (row column.now.rows i)) }
    ensures behind { SameBehind (bytes_for (length column.now.rows)) out.old out.new }
{
    match column.valid_rows() {
        ValidRows::Every => write_same(true, column.len(), out),
        ValidRows::No => write_same(false, column.len(), out),
        ValidRows::Listed(bits) => write_bits(bits, out),
    }
}

/// The truth value of a constant, and any of null.
fn constant_truth(column: &Column) -> bool
    requires kind { is_bool_type column.now.dtype ≡ true }
    requires constant { ¬ HasBits column.now }
    ensures { (i : ℕ) → i < length column.now.rows
        → IsUnlessNull (row column.now.rows i) (truth result) }
{
    match column.as_constant() {
        Some(scalar) => {
            let _typed = scalar.dtype();
            scalar.as_bool_opt().unwrap_or(false)
        }
        None => false,
    }
}

/// Writes the truth values, and any under a null.
fn write_truths(column: &Column, out: &mut [u8])
    requires kind { is_bool_type column.now.dtype ≡ true }
    requires room { bytes_for (length column.now.rows) ≤ length out.old }
    ensures bits { (i : ℕ) → i < length column.now.rows
        → IsUnlessNull (row column.now.rows i) (truth (bit_of out.new i)) }
    ensures behind { SameBehind (bytes_for (length column.now.rows)) out.old out.new }
{
    match column.bits() {
        Some(bits) => write_bits(bits, out),
        None => write_same(constant_truth(column), column.len(), out),
    }
}

/// The integer of a cell, and zero of null.
fn integer_in<T: NativePType>(cell: Cell<'_>) -> T
    requires { HasType (integer_type T.ptype true) (cell_value cell) }
    ensures { IsUnlessNull (cell_value cell.entry) (number (T.number result)) }
{
    match cell {
        Cell::Int(n) => T::from_i128(n).unwrap_or(T::zero()),
        _ => T::zero(),
    }
}

/// Writes the integers of a constant column, row by row.
fn write_cells<T: NativePType>(column: &Column, out: &mut [T])
    requires kind { IsIntegerType T.ptype column.now.dtype }
    requires room { length column.now.rows ≤ length out.old }
    ensures integers { (i : ℕ) → i < length column.now.rows
        → IsUnlessNull (row column.now.rows i)
        (number (slice_index_or (map T.number out.new) i (pos 0))) }
    ensures behind { SameBehind (length column.now.rows) out.old out.new }
{
    let _typed = column.dtype();
    for i in 0..column.len() {
        out[i] = integer_in(column.cell(i));
    }
}

/// Writes the integers, and any under a null.
fn write_integers<T: NativePType>(column: &Column, out: &mut [T])
    requires kind { IsIntegerType T.ptype column.now.dtype }
    requires room { length column.now.rows ≤ length out.old }
    ensures integers { (i : ℕ) → i < length column.now.rows
        → IsUnlessNull (row column.now.rows i)
        (number (slice_index_or (map T.number out.new) i (pos 0))) }
    ensures behind { SameBehind (length column.now.rows) out.old out.new }
{
    match column.ints::<T>() {
        Some(values) => out[..column.len()].copy_from_slice(values),
        None => write_cells(column, out),
    }
}

/// Copies a column of truth values as bits from the first on: which rows are not null, and the
/// truth values. `bytes_for` tells how many bytes each takes; what lies behind them stays as it was.
/// All stays as it was where the copy is refused.
pub fn copy_bools(column: &Column, validity: &mut [u8], values: &mut [u8]) -> Result<(), CopyError>
    ensures copied { OnOk result (AreCopied column.now.rows validity.new (bits values.new)) }
    ensures behind { OnOk result (SameBehind (bytes_for (length column.now.rows)) validity.old
        validity.new × SameBehind (bytes_for (length column.now.rows)) values.old values.new) }
    ensures refused { let n = bytes_for (length column.now.rows) in MatchResult result (λ _. ⊤)
        (RefusesValues (is_bool_type column.now.dtype ≡ true) n (length validity.old) n
        (length values.old)) }
    ensures kept { OnErr result ((validity.new ≡ validity.old) × (values.new ≡ values.old)) }
{
    let needed = bytes_for(column.len());
    match column.dtype() {
        DType::Bool(_) => {}
        _ => return Err(CopyError::OtherType),
    }
    if validity.len() < needed {
        return Err(CopyError::ValidityTooShort);
    }
    if values.len() < needed {
        return Err(CopyError::ValuesTooShort);
    }
    write_validity(column, validity);
    write_truths(column, values);
    Ok(())
}

/// Copies a column of integers of one type: which rows are not null, as bits from the first on, and
/// the integers. What lies behind them stays as it was, and all where the copy is refused.
pub fn copy_integers<T: NativePType>(
    column: &Column,
    validity: &mut [u8],
    values: &mut [T],
) -> Result<(), CopyError>
    ensures copied { OnOk result (AreCopied column.now.rows validity.new
        (numbers T.ptype (map T.number values.new))) }
    ensures behind { OnOk result (SameBehind (bytes_for (length column.now.rows)) validity.old
        validity.new × SameBehind (length column.now.rows) values.old values.new) }
    ensures refused { let n = length column.now.rows in MatchResult result (λ _. ⊤)
        (RefusesValues (IsIntegerType T.ptype column.now.dtype) (bytes_for n) (length validity.old)
        n (length values.old)) }
    ensures kept { OnErr result ((validity.new ≡ validity.old) × (values.new ≡ values.old)) }
{
    match column.dtype() {
        DType::Primitive(ptype, _) if *ptype == T::integer_type() => {}
        _ => return Err(CopyError::OtherType),
    }
    if validity.len() < bytes_for(column.len()) {
        return Err(CopyError::ValidityTooShort);
    }
    if values.len() < column.len() {
        return Err(CopyError::ValuesTooShort);
    }
    write_validity(column, validity);
    write_integers(column, values);
    Ok(())
}
