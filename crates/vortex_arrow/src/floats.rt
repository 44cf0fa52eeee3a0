//! Columns of floats. A caller's buffers have their patterns, as integers of the same size, and a
//! column has their keys, so that what compares integers compares floats.
ghost use Rattle.std.specs.Prelude.{◌≡◌, ◌≤◌, ◌<◌, ◌+◌, length, map, MatchResult, OnErr, OnOk, ⊤};
ghost use Rattle.vortex_types.specs.declared.dtype.PType.TheVariants.{I32, I64};
ghost use Rattle.vortex_columns.specs.ColumnView.{IsIntegerType};
ghost use Rattle.vortex_columns.specs.ValidityView.{validity_of, FitsRows};
ghost use Rattle.vortex_arrow.specs.Columns.{column_from};
ghost use Rattle.vortex_arrow.specs.Floats.{wide_key, narrow_key, wide_pattern, narrow_pattern};
ghost use Rattle.vortex_arrow.specs.Floats.{with_number};
ghost use Rattle.vortex_arrow.specs.Layouts.{numbers};
ghost use Rattle.vortex_arrow.specs.Refusals.{OnlyMemory};
ghost use Rattle.vortex_arrow.specs.Written.{bytes_for, SameBehind, AreCopied, RefusesValues};

use crate::copying::copy_integers;
use crate::error::{ArrowError, CopyError};
use std::alloc::Global;
use vortex_columns::{Column, Validity};
use vortex_float_bits::{narrow_key, narrow_pattern, wide_key, wide_pattern};

/// The keys of patterns.
fn wide_keys(alloc: Global, patterns: &[i64]) -> Result<Vec<i64>, ArrowError>
    ensures { MatchResult result (λ keys. keys.items ≡ map wide_key patterns.now) OnlyMemory }
{
    let mut keys = Vec::with_capacity(alloc, patterns.len())?;
    for i in 0..patterns.len() {
        keys.push_reserved(wide_key(patterns[i]));
    }
    Ok(keys)
}

/// The keys of patterns of 32 bits.
fn narrow_keys(alloc: Global, patterns: &[i32]) -> Result<Vec<i32>, ArrowError>
    ensures { MatchResult result (λ keys. keys.items ≡ map narrow_key patterns.now) OnlyMemory }
{
    let mut keys = Vec::with_capacity(alloc, patterns.len())?;
    for i in 0..patterns.len() {
        keys.push_reserved(narrow_key(patterns[i]));
    }
    Ok(keys)
}

/// Makes patterns of keys.
fn make_wide_patterns(values: &mut [i64])
    ensures { values.new ≡ map wide_pattern values.old }
{
    for i in 0..values.len() {
        values[i] = wide_pattern(values[i]);
    }
}

/// Makes patterns of 32 bits of keys.
fn make_narrow_patterns(values: &mut [i32])
    ensures { values.new ≡ map narrow_pattern values.old }
{
    for i in 0..values.len() {
        values[i] = narrow_pattern(values[i]);
    }
}

/// A column of the keys of floats of 64 bits.
pub(crate) fn read_wide_floats(
    alloc: Global,
    patterns: &[i64],
    from: usize,
    count: usize,
    validity: Validity,
) -> Result<Column, ArrowError>
    requires items { from + count ≤ length patterns.now }
    requires fits { FitsRows (validity_of validity) count }
    ensures { MatchResult result
        (λ c. c ≡ column_from (numbers I64 (map wide_key patterns.now)) (validity_of validity)
        from count) OnlyMemory }
{
    let keys = wide_keys(alloc, &patterns[from..from + count])?;
    match Column::try_primitive(alloc, keys, validity) {
        Ok(column) => Ok(column),
        Err(_) => Err(ArrowError::OutOfMemory),
    }
}

/// A column of the keys of floats of 32 bits.
pub(crate) fn read_narrow_floats(
    alloc: Global,
    patterns: &[i32],
    from: usize,
    count: usize,
    validity: Validity,
) -> Result<Column, ArrowError>
    requires items { from + count ≤ length patterns.now }
    requires fits { FitsRows (validity_of validity) count }
    ensures { MatchResult result
        (λ c. c ≡ column_from (numbers I32 (map narrow_key patterns.now)) (validity_of validity)
        from count) OnlyMemory }
{
    let keys = narrow_keys(alloc, &patterns[from..from + count])?;
    match Column::try_primitive(alloc, keys, validity) {
        Ok(column) => Ok(column),
        Err(_) => Err(ArrowError::OutOfMemory),
    }
}

/// Copies a column of the keys of floats of 64 bits: which rows are not null, as bits from the first
/// on, and the patterns of the floats. What lies behind them stays as it was, and all where the copy
/// is refused.
pub fn copy_wide_floats(
    column: &Column,
    validity: &mut [u8],
    patterns: &mut [i64],
) -> Result<(), CopyError>
    ensures copied { OnOk result (AreCopied (map (with_number wide_pattern) column.now.rows)
        validity.new (numbers I64 (map (λ x. x) patterns.new))) }
    ensures behind { OnOk result (SameBehind (bytes_for (length column.now.rows)) validity.old
        validity.new × SameBehind (length column.now.rows) patterns.old patterns.new) }
    ensures refused { let n = length column.now.rows in MatchResult result (λ _. ⊤)
        (RefusesValues (IsIntegerType I64 column.now.dtype) (bytes_for n) (length validity.old)
        n (length patterns.old)) }
    ensures kept { OnErr result ((validity.new ≡ validity.old) × (patterns.new ≡ patterns.old)) }
{
    copy_integers(column, validity, patterns)?;
    make_wide_patterns(&mut patterns[..column.len()]);
    Ok(())
}

/// The same of floats of 32 bits.
pub fn copy_narrow_floats(
    column: &Column,
    validity: &mut [u8],
    patterns: &mut [i32],
) -> Result<(), CopyError>
    ensures copied { OnOk result (AreCopied (map (with_number narrow_pattern) column.now.rows)
        validity.new (numbers I32 (map (λ x. x) patterns.new))) }
    ensures behind { OnOk result (SameBehind (bytes_for (length column.now.rows)) validity.old
        validity.new × SameBehind (length column.now.rows) patterns.old patterns.new) }
    ensures refused { let n = length column.now.rows in MatchResult result (λ _. ⊤)
        (RefusesValues (IsIntegerType I32 column.now.dtype) (bytes_for n) (length validity.old)
        n (length patterns.old)) }
    ensures kept { OnErr result ((validity.new ≡ validity.old) × (patterns.new ≡ patterns.old)) }
{
    copy_integers(column, validity, patterns)?;
    make_narrow_patterns(&mut patterns[..column.len()]);
    Ok(())
}
