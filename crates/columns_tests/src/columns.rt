//! Columns of each kind, and which of their rows are valid.

use crate::questions::sure;
use fixtures::{Made, kept, names, nullable_bools, numbers, same};
use std::alloc::Global;
use vortex_columns::{Column, ValidRows, Validity, VortexResult, both_valid};

/// Two integers, as an element of others.
fn integers(alloc: Global) -> VortexResult<Column> {
    Column::try_primitive(
        alloc,
        Vec::from_array(alloc, [5, 6])?,
        Validity::NonNullable,
    )
}

/// Two integers.
pub fn pair(alloc: Global) -> Made {
    numbers(alloc, &[5i32, 6])
}

/// One byte string, under a null.
pub fn byte_lists(alloc: Global) -> Made {
    let mut values = Vec::new(alloc);
    values.push(Vec::from_array(alloc, [255u8])?)?;
    kept(
        alloc,
        Column::try_binary(alloc, values, Validity::AllInvalid),
    )
}

/// Structs of two fields of integers.
pub fn records(alloc: Global) -> Made {
    let words = names(alloc, &["a", "b"])?;
    let mut fields = Vec::new(alloc);
    fields.push(integers(alloc)?)?;
    fields.push(integers(alloc)?)?;
    kept(
        alloc,
        Column::try_struct(alloc, words, fields, 2, Validity::NonNullable),
    )
}

/// Two lists over two integers.
pub fn lists(alloc: Global, offsets: [usize; 2], sizes: [usize; 2]) -> Made {
    let offsets = Vec::from_array(alloc, offsets)?;
    let sizes = Vec::from_array(alloc, sizes)?;
    let elements = integers(alloc)?;
    kept(
        alloc,
        Column::try_list(alloc, elements, offsets, sizes, Validity::NonNullable),
    )
}

/// A map of the second key and value, and one of none; or the other way round.
pub fn maps(alloc: Global, offsets: [usize; 2], sizes: [usize; 2]) -> Made {
    let offsets = Vec::from_array(alloc, offsets)?;
    let sizes = Vec::from_array(alloc, sizes)?;
    let keys = integers(alloc)?;
    let values = integers(alloc)?;
    kept(
        alloc,
        Column::try_map(alloc, keys, values, offsets, sizes, Validity::NonNullable),
    )
}

/// Whether three truth values and their validity are borrowed as three bits each, the second row
/// not valid.
fn has_bits(rt: HostRuntime, column: Made) -> VortexResult<bool> {
    let column = column?;
    if column.len() != 3 {
        return Ok(false);
    }
    let borrowed = match (column.bits(), column.valid_bits()) {
        (Some(bits), Some(valid)) => same(rt, (bits.len(), valid.len()), (3, 3)),
        _ => false,
    };
    let listed = match column.valid_rows() {
        ValidRows::Listed(bits) => same(rt, bits.len(), 3),
        _ => false,
    };
    Ok(borrowed && listed && column.is_valid(0) && !column.is_valid(1))
}

/// Whether these of two rows are valid on both sides.
fn joins(rt: HostRuntime, left: Made, right: Made, expected: [bool; 2]) -> VortexResult<bool> {
    let (left, right) = (left?, right?);
    if left.len() != 2 || right.len() != 2 {
        return Ok(false);
    }
    let valid = both_valid(rt.alloc(), &*left, &*right)?;
    if !valid.fits(2) {
        return Ok(false);
    }
    Ok(same(rt, [valid.is_valid(0), valid.is_valid(1)], expected))
}

#[test]
fn valid_rows_are_borrowed(rt: HostRuntime) {
    let alloc = rt.alloc();
    let rows = nullable_bools(alloc, &[Some(true), None, Some(false)]);
    sure(&rt, has_bits(rt, rows));
    let right = nullable_bools(alloc, &[None, Some(true)]);
    sure(&rt, joins(rt, pair(alloc), right, [false, true]));
}
