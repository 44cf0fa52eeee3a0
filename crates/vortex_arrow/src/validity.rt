//! Bits of a caller's: validity and truth values.
ghost use Rattle.std.specs.Prelude.{◌≡◌, ◌≤◌, ◌<◌, ◌+◌, ◌*◌, ℕ, true, false, ⊤, length};
ghost use Rattle.std.specs.Prelude.{MatchOption, MatchResult, slice_index_or};
ghost use Rattle.vortex_bits.specs.Bits.{bits_from};
ghost use Rattle.vortex_columns.specs.ValidityView.{validity_of};
ghost use Rattle.vortex_arrow.specs.Columns.{arrow_validity, HasBitsFor};
ghost use Rattle.vortex_arrow.specs.Refusals.{IsFirstMisfit, RowMayBeNull, RefusesNull};
ghost use Rattle.vortex_arrow.specs.Refusals.{OnlyMemory};

use crate::column::ArrowColumn;
use crate::error::ArrowError;
use std::alloc::Global;
use vortex_columns::{BitBuffer, Validity};

/// A copy of so many bits, from one on: of their bytes, as they are.
pub(crate) fn read_bits(
    alloc: Global,
    bytes: &[u8],
    from: usize,
    count: usize,
) -> Result<BitBuffer, ArrowError>
    requires { from + count ≤ 8 * length bytes.now }
    ensures { MatchResult result (λ bits. bits ≡ bits_from bytes.now from count) OnlyMemory }
{
    let rest = &bytes[from / 8..];
    let part = &rest[..rest.len().min(count / 8 + 2)];
    let copy = match part.to_vec(alloc) {
        Ok(copy) => copy,
        Err(_) => return Err(ArrowError::OutOfMemory),
    };
    match BitBuffer::new(copy, from % 8, count) {
        Ok(bits) => Ok(bits),
        Err(_) => Err(ArrowError::OutOfMemory),
    }
}

/// The first bit that is not set.
fn first_unset(bits: &BitBuffer) -> Option<usize>
    ensures { MatchOption result
        ((i : ℕ) → i < length bits.now → slice_index_or bits.now i false ≡ true)
        (IsFirstMisfit (length bits.now) (λ i. slice_index_or bits.now i false ≡ true)) }
{
    for i in 0..bits.len() {
        if !bits.value(i) {
            return Some(i);
        }
    }
    None
}

/// Which rows are not null.
pub(crate) fn read_validity(alloc: Global, column: &ArrowColumn<'_>) -> Result<Validity, ArrowError>
    requires { HasBitsFor column.now.validity column.now.offset column.now.length }
    ensures { MatchResult result
        (λ v. ((i : ℕ) → i < column.now.length → RowMayBeNull column.now i)
        × (validity_of v ≡ arrow_validity column.now))
        (RefusesNull column.now) }
{
    let bitmap = match column.validity {
        Some(bitmap) => bitmap,
        None if column.nullable => return Ok(Validity::AllValid),
        None => return Ok(Validity::NonNullable),
    };
    let bits = read_bits(alloc, bitmap, column.offset, column.length)?;
    if column.nullable {
        return Ok(Validity::Array(bits));
    }
    match first_unset(&bits) {
        Some(row) => Err(ArrowError::UnexpectedNull { row }),
        None => Ok(Validity::NonNullable),
    }
}
