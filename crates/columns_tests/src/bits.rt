//! Bits, validity and integers.

use crate::questions::sure;
use fixtures::same;
use std::alloc::Global;
use vortex_columns::{BitBuffer, NativePType, Nullability, PType, Validity, VortexResult};

/// The bits of bytes 0x80, 0x01, 0x00 and 0xFF from bit 7 on.
fn three_bytes(alloc: Global) -> VortexResult<BitBuffer> {
    BitBuffer::new(Vec::from_array(alloc, [0x80u8, 0x01, 0x00, 0xFF])?, 7, 20)
}

/// Whether this is the word of their first 18.
fn is_word(rt: HostRuntime, alloc: Global, expected: u64) -> VortexResult<bool> {
    let bits = three_bytes(alloc)?;
    if bits.len() < 18 {
        return Ok(false);
    }
    Ok(same(rt, bits.slice(0, 18).word(0), expected))
}

#[test]
fn words_begin_anywhere_and_end_with_the_range(rt: HostRuntime) {
    let alloc = rt.alloc();
    sure(&rt, is_word(rt, alloc, 0b10_0000_0000_0000_0011));
}

/// Whether a copy of the validity of valid and invalid rows, valid only for their number, has the
/// bits and is nullable.
fn is_listed(rt: HostRuntime) -> VortexResult<bool> {
    let alloc = rt.alloc();
    let validity = Validity::Array(BitBuffer::from_bools(alloc, &[true, false])?);
    let copy = validity.try_clone(alloc)?;
    let listed = match copy.bits() {
        Some(bits) if bits.len() == 2 => same(rt, (bits.value(0), bits.value(1)), (true, false)),
        _ => false,
    };
    let fits = validity.fits(2) && !validity.fits(3);
    Ok(listed && fits && copy.nullability() == Nullability::Nullable)
}

#[test]
fn validity_is_read(rt: HostRuntime) {
    sure(&rt, is_listed(rt));
}

/// Whether the copy of integers of i16 has these, and none of another type.
fn has_shorts(rt: HostRuntime, expected: &[i16]) -> VortexResult<bool> {
    let alloc = rt.alloc();
    let ints = i16::wrap(expected.to_vec(alloc)?).try_clone(alloc)?;
    let is_short = ints.ptype() == PType::I16 && u16::of(&ints).is_none();
    Ok(is_short && same(rt, i16::of(&ints), Some(expected)))
}

#[test]
fn integers_are_read(rt: HostRuntime) {
    sure(&rt, has_shorts(rt, &[5, -6]));
}
