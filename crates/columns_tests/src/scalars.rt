//! Scalars.

use crate::questions::sure;
use fixtures::{boxed, same};
use std::alloc::Global;
use std::cmp::Ordering;
use vortex_columns::{DType, Nullability, PType, Scalar, ScalarValue, VortexResult};

const NO: Nullability = Nullability::NonNullable;

const YES: Nullability = Nullability::Nullable;

/// Whether two scalars are in that order, and are equal exactly if it is Equal.
fn are_ordered(left: &Scalar, order: Ordering, right: &Scalar) -> bool {
    left.partial_cmp(right) == Some(order) && (left == right) == order.is_eq()
}

#[test]
fn scalars_are_ordered_within_a_type(rt: HostRuntime) {
    let null = Scalar::null(DType::Bool(YES));
    assert!(rt; are_ordered(&null, Ordering::Less, &Scalar::from(false)));
}

/// Whether a text, its copy, and the same letters as bytes are read only as what they are.
fn are_read(rt: HostRuntime) -> VortexResult<bool> {
    let alloc = rt.alloc();
    let text = Scalar::try_from_str(alloc, "new")?;
    let letters = ScalarValue::Binary(b"new".to_vec(alloc)?);
    let bytes = Scalar::try_new(DType::Binary(NO), Some(letters))?;
    let copy = text.try_clone(alloc)?;
    let texts = same(rt, copy.as_text_opt(), Some("new")) && bytes.as_text_opt().is_none();
    let byte_strings = bytes.as_bytes_opt() == Some(b"new") && text.as_bytes_opt().is_none();
    Ok(texts && byte_strings && copy == text && *copy.dtype() == DType::Utf8(NO))
}

#[test]
fn scalars_are_read(rt: HostRuntime) {
    sure(&rt, are_read(rt));
}

/// Whether a scalar has the value 1 and that type.
fn is_one(scalar: Scalar, ptype: PType) -> bool {
    scalar.as_int_opt() == Some(1) && *scalar.dtype() == DType::Primitive(ptype, NO)
}

/// Whether 1 of each integer type is a scalar of that type.
fn are_ones() -> bool {
    is_one(Scalar::from(1i8), PType::I8)
        && is_one(Scalar::from(1i16), PType::I16)
        && is_one(Scalar::from(1i32), PType::I32)
        && is_one(Scalar::from(1i64), PType::I64)
        && is_one(Scalar::from(1u8), PType::U8)
        && is_one(Scalar::from(1u16), PType::U16)
        && is_one(Scalar::from(1u32), PType::U32)
        && is_one(Scalar::from(1u64), PType::U64)
}

#[test]
fn integers_become_scalars_of_their_types(rt: HostRuntime) {
    assert!(rt; are_ones());
}

fn map_type(alloc: Global) -> VortexResult<DType> {
    let key = boxed(alloc, DType::Primitive(PType::U8, NO))?;
    Ok(DType::Map(key, boxed(alloc, DType::Primitive(PType::U8, YES))?, NO))
}

/// A map of the key 1 and no value.
fn map(alloc: Global) -> VortexResult<Scalar> {
    let entry = ScalarValue::List(Vec::from_array(alloc, [Some(ScalarValue::Int(1)), None])?);
    let entries = ScalarValue::List(Vec::from_array(alloc, [Some(entry)])?);
    Scalar::try_new(map_type(alloc)?, Some(entries))
}

/// Whether a scalar has this debug text, and this text as a literal.
fn prints(rt: HostRuntime, scalar: VortexResult<Scalar>, expected: &str) -> VortexResult<bool> {
    let alloc = rt.alloc();
    let scalar = scalar?;
    let printed = format!(in alloc; "{scalar:?}")?;
    let mut literal = String::new(alloc);
    scalar.write_literal(&mut literal)?;
    Ok(same(rt, printed.as_str(), expected) && same(rt, literal.as_str(), expected))
}

#[test]
fn scalars_are_printed(rt: HostRuntime) {
    let alloc = rt.alloc();
    sure(&rt, prints(rt, map(alloc), "[{key: 1u8, value: null}]"));
}
