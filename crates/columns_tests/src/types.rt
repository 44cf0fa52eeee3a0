//! Types, their nullability, and fields.

use crate::questions::sure;
use fixtures::{names, same};
use std::alloc::Global;
use vortex_columns::{DType, Nullability, PType, StructFields, VortexResult};

const NO: Nullability = Nullability::NonNullable;

const YES: Nullability = Nullability::Nullable;

fn price() -> DType {
    DType::Primitive(PType::I32, NO)
}

/// A price and what is nullable, by lists of names and types.
fn paired(alloc: Global) -> VortexResult<StructFields> {
    let mut types = Vec::new(alloc);
    types.push(price())?;
    types.push(DType::Bool(YES))?;
    StructFields::try_new(alloc, names(alloc, &["price", "sold"])?, types)
}

/// The same, listed.
fn listed(alloc: Global) -> VortexResult<StructFields> {
    StructFields::of(alloc, &[("price", price()), ("sold", DType::Bool(YES))])
}

/// Whether the fields are a price and what is nullable, and their copy is too.
fn are_two(
    rt: HostRuntime,
    fields: VortexResult<StructFields>,
    others: VortexResult<StructFields>,
) -> VortexResult<bool> {
    let fields = fields?;
    let found = match fields.find("sold") {
        Some((place, dtype)) => same(rt, place, 1) && dtype.is_nullable(),
        None => false,
    };
    let is_alone = fields.find("stock").is_none() && same(rt, fields.len(), 2);
    Ok(found && is_alone && fields.try_clone(rt.alloc())? == others?)
}

#[test]
fn fields_are_found_by_name(rt: HostRuntime) {
    let alloc = rt.alloc();
    sure(&rt, are_two(rt, paired(alloc), listed(alloc)));
}

/// Whether a type is a text that gains null and loses it again, and is written so.
fn gains_null(rt: HostRuntime) -> VortexResult<bool> {
    let dtype = DType::Utf8(NO).with_nullability(YES);
    let mut text = String::new(rt.alloc());
    dtype.write_text(&mut text)?;
    let kinds = dtype.is_utf8() && !dtype.is_boolean() && !dtype.is_primitive();
    let gained = dtype.nullability() == YES && dtype.eq_ignore_nullability(&DType::Utf8(NO));
    Ok(kinds && gained && same(rt, text.as_str(), "utf8?") && !dtype.as_nonnullable().is_nullable())
}

#[test]
fn types_change_their_nullability(rt: HostRuntime) {
    sure(&rt, gains_null(rt));
    assert!(rt; NO | YES == YES && PType::I8.holds(-128) && PType::U64.text() == "u64");
}
