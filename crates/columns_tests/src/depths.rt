//! Types and values too deep for recursion.

use crate::questions::sure;
use fixtures::{Ask, boxed, fields, same};
use std::alloc::Global;
use std::cmp::Ordering;
use vortex_columns::{DType, Nullability, Scalar, ScalarValue, VortexResult};

const NO: Nullability = Nullability::NonNullable;

/// More than recursion would reach.
const LEVELS: usize = 200_000;

/// What a type is nested in.
#[derive(Clone, Copy)]
enum Around {
    List,
    Pair,
    Key,
    Value,
    Field,
}

/// A type within a list, a list of two, a map or a struct of two fields.
fn within(alloc: Global, around: Around, dtype: DType) -> VortexResult<DType> {
    Ok(match around {
        Around::List => DType::List(boxed(alloc, dtype)?, NO),
        Around::Pair => DType::FixedSizeList(boxed(alloc, dtype)?, 2, NO),
        Around::Key => DType::Map(boxed(alloc, dtype)?, boxed(alloc, DType::Null)?, NO),
        Around::Value => DType::Map(boxed(alloc, DType::Null)?, boxed(alloc, dtype)?, NO),
        Around::Field => { DType::Struct(fields(alloc, ("a", "b"), (dtype, DType::Bool(NO)))?, NO) }
    })
}

/// A type within that many others.
fn nested(alloc: Global, around: Around, inner: DType) -> VortexResult<DType> {
    let mut dtype = inner;
    for _ in 0..LEVELS {
        dtype = within(alloc, around, dtype)?;
    }
    Ok(dtype)
}

/// Whether a type's copy equals it, and its text has that many bytes; both are dropped here.
fn is_whole(rt: HostRuntime, dtype: VortexResult<DType>, count: usize) -> VortexResult<bool> {
    let alloc = rt.alloc();
    let dtype = dtype?;
    let copy = dtype.try_clone(alloc)?;
    let mut text = String::new(alloc);
    copy.write_text(&mut text)?;
    Ok(same(rt, text.len(), count) && copy == dtype)
}

/// What types are nested in, and the length of their text: each level adds to the four bytes of
/// `null`.
const KINDS: [(Around, usize); 5] = [
    (Around::List, 6 * LEVELS + 4),
    (Around::Pair, 9 * LEVELS + 4),
    (Around::Key, 11 * LEVELS + 4),
    (Around::Value, 11 * LEVELS + 4),
    (Around::Field, 20 * LEVELS + 4),
];

#[test]
fn deep_types_are_copied_written_and_compared(rt: HostRuntime) {
    for (around, count) in KINDS {
        let dtype = nested(rt.alloc(), around, DType::Null);
        sure(&rt, is_whole(rt, dtype, count));
    }
}

/// Whether two types differ, and only in nullability; both are dropped here.
fn differ_by_null(one: VortexResult<DType>, other: VortexResult<DType>) -> VortexResult<bool> {
    let (one, other) = (one?, other?);
    Ok(one != other && one.eq_ignore_nullability(&other))
}

#[test]
fn deep_types_differ_at_their_last_level(rt: HostRuntime) {
    let alloc = rt.alloc();
    let one = nested(alloc, Around::List, DType::Utf8(NO));
    let other = nested(alloc, Around::List, DType::Utf8(Nullability::Nullable));
    sure(&rt, differ_by_null(one, other));
}

/// A value and another after it.
fn pair(
    alloc: Global,
    first: Option<ScalarValue>,
    last: Option<ScalarValue>,
) -> VortexResult<ScalarValue> {
    let mut items = Vec::new(alloc);
    items.push(first)?;
    items.push(last)?;
    Ok(ScalarValue::List(items))
}

/// Lists of one value within one another, as a literal.
fn literal(alloc: Global) -> VortexResult<Scalar> {
    let mut value = ScalarValue::List(Vec::new(alloc));
    for _ in 1..LEVELS {
        let mut items = Vec::new(alloc);
        items.push(Some(value))?;
        value = ScalarValue::List(items);
    }
    Scalar::try_new(nested(alloc, Around::List, DType::Null)?, Some(value))
}

/// A struct of two fields that nests in the first, as a literal; with that truth value, or
/// another value, as the last one.
fn record(alloc: Global, last: ScalarValue) -> VortexResult<Scalar> {
    let mut value = None;
    for _ in 1..LEVELS {
        value = Some(pair(alloc, value, Some(ScalarValue::Bool(true)))?);
    }
    Scalar::try_new(
        nested(alloc, Around::Field, DType::Null)?,
        Some(pair(alloc, value, Some(last))?),
    )
}

/// Maps of one entry within one another, each as the key, as a literal.
fn keyed(alloc: Global) -> VortexResult<Scalar> {
    let mut value = None;
    for _ in 0..LEVELS {
        let mut entries = Vec::new(alloc);
        entries.push(Some(pair(alloc, value, None)?))?;
        value = Some(ScalarValue::List(entries));
    }
    Scalar::try_new(nested(alloc, Around::Key, DType::Null)?, value)
}

/// Whether a literal equals its copy, and its text has that many bytes; both are dropped here.
fn is_written(rt: HostRuntime, made: VortexResult<Scalar>, count: usize) -> VortexResult<bool> {
    let alloc = rt.alloc();
    let literal = made?;
    let copy = literal.try_clone(alloc)?;
    let mut out = String::new(alloc);
    copy.write_literal(&mut out)?;
    let order = literal.cell().compare(&copy.cell());
    Ok(same(rt, out.len(), count) && same(rt, order, Ordering::Equal))
}

#[test]
fn deep_literals_are_copied_written_and_compared(rt: HostRuntime) {
    let alloc = rt.alloc();
    sure(&rt, is_written(rt, literal(alloc), 2 * LEVELS));
    sure(&rt, is_written(rt, keyed(alloc), 22 * LEVELS + 4));
}

#[test]
fn deep_records_are_copied_written_and_compared(rt: HostRuntime) {
    let record = record(rt.alloc(), ScalarValue::Bool(true));
    sure(&rt, is_written(rt, record, 14 * LEVELS + 4));
}

#[test]
fn a_literal_that_nests_before_its_last_value_is_typed(rt: HostRuntime) {
    assert!(rt; rt.is_refused(record(rt.alloc(), ScalarValue::Int(1)), "InvalidColumn"));
}
