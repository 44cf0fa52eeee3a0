//! Types by name, and casts.
ghost use Rattle.std.specs.Prelude.{◌≡◌, option_map};
ghost use Rattle.vortex_types.specs.TypeOf.{type_of, allows_null};
ghost use Rattle.vortex_syntax.specs.Keywords.{same_word};
ghost use Rattle.vortex_expressions.specs.TypeNames as names;
ghost use Rattle.vortex_expressions.specs.Casts as specs;
ghost use Rattle.vortex_expressions.specs.Calls.{type_of_name, cast_item};
ghost use Rattle.vortex_expressions.specs.Items.{item_in};
ghost use Rattle.vortex_expressions.specs.Answering.{Gives};

use crate::item::{Item, call_of, callable, called};
use crate::literal::Literal;
use crate::quotes::text_of;
use crate::refusal::{BindStop, Refusal};
use std::alloc::Global;
use vortex_cells::types::type_named;
use vortex_columns::{DType, Nullability, PType};
use vortex_functions::{BoundExpression, ScalarFnRef};
use vortex_standard::{Cast, Standard, TextToInt, TruthToInt, Widen, has_all_of};

pub(crate) fn is_same_word(word: &str, other: &str) -> bool
    ensures { result ≡ same_word word.now other.now }
{
    word.eq_ignore_ascii_case(other)
}

fn is_smallint(word: &str) -> bool
    ensures { result ≡ names.is_smallint word.now }
{
    is_same_word(word, "smallint") || is_same_word(word, "int2")
}

fn is_int(word: &str) -> bool
    ensures { result ≡ names.is_int word.now }
{
    is_same_word(word, "int") || (is_same_word(word, "integer") || is_same_word(word, "int4"))
}

fn is_bigint(word: &str) -> bool
    ensures { result ≡ names.is_bigint word.now }
{
    is_same_word(word, "bigint") || is_same_word(word, "int8")
}

fn is_text(word: &str) -> bool
    ensures { result ≡ names.is_text word.now }
{
    is_same_word(word, "text") || is_same_word(word, "varchar")
}

/// The type that has the name in SQL, in either case.
fn sql_type(word: &str, nullability: Nullability) -> Option<DType>
    ensures { option_map (λ t. type_of t) result ≡ names.sql_type (allows_null nullability) word.now }
{
    if is_same_word(word, "boolean") {
        Some(DType::Bool(nullability))
    } else if is_same_word(word, "tinyint") {
        Some(DType::Primitive(PType::I8, nullability))
    } else if is_smallint(word) {
        Some(DType::Primitive(PType::I16, nullability))
    } else if is_int(word) {
        Some(DType::Primitive(PType::I32, nullability))
    } else if is_bigint(word) {
        Some(DType::Primitive(PType::I64, nullability))
    } else if is_text(word) {
        Some(DType::Utf8(nullability))
    } else {
        None
    }
}

/// The type of that name: one of this language, as `i64`, or SQL's in either case, as `bigint`;
/// none for others.
pub fn named_type(word: &str, nullability: Nullability) -> Option<DType>
    ensures { option_map (λ t. type_of t) result
        ≡ names.named_type (allows_null nullability) word.now }
{
    match type_named(word, nullability) {
        Some(dtype) => Some(dtype),
        None => sql_type(word, nullability),
    }
}

/// The type of that name, nullable if the flag is true.
pub(crate) fn type_of_name(alloc: Global, name: &[u8], is_nullable: bool) -> Result<DType, BindStop>
    ensures { Gives (λ t. type_of t) result (type_of_name name.now is_nullable) }
{
    let name = text_of(alloc, name)?;
    let nullability = if is_nullable {
        Nullability::Nullable
    } else {
        Nullability::NonNullable
    };
    match named_type(name.as_str(), nullability) {
        Some(dtype) => Ok(dtype),
        None => Err(BindStop::Refused(Refusal::UnknownType)),
    }
}

fn integer_cast(from: PType, to: PType) -> Standard
    ensures { result ≡ specs.integer_cast from to }
{
    if has_all_of(to, from) {
        Standard::Widen(Widen { ptype: to })
    } else {
        Standard::Cast(Cast { ptype: to })
    }
}

/// What gives null where a cast faults.
fn tried(function: Standard) -> Standard
    ensures { result ≡ specs.tried function }
{
    match function {
        Standard::Cast(cast) => Standard::TryCast(cast),
        Standard::TextToInt(cast) => Standard::TryTextToInt(cast),
        Standard::TextToTruth => Standard::TryTextToTruth,
        _ => function,
    }
}

fn tried_if(is_tried: bool, function: Standard) -> Standard
    ensures { result ≡ specs.tried_if is_tried function }
{
    if is_tried { tried(function) } else { function }
}

/// The function from one type to another without null.
fn cast_function(from: &DType, to: &DType) -> Option<Standard>
    ensures { result ≡ specs.cast_function (type_of from.now) (type_of to.now) }
{
    match (from, to) {
        (DType::Primitive(from, _), DType::Primitive(to, Nullability::NonNullable)) => {
            Some(integer_cast(*from, *to))
        }
        (DType::Bool(_), DType::Primitive(ptype, Nullability::NonNullable)) => {
            Some(Standard::TruthToInt(TruthToInt { ptype: *ptype }))
        }
        (DType::Primitive(_, _), DType::Bool(Nullability::NonNullable)) => {
            Some(Standard::IntToTruth)
        }
        (DType::Primitive(_, _), DType::Utf8(Nullability::NonNullable)) => {
            Some(Standard::IntToText)
        }
        (DType::Bool(_), DType::Utf8(Nullability::NonNullable)) => Some(Standard::TruthToText),
        (DType::Utf8(_), DType::Primitive(ptype, Nullability::NonNullable)) => {
            Some(Standard::TextToInt(TextToInt { ptype: *ptype }))
        }
        (DType::Utf8(_), DType::Bool(Nullability::NonNullable)) => Some(Standard::TextToTruth),
        _ => None,
    }
}

/// A tree cast to a type without null; of that type it is unchanged.
fn cast_tree(
    alloc: Global,
    is_tried: bool,
    tree: BoundExpression<Standard>,
    dtype: &DType,
) -> Result<BoundExpression<Standard>, BindStop>
    ensures { Gives (λ t. t) result (specs.cast_tree is_tried (type_of dtype.now) tree) }
{
    if tree.dtype().eq_ignore_nullability(dtype) {
        return Ok(tree);
    }
    match cast_function(tree.dtype(), dtype) {
        Some(function) => {
            let function = callable(tried_if(is_tried, function));
            call_of(alloc, function, vec![in alloc; tree]?)
        }
        None => Err(BindStop::Refused(Refusal::NoCast)),
    }
}

/// The type that a literal takes: a text takes none, and by `try_cast` only null takes the one to
/// which it is cast.
fn cast_hint<'a>(is_tried: bool, item: &Item, dtype: &'a DType) -> Option<&'a DType>
    ensures { option_map (λ t. type_of t.now) result
        ≡ specs.cast_hint is_tried (item_in item.now) (type_of dtype.now) }
{
    match item {
        Item::Literal(Literal::Null) => Some(dtype),
        Item::Literal(Literal::Text(_)) => None,
        _ => if is_tried { None } else { Some(dtype) },
    }
}

/// To the nullable type of truth values from truth values alone; null is kept by every cast.
pub(crate) fn cast_to(
    alloc: Global,
    is_tried: bool,
    item: Item,
    dtype: &DType,
) -> Result<BoundExpression<Standard>, BindStop>
    ensures { Gives (λ t. t) result
        (specs.cast_to is_tried (item_in item) (type_of dtype.now)) }
{
    if !dtype.is_nullable() {
        let tree = item.settle(alloc, cast_hint(is_tried, &item, dtype))?;
        return cast_tree(alloc, is_tried, tree, dtype);
    }
    if dtype.is_boolean() {
        called(alloc, ScalarFnRef::Cast, Some(dtype), vec![in alloc; item]?)
    } else {
        Err(BindStop::Refused(Refusal::NoCast))
    }
}

/// A cast; by `try_cast` if the flag is true.
pub(crate) fn cast_item(
    alloc: Global,
    is_tried: bool,
    name: &[u8],
    is_nullable: bool,
    item: Item,
) -> Result<Item, BindStop>
    ensures { Gives item_in result (cast_item is_tried name.now is_nullable (item_in item)) }
{
    let dtype = type_of_name(alloc, name, is_nullable)?;
    Ok(Item::Bound(cast_to(alloc, is_tried, item, &dtype)?))
}
