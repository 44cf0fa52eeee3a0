//! Kinds by name, and literals of them.
ghost use Rattle.std.specs.Prelude.{◌≡◌, IfOk};
ghost use Rattle.vortex_logical_calls.specs.Intervals.{interval_of};
ghost use Rattle.vortex_syntax.specs.SizeDigits.{sizes_of};
ghost use Rattle.vortex_logical.specs.Kinds.{digit_of, teen_of};
ghost use Rattle.vortex_types.specs.TypeOf.{type_of};
ghost use Rattle.vortex_lowering.specs.Rows.{lowered};
ghost use Rattle.vortex_expressions.specs.KindCasts as specs;
ghost use Rattle.vortex_expressions.specs.Calls as calls;
ghost use Rattle.vortex_expressions.specs.Items.{item_in};
ghost use Rattle.vortex_expressions.specs.Literals.{literal_in};
ghost use Rattle.vortex_expressions.specs.Answering.{Gives};

use crate::calls::typed_item;
use crate::casts::{cast_to, is_same_word, type_of_name};
use crate::decimal_casts::{is_numeric_name, numeric_cast};
use crate::item::{Item, Timespan, constant_at};
use crate::kind_casts::cut_cast;
use crate::kinded::{null_literal, text_literal, value_item};
use crate::literal::Literal;
use crate::quotes::text_of;
use crate::refusal::{BindStop, Refusal};
use std::alloc::{AllocError, Global};
use vortex_columns::DType;
use vortex_functions::BoundExpression;
use vortex_logical::digits::DecimalDigits;
use vortex_logical::kind::Kind;
use vortex_logical_calls::{Interval, Lowered, interval_of};
use vortex_standard::Standard;
use vortex_syntax::levels::is_unit;
use vortex_syntax::{sizes_of, text_size_of};

/// Whether a list of kinds is given.
pub(crate) fn are_given(kinds: &[Kind]) -> bool
    ensures { result ≡ calls.are_given kinds.now }
{
    !kinds.is_empty()
}

fn is_f64(word: &str) -> bool
    ensures { result ≡ specs.is_f64 word.now }
{
    (is_same_word(word, "f64") || is_same_word(word, "float8"))
        || (is_same_word(word, "float") || is_same_word(word, "double"))
}

fn is_f32(word: &str) -> bool
    ensures { result ≡ specs.is_f32 word.now }
{
    is_same_word(word, "f32") || (is_same_word(word, "float4") || is_same_word(word, "real"))
}

fn digit_of(byte: u8) -> Option<u32>
    ensures { result ≡ digit_of byte }
{
    if byte.is_ascii_digit() {
        Some((byte - b'0') as u32)
    } else {
        None
    }
}

/// A number from 10 to 19.
fn teen_of(ten: u8, byte: u8) -> Option<u32>
    ensures { result ≡ teen_of ten byte }
{
    if ten == b'1' {
        Some(10 + digit_of(byte)?)
    } else {
        None
    }
}

/// A number from 0 to 19 in decimal digits.
pub(crate) fn count_of(digits: &[u8]) -> Option<u32>
    ensures { result ≡ specs.count_of digits.now }
{
    match digits {
        [digit] => digit_of(*digit),
        [ten, digit] => teen_of(*ten, *digit),
        _ => None,
    }
}

fn digits_kind(precision: Option<u32>, scale: Option<u32>) -> Option<Kind>
    ensures { result ≡ specs.digits_kind precision scale }
{
    match (precision, scale) {
        (Some(precision), Some(scale)) => {
            Some(Kind::Decimal(DecimalDigits::try_new(precision, scale)?))
        }
        _ => None,
    }
}

/// The decimal of the precision and the scale in a name, as `numeric(12, 2)`.
fn sized_kind(name: &[u8]) -> Option<Kind>
    ensures { result ≡ specs.sized_kind (sizes_of name.now) }
{
    let (precision, scale) = sizes_of(name)?;
    digits_kind(count_of(precision), count_of(scale))
}

/// The kind of that name, in either case: `date`, `timestamp`, `f64`, also as `float8`, `float` and
/// `double`, `f32`, also as `float4` and `real`, and decimals with their sizes; none for others.
pub fn word_kind(word: &str) -> Option<Kind>
    ensures { result ≡ specs.word_kind word.now }
{
    if is_same_word(word, "date") {
        Some(Kind::Date)
    } else if is_same_word(word, "timestamp") {
        Some(Kind::Timestamp)
    } else if is_f64(word) {
        Some(Kind::F64)
    } else if is_f32(word) {
        Some(Kind::F32)
    } else {
        sized_kind(word.as_bytes())
    }
}

/// The kind of that name; no kind is named with a question mark.
pub(crate) fn kind_of_name(
    alloc: Global,
    name: &[u8],
    is_nullable: bool,
) -> Result<Option<Kind>, BindStop>
    ensures { Gives (λ k. k) result (calls.kind_of_name name.now is_nullable) }
{
    if is_nullable {
        return Ok(None);
    }
    let name = text_of(alloc, name)?;
    Ok(word_kind(name.as_str()))
}

/// A literal of a kind.
fn kind_literal(alloc: Global, kind: Kind, literal: &Literal) -> Result<Lowered<Standard>, BindStop>
    ensures { Gives (λ x. lowered x.tree x.operand) result
        (specs.kind_literal kind (literal_in literal.now)) }
{
    match literal {
        Literal::Number(word) => text_literal(alloc, kind, word.as_bytes()),
        Literal::Text(text) => text_literal(alloc, kind, text.as_bytes()),
        Literal::Truth(_) => Err(BindStop::Refused(Refusal::NotHeld)),
        Literal::Null => null_literal(alloc, kind),
    }
}

pub(crate) fn kind_item(alloc: Global, kind: Kind, literal: &Literal) -> Result<Item, BindStop>
    ensures { Gives item_in result (specs.kind_item kind (literal_in literal.now)) }
{
    Ok(value_item(kind_literal(alloc, kind, literal)?))
}

/// An interval, if there is one.
fn interval_told(interval: Option<Interval>) -> Result<Item, BindStop>
    ensures { Gives item_in result (specs.interval_told interval) }
{
    match interval {
        Some(interval) => Ok(Item::Interval(Timespan::Given(interval))),
        None => Err(BindStop::Refused(Refusal::NotHeld)),
    }
}

/// The interval of a text.
fn interval_item(literal: &Literal) -> Result<Item, BindStop>
    ensures { Gives item_in result (specs.interval_item (literal_in literal.now)) }
{
    let Literal::Text(text) = literal else {
        return Err(BindStop::Refused(Refusal::NotHeld));
    };
    interval_told(interval_of(text.as_bytes()))
}

/// So many of a unit, in lower case.
fn unit_text(alloc: Global, number: &[u8], unit: &[u8]) -> Result<Vec<u8>, AllocError>
    ensures { IfOk result (λ text. text.items ≡ specs.unit_text number.now unit.now) }
{
    let unit = unit.to_ascii_lowercase(alloc)?;
    let mut text = Vec::new(alloc);
    text.extend_from_slice(number)?;
    text.extend_from_slice(b" ")?;
    text.extend_from_slice(&unit)?;
    Ok(text)
}

/// The interval of so many of a unit.
fn unit_interval(alloc: Global, number: &[u8], unit: &[u8]) -> Result<Item, BindStop>
    ensures { Gives item_in result
        (specs.interval_told (interval_of (specs.unit_text number.now unit.now))) }
{
    let text = unit_text(alloc, number, unit)?;
    interval_told(interval_of(&text))
}

/// The interval of a number, or of a text, and a unit.
fn unit_item(alloc: Global, unit: &[u8], literal: &Literal) -> Result<Item, BindStop>
    ensures { Gives item_in result (specs.unit_item unit.now (literal_in literal.now)) }
{
    match literal {
        Literal::Number(number) => unit_interval(alloc, number.as_bytes(), unit),
        Literal::Text(text) => unit_interval(alloc, text.as_bytes(), unit),
        _ => Err(BindStop::Refused(Refusal::NotHeld)),
    }
}

/// Whether a unit has that name.
fn is_unit_name(name: &[u8], is_nullable: bool) -> bool
    ensures { result ≡ specs.is_unit_name name.now is_nullable }
{
    !is_nullable && is_unit(name)
}

/// Whether intervals have that name.
fn is_interval_name(name: &[u8], is_nullable: bool) -> bool
    ensures { result ≡ specs.is_interval_name name.now is_nullable }
{
    !is_nullable && name.eq_ignore_ascii_case(b"interval")
}

/// A literal of a type; one that the type does not have is cast, but not to a type with null.
fn typed_or_cast(
    alloc: Global,
    literal: Literal,
    dtype: DType,
) -> Result<BoundExpression<Standard>, BindStop>
    ensures { Gives (λ t. t) result (calls.typed_or_cast (literal_in literal) (type_of dtype)) }
{
    if dtype.is_nullable() || literal.suits(&dtype) {
        constant_at(alloc, &literal, dtype)
    } else {
        cast_to(alloc, false, Item::Literal(literal), &dtype)
    }
}

fn typed_literal(
    alloc: Global,
    name: &[u8],
    is_nullable: bool,
    literal: Literal,
) -> Result<Item, BindStop>
    ensures { Gives item_in result (calls.typed_literal name.now is_nullable (literal_in literal)) }
{
    let dtype = type_of_name(alloc, name, is_nullable)?;
    Ok(Item::Bound(typed_or_cast(alloc, literal, dtype)?))
}

/// The interval of a literal, or the literal of the type of that name.
fn interval_or_typed(
    alloc: Global,
    name: &[u8],
    is_nullable: bool,
    literal: Literal,
) -> Result<Item, BindStop>
    ensures { Gives item_in result
        (calls.interval_or_typed name.now is_nullable (literal_in literal)) }
{
    if is_interval_name(name, is_nullable) {
        interval_item(&literal)
    } else if is_unit_name(name, is_nullable) {
        unit_item(alloc, name, &literal)
    } else {
        typed_literal(alloc, name, is_nullable, literal)
    }
}

/// An interval, or a literal of the type of that name.
fn typed_plain(alloc: Global, name: &[u8], is_nullable: bool, item: Item) -> Result<Item, BindStop>
    ensures { Gives item_in result (calls.typed_plain name.now is_nullable (item_in item)) }
{
    match item {
        Item::Literal(literal) => interval_or_typed(alloc, name, is_nullable, literal),
        item => typed_item(alloc, name, is_nullable, item),
    }
}

/// A literal of the kind or the type of that name.
fn typed_named(
    alloc: Global,
    name: &[u8],
    is_nullable: bool,
    item: Item,
    kind: Option<Kind>,
) -> Result<Item, BindStop>
    ensures { Gives item_in result
        (calls.typed_named name.now is_nullable (item_in item) kind) }
{
    match (kind, item) {
        (None, item) => typed_plain(alloc, name, is_nullable, item),
        (Some(kind), Item::Literal(literal)) => kind_item(alloc, kind, &literal),
        (Some(kind), Item::Fraction(number)) => { kind_item(alloc, kind, &Literal::Number(number)) }
        (Some(_), _) => Err(BindStop::Missing),
    }
}

/// A literal of the type of that name, and where kinds have names of the kind; a text of a size is
/// cut.
pub(crate) fn typed_by(
    alloc: Global,
    has_kinds: bool,
    name: &[u8],
    is_nullable: bool,
    item: Item,
) -> Result<Item, BindStop>
    ensures { Gives item_in result
        (calls.typed_by has_kinds name.now is_nullable (item_in item)) }
{
    if !has_kinds {
        return typed_item(alloc, name, is_nullable, item);
    }
    if let Some(digits) = text_size_of(name) {
        return cut_cast(alloc, false, digits, item);
    }
    if is_numeric_name(name, is_nullable) {
        return numeric_cast(alloc, false, item);
    }
    let kind = kind_of_name(alloc, name, is_nullable)?;
    typed_named(alloc, name, is_nullable, item, kind)
}
