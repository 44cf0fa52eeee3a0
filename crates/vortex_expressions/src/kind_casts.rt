//! Casts from and to kinds.
ghost use Rattle.std.specs.Prelude.{◌≡◌, Some};
ghost use Rattle.vortex_types.specs.TypeOf.{type_of};
ghost use Rattle.vortex_lowering.specs.Rows.{lowered};
ghost use Rattle.vortex_logical_casts.specs.Casts.{written_steps};
ghost use Rattle.vortex_expressions.specs.KindCasts as specs;
ghost use Rattle.vortex_expressions.specs.Calls as calls;
ghost use Rattle.vortex_expressions.specs.Items.{item_in};
ghost use Rattle.vortex_expressions.specs.Literals.{literal_in};
ghost use Rattle.vortex_expressions.specs.Answering.{Gives};

use crate::casts::{cast_item, type_of_name};
use crate::decimal_casts::{decimal_cast, is_numeric_name, numeric_cast};
use crate::item::{Item, call_of, callable, constant_at};
use crate::kind_names::{kind_item, kind_of_name};
use crate::kind_steps::stepped;
use crate::kinded::{plain_operand, text_literal, value_item};
use crate::literal::Literal;
use crate::quotes::text_of;
use crate::refusal::{BindStop, Refusal};
use std::alloc::Global;
use vortex_columns::{DType, Nullability, PType};
use vortex_functions::BoundExpression;
use vortex_logical::kind::Kind;
use vortex_logical::operand::Operand;
use vortex_logical_calls::Lowered;
use vortex_logical_calls::conversions::as_float;
use vortex_logical_casts::{Steps, decimal_steps, integer_steps, text_steps, written_steps};
use vortex_standard::{Side, Standard};
use vortex_syntax::text_size_of;

/// Whether it is a number, but no float of 64 bits.
fn becomes_float(operand: &Operand) -> bool
    ensures { result ≡ specs.becomes_float operand.now }
{
    matches!(
        operand,
        Operand::Whole(_) | Operand::Of(Kind::Decimal(_)) | Operand::Of(Kind::F32)
    )
}

/// A number as the nearest float.
fn float_item(alloc: Global, value: Lowered<Standard>) -> Result<Item, BindStop>
    ensures { Gives item_in result (specs.float_item (lowered value.tree value.operand)) }
{
    if becomes_float(&value.operand) {
        Ok(value_item(as_float(alloc, value)?))
    } else {
        Err(BindStop::Refused(Refusal::NoCast))
    }
}

/// A value that a function makes one of the kind.
fn cast_by_function(
    alloc: Global,
    kind: Kind,
    function: Standard,
    tree: BoundExpression<Standard>,
) -> Result<Item, BindStop>
    ensures { Gives item_in result (specs.cast_by kind function tree) }
{
    let tree = call_of(alloc, callable(function), vec![in alloc; tree]?)?;
    Ok(Item::Kinded(kind, tree))
}

/// The same, but by `try_cast`: of what may fault only texts and numbers are tried.
fn instant_cast(
    alloc: Global,
    is_tried: bool,
    kind: Kind,
    function: Standard,
    tree: BoundExpression<Standard>,
) -> Result<Item, BindStop>
    ensures { Gives item_in result (specs.instant_cast is_tried kind function tree) }
{
    if is_tried {
        Err(BindStop::Refused(Refusal::NoCast))
    } else {
        cast_by_function(alloc, kind, function, tree)
    }
}

/// A value that functions make one of the kind, if there are any.
pub(crate) fn kind_by(
    alloc: Global,
    kind: Kind,
    steps: Option<Steps>,
    tree: BoundExpression<Standard>,
) -> Result<Item, BindStop>
    ensures { Gives item_in result (specs.kind_by kind steps tree) }
{
    match steps {
        Some(steps) => Ok(Item::Kinded(kind, stepped(alloc, steps, tree)?)),
        None => Err(BindStop::Refused(Refusal::NoCast)),
    }
}

/// A value of a kind as one of another, by `try_cast` if the flag is true: of its own kind it is
/// unchanged, each number has a nearest float, and a date is a timestamp's day, which is its
/// midnight.
pub(crate) fn kind_cast(
    alloc: Global,
    is_tried: bool,
    kind: Kind,
    found: Kind,
    tree: BoundExpression<Standard>,
) -> Result<Item, BindStop>
    ensures { Gives item_in result (specs.kind_cast is_tried kind found tree) }
{
    if let Kind::Decimal(digits) = kind {
        return decimal_cast(alloc, is_tried, digits, found, tree);
    }
    match (kind, found) {
        (Kind::Date, Kind::Date)
        | (Kind::Timestamp, Kind::Timestamp)
        | (Kind::F32, Kind::F32)
        | (Kind::F64, Kind::F64) => Ok(Item::Kinded(kind, tree)),
        (Kind::F64, _) => {
            let operand = Operand::Of(found);
            float_item(alloc, Lowered { tree, operand })
        }
        (Kind::Timestamp, Kind::Date) => {
            instant_cast(alloc, is_tried, kind, Standard::DateToTimestamp, tree)
        }
        (Kind::Date, Kind::Timestamp) => {
            instant_cast(alloc, is_tried, kind, Standard::TimestampToDate, tree)
        }
        _ => Err(BindStop::Refused(Refusal::NoCast)),
    }
}

/// A text as a value of a kind.
fn text_cast(
    alloc: Global,
    is_tried: bool,
    kind: Kind,
    tree: BoundExpression<Standard>,
) -> Result<Item, BindStop>
    ensures { Gives item_in result (specs.text_cast is_tried kind tree) }
{
    let steps = text_steps(is_tried, &kind);
    kind_by(alloc, kind, steps, tree)
}

/// A whole number as a value of a kind.
fn number_cast(
    alloc: Global,
    is_tried: bool,
    kind: Kind,
    operand: Operand,
    tree: BoundExpression<Standard>,
) -> Result<Item, BindStop>
    ensures { Gives item_in result (specs.number_cast is_tried kind operand tree) }
{
    match kind {
        Kind::F64 => float_item(alloc, Lowered { tree, operand }),
        Kind::Decimal(digits) => {
            let steps = decimal_steps(is_tried, digits, &operand);
            kind_by(alloc, kind, steps, tree)
        }
        _ => Err(BindStop::Refused(Refusal::NoCast)),
    }
}

pub(crate) fn is_text_type(dtype: &DType) -> bool
    ensures { result ≡ specs.is_text_type (Some (type_of dtype.now)) }
{
    matches!(dtype, DType::Utf8(_))
}

/// A text or a whole number as a value of a kind.
fn plain_cast(
    alloc: Global,
    is_tried: bool,
    kind: Kind,
    tree: BoundExpression<Standard>,
) -> Result<Item, BindStop>
    ensures { Gives item_in result (specs.plain_cast is_tried kind tree) }
{
    if is_text_type(tree.dtype()) {
        return text_cast(alloc, is_tried, kind, tree);
    }
    let operand = plain_operand(tree.dtype());
    number_cast(alloc, is_tried, kind, operand, tree)
}

/// A literal as a value of a kind; by `try_cast` a text is cast like any other.
fn literal_cast(
    alloc: Global,
    is_tried: bool,
    kind: Kind,
    literal: Literal,
) -> Result<Item, BindStop>
    ensures { Gives item_in result (specs.literal_cast is_tried kind (literal_in literal)) }
{
    match (is_tried, literal) {
        (true, Literal::Text(text)) => {
            let dtype = DType::Utf8(Nullability::NonNullable);
            let tree = constant_at(alloc, &Literal::Text(text), dtype)?;
            text_cast(alloc, true, kind, tree)
        }
        (_, literal) => kind_item(alloc, kind, &literal),
    }
}

/// A cast to a kind, by `try_cast` if the flag is true.
pub(crate) fn cast_to_kind(
    alloc: Global,
    is_tried: bool,
    kind: Kind,
    item: Item,
) -> Result<Item, BindStop>
    ensures { Gives item_in result (specs.cast_to_kind is_tried kind (item_in item)) }
{
    match item {
        Item::Literal(literal) => literal_cast(alloc, is_tried, kind, literal),
        Item::Bound(tree) => plain_cast(alloc, is_tried, kind, tree),
        Item::Kinded(found, tree) => kind_cast(alloc, is_tried, kind, found, tree),
        Item::Fraction(number) => kind_item(alloc, kind, &Literal::Number(number)),
        Item::Interval(_) => Err(BindStop::Refused(Refusal::NoCast)),
    }
}

/// A value of a kind after functions, if there are any.
fn from_kind(
    alloc: Global,
    kind: Kind,
    steps: Option<Steps>,
    tree: BoundExpression<Standard>,
) -> Result<Item, BindStop>
    ensures { Gives item_in result (specs.from_kind kind steps tree) }
{
    match steps {
        Some(steps) => Ok(Item::Bound(stepped(alloc, steps, tree)?)),
        None => Err(BindStop::Refused(Refusal::OfKind(kind))),
    }
}

/// The text of a value of a kind.
pub(crate) fn written(
    alloc: Global,
    kind: Kind,
    tree: BoundExpression<Standard>,
) -> Result<Item, BindStop>
    ensures { Gives item_in result (specs.from_kind kind (written_steps kind) tree) }
{
    let steps = written_steps(&kind);
    from_kind(alloc, kind, steps, tree)
}

/// A value of a kind as a text, but by `try_cast`.
fn text_from(
    alloc: Global,
    is_tried: bool,
    kind: Kind,
    tree: BoundExpression<Standard>,
) -> Result<Item, BindStop>
    ensures { Gives item_in result (specs.text_from is_tried kind tree) }
{
    if is_tried {
        Err(BindStop::Refused(Refusal::OfKind(kind)))
    } else {
        written(alloc, kind, tree)
    }
}

/// A value of a kind as the nearest integer, E10 in rows where the type does not hold it, or null by
/// `try_cast`; or as a text.
fn stored_cast(
    alloc: Global,
    is_tried: bool,
    kind: Kind,
    dtype: &DType,
    tree: BoundExpression<Standard>,
) -> Result<Item, BindStop>
    ensures { Gives item_in result (specs.stored_cast is_tried kind (type_of dtype.now) tree) }
{
    match dtype {
        DType::Primitive(ptype, Nullability::NonNullable) => {
            let steps = integer_steps(is_tried, &kind, *ptype);
            from_kind(alloc, kind, steps, tree)
        }
        DType::Utf8(Nullability::NonNullable) => text_from(alloc, is_tried, kind, tree),
        _ => Err(BindStop::Refused(Refusal::OfKind(kind))),
    }
}

/// A number with a fraction as a float of 64 bits, which is cast.
fn fraction_cast(
    alloc: Global,
    is_tried: bool,
    number: &str,
    dtype: &DType,
) -> Result<Item, BindStop>
    ensures { Gives item_in result
        (specs.fraction_cast is_tried number.now (type_of dtype.now)) }
{
    let float = text_literal(alloc, Kind::F64, number.as_bytes())?;
    stored_cast(alloc, is_tried, Kind::F64, dtype, float.tree)
}

/// A cast to the type of that name; values of kinds are rounded and written, the latter not by
/// `try_cast`.
fn cast_of_kind(
    alloc: Global,
    is_tried: bool,
    name: &[u8],
    is_nullable: bool,
    item: Item,
) -> Result<Item, BindStop>
    ensures { Gives item_in result
        (calls.cast_of_kind is_tried name.now is_nullable (item_in item)) }
{
    match item {
        Item::Kinded(kind, tree) => {
            let dtype = type_of_name(alloc, name, is_nullable)?;
            stored_cast(alloc, is_tried, kind, &dtype, tree)
        }
        Item::Fraction(number) => {
            let dtype = type_of_name(alloc, name, is_nullable)?;
            fraction_cast(alloc, is_tried, number.as_str(), &dtype)
        }
        item => cast_item(alloc, is_tried, name, is_nullable, item),
    }
}

fn cast_named(
    alloc: Global,
    is_tried: bool,
    name: &[u8],
    is_nullable: bool,
    item: Item,
    kind: Option<Kind>,
) -> Result<Item, BindStop>
    ensures { Gives item_in result
        (calls.cast_named is_tried name.now is_nullable (item_in item) kind) }
{
    match kind {
        None => cast_of_kind(alloc, is_tried, name, is_nullable, item),
        Some(kind) => cast_to_kind(alloc, is_tried, kind, item),
    }
}

/// The first characters of a text, as many as the digits say.
fn cut_item(alloc: Global, digits: &[u8], item: Item) -> Result<Item, BindStop>
    ensures { Gives item_in result (calls.cut_item digits.now (item_in item)) }
{
    let text = item.settle(alloc, None)?;
    let digits = text_of(alloc, digits)?;
    let dtype = DType::Primitive(PType::I64, Nullability::NonNullable);
    let count = constant_at(alloc, &Literal::Number(digits), dtype)?;
    let left = callable(Standard::Side(Side::Left));
    let tree = call_of(alloc, left, vec![in alloc; text, count]?)?;
    Ok(Item::Bound(tree))
}

/// A cast to a text of a size.
pub(crate) fn cut_cast(
    alloc: Global,
    is_tried: bool,
    digits: &[u8],
    item: Item,
) -> Result<Item, BindStop>
    ensures { Gives item_in result (calls.cut_cast is_tried digits.now (item_in item)) }
{
    let text = cast_of_kind(alloc, is_tried, b"varchar", false, item)?;
    cut_item(alloc, digits, text)
}

/// A cast to the type of that name, and where kinds have names to the kind; a text of a size is cut.
pub(crate) fn cast_by(
    alloc: Global,
    has_kinds: bool,
    is_tried: bool,
    name: &[u8],
    is_nullable: bool,
    item: Item,
) -> Result<Item, BindStop>
    ensures { Gives item_in result
        (calls.cast_by has_kinds is_tried name.now is_nullable (item_in item)) }
{
    if !has_kinds {
        return cast_item(alloc, is_tried, name, is_nullable, item);
    }
    if let Some(digits) = text_size_of(name) {
        return cut_cast(alloc, is_tried, digits, item);
    }
    if is_numeric_name(name, is_nullable) {
        return numeric_cast(alloc, is_tried, item);
    }
    let kind = kind_of_name(alloc, name, is_nullable)?;
    cast_named(alloc, is_tried, name, is_nullable, item, kind)
}
