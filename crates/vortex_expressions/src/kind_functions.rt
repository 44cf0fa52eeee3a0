//! Calls of functions on values of kinds: of numbers, of dates and timestamps.
ghost use Rattle.std.specs.Prelude.{◌≡◌, map, Some};
ghost use Rattle.vortex_logical.specs.declared.kind.Kind.TheVariants.{Decimal};
ghost use Rattle.vortex_logical.specs.Digits.{digits_of};
ghost use Rattle.vortex_expressions.specs.KindFunctions as specs;
ghost use Rattle.vortex_expressions.specs.Items.{item_in};
ghost use Rattle.vortex_expressions.specs.Answering.{Gives};

use crate::intervals::months_function;
use crate::item::{Item, Timespan, call_of, callable, called};
use crate::kind_words::{KindFunction, KindName, Named, part_word, unit_word};
use crate::literal::Literal;
use crate::number_functions::{number_call, places_call};
use crate::refusal::{BindStop, Refusal};
use std::alloc::Global;
use vortex_columns::{Arity, MismatchPlace, Scalar, VortexError};
use vortex_functions::{BoundExpression, ScalarFnRef};
use vortex_logical::digits::DecimalDigits;
use vortex_logical::kind::Kind;
use vortex_operators::Operator;
use vortex_standard::{
    DatePart, DateTrunc, FloatFunction, Part, Standard, TimestampPart, TimestampTrunc, Unit,
};

/// E3: an argument is none of those that the function takes.
pub(crate) fn other_types() -> BindStop
    ensures { result ≡ specs.other_types }
{
    BindStop::Refused(Refusal::Binding(VortexError::TypeMismatch(MismatchPlace::Scalars)))
}

/// E6: the function takes so many arguments.
fn other_count(taken: usize, given: usize) -> BindStop
    ensures { result ≡ specs.other_count taken given }
{
    let arity = Arity::Exact(taken);
    BindStop::Refused(Refusal::Binding(VortexError::ArityMismatch { arity, given }))
}

/// The function that has the part of values of the kind.
fn part_function(part: Part, kind: Kind) -> Result<Standard, BindStop>
    ensures { Gives (λ f. f) result (specs.part_function part kind) }
{
    match kind {
        Kind::Date => Ok(Standard::DatePart(DatePart { part })),
        Kind::Timestamp => Ok(Standard::TimestampPart(TimestampPart { part })),
        _ => Err(BindStop::Refused(Refusal::OfKind(kind))),
    }
}

/// The part of a date or a timestamp.
fn part_call(
    alloc: Global,
    part: Part,
    kind: Kind,
    tree: BoundExpression<Standard>,
) -> Result<Item, BindStop>
    ensures { Gives item_in result (specs.part_call part kind tree) }
{
    let call = callable(part_function(part, kind)?);
    Ok(Item::Bound(call_of(alloc, call, vec![in alloc; tree]?)?))
}

/// The function that truncates values of the kind to the unit.
fn unit_function(unit: Unit, kind: Kind) -> Result<Standard, BindStop>
    ensures { Gives (λ f. f) result (specs.unit_function unit kind) }
{
    match kind {
        Kind::Date => Ok(Standard::DateTrunc(DateTrunc { unit })),
        Kind::Timestamp => Ok(Standard::TimestampTrunc(TimestampTrunc { unit })),
        _ => Err(BindStop::Refused(Refusal::OfKind(kind))),
    }
}

/// A date or a timestamp, truncated to the unit.
fn unit_call(
    alloc: Global,
    unit: Unit,
    kind: Kind,
    tree: BoundExpression<Standard>,
) -> Result<Item, BindStop>
    ensures { Gives item_in result (specs.unit_call unit kind tree) }
{
    let call = callable(unit_function(unit, kind)?);
    let tree = call_of(alloc, call, vec![in alloc; tree]?)?;
    Ok(Item::Kinded(kind, tree))
}

/// Decimals with six digits after the point.
fn seconds_kind() -> Option<Kind>
    ensures { result ≡ Some (Decimal (digits_of 18 6)) }
{
    Some(Kind::Decimal(DecimalDigits::try_new(18, 6)?))
}

/// Microseconds as seconds.
fn seconds_item(micros: BoundExpression<Standard>) -> Result<Item, BindStop>
    ensures { Gives item_in result (specs.seconds_item micros) }
{
    match seconds_kind() {
        Some(kind) => Ok(Item::Kinded(kind, micros)),
        None => Err(BindStop::Missing),
    }
}

/// The seconds from one timestamp to another, with six digits after the point, or the whole days.
fn elapsed_part(
    alloc: Global,
    part: Part,
    micros: BoundExpression<Standard>,
) -> Result<Item, BindStop>
    ensures { Gives item_in result (specs.elapsed_part part micros) }
{
    match part {
        Part::Epoch => seconds_item(micros),
        Part::Day => {
            let day = BoundExpression::lit(alloc, Scalar::from(86_400_000_000i64));
            let items = vec![in alloc; Item::Bound(micros), Item::Bound(day)]?;
            Ok(Item::Bound(called(alloc, ScalarFnRef::Binary(Operator::Div), None, items)?))
        }
        _ => Err(BindStop::Refused(Refusal::NotHeld)),
    }
}

/// The function that writes values of the kind by a format.
fn char_function(kind: Kind) -> Result<Standard, BindStop>
    ensures { Gives (λ f. f) result (specs.char_function kind) }
{
    match kind {
        Kind::Date => Ok(Standard::DateToChar),
        Kind::Timestamp => Ok(Standard::TimestampToChar),
        _ => Err(BindStop::Refused(Refusal::OfKind(kind))),
    }
}

/// The text of a date or a timestamp by a format.
fn written_by(
    alloc: Global,
    kind: Kind,
    tree: BoundExpression<Standard>,
    format: &Item,
) -> Result<Item, BindStop>
    ensures { Gives item_in result (specs.written_by kind tree (item_in format.now)) }
{
    let function = char_function(kind)?;
    let format = format.settle(alloc, None)?;
    let tree = call_of(alloc, callable(function), vec![in alloc; tree, format]?)?;
    Ok(Item::Bound(tree))
}

fn name_format(name: Named) -> &'static str
    ensures { result.now ≡ specs.name_format name }
{
    match name {
        Named::Day => "FMDay",
        Named::Month => "FMMonth",
    }
}

/// The name of a day of the week or of a month.
fn name_call(
    alloc: Global,
    name: Named,
    kind: Kind,
    tree: BoundExpression<Standard>,
) -> Result<Item, BindStop>
    ensures { Gives item_in result (specs.name_call name kind tree) }
{
    let format = String::from_str(alloc, name_format(name))?;
    written_by(alloc, kind, tree, &Item::Literal(Literal::Text(format)))
}

/// The function on a value.
pub(crate) fn of_value(alloc: Global, function: KindFunction, item: &Item) -> Result<Item, BindStop>
    ensures { Gives item_in result (specs.of_value function (item_in item.now)) }
{
    match (function, item) {
        (KindFunction::OfFloat(function), item) => number_call(alloc, function, item),
        (KindFunction::OfPart(part), Item::Kinded(kind, tree)) => {
            part_call(alloc, part, *kind, tree.try_clone(alloc)?)
        }
        (KindFunction::ToUnit(unit), Item::Kinded(kind, tree)) => {
            unit_call(alloc, unit, *kind, tree.try_clone(alloc)?)
        }
        (KindFunction::ToName(name), Item::Kinded(kind, tree)) => {
            name_call(alloc, name, *kind, tree.try_clone(alloc)?)
        }
        (KindFunction::OfPart(part), Item::Interval(Timespan::Elapsed(micros))) => {
            elapsed_part(alloc, part, micros.try_clone(alloc)?)
        }
        (_, Item::Fraction(_)) => Err(BindStop::Refused(Refusal::OfKind(Kind::F64))),
        _ => Err(other_types()),
    }
}

/// The part that a text names.
fn part_by(text: &[u8]) -> Result<KindFunction, BindStop>
    ensures { Gives (λ f. f) result (specs.part_by text.now) }
{
    match part_word(text) {
        Some(part) => Ok(KindFunction::OfPart(part)),
        None => Err(BindStop::Refused(Refusal::NotHeld)),
    }
}

/// The unit that a text names.
fn unit_by(text: &[u8]) -> Result<KindFunction, BindStop>
    ensures { Gives (λ f. f) result (specs.unit_by text.now) }
{
    match unit_word(text) {
        Some(unit) => Ok(KindFunction::ToUnit(unit)),
        None => Err(BindStop::Refused(Refusal::NotHeld)),
    }
}

/// What the name means with the first argument, which is a literal text.
fn function_by(name: KindName, text: &Item) -> Result<KindFunction, BindStop>
    ensures { Gives (λ f. f) result (specs.function_by name (item_in text.now)) }
{
    match (name, text) {
        (KindName::PartByText, Item::Literal(Literal::Text(text))) => part_by(text.as_bytes()),
        (KindName::UnitByText, Item::Literal(Literal::Text(text))) => unit_by(text.as_bytes()),
        _ => Err(other_types()),
    }
}

/// What the name means of a text and a value of a kind.
fn of_text(alloc: Global, name: KindName, text: &Item, item: &Item) -> Result<Item, BindStop>
    ensures { Gives item_in result
        (specs.of_text name (item_in text.now) (item_in item.now)) }
{
    let function = function_by(name, text)?;
    of_value(alloc, function, item)
}

/// A function on two arguments: `round` and `trunc` take places, too.
fn pair_call(
    alloc: Global,
    function: KindFunction,
    item: &Item,
    other: &Item,
) -> Result<Item, BindStop>
    ensures { Gives item_in result
        (specs.pair_call function (item_in item.now) (item_in other.now)) }
{
    match function {
        KindFunction::OfFloat(FloatFunction::Round) => {
            places_call(alloc, FloatFunction::Round, item, other)
        }
        KindFunction::OfFloat(FloatFunction::Trunc) => {
            places_call(alloc, FloatFunction::Trunc, item, other)
        }
        _ => Err(other_count(1, 2)),
    }
}

pub(crate) fn single_call(
    alloc: Global,
    function: KindFunction,
    items: &[Item],
) -> Result<Item, BindStop>
    ensures { Gives item_in result (specs.single_call function (map item_in items.now)) }
{
    match items {
        [item] => of_value(alloc, function, item),
        [item, other] => pair_call(alloc, function, item, other),
        _ => Err(other_count(1, items.len())),
    }
}

fn text_call(alloc: Global, name: KindName, items: &[Item]) -> Result<Item, BindStop>
    ensures { Gives item_in result (specs.text_call name (map item_in items.now)) }
{
    match items {
        [text, item] => of_text(alloc, name, text, item),
        _ => Err(other_count(2, items.len())),
    }
}

/// A date or a timestamp so many months later.
fn months_added(
    alloc: Global,
    kind: Kind,
    tree: BoundExpression<Standard>,
    months: &Item,
) -> Result<Item, BindStop>
    ensures { Gives item_in result (specs.months_added kind tree (item_in months.now)) }
{
    let function = months_function(kind)?;
    let months = months.settle(alloc, None)?;
    let tree = call_of(alloc, callable(function), vec![in alloc; tree, months]?)?;
    Ok(Item::Kinded(kind, tree))
}

pub(crate) fn months_after(alloc: Global, item: &Item, months: &Item) -> Result<Item, BindStop>
    ensures { Gives item_in result (specs.months_after (item_in item.now) (item_in months.now)) }
{
    match item {
        Item::Kinded(kind, tree) => months_added(alloc, *kind, tree.try_clone(alloc)?, months),
        _ => Err(other_types()),
    }
}

fn months_call(alloc: Global, items: &[Item]) -> Result<Item, BindStop>
    ensures { Gives item_in result (specs.months_call (map item_in items.now)) }
{
    match items {
        [item, months] => months_after(alloc, item, months),
        _ => Err(other_count(2, items.len())),
    }
}

fn char_of(alloc: Global, item: &Item, format: &Item) -> Result<Item, BindStop>
    ensures { Gives item_in result (specs.char_of (item_in item.now) (item_in format.now)) }
{
    match item {
        Item::Kinded(kind, tree) => written_by(alloc, *kind, tree.try_clone(alloc)?, format),
        _ => Err(other_types()),
    }
}

fn char_call(alloc: Global, items: &[Item]) -> Result<Item, BindStop>
    ensures { Gives item_in result (specs.char_call (map item_in items.now)) }
{
    match items {
        [item, format] => char_of(alloc, item, format),
        _ => Err(other_count(2, items.len())),
    }
}

/// What the name means of arguments, one of which is a value of a kind.
pub(crate) fn kind_call(alloc: Global, name: KindName, items: &[Item]) -> Result<Item, BindStop>
    ensures { Gives item_in result (specs.kind_call name (map item_in items.now)) }
{
    match name {
        KindName::Single(function) => single_call(alloc, function, items),
        KindName::AddMonths => months_call(alloc, items),
        KindName::ToChar => char_call(alloc, items),
        KindName::PartByText | KindName::UnitByText => text_call(alloc, name, items),
    }
}
