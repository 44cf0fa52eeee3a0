//! Names that no function has, and that are written out in functions.
ghost use Rattle.std.specs.Prelude.{◌≡◌, map};
ghost use Rattle.vortex_expressions.specs.Functions as specs;
ghost use Rattle.vortex_expressions.specs.Items.{item_in, literal};
ghost use Rattle.vortex_expressions.specs.Literals.{number};
ghost use Rattle.vortex_expressions.specs.Outcomes.{answers};
ghost use Rattle.vortex_expressions.specs.Answering.{Gives};

use crate::functions::function_item;
use crate::item::{Item, called};
use crate::kind_casts::cast_to_kind;
use crate::kind_functions::{months_after, of_value};
use crate::kind_operators::kinded_joined;
use crate::kind_words::{KindFunction, is_word};
use crate::literal::Literal;
use crate::refusal::{BindStop, Refusal};
use std::alloc::Global;
use vortex_functions::ScalarFnRef;
use vortex_logical::kind::Kind;
use vortex_operators::Operator;
use vortex_standard::{Measure, Side, Standard, Unit};
use vortex_syntax::WrittenOperator;

/// A form that is written out in functions.
#[derive(Clone, Copy, Debug, PartialEq, Eq)]
pub(crate) enum Form {
    /// `contains(s, t)`: whether the text `t` stands in the text `s`.
    Contains,
    /// `ends_with(s, t)`: whether the text `s` ends with the text `t`.
    EndsWith,
    /// `last_day(d)`: the last day of the month of `d`.
    LastDay,
    /// `datediff(a, b)`: the days from `b` to `a`; `datediff('day', a, b)`: those from `a` to `b`.
    DaysBetween,
}

/// The form of that name.
pub(crate) fn form_word(word: &[u8]) -> Option<Form>
    ensures { result ≡ specs.form_word word.now }
{
    if is_word(word, b"contains") {
        Some(Form::Contains)
    } else if is_word(word, b"ends_with") || is_word(word, b"endswith") {
        Some(Form::EndsWith)
    } else if is_word(word, b"last_day") {
        Some(Form::LastDay)
    } else if is_word(word, b"datediff") || is_word(word, b"date_diff") {
        Some(Form::DaysBetween)
    } else {
        None
    }
}

/// A whole number.
fn number_of(alloc: Global, digits: &str) -> Result<Item, BindStop>
    ensures { Gives item_in result (answers (literal (number digits.now))) }
{
    Ok(Item::Literal(Literal::Number(String::from_str(alloc, digits)?)))
}

fn contained(alloc: Global, items: Vec<Item>) -> Result<Item, BindStop>
    ensures { Gives item_in result (specs.contained (map item_in items.items)) }
{
    let place = function_item(alloc, Standard::StrPos, items)?;
    let pair = vec![in alloc; place, number_of(alloc, "0")?]?;
    let tree = called(alloc, ScalarFnRef::Binary(Operator::Gt), None, pair)?;
    Ok(Item::Bound(tree))
}

fn ended_by(alloc: Global, text: &Item, end: &Item) -> Result<Item, BindStop>
    ensures { Gives item_in result (specs.ended_by (item_in text.now) (item_in end.now)) }
{
    let measured = vec![in alloc; end.try_clone(alloc)?]?;
    let count = function_item(alloc, Standard::Measure(Measure::Characters), measured)?;
    let counted = vec![in alloc; text.try_clone(alloc)?, count]?;
    let last = function_item(alloc, Standard::Side(Side::Right), counted)?;
    let pair = vec![in alloc; last, end.try_clone(alloc)?]?;
    let tree = called(alloc, ScalarFnRef::Binary(Operator::Eq), None, pair)?;
    Ok(Item::Bound(tree))
}

fn last_day(alloc: Global, item: &Item) -> Result<Item, BindStop>
    ensures { Gives item_in result (specs.last_day (item_in item.now)) }
{
    let day = cast_to_kind(alloc, false, Kind::Date, item.try_clone(alloc)?)?;
    let first = of_value(alloc, KindFunction::ToUnit(Unit::Month), &day)?;
    let one = number_of(alloc, "1")?;
    let next = months_after(alloc, &first, &one)?;
    kinded_joined(alloc, WrittenOperator::Sub, next, one)
}

/// The days from the second date to the first.
fn days_between(alloc: Global, first: &Item, second: &Item) -> Result<Item, BindStop>
    ensures { Gives item_in result
        (specs.days_between (item_in first.now) (item_in second.now)) }
{
    let first = cast_to_kind(alloc, false, Kind::Date, first.try_clone(alloc)?)?;
    let second = cast_to_kind(alloc, false, Kind::Date, second.try_clone(alloc)?)?;
    kinded_joined(alloc, WrittenOperator::Sub, first, second)
}

/// The days from the first date to the second, after the name of the unit.
fn units_between(alloc: Global, unit: &[u8], first: &Item, second: &Item) -> Result<Item, BindStop>
    ensures { Gives item_in result
        (specs.units_between unit.now (item_in first.now) (item_in second.now)) }
{
    if is_word(unit, b"day") {
        days_between(alloc, second, first)
    } else {
        Err(BindStop::Refused(Refusal::NoFunction))
    }
}

/// What the form is of these arguments.
pub(crate) fn formed(alloc: Global, form: Form, items: Vec<Item>) -> Result<Item, BindStop>
    ensures { Gives item_in result (specs.formed form (map item_in items.items)) }
{
    match (form, items.as_slice()) {
        (Form::Contains, _) => contained(alloc, items),
        (Form::EndsWith, [text, end]) => ended_by(alloc, text, end),
        (Form::LastDay, [item]) => last_day(alloc, item),
        (Form::DaysBetween, [first, second]) => days_between(alloc, first, second),
        (Form::DaysBetween, [Item::Literal(Literal::Text(unit)), first, second]) => {
            units_between(alloc, unit.as_bytes(), first, second)
        }
        _ => Err(BindStop::Refused(Refusal::NoFunction)),
    }
}
