//! Calls of functions on numbers: as floats, and the roundings of decimals as decimals.
ghost use Rattle.std.specs.Prelude.{◌≡◌};
ghost use Rattle.vortex_lowering.specs.Rows.{lowered};
ghost use Rattle.vortex_expressions.specs.KindFunctions as specs;
ghost use Rattle.vortex_expressions.specs.Items.{item_in};
ghost use Rattle.vortex_expressions.specs.Answering.{Gives};

use crate::item::{Item, call_of, callable};
use crate::kind_functions::other_types;
use crate::kind_names::count_of;
use crate::kind_steps::step_on;
use crate::kinded::{plain_operand, text_literal};
use crate::literal::Literal;
use crate::refusal::{BindStop, Refusal};
use std::alloc::Global;
use vortex_functions::BoundExpression;
use vortex_logical::digits::DecimalDigits;
use vortex_logical::kind::Kind;
use vortex_logical::operand::Operand;
use vortex_logical_calls::Lowered;
use vortex_logical_calls::conversions::as_float;
use vortex_logical_casts::{Rounded, Step, decimal_rounding, float_rounding, is_rounding};
use vortex_standard::{FloatFunction, Standard};

/// Whether it is a kind of numbers.
fn is_numeric(kind: &Kind) -> bool
    ensures { result ≡ specs.is_numeric kind.now }
{
    matches!(kind, Kind::Decimal(_) | Kind::F32 | Kind::F64)
}

/// A whole number as the nearest float.
fn whole_float(
    alloc: Global,
    operand: Operand,
    tree: BoundExpression<Standard>,
) -> Result<Lowered<Standard>, BindStop>
    ensures { Gives (λ x. lowered x.tree x.operand) result (specs.whole_float operand tree) }
{
    match operand {
        Operand::Whole(_) => Ok(as_float(alloc, Lowered { tree, operand })?),
        Operand::Of(_) => Err(other_types()),
    }
}

fn kind_float(
    alloc: Global,
    kind: Kind,
    tree: BoundExpression<Standard>,
) -> Result<Lowered<Standard>, BindStop>
    ensures { Gives (λ x. lowered x.tree x.operand) result (specs.kind_float kind tree) }
{
    if !is_numeric(&kind) {
        return Err(BindStop::Refused(Refusal::OfKind(kind)));
    }
    let operand = Operand::Of(kind);
    Ok(as_float(alloc, Lowered { tree, operand })?)
}

/// A number as the nearest float.
fn float_of(alloc: Global, item: &Item) -> Result<Lowered<Standard>, BindStop>
    ensures { Gives (λ x. lowered x.tree x.operand) result (specs.float_of (item_in item.now)) }
{
    match item {
        Item::Kinded(kind, tree) => kind_float(alloc, *kind, tree.try_clone(alloc)?),
        Item::Bound(tree) => {
            let operand = plain_operand(tree.dtype());
            whole_float(alloc, operand, tree.try_clone(alloc)?)
        }
        Item::Fraction(number) => text_literal(alloc, Kind::F64, number.as_bytes()),
        Item::Literal(Literal::Number(number)) => {
            text_literal(alloc, Kind::F64, number.as_bytes())
        }
        Item::Literal(_) | Item::Interval(_) => Err(other_types()),
    }
}

/// The function on a float.
fn float_on(
    alloc: Global,
    function: FloatFunction,
    tree: BoundExpression<Standard>,
) -> Result<BoundExpression<Standard>, BindStop>
    ensures { Gives (λ t. t) result (specs.float_on function tree) }
{
    let call = callable(Standard::FloatFunction(function));
    call_of(alloc, call, vec![in alloc; tree]?)
}

/// A float by a function that rounds to places, if there is one.
fn float_placed(
    alloc: Global,
    step: Option<Step>,
    tree: BoundExpression<Standard>,
) -> Result<Item, BindStop>
    ensures { Gives item_in result (specs.float_placed step tree) }
{
    match step {
        Some(step) => Ok(Item::Kinded(Kind::F64, step_on(alloc, step, tree)?)),
        None => Err(other_types()),
    }
}

/// The function of a number, which becomes the nearest float.
fn float_call(alloc: Global, function: FloatFunction, item: &Item) -> Result<Item, BindStop>
    ensures { Gives item_in result (specs.float_call function (item_in item.now)) }
{
    let float = float_of(alloc, item)?;
    Ok(Item::Kinded(Kind::F64, float_on(alloc, function, float.tree)?))
}

/// A decimal after a rounding, if it has more places than are left.
fn decimal_rounded(
    alloc: Global,
    digits: DecimalDigits,
    tree: BoundExpression<Standard>,
    rounded: Option<Rounded>,
) -> Result<Item, BindStop>
    ensures { Gives item_in result (specs.decimal_rounded digits tree rounded) }
{
    match rounded {
        Some(rounded) => {
            let tree = step_on(alloc, rounded.step, tree)?;
            Ok(Item::Kinded(Kind::Decimal(rounded.digits), tree))
        }
        None => Ok(Item::Kinded(Kind::Decimal(digits), tree)),
    }
}

/// A decimal without its sign.
fn absolute(
    alloc: Global,
    digits: DecimalDigits,
    tree: BoundExpression<Standard>,
) -> Result<Item, BindStop>
    ensures { Gives item_in result (specs.absolute digits tree) }
{
    let tree = call_of(alloc, callable(Standard::Abs), vec![in alloc; tree]?)?;
    Ok(Item::Kinded(Kind::Decimal(digits), tree))
}

/// The function of a decimal: a rounding and the absolute value are decimals, the others floats.
fn decimal_call(
    alloc: Global,
    function: FloatFunction,
    digits: DecimalDigits,
    tree: BoundExpression<Standard>,
) -> Result<Item, BindStop>
    ensures { Gives item_in result (specs.decimal_call function digits tree) }
{
    if let FloatFunction::Abs = function {
        return absolute(alloc, digits, tree);
    }
    if is_rounding(function) {
        return decimal_rounded(alloc, digits, tree, decimal_rounding(function, digits, 0));
    }
    float_call(alloc, function, &Item::Kinded(Kind::Decimal(digits), tree))
}

/// The function of a number.
pub(crate) fn number_call(
    alloc: Global,
    function: FloatFunction,
    item: &Item,
) -> Result<Item, BindStop>
    ensures { Gives item_in result (specs.number_call function (item_in item.now)) }
{
    match item {
        Item::Kinded(Kind::Decimal(digits), tree) => {
            decimal_call(alloc, function, *digits, tree.try_clone(alloc)?)
        }
        item => float_call(alloc, function, item),
    }
}

fn float_places(
    alloc: Global,
    function: FloatFunction,
    item: &Item,
    places: u32,
) -> Result<Item, BindStop>
    ensures { Gives item_in result (specs.float_places function (item_in item.now) places) }
{
    let float = float_of(alloc, item)?;
    float_placed(alloc, float_rounding(function, places), float.tree)
}

/// A number rounded to so many places after the point.
fn number_places(
    alloc: Global,
    function: FloatFunction,
    item: &Item,
    places: u32,
) -> Result<Item, BindStop>
    ensures { Gives item_in result (specs.number_places function (item_in item.now) places) }
{
    match item {
        Item::Kinded(Kind::Decimal(digits), tree) => {
            let by = decimal_rounding(function, *digits, places);
            decimal_rounded(alloc, *digits, tree.try_clone(alloc)?, by)
        }
        item => float_places(alloc, function, item, places),
    }
}

/// A number rounded to the places that a literal is.
pub(crate) fn places_call(
    alloc: Global,
    function: FloatFunction,
    item: &Item,
    other: &Item,
) -> Result<Item, BindStop>
    ensures { Gives item_in result
        (specs.places_call function (item_in item.now) (item_in other.now)) }
{
    let Item::Literal(Literal::Number(number)) = other else {
        return Err(other_types());
    };
    match count_of(number.as_bytes()) {
        Some(count) => number_places(alloc, function, item, count),
        None => Err(other_types()),
    }
}
