//! Calls of functions on items. Of values of kinds some functions take those that meet in a kind:
//! each becomes the integer that stores it in that kind.
ghost use Rattle.std.specs.Prelude.{◌≡◌, map};
ghost use Rattle.vortex_expressions.specs.Functions as specs;
ghost use Rattle.vortex_expressions.specs.Applied.{values_of};
ghost use Rattle.vortex_expressions.specs.Kinded.{first_kind, fraction_kind};
ghost use Rattle.vortex_expressions.specs.Items.{item_in};
ghost use Rattle.vortex_expressions.specs.Answering.{Gives};

use crate::applied::function_call;
use crate::item::{Item, Timespan};
use crate::kinded::{fraction_kind, is_plain, item_operand, value_item};
use crate::refusal::BindStop;
use std::alloc::Global;
use vortex_functions::BoundExpression;
use vortex_logical::kind::Kind;
use vortex_logical::operand::Operand;
use vortex_logical_calls as calls;
use vortex_logical_calls::Lowered;
use vortex_standard::{Standard, Takes};

/// Whether the function returns one of its values.
fn is_choice(function: Standard) -> bool
    ensures { result ≡ specs.is_choice function }
{
    match function {
        Standard::Coalesce | Standard::NullIf | Standard::Case | Standard::Extreme(_) => true,
        _ => false,
    }
}

/// Whether the function compares its values.
fn is_test(function: Standard) -> bool
    ensures { result ≡ specs.is_test function }
{
    match function {
        Standard::InList | Standard::IsDistinct => true,
        _ => false,
    }
}

/// The kind of the first value with one, or that of a number with a fraction, of which one comes
/// before where the flag is true.
#[tactic(auto, using(crate::proofs::FirstKinds::fraction_again))]
pub(crate) fn first_kind(fraction_before: bool, items: &[Item]) -> Kind
    ensures { result ≡ fraction_kind fraction_before (first_kind (map item_in items.now)) }
{
    let mut has_fraction = fraction_before;
    for item in items {
        match item {
            Item::Kinded(kind, _) => return fraction_kind(has_fraction, *kind),
            Item::Interval(Timespan::Elapsed(_)) => {
                return fraction_kind(has_fraction, Kind::Timestamp);
            }
            Item::Fraction(_) => has_fraction = true,
            _ => {}
        }
    }
    fraction_kind(has_fraction, Kind::Plain)
}

/// The kind of the first value of cases with one, or that of a number with a fraction.
#[tactic(auto, using(crate::proofs::FirstKinds::fraction_again))]
fn first_case_kind(items: &[Item]) -> Kind
    ensures { result ≡ first_kind (values_of (map item_in items.now)) }
{
    let mut has_fraction = false;
    let mut rest = items;
    while let [_condition, value, more @ ..] = rest {
        match value {
            Item::Kinded(kind, _) => return fraction_kind(has_fraction, *kind),
            Item::Interval(Timespan::Elapsed(_)) => {
                return fraction_kind(has_fraction, Kind::Timestamp);
            }
            Item::Fraction(_) => has_fraction = true,
            _ => {}
        }
        rest = more;
    }
    first_kind(has_fraction, rest)
}

fn first_value_kind(takes: Takes, items: &[Item]) -> Kind
    ensures { result ≡ first_kind (specs.values_in takes (map item_in items.now)) }
{
    match takes {
        Takes::Cases => first_case_kind(items),
        _ => first_kind(false, items),
    }
}

/// The kind of the first value with one, where the function takes values of kinds.
fn call_kind(function: Standard, items: &[Item]) -> Kind
    ensures { result ≡ specs.call_kind function (map item_in items.now) }
{
    if is_choice(function) || is_test(function) {
        first_value_kind(function.takes(), items)
    } else {
        Kind::Plain
    }
}

/// The kind in which values so far and one more meet.
fn meet(alloc: Global, kind: &Kind, met: &mut Operand, item: &Item) -> Result<(), BindStop>
    ensures { Gives (λ _. met.new) result
        (specs.met_with kind.now met.old (item_in item.now)) }
{
    let value = item_operand(alloc, kind, item.try_clone(alloc)?)?;
    *met = calls::meet_next(*met, &value.operand)?;
    Ok(())
}

/// The kind in which values meet, from left to right.
fn met_values(
    alloc: Global,
    kind: &Kind,
    found: Operand,
    items: &[Item],
) -> Result<Operand, BindStop>
    ensures { Gives (λ a. a) result (specs.met_values kind.now found (map item_in items.now)) }
{
    let mut met = found;
    for item in items {
        if let Err(stop) = meet(alloc, kind, &mut met, item) {
            return Err(stop);
        }
    }
    Ok(met)
}

/// The kind in which the values of cases meet.
fn met_cases(
    alloc: Global,
    kind: &Kind,
    found: Operand,
    items: &[Item],
) -> Result<Operand, BindStop>
    ensures { Gives (λ a. a) result
        (specs.met_values kind.now found (values_of (map item_in items.now))) }
{
    let mut met = found;
    let mut rest = items;
    while let [_condition, value, more @ ..] = rest {
        if let Err(stop) = meet(alloc, kind, &mut met, value) {
            return Err(stop);
        }
        rest = more;
    }
    met_values(alloc, kind, met, rest)
}

fn met_arguments(
    alloc: Global,
    takes: Takes,
    kind: &Kind,
    items: &[Item],
) -> Result<Operand, BindStop>
    ensures { Gives (λ a. a) result (specs.met_values kind.now (Operand.Of kind.now)
        (specs.values_in takes (map item_in items.now))) }
{
    match takes {
        Takes::Cases => met_cases(alloc, kind, Operand::Of(*kind), items),
        _ => met_values(alloc, kind, Operand::Of(*kind), items),
    }
}

/// A value as the integer that stores it in the common kind.
fn aligned_item(alloc: Global, kind: &Kind, common: &Operand, item: &Item) -> Result<Item, BindStop>
    ensures { Gives item_in result
        (specs.aligned_item kind.now common.now (item_in item.now)) }
{
    let value = item_operand(alloc, kind, item.try_clone(alloc)?)?;
    Ok(Item::Bound(calls::align(alloc, common, value)?))
}

fn aligned_items(
    alloc: Global,
    kind: &Kind,
    common: &Operand,
    items: &[Item],
) -> Result<Vec<Item>, BindStop>
    ensures { Gives (λ is. map item_in is.items) result
        (specs.aligned_items kind.now common.now (map item_in items.now)) }
{
    let mut aligned = Vec::new(alloc);
    for item in items {
        aligned.push(aligned_item(alloc, kind, common, item)?)?;
    }
    Ok(aligned)
}

/// Of cases, the conditions stay.
fn aligned_cases(
    alloc: Global,
    kind: &Kind,
    common: &Operand,
    items: &[Item],
) -> Result<Vec<Item>, BindStop>
    ensures { Gives (λ is. map item_in is.items) result
        (specs.aligned_cases kind.now common.now (map item_in items.now)) }
{
    let mut cases = Vec::new(alloc);
    let mut rest = items;
    while let [condition, value, more @ ..] = rest {
        cases.push(condition.try_clone(alloc)?)?;
        cases.push(aligned_item(alloc, kind, common, value)?)?;
        rest = more;
    }
    if let [last] = rest {
        cases.push(aligned_item(alloc, kind, common, last)?)?;
    }
    Ok(cases)
}

fn aligned_arguments(
    alloc: Global,
    takes: Takes,
    kind: &Kind,
    common: &Operand,
    items: &[Item],
) -> Result<Vec<Item>, BindStop>
    ensures { Gives (λ is. map item_in is.items) result
        (specs.aligned_arguments takes kind.now common.now (map item_in items.now)) }
{
    match takes {
        Takes::Cases => aligned_cases(alloc, kind, common, items),
        _ => aligned_items(alloc, kind, common, items),
    }
}

/// The result of a call: what is chosen has the common kind.
fn result_item(function: Standard, operand: Operand, tree: BoundExpression<Standard>) -> Item
    ensures { item_in result ≡ specs.result_item function operand tree }
{
    if is_choice(function) {
        value_item(Lowered { tree, operand })
    } else {
        Item::Bound(tree)
    }
}

/// The call on integers in the common kind.
fn call_in(
    alloc: Global,
    function: Standard,
    kind: &Kind,
    common: Operand,
    items: &[Item],
) -> Result<Item, BindStop>
    ensures { Gives item_in result
        (specs.call_in function kind.now common (map item_in items.now)) }
{
    let aligned = aligned_arguments(alloc, function.takes(), kind, &common, items)?;
    let tree = function_call(alloc, function, aligned)?;
    Ok(result_item(function, common, tree))
}

/// The call on values of which one has that kind.
fn kinded_call(
    alloc: Global,
    function: Standard,
    kind: Kind,
    items: &[Item],
) -> Result<Item, BindStop>
    ensures { Gives item_in result (specs.kinded_call function kind (map item_in items.now)) }
{
    let common = met_arguments(alloc, function.takes(), &kind, items)?;
    call_in(alloc, function, &kind, common, items)
}

/// The call of a function on items.
pub(crate) fn function_item(
    alloc: Global,
    function: Standard,
    items: Vec<Item>,
) -> Result<Item, BindStop>
    ensures { Gives item_in result (specs.function_item function (map item_in items.items)) }
{
    let kind = call_kind(function, &items);
    if is_plain(&kind) {
        Ok(Item::Bound(function_call(alloc, function, items)?))
    } else {
        kinded_call(alloc, function, kind, &items)
    }
}
