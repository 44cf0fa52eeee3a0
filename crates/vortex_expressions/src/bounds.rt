//! BETWEEN.
ghost use Rattle.std.specs.Prelude.{◌∷◌, [], map};
ghost use Rattle.vortex_expressions.specs.Calls as specs;
ghost use Rattle.vortex_expressions.specs.Items.{item_in};
ghost use Rattle.vortex_expressions.specs.Answering.{Gives};

use crate::calls::negated_if;
use crate::item::{Item, called, common_type};
use crate::kinded::{is_kinded, kinded_between, within_bounds};
use crate::refusal::BindStop;
use std::alloc::Global;
use vortex_functions::{BoundExpression, ScalarFnRef};
use vortex_operators::Operator;
use vortex_standard::Standard;
use vortex_syntax::BetweenKind;

/// BETWEEN, with inclusive bounds.
fn between(alloc: Global, items: Vec<Item>) -> Result<BoundExpression<Standard>, BindStop>
    ensures { Gives (λ t. t) result
        (specs.between_all (map item_in items.items)) }
{
    let dtype = common_type(alloc, &items)?;
    let function = ScalarFnRef::Between(within_bounds());
    called(alloc, function, dtype.as_ref(), items)
}

/// BETWEEN of three without kinds.
fn plain_between(
    alloc: Global,
    item: Item,
    lower: Item,
    upper: Item,
) -> Result<BoundExpression<Standard>, BindStop>
    ensures { Gives (λ t. t) result
        (specs.between_all (item_in item ∷ item_in lower ∷ item_in upper ∷ [])) }
{
    between(alloc, vec![in alloc; item, lower, upper]?)
}

/// BETWEEN of three.
fn between_three(
    alloc: Global,
    item: Item,
    lower: Item,
    upper: Item,
) -> Result<BoundExpression<Standard>, BindStop>
    ensures { Gives (λ t. t) result
        (specs.between_three (item_in item) (item_in lower) (item_in upper)) }
{
    if is_kinded(&item) || (is_kinded(&lower) || is_kinded(&upper)) {
        kinded_between(alloc, item, lower, upper)
    } else {
        plain_between(alloc, item, lower, upper)
    }
}

/// BETWEEN of the bounds in either order.
fn either_between(
    alloc: Global,
    item: Item,
    lower: Item,
    upper: Item,
) -> Result<BoundExpression<Standard>, BindStop>
    ensures { Gives (λ t. t) result
        (specs.either_between (item_in item) (item_in lower) (item_in upper)) }
{
    let (operand, low, high) = (
        item.try_clone(alloc)?,
        lower.try_clone(alloc)?,
        upper.try_clone(alloc)?,
    );
    let first = between_three(alloc, item, lower, upper)?;
    let second = between_three(alloc, operand, high, low)?;
    let either = vec![in alloc; Item::Bound(first), Item::Bound(second)]?;
    called(alloc, ScalarFnRef::Binary(Operator::Or), None, either)
}

fn between_tree(
    alloc: Global,
    is_symmetric: bool,
    item: Item,
    lower: Item,
    upper: Item,
) -> Result<BoundExpression<Standard>, BindStop>
    ensures { Gives (λ t. t) result
        (specs.between_tree is_symmetric (item_in item) (item_in lower) (item_in upper)) }
{
    if is_symmetric {
        either_between(alloc, item, lower, upper)
    } else {
        between_three(alloc, item, lower, upper)
    }
}

pub(crate) fn between_item(
    alloc: Global,
    kind: BetweenKind,
    item: Item,
    lower: Item,
    upper: Item,
) -> Result<Item, BindStop>
    ensures { Gives item_in result
        (specs.between_item kind (item_in item) (item_in lower) (item_in upper)) }
{
    let tree = between_tree(alloc, kind.symmetric, item, lower, upper)?;
    Ok(Item::Bound(negated_if(alloc, kind.negated, tree)?))
}
