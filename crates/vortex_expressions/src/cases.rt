//! CASE.
ghost use Rattle.std.specs.Prelude.{map};
ghost use Rattle.vortex_expressions.specs.Calls as specs;
ghost use Rattle.vortex_expressions.specs.Items.{item_in};
ghost use Rattle.vortex_expressions.specs.Answering.{Gives};

use crate::calls::joined_item;
use crate::functions::function_item;
use crate::item::Item;
use crate::refusal::BindStop;
use std::alloc::Global;
use vortex_standard::Standard;
use vortex_syntax::WrittenOperator as Written;

/// Cases with an operand: each condition is that it equals the value.
fn equal_cases(alloc: Global, operand: &Item, items: &[Item]) -> Result<Vec<Item>, BindStop>
    ensures { Gives (λ is. map item_in is.items) result
        (specs.equal_cases (item_in operand.now) (map item_in items.now)) }
{
    let mut cases = Vec::new(alloc);
    let mut rest = items;
    while let [case, value, more @ ..] = rest {
        let (left, right) = (operand.try_clone(alloc)?, case.try_clone(alloc)?);
        cases.push(joined_item(alloc, Written::Equal, left, right)?)?;
        cases.push(value.try_clone(alloc)?)?;
        rest = more;
    }
    if let [last] = rest {
        cases.push(last.try_clone(alloc)?)?;
    }
    Ok(cases)
}

/// The conditions with their values; an operand, if the flag is true, is the first of the items.
fn conditions_of(alloc: Global, has_operand: bool, items: Vec<Item>) -> Result<Vec<Item>, BindStop>
    ensures { Gives (λ is. map item_in is.items) result
        (specs.conditions_of has_operand (map item_in items.items)) }
{
    if !has_operand {
        return Ok(items);
    }
    match items.as_slice() {
        [operand, cases @ ..] => equal_cases(alloc, operand, cases),
        [] => Ok(items),
    }
}

/// CASE.
pub(crate) fn chosen_item(
    alloc: Global,
    has_operand: bool,
    items: Vec<Item>,
) -> Result<Item, BindStop>
    ensures { Gives item_in result (specs.chosen_item has_operand (map item_in items.items)) }
{
    let cases = conditions_of(alloc, has_operand, items)?;
    function_item(alloc, Standard::Case, cases)
}
