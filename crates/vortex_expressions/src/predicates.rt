//! Tests of one value, and of a value next to others: IS, IS DISTINCT FROM, and IN.
ghost use Rattle.std.specs.Prelude.{map};
ghost use Rattle.vortex_syntax.specs.declared.step.Test.TheVariants.{Null};
ghost use Rattle.vortex_expressions.specs.Calls as specs;
ghost use Rattle.vortex_expressions.specs.Items.{item_in};
ghost use Rattle.vortex_expressions.specs.Answering.{Gives};

use crate::calls::{negated_if, negated_item};
use crate::functions::function_item;
use crate::item::{Item, callable, called};
use crate::kinded::stored_item;
use crate::refusal::BindStop;
use crate::truths::as_truth;
use std::alloc::Global;
use vortex_columns::{DType, Nullability};
use vortex_functions::ScalarFnRef;
use vortex_standard::{Standard, TruthTest};
use vortex_syntax::Test;

/// IS NULL, or IS NOT NULL.
fn null_item(alloc: Global, negated: bool, item: Item) -> Result<Item, BindStop>
    ensures { Gives item_in result (specs.tested_item Null negated (item_in item)) }
{
    let function = if negated {
        ScalarFnRef::IsNotNull
    } else {
        ScalarFnRef::IsNull
    };
    let tree = called(alloc, function, None, vec![in alloc; stored_item(item)]?)?;
    Ok(Item::Bound(tree))
}

/// A test of a truth value, negated if the flag is true; null is a truth value here.
fn truth_test(
    alloc: Global,
    function: Standard,
    negated: bool,
    item: Item,
) -> Result<Item, BindStop>
    ensures { Gives item_in result (specs.truth_test function negated (item_in item)) }
{
    let item = as_truth(alloc, item)?;
    let truth = DType::Bool(Nullability::NonNullable);
    let tree = called(
        alloc,
        callable(function),
        Some(&truth),
        vec![in alloc; item]?,
    )?;
    Ok(Item::Bound(negated_if(alloc, negated, tree)?))
}

/// IS of a test, or IS NOT.
pub(crate) fn tested_item(
    alloc: Global,
    test: Test,
    negated: bool,
    item: Item,
) -> Result<Item, BindStop>
    ensures { Gives item_in result (specs.tested_item test negated (item_in item)) }
{
    match test {
        Test::Null => null_item(alloc, negated, item),
        Test::True => truth_test(alloc, Standard::TruthTest(TruthTest::IsTrue), negated, item),
        Test::False => truth_test(
            alloc,
            Standard::TruthTest(TruthTest::IsFalse),
            negated,
            item,
        ),
        Test::Unknown => {
            truth_test(
                alloc,
                Standard::TruthTest(TruthTest::IsUnknown),
                negated,
                item,
            )
        }
    }
}

/// IS DISTINCT FROM, or IS NOT DISTINCT FROM.
pub(crate) fn distinct_item(
    alloc: Global,
    negated: bool,
    left: Item,
    right: Item,
) -> Result<Item, BindStop>
    ensures { Gives item_in result (specs.distinct_item negated (item_in left) (item_in right)) }
{
    let item = function_item(alloc, Standard::IsDistinct, vec![in alloc; left, right]?)?;
    negated_item(alloc, negated, item)
}

/// IN, whose operand is the first of the items, or NOT IN.
pub(crate) fn listed_item(alloc: Global, negated: bool, items: Vec<Item>) -> Result<Item, BindStop>
    ensures { Gives item_in result (specs.listed_item negated (map item_in items.items)) }
{
    let item = function_item(alloc, Standard::InList, items)?;
    negated_item(alloc, negated, item)
}
