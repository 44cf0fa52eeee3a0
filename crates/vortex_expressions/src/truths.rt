//! Whole numbers where truth values are taken: whether they are not 0.
ghost use Rattle.std.specs.Prelude.{◌≡◌};
ghost use Rattle.vortex_expressions.specs.Truths as specs;
ghost use Rattle.vortex_expressions.specs.Items.{item_in};
ghost use Rattle.vortex_expressions.specs.Literals.{literal_in};
ghost use Rattle.vortex_expressions.specs.Answering.{Gives};

use crate::item::{Item, made_by};
use crate::literal::Literal;
use crate::refusal::BindStop;
use std::alloc::Global;
use vortex_columns::{DType, Nullability};
use vortex_functions::BoundExpression;
use vortex_standard::Standard;

/// A whole number, cast to a truth value; any other tree is unchanged.
fn tree_truth(alloc: Global, tree: BoundExpression<Standard>) -> Result<Item, BindStop>
    ensures { Gives item_in result (specs.tree_truth tree) }
{
    match tree.dtype() {
        DType::Primitive(_, _) => made_by(alloc, Standard::IntToTruth, tree),
        _ => Ok(Item::Bound(tree)),
    }
}

fn is_number_literal(literal: &Literal) -> bool
    ensures { result ≡ specs.is_number_literal (literal_in literal.now) }
{
    matches!(literal, Literal::Number(_))
}

/// A literal number, cast to a truth value; any other literal is unchanged.
fn literal_truth(alloc: Global, literal: Literal) -> Result<Item, BindStop>
    ensures { Gives item_in result (specs.literal_truth (literal_in literal)) }
{
    let is_number_literal = is_number_literal(&literal);
    let item = Item::Literal(literal);
    if !is_number_literal {
        return Ok(item);
    }
    let tree = item.settle(alloc, None)?;
    tree_truth(alloc, tree)
}

/// An operand of AND, OR and NOT, or a condition: a number is cast.
pub(crate) fn as_truth(alloc: Global, item: Item) -> Result<Item, BindStop>
    ensures { Gives item_in result (specs.as_truth (item_in item)) }
{
    match item {
        Item::Literal(literal) => literal_truth(alloc, literal),
        Item::Bound(tree) => tree_truth(alloc, tree),
        other => Ok(other),
    }
}

/// The tree of a condition.
pub(crate) fn settle_truth(
    alloc: Global,
    item: &Item,
) -> Result<BoundExpression<Standard>, BindStop>
    ensures { Gives (λ t. t) result (specs.truth_settled (item_in item.now)) }
{
    let truth = DType::Bool(Nullability::NonNullable);
    let item = item.try_clone(alloc)?;
    as_truth(alloc, item)?.settle(alloc, Some(&truth))
}
