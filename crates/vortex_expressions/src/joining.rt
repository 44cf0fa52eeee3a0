//! Values that are joined to texts, each as its text.
ghost use Rattle.std.specs.Prelude.{◌≡◌, map};
ghost use Rattle.vortex_expressions.specs.Joining as specs;
ghost use Rattle.vortex_expressions.specs.Items.{item_in};
ghost use Rattle.vortex_expressions.specs.Literals.{literal_in};
ghost use Rattle.vortex_expressions.specs.Answering.{Gives};

use crate::applied::function_call;
use crate::item::{Item, made_by};
use crate::kind_casts::written;
use crate::literal::Literal;
use crate::refusal::BindStop;
use std::alloc::Global;
use vortex_columns::DType;
use vortex_functions::BoundExpression;
use vortex_standard::Standard;

/// A whole number or a truth value as its text; any other tree is unchanged.
fn tree_text(alloc: Global, tree: BoundExpression<Standard>) -> Result<Item, BindStop>
    ensures { Gives item_in result (specs.tree_text tree) }
{
    match tree.dtype() {
        DType::Primitive(_, _) => made_by(alloc, Standard::IntToText, tree),
        DType::Bool(_) => made_by(alloc, Standard::TruthToText, tree),
        _ => Ok(Item::Bound(tree)),
    }
}

fn is_text(literal: &Literal) -> bool
    ensures { result ≡ specs.is_text (literal_in literal.now) }
{
    matches!(literal, Literal::Text(_) | Literal::Null)
}

/// A literal as its text; a text stays, and null.
fn literal_text(alloc: Global, literal: Literal) -> Result<Item, BindStop>
    ensures { Gives item_in result (specs.literal_text (literal_in literal)) }
{
    let is_text = is_text(&literal);
    let item = Item::Literal(literal);
    if is_text {
        return Ok(item);
    }
    let tree = item.settle(alloc, None)?;
    tree_text(alloc, tree)
}

/// A value as its text; a text stays, and null.
pub(crate) fn as_text(alloc: Global, item: Item) -> Result<Item, BindStop>
    ensures { Gives item_in result (specs.as_text (item_in item)) }
{
    match item {
        Item::Literal(literal) => literal_text(alloc, literal),
        Item::Bound(tree) => tree_text(alloc, tree),
        Item::Kinded(kind, tree) => written(alloc, kind, tree),
        other => Ok(other),
    }
}

fn text_of(alloc: Global, item: &Item) -> Result<Item, BindStop>
    ensures { Gives item_in result (specs.as_text (item_in item.now)) }
{
    let item = item.try_clone(alloc)?;
    as_text(alloc, item)
}

/// Values as their texts.
fn as_texts(alloc: Global, items: &[Item]) -> Result<Vec<Item>, BindStop>
    ensures { Gives (λ is. map item_in is.items) result
        (specs.as_texts (map item_in items.now)) }
{
    let mut texts = Vec::new(alloc);
    for item in items {
        texts.push(text_of(alloc, item)?)?;
    }
    Ok(texts)
}

/// Whether the function makes one text of several.
pub(crate) fn joins(function: Standard) -> bool
    ensures { result ≡ specs.joins function }
{
    matches!(function, Standard::ConcatAll | Standard::ConcatWs)
}

/// The call of such a function on values, each as its text.
pub(crate) fn joined_texts(
    alloc: Global,
    function: Standard,
    items: Vec<Item>,
) -> Result<Item, BindStop>
    ensures { Gives item_in result (specs.joined_texts function (map item_in items.items)) }
{
    let texts = as_texts(alloc, &items)?;
    Ok(Item::Bound(function_call(alloc, function, texts)?))
}
