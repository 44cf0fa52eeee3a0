//! Arguments of SQL's functions, and the types that nulls without one have there.
ghost use Rattle.std.specs.Prelude.{◌≡◌, map, option_map};
ghost use Rattle.std.specs.List.{list_all};
ghost use Rattle.vortex_errors.specs.Answers.{AnswersUnlessMemory};
ghost use Rattle.vortex_types.specs.TypeOf.{type_of};
ghost use Rattle.vortex_expressions.specs.Arguments as specs;
ghost use Rattle.vortex_expressions.specs.Items.{item_in};
ghost use Rattle.vortex_expressions.specs.Answering.{Gives};

use crate::item::{Item, common_type, settle_all};
use crate::literal::Literal;
use crate::refusal::BindStop;
use std::alloc::Global;
use vortex_columns::{DType, Nullability, PType, VortexResult};
use vortex_functions::BoundExpression;
use vortex_standard::{Kind, Standard};

/// The type of null where a value of that kind is taken; that of texts is the default.
fn type_of_null(kind: Kind) -> Option<DType>
    ensures { option_map (λ t. type_of t) result ≡ specs.type_of_null kind }
{
    match kind {
        Kind::Any | Kind::Text => None,
        Kind::Truth => Some(DType::Bool(Nullability::NonNullable)),
        Kind::Integer => Some(DType::Primitive(PType::I64, Nullability::NonNullable)),
        Kind::Within(ptype) => Some(DType::Primitive(ptype, Nullability::NonNullable)),
    }
}

fn is_null(item: &Item) -> bool
    ensures { result ≡ specs.is_null (item_in item.now) }
{
    matches!(item, Item::Literal(Literal::Null))
}

/// An argument of that kind.
fn settle_at(alloc: Global, kind: Kind, item: &Item) -> Result<BoundExpression<Standard>, BindStop>
    ensures { Gives (λ t. t) result (specs.settled_at kind (item_in item.now)) }
{
    let dtype = if is_null(item) {
        type_of_null(kind)
    } else {
        None
    };
    item.settle(alloc, dtype.as_ref())
}

/// The first argument of its kind, the second of its, and all others of the last.
pub(crate) fn settle_each(
    alloc: Global,
    first: Kind,
    second: Kind,
    others: Kind,
    items: &[Item],
) -> Result<Vec<BoundExpression<Standard>>, BindStop>
    ensures { Gives (λ ts. ts.items) result
        (specs.each_settled first second others (map item_in items.now)) }
{
    let mut trees = Vec::new(alloc);
    let mut kind = first;
    let mut next = second;
    for item in items {
        trees.push(settle_at(alloc, kind, item)?)?;
        kind = next;
        next = others;
    }
    Ok(trees)
}

fn are_null(items: &[Item]) -> bool
    ensures { result ≡ list_all specs.is_null (map item_in items.now) }
{
    for item in items {
        if !is_null(item) {
            return false;
        }
    }
    true
}

/// The type that arguments take which are alike.
fn alike_type(alloc: Global, kind: Kind, items: &[Item]) -> VortexResult<Option<DType>>
    ensures { AnswersUnlessMemory result (λ t. option_map (λ t. type_of t) t
        ≡ specs.alike_type kind (map item_in items.now)) }
{
    if are_null(items) {
        Ok(type_of_null(kind))
    } else {
        common_type(alloc, items)
    }
}

/// Arguments that are alike.
pub(crate) fn settle_alike(
    alloc: Global,
    kind: Kind,
    items: &[Item],
) -> Result<Vec<BoundExpression<Standard>>, BindStop>
    ensures { Gives (λ ts. ts.items) result
        (specs.alike_settled kind (map item_in items.now)) }
{
    let dtype = alike_type(alloc, kind, items)?;
    settle_all(alloc, dtype.as_ref(), items)
}
