//! The rule of And and of Or with a constant.
ghost use Rattle.std.specs.Prelude.{◌≡◌, IsTrue, Some, true};
ghost use Rattle.vortex_types.specs.TypeOf.{allows_null};
ghost use Rattle.vortex_types.specs.LogicalTypes.{bool_type};
ghost use Rattle.vortex_operators.specs.Kleene.{kleene};
ghost use Rattle.vortex_operators.specs.Operators.{is_boolean};
ghost use Rattle.vortex_interface.specs.Shipped.{Binary};
ghost use Rattle.vortex_interface.specs.Rules.{truth_constant, cast_of, constant_truth};
ghost use Rattle.vortex_interface.specs.Rules.{widened};
ghost use Rattle.vortex_interface.specs.ReduceRules.{beside_constant, of_constants};
ghost use Rattle.vortex_functions.specs.Words.{ours, called, tree_type, AnswersUnlessMemory};
ghost use Rattle.vortex_rewriting.specs.Contexts.{with_tree, IsMade};
ghost use Rattle.vortex_rewriting.specs.Reduced.{IsReduced};

use crate::making::call_on_one;
use crate::node::ReduceTree;
use std::alloc::Global;
use vortex_columns::{Nullability, Scalar, VortexResult};
use vortex_functions::ScalarFnRef;
use vortex_interface::ScalarFnVTable;
use vortex_operators::Operator;

/// The truth value of a constant that has one: of Bool, and not null.
pub(crate) fn constant_truth<C: ScalarFnVTable, T: ReduceTree<C>>(node: &T) -> Option<bool>
    ensures { result ≡ constant_truth (T.seen node.now).tree }
{
    match node.as_constant() {
        Some(scalar) => scalar.as_bool_opt(),
        None => None,
    }
}

/// The result of And or Or for two truth values.
fn of_both(operator: Operator, left: bool, right: bool) -> bool
    requires { IsTrue (is_boolean operator) }
    ensures { kleene operator (Some left) (Some right) ≡ Some result }
{
    match operator {
        Operator::And => left && right,
        _ => left || right,
    }
}

/// The constant of a truth value, in the context of the node.
pub(crate) fn truth_node<C: ScalarFnVTable, T: ReduceTree<C>>(
    alloc: Global,
    node: &T,
    nullability: Nullability,
    value: bool,
) -> VortexResult<T>
    ensures { AnswersUnlessMemory result (λ made. T.seen made
        ≡ with_tree (T.seen node.now) (truth_constant (allows_null nullability) value)) }
{
    node.new_constant(alloc, Scalar::bool(value, nullability))
}

/// An operand in place of the node, cast if only the node is nullable.
fn widened<C: ScalarFnVTable, T: ReduceTree<C>>(
    alloc: Global,
    nullability: Nullability,
    operand: T,
) -> VortexResult<T>
    requires { tree_type C.meaning (cast_of (T.seen operand).tree) ≡ Some (bool_type true) }
    ensures { AnswersUnlessMemory result (λ made. T.seen made ≡ with_tree (T.seen operand)
        (widened C.meaning (allows_null nullability) (T.seen operand).tree)) }
{
    if !nullability.is_nullable() {
        return Ok(operand);
    }
    if operand.node_dtype().is_nullable() {
        return Ok(operand);
    }
    call_on_one(alloc, ScalarFnRef::Cast, operand)
}

/// The node if one operand is a constant of that value: it decides, or the other operand stays.
pub(crate) fn beside_constant<C: ScalarFnVTable, T: ReduceTree<C>>(
    alloc: Global,
    operator: Operator,
    nullability: Nullability,
    value: bool,
    other: T,
) -> VortexResult<T>
    requires { tree_type C.meaning (cast_of (T.seen other).tree) ≡ Some (bool_type true) }
    ensures { AnswersUnlessMemory result (λ made. T.seen made ≡ with_tree (T.seen other)
        (beside_constant C.meaning operator (allows_null nullability) value
        (T.seen other).tree)) }
{
    if operator.is_decided_by(value) {
        truth_node(alloc, &other, nullability, value)
    } else {
        widened(alloc, nullability, other)
    }
}

/// The node from the constants among its operands, which have one context.
fn of_constants<C: ScalarFnVTable, T: ReduceTree<C>>(
    alloc: Global,
    operator: Operator,
    nullability: Nullability,
    left: T,
    right: T,
) -> VortexResult<Option<T>>
    requires boolean { IsTrue (is_boolean operator) }
    requires casts_left { tree_type C.meaning (cast_of (T.seen left).tree)
        ≡ Some (bool_type true) }
    requires casts_right { tree_type C.meaning (cast_of (T.seen right).tree)
        ≡ Some (bool_type true) }
    requires same_context { (T.seen left).context ≡ (T.seen right).context }
    ensures { AnswersUnlessMemory result (IsMade (T.seen left) T.seen
        (of_constants C.meaning operator (allows_null nullability) (T.seen left).tree
        (T.seen right).tree (constant_truth (T.seen left).tree)
        (constant_truth (T.seen right).tree))) }
{
    let value_left = constant_truth(&left);
    let value_right = constant_truth(&right);
    match (value_left, value_right) {
        (Some(a), Some(b)) => {
            let made = truth_node(alloc, &left, nullability, of_both(operator, a, b))?;
            Ok(Some(made))
        }
        (Some(a), None) => {
            let made = beside_constant(alloc, operator, nullability, a, right)?;
            Ok(Some(made))
        }
        (None, Some(b)) => {
            let made = beside_constant(alloc, operator, nullability, b, left)?;
            Ok(Some(made))
        }
        (None, None) => Ok(None),
    }
}

/// Reduce of a call of And or Or: two constants give the table's value, one that decides gives its
/// own, and for one that does not the other operand stays, cast if only the node is nullable. None
/// if neither operand is a constant truth value. E9 where an allocation fails.
pub fn reduce_boolean<C: ScalarFnVTable, T: ReduceTree<C>>(
    alloc: Global,
    operator: Operator,
    node: &T,
) -> VortexResult<Option<T>>
    requires boolean { IsTrue (is_boolean operator) }
    requires call { called (T.seen node.now).tree ≡ Some (ours (Binary operator)) }
    ensures { AnswersUnlessMemory result (IsReduced C.meaning T.seen (T.seen node.now)) }
{
    let nullability = node.node_dtype().nullability();
    let left = node.child(alloc, 0)?;
    let right = node.child(alloc, 1)?;
    of_constants(alloc, operator, nullability, left, right)
}
