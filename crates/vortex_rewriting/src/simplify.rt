//! The rules of Simplify: operators with a literal.
ghost use Rattle.std.specs.Prelude.{◌≡◌, Some, true};
ghost use Rattle.vortex_types.specs.TypeOf.{allows_null};
ghost use Rattle.vortex_types.specs.LogicalTypes.{bool_type};
ghost use Rattle.vortex_interface.specs.Shipped.{Binary};
ghost use Rattle.vortex_interface.specs.Rules.{cast_of};
ghost use Rattle.vortex_interface.specs.SimplifyRules.{is_null_literal, simplify_comparison};
ghost use Rattle.vortex_interface.specs.SimplifyRules.{simplify_operands, left_of_nulls};
ghost use Rattle.vortex_functions.specs.Words.{ours, called, tree_type, AnswersUnlessMemory};
ghost use Rattle.vortex_rewriting.specs.Contexts.{IsMade};
ghost use Rattle.vortex_rewriting.specs.Reduced.{IsSimplified};

use crate::boolean::{beside_constant, constant_truth};
use crate::node::ReduceTree;
use std::alloc::Global;
use vortex_columns::{DType, Nullability, Scalar, VortexResult};
use vortex_interface::ScalarFnVTable;
use vortex_operators::Operator;

/// Whether the node is a null literal.
fn is_null_literal<C: ScalarFnVTable, T: ReduceTree<C>>(node: &T) -> bool
    ensures { result ≡ is_null_literal (T.seen node.now).tree }
{
    match node.as_constant() {
        Some(scalar) => {
            let _typed = scalar.dtype();
            scalar.is_null()
        }
        None => false,
    }
}

/// A comparison from its operands: null if one is a null literal.
fn simplify_comparison<C: ScalarFnVTable, T: ReduceTree<C>>(
    alloc: Global,
    left: T,
    right: T,
) -> VortexResult<Option<T>>
    ensures { AnswersUnlessMemory result (IsMade (T.seen left) T.seen
        (simplify_comparison (T.seen left).tree (T.seen right).tree)) }
{
    if is_null_literal(&left) || is_null_literal(&right) {
        let null = Scalar::null(DType::Bool(Nullability::Nullable));
        let made = left.new_constant(alloc, null)?;
        Ok(Some(made))
    } else {
        Ok(None)
    }
}

/// The left of two null literals.
fn left_of_nulls<C: ScalarFnVTable, T: ReduceTree<C>>(left: T, right: T) -> Option<T>
    ensures { IsMade (T.seen left) T.seen
        (left_of_nulls (T.seen left).tree (T.seen right).tree) result }
{
    if is_null_literal(&left) && is_null_literal(&right) {
        Some(left)
    } else {
        None
    }
}

/// And or Or from its operands: a literal that decides, on either side, the other operand for one
/// that does not, or the left of two nulls.
fn simplify_operands<C: ScalarFnVTable, T: ReduceTree<C>>(
    alloc: Global,
    operator: Operator,
    nullability: Nullability,
    left: T,
    right: T,
) -> VortexResult<Option<T>>
    requires casts_left { tree_type C.meaning (cast_of (T.seen left).tree)
        ≡ Some (bool_type true) }
    requires casts_right { tree_type C.meaning (cast_of (T.seen right).tree)
        ≡ Some (bool_type true) }
    requires same_context { (T.seen left).context ≡ (T.seen right).context }
    ensures { AnswersUnlessMemory result (IsMade (T.seen left) T.seen
        (simplify_operands C.meaning operator (allows_null nullability) (T.seen left).tree
        (T.seen right).tree)) }
{
    let value_left = constant_truth(&left);
    let value_right = constant_truth(&right);
    match (value_left, value_right) {
        (Some(a), Some(b)) => {
            let value = if operator.is_decided_by(a) { a } else { b };
            let made = beside_constant(alloc, operator, nullability, value, right)?;
            Ok(Some(made))
        }
        (Some(a), None) => {
            let made = beside_constant(alloc, operator, nullability, a, right)?;
            Ok(Some(made))
        }
        (None, Some(b)) => {
            let made = beside_constant(alloc, operator, nullability, b, left)?;
            Ok(Some(made))
        }
        (None, None) => Ok(left_of_nulls(left, right)),
    }
}

/// Simplify of a call of an operator: a comparison with a null literal is null; And and Or with a
/// literal are a literal or the other operand, cast if only the node is nullable. None if no rule
/// applies; arithmetic has none. E9 where an allocation fails.
pub fn simplify_operator<C: ScalarFnVTable, T: ReduceTree<C>>(
    alloc: Global,
    operator: Operator,
    node: &T,
) -> VortexResult<Option<T>>
    requires { called (T.seen node.now).tree ≡ Some (ours (Binary operator)) }
    ensures { AnswersUnlessMemory result (IsSimplified C.meaning T.seen (T.seen node.now)) }
{
    let nullability = node.node_dtype().nullability();
    let left = node.child(alloc, 0)?;
    let right = node.child(alloc, 1)?;
    if operator.is_boolean() {
        simplify_operands(alloc, operator, nullability, left, right)
    } else if operator.is_comparison() {
        simplify_comparison(alloc, left, right)
    } else {
        Ok(None)
    }
}
