//! Dispatch from functions to their rules.
ghost use Rattle.std.specs.Prelude.{◌≡◌, Some};
ghost use Rattle.vortex_interface.specs.Shipped.{Binary};
ghost use Rattle.vortex_functions.specs.Words.{ours, called, function_of, AnswersUnlessMemory};
ghost use Rattle.vortex_rewriting.specs.Reduced.{IsReducedBy, IsSimplifiedBy, IsValidityBy};

use crate::boolean::reduce_boolean;
use crate::node::{ReduceNodeValidity, ReduceTree};
use crate::null_tests::{NullTest, reduce_null_test};
use crate::rules::{ReduceNode, ScalarFnRules};
use crate::simplify::simplify_operator;
use crate::tree_node::ExpressionReduceNode;
use crate::validity::default_validity;
use std::alloc::Global;
use std::borrow::Cow;
use vortex_columns::VortexResult;
use vortex_functions::{BoundExpression, ScalarFnRef};
use vortex_operators::Operator;

/// Reduce of a call of an operator: only And and Or have a rule.
fn reduce_operator<C: ScalarFnRules, T: ReduceTree<C>>(
    alloc: Global,
    operator: Operator,
    node: &T,
) -> VortexResult<Option<T>>
    requires { called (T.seen node.now).tree ≡ Some (ours (Binary operator)) }
    ensures { AnswersUnlessMemory result
        (IsReducedBy C.meaning C.rules T.seen (T.seen node.now)) }
{
    if operator.is_boolean() {
        reduce_boolean(alloc, operator, node)
    } else {
        Ok(None)
    }
}

/// Reduce of a call of that function: the resulting node, or none if no rule applies. E9 where an
/// allocation fails.
pub fn reduce_call<C: ScalarFnRules, T: ReduceNode<C>>(
    alloc: Global,
    function: &ScalarFnRef<C>,
    node: &T,
) -> VortexResult<Option<T>>
    requires { called (T.seen node.now).tree ≡ Some (function_of function.now) }
    ensures { AnswersUnlessMemory result
        (IsReducedBy C.meaning C.rules T.seen (T.seen node.now)) }
{
    match function {
        ScalarFnRef::Binary(operator) => reduce_operator(alloc, *operator, node),
        ScalarFnRef::IsNull => reduce_null_test(alloc, NullTest::IsNull, node),
        ScalarFnRef::IsNotNull => reduce_null_test(alloc, NullTest::IsNotNull, node),
        ScalarFnRef::Custom(custom) => custom.vtable().reduce(alloc, custom.options(), node),
        _ => Ok(None),
    }
}

/// Validity of a call of that function: a node that is true where the call is not null, if there is
/// one. E9 where an allocation fails.
pub fn validity_call<C: ScalarFnRules, T: ReduceTree<C>>(
    alloc: Global,
    function: &ScalarFnRef<C>,
    node: &T,
) -> VortexResult<ReduceNodeValidity<T>>
    requires { called (T.seen node.now).tree ≡ Some (function_of function.now) }
    ensures { AnswersUnlessMemory result
        (IsValidityBy C.meaning C.rules T.seen (T.seen node.now)) }
{
    match function {
        ScalarFnRef::Custom(custom) => custom.vtable().validity(alloc, custom.options(), node),
        _ => default_validity(alloc, function, node),
    }
}

/// Simplify of a call of an operator in an expression.
fn simplify_binary<C: ScalarFnRules>(
    alloc: Global,
    operator: Operator,
    expression: &BoundExpression<C>,
) -> VortexResult<Option<BoundExpression<C>>>
    requires { called expression.now ≡ Some (ours (Binary operator)) }
    ensures { AnswersUnlessMemory result
        (IsSimplifiedBy C.meaning C.rules expression.now) }
{
    let node = ExpressionReduceNode::new(Cow::Borrowed(expression));
    match simplify_operator(alloc, operator, &node)? {
        Some(made) => {
            let expression = made.into_expression(alloc)?;
            Ok(Some(expression))
        }
        None => Ok(None),
    }
}

/// Simplify of a call of that function in an expression: the result, or none if no rule applies. E9
/// where an allocation fails.
pub fn simplify_call<C: ScalarFnRules>(
    alloc: Global,
    function: &ScalarFnRef<C>,
    expression: &BoundExpression<C>,
) -> VortexResult<Option<BoundExpression<C>>>
    requires { called expression.now ≡ Some (function_of function.now) }
    ensures { AnswersUnlessMemory result
        (IsSimplifiedBy C.meaning C.rules expression.now) }
{
    match function {
        ScalarFnRef::Binary(operator) => simplify_binary(alloc, *operator, expression),
        ScalarFnRef::Custom(custom) => {
            custom
                .vtable()
                .simplify(alloc, custom.options(), expression)
        }
        _ => Ok(None),
    }
}
