//! Rules at the root of an expression.
ghost use Rattle.std.specs.Prelude.{◌≡◌, IfSome, Some};
ghost use Rattle.vortex_interface.specs.Functions.{Function};
ghost use Rattle.vortex_interface.specs.Rewrites.{Rewrites};
ghost use Rattle.vortex_functions.specs.Words.{called, function_of, AnswersUnlessMemory};
ghost use Rattle.vortex_rewriting.specs.Reduced.{IsReducedBy, IsSimplifiedBy};
ghost use Rattle.vortex_rewriting.specs.NodeTrees.{expression_of, expression_seen};

use crate::dispatch::{reduce_call, simplify_call};
use crate::rules::ScalarFnRules;
use crate::tree_node::ExpressionReduceNode;
use std::alloc::Global;
use vortex_columns::VortexResult;
use vortex_functions::{BoundExpression, ScalarFnRef};

/// The rules of a function with its options, at the root of an expression that is a call of it.
pub trait ReduceExpression<C: ScalarFnRules> {
    ghost function: { Self → Function C C.Options };

    /// The result of Reduce for the call: of its type, and of its value in each row in which it has
    /// one. None if no rule applies. E9 where an allocation fails.
    fn reduce_expression<'a>(
        &self,
        alloc: Global,
        node: &ExpressionReduceNode<'a, C>,
    ) -> VortexResult<Option<ExpressionReduceNode<'a, C>>>
        requires { called (expression_of node.now) ≡ Some (function self.now) }
        ensures answer { AnswersUnlessMemory result
            (IsReducedBy C.meaning C.rules expression_seen (expression_seen node.now)) }
        ensures kept { AnswersUnlessMemory result (λ answer. IfSome answer
            (λ made. Rewrites C.meaning (expression_of node.now) (expression_of made))) };

    /// The same for Simplify.
    fn simplify_expression(
        &self,
        alloc: Global,
        expression: &BoundExpression<C>,
    ) -> VortexResult<Option<BoundExpression<C>>>
        requires { called expression.now ≡ Some (function self.now) }
        ensures answer { AnswersUnlessMemory result
            (IsSimplifiedBy C.meaning C.rules expression.now) }
        ensures kept { AnswersUnlessMemory result
            (λ answer. IfSome answer (Rewrites C.meaning expression.now)) };
}

impl<C: ScalarFnRules> ReduceExpression<C> for ScalarFnRef<C> {
    ghost function = { function_of };

    fn reduce_expression<'a>(
        &self,
        alloc: Global,
        node: &ExpressionReduceNode<'a, C>,
    ) -> VortexResult<Option<ExpressionReduceNode<'a, C>>> {
        let _typed = node.expression().dtype();
        reduce_call(alloc, self, node)
    }

    fn simplify_expression(
        &self,
        alloc: Global,
        expression: &BoundExpression<C>,
    ) -> VortexResult<Option<BoundExpression<C>>> {
        let _typed = expression.dtype();
        simplify_call(alloc, self, expression)
    }
}
