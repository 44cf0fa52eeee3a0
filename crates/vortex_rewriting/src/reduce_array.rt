//! Rules at the root of an array tree.
ghost use Rattle.std.specs.Prelude.{◌≡◌, IfSome, Some};
ghost use Rattle.vortex_interface.specs.Functions.{Function};
ghost use Rattle.vortex_interface.specs.Rewrites.{Rewrites};
ghost use Rattle.vortex_functions.specs.Words.{called, function_of, AnswersUnlessMemory};
ghost use Rattle.vortex_functions.specs.ArrayExecuting.{KeepsValues};
ghost use Rattle.vortex_rewriting.specs.NodeTrees.{array_of, array_seen, tree_of};
ghost use Rattle.vortex_rewriting.specs.Reduced.{IsReducedBy};

use crate::dispatch::reduce_call;
use crate::rules::ScalarFnRules;
use crate::tree_node::ArrayReduceNode;
use std::alloc::Global;
use vortex_columns::VortexResult;
use vortex_functions::ScalarFnRef;

/// The rules of a function with its options, at the root of an array tree that is a call of it.
pub trait ReduceArray<C: ScalarFnRules> {
    ghost function: { Self → Function C C.Options };

    /// The result of Reduce for the call: of its type and its row count, and of its value in each
    /// row in which it has one. None if no rule applies. E9 where an allocation fails.
    fn reduce_array<'a>(
        &self,
        alloc: Global,
        node: &ArrayReduceNode<'a, C>,
    ) -> VortexResult<Option<ArrayReduceNode<'a, C>>>
        requires { called (tree_of node.now) ≡ Some (function self.now) }
        ensures answer { AnswersUnlessMemory result
            (IsReducedBy C.meaning C.rules array_seen (array_seen node.now)) }
        ensures kept { AnswersUnlessMemory result (λ answer. IfSome answer
            (λ made. Rewrites C.meaning (tree_of node.now) (tree_of made))) }
        ensures values { AnswersUnlessMemory result (λ answer. IfSome answer
            (λ made. KeepsValues C.meaning (array_of node.now) (array_of made))) };
}

impl<C: ScalarFnRules> ReduceArray<C> for ScalarFnRef<C> {
    ghost function = { function_of };

    fn reduce_array<'a>(
        &self,
        alloc: Global,
        node: &ArrayReduceNode<'a, C>,
    ) -> VortexResult<Option<ArrayReduceNode<'a, C>>> {
        let _typed = node.array().dtype();
        reduce_call(alloc, self, node)
    }
}
