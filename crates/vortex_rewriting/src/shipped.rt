//! The rules of the shipped functions, callable separately.
ghost use Rattle.std.specs.Prelude.{◌≡◌, Some};
ghost use Rattle.vortex_functions.specs.Words.{ours, called, AnswersUnlessMemory};
ghost use Rattle.vortex_rewriting.specs.Reduced.{IsReducedBy, IsSimplifiedBy, IsValidityBy};

use crate::dispatch::{reduce_call, simplify_call, validity_call};
use crate::node::{ReduceNodeValidity, ReduceTree};
use crate::rules::{ReduceNode, ScalarFnRules};
use std::alloc::Global;
use vortex_columns::VortexResult;
use vortex_functions::{BoundExpression, ScalarFnVTableExt};

/// The rules of a shipped function, in trees over any caller's functions: the table of rules for a
/// call of it with these options. E9 where an allocation fails.
pub trait ShippedRules: ScalarFnVTableExt {
    /// The reduced node, if a rule applies.
    final fn reduce<C: ScalarFnRules, T: ReduceNode<C>>(
        &self,
        alloc: Global,
        options: &Self::Options,
        node: &T,
    ) -> VortexResult<Option<T>>
        requires { called (T.seen node.now).tree ≡ Some (ours (Self.ships options.now)) }
        ensures { AnswersUnlessMemory result
            (IsReducedBy C.meaning C.rules T.seen (T.seen node.now)) }
    {
        let options = self.clone_options(alloc, options)?;
        reduce_call(alloc, &self.bind(options), node)
    }

    /// The validity of a node, if it is a tree.
    final fn validity<C: ScalarFnRules, T: ReduceTree<C>>(
        &self,
        alloc: Global,
        options: &Self::Options,
        node: &T,
    ) -> VortexResult<ReduceNodeValidity<T>>
        requires { called (T.seen node.now).tree ≡ Some (ours (Self.ships options.now)) }
        ensures { AnswersUnlessMemory result
            (IsValidityBy C.meaning C.rules T.seen (T.seen node.now)) }
    {
        let options = self.clone_options(alloc, options)?;
        validity_call(alloc, &self.bind(options), node)
    }

    /// The simplified call of an expression, if a rule applies.
    final fn simplify<C: ScalarFnRules>(
        &self,
        alloc: Global,
        options: &Self::Options,
        expression: &BoundExpression<C>,
    ) -> VortexResult<Option<BoundExpression<C>>>
        requires { called expression.now ≡ Some (ours (Self.ships options.now)) }
        ensures { AnswersUnlessMemory result
            (IsSimplifiedBy C.meaning C.rules expression.now) }
    {
        let options = self.clone_options(alloc, options)?;
        simplify_call(alloc, &self.bind(options), expression)
    }
}

impl<V: ScalarFnVTableExt> ShippedRules for V {}
