//! The rules of callers' functions, and nodes that know their validity.
ghost use Rattle.std.specs.Prelude.{◌≡◌, Some};
ghost use Rattle.vortex_interface.specs.Functions.{custom};
ghost use Rattle.vortex_interface.specs.Rewrites.{LawfulRules};
ghost use Rattle.vortex_functions.specs.Words.{called, AnswersUnlessMemory};
ghost use Rattle.vortex_rewriting.specs.Identities.{IsOwnIdentity};
ghost use Rattle.vortex_rewriting.specs.Reduced.{IsReducedBy, IsSimplifiedBy, IsValidityBy};

use crate::node::{ReduceNodeValidity, ReduceTree};
use std::alloc::Global;
use vortex_columns::VortexResult;
use vortex_functions::BoundExpression;
use vortex_interface::ScalarFnVTable;

/// The rules of a caller's function.
///
/// Their meaning is the ghost member `rules` of the interface, over trees as values; the calls
/// return what it gives for the tree of a node, and fail only where memory runs out. The member is
/// lawful: a rewritten call has its type and its values, and its validity is true where it is not
/// null. A function without rules returns `Ok(None)`, and `default_validity`.
pub trait ScalarFnRules: ScalarFnVTable {
    /// The reduced call of this function with these options, if a rule applies.
    fn reduce<T: ReduceTree<Self>>(
        &self,
        alloc: Global,
        options: &Self::Options,
        node: &T,
    ) -> VortexResult<Option<T>>
        requires { called (T.seen node.now).tree ≡ Some (custom self.now options.now) }
        ensures { AnswersUnlessMemory result
            (IsReducedBy Self.meaning Self.rules T.seen (T.seen node.now)) };

    /// The validity of such a call, if it is a tree.
    fn validity<T: ReduceTree<Self>>(
        &self,
        alloc: Global,
        options: &Self::Options,
        node: &T,
    ) -> VortexResult<ReduceNodeValidity<T>>
        requires { called (T.seen node.now).tree ≡ Some (custom self.now options.now) }
        ensures { AnswersUnlessMemory result
            (IsValidityBy Self.meaning Self.rules T.seen (T.seen node.now)) };

    /// The simplified call of an expression, if a rule applies.
    fn simplify(
        &self,
        alloc: Global,
        options: &Self::Options,
        expression: &BoundExpression<Self>,
    ) -> VortexResult<Option<BoundExpression<Self>>>
        requires { called expression.now ≡ Some (custom self.now options.now) }
        ensures { AnswersUnlessMemory result
            (IsSimplifiedBy Self.meaning Self.rules expression.now) };

    ghost rules_lawful: { LawfulRules Self.meaning Self.rules };

    ghost own_identity: { (f : Self) → IsOwnIdentity (Self.meaning.id f) };
}

/// A node that also knows its validity.
pub trait ReduceNode<C: ScalarFnRules>: ReduceTree<C> {
    /// The node's validity, if it is a tree. E9 where an allocation fails.
    fn validity(&self, alloc: Global) -> VortexResult<ReduceNodeValidity<Self>>
        ensures { AnswersUnlessMemory result
            (IsValidityBy C.meaning C.rules Self.seen (Self.seen self.now)) };
}
