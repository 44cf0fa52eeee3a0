//! The interface of leaves for rules and rewriting.
ghost use Rattle.std.specs.Prelude.{◌≡◌, IfSome, Option};
ghost use Rattle.std.specs.Option.{option_copied, option_map};
ghost use Rattle.vortex_interface.specs.Trees.{Tree};
ghost use Rattle.vortex_interface.specs.Weights.{Lightens};
ghost use Rattle.vortex_interface.specs.Rewrites.{IsSound};
ghost use Rattle.vortex_functions.specs.Words.{constant, literal, AnswersUnlessMemory};
ghost use Rattle.vortex_rewriting.specs.LeafValidity.{IsLeafValidity};
ghost use Rattle.vortex_rewriting.specs.Driving.{first_rule};
ghost use Rattle.vortex_rewriting.specs.declared.rule.Rule.{Rule};

use crate::rule::Rule;
use crate::rules::ScalarFnRules;
use std::alloc::Global;
use vortex_columns::{Scalar, VortexResult};
use vortex_functions::tree::{Leaf, Tree};
use vortex_interface::ScalarFnVTable;

/// A kind of leaf over whose trees rules run: of an expression, or of an array tree.
pub trait RuleLeaf<C: ScalarFnVTable>: Leaf<C, C::Options> {
    /// The scalar of a constant; none for any other tree.
    fn as_constant(tree: &Tree<C, Self>) -> Option<&Scalar>
        ensures { option_copied result ≡ literal (Self.tree_of tree.now) };

    /// The constant of that scalar, in that context. E9 where an allocation fails.
    fn new_constant(
        alloc: Global,
        scalar: Scalar,
        context: Self::Context,
    ) -> VortexResult<Tree<C, Self>>
        ensures { AnswersUnlessMemory result (λ made.
            (Self.tree_of made ≡ constant scalar) × (Self.context_of made ≡ context)) };

    /// The validity of a leaf that is no constant, if it is a tree of its context. E9 where an
    /// allocation fails.
    fn leaf_validity(alloc: Global, tree: &Tree<C, Self>) -> VortexResult<Option<Tree<C, Self>>>
        ensures { AnswersUnlessMemory result (λ answer.
            IsLeafValidity C.meaning Self.tree_of (Self.tree_of tree.now) answer
            × IfSome answer (λ made. Self.context_of made ≡ Self.context_of tree.now)) };
}

/// A kind of leaf whose trees are rewritten: rules for one at its root.
pub trait RewriteLeaf<C: ScalarFnRules>: RuleLeaf<C> {
    /// The result of a rule for a tree of this kind at its root.
    ghost applied: { Rule → Tree C C.Options → Option (Tree C C.Options) };

    /// The result of a rule for the tree at its root; None if it does not apply. E9 where an
    /// allocation fails.
    fn apply(alloc: Global, tree: &Tree<C, Self>, rule: Rule) -> VortexResult<Option<Tree<C, Self>>>
        ensures { AnswersUnlessMemory result (λ answer.
            (option_map Self.tree_of answer ≡ applied rule (Self.tree_of tree.now))
            × IfSome answer (λ made. Self.context_of made ≡ Self.context_of tree.now)) };

    /// The rule that marks are about is the driver's.
    ghost rule_is: { Self.Leaf.rule ≡ first_rule applied };

    ghost sound: { (rule : Rule) → IsSound C.meaning (applied rule) };

    ghost lightens: { (rule : Rule) → Lightens C.meaning (applied rule) };
}
