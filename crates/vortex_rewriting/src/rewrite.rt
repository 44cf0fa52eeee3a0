//! Rewriting, as methods of trees of either kind.
ghost use Rattle.std.specs.Prelude.{◌≡◌, ◌<◌, ◌≤◌, ◌↔◌, IfOk, IfSome, IsTrue, None, Option, Some};
ghost use Rattle.std.specs.Prelude.{false};
ghost use Rattle.vortex_interface.specs.Trees.{Tree};
ghost use Rattle.vortex_rewriting.specs.declared.rule.Rule.{Rule};
ghost use Rattle.vortex_errors.specs.Answers.{Answers};
ghost use Rattle.vortex_errors.specs.declared.error.VortexError.TheVariants.{NoSuchPlace};
ghost use Rattle.vortex_interface.specs.Places.{rewritten_list};
ghost use Rattle.vortex_interface.specs.Rewrites.{Rewrites};
ghost use Rattle.vortex_interface.specs.Weights.{weight, OnlyShipped, IsLighter};
ghost use Rattle.vortex_interface.specs.Driver.{step, Runs};
ghost use Rattle.vortex_functions.specs.Words.{AnswersUnlessMemory};
ghost use Rattle.vortex_rewriting.specs.Driving.{first_rule};
ghost use Rattle.vortex_rewriting.specs.Rewriting.{AnswersRewritten, steps_of};

use crate::driver::{Optimized, take_steps};
use crate::leaf::RewriteLeaf;
use crate::places::{Rewritten, made_at, made_by};
use crate::rule::Rule;
use crate::rules::ScalarFnRules;
use std::alloc::Global;
use vortex_columns::VortexResult;
use vortex_functions::Tree;

/// Rewriting, as methods of every tree that is rewritten.
pub trait Rewrite<C: ScalarFnRules>: Sized + Drop {
    /// The context of a tree: its row count, or none.
    type Context;

    /// The tree.
    ghost tree: { Self → Tree C C.Options };

    /// Its context.
    ghost rows: { Self → Self.Context };

    /// The result of a rule for a tree of this kind at its root.
    ghost applied: { Rule → Tree C C.Options → Option (Tree C C.Options) };

    /// The rule's result for the tree at the place of the path of child numbers, everything else
    /// unchanged; None if the rule does not apply there. E13 if the path leaves the tree, else E9
    /// where an allocation fails.
    fn rewrite_at(&self, alloc: Global, path: &[usize], rule: Rule) -> VortexResult<Option<Self>>
        ensures answer { AnswersRewritten tree (applied rule) path.now
            (tree self.now) result }
        ensures kept { IfOk result (λ answer. IfSome answer
            (λ made. Rewrites C.meaning (tree self.now) (tree made))) }
        ensures lighter { IfOk result (λ answer. IfSome answer
            (λ made. OnlyShipped (tree self.now)
            → IsLighter C.meaning 1 (tree self.now) (tree made))) }
        ensures fewer { IfOk result (λ answer. IfSome answer
            (λ made. OnlyShipped (tree self.now)
            → 1 < weight C.meaning (tree self.now))) }
        ensures same_rows { IfOk result
            (λ answer. IfSome answer (λ made. rows made ≡ rows self.now)) };

    /// The tree after rules at places, one after another: each step, a path of child numbers and a
    /// rule, is applied to the tree that the steps before it left. A step whose rule does not apply
    /// changes nothing, and is not counted. E13 if the path of a step leaves the tree, else E9
    /// where an allocation fails.
    fn rewrite_list(
        &self,
        alloc: Global,
        steps: &[(&[usize], Rule)],
    ) -> VortexResult<Rewritten<Self>>
        ensures answer { Answers result
            (λ made. rewritten_list applied (steps_of steps.now) (tree self.now)
            ≡ Some (tree made.tree, made.applied))
            (λ e. (e ≡ NoSuchPlace)
            × (rewritten_list applied (steps_of steps.now) (tree self.now) ≡ None)) }
        ensures kept { IfOk result
            (λ made. Rewrites C.meaning (tree self.now) (tree made.tree)) }
        ensures lighter { IfOk result (λ made. OnlyShipped (tree self.now)
            → IsLighter C.meaning made.applied (tree self.now) (tree made.tree)) }
        ensures fewer { IfOk result (λ made. OnlyShipped (tree self.now)
            → made.applied < weight C.meaning (tree self.now)) }
        ensures same_rows { IfOk result (λ made. rows made.tree ≡ rows self.now) };

    /// A run of steps: each rewrites the first place, children from left to right before their
    /// parent, where a rule applies, by Simplify before Reduce. It stops where no rule applies
    /// anywhere, or after `limit` steps; a tree of only shipped functions needs fewer than its
    /// weight. E9 where an allocation fails.
    fn optimize_recursive(&self, alloc: Global, limit: u64) -> VortexResult<Optimized<Self>>
        ensures run { AnswersUnlessMemory result (λ o.
            Runs (first_rule applied) o.steps (tree self.now) (tree o.tree)) }
        ensures kept { IfOk result
            (λ o. Rewrites C.meaning (tree self.now) (tree o.tree)) }
        ensures limited { IfOk result (λ o. o.steps ≤ limit) }
        ensures done { IfOk result
            (λ o. IsTrue o.done ↔ (step (first_rule applied) (tree o.tree) ≡ None)) }
        ensures stopped { IfOk result (λ o. o.done ≡ false → o.steps ≡ limit) }
        ensures lighter { IfOk result (λ o. OnlyShipped (tree self.now)
            → IsLighter C.meaning o.steps (tree self.now) (tree o.tree)) }
        ensures fewer { IfOk result (λ o. OnlyShipped (tree self.now)
            → o.steps < weight C.meaning (tree self.now)) }
        ensures ends { IfOk result (λ o. OnlyShipped (tree self.now)
            → weight C.meaning (tree self.now) ≤ limit → IsTrue o.done) }
        ensures same_rows { IfOk result (λ o. rows o.tree ≡ rows self.now) };
}

impl<C: ScalarFnRules, L: RewriteLeaf<C>> Rewrite<C> for Tree<C, L> {
    type Context = L::Context;

    ghost tree = { L.tree_of };

    ghost rows = { L.context_of };

    ghost applied = { L.applied };

    fn rewrite_at(
        &self,
        alloc: Global,
        path: &[usize],
        rule: Rule,
    ) -> VortexResult<Option<Tree<C, L>>> {
        let _typed = self.dtype();
        made_at(alloc, self, path, rule)
    }

    fn rewrite_list(
        &self,
        alloc: Global,
        steps: &[(&[usize], Rule)],
    ) -> VortexResult<Rewritten<Tree<C, L>>> {
        let _typed = self.dtype();
        let made = made_by(alloc, self, steps)?;
        Ok(made)
    }

    fn optimize_recursive(&self, alloc: Global, limit: u64) -> VortexResult<Optimized<Tree<C, L>>> {
        let _typed = self.dtype();
        let optimized = take_steps(alloc, self, limit)?;
        Ok(optimized)
    }
}
