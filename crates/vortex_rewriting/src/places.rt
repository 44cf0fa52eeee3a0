//! A rule at a place of a tree, and a list of them.
ghost use Rattle.std.specs.Prelude.{◌≡◌, IfOk, IfSome, None, Some};
ghost use Rattle.vortex_errors.specs.Answers.{Answers};
ghost use Rattle.vortex_errors.specs.declared.error.VortexError.TheVariants.{NoSuchPlace};
ghost use Rattle.vortex_interface.specs.Places.{rewritten_list};
ghost use Rattle.vortex_rewriting.specs.Rewriting.{AnswersRewritten, steps_of};

use crate::leaf::RewriteLeaf;
use crate::paths::{path_down, path_up};
use crate::rule::Rule;
use crate::rules::ScalarFnRules;
use std::alloc::Global;
use vortex_columns::VortexResult;
use vortex_functions::Tree;

/// The rule's result for the tree at the place of the path, everything else unchanged. E13 if the
/// path leaves the tree, else E9 where an allocation fails.
pub(crate) fn made_at<C: ScalarFnRules, L: RewriteLeaf<C>>(
    alloc: Global,
    tree: &Tree<C, L>,
    path: &[usize],
    rule: Rule,
) -> VortexResult<Option<Tree<C, L>>>
    ensures answer { AnswersRewritten L.tree_of (L.applied rule) path.now (L.tree_of tree.now)
        result }
    ensures same_rows { IfOk result
        (λ answer. IfSome answer (λ made. L.context_of made ≡ L.context_of tree.now)) }
{
    let way = path_down(alloc, tree, path)?;
    // the rule's result has the old type, since the tree there is well typed
    let _typed = way.place.dtype();
    match L::apply(alloc, way.place, rule)? {
        None => Ok(None),
        Some(new) => {
            let made = path_up(alloc, tree, way, new)?;
            Ok(Some(made))
        }
    }
}

/// A tree after rules, and how many of them applied.
#[derive(Drop)]
pub struct Rewritten<T> {
    pub tree: T,
    pub applied: usize,
}

/// The tree after rules at places, one after another, and how many of them applied. E13 if the path
/// of a step leaves the tree, else E9 where an allocation fails.
pub(crate) fn made_by<C: ScalarFnRules, L: RewriteLeaf<C>>(
    alloc: Global,
    tree: &Tree<C, L>,
    steps: &[(&[usize], Rule)],
) -> VortexResult<Rewritten<Tree<C, L>>>
    ensures answer { Answers result
        (λ made. rewritten_list L.applied (steps_of steps.now) (L.tree_of tree.now)
        ≡ Some (L.tree_of made.tree, made.applied))
        (λ e. (e ≡ NoSuchPlace)
        × (rewritten_list L.applied (steps_of steps.now) (L.tree_of tree.now) ≡ None)) }
    ensures same_rows { IfOk result (λ made. L.context_of made.tree ≡ L.context_of tree.now) }
{
    let mut last = tree.try_clone(alloc)?;
    let mut applied = 0;
    for step in steps {
        let (path, rule) = *step;
        if let Some(new) = made_at(alloc, &last, path, rule)? {
            last = new;
            applied += 1;
        }
    }
    Ok(Rewritten {
        tree: last,
        applied,
    })
}
