//! The driver: rules at the first place where one applies, repeatedly.
ghost use Rattle.std.specs.Prelude.{◌≡◌, ◌≤◌, ◌↔◌, IfOk, IfSome, IsSome, IsTrue, None, false};
ghost use Rattle.std.specs.Option.{option_map};
ghost use Rattle.vortex_interface.specs.Driver.{step, Runs};
ghost use Rattle.vortex_functions.specs.Words.{tree_type, AnswersUnlessMemory};
ghost use Rattle.vortex_rewriting.specs.Frames.{plug, frames_in, AreFrames, HaveRows};
ghost use Rattle.vortex_rewriting.specs.FoundRewrite.{IsFound, FoundHasRows};

use crate::frames::{Opened, next_child, over_children, whole_tree};
use crate::leaf::RewriteLeaf;
use crate::rule::Rule;
use crate::rules::ScalarFnRules;
use std::alloc::Global;
use vortex_columns::VortexResult;
use vortex_functions::Tree;

/// The result of Simplify for the tree at its root, or else that of Reduce.
fn apply_first<C: ScalarFnRules, L: RewriteLeaf<C>>(
    alloc: Global,
    tree: &Tree<C, L>,
) -> VortexResult<Option<Tree<C, L>>>
    ensures { AnswersUnlessMemory result (λ answer.
        (option_map L.tree_of answer ≡ L.rule (L.tree_of tree.now))
        × IfSome answer (λ made. L.context_of made ≡ L.context_of tree.now)) }
{
    match L::apply(alloc, tree, Rule::Simplify)? {
        Some(made) => Ok(Some(made)),
        None => L::apply(alloc, tree, Rule::Reduce),
    }
}

/// The result of a search for the next place.
#[derive(Drop)]
enum FoundRewrite<T> {
    /// There is none, and this is the whole tree.
    Settled(T),
    /// The frames above the place, the tree there, and the rule's result for it.
    Place(Vec<Opened<T>>, T, T),
}

/// Continues from a tree below frames to the next place where a rule applies. Marks trees in normal
/// form on the path, and skips marked ones.
fn seek<C: ScalarFnRules, L: RewriteLeaf<C>>(
    alloc: Global,
    above: Vec<Opened<Tree<C, L>>>,
    node: Tree<C, L>,
) -> VortexResult<FoundRewrite<Tree<C, L>>>
    requires frames { AreFrames L.rule (frames_in L.tree_of above.items) }
    requires typed { IsSome (tree_type C.meaning
        (plug (frames_in L.tree_of above.items) (L.tree_of node))) }
    requires same_rows { HaveRows L.context_of (L.context_of node) above.items }
    ensures answer { AnswersUnlessMemory result (IsFound L.rule L.tree_of
        (plug (frames_in L.tree_of above.items) (L.tree_of node))) }
    ensures same_rows { IfOk result (FoundHasRows L.context_of (L.context_of node)) }
{
    let mut above = above;
    let mut node = node;
    let mut done = Vec::new(alloc);
    loop {
        match next_child(alloc, &node, &done)? {
            Some(child) => {
                if child.is_settled() {
                    done.push(child)?;
                } else {
                    above.push(Opened { node, done })?;
                    node = child;
                    done = Vec::new(alloc);
                }
            }
            None => {
                let mut whole = over_children(alloc, node, done)?;
                if let Some(made) = apply_first(alloc, &whole)? {
                    return Ok(FoundRewrite::Place(above, whole, made));
                }
                whole.mark_settled();
                let Some(parent) = above.pop() else {
                    return Ok(FoundRewrite::Settled(whole));
                };
                node = parent.node;
                done = parent.done;
                done.push(whole)?;
            }
        }
    }
}

/// A tree after a run of steps.
#[derive(Drop)]
pub struct Optimized<T: Drop> {
    /// The last tree of the run.
    pub tree: T,
    /// How many steps it took.
    pub steps: u64,
    /// Whether no rule applies anywhere in it.
    pub done: bool,
}

/// At most `limit` steps from a tree. After a step it continues within the rule's result. E9 where
/// an allocation fails.
pub(crate) fn take_steps<C: ScalarFnRules, L: RewriteLeaf<C>>(
    alloc: Global,
    tree: &Tree<C, L>,
    limit: u64,
) -> VortexResult<Optimized<Tree<C, L>>>
    ensures run { AnswersUnlessMemory result
        (λ o. Runs L.rule o.steps (L.tree_of tree.now) (L.tree_of o.tree)) }
    ensures limited { IfOk result (λ o. o.steps ≤ limit) }
    ensures done { IfOk result
        (λ o. IsTrue o.done ↔ (step L.rule (L.tree_of o.tree) ≡ None)) }
    ensures stopped { IfOk result (λ o. o.done ≡ false → o.steps ≡ limit) }
    ensures same_rows { IfOk result (λ o. L.context_of o.tree ≡ L.context_of tree.now) }
{
    let _typed = tree.dtype();
    let mut above = Vec::new(alloc);
    let mut place = tree.try_clone(alloc)?;
    let mut steps = 0;
    loop {
        match seek(alloc, above, place)? {
            FoundRewrite::Settled(tree) => {
                return Ok(Optimized {
                    tree,
                    steps,
                    done: true,
                });
            }
            FoundRewrite::Place(frames, old, made) => {
                if steps == limit {
                    return Ok(Optimized {
                        tree: whole_tree(alloc, frames, old)?,
                        steps,
                        done: false,
                    });
                }
                above = frames;
                place = made;
                steps += 1;
            }
        }
    }
}
