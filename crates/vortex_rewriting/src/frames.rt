//! The frames of a walk through a tree that rules rewrite.
ghost use Rattle.std.specs.Prelude.{◌≡◌, ◌<◌, ◌≤◌, All, IfOk, IfSome, IsSome, length, map};
ghost use Rattle.std.specs.Option.{option_map};
ghost use Rattle.vortex_functions.specs.Words.{children_of, tree_type, AnswersUnlessMemory};
ghost use Rattle.vortex_rewriting.specs.Frames.{partly, plug, frames_in, AreFrames, HaveRows};
ghost use Rattle.vortex_rewriting.specs.Frames.{IsNext};

use crate::children::with_children;
use std::alloc::Global;
use vortex_columns::VortexResult;
use vortex_functions::{Leaf, Tree};
use vortex_interface::ScalarFnVTable;

/// A node above, and its first children as they are now.
#[derive(Drop)]
pub(crate) struct Opened<T> {
    pub node: T,
    pub done: Vec<T>,
}

/// A copy of the child after those that are done; none if all are.
pub(crate) fn next_child<C: ScalarFnVTable, L: Leaf<C, C::Options>>(
    alloc: Global,
    node: &Tree<C, L>,
    done: &[Tree<C, L>],
) -> VortexResult<Option<Tree<C, L>>>
    ensures answer { AnswersUnlessMemory result
        (λ next. IsNext (L.tree_of node.now) (map L.tree_of done.now) (option_map L.tree_of next)) }
    ensures same_rows { IfOk result
        (λ next. IfSome next (λ child. L.context_of child ≡ L.context_of node.now)) }
{
    if done.len() < node.children().len() {
        Ok(Some(node.child(done.len()).try_clone(alloc)?))
    } else {
        Ok(None)
    }
}

/// The node on its children as they are now, all done. It is rebuilt even if they are unchanged:
/// only a call with one handle can be marked.
pub(crate) fn over_children<C: ScalarFnVTable, L: Leaf<C, C::Options>>(
    alloc: Global,
    node: Tree<C, L>,
    done: Vec<Tree<C, L>>,
) -> VortexResult<Tree<C, L>>
    requires all { length (children_of (L.tree_of node)) ≤ length done.items }
    requires typed { IsSome (tree_type C.meaning
        (partly (L.tree_of node) (map L.tree_of done.items))) }
    requires same_rows { All (λ child. L.context_of child ≡ L.context_of node) done.items }
    ensures { AnswersUnlessMemory result (λ made.
        (L.tree_of made ≡ partly (L.tree_of node) (map L.tree_of done.items))
        × (L.context_of made ≡ L.context_of node)) }
{
    if done.is_empty() {
        return Ok(node);
    }
    with_children(alloc, &node, done)
}

/// The node on its first children as they are now, and the others unchanged.
fn closed<C: ScalarFnVTable, L: Leaf<C, C::Options>>(
    alloc: Global,
    frame: Opened<Tree<C, L>>,
) -> VortexResult<Tree<C, L>>
    requires typed { IsSome (tree_type C.meaning
        (partly (L.tree_of frame.node) (map L.tree_of frame.done.items))) }
    requires same_rows { All (λ child. L.context_of child ≡ L.context_of frame.node)
        frame.done.items }
    ensures { AnswersUnlessMemory result (λ made.
        (L.tree_of made ≡ partly (L.tree_of frame.node) (map L.tree_of frame.done.items))
        × (L.context_of made ≡ L.context_of frame.node)) }
{
    let Opened { node, mut done } = frame;
    while let Some(child) = next_child(alloc, &node, &done)? {
        done.push(child)?;
    }
    over_children(alloc, node, done)
}

/// The whole tree, with that tree below the frames.
pub(crate) fn whole_tree<C: ScalarFnVTable, L: Leaf<C, C::Options>>(
    alloc: Global,
    above: Vec<Opened<Tree<C, L>>>,
    place: Tree<C, L>,
) -> VortexResult<Tree<C, L>>
    requires frames { AreFrames L.rule (frames_in L.tree_of above.items) }
    requires typed { IsSome (tree_type C.meaning
        (plug (frames_in L.tree_of above.items) (L.tree_of place))) }
    requires same_rows { HaveRows L.context_of (L.context_of place) above.items }
    ensures { AnswersUnlessMemory result (λ whole.
        (L.tree_of whole ≡ plug (frames_in L.tree_of above.items) (L.tree_of place))
        × (L.context_of whole ≡ L.context_of place)) }
{
    let mut above = above;
    let mut whole = place;
    while let Some(frame) = above.pop() {
        let mut frame = frame;
        frame.done.push(whole)?;
        whole = closed(alloc, frame)?;
    }
    Ok(whole)
}
