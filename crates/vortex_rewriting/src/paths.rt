//! The path down a tree, and up again.
ghost use Rattle.std.specs.Prelude.{◌≡◌, All, IfOk, [], map};
ghost use Rattle.vortex_errors.specs.Answers.{Answers};
ghost use Rattle.vortex_errors.specs.declared.error.VortexError.TheVariants.{NoSuchPlace};
ghost use Rattle.vortex_functions.specs.Words.{tree_type, AnswersUnlessMemory};
ghost use Rattle.vortex_rewriting.specs.Parents.{IsPath, with_parents, LeadsOn, Leaves};

use crate::children::with_child;
use std::alloc::Global;
use vortex_columns::{VortexError, VortexResult};
use vortex_functions::{Leaf, Tree};
use vortex_interface::ScalarFnVTable;

/// A node above, and the number of its child on the path.
#[derive(Drop)]
pub(crate) struct Parent<'t, T> {
    pub node: &'t T,
    pub index: usize,
}

/// The nodes above a place, from the root on, and the node there.
#[derive(Drop)]
pub(crate) struct Way<'t, T> {
    pub parents: Vec<Parent<'t, T>>,
    pub place: &'t T,
}

/// The nodes along a path; deep paths use memory and no stack. E13 if the path leaves the tree,
/// else E9 where an allocation fails.
pub(crate) fn path_down<'t, C: ScalarFnVTable, L: Leaf<C, C::Options>>(
    alloc: Global,
    tree: &'t Tree<C, L>,
    path: &[usize],
) -> VortexResult<Way<'t, Tree<C, L>>>
    ensures answer { Answers result
        (λ way. IsPath (map (λ p. (L.tree_of p.node.now, p.index)) way.parents.items)
        (L.tree_of tree.now) (L.tree_of way.place.now)
        × LeadsOn path.now (L.tree_of tree.now)
        (map (λ p. (L.tree_of p.node.now, p.index)) way.parents.items) [] (L.tree_of way.place.now))
        (λ e. (e ≡ NoSuchPlace) × Leaves path.now (L.tree_of tree.now)) }
    ensures same_rows { IfOk result
        (λ way. All (λ p. L.context_of p.node.now ≡ L.context_of tree.now) way.parents.items
        × (L.context_of way.place.now ≡ L.context_of tree.now)) }
{
    let mut parents = Vec::new(alloc);
    let mut place = tree;
    let mut left = path;
    while let Some((first, rest)) = left.split_first() {
        let index = *first;
        if index >= place.children().len() {
            return Err(VortexError::NoSuchPlace);
        }
        parents.push(Parent { node: place, index })?;
        place = place.child(index);
        left = rest;
    }
    Ok(Way { parents, place })
}

/// The tree with the node at the end of the path replaced by one of its type and row count. E9
/// where an allocation fails.
pub(crate) fn path_up<'t, C: ScalarFnVTable, L: Leaf<C, C::Options>>(
    alloc: Global,
    tree: &Tree<C, L>,
    way: Way<'t, Tree<C, L>>,
    new: Tree<C, L>,
) -> VortexResult<Tree<C, L>>
    requires way { IsPath (map (λ p. (L.tree_of p.node.now, p.index)) way.parents.items)
        (L.tree_of tree.now) (L.tree_of way.place.now) }
    requires same_type { tree_type C.meaning (L.tree_of new)
        ≡ tree_type C.meaning (L.tree_of way.place.now) }
    requires parent_rows { All (λ p. L.context_of p.node.now ≡ L.context_of tree.now)
        way.parents.items }
    requires same_rows { L.context_of new ≡ L.context_of tree.now }
    ensures { AnswersUnlessMemory result (λ made.
        (L.tree_of made ≡ with_parents (map (λ p. (L.tree_of p.node.now, p.index))
        way.entry.parents.items) (L.tree_of new))
        × (L.context_of made ≡ L.context_of tree.now)) }
{
    let mut parents = way.parents;
    let mut made = new;
    while let Some(parent) = parents.pop() {
        made = with_child(alloc, parent.node, parent.index, made)?;
    }
    Ok(made)
}
