//! Calls with other children.
ghost use Rattle.std.specs.Prelude.{◌≡◌, ◌<◌, All, IfOk, IsSome, Some, length, map, slice_get};
ghost use Rattle.std.specs.Prelude.{slice_set};
ghost use Rattle.vortex_interface.specs.Places.{with_child};
ghost use Rattle.vortex_functions.specs.Words.{children_of, tree_type, AnswersUnlessMemory};
ghost use Rattle.vortex_rewriting.specs.Places.{with_children};

use std::alloc::Global;
use vortex_columns::VortexResult;
use vortex_functions::{Leaf, Tree};
use vortex_interface::ScalarFnVTable;

/// The same call on other children of its context, on which it is well typed. E9 where an
/// allocation fails.
pub(crate) fn with_children<C: ScalarFnVTable, L: Leaf<C, C::Options>>(
    alloc: Global,
    tree: &Tree<C, L>,
    children: Vec<Tree<C, L>>,
) -> VortexResult<Tree<C, L>>
    requires typed { IsSome (tree_type C.meaning
        (with_children (L.tree_of tree.now) (map L.tree_of children.items))) }
    requires same_rows { All (λ child. L.context_of child ≡ L.context_of tree.now) children.items }
    ensures { AnswersUnlessMemory result (λ made.
        (L.tree_of made ≡ with_children (L.tree_of tree.now) (map L.tree_of children.items))
        × (L.context_of made ≡ L.context_of tree.now)) }
{
    match tree.as_scalar() {
        Some(function) => {
            Tree::try_call(alloc, function.try_clone(alloc)?, children, tree.context())
        }
        None => tree.try_clone(alloc),
    }
}

/// Copies of the children, with that of the index replaced. E9 where an allocation fails.
fn children_with<C: ScalarFnVTable, L: Leaf<C, C::Options>>(
    alloc: Global,
    parent: &Tree<C, L>,
    index: usize,
    child: Tree<C, L>,
) -> VortexResult<Vec<Tree<C, L>>>
    requires is_child { index < length (children_of (L.tree_of parent.now)) }
    requires same_rows { L.context_of child ≡ L.context_of parent.now }
    ensures answer { AnswersUnlessMemory result (λ copies. map L.tree_of copies.items
        ≡ slice_set (children_of (L.tree_of parent.now)) index (L.tree_of child)) }
    ensures same_rows { IfOk result
        (λ copies. All (λ copy. L.context_of copy ≡ L.context_of parent.now) copies.items) }
{
    let mut copies = Vec::new(alloc);
    for old in parent.children() {
        copies.push(old.try_clone(alloc)?)?;
    }
    copies[index] = child;
    Ok(copies)
}

/// A copy of a call with the child of that index replaced by one of its type and row count. E9
/// where an allocation fails.
pub(crate) fn with_child<C: ScalarFnVTable, L: Leaf<C, C::Options>>(
    alloc: Global,
    parent: &Tree<C, L>,
    index: usize,
    child: Tree<C, L>,
) -> VortexResult<Tree<C, L>>
    requires is_child { index < length (children_of (L.tree_of parent.now)) }
    requires same_type { (x : _) → slice_get (children_of (L.tree_of parent.now)) index ≡ Some x
        → tree_type C.meaning (L.tree_of child) ≡ tree_type C.meaning x }
    requires same_rows { L.context_of child ≡ L.context_of parent.now }
    ensures { AnswersUnlessMemory result (λ made.
        (L.tree_of made ≡ with_child (L.tree_of parent.now) index (L.tree_of child))
        × (L.context_of made ≡ L.context_of parent.now)) }
{
    let _typed = parent.dtype();
    let copies = children_with(alloc, parent, index, child)?;
    with_children(alloc, parent, copies)
}
