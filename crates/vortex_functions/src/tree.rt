//! Trees of calls over leaves of one kind: expressions and array trees.
ghost use Rattle.std.specs.Prelude.{◌≡◌, ◌<◌, ◌≤◌, ◌+◌, ◌*◌, IsTrue, None, Some, MatchOption};
ghost use Rattle.std.specs.Prelude.{All, IfOk, length, map, min, slice_get};
ghost use Rattle.vortex_functions.specs.Words.{type_of, trees_of, called, tree_type, tree_types};
ghost use Rattle.vortex_functions.specs.Words.{function_of, AnswersUnlessMemory, node_count};
ghost use Rattle.vortex_functions.specs.Words.{children_of};
ghost use Rattle.vortex_functions.specs.Words.{added, weight, weights, weight_told, step};
ghost use Rattle.vortex_functions.specs.Words.{AnswersTreeCall};

use crate::erased::ScalarFnRef;
use std::alloc::{AllocError, Global};
use std::marker::Model;
use std::mem;
use std::rc::Rc;
use vortex_columns::{DType, VortexError, VortexResult};
use vortex_interface::ScalarFnVTable;

mod execution;
pub mod leaf;

pub use leaf::Leaf;

/// The parts of a call.
#[cycle(tree)]
#[derive(Drop)]
pub(crate) struct Parts<C: ScalarFnVTable, L: Leaf<C, C::Options>> {
    pub(crate) function: ScalarFnRef<C>,
    pub(crate) children: Vec<Tree<C, L>>,
    /// The return type of the call.
    dtype: DType,
    /// The weight of the call.
    weight: u64,
    /// If set, no rule applies anywhere in the call.
    settled: bool,
}

#[cycle(tree)]
#[derive(Drop)]
pub(crate) enum Node<C: ScalarFnVTable, L: Leaf<C, C::Options>> {
    Leaf(L),
    /// A shared handle of a call's parts.
    Call(Rc<Parts<C, L>>),
}

/// A well-typed tree of calls over leaves.
#[cycle(tree)]
pub struct Tree<C: ScalarFnVTable, L: Leaf<C, C::Options>> {
    pub(crate) node: Node<C, L>,
    pub(crate) context: L::Context,
}

impl<C: ScalarFnVTable, L: Leaf<C, C::Options>> Model for Tree<C, L> {
    ghost use Rattle.vortex_interface.specs.Trees.{node_count};

    ghost Value = { L.Seen };

    ghost coded = { L.Seen.code };

    ghost use Rattle.vortex_functions.specs.Nodes.{tree_view, node_tree, IsTree};

    ghost view = { tree_view L.tree_of L.see L.seen };

    ghost invariant = { λ a. IsTree L.tree_of L.context_of L.see C.meaning L.rule L.seen L.fits
        L.whole a };

    ghost size = { λ a. node_count (L.tree_of a) };

    ghost use Rattle.vortex_functions.specs.NodeFalls.{deep_le-node_count};

    ghost size_decreases = { λ a h. deep_le-node_count C L C.Options L.Context L.Seen
        C.ScalarFnVTable C.Clone C.Options.Clone C.Options.Debug C.Options.Display
        C.Options.PartialEq C.Options.Hash L.Leaf a.node
        (L.tree_of (tree_view L.tree_of L.see L.seen a))
        (L.tree_of_see (node_tree L.tree_of L.seen a.node) a.context) };
}

/// The last handle of a call drops it with a work list, which is the children's own vector: deep
/// nesting uses no stack, and a chain no memory. If the list cannot grow, one child is dropped
/// recursively.
impl<C: ScalarFnVTable, L: Leaf<C, C::Options>> Drop for Tree<C, L> {
    #[tactic(auto, using(crate::proofs::Counts::nodes_count_push))]
    fn drop(self) {
        let Tree { node, context: _ } = self;
        let mut list = match node {
            // the leaf is named, so it is dropped itself, and not by dropping a node
            Node::Leaf(_leaf) => return,
            Node::Call(parts) => match Rc::into_inner(parts) {
                Some(parts) => parts.children,
                None => return,
            },
        };
        let alloc = *list.allocator();
        while let Some(tree) = list.pop() {
            let mut tree = tree;
            let nothing = L::blank(alloc, tree.context);
            match mem::replace(&mut tree.node, Node::Leaf(nothing)) {
                Node::Leaf(_leaf) => {}
                Node::Call(parts) => {
                    if let Some(parts) = Rc::into_inner(parts) {
                        let mut children = parts.children;
                        while let Some(child) = children.pop() {
                            if let Err(failed) = list.push(child) {
                                drop(failed.value);
                            }
                        }
                    }
                }
            }
        }
    }
}

/// The types of trees.
fn dtypes_of<C: ScalarFnVTable, L: Leaf<C, C::Options>>(
    alloc: Global,
    children: &[Tree<C, L>],
) -> VortexResult<Vec<DType>>
    ensures types { AnswersUnlessMemory result (λ dtypes. tree_types C.meaning
        (trees_of (map L.tree_of children.now)) ≡ Some (map type_of dtypes.items)) }
    ensures whole { IfOk result (λ dtypes. All L.whole children.now) }
{
    let mut dtypes = Vec::new(alloc);
    for child in children {
        dtypes.push(child.dtype().try_clone(alloc)?)?;
    }
    Ok(dtypes)
}

/// The weight of a call that is nullable or not: its children's, and what the function adds,
/// saturated.
fn call_weight<C: ScalarFnVTable, L: Leaf<C, C::Options>>(
    function: &ScalarFnRef<C>,
    children: &[Tree<C, L>],
    nullable: bool,
) -> u64
    ensures { result ≡ min (added (function_of function.now) nullable
        + weights C.meaning (trees_of (map L.tree_of children.now))) 18446744073709551615 }
{
    let mut weight = function.added_weight(nullable);
    for child in children {
        weight = weight.saturating_add(child.weight());
    }
    weight
}

impl<C: ScalarFnVTable, L: Leaf<C, C::Options>> Tree<C, L> {
    /// The call of a function on trees with the same context. E6 exactly if their count does not
    /// fit its arity, then E3 exactly if their types are not accepted.
    pub fn try_call(
        alloc: Global,
        function: ScalarFnRef<C>,
        children: Vec<Tree<C, L>>,
        context: L::Context,
    ) -> VortexResult<Tree<C, L>>
        requires { All (λ child. L.context_of child ≡ context) children.items }
        ensures { AnswersTreeCall L.tree_of L.context_of C.meaning (function_of function)
            children.items context result }
    {
        let arity = function.signature().arity;
        let given = children.len();
        if !arity.matches(given) {
            return Err(VortexError::ArityMismatch { arity, given });
        }
        let dtypes = dtypes_of(alloc, &children)?;
        let dtype = function.return_dtype(alloc, &dtypes)?;
        let weight = call_weight(&function, &children, dtype.is_nullable());
        let parts = Parts {
            function,
            children,
            dtype,
            weight,
            settled: false,
        };
        Ok(Tree {
            node: Node::Call(Rc::new(alloc, parts)?),
            context,
        })
    }

    /// The type of the tree's values. The contents of the tree have values of their types.
    pub fn dtype(&self) -> &DType
        ensures dtype { tree_type C.meaning (L.tree_of self.now) ≡ Some (type_of result.now) }
        ensures typed { L.whole self.now }
    {
        match &self.node {
            Node::Leaf(leaf) => leaf.dtype(),
            Node::Call(parts) => &parts.dtype,
        }
    }

    /// The weight, which rules over shipped functions lower: at most five for each node. Saturated
    /// to 64 bits.
    pub fn weight(&self) -> u64
        ensures told { result ≡ weight_told C.meaning (L.tree_of self.now) }
        ensures bounded { weight C.meaning (L.tree_of self.now)
            ≤ 5 * node_count (L.tree_of self.now) }
    {
        match &self.node {
            Node::Leaf(_) => 1,
            Node::Call(parts) => parts.weight,
        }
    }

    /// Whether the tree is known to be in normal form: no rule applies anywhere in it. Known for a
    /// leaf, and for a call if it, or the call that it was copied from, was marked.
    pub fn is_settled(&self) -> bool
        ensures { IsTrue result → step L.rule (L.tree_of self.now) ≡ None }
    {
        match &self.node {
            Node::Leaf(_) => true,
            Node::Call(parts) => parts.settled,
        }
    }

    /// Marks a tree in normal form, if this is its only handle; else does nothing.
    pub fn mark_settled(&mut self)
        requires { step L.rule (L.tree_of self.old) ≡ None }
        ensures { self.new ≡ self.old }
    {
        if let Node::Call(parts) = &mut self.node {
            if let Some(parts) = Rc::get_mut(parts) {
                parts.settled = true;
            }
        }
    }

    /// The tree's context: its row count, or none.
    pub fn context(&self) -> L::Context
        ensures { result ≡ L.context_of self.now }
    {
        self.context
    }

    /// The children of the root.
    fn below(&self) -> &[Tree<C, L>]
        ensures { result.now ≡ L.children self.now }
    {
        match &self.node {
            Node::Leaf(_) => &[],
            Node::Call(parts) => &parts.children,
        }
    }

    /// The child of that index.
    fn below_at(&self, index: usize) -> &Tree<C, L>
        requires { index < length (L.children self.now) }
        ensures { slice_get (L.children self.now) index ≡ Some result.now }
    {
        &self.below()[index]
    }

    /// The children of a call, in order; a leaf has none.
    pub fn children(&self) -> &[Tree<C, L>]
        ensures children { result.now ≡ L.children self.now }
        ensures trees { map L.tree_of result.now ≡ children_of (L.tree_of self.now) }
        ensures same_rows { All (λ child. L.context_of child ≡ L.context_of self.now) result.now }
    {
        self.below()
    }

    /// The child of that index.
    pub fn child(&self, index: usize) -> &Tree<C, L>
        requires { index < length (L.children self.now) }
        ensures child { slice_get (L.children self.now) index ≡ Some result.now }
        ensures tree { slice_get (children_of (L.tree_of self.now)) index
            ≡ Some (L.tree_of result.now) }
        ensures same_rows { L.context_of result.now ≡ L.context_of self.now }
    {
        self.below_at(index)
    }

    /// The function of a call.
    pub fn as_scalar(&self) -> Option<&ScalarFnRef<C>>
        ensures { MatchOption result (called (L.tree_of self.now) ≡ None)
            (λ f. called (L.tree_of self.now) ≡ Some (function_of f.now)) }
    {
        match &self.node {
            Node::Leaf(_) => None,
            Node::Call(parts) => Some(&parts.function),
        }
    }

    /// A copy that equals its source. For a call it is a handle: it shares the call's parts,
    /// allocates nothing, and fails only where no more handles can be counted.
    pub fn try_clone(&self, _alloc: Global) -> VortexResult<Tree<C, L>>
        ensures { AnswersUnlessMemory result (λ t. t ≡ self.now) }
    {
        Ok(self.clone()?)
    }
}

/// A copy that equals its source, as `try_clone` makes it.
impl<C: ScalarFnVTable, L: Leaf<C, C::Options>> Clone for Tree<C, L> {
    ghost is_clone = { λ tree copy. copy ≡ tree };

    fn clone(&self) -> Result<Tree<C, L>, AllocError> {
        let node = match &self.node {
            Node::Leaf(leaf) => Node::Leaf(leaf.share()?),
            Node::Call(parts) => Node::Call(parts.clone()?),
        };
        Ok(Tree {
            node,
            context: self.context,
        })
    }
}
