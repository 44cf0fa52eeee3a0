//! Nodes over trees of either kind.
ghost use Rattle.std.specs.Prelude.{◌≡◌, All, IsOk, map};
ghost use Rattle.std.specs.Cow.{cow_value, IsBorrowed, IsOwned};
ghost use Rattle.vortex_functions.specs.Words.{function_of, AnswersUnlessMemory};
ghost use Rattle.vortex_functions.specs.Words.{AnswersTreeCall};
ghost use Rattle.vortex_rewriting.specs.Contexts.{in_context};

use crate::dispatch::validity_call;
use crate::leaf::RuleLeaf;
use crate::node::{ReduceNodeValidity, ReduceTree};
use crate::rules::{ReduceNode, ScalarFnRules};
use std::alloc::Global;
use std::borrow::Cow;
use vortex_columns::{DType, Nullability, Scalar, VortexResult};
use vortex_functions::tree::{Leaf, Tree};
use vortex_functions::{ArrayRef, BoundExpression, ScalarFnRef};
use vortex_interface::ScalarFnVTable;

/// A node that represents a tree, borrowed or owned. Walking a borrowed one copies nothing.
pub struct TreeReduceNode<'a, T: Drop> {
    tree: Cow<'a, T>,
}

/// A node over an expression.
pub type ExpressionReduceNode<'a, C> = TreeReduceNode<'a, BoundExpression<C>>;

/// A node over an array tree.
pub type ArrayReduceNode<'a, C> = TreeReduceNode<'a, ArrayRef<C>>;

impl<'a, T: Drop> Drop for TreeReduceNode<'a, T> {
    fn drop(self) {
        let TreeReduceNode { tree } = self;
        match tree {
            Cow::Borrowed(_) => {}
            Cow::Owned(tree) => drop(tree),
        }
    }
}

impl<'a, T: Drop> TreeReduceNode<'a, T> {
    /// The node of a tree.
    pub fn new(tree: Cow<'a, T>) -> Self
        ensures value { cow_value result.tree ≡ cow_value tree.entry }
        ensures borrowed { IsBorrowed tree.entry → IsBorrowed result.tree }
        ensures owned { IsOwned tree.entry → IsOwned result.tree }
    {
        TreeReduceNode { tree }
    }

    /// The tree of the node.
    pub fn tree(&self) -> &T
        ensures { result.now ≡ cow_value self.now.tree }
    {
        match &self.tree {
            Cow::Borrowed(tree) => *tree,
            Cow::Owned(tree) => tree,
        }
    }

    /// The same by value, borrowed or owned.
    fn into_cow(self) -> Cow<'a, T>
        ensures { result ≡ self.entry.tree }
    {
        let TreeReduceNode { tree } = self;
        tree
    }
}

impl<'a, C: ScalarFnVTable> TreeReduceNode<'a, BoundExpression<C>> {
    /// The expression of the node.
    pub fn expression(&self) -> &BoundExpression<C>
        ensures { result.now ≡ cow_value self.now.tree }
    {
        self.tree()
    }

    /// The expression of the node. A borrowed one is copied, so E9 is possible; an owned one
    /// allocates nothing.
    pub fn into_expression(self, alloc: Global) -> VortexResult<BoundExpression<C>>
        ensures answer { AnswersUnlessMemory result (λ e. e ≡ cow_value self.entry.tree) }
        ensures owned { IsOwned self.entry.tree → IsOk result }
    {
        into_tree(alloc, self)
    }
}

impl<'a, C: ScalarFnVTable> TreeReduceNode<'a, ArrayRef<C>> {
    /// The array tree of the node.
    pub fn array(&self) -> &ArrayRef<C>
        ensures { result.now ≡ cow_value self.now.tree }
    {
        self.tree()
    }

    /// The array tree of the node. A borrowed one is copied, so E9 is possible; an owned one
    /// allocates nothing.
    pub fn into_array(self, alloc: Global) -> VortexResult<ArrayRef<C>>
        ensures answer { AnswersUnlessMemory result (λ a. a ≡ cow_value self.entry.tree) }
        ensures owned { IsOwned self.entry.tree → IsOk result }
    {
        into_tree(alloc, self)
    }
}

/// The tree of a node, copied if it is borrowed.
pub(crate) fn into_tree<'a, C: ScalarFnVTable, L: Leaf<C, C::Options>>(
    alloc: Global,
    node: TreeReduceNode<'a, Tree<C, L>>,
) -> VortexResult<Tree<C, L>>
    ensures answer { AnswersUnlessMemory result (λ t. t ≡ cow_value node.entry.tree) }
    ensures owned { IsOwned node.entry.tree → IsOk result }
{
    match node.into_cow() {
        Cow::Borrowed(tree) => tree.try_clone(alloc),
        Cow::Owned(tree) => Ok(tree),
    }
}

/// Copies of the trees of nodes.
fn copies_of<'a, C: ScalarFnVTable, L: Leaf<C, C::Options>>(
    alloc: Global,
    nodes: &[TreeReduceNode<'a, Tree<C, L>>],
) -> VortexResult<Vec<Tree<C, L>>>
    ensures { AnswersUnlessMemory result
        (λ copies. copies.items ≡ map (λ n. cow_value n.tree) nodes.now) }
{
    let mut copies = Vec::new(alloc);
    for node in nodes {
        copies.push(node.tree().try_clone(alloc)?)?;
    }
    Ok(copies)
}

impl<'a, C: ScalarFnVTable, L: RuleLeaf<C>> ReduceTree<C> for TreeReduceNode<'a, Tree<C, L>> {
    type Context = L::Context;

    ghost seen = { λ n. in_context L.tree_of L.context_of (cow_value n.tree) };

    ghost borrowed = { λ n. IsBorrowed n.tree };

    fn node_dtype(&self) -> &DType {
        self.tree().dtype()
    }

    fn scalar_fn(&self) -> Option<&ScalarFnRef<C>> {
        self.tree().as_scalar()
    }

    fn child_count(&self) -> usize {
        self.tree().children().len()
    }

    fn child(&self, alloc: Global, index: usize) -> VortexResult<Self> {
        match &self.tree {
            Cow::Borrowed(tree) => {
                let tree: &'a Tree<C, L> = *tree;
                Ok(TreeReduceNode {
                    tree: Cow::Borrowed(tree.child(index)),
                })
            }
            Cow::Owned(tree) => Ok(TreeReduceNode {
                tree: Cow::Owned(tree.child(index).try_clone(alloc)?),
            }),
        }
    }

    fn new_node(
        &self,
        alloc: Global,
        function: ScalarFnRef<C>,
        children: &[Self],
    ) -> VortexResult<Self>
        requires { All (λ child. L.context_of (cow_value child.tree)
            ≡ L.context_of (cow_value self.now.tree)) children.now }
        ensures { AnswersTreeCall (λ n. L.tree_of (cow_value n.tree))
            (λ n. L.context_of (cow_value n.tree)) C.meaning (function_of function) children.now
            (L.context_of (cow_value self.now.tree)) result }
    {
        let copies = copies_of(alloc, children)?;
        let call = Tree::try_call(alloc, function, copies, self.tree().context())?;
        Ok(TreeReduceNode {
            tree: Cow::Owned(call),
        })
    }

    fn as_constant(&self) -> Option<&Scalar> {
        L::as_constant(self.tree())
    }

    fn new_constant(&self, alloc: Global, scalar: Scalar) -> VortexResult<Self> {
        let constant = L::new_constant(alloc, scalar, self.tree().context())?;
        Ok(TreeReduceNode {
            tree: Cow::Owned(constant),
        })
    }
}

impl<'a, C: ScalarFnRules, L: RuleLeaf<C>> ReduceNode<C> for TreeReduceNode<'a, Tree<C, L>> {
    fn validity(&self, alloc: Global) -> VortexResult<ReduceNodeValidity<Self>> {
        if let Some(scalar) = self.as_constant() {
            let valid = Scalar::bool(!scalar.is_null(), Nullability::NonNullable);
            let node = self.new_constant(alloc, valid)?;
            return Ok(ReduceNodeValidity::Reduced(node));
        }
        if let Some(function) = self.scalar_fn() {
            return validity_call(alloc, function, self);
        }
        match L::leaf_validity(alloc, self.tree())? {
            Some(valid) => Ok(ReduceNodeValidity::Reduced(TreeReduceNode {
                tree: Cow::Owned(valid),
            })),
            None => Ok(ReduceNodeValidity::Irreducible),
        }
    }
}
