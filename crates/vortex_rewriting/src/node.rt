//! Nodes that rules run over: each represents a tree.
ghost use Rattle.std.specs.Prelude.{◌≡◌, ◌<◌, All, IsOkAnd, MatchOption, None, Some};
ghost use Rattle.std.specs.Prelude.{length, slice_get};
ghost use Rattle.std.specs.Option.{option_copied};
ghost use Rattle.vortex_functions.specs.Words.{type_of, constant, children_of, called, literal};
ghost use Rattle.vortex_functions.specs.Words.{tree_type, function_of, AnswersUnlessMemory};
ghost use Rattle.vortex_functions.specs.Words.{AnswersTreeCall};
ghost use Rattle.vortex_rewriting.specs.Contexts.{InContext, with_tree};

use std::alloc::Global;
use vortex_columns::{DType, Scalar, VortexResult};
use vortex_functions::ScalarFnRef;
use vortex_interface::ScalarFnVTable;

/// The validity of a node.
#[derive(Drop)]
pub enum ReduceNodeValidity<T> {
    /// A tree of non-nullable Bool that is true where the node is not null.
    Reduced(T),
    /// There is no such tree.
    Irreducible,
}

/// A node that represents one well-typed tree, over a caller's functions `C`.
///
/// A rule written over it works for every kind of tree; its result is a node of the same kind.
pub trait ReduceTree<C: ScalarFnVTable>: Sized + Drop {
    /// The context of a tree: the row count of an array tree, none for an expression.
    type Context;

    /// The tree of the node, in its context.
    ghost seen: { Self → InContext C C.Options Self.Context };

    /// The tree is borrowed, so walking down allocates nothing.
    ghost borrowed: { Self → Type 0 };

    /// The type of the tree's values.
    fn node_dtype(&self) -> &DType
        ensures { tree_type C.meaning (seen self.now).tree ≡ Some (type_of result.now) };

    /// The function of a call; none for any other tree.
    fn scalar_fn(&self) -> Option<&ScalarFnRef<C>>
        ensures { MatchOption result
            (called (seen self.now).tree ≡ None)
            (λ f. called (seen self.now).tree ≡ Some (function_of f.now)) };

    /// How many children a call has; 0 for any other tree.
    fn child_count(&self) -> usize
        ensures { result ≡ length (children_of (seen self.now).tree) };

    /// The child of that index, in the same context. E9 where an allocation fails, and only if the
    /// node is no borrowed tree.
    fn child(&self, alloc: Global, index: usize) -> VortexResult<Self>
        requires { index < length (children_of (seen self.now).tree) }
        ensures answer { AnswersUnlessMemory result
            (λ node. (slice_get (children_of (seen self.now).tree) index ≡ Some (seen node).tree)
            × ((seen node).context ≡ (seen self.now).context)) }
        ensures borrowed { borrowed self.now → IsOkAnd result borrowed };

    /// The call of a function on nodes of the same context. E6 exactly if their count does not fit
    /// its arity, then E3 exactly if their types are not accepted.
    fn new_node(
        &self,
        alloc: Global,
        function: ScalarFnRef<C>,
        children: &[Self],
    ) -> VortexResult<Self>
        requires { All (λ child. (seen child).context ≡ (seen self.now).context) children.now }
        ensures { AnswersTreeCall (λ n. (seen n).tree) (λ n. (seen n).context) C.meaning
            (function_of function) children.now (seen self.now).context result };

    /// The scalar of a constant; none for any other tree.
    fn as_constant(&self) -> Option<&Scalar>
        ensures { option_copied result ≡ literal (seen self.now).tree };

    /// The constant of that scalar, in the same context. E9 where an allocation fails.
    fn new_constant(&self, alloc: Global, scalar: Scalar) -> VortexResult<Self>
        ensures { AnswersUnlessMemory result
            (λ node. seen node ≡ with_tree (seen self.now) (constant scalar)) };
}
