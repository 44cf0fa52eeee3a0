//! Trees of calls over the columns that they hold.
ghost use Rattle.std.specs.Prelude.{◌≡◌, ◌↔◌, IfSome, IsTrue, length};
ghost use Rattle.std.specs.Option.{option_copied};
ghost use Rattle.vortex_functions.specs.Words.{AnswersUnlessMemory, literal, tree_in, rows_in};
ghost use Rattle.vortex_functions.specs.Words.{column_array, column_in};
ghost use Rattle.vortex_functions.specs.ArrayLeaves.{leaf_column};

use crate::tree::leaf::{Leaf, Placeholder};
use crate::tree::{Node, Tree};
use std::alloc::{AllocError, Global};
use std::rc::Rc;
use vortex_columns::{Column, DType, Scalar, VortexResult};
use vortex_interface::ScalarFnVTable;

mod execution;

/// A leaf of an array tree.
#[derive(Drop)]
pub enum ArrayLeaf {
    /// A shared handle of a column.
    Column(Rc<Column>),
    /// The Null column, which replaces a call that was taken apart: no handle, since that would
    /// allocate.
    Nulls(Column),
}

/// A column, or a well-typed call over arrays, all of one row count.
pub type ArrayRef<C> = Tree<C, ArrayLeaf>;

impl<C: ScalarFnVTable> Leaf<C, C::Options> for ArrayLeaf {
    ghost use Rattle.std.specs.Prelude.{refl};
    ghost use Rattle.vortex_interface.specs.ReduceRules.{reduce};
    ghost use Rattle.vortex_functions.specs.Arrays.{tree_in, rows_in, children_in, IsTyped};
    ghost use Rattle.vortex_functions.specs.ArrayLeaves as laws;
    ghost use Rattle.vortex_functions.specs.ArrayLeaves.{array_leaf, StandsAmong};

    type Context = usize;

    type Seen = (Placeholder<C>, usize);

    ghost tree_of = { tree_in };

    ghost context_of = { rows_in };

    ghost see = { λ t n. (t, n) };

    ghost tree_of_see = { λ t n. refl };

    ghost context_of_see = { λ t n. refl };

    ghost see_of = { λ a. refl };

    ghost rule = { reduce C.meaning C.rules };

    ghost seen = { array_leaf };

    ghost fits = { StandsAmong };

    ghost whole = { IsTyped };

    ghost children = { children_in };

    ghost children_are = { λ a. refl };

    ghost whole_call = { laws.typed_call };

    ghost not_called = { laws.not_called C C.Options };

    ghost leaf_settles = { laws.settles C.meaning C.rules };

    fn blank(alloc: Global, context: usize) -> ArrayLeaf {
        ArrayLeaf::Nulls(Column::null(context))
    }

    fn share(&self) -> Result<ArrayLeaf, AllocError> {
        match self {
            ArrayLeaf::Column(column) => Ok(ArrayLeaf::Column(column.clone()?)),
            ArrayLeaf::Nulls(column) => Ok(ArrayLeaf::Nulls(column.clone()?)),
        }
    }

    fn dtype(&self) -> &DType {
        self.column().dtype()
    }
}

impl ArrayLeaf {
    /// The column, borrowed.
    fn column(&self) -> &Column
        ensures { result.now ≡ leaf_column self.now }
    {
        match self {
            ArrayLeaf::Column(column) => &**column,
            ArrayLeaf::Nulls(column) => column,
        }
    }
}

impl<C: ScalarFnVTable> ArrayRef<C> {
    /// The array of a column, with its rows, which are not copied, neither here nor when the array
    /// is copied. E9 where an allocation fails.
    pub fn column(alloc: Global, column: Column) -> VortexResult<ArrayRef<C>>
        ensures { AnswersUnlessMemory result (λ a. a ≡ column_array column) }
    {
        // proves that each row has the type, and that the scalar of a constant column is in each
        let _typed = column.dtype();
        let _told = column.as_constant();
        column.type_invariant();
        let len = column.len();
        Ok(Tree {
            node: Node::Leaf(ArrayLeaf::Column(Rc::new(alloc, column)?)),
            context: len,
        })
    }

    /// How many rows it has.
    pub fn len(&self) -> usize
        ensures { result ≡ rows_in self.now }
    {
        self.context
    }

    /// Whether it has no row.
    pub fn is_empty(&self) -> bool
        ensures { IsTrue result ↔ (rows_in self.now ≡ 0) }
    {
        self.context == 0
    }

    /// The scalar of a constant column; none for any other array.
    pub fn as_constant(&self) -> Option<&Scalar>
        ensures { option_copied result ≡ literal (tree_in self.now) }
    {
        match &self.node {
            Node::Leaf(leaf) => leaf.column().as_constant(),
            Node::Call(_) => None,
        }
    }

    /// The column, borrowed; none for a call.
    pub fn as_column(&self) -> Option<&Column>
        ensures column { option_copied result ≡ column_in self.now }
        ensures rows { IfSome result (λ c. length c.now.rows ≡ rows_in self.now) }
    {
        match &self.node {
            Node::Leaf(leaf) => Some(leaf.column()),
            Node::Call(_) => None,
        }
    }
}
