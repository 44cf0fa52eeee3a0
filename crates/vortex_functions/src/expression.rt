//! Expression trees over the columns of a scope.
ghost use Rattle.std.specs.Prelude.{◌≡◌, ◌<◌, MatchOption};
ghost use Rattle.std.specs.Option.{option_copied};
ghost use Rattle.vortex_functions.specs.Words.{struct_fields, constant, literal};
ghost use Rattle.vortex_functions.specs.Words.{function_of, AnswersUnlessMemory, AnswersLeaf};
ghost use Rattle.vortex_functions.specs.Words.{AnswersBinding, IsLeaf, IsLeafAt, field_count};
ghost use Rattle.vortex_functions.specs.Words.{field_leaf, IsBound};

use crate::erased::ScalarFnRef;
use crate::tree::leaf::{Leaf, Placeholder};
use crate::tree::{Node, Tree};
use std::alloc::{AllocError, Global};
use vortex_columns::{DType, Nullability, Scalar, StructFields, VortexError, VortexResult};
use vortex_interface::ScalarFnVTable;

mod execution;
mod text;

/// A leaf of an expression.
#[derive(Drop)]
pub enum ExpressionLeaf {
    /// A column's place in the scope, its name and its type.
    Column(usize, String, DType),
    /// A value, and the allocator for its text.
    Literal(Scalar, Global),
}

/// A well-typed tree of calls over column leaves and literals.
pub type BoundExpression<C> = Tree<C, ExpressionLeaf>;

impl<C: ScalarFnVTable> Leaf<C, C::Options> for ExpressionLeaf {
    ghost use Rattle.std.specs.Prelude.{refl, ⊤};
    ghost use Rattle.vortex_interface.specs.Trees.{children_of};
    ghost use Rattle.vortex_interface.specs.Driver.{simplify_or_reduce};
    ghost use Rattle.vortex_interface.specs.Made.{IsBound};
    ghost use Rattle.vortex_functions.specs.ExpressionLeaves as laws;
    ghost use Rattle.vortex_functions.specs.ExpressionLeaves.{expression_leaf};

    type Context = ();

    type Seen = Placeholder<C>;

    ghost tree_of = { λ t. t };

    ghost context_of = { λ t. tt };

    ghost see = { λ t b. t };

    ghost tree_of_see = { λ t b. refl };

    ghost context_of_see = { λ t b. refl };

    ghost see_of = { λ t. refl };

    ghost rule = { simplify_or_reduce C.meaning C.rules };

    ghost seen = { expression_leaf };

    ghost fits = { λ b l. ⊤ };

    ghost whole = { IsBound };

    ghost children = { children_of };

    ghost children_are = { laws.children_are };

    ghost whole_call = { λ f b xs h k. laws.bound_call f xs h };

    ghost not_called = { laws.not_called C C.Options };

    ghost leaf_settles = { laws.settles C.meaning C.rules };

    fn blank(alloc: Global, context: ()) -> ExpressionLeaf {
        ExpressionLeaf::Literal(Scalar::bool(false, Nullability::NonNullable), alloc)
    }

    fn share(&self) -> Result<ExpressionLeaf, AllocError> {
        match self {
            ExpressionLeaf::Column(place, name, dtype) => {
                let name = name.clone()?;
                let dtype = dtype.clone()?;
                Ok(ExpressionLeaf::Column(*place, name, dtype))
            }
            ExpressionLeaf::Literal(scalar, alloc) => {
                Ok(ExpressionLeaf::Literal(scalar.clone()?, *alloc))
            }
        }
    }

    fn dtype(&self) -> &DType {
        match self {
            ExpressionLeaf::Column(_, _, dtype) => dtype,
            ExpressionLeaf::Literal(scalar, _) => scalar.dtype(),
        }
    }
}

impl<C: ScalarFnVTable> BoundExpression<C> {
    /// The leaf of the column of that name. E11 exactly where the scope has none.
    pub fn column(
        alloc: Global,
        scope: &StructFields,
        name: &str,
    ) -> VortexResult<BoundExpression<C>>
        ensures { AnswersLeaf (struct_fields scope.now) name.now result }
    {
        match scope.find(name) {
            Some((place, _)) => BoundExpression::column_at(alloc, scope, place),
            None => Err(VortexError::ScopeMismatch),
        }
    }

    /// The leaf of the field at that place of the scope, with its name and its type. E9 where an
    /// allocation fails.
    pub fn column_at(
        alloc: Global,
        scope: &StructFields,
        place: usize,
    ) -> VortexResult<BoundExpression<C>>
        requires { place < field_count (struct_fields scope.now) }
        ensures { AnswersUnlessMemory result
            (λ tree. tree ≡ field_leaf place (struct_fields scope.now)) }
    {
        let name = String::from_str(alloc, scope.name(place))?;
        let dtype = scope.dtype(place).try_clone(alloc)?;
        Ok(Tree {
            node: Node::Leaf(ExpressionLeaf::Column(place, name, dtype)),
            context: (),
        })
    }

    /// The leaf with that value in every row, of the scalar's type. Allocates nothing; keeps the
    /// allocator for the text.
    pub fn lit(alloc: Global, scalar: Scalar) -> BoundExpression<C>
        ensures { result ≡ constant scalar }
    {
        // proves that the value has the type
        let _typed = scalar.dtype();
        Tree {
            node: Node::Leaf(ExpressionLeaf::Literal(scalar, alloc)),
            context: (),
        }
    }

    /// The call of a function. E6 exactly if the count of children does not fit its arity, then E3
    /// exactly if their types are not accepted.
    pub fn try_new(
        alloc: Global,
        function: ScalarFnRef<C>,
        children: Vec<BoundExpression<C>>,
    ) -> VortexResult<BoundExpression<C>>
        ensures { AnswersBinding C.meaning (function_of function) children.items result }
    {
        Tree::try_call(alloc, function, children, ())
    }

    /// The place of a column leaf in its scope; none for any other tree.
    pub fn as_column(&self) -> Option<usize>
        ensures { MatchOption result (¬ IsLeaf self.now) (λ place. IsLeafAt place self.now) }
    {
        match &self.node {
            Node::Leaf(ExpressionLeaf::Column(place, _, _)) => Some(*place),
            Node::Leaf(ExpressionLeaf::Literal(_, _)) => None,
            Node::Call(_) => None,
        }
    }

    /// The scalar of a literal; none for any other tree.
    pub fn as_literal(&self) -> Option<&Scalar>
        ensures { option_copied result ≡ literal self.now }
    {
        match &self.node {
            Node::Leaf(ExpressionLeaf::Literal(scalar, _)) => Some(scalar),
            Node::Leaf(ExpressionLeaf::Column(_, _, _)) => None,
            Node::Call(_) => None,
        }
    }
}
