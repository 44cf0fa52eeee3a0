//! A tree over columns.
ghost use Rattle.std.specs.Prelude.{◌≡◌, ◌↔◌, All, None, IfNone, IfOk, IsTrue, IsOk};
ghost use Rattle.vortex_functions.specs.Words.{children_of, AllMean, AnswersUnlessMemory, HasRows};
ghost use Rattle.vortex_functions.specs.Words.{LeavesFit, NodeFits, other_length, AnswersTree};
ghost use Rattle.vortex_functions.specs.Words.{AnswersExecution, LendsLeaf, IsLeaf, Fits};
ghost use Rattle.vortex_functions.specs.Words.{AnswersColumns, AreTyped};
ghost use Rattle.vortex_functions.specs.ExpressionLeaves.{expression_leaf, HasColumn};

use super::{BoundExpression, ExpressionLeaf};
use crate::tree::Node;
use crate::walk;
use std::borrow::Cow;
use vortex_columns::{Column, ExecutionCtx, VortexError, VortexResult};
use vortex_interface::ScalarFnVTable;

/// The length of the first column that has not that many rows. If there is none, the columns' rows
/// have their types.
fn first_other_length(columns: &[Column], row_count: usize) -> Option<usize>
    ensures other { result ≡ other_length row_count columns.now }
    ensures typed { IfNone result (All (λ c. AreTyped c.dtype c.rows) columns.now) }
{
    for column in columns {
        // proves that the rows have the type
        let _typed = column.dtype();
        if column.len() != row_count {
            return Some(column.len());
        }
    }
    None
}

impl ExpressionLeaf {
    /// Whether the leaf's column exists and has the leaf's type; a literal requires none.
    fn fits(&self, columns: &[Column]) -> bool
        ensures { IsTrue result ↔ HasColumn columns.now self.now }
    {
        match self {
            ExpressionLeaf::Column(place, _, dtype) => match columns.get(*place) {
                Some(column) => *column.dtype() == *dtype,
                None => false,
            },
            ExpressionLeaf::Literal(_, _) => true,
        }
    }

    /// The leaf's rows: its column, borrowed, or the literal in each row. A column allocates
    /// nothing.
    fn rows<'a, C: ScalarFnVTable>(
        &self,
        columns: &'a [Column],
        row_count: usize,
        ctx: &mut ExecutionCtx,
    ) -> VortexResult<Cow<'a, Column>>
        requires { Fits columns.now row_count (expression_leaf {V = C} {O = C.Options} self.now) }
        ensures answer { AnswersTree C.meaning columns.now row_count (expression_leaf self.now)
            result }
        ensures borrowed { LendsLeaf columns.now (expression_leaf {V = C} {O = C.Options} self.now)
            result }
    {
        match self {
            ExpressionLeaf::Column(place, _, _) => Ok(Cow::Borrowed(&columns[*place])),
            ExpressionLeaf::Literal(scalar, _) => {
                let scalar = scalar.try_clone(ctx.alloc())?;
                Ok(Cow::Owned(Column::constant(ctx.alloc(), scalar, row_count)?))
            }
        }
    }
}

impl<C: ScalarFnVTable> BoundExpression<C> {
    /// Whether a leaf's column exists and has the leaf's type; true for any other node.
    fn node_fits(&self, columns: &[Column]) -> bool
        ensures { IsTrue result ↔ NodeFits columns.now self.now }
    {
        match &self.node {
            Node::Leaf(leaf) => leaf.fits(columns),
            Node::Call(_) => true,
        }
    }

    /// The same for all nodes, by a list of those that are still to be visited.
    fn nodes_fit(&self, columns: &[Column], ctx: &mut ExecutionCtx) -> VortexResult<bool>
        ensures { AnswersUnlessMemory result (λ b. IsTrue b ↔ LeavesFit columns.now self.now) }
    {
        let mut list: Vec<&BoundExpression<C>> = Vec::new(ctx.alloc());
        let mut node = self;
        loop {
            if !node.node_fits(columns) {
                return Ok(false);
            }
            for child in node.children() {
                list.push(child)?;
            }
            let Some(next) = list.pop() else {
                return Ok(true);
            };
            node = next;
        }
    }

    /// Whether each leaf's column exists and has the leaf's type. A lone leaf allocates nothing.
    fn leaves_fit(&self, columns: &[Column], ctx: &mut ExecutionCtx) -> VortexResult<bool>
        ensures answer { AnswersUnlessMemory result
            (λ b. IsTrue b ↔ LeavesFit columns.now self.now) }
        ensures lone { IsLeaf self.now → IsOk result }
    {
        match &self.node {
            Node::Leaf(leaf) => Ok(leaf.fits(columns)),
            Node::Call(_) => self.nodes_fit(columns, ctx),
        }
    }

    /// Whether the columns match the tree, and have its row count: what `execute` checks first.
    ///
    /// In order: E11 where a leaf's column is missing or of another type; E2 where a column has not
    /// `row_count` rows, with `left` the row count and `right` the length of the first such column.
    /// A lone leaf allocates nothing. Columns that match have rows of their types.
    pub fn check_columns(
        &self,
        columns: &[Column],
        row_count: usize,
        ctx: &mut ExecutionCtx,
    ) -> VortexResult<()>
        ensures answer { AnswersColumns columns.now row_count self.now result }
        ensures typed { IfOk result (λ _. All (λ c. AreTyped c.dtype c.rows) columns.now) }
        ensures lone { IsLeaf self.now → Fits columns.now row_count self.now → IsOk result }
    {
        if !self.leaves_fit(columns, ctx)? {
            return Err(VortexError::ScopeMismatch);
        }
        if let Some(right) = first_other_length(columns, row_count) {
            return Err(VortexError::LengthMismatch {
                left: row_count,
                right,
            });
        }
        Ok(())
    }

    /// The node's rows, over those of its children.
    fn compute_over<'a>(
        &self,
        columns: &'a [Column],
        row_count: usize,
        inputs: Vec<Cow<'a, Column>>,
        ctx: &mut ExecutionCtx,
    ) -> VortexResult<Cow<'a, Column>>
        requires fit { Fits columns.now row_count self.now }
        requires inputs { AllMean (HasRows C.meaning columns.now row_count)
            (children_of self.now) inputs.items }
        ensures { AnswersTree C.meaning columns.now row_count self.now result }
    {
        match &self.node {
            Node::Leaf(leaf) => leaf.rows::<C>(columns, row_count, ctx),
            Node::Call(parts) => Ok(Cow::Owned(parts.call_rows(inputs, row_count, ctx)?)),
        }
    }

    /// From the leaves upward, children left to right.
    fn compute<'a>(
        &self,
        columns: &'a [Column],
        row_count: usize,
        ctx: &mut ExecutionCtx,
    ) -> VortexResult<Cow<'a, Column>>
        requires { Fits columns.now row_count self.now }
        ensures { AnswersTree C.meaning columns.now row_count self.now result }
    {
        walk!(self, ctx.alloc(), node, inputs => node.compute_over(columns, row_count, inputs, ctx))
    }

    /// What `execute` returns, over columns that `check_columns` has accepted: it does not check them
    /// again. Fails where a row faults, as `execute` does, and where an allocation fails (E9).
    pub fn execute_fitting<'a>(
        &self,
        columns: &'a [Column],
        row_count: usize,
        ctx: &mut ExecutionCtx,
    ) -> VortexResult<Cow<'a, Column>>
        requires { Fits columns.now row_count self.now }
        ensures answer { AnswersTree C.meaning columns.now row_count self.now result }
        ensures borrowed { LendsLeaf columns.now self.now result }
    {
        match &self.node {
            Node::Leaf(leaf) => leaf.rows::<C>(columns, row_count, ctx),
            Node::Call(_) => self.compute(columns, row_count, ctx),
        }
    }

    /// The tree's meaning, row by row, over the columns of its scope: a column of the tree's type.
    ///
    /// In order: E11 where a leaf's column is missing or of another type; E2 where a column has not
    /// `row_count` rows, with `left` the row count and `right` the length of the first such column;
    /// then the fault of the first call, in post-order, that faults in some row. A lone column leaf
    /// is borrowed, and allocates nothing.
    pub fn execute<'a>(
        &self,
        columns: &'a [Column],
        row_count: usize,
        ctx: &mut ExecutionCtx,
    ) -> VortexResult<Cow<'a, Column>>
        ensures answer { AnswersExecution C.meaning columns.now row_count self.now result }
        ensures borrowed { Fits columns.now row_count self.now → LendsLeaf columns.now self.now result }
    {
        self.check_columns(columns, row_count, ctx)?;
        self.execute_fitting(columns, row_count, ctx)
    }
}
