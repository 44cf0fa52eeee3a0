//! The rows of an array.
ghost use Rattle.vortex_functions.specs.Words.{children_in, AllMean, HasArrayRows, AnswersArray};
ghost use Rattle.vortex_functions.specs.Words.{LendsColumn};

use super::ArrayRef;
use crate::tree::Node;
use crate::walk;
use std::borrow::Cow;
use vortex_columns::{Column, ExecutionCtx, VortexResult};
use vortex_interface::ScalarFnVTable;

impl<C: ScalarFnVTable> ArrayRef<C> {
    /// The node's rows, over those of its children.
    fn compute_over<'a>(
        &'a self,
        inputs: Vec<Cow<'a, Column>>,
        ctx: &mut ExecutionCtx,
    ) -> VortexResult<Cow<'a, Column>>
        requires { AllMean (HasArrayRows C.meaning) (children_in self.now) inputs.items }
        ensures { AnswersArray C.meaning self.now result }
    {
        match &self.node {
            Node::Leaf(leaf) => Ok(Cow::Borrowed(leaf.column())),
            Node::Call(parts) => Ok(Cow::Owned(parts.call_rows(inputs, self.context, ctx)?)),
        }
    }

    /// From the columns upward, children left to right.
    fn compute<'a>(&'a self, ctx: &mut ExecutionCtx) -> VortexResult<Cow<'a, Column>>
        ensures { AnswersArray C.meaning self.now result }
    {
        walk!(self, ctx.alloc(), node, inputs => node.compute_over(inputs, ctx))
    }

    /// The array's meaning, row by row: a column of its type and row count, or the fault of the
    /// first call, in post-order, that faults in some row. The column of a lone column leaf is
    /// borrowed, which allocates nothing.
    pub fn execute<'a>(&'a self, ctx: &mut ExecutionCtx) -> VortexResult<Cow<'a, Column>>
        ensures answer { AnswersArray C.meaning self.now result }
        ensures borrowed { LendsColumn self.now result }
    {
        match &self.node {
            Node::Leaf(leaf) => Ok(Cow::Borrowed(leaf.column())),
            Node::Call(_) => self.compute(ctx),
        }
    }
}
