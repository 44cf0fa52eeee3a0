//! The rows of a call, from those of its children.
ghost use Rattle.std.specs.Prelude.{◌≡◌, List, Some, map};
ghost use Rattle.std.specs.Cow.{cow_value};
ghost use Rattle.vortex_columns.specs.ColumnView.{ColumnView};
ghost use Rattle.vortex_functions.specs.Words.{type_of, tree_type, AllMean, HasRows};
ghost use Rattle.vortex_functions.specs.Nodes.{call_of};
ghost use Rattle.vortex_functions.specs.Executing.{AnswersCallRows};

use crate::tree::{Leaf, Parts};
use std::borrow::Cow;
use vortex_columns::{Column, ExecutionCtx, VortexResult};
use vortex_interface::{ScalarFnVTable, VecExecutionArgs};

impl<C: ScalarFnVTable, L: Leaf<C, C::Options>> Parts<C, L> {
    /// The call's rows, where the inputs are the rows of its children over some columns: the result
    /// is the call's over those columns.
    pub(crate) fn call_rows<'a>(
        &self,
        inputs: Vec<Cow<'a, Column>>,
        row_count: usize,
        ctx: &mut ExecutionCtx,
    ) -> VortexResult<Column>
        requires typed { tree_type C.meaning (call_of L.tree_of self.now)
            ≡ Some (type_of self.now.dtype) }
        requires inputs { (cs : List ColumnView) × AllMean (HasRows C.meaning cs row_count)
            (map L.tree_of self.now.children.items) inputs.items }
        ensures { (cs : List ColumnView) → AllMean (HasRows C.meaning cs row_count)
            (map L.tree_of self.now.children.items) inputs.entry.items
            → AnswersCallRows C.meaning cs row_count (call_of L.tree_of self.now) result }
    {
        let args = VecExecutionArgs::new(inputs, row_count);
        self.function.execute(&args, ctx)
    }
}
