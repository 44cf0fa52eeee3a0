//! A function over a dictionary's values instead of its rows.
ghost use Rattle.std.specs.Prelude.{◌≤◌, ◌↔◌, IsTrue, length};
ghost use Rattle.vortex_arrays.specs.Words.{AnswersPushDown, AnswersUnlessMemory, MayRunOver};
ghost use Rattle.vortex_arrays.specs.Words.{function_of};

use crate::dictionary::DictColumn;
use crate::dictionary::inputs::{check_inputs, inputs_of};
use std::alloc::Global;
use vortex_columns::{ExecutionCtx, Scalar, VortexResult};
use vortex_functions::{ScalarFnRef, ScalarFnVTable, VecExecutionArgs};

impl DictColumn {
    /// Whether the values may be used for the rows: the function is marked infallible, or each
    /// value has a code.
    fn may_run_over<C: ScalarFnVTable>(
        &self,
        alloc: Global,
        function: &ScalarFnRef<C>,
    ) -> VortexResult<bool>
        ensures { AnswersUnlessMemory result
            (λ b. IsTrue b ↔ MayRunOver C.meaning (function_of function.now) self.now) }
    {
        Ok(function.signature().is_infallible || self.all_coded(alloc)?)
    }

    /// The call of the function with this column at index `child_idx` and the others, as constants,
    /// at the other indices: a dictionary of the call's type with the same codes, whose values are
    /// the function of the values, unused ones too. For a shared dictionary the cost is that of the
    /// values, however many rows there are, and the result is shared too. Otherwise the codes are
    /// copied, and unless the function is marked infallible each code is read once.
    ///
    /// In order: E6 and E3 as in binding a call; None exactly if the function is not marked
    /// infallible and some value has no code; the fault of a value (for a shipped function its only
    /// one). Each value that can fault has a code, so the fault is a row's.
    pub fn push_down<C: ScalarFnVTable>(
        &self,
        function: &ScalarFnRef<C>,
        child_idx: usize,
        others: &[Scalar],
        ctx: &mut ExecutionCtx,
    ) -> VortexResult<Option<DictColumn>>
        requires { child_idx ≤ length others.now }
        ensures { AnswersPushDown C.meaning (function_of function.now)
            self.now child_idx others.now result }
    {
        let values = self.values();
        let inputs = inputs_of(ctx.alloc(), values, child_idx, others)?;
        check_inputs(ctx.alloc(), function, &inputs)?;
        if !self.may_run_over(ctx.alloc(), function)? {
            return Ok(None);
        }
        let args = VecExecutionArgs::new(inputs, values.len());
        let answers = function.execute(&args, ctx)?;
        Ok(Some(self.with_values(ctx.alloc(), answers)?))
    }
}
