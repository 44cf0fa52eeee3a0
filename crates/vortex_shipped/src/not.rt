//! Kleene's Not.
ghost use Rattle.std.specs.Prelude.{[], Some};
ghost use Rattle.vortex_interface.specs.Shipped as shipped;
ghost use Rattle.vortex_shipped.specs.Words.{no_rules, AnswersUnlessMemory};
ghost use Rattle.vortex_shipped.specs.Words.{WritesBefore, AppendsCall, not_id, shipped_meaning};
ghost use Rattle.vortex_shipped.specs.Words.{shipped_lawful};
ghost use Rattle.vortex_shipped.specs.Words.{AnswersShippedType};
ghost use Rattle.vortex_shipped.specs.Words.{shipped_parts, WritesBytes, ReadsOptions};

use crate::texts::{CallText, write_unary};
use std::alloc::Global;
use vortex_columns::{
    Arity, Column, DType, ExecutionCtx, MismatchPlace, VortexError, VortexResult,
};
use vortex_interface::{ChildName, EmptyOptions, ExecutionArgs, ScalarFnId, ScalarFnVTable};
use vortex_kernels::execute_not;

/// Not of a Bool; a null stays null, and the type is that of the input.
#[derive(Clone, Drop)]
pub struct Not;

impl ScalarFnVTable for Not {
    type Options = EmptyOptions;

    ghost meaning = { shipped_meaning not_id (λ _. shipped.Not) };

    ghost rules = { no_rules };

    ghost option_bytes = { λ f o. Some [] };

    ghost options_read = { λ f bytes. Some (record {}) };

    ghost own_parts = { λ f o. shipped_parts shipped.Not };

    fn id(&self) -> ScalarFnId {
        "vortex.not"
    }

    /// No bytes.
    fn serialize(&self, alloc: Global, _options: &EmptyOptions) -> VortexResult<Option<Vec<u8>>>
        ensures { AnswersUnlessMemory result (WritesBytes (Some [])) }
    {
        Ok(Some(Vec::new(alloc)))
    }

    /// Accepts any bytes; allocates nothing.
    fn deserialize(&self, _alloc: Global, _bytes: &[u8]) -> VortexResult<EmptyOptions>
        ensures { ReadsOptions (Some (record {})) result }
    {
        Ok(EmptyOptions)
    }

    fn arity(&self, _options: &EmptyOptions) -> Arity {
        Arity::Exact(1)
    }

    fn child_name(&self, _options: &EmptyOptions, _index: usize) -> ChildName {
        "input"
    }

    fn return_dtype(
        &self,
        _alloc: Global,
        _options: &EmptyOptions,
        types: &[DType],
    ) -> VortexResult<DType>
        ensures { AnswersShippedType shipped.Not types.now result }
    {
        match types {
            [DType::Bool(nullability)] => Ok(DType::Bool(*nullability)),
            _ => Err(VortexError::TypeMismatch(MismatchPlace::Not)),
        }
    }

    fn execute<A: ExecutionArgs>(
        &self,
        _options: &EmptyOptions,
        args: &A,
        ctx: &mut ExecutionCtx,
    ) -> VortexResult<Column> {
        let input = args.get(0)?;
        execute_not(input, ctx)
    }

    /// `vortex.not(a)`.
    fn write_before(
        &self,
        _alloc: Global,
        options: &EmptyOptions,
        index: usize,
        _count: usize,
        out: &mut String,
    ) -> VortexResult<usize>
        ensures { AnswersUnlessMemory result
            (WritesBefore shipped.Not index out.old out.new) }
    {
        self.write_part(options, index, out)
    }

    /// `vortex.not(a)`.
    fn fmt_sql(
        &self,
        _alloc: Global,
        options: &EmptyOptions,
        children: &[String],
        out: &mut String,
    ) -> VortexResult<()>
        ensures { AnswersUnlessMemory result
            (λ _. AppendsCall shipped.Not children.now out.old out.new) }
    {
        self.write_call(options, children, out)
    }

    fn is_strict(&self, _options: &EmptyOptions) -> bool {
        true
    }

    fn is_infallible(&self, _options: &EmptyOptions) -> bool {
        true
    }

    fn try_clone(&self, _alloc: Global) -> VortexResult<Not> {
        Ok(Not)
    }

    fn clone_options(&self, _alloc: Global, _options: &EmptyOptions) -> VortexResult<EmptyOptions> {
        Ok(EmptyOptions)
    }

    ghost lawful = { shipped_lawful not_id (λ _. shipped.Not) };
}

/// `vortex.not(a)`.
impl CallText<EmptyOptions> for Not {
    ghost call = { λ _. shipped.Not };

    fn write_part(
        &self,
        _options: &EmptyOptions,
        index: usize,
        out: &mut String,
    ) -> VortexResult<usize> {
        write_unary(out, "vortex.not", ")", index)
    }
}
