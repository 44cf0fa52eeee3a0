//! The null tests: whether a row of any type is null, and whether it is not.
ghost use Rattle.std.specs.Prelude.{◌≡◌, [], Some, length};
ghost use Rattle.vortex_interface.specs.Shipped as shipped;
ghost use Rattle.vortex_shipped.specs.Words.{no_rules, AnswersUnlessMemory};
ghost use Rattle.vortex_shipped.specs.Words.{WritesBefore, AppendsCall, AnswersShippedType};
ghost use Rattle.vortex_shipped.specs.Words.{null_test_id, null_test_value, HasTests};
ghost use Rattle.vortex_shipped.specs.Words.{shipped_meaning, shipped_lawful};
ghost use Rattle.vortex_shipped.specs.Words.{shipped_parts, WritesBytes, ReadsOptions};

use crate::texts::{CallText, write_unary};
use std::alloc::Global;
use vortex_columns::{Arity, Column, DType, ExecutionCtx, Nullability, VortexResult};
use vortex_interface::{ChildName, EmptyOptions, ExecutionArgs, ScalarFnId, ScalarFnVTable};
use vortex_kernels::{execute_is_not_null, execute_is_null};

/// Whether each row is null, or, if negated, not null: non-nullable Bool, for any type. Reads no
/// row.
#[derive(Clone, Drop)]
pub struct NullTestOf<const NEGATED: bool>;

/// Whether each row is null.
pub type IsNull = NullTestOf<false>;

/// Whether each row is null.
pub const IsNull: NullTestOf<false> = NullTestOf;

/// Whether each row is not null.
pub type IsNotNull = NullTestOf<true>;

/// Whether each row is not null.
pub const IsNotNull: NullTestOf<true> = NullTestOf;

fn execute_null_test(negated: bool, input: &Column, ctx: &mut ExecutionCtx) -> VortexResult<Column>
    ensures { AnswersUnlessMemory result (HasTests (null_test_value negated) input.now) }
{
    if negated {
        execute_is_not_null(input, ctx)
    } else {
        execute_is_null(input, ctx)
    }
}

impl<const NEGATED: bool> ScalarFnVTable for NullTestOf<NEGATED> {
    type Options = EmptyOptions;

    ghost meaning = { shipped_meaning (null_test_id NEGATED) (λ _. shipped.NullTest NEGATED) };

    ghost rules = { no_rules };

    ghost option_bytes = { λ f o. Some [] };

    ghost options_read = { λ f bytes. Some (record {}) };

    ghost own_parts = { λ f o. shipped_parts (shipped.NullTest NEGATED) };

    fn id(&self) -> ScalarFnId {
        if NEGATED {
            "vortex.is_not_null"
        } else {
            "vortex.is_null"
        }
    }

    /// No bytes.
    fn serialize(&self, alloc: Global, _options: &EmptyOptions) -> VortexResult<Option<Vec<u8>>>
        ensures { AnswersUnlessMemory result (WritesBytes (Some [])) }
    {
        Ok(Some(Vec::new(alloc)))
    }

    /// Accepts any bytes; allocates nothing.
    fn deserialize(&self, _alloc: Global, _bytes: &[u8]) -> VortexResult<EmptyOptions>
        ensures { ReadsOptions (Some (record {})) result }
    {
        Ok(EmptyOptions)
    }

    fn arity(&self, _options: &EmptyOptions) -> Arity {
        Arity::Exact(1)
    }

    fn child_name(&self, _options: &EmptyOptions, _index: usize) -> ChildName {
        "input"
    }

    fn return_dtype(
        &self,
        _alloc: Global,
        _options: &EmptyOptions,
        _types: &[DType],
    ) -> VortexResult<DType>
        requires { length _types.now ≡ 1 }
        ensures { AnswersShippedType (shipped.NullTest NEGATED) _types.now result }
    {
        Ok(DType::Bool(Nullability::NonNullable))
    }

    fn execute<A: ExecutionArgs>(
        &self,
        _options: &EmptyOptions,
        args: &A,
        ctx: &mut ExecutionCtx,
    ) -> VortexResult<Column> {
        let input = args.get(0)?;
        execute_null_test(NEGATED, input, ctx)
    }

    /// `vortex.is_null(a)`, or `is_not_null(a)`.
    fn write_before(
        &self,
        _alloc: Global,
        options: &EmptyOptions,
        index: usize,
        _count: usize,
        out: &mut String,
    ) -> VortexResult<usize>
        ensures { AnswersUnlessMemory result
            (WritesBefore (shipped.NullTest NEGATED) index out.old out.new) }
    {
        self.write_part(options, index, out)
    }

    /// `vortex.is_null(a)`, or `is_not_null(a)`.
    fn fmt_sql(
        &self,
        _alloc: Global,
        options: &EmptyOptions,
        children: &[String],
        out: &mut String,
    ) -> VortexResult<()>
        ensures { AnswersUnlessMemory result
            (λ _. AppendsCall (shipped.NullTest NEGATED) children.now out.old out.new) }
    {
        self.write_call(options, children, out)
    }

    fn is_strict(&self, _options: &EmptyOptions) -> bool {
        false
    }

    fn is_infallible(&self, _options: &EmptyOptions) -> bool {
        true
    }

    fn try_clone(&self, _alloc: Global) -> VortexResult<NullTestOf<NEGATED>> {
        Ok(NullTestOf)
    }

    fn clone_options(&self, _alloc: Global, _options: &EmptyOptions) -> VortexResult<EmptyOptions> {
        Ok(EmptyOptions)
    }

    ghost lawful = { shipped_lawful (null_test_id NEGATED) (λ _. shipped.NullTest NEGATED) };
}

/// `vortex.is_null(a)`, or `is_not_null(a)`.
impl<const NEGATED: bool> CallText<EmptyOptions> for NullTestOf<NEGATED> {
    ghost call = { λ _. shipped.NullTest NEGATED };

    fn write_part(
        &self,
        _options: &EmptyOptions,
        index: usize,
        out: &mut String,
    ) -> VortexResult<usize> {
        let name = if NEGATED {
            "is_not_null"
        } else {
            "vortex.is_null"
        };
        write_unary(out, name, ")", index)
    }
}
