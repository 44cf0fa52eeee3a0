//! Cast of Bool to nullable Bool.
ghost use Rattle.std.specs.Prelude.{[], Some};
ghost use Rattle.vortex_interface.specs.Shipped as shipped;
ghost use Rattle.vortex_shipped.specs.Words.{no_rules, AnswersUnlessMemory};
ghost use Rattle.vortex_shipped.specs.Words.{WritesBefore, AppendsCall, cast_id};
ghost use Rattle.vortex_shipped.specs.Words.{shipped_meaning, shipped_lawful, AnswersShippedType};
ghost use Rattle.vortex_shipped.specs.Words.{shipped_parts, WritesBytes, ReadsOptions};

use crate::texts::{CallText, write_unary};
use std::alloc::Global;
use std::fmt;
use vortex_columns::{
    Arity, Column, DType, ExecutionCtx, MismatchPlace, Nullability, VortexError, VortexResult,
};
use vortex_interface::{ChildName, ExecutionArgs, ScalarFnId, ScalarFnVTable};
use vortex_kernels::execute_cast;

/// The options of Cast: only the return type, which is printed.
#[derive(Clone, Debug, PartialEq, Eq, Hash, Drop)]
pub struct CastOptions;

impl CastOptions {
    ghost use Rattle.std.specs.Prelude.{◌≡◌};
    ghost use Rattle.vortex_shipped.specs.Words.{cast_options_text};

    /// `bool?`, the return type.
    pub fn text(&self) -> &'static str
        ensures { result.now ≡ cast_options_text }
    {
        "bool?"
    }
}

impl fmt::Display for CastOptions {
    ghost use Rattle.std.specs.Prelude.{Some};
    ghost use Rattle.vortex_shipped.specs.Words.{cast_options_text};

    ghost output = { λ _. Some cast_options_text };

    fn fmt<W: fmt::Write>(&self, f: &mut fmt::Formatter<W>) -> fmt::Result {
        write!(f, "{}", self.text())
    }
}

/// A Bool, nullable or not, as a nullable one; values and nulls are unchanged.
#[derive(Clone, Drop)]
pub struct Cast;

impl ScalarFnVTable for Cast {
    type Options = CastOptions;

    ghost meaning = { shipped_meaning cast_id (λ _. shipped.Cast) };

    ghost rules = { no_rules };

    ghost option_bytes = { λ f o. Some [] };

    ghost options_read = { λ f bytes. Some (record {}) };

    ghost own_parts = { λ f o. shipped_parts shipped.Cast };

    fn id(&self) -> ScalarFnId {
        "vortex.cast"
    }

    /// No bytes.
    fn serialize(&self, alloc: Global, _options: &CastOptions) -> VortexResult<Option<Vec<u8>>>
        ensures { AnswersUnlessMemory result (WritesBytes (Some [])) }
    {
        Ok(Some(Vec::new(alloc)))
    }

    /// Accepts any bytes; allocates nothing.
    fn deserialize(&self, _alloc: Global, _bytes: &[u8]) -> VortexResult<CastOptions>
        ensures { ReadsOptions (Some (record {})) result }
    {
        Ok(CastOptions)
    }

    fn arity(&self, _options: &CastOptions) -> Arity {
        Arity::Exact(1)
    }

    fn child_name(&self, _options: &CastOptions, _index: usize) -> ChildName {
        "input"
    }

    fn return_dtype(
        &self,
        _alloc: Global,
        _options: &CastOptions,
        types: &[DType],
    ) -> VortexResult<DType>
        ensures { AnswersShippedType shipped.Cast types.now result }
    {
        match types {
            [DType::Bool(..)] => Ok(DType::Bool(Nullability::Nullable)),
            _ => Err(VortexError::TypeMismatch(MismatchPlace::Cast)),
        }
    }

    fn execute<A: ExecutionArgs>(
        &self,
        _options: &CastOptions,
        args: &A,
        ctx: &mut ExecutionCtx,
    ) -> VortexResult<Column> {
        let input = args.get(0)?;
        execute_cast(input, ctx)
    }

    /// `vortex.cast(a, opts=bool?)`.
    fn write_before(
        &self,
        _alloc: Global,
        options: &CastOptions,
        index: usize,
        _count: usize,
        out: &mut String,
    ) -> VortexResult<usize>
        ensures { AnswersUnlessMemory result
            (WritesBefore shipped.Cast index out.old out.new) }
    {
        self.write_part(options, index, out)
    }

    /// `vortex.cast(a, opts=bool?)`.
    fn fmt_sql(
        &self,
        _alloc: Global,
        options: &CastOptions,
        children: &[String],
        out: &mut String,
    ) -> VortexResult<()>
        ensures { AnswersUnlessMemory result
            (λ _. AppendsCall shipped.Cast children.now out.old out.new) }
    {
        self.write_call(options, children, out)
    }

    fn is_strict(&self, _options: &CastOptions) -> bool {
        true
    }

    fn is_infallible(&self, _options: &CastOptions) -> bool {
        true
    }

    fn try_clone(&self, _alloc: Global) -> VortexResult<Cast> {
        Ok(Cast)
    }

    fn clone_options(&self, _alloc: Global, _options: &CastOptions) -> VortexResult<CastOptions> {
        Ok(CastOptions)
    }

    ghost lawful = { shipped_lawful cast_id (λ _. shipped.Cast) };
}

/// `vortex.cast(a, opts=bool?)`.
impl CallText<CastOptions> for Cast {
    ghost call = { λ _. shipped.Cast };

    fn write_part(
        &self,
        _options: &CastOptions,
        index: usize,
        out: &mut String,
    ) -> VortexResult<usize> {
        write_unary(out, "vortex.cast", ", opts=bool?)", index)
    }
}
