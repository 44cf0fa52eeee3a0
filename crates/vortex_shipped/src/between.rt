//! Between: whether a value is between two bounds.
ghost use Rattle.std.specs.Prelude.{◌≡◌, Some, length, map};
ghost use Rattle.vortex_interface.specs.Shipped as shipped;
ghost use Rattle.vortex_shipped.specs.Words.{no_rules, AnswersUnlessMemory};
ghost use Rattle.vortex_shipped.specs.Words.{WritesBefore, AppendsCall, AnswersShippedType};
ghost use Rattle.vortex_shipped.specs.Words.{between_id, shipped_meaning, shipped_lawful};
ghost use Rattle.vortex_shipped.specs.Words.{shipped_parts, WritesBytes, ReadsOptions};
ghost use Rattle.vortex_shipped.specs.Words.{between_bytes, between_read};

use crate::option_bytes::write_byte;
use crate::texts::{CallText, write_spaced};
use std::alloc::Global;
use vortex_columns::{
    Arity, Column, DType, ExecutionCtx, MismatchPlace, VortexError, VortexResult,
};
use vortex_interface::{ChildName, ExecutionArgs, ScalarFnId, ScalarFnVTable};
use vortex_kernels::{BetweenOptions, execute_between};

/// Whether each row is between its bounds, of a type that all three share apart from nullability,
/// by the order of
/// values: Kleene's And of the two comparisons, so a row with one null bound can still be
/// false. The result is nullable if any of the three is.
#[derive(Clone, Drop)]
pub struct Between;

impl ScalarFnVTable for Between {
    type Options = BetweenOptions;

    ghost meaning = { shipped_meaning between_id shipped.Between };

    ghost rules = { no_rules };

    ghost option_bytes = { λ f options. Some (between_bytes options) };

    ghost options_read = { λ f bytes. between_read bytes };

    ghost own_parts = { λ f options. shipped_parts (shipped.Between options) };

    fn id(&self) -> ScalarFnId {
        "vortex.between"
    }

    /// One byte: bit 0 where the lower bound is strict, bit 1 where the upper is.
    fn serialize(&self, alloc: Global, options: &BetweenOptions) -> VortexResult<Option<Vec<u8>>>
        ensures { AnswersUnlessMemory result (WritesBytes (Some (between_bytes options.now))) }
    {
        write_byte(alloc, options.to_byte())
    }

    /// E8 exactly if no options are written as these bytes; allocates nothing.
    fn deserialize(&self, _alloc: Global, bytes: &[u8]) -> VortexResult<BetweenOptions>
        ensures { ReadsOptions (between_read bytes.now) result }
    {
        BetweenOptions::from_bytes(bytes).ok_or(VortexError::BadOptions)
    }

    fn arity(&self, _options: &BetweenOptions) -> Arity {
        Arity::Exact(3)
    }

    fn child_name(&self, _options: &BetweenOptions, index: usize) -> ChildName {
        match index {
            0 => "array",
            1 => "lower",
            _ => "upper",
        }
    }

    fn return_dtype(
        &self,
        _alloc: Global,
        options: &BetweenOptions,
        types: &[DType],
    ) -> VortexResult<DType>
        requires { length types.now ≡ 3 }
        ensures { AnswersShippedType (shipped.Between options.now) types.now result }
    {
        let [array, lower, upper] = types else {
            return Err(VortexError::TypeMismatch(MismatchPlace::BetweenLower));
        };
        if !array.eq_ignore_nullability(lower) {
            return Err(VortexError::TypeMismatch(MismatchPlace::BetweenLower));
        }
        if !array.eq_ignore_nullability(upper) {
            return Err(VortexError::TypeMismatch(MismatchPlace::BetweenUpper));
        }
        let nullability = array.nullability() | lower.nullability() | upper.nullability();
        Ok(DType::Bool(nullability))
    }

    fn execute<A: ExecutionArgs>(
        &self,
        options: &BetweenOptions,
        args: &A,
        ctx: &mut ExecutionCtx,
    ) -> VortexResult<Column> {
        let array = args.get(0)?;
        let lower = args.get(1)?;
        let upper = args.get(2)?;
        execute_between(array, lower, upper, options, ctx)
    }

    /// `(lower < array <= upper)`.
    fn write_before(
        &self,
        _alloc: Global,
        options: &BetweenOptions,
        index: usize,
        _count: usize,
        out: &mut String,
    ) -> VortexResult<usize>
        ensures { AnswersUnlessMemory result
            (WritesBefore (shipped.Between options.now) index out.old out.new) }
    {
        self.write_part(options, index, out)
    }

    /// `(lower < array <= upper)`.
    fn fmt_sql(
        &self,
        _alloc: Global,
        options: &BetweenOptions,
        children: &[String],
        out: &mut String,
    ) -> VortexResult<()>
        ensures { AnswersUnlessMemory result
            (λ _. AppendsCall (shipped.Between options.now) children.now out.old out.new) }
    {
        self.write_call(options, children, out)
    }

    fn is_strict(&self, _options: &BetweenOptions) -> bool {
        false
    }

    fn is_infallible(&self, _options: &BetweenOptions) -> bool {
        true
    }

    fn try_clone(&self, _alloc: Global) -> VortexResult<Between> {
        Ok(Between)
    }

    fn clone_options(
        &self,
        _alloc: Global,
        options: &BetweenOptions,
    ) -> VortexResult<BetweenOptions> {
        Ok(BetweenOptions {
            lower_strict: options.lower_strict,
            upper_strict: options.upper_strict,
        })
    }

    ghost lawful = { shipped_lawful between_id shipped.Between };
}

/// `(lower < array <= upper)`.
impl CallText<BetweenOptions> for Between {
    ghost call = { shipped.Between };

    fn write_part(
        &self,
        options: &BetweenOptions,
        index: usize,
        out: &mut String,
    ) -> VortexResult<usize> {
        match index {
            0 => {
                out.push_str("(")?;
                Ok(1)
            }
            1 => {
                write_spaced(out, options.lower_strict.to_operator().text())?;
                Ok(0)
            }
            2 => {
                write_spaced(out, options.upper_strict.to_operator().text())?;
                Ok(2)
            }
            _ => {
                out.push_str(")")?;
                Ok(index)
            }
        }
    }
}
