//! The function for a caller who has none.
ghost use Rattle.std.specs.Prelude.{◌≡◌, IfOk, false, replicate};
ghost use Rattle.vortex_interface.specs.ValidityRules.{default_rules};
ghost use Rattle.vortex_functions.specs.Fixed.{fixed_meaning, fixed_lawful};

use std::alloc::{AllocError, Global};
use vortex_columns::{
    Arity, BitBuffer, Column, DType, ExecutionCtx, MismatchPlace, Nullability, Validity,
    VortexError, VortexResult,
};
use vortex_interface::{ChildName, EmptyOptions, ExecutionArgs, ScalarFnId, ScalarFnVTable};

/// No caller's function: without arguments, it returns false of non-nullable Bool.
#[derive(Clone, Drop)]
pub struct NoCustom;

fn all_false(alloc: Global, count: usize) -> Result<Vec<bool>, AllocError>
    ensures { IfOk result (λ bits. bits.items ≡ replicate count false) }
{
    vec![in alloc; false; count]
}

impl ScalarFnVTable for NoCustom {
    type Options = EmptyOptions;

    ghost meaning = { fixed_meaning };

    ghost rules = { default_rules fixed_meaning };

    fn id(&self) -> ScalarFnId {
        "rowfn.none"
    }

    fn arity(&self, _options: &EmptyOptions) -> Arity {
        Arity::Exact(0)
    }

    fn child_name(&self, _options: &EmptyOptions, _index: usize) -> ChildName {
        ""
    }

    fn return_dtype(
        &self,
        _alloc: Global,
        _options: &EmptyOptions,
        types: &[DType],
    ) -> VortexResult<DType> {
        match types {
            [] => Ok(DType::Bool(Nullability::NonNullable)),
            _ => Err(VortexError::TypeMismatch(MismatchPlace::Boolean)),
        }
    }

    fn execute<A: ExecutionArgs>(
        &self,
        _options: &EmptyOptions,
        args: &A,
        ctx: &mut ExecutionCtx,
    ) -> VortexResult<Column> {
        let bits = all_false(ctx.alloc(), args.row_count())?;
        let bits = BitBuffer::from_bools(ctx.alloc(), &bits)?;
        Column::try_bool(ctx.alloc(), bits, Validity::NonNullable)
    }

    fn is_strict(&self, _options: &EmptyOptions) -> bool {
        true
    }

    fn is_infallible(&self, _options: &EmptyOptions) -> bool {
        true
    }

    fn try_clone(&self, _alloc: Global) -> VortexResult<NoCustom> {
        Ok(NoCustom)
    }

    fn clone_options(&self, _alloc: Global, _options: &EmptyOptions) -> VortexResult<EmptyOptions> {
        Ok(EmptyOptions)
    }

    ghost lawful = { fixed_lawful };
}
