//! A caller's function with its own fault.
ghost use Rattle.std.specs.Prelude.{◌≡◌, ◌<◌, length, true};
ghost use Rattle.vortex_errors.specs.Answers.{Answers};
ghost use Rattle.vortex_types.specs.LogicalTypes.{is_bool_type};
ghost use Rattle.vortex_columns.specs.ColumnView.{row};
ghost use Rattle.vortex_interface.specs.Rules.{no_rules};
ghost use Rattle.caller_functions.specs.MustBeTrue.{must_be_true_meaning, must_be_true_lawful};

use std::alloc::Global;
use vortex_columns::{
    Arity, Column, DType, ExecutionCtx, MismatchPlace, VortexError, VortexResult,
};
use vortex_functions::{ChildName, EmptyOptions, ExecutionArgs, ScalarFnId, ScalarFnVTable};

/// Over Bool: E10 with the number 1 if its argument is false; true stays true, and a null stays
/// null.
#[derive(Clone, Drop)]
pub struct MustBeTrue;

impl ScalarFnVTable for MustBeTrue {
    type Options = EmptyOptions;

    ghost meaning = { must_be_true_meaning };

    ghost rules = { no_rules };

    fn id(&self) -> ScalarFnId {
        "test.must_be_true"
    }

    fn arity(&self, _options: &EmptyOptions) -> Arity {
        Arity::Exact(1)
    }

    fn child_name(&self, _options: &EmptyOptions, _index: usize) -> ChildName {
        "input"
    }

    fn return_dtype(
        &self,
        _alloc: Global,
        _options: &EmptyOptions,
        types: &[DType],
    ) -> VortexResult<DType> {
        match types {
            [DType::Bool(nullability)] => Ok(DType::Bool(*nullability)),
            _ => Err(VortexError::TypeMismatch(MismatchPlace::Boolean)),
        }
    }

    fn execute<A: ExecutionArgs>(
        &self,
        _options: &EmptyOptions,
        args: &A,
        ctx: &mut ExecutionCtx,
    ) -> VortexResult<Column> {
        let input = args.get(0)?;
        let _typed = input.dtype();
        for i in 0..input.len() {
            let scalar = input.scalar_at(ctx.alloc(), i)?;
            if let Some(false) = scalar.as_bool_opt() {
                return Err(VortexError::Custom(1));
            }
        }
        input.try_clone(ctx.alloc())
    }

    fn is_strict(&self, _options: &EmptyOptions) -> bool {
        true
    }

    fn is_infallible(&self, _options: &EmptyOptions) -> bool {
        false
    }

    fn try_clone(&self, _alloc: Global) -> VortexResult<MustBeTrue> {
        Ok(MustBeTrue)
    }

    fn clone_options(&self, _alloc: Global, _options: &EmptyOptions) -> VortexResult<EmptyOptions> {
        Ok(EmptyOptions)
    }

    ghost lawful = { must_be_true_lawful };
}
