//! A caller's function with its own rules.
ghost use Rattle.caller_functions.specs.First.{first_meaning, first_lawful, first_rules};
ghost use Rattle.caller_functions.specs.FirstRules.{first_rules_lawful, first_identity};

use std::alloc::Global;
use vortex_columns::{
    Arity, Column, DType, ExecutionCtx, MismatchPlace, VortexError, VortexResult,
};
use vortex_functions::{
    BoundExpression, ChildName, EmptyOptions, ExecutionArgs, ScalarFnId, ScalarFnVTable,
};
use vortex_rewriting::{ReduceNodeValidity, ReduceTree, ScalarFnRules};

/// Returns the first of one or more arguments, of any types. Both rules replace the call by the
/// first argument.
#[derive(Clone, Drop)]
pub struct First;

impl ScalarFnVTable for First {
    type Options = EmptyOptions;

    ghost meaning = { first_meaning };

    ghost rules = { first_rules };

    fn id(&self) -> ScalarFnId {
        "test.first"
    }

    fn arity(&self, _options: &EmptyOptions) -> Arity {
        Arity::Variadic { min: 1, max: None }
    }

    fn child_name(&self, _options: &EmptyOptions, _index: usize) -> ChildName {
        "input"
    }

    fn return_dtype(
        &self,
        alloc: Global,
        _options: &EmptyOptions,
        types: &[DType],
    ) -> VortexResult<DType> {
        match types {
            [] => Err(VortexError::TypeMismatch(MismatchPlace::Scalars)),
            [first, ..] => first.try_clone(alloc),
        }
    }

    fn execute<A: ExecutionArgs>(
        &self,
        _options: &EmptyOptions,
        args: &A,
        ctx: &mut ExecutionCtx,
    ) -> VortexResult<Column> {
        args.get(0)?.try_clone(ctx.alloc())
    }

    fn is_strict(&self, _options: &EmptyOptions) -> bool {
        false
    }

    fn is_infallible(&self, _options: &EmptyOptions) -> bool {
        true
    }

    fn try_clone(&self, _alloc: Global) -> VortexResult<First> {
        Ok(First)
    }

    fn clone_options(&self, _alloc: Global, _options: &EmptyOptions) -> VortexResult<EmptyOptions> {
        Ok(EmptyOptions)
    }

    ghost lawful = { first_lawful };
}

impl ScalarFnRules for First {
    fn reduce<T: ReduceTree<First>>(
        &self,
        alloc: Global,
        _options: &EmptyOptions,
        node: &T,
    ) -> VortexResult<Option<T>> {
        let _typed = node.node_dtype();
        let first = node.child(alloc, 0)?;
        Ok(Some(first))
    }

    fn validity<T: ReduceTree<First>>(
        &self,
        _alloc: Global,
        _options: &EmptyOptions,
        _node: &T,
    ) -> VortexResult<ReduceNodeValidity<T>> {
        Ok(ReduceNodeValidity::Irreducible)
    }

    fn simplify(
        &self,
        alloc: Global,
        _options: &EmptyOptions,
        expression: &BoundExpression<First>,
    ) -> VortexResult<Option<BoundExpression<First>>> {
        let _typed = expression.dtype();
        let first = expression.child(0).try_clone(alloc)?;
        Ok(Some(first))
    }

    ghost rules_lawful = { first_rules_lawful };

    ghost own_identity = { first_identity };
}
