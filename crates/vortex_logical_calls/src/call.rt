//! The call of a function on trees.
ghost use Rattle.vortex_functions.specs.FunctionOf.{function_of};
ghost use Rattle.vortex_logical_calls.specs.Outcomes.{Makes};
ghost use Rattle.vortex_logical_calls.specs.Calls as specs;

use std::alloc::Global;
use vortex_columns::VortexError;
use vortex_functions::{BoundExpression, EmptyOptions, ScalarFnRef};
use vortex_lowering::Refusal;
use vortex_standard::Standard;

/// The call of a function on trees.
pub(crate) fn call_on(
    alloc: Global,
    function: ScalarFnRef<Standard>,
    trees: Vec<BoundExpression<Standard>>,
) -> Result<BoundExpression<Standard>, Refusal>
    ensures { Makes (λ t. t) result (specs.call_on (function_of function) trees.items) }
{
    match BoundExpression::try_new(alloc, function, trees) {
        Ok(tree) => Ok(tree),
        Err(error) => Err(Refusal::Binding(error)),
    }
}

/// The call of one of SQL's functions on a tree.
pub(crate) fn call_one(
    alloc: Global,
    function: Standard,
    tree: BoundExpression<Standard>,
) -> Result<BoundExpression<Standard>, Refusal>
    ensures { Makes (λ t. t) result (specs.call_one function tree) }
{
    let function = ScalarFnRef::custom(function, EmptyOptions);
    match vec![in alloc; tree] {
        Ok(trees) => call_on(alloc, function, trees),
        Err(_) => Err(Refusal::Binding(VortexError::OutOfMemory)),
    }
}

/// The call of one of SQL's functions on two trees.
pub(crate) fn call_two(
    alloc: Global,
    function: Standard,
    left: BoundExpression<Standard>,
    right: BoundExpression<Standard>,
) -> Result<BoundExpression<Standard>, Refusal>
    ensures { Makes (λ t. t) result (specs.call_two function left right) }
{
    let function = ScalarFnRef::custom(function, EmptyOptions);
    match vec![in alloc; left, right] {
        Ok(trees) => call_on(alloc, function, trees),
        Err(_) => Err(Refusal::Binding(VortexError::OutOfMemory)),
    }
}
