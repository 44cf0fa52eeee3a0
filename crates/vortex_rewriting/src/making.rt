//! Calls that rules make: of functions that accept their operands, so that only memory can fail.
ghost use Rattle.std.specs.Prelude.{◌≡◌, IsSome};
ghost use Rattle.vortex_interface.specs.Trees.{call, no_trees, tree};
ghost use Rattle.vortex_functions.specs.Words.{tree_type, function_of, AnswersUnlessMemory};
ghost use Rattle.vortex_rewriting.specs.Contexts.{with_tree};

use crate::node::ReduceTree;
use std::alloc::Global;
use vortex_columns::VortexResult;
use vortex_functions::ScalarFnRef;
use vortex_interface::ScalarFnVTable;

/// The call of a function on one operand, in its context.
pub(crate) fn call_on_one<C: ScalarFnVTable, T: ReduceTree<C>>(
    alloc: Global,
    function: ScalarFnRef<C>,
    operand: T,
) -> VortexResult<T>
    requires { IsSome (tree_type C.meaning
        (call (function_of function) (tree (T.seen operand).tree no_trees))) }
    ensures { AnswersUnlessMemory result (λ made. T.seen made ≡ with_tree (T.seen operand)
        (call (function_of function) (tree (T.seen operand).tree no_trees))) }
{
    let mut operands = Vec::new(alloc);
    operands.push(operand)?;
    operands[0].new_node(alloc, function, &operands)
}

/// The same on two operands of one context.
pub(crate) fn call_on_two<C: ScalarFnVTable, T: ReduceTree<C>>(
    alloc: Global,
    function: ScalarFnRef<C>,
    left: T,
    right: T,
) -> VortexResult<T>
    requires accepts { IsSome (tree_type C.meaning (call (function_of function)
        (tree (T.seen left).tree (tree (T.seen right).tree no_trees)))) }
    requires same_context { (T.seen left).context ≡ (T.seen right).context }
    ensures { AnswersUnlessMemory result (λ made. T.seen made ≡ with_tree (T.seen left)
        (call (function_of function)
        (tree (T.seen left).tree (tree (T.seen right).tree no_trees)))) }
{
    let mut operands = Vec::new(alloc);
    operands.push(left)?;
    operands.push(right)?;
    operands[0].new_node(alloc, function, &operands)
}
