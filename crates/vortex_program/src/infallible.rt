//! Whether a tree faults in no row, whatever its columns hold, and whether it matches a pattern.
ghost use Rattle.std.specs.Prelude.{IfSome, IsTrue};
ghost use Rattle.vortex_errors.specs.Answers.{AnswersUnlessMemory};
ghost use Rattle.vortex_standard.specs.Standard.{standard_meaning};
ghost use Rattle.vortex_program.specs.Deciding.{IsInfallible, IsNodeInfallible};

use std::alloc::Global;
use vortex_columns::VortexResult;
use vortex_functions::BoundExpression;
use vortex_standard::Standard;

/// Whether the function of a node faults for no values. A leaf has none.
fn is_node_infallible(node: &BoundExpression<Standard>) -> bool
    ensures { IsTrue result → IsNodeInfallible standard_meaning node.now }
{
    match node.as_scalar() {
        Some(function) => function.signature().is_infallible,
        None => true,
    }
}

/// Whether the function of a node matches texts with a pattern.
fn has_pattern(node: &BoundExpression<Standard>) -> bool {
    match node.as_scalar() {
        Some(function) => function.as_like().is_some(),
        None => false,
    }
}

/// Whether a tree matches a pattern, if each call of it is of a function that faults for no values;
/// none if one is not. By a list of the nodes that are still to be read.
pub(crate) fn infallible_pattern(
    alloc: Global,
    tree: &BoundExpression<Standard>,
) -> VortexResult<Option<bool>>
    ensures { AnswersUnlessMemory result
        (λ found. IfSome found (λ _. IsInfallible standard_meaning tree.now)) }
{
    let mut list: Vec<&BoundExpression<Standard>> = Vec::new(alloc);
    let mut node = tree;
    let mut matches = false;
    loop {
        if !is_node_infallible(node) {
            return Ok(None);
        }
        matches = matches || has_pattern(node);
        for child in node.children() {
            list.push(child)?;
        }
        let Some(next) = list.pop() else {
            return Ok(Some(matches));
        };
        node = next;
    }
}
