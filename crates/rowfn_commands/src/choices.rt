//! Expressions that choose among parts, each of which is computed in each row.

use rowfn_batches::StreamError;
use rowfn_queries::{Query, Question};
use std::alloc::{AllocError, Global};
use vortex_functions::{BoundExpression, ScalarFnRef};
use vortex_standard::Standard;

/// Whether a node is a choice: CASE, `if` or coalesce.
fn is_choice(node: &BoundExpression<Standard>) -> bool {
    match node.as_scalar() {
        Some(ScalarFnRef::Custom(custom)) => {
            matches!(custom.vtable(), Standard::Case | Standard::Coalesce)
        }
        _ => false,
    }
}

/// Whether a node is a choice, and a part behind the first one is a call, which may fault where the
/// part is not chosen.
fn has_call_chosen(node: &BoundExpression<Standard>) -> bool {
    match node.children() {
        [_, parts @ ..] if is_choice(node) => {
            parts.iter().any(|part| !part.children().is_empty())
        }
        _ => false,
    }
}

/// Adds the children of a node to a list of nodes.
fn push_children<'t>(
    list: &mut Vec<&'t BoundExpression<Standard>>,
    node: &'t BoundExpression<Standard>,
) -> Result<(), AllocError> {
    for child in node.children() {
        list.push(child)?;
    }
    Ok(())
}

/// Whether a tree has such a node.
fn has_choice(alloc: Global, tree: &BoundExpression<Standard>) -> Result<bool, AllocError> {
    let mut list: Vec<&BoundExpression<Standard>> = Vec::new(alloc);
    list.push(tree)?;
    for _turn in 0..tree.weight() {
        let Some(node) = list.pop() else {
            return Ok(false);
        };
        if has_call_chosen(node) {
            return Ok(true);
        }
        push_children(&mut list, node)?;
    }
    Ok(false)
}

/// Whether a tree of a question has such a node.
fn question_chooses(alloc: Global, question: &Option<Question>) -> Result<bool, AllocError> {
    let Some(question) = question else {
        return Ok(false);
    };
    for answer in question.program.optimized.iter() {
        if has_choice(alloc, &answer.tree)? {
            return Ok(true);
        }
    }
    Ok(false)
}

/// Whether a call faults in a row, where the query has a choice with a call in a part that may not be
/// chosen there.
pub(crate) fn is_fault_of_choices(alloc: Global, query: &Query, error: &StreamError) -> bool {
    if !matches!(error, StreamError::Fault { .. }) {
        return false;
    }
    let answers = question_chooses(alloc, &query.answers);
    let condition = question_chooses(alloc, &query.condition);
    matches!(answers, Ok(true)) || matches!(condition, Ok(true))
}
