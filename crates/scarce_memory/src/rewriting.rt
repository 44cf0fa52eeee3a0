//! Rules over trees and arrays, which are borrowed: nodes, lists of steps, and runs.

use crate::comparing::{are_same, unless_changed};
use crate::seen::Tally;
use crate::trees::{UNKNOWN, array_answers, has_text, missing, two_rows};
use fixtures::{Made, kept, nullable_bools};
use std::alloc::Global;
use std::borrow::Cow;
use tree_fixtures::array_makers::{Held, over_columns};
use tree_fixtures::makers::*;
use tree_fixtures::rewritten::unknown_sum;
use vortex_arrays::*;
use vortex_columns::*;
use vortex_functions::*;
use vortex_operators::*;
use vortex_rewriting::*;

/// The result of the rules for `is_null((a + b) = c)`.
const SPLIT: &str = "vortex.not(((is_not_null($.a) and is_not_null($.b)) and is_not_null($.c)))";

/// True, false, true.
const ROWS: [Option<bool>; 3] = [Some(true), Some(false), Some(true)];

/// Whether a run gives this column over those of a table, and neither tree nor columns are changed.
fn runs<C: ScalarFnRules>(alloc: Global, tree: Bound<C>, expected: Made) -> VortexResult<bool> {
    let (tree, expected, table) = (tree?, expected?, two_rows(alloc)?);
    let mut ctx = ExecutionCtx::new(alloc);
    let answer = run(&*tree, table.columns(), 2, 10, &mut ctx);
    let answer = table.answer(alloc, answer, &*expected);
    unless_changed(has_text(alloc, &*tree, UNKNOWN), answer)
}

/// And of a constant true of nullable Bool and of true, false, true.
fn true_and_rows<C: ScalarFnVTable>(alloc: Global) -> Held<C> {
    let truth = Scalar::bool(true, Nullability::Nullable);
    let truths = kept(alloc, Column::constant(alloc, truth, 3));
    let rows = nullable_bools(alloc, &ROWS);
    over_columns(alloc, truths, Operator::And, rows)
}

/// Whether a column is this one.
fn is_column(column: Made, expected: Made) -> VortexResult<bool> {
    Ok(are_same(&*column?, &*expected?))
}

/// Whether a run over an array gives this column, and the array still has its rows.
fn runs_array<C: ScalarFnRules>(
    alloc: Global,
    array: Held<C>,
    expected: Made,
) -> VortexResult<bool> {
    let array = array?;
    let mut ctx = ExecutionCtx::new(alloc);
    let answer = kept(alloc, run_array(&*array, 10, &mut ctx));
    let answer = is_column(answer, expected);
    unless_changed(array_answers(alloc, Ok(array), &ROWS), answer)
}

/// Whether two steps, one of them at a place below, give the tree to which no rule applies.
fn is_split<C: ScalarFnRules>(alloc: Global, tree: &BoundExpression<C>) -> VortexResult<bool> {
    let steps: [(&[usize], Rule); 2] = [(&[], Rule::Reduce), (&[0, 0], Rule::Reduce)];
    let made = Box::new(alloc, tree.rewrite_list(alloc, &steps)?)?;
    Ok(made.applied == 2 && has_text(alloc, &made.tree, SPLIT)?)
}

/// The same, and the tree itself is unchanged.
fn lists<C: ScalarFnRules>(alloc: Global, tree: Bound<C>) -> VortexResult<bool> {
    let tree = tree?;
    let answer = is_split(alloc, &*tree);
    unless_changed(has_text(alloc, &*tree, UNKNOWN), answer)
}

/// Not of column `a`.
fn turned<C: ScalarFnRules>(alloc: Global) -> Bound<C> {
    not_of(alloc, leaf(alloc, "a"))
}

/// The text of Not of column `a`.
const TURNED: &str = "vortex.not($.a)";

/// Whether a node represents a tree of that text.
fn stands_for<C: ScalarFnRules>(
    alloc: Global,
    node: &ExpressionReduceNode<'_, C>,
    expected: &str,
) -> VortexResult<bool> {
    has_text(alloc, node.expression(), expected)
}

/// Whether the child of a node is the leaf of column `a`.
fn is_child<C: ScalarFnRules>(
    alloc: Global,
    node: &ExpressionReduceNode<'_, C>,
) -> VortexResult<bool> {
    if node.child_count() != 1 {
        return Ok(false);
    }
    let child = node.child(alloc, 0)?;
    stands_for(alloc, &child, "$.a")
}

/// The same for a node with an owned tree, which is unchanged. Borrows from a caller's function
/// outlive the node.
fn has_child<'a, C: ScalarFnRules + 'a>(alloc: Global, tree: Bound<C>) -> VortexResult<bool> {
    let tree = Box::into_inner(tree?);
    let node: ExpressionReduceNode<'a, C> = ExpressionReduceNode::new(Cow::Owned(tree));
    let answer = is_child(alloc, &node);
    unless_changed(stands_for(alloc, &node, TURNED), answer)
}

/// Whether a node makes the call of Not on itself.
fn is_turned<C: ScalarFnRules>(alloc: Global, tree: &BoundExpression<C>) -> VortexResult<bool> {
    let children = [ExpressionReduceNode::new(Cow::Borrowed(tree))];
    let made = children[0].new_node(alloc, ScalarFnRef::Not, &children)?;
    stands_for(alloc, &made, "vortex.not(vortex.not($.a))")
}

/// The same, and its tree is unchanged.
fn makes_node<C: ScalarFnRules>(alloc: Global, tree: Bound<C>) -> VortexResult<bool> {
    let tree = tree?;
    let answer = is_turned(alloc, &*tree);
    unless_changed(has_text(alloc, &*tree, TURNED), answer)
}

/// Whether a node makes the literal true.
fn is_literal<C: ScalarFnRules>(alloc: Global, tree: &BoundExpression<C>) -> VortexResult<bool> {
    let node = ExpressionReduceNode::new(Cow::Borrowed(tree));
    let made = node.new_constant(alloc, Scalar::from(true))?;
    stands_for(alloc, &made, "true")
}

/// The same, and its tree is unchanged.
fn makes_literal<C: ScalarFnRules>(alloc: Global, tree: Bound<C>) -> VortexResult<bool> {
    let tree = tree?;
    let answer = is_literal(alloc, &*tree);
    unless_changed(has_text(alloc, &*tree, TURNED), answer)
}

/// Whether a node over an array makes a constant of its rows.
fn is_constant<C: ScalarFnRules>(alloc: Global, array: &ArrayRef<C>) -> VortexResult<bool> {
    let node = ArrayReduceNode::new(Cow::Borrowed(array));
    let made = node.new_constant(alloc, Scalar::from(true))?;
    Ok(made.array().len() == 3 && made.as_constant() == Some(&Scalar::from(true)))
}

/// The same, and whether the array still has its own rows.
fn makes_constant<C: ScalarFnRules>(alloc: Global, array: Held<C>) -> VortexResult<bool> {
    let array = array?;
    let answer = is_constant(alloc, &*array);
    unless_changed(array_answers(alloc, Ok(array), &ROWS), answer)
}

/// The calls of rules.
fn ask_nodes<C: ScalarFnRules>(alloc: Global, tally: &mut Tally) {
    tally.note("child", has_child::<C>(alloc, turned(alloc)));
    tally.note("new_node", makes_node::<C>(alloc, turned(alloc)));
    tally.note("new_constant", makes_literal::<C>(alloc, turned(alloc)));
    tally.note(
        "new_constant of an array",
        makes_constant::<C>(alloc, true_and_rows(alloc)),
    );
}

fn ask_runs<C: ScalarFnRules>(alloc: Global, tally: &mut Tally) {
    tally.note("rewrite_list", lists::<C>(alloc, unknown_sum(alloc)));
    tally.note("run", runs::<C>(alloc, unknown_sum(alloc), missing(alloc)));
    let rows = nullable_bools(alloc, &ROWS);
    tally.note(
        "run_array",
        runs_array::<C>(alloc, true_and_rows(alloc), rows),
    );
}

pub fn ask(alloc: Global, tally: &mut Tally) {
    ask_nodes::<NoCustom>(alloc, tally);
    ask_runs::<NoCustom>(alloc, tally);
}
