//! Trees over every row that statistics describe.
ghost use Rattle.std.specs.Prelude.{◌≡◌, IfSome};
ghost use Rattle.vortex_errors.specs.Answers.{Answers};
ghost use Rattle.vortex_ranges.specs.BoundViews.{range_of};
ghost use Rattle.vortex_pruning.specs.Knowing.{AnswersRange, Knows, RefusesLeaves};
ghost use Rattle.vortex_pruning.specs.Pruning.{Prunes, RefusesPruning};

use crate::functions::ScalarFnRanges;
use crate::node::node_range;
use crate::pruned::Pruned;
use std::alloc::Global;
use vortex_columns::{ExecutionCtx, MismatchPlace, VortexError, VortexResult};
use vortex_functions::BoundExpression;
use vortex_functions::walk::WalkFrame;
use vortex_ranges::Range;
use vortex_statistics::Statistics;

/// The range of a leaf, or of a call of two leaves, which needs no frame, and no list on the heap.
/// None for other nodes.
fn near_range<'a, C: ScalarFnRanges>(
    alloc: Global,
    node: &'a BoundExpression<C>,
    statistics: &'a [Statistics],
    rows: u64,
) -> VortexResult<Option<Range<'a>>>
    ensures { Answers result
        (λ o. IfSome o (λ r. Knows C.meaning rows statistics.now node.now (range_of r)))
        (RefusesLeaves statistics.now node.now) }
{
    match node.children() {
        [] => Ok(Some(node_range(alloc, node, &[], statistics, rows)?)),
        [left, right] if left.children().is_empty() && right.children().is_empty() => {
            let left = node_range(alloc, left, &[], statistics, rows)?;
            let right = node_range(alloc, right, &[], statistics, rows)?;
            Ok(Some(node_range(alloc, node, &[left, right], statistics, rows)?))
        }
        _ => Ok(None),
    }
}

/// What is known of a tree of any type in each of so many rows, whatever columns the statistics
/// describe, which stand in the places of the scope. E11 exactly where a leaf has no statistics in
/// its place, or some of another type; and E9.
///
/// Children come before their parent, from left to right, in a list of frames: depth uses memory
/// and no stack.
pub fn ranges<'a, C: ScalarFnRanges>(
    tree: &'a BoundExpression<C>,
    statistics: &'a [Statistics],
    rows: u64,
    ctx: &mut ExecutionCtx,
) -> VortexResult<Range<'a>>
    ensures { AnswersRange C.meaning rows statistics.now tree.now result }
{
    let alloc = ctx.alloc();
    let mut above = Vec::new(alloc);
    let mut node = tree;
    let mut inputs = Vec::new(alloc);
    for step in 0..u64::MAX {
        let _ = step;
        if inputs.len() < node.children().len() {
            let child = node.child(inputs.len());
            if let Some(output) = near_range(alloc, child, statistics, rows)? {
                inputs.push(output)?;
                continue;
            }
            above.push(WalkFrame {
                node,
                outputs: inputs,
            })?;
            node = child;
            inputs = Vec::new(alloc);
            continue;
        }
        let output = node_range(alloc, node, &inputs, statistics, rows)?;
        let Some(parent) = above.pop() else {
            return Ok(output);
        };
        node = parent.node;
        inputs = parent.outputs;
        inputs.push(output)?;
    }
    // never reached: no memory holds so many nodes
    Err(VortexError::OutOfMemory)
}

/// What is known of a condition in each of so many rows, whatever columns the statistics describe,
/// which stand in the places of the scope: whether no row is true, or every row is; whether no row
/// faults; and between which ends the number of true rows lies.
///
/// No more can be known of a condition of And, Or, Not, comparisons, null tests, BETWEEN with bounds
/// that are literals in order, and LIKE with a prefix and `%` of a column with a high end, that reads
/// each column once, where no column has as few rows as its attained ends (`specs/Sharpness.antt`).
///
/// In order: E11 exactly where a leaf has no statistics in its place, or some of another type; E3
/// exactly where the tree is not of Bool; and E9. A fault excludes nothing: where a row may fault,
/// `NoneTrue` says that it is not true, and `faultless` is not set.
pub fn prune<C: ScalarFnRanges>(
    tree: &BoundExpression<C>,
    statistics: &[Statistics],
    rows: u64,
    ctx: &mut ExecutionCtx,
) -> VortexResult<Pruned>
    ensures { Answers result (Prunes C.meaning rows statistics.now tree.now)
        (RefusesPruning C.meaning statistics.now tree.now) }
{
    let range = ranges(tree, statistics, rows, ctx)?;
    if !tree.dtype().is_boolean() {
        return Err(VortexError::TypeMismatch(MismatchPlace::Boolean));
    }
    Ok(Pruned::of_range(&range, rows))
}
