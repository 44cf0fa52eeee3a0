//! What statistics leave of a tree: a value that they settle is a literal.
ghost use Rattle.std.specs.Prelude.{◌≡◌, Some, None, map, IsUtf8, IsSome, MatchOption};
ghost use Rattle.vortex_errors.specs.Answers.{Answers};
ghost use Rattle.vortex_columns.specs.Words.{value_of, value_or_null, text, HasType};
ghost use Rattle.vortex_functions.specs.Words.{AllMean, AnswersUnlessMemory, children_of};
ghost use Rattle.vortex_functions.specs.Words.{tree_type, type_of};
ghost use Rattle.vortex_rewriting.specs.Places.{with_children};
ghost use Rattle.vortex_ranges.specs.BoundViews.{bound_value, end_of, range_of};
ghost use Rattle.vortex_pruning.specs.Knowing.{RefusesLeaves};
ghost use Rattle.vortex_pruning.specs.Residuals.{sole_between, sole_value, IsNoText, IsSettledTo};
ghost use Rattle.vortex_pruning.specs.Residuals.{IsResidual};

use crate::functions::ScalarFnRanges;
use crate::node::node_range;
use std::alloc::Global;
use std::str;
use vortex_columns::{DType, ExecutionCtx, Scalar, ScalarValue, VortexError, VortexResult};
use vortex_functions::BoundExpression;
use vortex_functions::walk::WalkFrame;
use vortex_ranges::{Bound, Range};
use vortex_statistics::Statistics;

/// What is left of a tree, and what is known of its values.
#[derive(Drop)]
pub struct ResidualTree<'a, T: Drop> {
    pub tree: T,
    pub range: Range<'a>,
}

/// Both ends, if they are one value.
fn sole_between<'a>(range: &Range<'a>) -> Option<Bound<'a>>
    ensures { end_of result ≡ sole_between (range_of range.now).low (range_of range.now).high }
{
    let (Some(low), Some(high)) = (&range.low, &range.high) else {
        return None;
    };
    if low.is_above(high) || high.is_above(low) {
        None
    } else {
        Some(*low)
    }
}

/// The bytes as a text, if they are UTF-8.
fn text_value(alloc: Global, bytes: &[u8]) -> VortexResult<Option<ScalarValue>>
    ensures { AnswersUnlessMemory result
        (λ o. MatchOption o (¬ IsUtf8 bytes.now) (λ v. value_of v ≡ text bytes.now)) }
{
    match str::from_utf8(bytes) {
        Ok(text) => Ok(Some(ScalarValue::Utf8(String::from_str(alloc, text)?))),
        Err(_) => Ok(None),
    }
}

/// The value of an end, unless it is a text that is not UTF-8.
fn end_value(alloc: Global, end: &Bound<'_>) -> VortexResult<Option<ScalarValue>>
    ensures { AnswersUnlessMemory result (λ o. MatchOption o (IsNoText (bound_value end.now))
        (λ v. value_of v ≡ bound_value end.now)) }
{
    match end {
        Bound::Bool(truth) => Ok(Some(ScalarValue::Bool(*truth))),
        Bound::Int(number) => Ok(Some(ScalarValue::Int(*number))),
        Bound::Text(bytes) => text_value(alloc, bytes),
        Bound::Bytes(bytes) => Ok(Some(ScalarValue::Binary(bytes.to_vec(alloc)?))),
    }
}

/// A value of that type, or null; none if the type does not have it.
fn typed_scalar(
    alloc: Global,
    dtype: &DType,
    value: Option<ScalarValue>,
) -> VortexResult<Option<Scalar>>
    ensures { AnswersUnlessMemory result (λ o. MatchOption o
        (¬ HasType (type_of dtype.now) (value_or_null value))
        (λ s. s ≡ record { dtype = type_of dtype.now; value = value_or_null value })) }
{
    match Scalar::try_new(dtype.try_clone(alloc)?, value) {
        Ok(scalar) => Ok(Some(scalar)),
        Err(_) => Ok(None),
    }
}

/// The value of an end with that type; none if the type does not have it.
fn end_scalar(alloc: Global, dtype: &DType, end: &Bound<'_>) -> VortexResult<Option<Scalar>>
    ensures { AnswersUnlessMemory result (λ o. MatchOption o
        (¬ HasType (type_of dtype.now) (bound_value end.now))
        (λ s. s ≡ record { dtype = type_of dtype.now; value = bound_value end.now })) }
{
    match end_value(alloc, end)? {
        Some(value) => typed_scalar(alloc, dtype, Some(value)),
        None => Ok(None),
    }
}

/// The only outcome that a range leaves, with that type; none where it leaves more, or where the
/// type does not have it.
fn sole_scalar(alloc: Global, range: &Range<'_>, dtype: &DType) -> VortexResult<Option<Scalar>>
    ensures { AnswersUnlessMemory result (λ o. MatchOption o
        ((v : _) → ¬ IsSettledTo (type_of dtype.now) (range_of range.now) v)
        (λ s. (s.dtype ≡ type_of dtype.now) × (sole_value (range_of range.now) ≡ Some s.value))) }
{
    if range.may_fault {
        return Ok(None);
    }
    match (range.may_be_value, range.may_be_null) {
        (true, false) => match sole_between(range) {
            Some(end) => end_scalar(alloc, dtype, &end),
            None => Ok(None),
        },
        (false, true) => typed_scalar(alloc, dtype, None),
        _ => Ok(None),
    }
}

/// The trees that are left of children.
fn trees_in<C: ScalarFnRanges>(
    alloc: Global,
    inputs: &[ResidualTree<'_, BoundExpression<C>>],
) -> VortexResult<Vec<BoundExpression<C>>>
    ensures { AnswersUnlessMemory result
        (λ trees. trees.items ≡ map (λ r. r.tree) inputs.now) }
{
    let mut trees = Vec::new(alloc);
    for input in inputs {
        trees.push(input.tree.try_clone(alloc)?)?;
    }
    Ok(trees)
}

/// Their ranges.
fn ranges_in<'a, C: ScalarFnRanges>(
    alloc: Global,
    inputs: &[ResidualTree<'a, BoundExpression<C>>],
) -> VortexResult<Vec<Range<'a>>>
    ensures { AnswersUnlessMemory result
        (λ ranges. ranges.items ≡ map (λ r. r.range) inputs.now) }
{
    let mut ranges = Vec::new(alloc);
    for input in inputs {
        ranges.push(input.range)?;
    }
    Ok(ranges)
}

/// The node over children on which it is well typed.
fn over_children<C: ScalarFnRanges>(
    alloc: Global,
    node: &BoundExpression<C>,
    children: Vec<BoundExpression<C>>,
) -> VortexResult<BoundExpression<C>>
    requires { IsSome (tree_type C.meaning (with_children node.now children.items)) }
    ensures { AnswersUnlessMemory result (λ made. made ≡ with_children node.now children.items) }
{
    match node.as_scalar() {
        Some(function) => BoundExpression::try_new(alloc, function.try_clone(alloc)?, children),
        None => node.try_clone(alloc),
    }
}

/// What is left of a node, from what is left of its children.
fn node_residual<'a, C: ScalarFnRanges>(
    alloc: Global,
    node: &'a BoundExpression<C>,
    inputs: Vec<ResidualTree<'a, BoundExpression<C>>>,
    statistics: &'a [Statistics],
    rows: u64,
) -> VortexResult<ResidualTree<'a, BoundExpression<C>>>
    requires { AllMean (IsResidual C.meaning rows statistics.now) (children_of node.now)
        inputs.items }
    ensures { Answers result (IsResidual C.meaning rows statistics.now node.now)
        (RefusesLeaves statistics.now node.now) }
{
    let _typed = node.dtype();
    let ranges = ranges_in(alloc, &inputs)?;
    let range = node_range(alloc, node, &ranges, statistics, rows)?;
    if let Some(scalar) = sole_scalar(alloc, &range, node.dtype())? {
        let tree = BoundExpression::lit(alloc, scalar);
        return Ok(ResidualTree { tree, range });
    }
    let children = trees_in(alloc, &inputs)?;
    let tree = over_children(alloc, node, children)?;
    Ok(ResidualTree { tree, range })
}

/// What is left of a tree over so many rows, whatever columns the statistics describe, which stand
/// in the places of the scope: each part whose range leaves one value, and no fault, is a literal.
/// In each row what is left has the tree's outcome, faults among them, so it may run in the tree's
/// place over these rows. E11 exactly where a leaf has no statistics in its place, or some of
/// another type; and E9.
///
/// Children come before their parent, from left to right, in a list of frames: depth uses memory
/// and no stack. Rules make what is left smaller: `false and x` is `false`.
pub fn residual<'a, C: ScalarFnRanges>(
    tree: &'a BoundExpression<C>,
    statistics: &'a [Statistics],
    rows: u64,
    ctx: &mut ExecutionCtx,
) -> VortexResult<ResidualTree<'a, BoundExpression<C>>>
    ensures { Answers result (IsResidual C.meaning rows statistics.now tree.now)
        (RefusesLeaves statistics.now tree.now) }
{
    let alloc = ctx.alloc();
    let mut above = Vec::new(alloc);
    let mut node = tree;
    let mut inputs = Vec::new(alloc);
    for step in 0..u64::MAX {
        let _ = step;
        if inputs.len() < node.children().len() {
            let child = node.child(inputs.len());
            above.push(WalkFrame {
                node,
                outputs: inputs,
            })?;
            node = child;
            inputs = Vec::new(alloc);
            continue;
        }
        let output = node_residual(alloc, node, inputs, statistics, rows)?;
        let Some(parent) = above.pop() else {
            return Ok(output);
        };
        node = parent.node;
        inputs = parent.outputs;
        inputs.push(output)?;
    }
    // never reached: no memory holds so many nodes
    Err(VortexError::OutOfMemory)
}
