//! The range of a node, from those of its children.
ghost use Rattle.std.specs.Prelude.{◌≡◌, None, Some, MatchOption, slice_get};
ghost use Rattle.vortex_functions.specs.Words.{AllMean, AnswersUnlessMemory, children_of, called};
ghost use Rattle.vortex_functions.specs.Words.{function_of, literal, type_of};
ghost use Rattle.vortex_statistics.specs.StatisticsView.{AreConsistent};
ghost use Rattle.vortex_ranges.specs.BoundViews.{range_of};
ghost use Rattle.vortex_pruning.specs.Knowing.{Knows, AnswersRange, HasStatistics};

use crate::call::{any_may_fault, call_range, with_faults};
use crate::functions::ScalarFnRanges;
use std::alloc::Global;
use vortex_columns::{DType, VortexError, VortexResult};
use vortex_functions::{BoundExpression, ScalarFnRef};
use vortex_ranges::Range;
use vortex_statistics::Statistics;

/// The statistics in that place, if they have that type.
fn statistics_at<'a>(
    statistics: &'a [Statistics],
    place: usize,
    dtype: &DType,
) -> Option<&'a Statistics>
    ensures { MatchOption result (¬ HasStatistics statistics.now place (type_of dtype.now))
        (λ s. (slice_get statistics.now place ≡ Some s.now) × (s.now.dtype ≡ type_of dtype.now)
        × AreConsistent s.now) }
{
    let found = statistics.get(place)?;
    if *found.dtype() == *dtype {
        Some(found)
    } else {
        None
    }
}

/// The range of a leaf.
fn column_range<'a, C: ScalarFnRanges>(
    node: &'a BoundExpression<C>,
    statistics: &'a [Statistics],
    rows: u64,
) -> VortexResult<Range<'a>>
    requires no_call { called node.now ≡ None }
    requires no_literal { None ≡ literal node.now }
    ensures { AnswersRange C.meaning rows statistics.now node.now result }
{
    let Some(place) = node.as_column() else {
        return Err(VortexError::ScopeMismatch);
    };
    match statistics_at(statistics, place, node.dtype()) {
        Some(found) => Ok(Range::described(found, rows)),
        None => Err(VortexError::ScopeMismatch),
    }
}

/// The range of a leaf or a literal.
fn leaf_range<'a, C: ScalarFnRanges>(
    node: &'a BoundExpression<C>,
    statistics: &'a [Statistics],
    rows: u64,
) -> VortexResult<Range<'a>>
    requires { called node.now ≡ None }
    ensures { AnswersRange C.meaning rows statistics.now node.now result }
{
    let _typed = node.dtype();
    match node.as_literal() {
        Some(scalar) => Ok(Range::literal(scalar)),
        None => column_range(node, statistics, rows),
    }
}

/// The range of a call.
fn called_range<'a, C: ScalarFnRanges>(
    alloc: Global,
    node: &BoundExpression<C>,
    function: &ScalarFnRef<C>,
    inputs: &[Range<'a>],
    statistics: &[Statistics],
    rows: u64,
) -> VortexResult<Range<'a>>
    requires called { called node.now ≡ Some (function_of function.now) }
    requires inputs { AllMean (λ t r. Knows C.meaning rows statistics.now t (range_of r))
        (children_of node.now) inputs.now }
    ensures { AnswersUnlessMemory result
        (λ r. Knows C.meaning rows statistics.now node.now (range_of r)) }
{
    let own = call_range(alloc, function, node.dtype(), inputs)?;
    Ok(with_faults(own, any_may_fault(inputs)))
}

/// The range of a node.
pub(crate) fn node_range<'a, C: ScalarFnRanges>(
    alloc: Global,
    node: &'a BoundExpression<C>,
    inputs: &[Range<'a>],
    statistics: &'a [Statistics],
    rows: u64,
) -> VortexResult<Range<'a>>
    requires { AllMean (λ t r. Knows C.meaning rows statistics.now t (range_of r))
        (children_of node.now) inputs.now }
    ensures { AnswersRange C.meaning rows statistics.now node.now result }
{
    match node.as_scalar() {
        Some(function) => called_range(alloc, node, function, inputs, statistics, rows),
        None => leaf_range(node, statistics, rows),
    }
}
