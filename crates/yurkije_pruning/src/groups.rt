//! Conditions over groups of rows, by statistics that are lent.
ghost use Rattle.std.specs.Prelude.{MatchResult};
ghost use Rattle.vortex_types.specs.TypeOf.{struct_fields};
ghost use Rattle.yurkije_pruning.specs.Pruning.{PrunesLent, RefusesLent};

use crate::error::PruneError;
use crate::fields::read_statistics;
use crate::lent::BorrowedStatistics;
use std::alloc::Global;
use vortex_columns::{ExecutionCtx, StructFields};
use vortex_functions::BoundExpression;
use vortex_logical::kind::Kind;
use vortex_pruning::{Pruned, ScalarFnRanges, prune_groups};

/// What is known of a condition in each group of rows, of which each has so many, by the statistics
/// of the fields of its scope, whose values are of these kinds, by place: what `prune_groups` says over the columns that are lent.
///
/// Refuses a tree whose values are no truth values; then statistics that `read_statistics` refuses;
/// then the first group in which the statistics of a field contradict themselves. E9 where an
/// allocation fails.
pub fn prune_lent<C: ScalarFnRanges>(
    alloc: Global,
    tree: &BoundExpression<C>,
    scope: &StructFields,
    kinds: &[Kind],
    lent: &[BorrowedStatistics<'_>],
    rows: &[u64],
) -> Result<Vec<Pruned>, PruneError>
    ensures { MatchResult result
        (λ found. PrunesLent C.meaning (struct_fields scope.now) kinds.now lent.now tree.now
        rows.now found.items)
        (RefusesLent C.meaning (struct_fields scope.now) kinds.now lent.now tree.now rows.now) }
{
    if !tree.dtype().is_boolean() {
        return Err(PruneError::NoCondition);
    }
    let fields = match read_statistics(alloc, scope, kinds, lent, rows.len()) {
        Ok(fields) => fields,
        Err(error) => return Err(error),
    };
    let mut ctx = ExecutionCtx::new(alloc);
    match prune_groups(tree, &fields, rows, &mut ctx) {
        Ok(found) => Ok(found),
        Err(error) => Err(PruneError::Groups(error)),
    }
}
