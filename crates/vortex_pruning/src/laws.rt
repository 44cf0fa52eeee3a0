//! A law of pruning and rewriting. The function is empty: its contract is the law, proved.
ghost use Rattle.vortex_pruning.specs.Rewritten.{VerdictsHoldOfRewrites};

use vortex_functions::BoundExpression;
use vortex_interface::ScalarFnVTable;
use vortex_statistics::Statistics;

/// Where `prune` says of a condition that no row faults, what it says holds of whatever rules make
/// of the condition: so a caller may prune by the written tree and run the rewritten one. Where a
/// row may fault, prune by the tree that runs.
pub fn verdicts_hold_of_rewrites<C: ScalarFnVTable>(
    tree: &BoundExpression<C>,
    statistics: &[Statistics],
    rows: u64,
)
    ensures { VerdictsHoldOfRewrites C.meaning rows statistics.now tree.now }
{
    let _typed = tree.dtype();
}
