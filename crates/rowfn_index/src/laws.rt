//! A law of indexes. The function is empty: its contract is the law, proved.
ghost use Rattle.rowfn_index.specs.Kept.{KeepsRows};

use crate::chunk::Chunk;
use vortex_functions::BoundExpression;
use vortex_interface::ScalarFnVTable;
use vortex_pruning::{FieldStatistics, Pruned};

/// By what `prune_groups` says of a condition, the rows that are written of a chunk are those in which
/// the condition is true, whatever the chunk's columns are, if the statistics describe them: none
/// where it is skipped, all where it is copied. And in neither case does a row fault.
pub fn chunks_keep_their_rows<C: ScalarFnVTable>(
    tree: &BoundExpression<C>,
    fields: &[FieldStatistics],
    rows: &[u64],
    pruned: &[Pruned],
    chunks: &[Chunk],
    copies: bool,
)
    ensures { KeepsRows C.meaning tree.now fields.now rows.now pruned.now chunks.now copies }
{
    let _typed = tree.dtype();
}
