//! Some rows of a batch, where they lie.
ghost use Rattle.std.specs.Prelude.{ℕ, All, IfSome, map};
ghost use Rattle.vortex_functions.specs.Walks.{AllMean};
ghost use Rattle.vortex_arrow.specs.Columns.{arrow_column};
ghost use Rattle.vortex_program.specs.Rows.{HasRows};
ghost use Rattle.yurkije_columns.specs.Batches.{batch_column};
ghost use Rattle.yurkije_core.specs.Chunks.{HasChunk, HasChunkIfRead};

use std::alloc::Global;
use vortex_arrow::ArrowColumn;

/// Some rows of a column. Where it has no null, no bits are read.
pub(crate) fn chunk_of<'a>(column: &ArrowColumn<'a>, first: usize, count: usize) -> ArrowColumn<'a>
    requires { HasChunk first count column.now }
    ensures { HasRows first count (arrow_column column.now) (arrow_column result) }
{
    ArrowColumn {
        nullable: column.nullable,
        length: count,
        offset: column.offset + first,
        validity: if column.nullable {
            column.validity
        } else {
            None
        },
        values: column.values,
    }
}

/// Some rows of a column, if it is read.
fn part_of<'a>(
    column: &Option<ArrowColumn<'a>>,
    first: usize,
    count: usize,
) -> Option<ArrowColumn<'a>>
    requires { HasChunkIfRead first count column.now }
    ensures { (n : ℕ) → HasRows first count (batch_column n column.now) (batch_column count result) }
{
    match column {
        Some(column) => Some(chunk_of(column, first, count)),
        None => None,
    }
}

/// Some rows of each column. None where memory is refused.
pub(crate) fn parts_of<'a>(
    alloc: Global,
    columns: &[Option<ArrowColumn<'a>>],
    first: usize,
    count: usize,
) -> Option<Vec<Option<ArrowColumn<'a>>>>
    requires { All (HasChunkIfRead first count) columns.now }
    ensures { IfSome result (λ parts. (n : ℕ) → AllMean (HasRows first count)
        (map (batch_column n) columns.now) (map (batch_column count) parts.items)) }
{
    let mut parts = Vec::new(alloc);
    for k in 0..columns.len() {
        let Ok(()) = parts.push(part_of(&columns[k], first, count)) else {
            return None;
        };
    }
    Some(parts)
}
