//! What is done with the chunks of a file, one after the other.
ghost use Rattle.std.specs.Prelude.{◌≡◌, ◌++◌, ◌∷◌, [], IfOk, OnOk, length, map};
ghost use Rattle.std.specs.List.{range_with_len};
ghost use Rattle.rowfn_index.specs.Steps.{action_of, action_at, expanded};

use crate::chunk::Chunk;
use std::alloc::{AllocError, Global};
use vortex_pruning::{Pruned, Verdict};

/// What is done with a chunk.
#[derive(Clone, Copy, Debug, PartialEq, Eq)]
pub enum Action {
    /// Its rows are read, and what is asked is computed.
    Run,
    /// It is not read.
    Skip,
    /// Its bytes are written.
    Copy,
}

/// The same is done with so many chunks.
#[derive(Clone, Copy, Debug, PartialEq, Eq)]
pub struct Step {
    pub action: Action,
    pub count: usize,
}

/// What is done with a chunk of which that is known. `copies` says whether rows are written as they
/// are.
fn action_of(pruned: &Pruned, chunk: &Chunk, copies: bool) -> Action
    ensures { result ≡ action_of copies pruned.now chunk.now }
{
    match pruned.verdict {
        Verdict::NoneTrue if pruned.faultless => Action::Skip,
        Verdict::AllTrue if copies && chunk.whole => Action::Copy,
        _ => Action::Run,
    }
}

/// What is done with the chunk of that number; one of which nothing is known is run.
fn action_at(pruned: &[Pruned], chunks: &[Chunk], copies: bool, number: usize) -> Action
    ensures { result ≡ action_at copies pruned.now chunks.now number }
{
    match (pruned.get(number), chunks.get(number)) {
        (Some(pruned), Some(chunk)) => action_of(pruned, chunk, copies),
        (None, _) | (_, None) => Action::Run,
    }
}

/// Adds a chunk to the steps: to the last where the same is done with its chunks.
fn push_action(steps: &mut Vec<Step>, action: Action) -> Result<(), AllocError>
    ensures { OnOk result (expanded steps.new.items ≡ expanded steps.old.items ++ (action ∷ [])) }
{
    let Some(last) = steps.pop() else {
        steps.push(Step { action, count: 1 })?;
        return Ok(());
    };
    if last.action == action && last.count < usize::MAX {
        let count = last.count + 1;
        steps.push(Step { action, count })?;
        return Ok(());
    }
    steps.push(last)?;
    steps.push(Step { action, count: 1 })?;
    Ok(())
}

/// What is done with each chunk, in their order. A chunk is skipped only where no row of it is true
/// and none faults, and copied only where each row of it is true, its bytes are the lines of its rows,
/// and rows are written as they are, as `copies` says.
pub fn chunk_steps(
    alloc: Global,
    pruned: &[Pruned],
    chunks: &[Chunk],
    copies: bool,
) -> Result<Vec<Step>, AllocError>
    ensures { IfOk result (λ made. expanded made.items
        ≡ map (action_at copies pruned.now chunks.now) (range_with_len 0 (length chunks.now))) }
{
    let mut made = Vec::new(alloc);
    for number in 0..chunks.len() {
        push_action(&mut made, action_at(pruned, chunks, copies, number))?;
    }
    Ok(made)
}
