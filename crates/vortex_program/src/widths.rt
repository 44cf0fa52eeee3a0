//! Over how many rows trees are run at once: over more where a list is long, since what each run
//! makes of its items, columns and a set, is then shared by more rows.
ghost use Rattle.std.specs.Prelude.{◌≡◌, length, max};
ghost use Rattle.vortex_errors.specs.Answers.{AnswersUnlessMemory};
ghost use Rattle.vortex_interface.specs.Trees as specs;
ghost use Rattle.vortex_interface.specs.Trees.{children_of};
ghost use Rattle.vortex_program.specs.Programs.{trees_of};
ghost use Rattle.vortex_program.specs.Widths.{most_children, most_children_in, rows_at_once};

use crate::answer::Answer;
use std::alloc::Global;
use vortex_columns::VortexResult;
use vortex_functions::BoundExpression;
use vortex_standard::Standard;

/// How many children a node has, or the most so far where that is more.
fn wider(node: &BoundExpression<Standard>, most: usize) -> usize
    ensures { result ≡ max (length (children_of node.now)) most }
{
    node.children().len().max(most)
}

/// The most children that a node of a tree has, by a list of the nodes that are still to be read.
/// E9 where an allocation fails.
fn tree_width(alloc: Global, tree: &BoundExpression<Standard>) -> VortexResult<usize>
    ensures { AnswersUnlessMemory result (λ most. most ≡ most_children tree.now) }
{
    let mut list: Vec<&BoundExpression<Standard>> = Vec::new(alloc);
    let mut node = tree;
    let mut most = 0;
    loop {
        most = wider(node, most);
        for child in node.children() {
            list.push(child)?;
        }
        let Some(next) = list.pop() else {
            return Ok(most);
        };
        node = next;
    }
}

/// The same over the trees of several answers.
fn width(alloc: Global, answers: &[Answer]) -> VortexResult<usize>
    ensures { AnswersUnlessMemory result
        (λ most. most ≡ most_children_in (specs.trees_of (trees_of answers.now))) }
{
    let mut most = 0;
    for answer in answers {
        let one = tree_width(alloc, &answer.tree)?;
        most = one.max(most);
    }
    Ok(most)
}

/// Over how many rows answers are run at once where nothing else is asked: 2,048; where a node has
/// more than 32 children, as a call of `in` with many items has, 64 for each; 65,536 at most. What
/// is answered does not depend on it. E9 where an allocation fails.
pub fn rows_at_once(alloc: Global, answers: &[Answer]) -> VortexResult<usize>
    ensures { AnswersUnlessMemory result
        (λ rows. rows ≡ rows_at_once (specs.trees_of (trees_of answers.now))) }
{
    let most = width(alloc, answers)?;
    Ok(64 * most.clamp(32, 1024))
}
