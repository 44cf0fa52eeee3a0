//! Which columns answers read.
ghost use Rattle.std.specs.Prelude.{map, replicate, false};
ghost use Rattle.vortex_errors.specs.Answers.{AnswersUnlessMemory};
ghost use Rattle.vortex_functions.specs.Binding.{IsLeafAt};
ghost use Rattle.vortex_program.specs.Programs.{trees_of};
ghost use Rattle.vortex_program.specs.Reads.{AreRead, Marks, Reads};
ghost use Rattle.vortex_program.specs.Running.{UnreadColumnsChangeNothing};

use crate::answer::Answer;
use std::alloc::Global;
use vortex_columns::VortexResult;
use vortex_functions::BoundExpression;
use vortex_standard::Standard;

/// Marks the column that a leaf is, where the marks have its place.
fn mark_leaf(node: &BoundExpression<Standard>, read: &mut Vec<bool>)
    ensures { Marks (λ k. IsLeafAt k node.now) read.old.items read.new.items }
{
    if let Some(place) = node.as_column() {
        if place < read.len() {
            read[place] = true;
        }
    }
}

/// Marks the columns that a tree reads, by a list of the nodes that are still to be read. E9
/// where an allocation fails.
fn mark_tree(
    alloc: Global,
    tree: &BoundExpression<Standard>,
    read: &mut Vec<bool>,
) -> VortexResult<()>
    ensures { AnswersUnlessMemory result
        (λ _. Marks (λ k. Reads k tree.now) read.old.items read.new.items) }
{
    let mut list: Vec<&BoundExpression<Standard>> = Vec::new(alloc);
    let mut node = tree;
    loop {
        mark_leaf(node, read);
        for child in node.children() {
            list.push(child)?;
        }
        let Some(next) = list.pop() else {
            return Ok(());
        };
        node = next;
    }
}

/// Of `count` columns those that a tree reads are marked. E9 where an allocation fails.
pub(crate) fn tree_marks(
    alloc: Global,
    tree: &BoundExpression<Standard>,
    count: usize,
) -> VortexResult<Vec<bool>>
    ensures { AnswersUnlessMemory result
        (λ marks. Marks (λ k. Reads k tree.now) (replicate count false) marks.items) }
{
    let mut marks = vec![in alloc; false; count]?;
    mark_tree(alloc, tree, &mut marks)?;
    Ok(marks)
}

/// For each of `count` columns, whether an answer reads it: whether it is a leaf of the answer's
/// tree. A caller may pass any column of the batch's row count in the place of one that is not read
/// (`unread_columns_change_nothing`). E9 where an allocation fails.
pub fn columns_read(alloc: Global, answers: &[Answer], count: usize) -> VortexResult<Vec<bool>>
    ensures { AnswersUnlessMemory result
        (λ read. AreRead (trees_of answers.now) count read.items) }
{
    let mut read = vec![in alloc; false; count]?;
    for answer in answers {
        mark_tree(alloc, &answer.tree, &mut read)?;
    }
    Ok(read)
}

/// A program returns over a batch what it returns over one of the same row count that has the same
/// rows in each column that an answer reads, as it was written. This function does nothing: its
/// contract is proved.
pub fn unread_columns_change_nothing()
    ensures { UnreadColumnsChangeNothing }
{}
