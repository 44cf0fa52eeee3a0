//! Bound expressions to texts.
ghost use Rattle.std.specs.Prelude.{◌≡◌, option_map, string_bytes};
ghost use Rattle.vortex_errors.specs.Answers.{AnswersUnlessMemory};
ghost use Rattle.vortex_expressions.specs.Writing.{text_of_tree};

use crate::tasks::{TreeWriter, WriteTask};
use std::alloc::Global;
use vortex_columns::VortexResult;
use vortex_functions::BoundExpression;
use vortex_standard::Standard;
use vortex_syntax::levels::OR;

/// The text of a tree, as `price * stock > 100`, with only the brackets that are needed; over the
/// tree's scope it reads back as the tree. None if a literal has no text (a list, a struct or
/// bytes), if a bound of a BETWEEN is strict, or if brackets would nest too deep. E9 where an
/// allocation fails.
///
/// Written from left to right, each byte once; what is still to be written is on the heap.
pub fn write_expression(
    alloc: Global,
    tree: &BoundExpression<Standard>,
) -> VortexResult<Option<String>>
    ensures { AnswersUnlessMemory result
        (λ text. option_map (λ t. string_bytes t) text ≡ text_of_tree tree.now) }
{
    let mut writing = TreeWriter::new(alloc);
    writing.put(WriteTask::Tree(tree, OR, 0))?;
    while let Some(task) = writing.next() {
        if !writing.step(task)? {
            return Ok(None);
        }
    }
    Ok(Some(writing.writer.into_text()))
}
