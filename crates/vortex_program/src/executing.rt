//! What answers return over columns.
ghost use Rattle.std.specs.Prelude.{IsTrue};
ghost use Rattle.vortex_standard.specs.Standard.{standard_meaning};
ghost use Rattle.vortex_program.specs.Programs.{trees_of};
ghost use Rattle.vortex_program.specs.Executing.{AllFit, AnswersAll};

use crate::answer::Answer;
use crate::deciding::execute_checking;
use std::alloc::Global;
use vortex_columns::{Column, ExecutionCtx, VortexResult};

/// The columns of the answers, in their order; their names play no part.
///
/// Fails with the refusal of the first answer that is refused: E11 where a leaf's column is
/// missing or of another type, E2 where a column has not `row_count` rows, else the fault of the
/// first call that faults in some row.
pub fn execute_answers(
    alloc: Global,
    answers: &[Answer],
    columns: &[Column],
    row_count: usize,
) -> VortexResult<Vec<Column>>
    ensures { AnswersAll standard_meaning columns.now row_count (trees_of answers.now) result }
{
    execute_all(alloc, answers, columns, row_count, false)
}

/// The same; where it is known that the columns fit each answer, they are not checked.
pub(crate) fn execute_all(
    alloc: Global,
    answers: &[Answer],
    columns: &[Column],
    row_count: usize,
    is_known: bool,
) -> VortexResult<Vec<Column>>
    requires { IsTrue is_known → AllFit columns.now row_count (trees_of answers.now) }
    ensures { AnswersAll standard_meaning columns.now row_count (trees_of answers.now) result }
{
    let mut ctx = ExecutionCtx::new(alloc);
    let mut executed = Vec::new(alloc);
    for answer in answers {
        let column = execute_checking(&answer.tree, columns, row_count, is_known, &mut ctx)?;
        executed.push(column)?;
    }
    Ok(executed)
}
