//! The first row in which an answer faults, found by parts of the rows.
ghost use Rattle.std.specs.Prelude.{◌≡◌, ◌≢◌, ◌+◌, ◌^◌, ◌<◌, ◌≤◌, ◌⊎◌, ℕ, All, IfOk, length, map};
ghost use Rattle.std.specs.Prelude.{None, true, false, MatchOption};
ghost use Rattle.vortex_errors.specs.declared.error.VortexError.TheVariants.{OutOfMemory};
ghost use Rattle.vortex_errors.specs.Answers.{Answers, AnswersUnlessMemory};
ghost use Rattle.vortex_interface.specs.Bound.{IsBound};
ghost use Rattle.vortex_interface.specs.Execution.{other_length};
ghost use Rattle.vortex_standard.specs.Standard.{standard_meaning};
ghost use Rattle.vortex_rewriting.specs.Keeping.{RewritesKeepRows};
ghost use Rattle.vortex_program.specs.Programs.{trees_of};
ghost use Rattle.vortex_program.specs.Reads.{AreRead};
ghost use Rattle.vortex_program.specs.Executing.{AllFit, AllGive, AllGiveWithin};
ghost use Rattle.vortex_program.specs.Executing.{AnswersFirstFault, RefusesColumnsFirst};
ghost use Rattle.vortex_program.specs.Executing.{IsSuspect};
ghost use Rattle.vortex_program.specs.Running.{FaultsThere, FaultsFirstThere};

use crate::answer::Answer;
use crate::reads::columns_read;
use crate::rows::{NUMBERED, rows_of};
use std::alloc::Global;
use vortex_columns::{Column, ExecutionCtx, VortexError, VortexResult};
use vortex_rewriting::laws::rewrites_keep_rows;

/// How many rows are executed first.
const FIRST_PART: usize = 64;

/// A row in which an answer faults, the number of the answer, and its fault.
#[derive(Drop)]
pub(crate) struct RowFault {
    pub(crate) row: usize,
    pub(crate) answer: usize,
    pub(crate) error: VortexError,
}

/// Whether the columns are valid for each tree. It says too that each tree's leaves are places in a
/// scope, and what each rewrite of it keeps.
pub(crate) fn check_answers(
    alloc: Global,
    answers: &[Answer],
    columns: &[Column],
    row_count: usize,
) -> VortexResult<()>
    ensures bound { IfOk result (λ _. All IsBound (trees_of answers.now)) }
    ensures kept { IfOk result
        (λ _. All (RewritesKeepRows standard_meaning columns.now row_count) (trees_of answers.now)) }
    ensures fit { Answers result
        (λ _. AllFit columns.now row_count (trees_of answers.now))
        (RefusesColumnsFirst columns.now row_count (trees_of answers.now)) }
{
    let mut ctx = ExecutionCtx::new(alloc);
    for answer in answers {
        let _typed = answer.tree.dtype();
        answer.tree.check_columns(columns, row_count, &mut ctx)?;
        rewrites_keep_rows(&answer.tree, columns, row_count);
    }
    Ok(())
}

/// The error, unless memory ran out.
fn but_for_memory(error: VortexError) -> VortexResult<VortexError>
    ensures { AnswersUnlessMemory result (λ e. (e ≡ error) × (e ≢ OutOfMemory)) }
{
    match error {
        VortexError::OutOfMemory => Err(VortexError::OutOfMemory),
        error => Ok(error),
    }
}

/// Whether an answer faults in one of `count` rows from the first on. E9 where an allocation
/// fails.
fn faults_within(
    alloc: Global,
    answers: &[Answer],
    columns: &[Column],
    read: &[bool],
    row_count: usize,
    first: usize,
    count: usize,
) -> VortexResult<bool>
    requires numbered { (count ≡ 1) ⊎ (first + count ≤ 2 ^ 32) }
    requires within { first + count ≤ row_count }
    requires read { AreRead (trees_of answers.now) (length columns.now) read.now }
    requires even { other_length row_count columns.now ≡ None }
    requires bound { All IsBound (trees_of answers.now) }
    requires fit { AllFit columns.now row_count (trees_of answers.now) }
    ensures none { AnswersUnlessMemory result (λ faults. faults ≡ false
        → AllGiveWithin standard_meaning columns.now first (first + count) (trees_of answers.now)) }
    ensures some { IfOk result (λ faults. faults ≡ true
        → ¬ AllGiveWithin standard_meaning columns.now first (first + count)
        (trees_of answers.now)) }
{
    let mut ctx = ExecutionCtx::new(alloc);
    let taken = rows_of(alloc, columns, read, first, count, &mut ctx)?;
    for answer in answers {
        match answer.tree.execute_fitting(&taken, count, &mut ctx) {
            Ok(_) => {}
            Err(error) => {
                but_for_memory(error)?;
                return Ok(true);
            }
        }
    }
    Ok(false)
}

/// The first answer that faults in that row, and its fault; none where none does. E9 where an
/// allocation fails.
fn faulty_answer(
    alloc: Global,
    answers: &[Answer],
    columns: &[Column],
    read: &[bool],
    row_count: usize,
    row: usize,
) -> VortexResult<Option<(usize, VortexError)>>
    requires within { row < row_count }
    requires read { AreRead (trees_of answers.now) (length columns.now) read.now }
    requires even { other_length row_count columns.now ≡ None }
    requires fit { AllFit columns.now row_count (trees_of answers.now) }
    ensures { AnswersUnlessMemory result (λ found. MatchOption found
        (AllGive standard_meaning columns.now row (trees_of answers.now))
        (λ p. FaultsThere columns.now row (trees_of answers.now) p.0 p.1)) }
{
    let mut ctx = ExecutionCtx::new(alloc);
    let taken = rows_of(alloc, columns, read, row, 1, &mut ctx)?;
    for (k, answer) in answers.iter().enumerate() {
        let _typed = answer.tree.dtype();
        match answer.tree.execute_fitting(&taken, 1, &mut ctx) {
            Ok(_) => {}
            Err(error) => return Ok(Some((k, but_for_memory(error)?))),
        }
    }
    Ok(None)
}

/// A row between the two: `count` rows after the first, or half the way where that is less.
fn row_between(from: usize, to: usize, count: usize) -> usize
    requires { from + 1 < to }
    ensures after { from < result }
    ensures before { result < to }
    ensures numbered { (result ≡ from + 1) ⊎ (result ≤ 2 ^ 32) }
{
    if from + 1 >= NUMBERED {
        return from + 1;
    }
    let half = (to - from) / 2;
    let row = from + half.min(count.max(1));
    row.min(NUMBERED)
}

/// The one row in which an answer may be the first to fault: none faults in a row before it, and
/// where none faults in it, none does at all.
///
/// Executes the answers over parts of the rows, each twice as long as the one before it, and then
/// over halves of the one with the fault: over no more rows in all than there are, and over few
/// where the row is one of the first.
fn suspect_row(
    alloc: Global,
    answers: &[Answer],
    columns: &[Column],
    read: &[bool],
    row_count: usize,
) -> VortexResult<usize>
    requires some { 0 < row_count }
    requires read { AreRead (trees_of answers.now) (length columns.now) read.now }
    requires even { other_length row_count columns.now ≡ None }
    requires bound { All IsBound (trees_of answers.now) }
    requires fit { AllFit columns.now row_count (trees_of answers.now) }
    ensures { AnswersUnlessMemory result
        (IsSuspect standard_meaning columns.now row_count (trees_of answers.now)) }
{
    let mut from = 0;
    let mut to = row_count;
    let mut count = FIRST_PART;
    'parts: while to - from > 1 {
        let end = row_between(from, to, count);
        if faults_within(alloc, answers, columns, read, row_count, from, end - from)? {
            to = end;
        } else {
            from = end;
            count = count.saturating_mul(2);
        }
    }
    Ok(from)
}

/// The first row in which an answer faults, the first answer that does there, and its fault; none
/// where none faults. E9 where an allocation fails.
pub(crate) fn first_row_fault(
    alloc: Global,
    answers: &[Answer],
    columns: &[Column],
    row_count: usize,
) -> VortexResult<Option<RowFault>>
    requires bound { All IsBound (trees_of answers.now) }
    requires fit { AllFit columns.now row_count (trees_of answers.now) }
    ensures { AnswersUnlessMemory result (λ found. MatchOption found
        (AllGiveWithin standard_meaning columns.now 0 row_count (trees_of answers.now))
        (λ f. FaultsFirstThere columns.now row_count (trees_of answers.now) f.row f.answer
        f.error)) }
{
    if row_count == 0 || answers.is_empty() {
        return Ok(None);
    }
    let read = columns_read(alloc, answers, columns.len())?;
    let row = suspect_row(alloc, answers, columns, &read, row_count)?;
    match faulty_answer(alloc, answers, columns, &read, row_count, row)? {
        Some((answer, error)) => Ok(Some(RowFault { row, answer, error })),
        None => Ok(None),
    }
}

/// The first row in which an answer faults, and the fault of the first answer that does; none
/// where no row faults. Costs no more than one run over the rows, and less where the row is one of
/// the first.
///
/// Fails where the columns are not valid for an answer, as `execute_answers` does.
pub fn first_fault(
    alloc: Global,
    answers: &[Answer],
    columns: &[Column],
    row_count: usize,
) -> VortexResult<Option<(usize, VortexError)>>
    ensures { AnswersFirstFault standard_meaning columns.now row_count (trees_of answers.now)
        result }
{
    check_answers(alloc, answers, columns, row_count)?;
    match first_row_fault(alloc, answers, columns, row_count)? {
        Some(fault) => Ok(Some((fault.row, fault.error))),
        None => Ok(None),
    }
}
