//! A program run over a batch chunk by chunk: what lies between is made anew for each chunk, and is
//! small enough to stay in the caches, but for programs of long lists, whose chunks have more rows.
ghost use Rattle.std.specs.Prelude.{◌≡◌, ◌<◌, ◌≤◌, ◌+◌, ◌*◌, ◌/◌, ◌^◌, ◌⊎◌, ℕ, List};
ghost use Rattle.std.specs.Prelude.{All, IfOk, IfErr, IsTrue};
ghost use Rattle.std.specs.Prelude.{IfSome, MatchResult, MatchOption, None, [], length, map};
ghost use Rattle.vortex_errors.specs.Answers.{AnswersUnlessMemory};
ghost use Rattle.vortex_interface.specs.Bound.{IsBound};
ghost use Rattle.vortex_interface.specs.Execution.{other_length};
ghost use Rattle.vortex_functions.specs.Walks.{AllMean};
ghost use Rattle.vortex_expressions.specs.Items.{meaning};
ghost use Rattle.yurkije_core.specs.Chunks.{AreLent};
ghost use Rattle.vortex_arrow.specs.Columns.{arrow_column};
ghost use Rattle.vortex_program.specs.Executing.{AllGiveWithin};
ghost use Rattle.vortex_program.specs.Programs.{trees_of, AreRewrites};
ghost use Rattle.vortex_program.specs.Rows.{HasRows};
ghost use Rattle.vortex_program.specs.Running.{AnswersTrees, RefusesTrees};
ghost use Rattle.yurkije_columns.specs.Batches.{batch_column};
ghost use Rattle.yurkije_core.specs.Chunks.{HasChunk, RunsFrom, AnswersFrom, AreRun, AreAnswered};
ghost use Rattle.yurkije_core.specs.Chunks.{HasChunkIfRead, TakesRows, ArePut};

use crate::lent::{execute_parts, is_lent};
use crate::parts::{chunk_of, parts_of};
use std::alloc::Global;
use vortex_arrow::{ArrowColumn, to_column};
use vortex_columns::{Column, VortexError, VortexResult};
use vortex_program::{Answer, Program, RunError, rows_at_once};
use yurkije_columns::Joined;

/// Whether a program is one call of columns and literals, so that it makes no columns in between.
pub(crate) fn is_single(answers: &[Answer]) -> bool {
    match answers {
        [answer] => answer
            .tree
            .children()
            .iter()
            .all(|child| child.children().is_empty()),
        _ => false,
    }
}

/// How many rows are run as a whole still: a run has a fixed cost. Of more, the columns in between
/// would take so much that `free` gives memory back to the system, and the next run faults it in
/// again.
pub(crate) fn whole_rows(program: &Program) -> usize {
    if is_single(&program.optimized) {
        8192
    } else {
        2048
    }
}

/// How many rows are run as a whole over columns where they lie. One call makes its own column
/// alone, which no copy comes before; of more calls the columns in between are to stay in the
/// caches.
pub(crate) fn whole_lent_rows(program: &Program) -> usize {
    if is_single(&program.optimized) {
        usize::MAX
    } else {
        2048
    }
}

/// Some rows of a column, or as many nulls where it is not read. None where memory is refused.
fn read_rows(
    alloc: Global,
    column: &Option<ArrowColumn<'_>>,
    first: usize,
    count: usize,
) -> Option<Column>
    requires { HasChunkIfRead first count column.now }
    ensures { IfSome result (λ d. (n : ℕ) → HasRows first count (batch_column n column.now) d) }
{
    match column {
        Some(column) => to_column(alloc, &chunk_of(column, first, count)).ok(),
        None => Some(Column::null(count)),
    }
}

/// Some rows of each column, and nulls in the place of each that is not read. None where memory is
/// refused.
fn read_chunk(
    alloc: Global,
    columns: &[Option<ArrowColumn<'_>>],
    first: usize,
    count: usize,
) -> Option<Vec<Column>>
    requires { All (HasChunkIfRead first count) columns.now }
    ensures { IfSome result (λ read. (n : ℕ) → AllMean (HasRows first count)
        (map (batch_column n) columns.now) read.items) }
{
    let mut read = Vec::new(alloc);
    for k in 0..columns.len() {
        let Some(chunk) = read_rows(alloc, &columns[k], first, count) else {
            return None;
        };
        let Ok(()) = read.push(chunk) else {
            return None;
        };
    }
    Some(read)
}

/// A fault in a row of those from the first on, by its row of the batch.
fn fault_at(first: usize, row: usize, answer: usize, error: VortexError) -> RunError
    ensures { (result ≡ RunError.OutOfMemory)
        ⊎ (result ≡ RunError.Fault (first + row) answer error) }
{
    match first.checked_add(row) {
        Some(row) => RunError::Fault { row, answer, error },
        None => RunError::OutOfMemory,
    }
}

/// The answers of some rows of a batch. A fault is reported by its row of the batch.
pub(crate) fn run_chunk(
    alloc: Global,
    program: &Program,
    columns: &[Option<ArrowColumn<'_>>],
    rows: usize,
    first: usize,
    count: usize,
    is_lent: bool,
) -> Result<Vec<Column>, RunError>
    requires chunk { All (HasChunkIfRead first count) columns.now }
    requires lent { IsTrue is_lent → AreLent (map (batch_column rows) columns.now)
        (trees_of program.now.written.items) }
    requires within { first + count ≤ rows }
    requires even { other_length rows (map (batch_column rows) columns.now) ≡ None }
    requires written { All IsBound (trees_of program.now.written.items) }
    requires optimized { All IsBound (trees_of program.now.optimized.items) }
    requires given { AllGiveWithin meaning (map (batch_column rows) columns.now) 0 first
        (trees_of program.now.optimized.items) }
    ensures run { IfOk result (λ answers. AllMean
        (RunsFrom (map (batch_column rows) columns.now) first count)
        (trees_of program.now.optimized.items) answers.items) }
    ensures answered { AreRewrites program.now.written.items program.now.optimized.items
        → IfOk result (λ answers. AllMean
        (AnswersFrom (map (batch_column rows) columns.now) first count)
        (trees_of program.now.written.items) answers.items) }
    ensures refused { AreRewrites program.now.written.items program.now.optimized.items
        → IfErr result (RefusesTrees (map (batch_column rows) columns.now) rows
        (trees_of program.now.written.items) (trees_of program.now.optimized.items)) }
{
    if is_lent && let Some(parts) = parts_of(alloc, columns, first, count) {
        if let Some(answers) = execute_parts(alloc, &program.optimized, &parts, count) {
            return Ok(answers);
        }
    }
    let Some(chunk) = read_chunk(alloc, columns, first, count) else {
        return Err(RunError::OutOfMemory);
    };
    match program.run_rows(alloc, &chunk, count) {
        Ok(answers) => Ok(answers),
        Err(RunError::Fault { row, answer, error }) => Err(fault_at(first, row, answer, error)),
        Err(RunError::Refused(error)) => Err(RunError::Refused(error)),
        Err(RunError::OutOfMemory) => Err(RunError::OutOfMemory),
    }
}

/// Appends the rows of each column to those so far.
fn push_all(joined: &mut Vec<Joined>, answers: &[Column]) -> VortexResult<()>
    requires { AllMean TakesRows joined.old.items answers.now }
    ensures { AnswersUnlessMemory result
        (λ _. ArePut joined.old.items answers.now joined.new.items) }
{
    for k in 0..answers.len() {
        joined[k].push(&answers[k])?;
    }
    Ok(())
}

/// Appends the answers of some rows to those so far.
fn add_chunk(
    alloc: Global,
    program: &Program,
    columns: &[Option<ArrowColumn<'_>>],
    rows: usize,
    first: usize,
    count: usize,
    is_lent: bool,
    joined: &mut Vec<Joined>,
) -> Result<(), RunError>
    requires chunk { All (HasChunkIfRead first count) columns.now }
    requires lent { IsTrue is_lent → AreLent (map (batch_column rows) columns.now)
        (trees_of program.now.written.items) }
    requires within { first + count ≤ rows }
    requires even { other_length rows (map (batch_column rows) columns.now) ≡ None }
    requires whole { 8 * (first / 8) ≡ first }
    requires written { All IsBound (trees_of program.now.written.items) }
    requires optimized { All IsBound (trees_of program.now.optimized.items) }
    requires run { AreRun (map (batch_column rows) columns.now) first
        (trees_of program.now.optimized.items) joined.old.items }
    ensures run { IfOk result (λ _. AreRun (map (batch_column rows) columns.now) (first + count)
        (trees_of program.now.optimized.items) joined.new.items) }
    ensures answered { AreRewrites program.now.written.items program.now.optimized.items
        → AreAnswered (map (batch_column rows) columns.now) first
        (trees_of program.now.written.items) joined.old.items
        → IfOk result (λ _. AreAnswered (map (batch_column rows) columns.now) (first + count)
        (trees_of program.now.written.items) joined.new.items) }
    ensures refused { AreRewrites program.now.written.items program.now.optimized.items
        → IfErr result (RefusesTrees (map (batch_column rows) columns.now) rows
        (trees_of program.now.written.items) (trees_of program.now.optimized.items)) }
{
    let answers = match run_chunk(alloc, program, columns, rows, first, count, is_lent) {
        Ok(answers) => answers,
        Err(error) => return Err(error),
    };
    match push_all(joined, &answers) {
        Ok(()) => Ok(()),
        Err(_) => Err(RunError::OutOfMemory),
    }
}

/// Says that the leaves of each tree are places of its scope.
pub(crate) fn learn_bound(answers: &[Answer])
    ensures { All IsBound (trees_of answers.now) }
{
    for answer in answers {
        let _typed = answer.tree.dtype();
    }
}

/// No row of each answer yet, with room for `rows`; none where an answer is neither of truth values
/// nor of integers.
pub(crate) fn begun(
    alloc: Global,
    answers: &[Answer],
    rows: usize,
) -> VortexResult<Option<Vec<Joined>>>
    ensures { AnswersUnlessMemory result (λ o. IfSome o
        (λ joined. (cs : List _) → AreRun cs 0 (trees_of answers.now) joined.items)) }
{
    let mut begun = Vec::new(alloc);
    for answer in answers {
        match Joined::new(alloc, answer.tree.dtype(), rows)? {
            Some(joined) => begun.push(joined)?,
            None => return Ok(None),
        }
    }
    Ok(Some(begun))
}

/// The columns of the rows.
fn columns_of(alloc: Global, joined: Vec<Joined>) -> VortexResult<Vec<Column>>
    ensures { AnswersUnlessMemory result (λ columns. columns.items ≡ joined.items) }
{
    let mut rest = joined;
    let mut columns = Vec::new(alloc);
    'columns: while !rest.is_empty() {
        let next = rest.remove(0);
        columns.push(next.into_column(alloc)?)?;
    }
    Ok(columns)
}

/// Appends the answers of a batch to none, so many rows at a time: a multiple of 8, for the bits.
fn add_chunks(
    alloc: Global,
    program: &Program,
    columns: &[Option<ArrowColumn<'_>>],
    rows: usize,
    count: usize,
    joined: &mut Vec<Joined>,
) -> Result<(), RunError>
    requires count { 0 < count }
    requires bytes { 8 * (count / 8) ≡ count }
    requires chunk { All (HasChunkIfRead 0 rows) columns.now }
    requires place { All (λ o. IfSome o (λ c. c.offset + rows < 2 ^ 64)) columns.now }
    requires some { 0 < rows }
    requires even { other_length rows (map (batch_column rows) columns.now) ≡ None }
    requires run { AreRun (map (batch_column rows) columns.now) 0
        (trees_of program.now.optimized.items) joined.old.items }
    ensures run { IfOk result (λ _. AreRun (map (batch_column rows) columns.now) rows
        (trees_of program.now.optimized.items) joined.new.items) }
    ensures answered { AreRewrites program.now.written.items program.now.optimized.items
        → AreAnswered (map (batch_column rows) columns.now) 0
        (trees_of program.now.written.items) joined.old.items
        → IfOk result (λ _. AreAnswered (map (batch_column rows) columns.now) rows
        (trees_of program.now.written.items) joined.new.items) }
    ensures refused { AreRewrites program.now.written.items program.now.optimized.items
        → IfErr result (RefusesTrees (map (batch_column rows) columns.now) rows
        (trees_of program.now.written.items) (trees_of program.now.optimized.items)) }
{
    learn_bound(&program.written);
    learn_bound(&program.optimized);
    let is_lent = is_lent(program, columns);
    let mut first = 0;
    'chunks: while rows - first > count {
        match add_chunk(alloc, program, columns, rows, first, count, is_lent, joined) {
            Ok(()) => first += count,
            Err(error) => return Err(error),
        }
    }
    add_chunk(
        alloc,
        program,
        columns,
        rows,
        first,
        rows - first,
        is_lent,
        joined,
    )
}

/// How many rows are run at once: the usual number, if memory is refused as the lists are measured.
fn chunk_rows(alloc: Global, program: &Program) -> usize
    ensures some { 0 < result }
    ensures bytes { 8 * (result / 8) ≡ result }
{
    match rows_at_once(alloc, &program.optimized) {
        Ok(rows) => rows,
        Err(_) => 2048,
    }
}

/// What `Program::run` answers over the columns that are lent, of so many rows, run chunk by chunk
/// into one column for each answer.
pub(crate) fn run_chunks(
    alloc: Global,
    program: &Program,
    columns: &[Option<ArrowColumn<'_>>],
    rows: usize,
    begun: Vec<Joined>,
) -> Result<Vec<Column>, RunError>
    requires chunk { All (HasChunkIfRead 0 rows) columns.now }
    requires place { All (λ o. IfSome o (λ c. c.offset + rows < 2 ^ 64)) columns.now }
    requires some { 0 < rows }
    requires even { other_length rows (map (batch_column rows) columns.now) ≡ None }
    requires run { AreRun (map (batch_column rows) columns.now) 0
        (trees_of program.now.optimized.items) begun.items }
    ensures { AreRewrites program.now.written.items program.now.optimized.items
        → MatchResult result
        (λ answers. AnswersTrees (map (batch_column rows) columns.now) rows
        (trees_of program.now.written.items) answers.items)
        (RefusesTrees (map (batch_column rows) columns.now) rows
        (trees_of program.now.written.items) (trees_of program.now.optimized.items)) }
{
    let count = chunk_rows(alloc, program);
    let mut joined = begun;
    match add_chunks(alloc, program, columns, rows, count, &mut joined) {
        Ok(()) => {}
        Err(error) => return Err(error),
    }
    match columns_of(alloc, joined) {
        Ok(answers) => Ok(answers),
        Err(_) => Err(RunError::OutOfMemory),
    }
}
