//! What is run and given of what is held.
ghost use Rattle.std.specs.Prelude.{◌≡◌, None, Some, MatchResult, pos, map, take, length};
ghost use Rattle.vortex_columns.specs.ColumnView.{ColumnView};
ghost use Rattle.vortex_errors.specs.Answers.{AnswersUnlessMemory};
ghost use Rattle.yurkije_columns.specs.Kinds.{number_at};
ghost use Rattle.yurkije.specs.Views.{program_view, answers_held};
ghost use Rattle.yurkije.specs.Answering.{Runs, HoldsAnswers, Sizes, Copies, SelectsBy, FindsColumn};
ghost use Rattle.yurkije.specs.Answering.{KeepsOrWants, AsksAnswer, FindsNone, Masks};

use crate::handle::Handle;
use crate::held::Held;
use crate::statuses::{EMPTY_HANDLE, NO_SUCH_NUMBER, OK, OUT_OF_MEMORY, UNKNOWN_KIND};
use std::alloc::Global;
use vortex_arrow::{IndexType, copy_mask, copy_true_rows, true_count};
use vortex_columns::{Column, VortexResult};
use vortex_program::Answer;
use yurkije_columns::statuses::copy_status;
use yurkije_columns::{
    BorrowedColumn, Room, RoomError, Size, arrow_columns, borrowed_words, copy_answer, number_at,
    size_of,
};
use yurkije_core::{ErrorNumbers, Expression, Report, kinds_of, run_program, run_words};

/// A box of the columns of answers. E9 where an allocation fails.
fn boxed(alloc: Global, columns: Vec<Column>, written: &[Answer]) -> VortexResult<Box<Held>>
    ensures { AnswersUnlessMemory result
        (λ held. held.value ≡ answers_held columns.items (map (λ a. a.kind) written.now)) }
{
    let kinds = kinds_of(alloc, written)?;
    Ok(Box::new(alloc, Held::of_answers(columns, kinds))?)
}

/// Holds the columns of answers, or tells that memory ran out.
fn hold(
    alloc: Global,
    columns: Vec<Column>,
    written: &[Answer],
    answers: &mut Handle,
    error: &mut Report<'_>,
) -> u32
    requires { answers.old.held ≡ None }
    ensures { KeepsOrWants columns.items (map (λ a. a.kind) written.now) answers.new.held result
        error.old error.new }
{
    match boxed(alloc, columns, written) {
        Ok(held) => {
            answers.close(held);
            error.clear()
        }
        Err(_) => error.tell(ErrorNumbers::of(OUT_OF_MEMORY), "out of memory"),
    }
}

/// Runs an expression over columns that are lent, and holds what it answers; or tells why it does not.
/// Columns that no answer reads are not looked at.
fn run(
    alloc: Global,
    expression: &Expression,
    columns: &[BorrowedColumn<'_>],
    rows: usize,
    answers: &mut Handle,
    error: &mut Report<'_>,
) -> u32
    requires { answers.old.held ≡ None }
    ensures { HoldsAnswers (program_view expression.now) columns.now rows answers.new.held result
        error.old error.new }
{
    let columns = match arrow_columns(alloc, columns, &expression.reads) {
        Ok(columns) => columns,
        Err(wrong) => {
            let words = borrowed_words(alloc, wrong);
            return error.report_text(ErrorNumbers::of_borrowed(wrong), words);
        }
    };
    match run_program(alloc, &expression.program, &columns, rows) {
        Ok(columns) => hold(alloc, columns, &expression.program.written, answers, error),
        Err(wrong) => {
            let words = run_words(alloc, &expression.program, &wrong, rows);
            error.report_text(ErrorNumbers::of_run(&wrong), words)
        }
    }
}

/// Runs the expression that is held.
pub(crate) fn run_held(
    alloc: Global,
    held: &Held,
    columns: &[BorrowedColumn<'_>],
    rows: usize,
    answers: &mut Handle,
    error: &mut Report<'_>,
) -> u32
    requires { answers.old.held ≡ None }
    ensures { Runs held.now.program columns.now rows answers.new.held result error.old
        error.new }
{
    match held.expression() {
        Some(expression) => run(alloc, expression, columns, rows, answers, error),
        None => error.tell(
            ErrorNumbers::of(EMPTY_HANDLE),
            "the handle holds no expression",
        ),
    }
}

/// The column of an answer, or the status where there is none.
fn column_of(held: &Held, answer: usize) -> Result<&Column, u32>
    ensures { MatchResult result (λ c. FindsColumn held.now.answers answer c.now)
        (FindsNone held.now.answers answer) }
{
    match held.columns() {
        Some(columns) => match columns.get(answer) {
            Some(column) => Ok(column),
            None => Err(NO_SUCH_NUMBER),
        },
        None => Err(EMPTY_HANDLE),
    }
}

/// How long the buffers of an answer have to be.
fn reported_size(column: &Column, size: &mut Size) -> u32
    ensures { Sizes column.now size.old size.new result }
{
    match size_of(column) {
        Ok(found) => {
            *size = found;
            OK
        }
        Err(error) => copy_status(error),
    }
}

pub(crate) fn put_size(held: &Held, answer: usize, size: &mut Size) -> u32
    ensures { AsksAnswer held.now.answers answer result (size.new ≡ size.old)
        (λ c. Sizes c size.old size.new result) }
{
    match column_of(held, answer) {
        Ok(column) => reported_size(column, size),
        Err(status) => status,
    }
}

/// Copies an answer, whose values mean what the number says.
fn answer_copied(column: &Column, number: u32, room: &mut Room<'_>) -> u32
    ensures { Copies column.now number room.old room.new result }
{
    match copy_answer(column, number, room) {
        Ok(()) => OK,
        Err(RoomError::UnknownKind) => UNKNOWN_KIND,
        Err(RoomError::Uncopied(error)) => copy_status(error),
    }
}

pub(crate) fn put_answer(held: &Held, answer: usize, room: &mut Room<'_>) -> u32
    ensures { AsksAnswer held.now.answers answer result (room.new ≡ room.old)
        (λ c. Copies c (number_at held.now.kinds answer) room.old room.new result) }
{
    match column_of(held, answer) {
        Ok(column) => answer_copied(column, number_at(held.kinds(), answer), room),
        Err(status) => status,
    }
}

/// The numbers of the rows of a column that are true.
fn reported_true_rows<I: IndexType>(column: &Column, numbers: &mut [I], count: &mut usize) -> u32
    ensures { SelectsBy I.number column.now I.most numbers.old numbers.new count.new result }
{
    *count = true_count(column);
    match copy_true_rows(column, numbers) {
        Ok(_) => OK,
        Err(error) => copy_status(error),
    }
}

pub(crate) fn put_true_rows<I: IndexType>(
    held: &Held,
    answer: usize,
    numbers: &mut [I],
    count: &mut usize,
) -> u32
    ensures { AsksAnswer held.now.answers answer result
        ((numbers.new ≡ numbers.old) × (count.new ≡ count.old))
        (λ c. SelectsBy I.number c I.most numbers.old numbers.new count.new result) }
{
    match column_of(held, answer) {
        Ok(column) => reported_true_rows(column, numbers, count),
        Err(status) => status,
    }
}

/// A byte a row of a column, 1 where it is true.
fn mask_told(column: &Column, mask: &mut [u8]) -> u32
    ensures { Masks column.now mask.old mask.new result }
{
    match copy_mask(column, mask) {
        Ok(()) => OK,
        Err(error) => copy_status(error),
    }
}

pub(crate) fn put_mask(held: &Held, answer: usize, mask: &mut [u8]) -> u32
    ensures { AsksAnswer held.now.answers answer result (mask.new ≡ mask.old)
        (λ c. Masks c mask.old mask.new result) }
{
    match column_of(held, answer) {
        Ok(column) => mask_told(column, mask),
        Err(status) => status,
    }
}
