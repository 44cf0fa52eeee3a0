//! Answers: of a batch, asked, copied, and freed.
ghost use Rattle.std.specs.Prelude.{◌≡◌, None};
ghost use Rattle.yurkije_columns.specs.Kinds.{number_at};
ghost use Rattle.yurkije.specs.Views.{program_in, answers_in, kinds_in};
ghost use Rattle.yurkije.specs.Answering.{Runs, AsksAnswer, Sizes, Copies, Selects, Masks};

use crate::handle::Handle;
use crate::lent_handle::LentHandle;
use crate::running::{put_answer, put_mask, put_size, put_true_rows, run_held};
use crate::statuses::EMPTY_HANDLE;
use std::alloc::Global;
use yurkije_columns::{BorrowedColumn, Room, Size, placed};
use yurkije_core::{ErrorNumbers, Report};

/// Runs the expression over a batch. 0 exactly where the handle then holds its answers; that of
/// answers is empty where the call is refused.
#[unsafe(no_mangle)]
pub extern "C" fn yurkije_run(
    alloc: Global,
    expression: &mut LentHandle,
    columns: &[BorrowedColumn<'_>],
    rows: usize,
    answers: &mut Handle,
    error: &mut Report<'_>,
) -> u32
    ensures kept { expression.new.held ≡ expression.old.held }
    ensures run { Runs (program_in expression.old.held) columns.now rows answers.new.held result
        error.old error.new }
{
    answers.clear(alloc);
    let Some(loan) = expression.open() else {
        return error.tell(
            ErrorNumbers::of(EMPTY_HANDLE),
            "the handle holds no expression",
        );
    };
    let status = run_held(alloc, loan.get(), placed(columns), rows, answers, error);
    expression.close(loan);
    status
}

/// Frees what the handle holds, and leaves it empty.
#[unsafe(no_mangle)]
pub extern "C" fn yk_answers_free(alloc: Global, answers: &mut Handle)
    ensures { answers.new.held ≡ None }
{
    answers.clear(alloc);
}

/// How long the buffers have to be for an answer.
#[unsafe(no_mangle)]
pub extern "C" fn yurkije_answer_size(
    answers: &mut LentHandle,
    answer: usize,
    size: &mut Size,
) -> u32
    ensures kept { answers.new.held ≡ answers.old.held }
    ensures size { AsksAnswer (answers_in answers.old.held) answer result (size.new ≡ size.old)
        (λ c. Sizes c size.old size.new result) }
{
    let Some(loan) = answers.open() else {
        return EMPTY_HANDLE;
    };
    let status = put_size(loan.get(), answer, size);
    answers.close(loan);
    status
}

/// Copies an answer into the caller's buffers.
#[unsafe(no_mangle)]
pub extern "C" fn yurkije_answer_copy(
    answers: &mut LentHandle,
    answer: usize,
    room: &mut Room<'_>,
) -> u32
    ensures kept { answers.new.held ≡ answers.old.held }
    ensures copied { AsksAnswer (answers_in answers.old.held) answer result (room.new ≡ room.old)
        (λ c. Copies c (number_at (kinds_in answers.old.held) answer) room.old room.new result) }
{
    let Some(loan) = answers.open() else {
        return EMPTY_HANDLE;
    };
    let status = put_answer(loan.get(), answer, room);
    answers.close(loan);
    status
}

/// The numbers of the rows in which an answer is true.
#[unsafe(no_mangle)]
pub extern "C" fn yurkije_select(
    answers: &mut LentHandle,
    answer: usize,
    numbers: &mut [u64],
    count: &mut usize,
) -> u32
    ensures kept { answers.new.held ≡ answers.old.held }
    ensures selected { AsksAnswer (answers_in answers.old.held) answer result
        ((numbers.new ≡ numbers.old) × (count.new ≡ count.old))
        (λ c. Selects c 18446744073709551615 numbers.old numbers.new count.new result) }
{
    let Some(loan) = answers.open() else {
        return EMPTY_HANDLE;
    };
    let status = put_true_rows::<u64>(loan.get(), answer, numbers, count);
    answers.close(loan);
    status
}

/// The same with numbers of 32 bits.
#[unsafe(no_mangle)]
pub extern "C" fn yurkije_select_u32(
    answers: &mut LentHandle,
    answer: usize,
    numbers: &mut [u32],
    count: &mut usize,
) -> u32
    ensures kept { answers.new.held ≡ answers.old.held }
    ensures selected { AsksAnswer (answers_in answers.old.held) answer result
        ((numbers.new ≡ numbers.old) × (count.new ≡ count.old))
        (λ c. Selects c 4294967295 numbers.old numbers.new count.new result) }
{
    let Some(loan) = answers.open() else {
        return EMPTY_HANDLE;
    };
    let status = put_true_rows::<u32>(loan.get(), answer, numbers, count);
    answers.close(loan);
    status
}

/// A byte a row: 1 where an answer is true, and 0 where it is false or null.
#[unsafe(no_mangle)]
pub extern "C" fn yurkije_mask(answers: &mut LentHandle, answer: usize, mask: &mut [u8]) -> u32
    ensures kept { answers.new.held ≡ answers.old.held }
    ensures masked { AsksAnswer (answers_in answers.old.held) answer result (mask.new ≡ mask.old)
        (λ c. Masks c mask.old mask.new result) }
{
    let Some(loan) = answers.open() else {
        return EMPTY_HANDLE;
    };
    let status = put_mask(loan.get(), answer, mask);
    answers.close(loan);
    status
}
