//! What statistics say of a condition of an expression that is held.
ghost use Rattle.std.specs.Prelude.{◌≡◌};
ghost use Rattle.yurkije.specs.Views.{program_in, program_view};
ghost use Rattle.yurkije.specs.Pruning.{PrunesHeld, PrunesAnswer, TellsGroups, numbers_told};

use crate::held::Held;
use crate::lent_handle::LentHandle;
use crate::statuses::{EMPTY_HANDLE, NO_SUCH_NUMBER};
use std::alloc::Global;
use yurkije_columns::placed;
use yurkije_columns::statuses::copy_status;
use yurkije_core::{ErrorNumbers, Expression, NONE, Report};
use yurkije_pruning::{
    BorrowedStatistics, PruneError, Pruned, Verdicts, place_of, prune_lent, prune_status,
    prune_words, write_verdicts,
};

/// What is told by number of groups that are not pruned.
fn numbers_of(error: &PruneError) -> ErrorNumbers
    ensures { result ≡ numbers_told error.now }
{
    let place = place_of(error);
    ErrorNumbers {
        column: place.field.unwrap_or(NONE),
        row: place.group.unwrap_or(NONE),
        ..ErrorNumbers::of(prune_status(error))
    }
}

/// Writes what is known of each group, or tells that a buffer is too short.
fn tell_groups(pruned: &[Pruned], room: &mut Verdicts<'_>, error: &mut Report<'_>) -> u32
    ensures { TellsGroups pruned.now room.old room.new result error.old error.new }
{
    match write_verdicts(pruned, room) {
        Ok(()) => error.clear(),
        Err(wrong) => error.tell(
            ErrorNumbers::of(copy_status(wrong)),
            "fewer items than groups",
        ),
    }
}

/// Prunes groups of rows by an answer of an expression, as it is run.
fn prune(
    alloc: Global,
    expression: &Expression,
    answer: usize,
    statistics: &[BorrowedStatistics<'_>],
    rows: &[u64],
    room: &mut Verdicts<'_>,
    error: &mut Report<'_>,
) -> u32
    ensures { PrunesAnswer (program_view expression.now) answer statistics.now rows.now room.old
        room.new result error.old error.new }
{
    let program = &expression.program;
    let Some(condition) = program.optimized.get(answer) else {
        return error.tell(
            ErrorNumbers::of(NO_SUCH_NUMBER),
            "there is no answer of that number",
        );
    };
    match prune_lent(
        alloc,
        &condition.tree,
        &program.scope,
        &program.kinds,
        statistics,
        rows,
    ) {
        Ok(pruned) => tell_groups(&pruned, room, error),
        Err(wrong) => {
            let words = prune_words(alloc, &program.scope, &wrong, rows.len());
            error.report_text(numbers_of(&wrong), words)
        }
    }
}

/// The same by the expression that is held.
fn prune_held(
    alloc: Global,
    held: &Held,
    answer: usize,
    statistics: &[BorrowedStatistics<'_>],
    rows: &[u64],
    room: &mut Verdicts<'_>,
    error: &mut Report<'_>,
) -> u32
    ensures { PrunesHeld held.now.program answer statistics.now rows.now room.old room.new result
        error.old error.new }
{
    match held.expression() {
        Some(expression) => prune(alloc, expression, answer, statistics, rows, room, error),
        None => error.tell(
            ErrorNumbers::of(EMPTY_HANDLE),
            "the handle holds no expression",
        ),
    }
}

/// What is known of an answer in each group of rows, of which each has so many, by statistics of
/// the fields. Where the call is refused nothing is written.
#[unsafe(no_mangle)]
pub extern "C" fn yurkije_prune(
    alloc: Global,
    expression: &mut LentHandle,
    answer: usize,
    statistics: &[BorrowedStatistics<'_>],
    rows: &[u64],
    room: &mut Verdicts<'_>,
    error: &mut Report<'_>,
) -> u32
    ensures kept { expression.new.held ≡ expression.old.held }
    ensures pruned { PrunesHeld (program_in expression.old.held) answer statistics.now rows.now
        room.old room.new result error.old error.new }
{
    let Some(loan) = expression.open() else {
        return error.tell(
            ErrorNumbers::of(EMPTY_HANDLE),
            "the handle holds no expression",
        );
    };
    let status = prune_held(
        alloc,
        loan.get(),
        answer,
        placed(statistics),
        placed(rows),
        room,
        error,
    );
    expression.close(loan);
    status
}
