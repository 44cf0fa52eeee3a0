//! Expressions: read, asked, and freed.
ghost use Rattle.std.specs.Prelude.{◌≡◌, Some, None, length};
ghost use Rattle.vortex_errors.specs.Answers.{AnswersUnlessMemory};
ghost use Rattle.vortex_types.specs.LogicalTypes.{field_count};
ghost use Rattle.yurkije.specs.Views.{program_in};
ghost use Rattle.yurkije.specs.Asking.{Asks, SameRoom, TellsFieldName, TellsFieldType};
ghost use Rattle.yurkije.specs.Asking.{TellsAnswerName, TellsAnswerType, TellsAnswerText};
ghost use Rattle.yurkije.specs.Asking.{TellsFieldsRead};
ghost use Rattle.yurkije.specs.Reading.{Holds, Reads, HoldsRead};

use crate::handle::Handle;
use crate::held::Held;
use crate::lent_handle::LentHandle;
use crate::queries::{
    answer_count, answer_name, answer_text, answer_type, field_count, field_name, field_type,
    fields_read,
};
use crate::statuses::{EMPTY_HANDLE, OUT_OF_MEMORY};
use std::alloc::Global;
use vortex_columns::VortexResult;
use yurkije_columns::{BorrowedField, Type, placed, read_fields, read_kinds, scope_words};
use yurkije_core::{
    ErrorNumbers, Expression, Program, ProgramError, Report, program_words, read_program,
};

/// A box of the expression of a program. E9 where an allocation fails.
fn boxed(alloc: Global, program: Program) -> VortexResult<Box<Held>>
    ensures { AnswersUnlessMemory result (λ held. Holds (Some held.value) program) }
{
    let expression = Expression::of(alloc, program)?;
    Ok(Box::new(alloc, Held::of_expression(expression))?)
}

/// Holds a program, or tells why there is none.
fn hold(
    alloc: Global,
    read: Result<Program, ProgramError>,
    expression: &mut Handle,
    error: &mut Report<'_>,
) -> u32
    requires { expression.old.held ≡ None }
    ensures { Reads read expression.new.held result error.old error.new }
{
    let program = match read {
        Ok(program) => program,
        Err(wrong) => {
            let words = program_words(alloc, &wrong);
            return error.report_text(ErrorNumbers::of_program(&wrong), words);
        }
    };
    match boxed(alloc, program) {
        Ok(held) => {
            expression.close(held);
            error.clear()
        }
        Err(_) => error.tell(ErrorNumbers::of(OUT_OF_MEMORY), "out of memory"),
    }
}

/// Reads the answers of a text over the fields of a scope. 0 exactly where the handle then holds the
/// expression; it is empty where the call is refused.
#[unsafe(no_mangle)]
pub extern "C" fn yk_expression_new(
    alloc: Global,
    text: &[u8],
    fields: &[BorrowedField<'_>],
    expression: &mut Handle,
    error: &mut Report<'_>,
) -> u32
    ensures { HoldsRead fields.now text.now expression.new.held result error.old error.new }
{
    expression.clear(alloc);
    match read_fields(alloc, placed(fields)) {
        Ok(scope) => match read_kinds(alloc, placed(fields)) {
            Ok(kinds) => {
                let read = read_program(alloc, scope, kinds, placed(text));
                hold(alloc, read, expression, error)
            }
            Err(_) => error.tell(ErrorNumbers::of(OUT_OF_MEMORY), "out of memory"),
        },
        Err(wrong) => {
            let words = scope_words(alloc, wrong);
            error.report_text(ErrorNumbers::of_scope(wrong), words)
        }
    }
}

/// Frees what the handle holds, and leaves it empty.
#[unsafe(no_mangle)]
pub extern "C" fn yk_expression_free(alloc: Global, expression: &mut Handle)
    ensures { expression.new.held ≡ None }
{
    expression.clear(alloc);
}

/// How many fields the scope has.
#[unsafe(no_mangle)]
pub extern "C" fn yurkije_field_count(expression: &mut LentHandle, count: &mut usize) -> u32
    ensures kept { expression.new.held ≡ expression.old.held }
    ensures count { Asks (program_in expression.old.held) 100 result (count.new ≡ count.old)
        (λ p. (result ≡ 0) × (count.new ≡ field_count p.scope)) }
{
    let Some(loan) = expression.open() else {
        return EMPTY_HANDLE;
    };
    let status = field_count(loan.get(), count);
    expression.close(loan);
    status
}

/// The name of a field.
#[unsafe(no_mangle)]
pub extern "C" fn yurkije_field_name(
    expression: &mut LentHandle,
    field: usize,
    room: &mut [u8],
    len: &mut usize,
) -> u32
    ensures kept { expression.new.held ≡ expression.old.held }
    ensures name { Asks (program_in expression.old.held) 100 result
        (SameRoom room.old room.new len.old len.new)
        (λ p. TellsFieldName p field room.old room.new len.old len.new result) }
{
    let Some(loan) = expression.open() else {
        return EMPTY_HANDLE;
    };
    let status = field_name(loan.get(), field, room, len);
    expression.close(loan);
    status
}

/// The type of a field.
#[unsafe(no_mangle)]
pub extern "C" fn yurkije_field_type(
    expression: &mut LentHandle,
    field: usize,
    dtype: &mut Type,
) -> u32
    ensures kept { expression.new.held ≡ expression.old.held }
    ensures told { Asks (program_in expression.old.held) 100 result (dtype.new ≡ dtype.old)
        (λ p. TellsFieldType p field dtype.old dtype.new result) }
{
    let Some(loan) = expression.open() else {
        return EMPTY_HANDLE;
    };
    let status = field_type(loan.get(), field, dtype);
    expression.close(loan);
    status
}

/// The numbers of the fields that an answer reads, ascending, and how many they are.
#[unsafe(no_mangle)]
pub extern "C" fn yurkije_fields_read(
    alloc: Global,
    expression: &mut LentHandle,
    numbers: &mut [usize],
    count: &mut usize,
) -> u32
    ensures kept { expression.new.held ≡ expression.old.held }
    ensures told { Asks (program_in expression.old.held) 100 result
        ((numbers.new ≡ numbers.old) × (count.new ≡ count.old))
        (λ p. TellsFieldsRead p numbers.old numbers.new count.old count.new result) }
{
    let Some(loan) = expression.open() else {
        return EMPTY_HANDLE;
    };
    let status = fields_read(alloc, loan.get(), numbers, count);
    expression.close(loan);
    status
}

/// How many answers the expression has.
#[unsafe(no_mangle)]
pub extern "C" fn yurkije_answer_count(expression: &mut LentHandle, count: &mut usize) -> u32
    ensures kept { expression.new.held ≡ expression.old.held }
    ensures count { Asks (program_in expression.old.held) 100 result (count.new ≡ count.old)
        (λ p. (result ≡ 0) × (count.new ≡ length p.written)) }
{
    let Some(loan) = expression.open() else {
        return EMPTY_HANDLE;
    };
    let status = answer_count(loan.get(), count);
    expression.close(loan);
    status
}

/// The name of an answer.
#[unsafe(no_mangle)]
pub extern "C" fn yurkije_answer_name(
    expression: &mut LentHandle,
    answer: usize,
    room: &mut [u8],
    len: &mut usize,
) -> u32
    ensures kept { expression.new.held ≡ expression.old.held }
    ensures name { Asks (program_in expression.old.held) 100 result
        (SameRoom room.old room.new len.old len.new)
        (λ p. TellsAnswerName p answer room.old room.new len.old len.new result) }
{
    let Some(loan) = expression.open() else {
        return EMPTY_HANDLE;
    };
    let status = answer_name(loan.get(), answer, room, len);
    expression.close(loan);
    status
}

/// The type of an answer.
#[unsafe(no_mangle)]
pub extern "C" fn yurkije_answer_type(
    expression: &mut LentHandle,
    answer: usize,
    dtype: &mut Type,
) -> u32
    ensures kept { expression.new.held ≡ expression.old.held }
    ensures told { Asks (program_in expression.old.held) 100 result (dtype.new ≡ dtype.old)
        (λ p. TellsAnswerType p answer dtype.old dtype.new result) }
{
    let Some(loan) = expression.open() else {
        return EMPTY_HANDLE;
    };
    let status = answer_type(loan.get(), answer, dtype);
    expression.close(loan);
    status
}

/// The text of an answer, as it was written or as it is run. Where memory is refused nothing is
/// written.
#[unsafe(no_mangle)]
pub extern "C" fn yurkije_answer_text(
    alloc: Global,
    expression: &mut LentHandle,
    answer: usize,
    optimized: bool,
    room: &mut [u8],
    len: &mut usize,
) -> u32
    ensures kept { expression.new.held ≡ expression.old.held }
    ensures text { Asks (program_in expression.old.held) 100 result
        (SameRoom room.old room.new len.old len.new)
        (λ p. TellsAnswerText p answer optimized room.old room.new len.old len.new result) }
{
    let Some(loan) = expression.open() else {
        return EMPTY_HANDLE;
    };
    let status = answer_text(alloc, loan.get(), answer, optimized, room, len);
    expression.close(loan);
    status
}
