//! What is asked of an expression that is held.
ghost use Rattle.std.specs.Prelude.{◌≡◌, ◌<◌, length, string_bytes, slice_get, map};
ghost use Rattle.vortex_types.specs.LogicalTypes.{field_count, field_type};
ghost use Rattle.vortex_types.specs.FieldNames.{field_name};
ghost use Rattle.yurkije.specs.Asking.{Asks, SameRoom, IsPut, TellsFieldName, TellsFieldType};
ghost use Rattle.yurkije.specs.Asking.{TellsAnswerName, TellsAnswerType, TellsAnswerText};
ghost use Rattle.yurkije.specs.Asking.{PutsNumbers, TellsFieldsRead};

use crate::held::Held;
use crate::statuses::{EMPTY_HANDLE, NO_SUCH_NUMBER, OK, OUT_OF_MEMORY, ROOM_TOO_SMALL};
use std::alloc::Global;
use yurkije_columns::{Type, kind_number, number_at, put_text, reported_type};

/// Writes a text, and tells how long it is.
pub(crate) fn put(text: &str, room: &mut [u8], len: &mut usize) -> u32
    ensures { IsPut text.now room.old room.new len.new result }
{
    *len = text.len();
    if put_text(text, room) == text.len() {
        OK
    } else {
        ROOM_TOO_SMALL
    }
}

pub(crate) fn field_count(held: &Held, count: &mut usize) -> u32
    ensures { Asks held.now.program 100 result (count.new ≡ count.old)
        (λ p. (result ≡ 0) × (count.new ≡ field_count p.scope)) }
{
    match held.expression() {
        Some(expression) => {
            *count = expression.program.scope.len();
            OK
        }
        None => EMPTY_HANDLE,
    }
}

pub(crate) fn field_name(held: &Held, field: usize, room: &mut [u8], len: &mut usize) -> u32
    ensures { Asks held.now.program 100 result
        (SameRoom room.old room.new len.old len.new)
        (λ p. TellsFieldName p field room.old room.new len.old len.new result) }
{
    match held.expression() {
        Some(expression) => {
            if field < expression.program.scope.len() {
                put(expression.program.scope.name(field), room, len)
            } else {
                NO_SUCH_NUMBER
            }
        }
        None => EMPTY_HANDLE,
    }
}

pub(crate) fn field_type(held: &Held, field: usize, dtype: &mut Type) -> u32
    ensures { Asks held.now.program 100 result (dtype.new ≡ dtype.old)
        (λ p. TellsFieldType p field dtype.old dtype.new result) }
{
    match held.expression() {
        Some(expression) => {
            if field < expression.program.scope.len() {
                let number = number_at(&expression.program.kinds, field);
                *dtype = reported_type(number, expression.program.scope.dtype(field));
                OK
            } else {
                NO_SUCH_NUMBER
            }
        }
        None => EMPTY_HANDLE,
    }
}

pub(crate) fn answer_count(held: &Held, count: &mut usize) -> u32
    ensures { Asks held.now.program 100 result (count.new ≡ count.old)
        (λ p. (result ≡ 0) × (count.new ≡ length p.written)) }
{
    match held.expression() {
        Some(expression) => {
            *count = expression.program.written.len();
            OK
        }
        None => EMPTY_HANDLE,
    }
}

pub(crate) fn answer_name(held: &Held, answer: usize, room: &mut [u8], len: &mut usize) -> u32
    ensures { Asks held.now.program 100 result
        (SameRoom room.old room.new len.old len.new)
        (λ p. TellsAnswerName p answer room.old room.new len.old len.new result) }
{
    match held.expression() {
        Some(expression) => match expression.program.written.get(answer) {
            Some(answer) => put(answer.name.as_str(), room, len),
            None => NO_SUCH_NUMBER,
        },
        None => EMPTY_HANDLE,
    }
}

pub(crate) fn answer_type(held: &Held, answer: usize, dtype: &mut Type) -> u32
    ensures { Asks held.now.program 100 result (dtype.new ≡ dtype.old)
        (λ p. TellsAnswerType p answer dtype.old dtype.new result) }
{
    match held.expression() {
        Some(expression) => match expression.program.written.get(answer) {
            Some(answer) => {
                *dtype = reported_type(kind_number(&answer.kind), answer.tree.dtype());
                OK
            }
            None => NO_SUCH_NUMBER,
        },
        None => EMPTY_HANDLE,
    }
}

pub(crate) fn answer_text(
    alloc: Global,
    held: &Held,
    answer: usize,
    optimized: bool,
    room: &mut [u8],
    len: &mut usize,
) -> u32
    ensures { Asks held.now.program 100 result (SameRoom room.old room.new len.old len.new)
        (λ p. TellsAnswerText p answer optimized room.old room.new len.old len.new result) }
{
    match held.expression() {
        Some(expression) => match expression.program.text(alloc, answer, optimized) {
            Ok(Some(text)) => put(text.as_str(), room, len),
            Ok(None) => NO_SUCH_NUMBER,
            Err(_) => OUT_OF_MEMORY,
        },
        None => EMPTY_HANDLE,
    }
}

/// Writes numbers, and tells how many they are. None is written where there is no room for all.
fn put_numbers(places: &[usize], numbers: &mut [usize], count: &mut usize) -> u32
    ensures { PutsNumbers places.now numbers.old numbers.new count.new result }
{
    *count = places.len();
    if numbers.len() < places.len() {
        return ROOM_TOO_SMALL;
    }
    numbers[..places.len()].copy_from_slice(places);
    OK
}

pub(crate) fn fields_read(
    alloc: Global,
    held: &Held,
    numbers: &mut [usize],
    count: &mut usize,
) -> u32
    ensures { Asks held.now.program 100 result
        ((numbers.new ≡ numbers.old) × (count.new ≡ count.old))
        (λ p. TellsFieldsRead p numbers.old numbers.new count.old count.new result) }
{
    match held.expression() {
        Some(expression) => match expression.fields_read(alloc) {
            Ok(places) => put_numbers(&places, numbers, count),
            Err(_) => OUT_OF_MEMORY,
        },
        None => EMPTY_HANDLE,
    }
}
