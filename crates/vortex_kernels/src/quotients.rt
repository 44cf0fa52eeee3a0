//! Quotients of two columns, estimated 64 rows at a time where floats may hold the integers.
ghost use Rattle.std.specs.Prelude.{◌≡◌, ◌+◌, ◌≤◌, Bool, false, length, map, take, Some};
ghost use Rattle.std.specs.Vec.{vec_len, vec_capacity};
ghost use Rattle.vortex_checked.specs.Exact.{quotient};
ghost use Rattle.vortex_errors.specs.declared.error.NumericOperator.TheVariants.{Div};
ghost use Rattle.vortex_kernels.specs.Words.{Answers, AnswersUnlessMemory, integer_of_both};
ghost use Rattle.vortex_kernels.specs.Words.{AnswersNumeric, RefusesNumeric, AreInts};
ghost use Rattle.vortex_kernels.specs.Faults.{AreToldResults, pair_results};

use crate::arithmetic_integer::{ArithmeticInteger, apply_checked, by_guess};
use crate::numbers::ListedNumbers;
use crate::numeric_column::numeric_column;
use std::alloc::Global;
use vortex_checked::{CheckedDiv, GuessedDivision};
use vortex_columns::{Column, ExecutionCtx, NumericOperator, VortexResult};

/// Appends the quotients of the rows up to `end`, row by row; returns whether a row faults.
fn divide_rows<T: ArithmeticInteger>(
    mut values: Vec<T>,
    mut fault: bool,
    lefts: &[T],
    rights: &[T],
    end: usize,
) -> (Vec<T>, bool)
    requires room { end ≤ vec_capacity values }
    requires left { end ≤ length lefts.now }
    requires right { end ≤ length rights.now }
    requires order { vec_len values ≤ end }
    requires before { AreToldResults T.ptype (pair_results quotient
        (map T.NativePType.number lefts.now) (map T.NativePType.number rights.now))
        (vec_len values) (map T.NativePType.number values.items) fault }
    ensures capacity { vec_capacity result.0 ≡ vec_capacity values }
    ensures results { AreToldResults T.ptype (pair_results quotient
        (map T.NativePType.number lefts.now) (map T.NativePType.number rights.now))
        end (map T.NativePType.number result.0.items) result.1 }
{
    for i in values.len()..end {
        let (value, evidence) = apply_checked::<T, CheckedDiv>(lefts[i], rights[i]);
        values.push_reserved(value);
        fault |= evidence;
    }
    (values, fault)
}

/// Appends estimates of the quotients of the next 64 rows; returns whether any may be wrong.
#[inline(always)]
fn guess_rows<T: ArithmeticInteger + GuessedDivision>(
    mut values: Vec<T>,
    lefts: &[T],
    rights: &[T],
) -> (Vec<T>, bool)
    requires room { vec_len values + 64 ≤ vec_capacity values }
    requires left { vec_len values + 64 ≤ length lefts.now }
    requires right { vec_len values + 64 ≤ length rights.now }
    ensures capacity { vec_capacity result.0 ≡ vec_capacity values }
    ensures kept { take (vec_len values) result.0.items ≡ values.items }
    ensures exact { (told : Bool) → AreToldResults T.ptype (pair_results quotient
        (map T.NativePType.number lefts.now) (map T.NativePType.number rights.now))
        (vec_len values) (map T.NativePType.number values.items) told
        → result.1 ≡ false → AreToldResults T.ptype (pair_results quotient
        (map T.NativePType.number lefts.now) (map T.NativePType.number rights.now))
        (vec_len values + 64) (map T.NativePType.number result.0.items) told }
{
    let start = values.len();
    let guesses = T::guesses(&lefts[start..start + 64], &rights[start..start + 64]);
    let mut is_off = false;
    for i in 0..64 {
        let (value, may_be_off) = by_guess(lefts[start + i], rights[start + i], &guesses, i);
        values.push_reserved(value);
        is_off |= may_be_off;
    }
    (values, is_off)
}

/// Appends the quotients of the next 64 rows; returns whether a row faults. If an estimate may be
/// wrong, all 64 rows are divided.
fn next_rows<T: ArithmeticInteger + GuessedDivision>(
    values: Vec<T>,
    fault: bool,
    lefts: &[T],
    rights: &[T],
) -> (Vec<T>, bool)
    requires room { vec_len values + 64 ≤ vec_capacity values }
    requires left { vec_len values + 64 ≤ length lefts.now }
    requires right { vec_len values + 64 ≤ length rights.now }
    requires before { AreToldResults T.ptype (pair_results quotient
        (map T.NativePType.number lefts.now) (map T.NativePType.number rights.now))
        (vec_len values) (map T.NativePType.number values.items) fault }
    ensures capacity { vec_capacity result.0 ≡ vec_capacity values }
    ensures results { AreToldResults T.ptype (pair_results quotient
        (map T.NativePType.number lefts.now) (map T.NativePType.number rights.now))
        (vec_len values + 64) (map T.NativePType.number result.0.items) result.1 }
{
    let start = values.len();
    if !T::may_serve(&lefts[start..start + 64], &rights[start..start + 64]) {
        return divide_rows::<T>(values, fault, lefts, rights, start + 64);
    }
    let (mut guesses, is_off) = guess_rows::<T>(values, lefts, rights);
    if !is_off {
        return (guesses, fault);
    }
    guesses.truncate(start);
    divide_rows::<T>(guesses, fault, lefts, rights, start + 64)
}

/// The quotient of each row, even under a null, and whether a row faults.
fn guessed_quotients<T: ArithmeticInteger + GuessedDivision>(
    alloc: Global,
    lefts: &[T],
    rights: &[T],
) -> VortexResult<(Vec<T>, bool)>
    requires { length rights.now ≡ length lefts.now }
    ensures { AnswersUnlessMemory result (λ answer. AreToldResults T.ptype (pair_results quotient
        (map T.NativePType.number lefts.now) (map T.NativePType.number rights.now))
        (length lefts.now) (map T.NativePType.number answer.0.items) answer.1) }
{
    let len = lefts.len();
    let mut values = Vec::with_capacity(alloc, len)?;
    let mut fault = false;
    for _k in 0..len / 64 {
        let (next, told) = next_rows::<T>(values, fault, lefts, rights);
        values = next;
        fault = told;
    }
    Ok(divide_rows::<T>(values, fault, lefts, rights, len))
}

/// The quotient in each row, of integers on both sides.
pub(crate) fn column_quotients<T: ArithmeticInteger + GuessedDivision>(
    lefts: &[T],
    rights: &[T],
    lhs: &Column,
    rhs: &Column,
    ctx: &mut ExecutionCtx,
) -> VortexResult<Column>
    requires types { integer_of_both lhs.now.dtype rhs.now.dtype ≡ Some T.ptype }
    requires lengths { length lhs.now.rows ≡ length rhs.now.rows }
    requires left { AreInts lhs.now (map T.NativePType.number lefts.now) }
    requires right { AreInts rhs.now (map T.NativePType.number rights.now) }
    ensures { Answers result (AnswersNumeric Div lhs.now rhs.now)
        (RefusesNumeric Div lhs.now rhs.now) }
{
    let calculated = guessed_quotients::<T>(ctx.alloc(), lefts, rights)?;
    let left = ListedNumbers { values: lefts };
    let right = ListedNumbers { values: rights };
    numeric_column::<T, CheckedDiv, ListedNumbers<T>, ListedNumbers<T>>(
        calculated,
        &left,
        &right,
        lhs,
        rhs,
        NumericOperator::Div,
        ctx,
    )
}
