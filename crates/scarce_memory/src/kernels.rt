//! The kernels over columns, which are borrowed, and over bits.

use crate::comparing::{Sides, are_same};
use crate::seen::Tally;
use fixtures::{Made, constant, kept, nullable_ints, truths};
use std::alloc::Global;
use vortex_columns::*;
use vortex_kernels::*;

/// Each pair of true, false and null, by letters, and And and Or of them.
const LEFT: &str = "tttfffnnn";

const RIGHT: &str = "tfntfntfn";

const BOTH: &str = "tfnfffnfn";

const EITHER: &str = "ttttfntnn";

/// The call of a kernel of truth values, on columns of one length.
fn boolean(alloc: Global, sides: &Sides, operator: Operator) -> Made {
    if sides.left.len() != sides.right.len() {
        return Err(VortexError::InvalidColumn);
    }
    let mut ctx = ExecutionCtx::new(alloc);
    kept(
        alloc,
        execute_boolean(&*sides.left, &*sides.right, operator, &mut ctx),
    )
}

fn combines(alloc: Global, operator: Operator, expected: Made) -> VortexResult<bool> {
    let expected = expected?;
    let (left, right) = (truths(alloc, LEFT), truths(alloc, RIGHT));
    let sides = Sides::new(alloc, left, right)?;
    let answer = boolean(alloc, &sides, operator);
    sides.answer(answer, &*expected)
}

/// The same with one truth value in each row.
fn combines_with(
    alloc: Global,
    operator: Operator,
    right: bool,
    expected: Made,
) -> VortexResult<bool> {
    let expected = expected?;
    let left = truths(alloc, LEFT);
    let scalar = Scalar::bool(right, Nullability::NonNullable);
    let right = kept(alloc, Column::constant(alloc, scalar, LEFT.len()));
    let sides = Sides::new(alloc, left, right)?;
    let answer = boolean(alloc, &sides, operator);
    sides.answer(answer, &*expected)
}

/// 1, null, 3 with 3, 3, 3.
fn numbers(alloc: Global) -> VortexResult<Sides> {
    let left = nullable_ints(alloc, &[Some(1), None, Some(3)]);
    let right = nullable_ints(alloc, &[Some(3), Some(3), Some(3)]);
    Sides::new(alloc, left, right)
}

fn compares(alloc: Global, operator: CompareOperator, expected: Made) -> VortexResult<bool> {
    let expected = expected?;
    let sides = numbers(alloc)?;
    let mut ctx = ExecutionCtx::new(alloc);
    let answer = execute_compare(&*sides.left, &*sides.right, operator, &mut ctx);
    sides.answer(kept(alloc, answer), &*expected)
}

fn calculates(alloc: Global, operator: NumericOperator, expected: Made) -> VortexResult<bool> {
    let expected = expected?;
    let sides = numbers(alloc)?;
    let mut ctx = ExecutionCtx::new(alloc);
    let answer = execute_numeric(&*sides.left, &*sides.right, operator, &mut ctx);
    sides.answer(kept(alloc, answer), &*expected)
}

/// The same with the number 3 in each row.
fn calculates_with_three(
    alloc: Global,
    operator: NumericOperator,
    expected: Made,
) -> VortexResult<bool> {
    let expected = expected?;
    let left = nullable_ints(alloc, &[Some(1), None, Some(3)]);
    let sides = Sides::new(alloc, left, constant(alloc, PType::I32, 3, 3))?;
    let mut ctx = ExecutionCtx::new(alloc);
    let answer = execute_numeric(&*sides.left, &*sides.right, operator, &mut ctx);
    sides.answer(kept(alloc, answer), &*expected)
}

/// A truth value and a null, as bits with the rows that are not null.
fn first_alone(alloc: Global, first: bool) -> VortexResult<(BitBuffer, Validity)> {
    let bits = BitBuffer::from_bools(alloc, &[first, true])?;
    let valid = BitBuffer::from_bools(alloc, &[true, false])?;
    Ok((bits, Validity::Array(valid)))
}

/// An operator over true, null and over false, null.
fn over_bits(alloc: Global, operator: Operator) -> Made {
    let (left, left_valid) = first_alone(alloc, true)?;
    let (right, right_valid) = first_alone(alloc, false)?;
    let len = left.len();
    if right.len() != len || !left_valid.fits(len) || !right_valid.fits(len) {
        return Err(VortexError::InvalidColumn);
    }
    let mut ctx = ExecutionCtx::new(alloc);
    let nullability = Nullability::Nullable;
    kept(
        alloc,
        kleene_boolean_buffers(
            left,
            left_valid,
            right,
            right_valid,
            operator,
            nullability,
            &mut ctx,
        ),
    )
}

fn is_over_bits(answer: Made, expected: Made) -> VortexResult<bool> {
    Ok(are_same(&*answer?, &*expected?))
}

pub fn ask(alloc: Global, tally: &mut Tally) {
    let both = truths(alloc, BOTH);
    tally.note("execute_boolean, And", combines(alloc, Operator::And, both));
    let either = truths(alloc, EITHER);
    tally.note("execute_boolean, Or", combines(alloc, Operator::Or, either));
    let below = truths(alloc, "tnf");
    tally.note(
        "execute_compare",
        compares(alloc, CompareOperator::Lt, below),
    );
    let sums = nullable_ints(alloc, &[Some(4), None, Some(6)]);
    tally.note(
        "execute_numeric",
        calculates(alloc, NumericOperator::Add, sums),
    );
    let left = truths(alloc, LEFT);
    tally.note(
        "execute_boolean, And true",
        combines_with(alloc, Operator::And, true, left),
    );
    let left = truths(alloc, LEFT);
    tally.note(
        "execute_boolean, Or false",
        combines_with(alloc, Operator::Or, false, left),
    );
    let products = nullable_ints(alloc, &[Some(3), None, Some(9)]);
    tally.note(
        "execute_numeric, a constant factor",
        calculates_with_three(alloc, NumericOperator::Mul, products),
    );
    let quotients = nullable_ints(alloc, &[Some(0), None, Some(1)]);
    tally.note(
        "execute_numeric, a constant divisor",
        calculates_with_three(alloc, NumericOperator::Div, quotients),
    );
    let both = truths(alloc, "fn");
    tally.note(
        "kleene_boolean_buffers, And",
        is_over_bits(over_bits(alloc, Operator::And), both),
    );
    let either = truths(alloc, "tn");
    tally.note(
        "kleene_boolean_buffers, Or",
        is_over_bits(over_bits(alloc, Operator::Or), either),
    );
}
