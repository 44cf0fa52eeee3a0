//! One call of a kernel each, and short questions to its answer.

use fixtures::{Ask, Made, kept, rows_of, same, truth};
use std::alloc::Global;
use std::process::Abort;
use vortex_columns::{BitBuffer, Column, ExecutionCtx, Validity, VortexError, VortexResult};
use vortex_kernels::{CompareOperator, Operator, execute_boolean, execute_compare, execute_not};

/// Ends the test unless a question was answered with yes.
pub(crate) fn sure<R: Abort + Ask>(test: &R, answer: VortexResult<bool>) {
    assert!(test; test.yes(answer));
}

/// The six comparisons.
pub(crate) const COMPARISONS: [CompareOperator; 6] = [
    CompareOperator::Eq,
    CompareOperator::NotEq,
    CompareOperator::Gt,
    CompareOperator::Gte,
    CompareOperator::Lt,
    CompareOperator::Lte,
];

/// The comparison of two columns.
pub(crate) fn compared(alloc: Global, left: Made, operator: CompareOperator, right: Made) -> Made {
    let (left, right) = (left?, right?);
    let mut ctx = ExecutionCtx::new(alloc);
    kept(alloc, execute_compare(&*left, &*right, operator, &mut ctx))
}

/// And or Or of two columns, where they are of one length.
fn combine(alloc: Global, left: &Column, operator: Operator, right: &Column) -> Made {
    if left.len() != right.len() {
        return Err(VortexError::InvalidColumn);
    }
    let mut ctx = ExecutionCtx::new(alloc);
    kept(alloc, execute_boolean(left, right, operator, &mut ctx))
}

/// And or Or of two columns of one length.
pub(crate) fn combined(alloc: Global, left: Made, operator: Operator, right: Made) -> Made {
    let (left, right) = (left?, right?);
    combine(alloc, &*left, operator, &*right)
}

/// Not of a column of Bool.
pub(crate) fn negated(alloc: Global, column: Made) -> Made {
    let column = column?;
    if !column.dtype().is_boolean() {
        return Err(VortexError::InvalidColumn);
    }
    kept(alloc, execute_not(&*column, &mut ExecutionCtx::new(alloc)))
}

/// The truth values of so many rows, by letters in turn.
pub(crate) fn in_turn(alloc: Global, letters: &str, len: usize) -> VortexResult<Vec<Option<bool>>> {
    let mut rows = Vec::new(alloc);
    for letter in letters.as_bytes().iter().cycle().take(len) {
        rows.push(truth(*letter))?;
    }
    Ok(rows)
}

/// Whether the rows of an answer of nullable Bool are those of the letters in turn.
pub(crate) fn says_in_turn(rt: HostRuntime, answer: Made, letters: &str) -> VortexResult<bool> {
    let alloc = rt.alloc();
    let answer = answer?;
    let expected = in_turn(alloc, letters, answer.len())?;
    let dtype = answer.dtype();
    let is_typed = dtype.is_boolean() && dtype.is_nullable();
    Ok(
        is_typed
            && same(
                rt,
                rows_of(alloc, &*answer)?.as_slice(),
                expected.as_slice(),
            ),
    )
}

/// The rows that are not null, as a list of bits.
pub(crate) fn valid_rows(alloc: Global, valid: &[bool]) -> VortexResult<Validity> {
    Ok(Validity::Array(BitBuffer::from_bools(alloc, valid)?))
}
