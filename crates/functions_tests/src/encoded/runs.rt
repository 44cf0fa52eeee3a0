//! What the adaptors settle, and what they ask the kernels of a run-length column.

use crate::encoded::{Answer, held, says};
use crate::questions::sure;
use caller_functions::run_length::RunLength;
use fixtures::{Made, bools, kept};
use std::alloc::Global;
use vortex_arrays::{BooleanExecuteAdaptor, CompareExecuteAdaptor, EncodedColumn};
use vortex_columns::{Column, ExecutionCtx, Nullability, Scalar, VortexError, VortexResult};
use vortex_kernels::Operator;

/// A run-length column on the heap.
type Runs = VortexResult<Box<RunLength>>;

/// The rows false false true false.
fn runs(alloc: Global) -> Runs {
    let starts = Vec::from_array(alloc, [2, 3])?;
    let values = bools(alloc, &[false, true, false])?;
    Ok(Box::new(alloc, RunLength::try_new(values, starts, 4)?)?)
}

/// A truth value in each of four rows.
fn constant(alloc: Global, value: bool, nullability: Nullability) -> Made {
    let scalar = Scalar::bool(value, nullability);
    kept(alloc, Column::constant(alloc, scalar, 4))
}

/// A column of Bool that is less than the runs, by the compare adaptor.
fn is_below(alloc: Global, array: Box<RunLength>, other: &Column) -> Answer {
    if array.len() != other.len() || !array.dtype().eq_ignore_nullability(other.dtype()) {
        return Err(VortexError::InvalidColumn);
    }
    let adaptor = CompareExecuteAdaptor(Box::into_inner(array));
    let ctx = &mut ExecutionCtx::new(alloc);
    let answer = adaptor.execute_parent(&adaptor.0, Operator::Lt, other, 1, ctx);
    held(alloc, answer)
}

/// The same of columns that were made.
fn below(alloc: Global, array: Runs, other: Made) -> Answer {
    let (array, other) = (array?, other?);
    is_below(alloc, array, &*other)
}

#[test]
fn a_kernel_is_asked_with_the_swapped_comparison(rt: HostRuntime) {
    let alloc = rt.alloc();
    let other = constant(alloc, false, Nullability::NonNullable);
    let below = below(alloc, runs(alloc), other);
    sure(&rt, says(rt, below, "bool: false false true false"));
}

/// And of the runs and a column of Bool, by the boolean adaptor.
fn and_beside(alloc: Global, array: Box<RunLength>, other: &Column) -> Answer {
    if array.len() != other.len() || !array.dtype().is_boolean() || !other.dtype().is_boolean() {
        return Err(VortexError::InvalidColumn);
    }
    let adaptor = BooleanExecuteAdaptor(Box::into_inner(array));
    let ctx = &mut ExecutionCtx::new(alloc);
    let answer = adaptor.execute_parent(&adaptor.0, Operator::And, other, 1, ctx);
    held(alloc, answer)
}

/// The same of columns that were made.
fn both(alloc: Global, array: Runs, other: Made) -> Answer {
    let (array, other) = (array?, other?);
    and_beside(alloc, array, &*other)
}

#[test]
fn a_constant_beside_and_is_settled(rt: HostRuntime) {
    let alloc = rt.alloc();
    // the kernel answers beside null constants alone
    let other = constant(alloc, true, Nullability::Nullable);
    let both = both(alloc, runs(alloc), other);
    sure(&rt, says(rt, both, "bool?: false false true false"));
}
