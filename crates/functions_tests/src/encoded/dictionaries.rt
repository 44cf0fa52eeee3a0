//! Dictionaries: what they stand for, their kernels, and functions over their values, a caller's
//! among them.

use crate::encoded::{Answer, held, says};
use crate::questions::{must, sure};
use caller_functions::must_be_true::MustBeTrue;
use fixtures::{Ask, Made, constant, integer, kept, reads, same};
use std::alloc::Global;
use vortex_arrays::{BooleanKernel, CompareKernel, DictColumn, EncodedColumn};
use vortex_columns::{
    Column, DType, ExecutionCtx, Nullability, PType, Scalar, VortexError, VortexResult,
};
use vortex_functions::{
    Binary, EmptyOptions, NoCustom, ScalarFnRef, ScalarFnVTable, ScalarFnVTableExt,
};
use vortex_kernels::{CompareOperator, Operator};

const YES: Option<bool> = Some(true);

const NO: Option<bool> = Some(false);

/// A dictionary on the heap, or why it could not be made.
type Dict = VortexResult<Box<DictColumn>>;

/// What a function makes of a dictionary, on the heap.
type Pushed = VortexResult<Option<Box<DictColumn>>>;

/// A dictionary of these values.
fn dictionary(alloc: Global, values: Made, codes: &[u32]) -> Dict {
    let codes = codes.to_vec(alloc)?;
    let values = Box::into_inner(values?);
    Ok(Box::new(alloc, DictColumn::try_new(values, codes)?)?)
}

/// The u8 1, null and 3 under the codes 2 0 1 2, shared.
fn three_one_null_three(alloc: Global) -> Dict {
    let values = kept(alloc, Column::of_ints(alloc, &[Some(1u8), None, Some(3)]));
    let dictionary = Box::into_inner(dictionary(alloc, values, &[2, 0, 1, 2])?);
    Ok(Box::new(alloc, dictionary.share(alloc)?)?)
}

/// Truth values under codes.
fn truths(alloc: Global, values: &[Option<bool>], codes: &[u32]) -> Dict {
    dictionary(alloc, kept(alloc, Column::of_bools(alloc, values)), codes)
}

/// The kernel's Lt with another column.
fn compared(alloc: Global, dictionary: Dict, other: Made) -> Answer {
    let (dictionary, other) = (dictionary?, other?);
    if dictionary.len() != other.len() || !dictionary.dtype().eq_ignore_nullability(other.dtype()) {
        return Err(VortexError::InvalidColumn);
    }
    let ctx = &mut ExecutionCtx::new(alloc);
    held(alloc, dictionary.compare(&*other, CompareOperator::Lt, ctx))
}

/// The kernel's And of a dictionary of Bool with a column of as many rows.
fn combined(alloc: Global, dictionary: Dict, other: Made) -> Answer {
    let (dictionary, other) = (dictionary?, other?);
    if dictionary.len() != other.len()
        || !dictionary.dtype().is_boolean()
        || !other.dtype().is_boolean()
    {
        return Err(VortexError::InvalidColumn);
    }
    let ctx = &mut ExecutionCtx::new(alloc);
    held(alloc, dictionary.boolean(&*other, Operator::And, ctx))
}

/// A null of Bool in each of four rows.
fn nulls(alloc: Global) -> Made {
    let scalar = Scalar::null(DType::Bool(Nullability::Nullable));
    kept(alloc, Column::constant(alloc, scalar, 4))
}

#[test]
fn the_kernels_answer_beside_constants(rt: HostRuntime) {
    let alloc = rt.alloc();
    let truths = truths(alloc, &[YES, None, NO], &[0, 2, 1, 0]);
    let and = combined(alloc, truths, nulls(alloc));
    sure(&rt, says(rt, and, "bool?: null false null null"));
    let twos = constant(alloc, PType::U8, 2, 4);
    let less = compared(alloc, three_one_null_three(alloc), twos);
    sure(&rt, says(rt, less, "bool?: false true null false"));
}

/// The function of a dictionary that stands in that place among the others.
fn pushed<C: ScalarFnVTable>(
    alloc: Global,
    dictionary: Dict,
    function: ScalarFnRef<C>,
    child_idx: usize,
    others: &[Scalar],
) -> Pushed {
    let dictionary = dictionary?;
    if child_idx > others.len() {
        return Err(VortexError::InvalidColumn);
    }
    let ctx = &mut ExecutionCtx::new(alloc);
    match dictionary.push_down(&function, child_idx, others, ctx)? {
        Some(answer) => Ok(Some(Box::new(alloc, answer)?)),
        None => Ok(None),
    }
}

/// What was made, as a dictionary to go on with.
fn made(pushed: Pushed) -> Dict {
    match pushed? {
        Some(dictionary) => Ok(dictionary),
        None => Err(VortexError::InvalidColumn),
    }
}

/// Whether a function of a dictionary has these codes, and stands for rows of that text.
fn stands_for(
    rt: HostRuntime,
    answer: Pushed,
    codes: &[u32],
    expected: &str,
) -> VortexResult<bool> {
    let alloc = rt.alloc();
    let dictionary = made(answer)?;
    let rows = kept(alloc, dictionary.decode(&mut ExecutionCtx::new(alloc)));
    Ok(same(rt, dictionary.codes(), codes) && reads(rt, rows, expected)?)
}

/// Gt of the dictionary and 2.
fn greater(alloc: Global) -> Pushed {
    let two = [integer(PType::U8, 2)?];
    let gt = Binary.bind::<NoCustom>(Operator::Gt);
    pushed(alloc, three_one_null_three(alloc), gt, 0, &two)
}

#[test]
fn the_values_are_compared_and_the_codes_stay(rt: HostRuntime) {
    let alloc = rt.alloc();
    let expected = "bool?: true false null true";
    sure(&rt, stands_for(rt, greater(alloc), &[2, 0, 1, 2], expected));
}

/// A caller's function over a dictionary of Bool, which faults at false.
fn must_be_true(alloc: Global, values: &[Option<bool>], codes: &[u32]) -> Pushed {
    let function = ScalarFnRef::custom(MustBeTrue, EmptyOptions);
    pushed(alloc, truths(alloc, values, codes), function, 0, &[])
}

#[test]
fn a_callers_fallible_function(rt: HostRuntime) {
    let alloc = rt.alloc();
    let all = must_be_true(alloc, &[None, YES], &[1, 0, 1]);
    let expected = "bool?: true null true";
    sure(&rt, stands_for(rt, all, &[1, 0, 1], expected));
    let fault = must_be_true(alloc, &[YES, NO], &[1, 0, 1]);
    must(&rt, rt.is_refused(fault, "Custom"));
}
