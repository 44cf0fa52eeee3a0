//! Array trees: what they answer, and rules at their places, one after another.

use crate::questions::sure;
use fixtures::are_rows;
use std::alloc::Global;
use tree_fixtures::array_makers::*;
use vortex_row_fn::*;

/// Where `x` is null, and so And of `x` and `y`.
const MISSING: [Option<bool>; 3] = [Some(false), Some(false), Some(true)];

/// Whether And of `x` and `y` is null.
fn missing_both<C: ScalarFnVTable>(alloc: Global) -> Held<C> {
    let both = Box::into_inner(over_columns(alloc, x(alloc), Operator::And, y(alloc))?);
    made(alloc, IsNull::new(alloc, both))
}

/// The call of the function that takes no argument, of so many rows.
fn none_of_rows(alloc: Global, len: usize) -> Held<NoCustom> {
    let function = ScalarFnRef::custom(NoCustom, EmptyOptions);
    let call = ScalarFnArray::try_new_with_len(alloc, function, Vec::new(alloc), len);
    made(alloc, call)
}

#[test]
fn arrays_answer(rt: HostRuntime) {
    let alloc = rt.alloc();
    let rows = none_of_rows(alloc, 2);
    sure(&rt, array_answers(rt, rows, &[Some(false), Some(false)]));
}

/// Whether a list of steps makes an array of these rows, so many of them applied.
fn lists_to<C: ScalarFnRules>(
    rt: HostRuntime,
    array: Held<C>,
    steps: &[(&[usize], Rule)],
    expected: &[Option<bool>],
    applied: usize,
) -> VortexResult<bool> {
    let alloc = rt.alloc();
    let made = Box::new(alloc, array?.rewrite_list(alloc, steps)?)?;
    let mut ctx = ExecutionCtx::new(alloc);
    let answer = Box::new(alloc, made.tree.execute(&mut ctx)?)?;
    Ok(are_rows(rt, &**answer, expected)? && made.applied == applied)
}

#[test]
fn rules_apply_to_an_array_one_after_another(rt: HostRuntime) {
    const STEPS: &[(&[usize], Rule)] = &[
        (&[], Rule::Reduce),
        (&[0], Rule::Reduce),
        (&[0], Rule::Simplify),
    ];
    let missing = missing_both::<NoCustom>(rt.alloc());
    sure(&rt, lists_to(rt, missing, STEPS, &MISSING, 2));
}
