//! Callers' functions in trees, and their rules at roots.

use crate::questions::sure;
use caller_functions::first::First;
use caller_functions::levelled::{Level, Levelled};
use caller_functions::must_be_true::MustBeTrue;
use std::alloc::Global;
use tree_fixtures::makers::*;
use tree_fixtures::rewritten::*;
use vortex_functions::*;

/// The caller's function that faults at false, over column `a`.
fn must_be_true(alloc: Global) -> Bound<MustBeTrue> {
    call_of_leaves(alloc, ScalarFnRef::custom(MustBeTrue, EmptyOptions), 1)
}

#[test]
fn a_callers_function_faults(rt: HostRuntime) {
    let alloc = rt.alloc();
    let columns = twice(alloc, &[Some(true), Some(false)]);
    let answer = executed(alloc, not_of(alloc, must_be_true(alloc)), columns, 2);
    assert!(rt; is_fault(rt, answer, 1));
}

/// A caller's Not, of column `a` of nullable Bool.
fn levelled_a(alloc: Global) -> Bound<Levelled> {
    call_of_leaves(alloc, ScalarFnRef::custom(Levelled, Level { level: 3 }), 1)
}

#[test]
fn a_callers_function_answers_and_has_a_text(rt: HostRuntime) {
    let alloc = rt.alloc();
    let columns = twice(alloc, &[Some(true), None]);
    let expected = [Some(false), None];
    sure(&rt, answers(rt, levelled_a(alloc), columns, &expected));
    let text = "test.levelled($.a, opts=level 3)";
    sure(&rt, prints(rt, levelled_a(alloc), text));
}

#[test]
fn null_tests_ask_a_callers_validity(rt: HostRuntime) {
    let alloc = rt.alloc();
    let missing = reduced(alloc, is_null(alloc, levelled_a(alloc)));
    sure(&rt, becomes(rt, missing, "vortex.not(is_not_null($.a))"));
    sure(&rt, stays(rt, simplified(alloc, levelled_a(alloc))));
}

/// The function that answers its first argument, over five columns.
fn first_of_five(alloc: Global) -> Bound<First> {
    let words = ["a", "b", "c", "d", "e"];
    call_of_names(alloc, ScalarFnRef::custom(First, EmptyOptions), &words)
}

/// What the five columns' validities are joined to.
const FIVE: &str = "((is_not_null($.a) and is_not_null($.b)) and \
    ((is_not_null($.c) and is_not_null($.d)) and is_not_null($.e)))";

#[test]
fn a_callers_rules_apply(rt: HostRuntime) {
    let alloc = rt.alloc();
    let made = reduced(alloc, first_of_five(alloc));
    sure(&rt, becomes(rt, made, "$.a"));
    let made = simplified(alloc, first_of_five(alloc));
    sure(&rt, becomes(rt, made, "$.a"));
    sure(&rt, becomes(rt, united(alloc, first_of_five(alloc)), FIVE));
}
