//! Execution of trees: calls without arguments.

use crate::questions::sure;
use std::alloc::Global;
use tree_fixtures::makers::*;
use vortex_functions::*;

/// The function that stands where a caller has none, without arguments.
fn none(alloc: Global) -> Bound<NoCustom> {
    call_of_leaves(alloc, ScalarFnRef::custom(NoCustom, EmptyOptions), 0)
}

#[test]
fn a_function_without_arguments_answers_every_row(rt: HostRuntime) {
    let alloc = rt.alloc();
    let columns = twice(alloc, &[Some(true), None]);
    let expected = [Some(true), Some(true)];
    let turned = not_of(alloc, none(alloc));
    sure(&rt, answers::<NoCustom>(rt, turned, columns, &expected));
    sure(&rt, prints(rt, none(alloc), "rowfn.none()"));
}
