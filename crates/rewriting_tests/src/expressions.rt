//! Rules at places of an expression.

use crate::questions::sure;
use std::alloc::Global;
use tree_fixtures::makers::*;
use tree_fixtures::rewritten::is_null;
use vortex_row_fn::*;

/// True and column `a`.
fn true_and_a<C: ScalarFnVTable>(alloc: Global) -> Bound<C> {
    let truth = literal(alloc, Ok(Scalar::from(true)));
    between(alloc, truth, Operator::And, leaf(alloc, "a"))
}

/// Whether true and column `a` is null.
fn unknown<C: ScalarFnVTable>(alloc: Global) -> Bound<C> {
    is_null(alloc, true_and_a(alloc))
}

/// What Reduce makes of a tree at a place.
fn reduced_at<C: ScalarFnRules>(
    alloc: Global,
    tree: Bound<C>,
    path: &[usize],
) -> VortexResult<Option<Box<BoundExpression<C>>>> {
    match tree?.rewrite_at(alloc, path, Rule::Reduce)? {
        Some(made) => Ok(Some(planted(alloc, Ok(made))?)),
        None => Ok(None),
    }
}

/// Whether Reduce at a place makes a tree of that text.
fn reduces_to<C: ScalarFnRules>(
    rt: HostRuntime,
    tree: Bound<C>,
    path: &[usize],
    expected: &str,
) -> VortexResult<bool> {
    match reduced_at(rt.alloc(), tree, path)? {
        Some(made) => has_text(rt, &*made, expected),
        None => Ok(false),
    }
}

#[test]
fn a_rule_applies_at_a_place(rt: HostRuntime) {
    let alloc = rt.alloc();
    let tree = unknown::<NoCustom>(alloc);
    sure(&rt, reduces_to(rt, tree, &[0], "vortex.is_null($.a)"));
}
