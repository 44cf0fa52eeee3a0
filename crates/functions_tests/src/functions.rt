//! The names and marks of functions.

use crate::questions::sure;
use std::alloc::Global;
use vortex_columns::*;
use vortex_functions::*;
use vortex_operators::*;

/// Between with a lower bound that is not strict, and a strict upper one.
const HALF_OPEN: BetweenOptions = BetweenOptions {
    lower_strict: StrictComparison::NonStrict,
    upper_strict: StrictComparison::Strict,
};

/// Whether a function has that name, names its first argument so, is infallible, and is strict or
/// not.
fn is_described<C: ScalarFnVTable>(
    function: ScalarFnRef<C>,
    name: &str,
    child: &str,
    is_strict: bool,
) -> bool {
    let signature = function.signature();
    function.id() == name
        && function.child_name(0) == child
        && signature.is_strict == is_strict
        && signature.is_infallible
}

#[test]
fn shipped_functions_have_names_and_marks(rt: HostRuntime) {
    let and = TypedScalarFnInstance::new(Binary, Operator::And).erased();
    assert!(rt; is_described::<NoCustom>(and, "vortex.binary", "lhs", false));
}

/// Whether a copy of a function is Between with these options.
fn is_copied<C: ScalarFnVTable>(
    alloc: Global,
    function: ScalarFnRef<C>,
    expected: BetweenOptions,
) -> VortexResult<bool> {
    let copy = function.try_clone(alloc)?;
    Ok(copy.as_between() == Some(expected) && copy.as_binary().is_none())
}

/// Whether a function has that name, and is a caller's of that name.
fn is_custom<C: ScalarFnVTable>(function: ScalarFnRef<C>, name: &str) -> bool {
    match function.into_custom() {
        Ok(instance) => instance.vtable().id() == name,
        Err(_) => false,
    }
}

#[test]
fn a_function_tells_what_it_is(rt: HostRuntime) {
    let between = Between.bind(HALF_OPEN);
    sure(&rt, is_copied::<NoCustom>(rt.alloc(), between, HALF_OPEN));
    assert!(rt; is_custom(ScalarFnRef::custom(NoCustom, EmptyOptions), "rowfn.none"));
}
