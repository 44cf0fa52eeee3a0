//! Options as bytes, and functions as values: their texts, and which are found where others are
//! kept.

use crate::questions::sure;
use caller_functions::levelled::{Level, Levelled};
use fixtures::same;
use std::alloc::Global;
use std::collections::HashMap;
use vortex_columns::*;
use vortex_functions::*;
use vortex_operators::StrictComparison::{NonStrict, Strict};
use vortex_operators::*;

type Function = ScalarFnRef<NoCustom>;

/// Whether options are read back from what is written of them, and are written as those bytes.
fn keeps<V: ScalarFnVTable>(
    rt: HostRuntime,
    function: V,
    options: V::Options,
    expected: &[u8],
) -> VortexResult<bool> {
    let alloc = rt.alloc();
    let Some(bytes) = function.serialize(alloc, &options)? else {
        return Ok(false);
    };
    Ok(same(rt, bytes.as_slice(), expected) && function.deserialize(alloc, &bytes)? == options)
}

/// Whether a function writes those bytes of its options.
fn writes<C: ScalarFnVTable>(
    rt: HostRuntime,
    function: ScalarFnRef<C>,
    expected: &[u8],
) -> VortexResult<bool> {
    let alloc = rt.alloc();
    match function.options().serialize(alloc)? {
        Some(bytes) => Ok(same(rt, bytes.as_slice(), expected)),
        None => Ok(false),
    }
}

/// Whether a function has that text, and its options have that one.
fn is_shown(rt: HostRuntime, function: Function, text: &str, options: &str) -> VortexResult<bool> {
    let alloc = rt.alloc();
    let shown = function.to_string(alloc)?;
    let options_text = function.options().to_string(alloc)?;
    Ok(same(rt, shown.as_str(), text) && same(rt, options_text.as_str(), options))
}

/// Whether the debug text is the same of both.
fn debugs_alike(rt: HostRuntime, one: Function, other: Function) -> VortexResult<bool> {
    let alloc = rt.alloc();
    let shown = format!(in alloc; "{one:?}")?;
    let again = format!(in alloc; "{other:?}")?;
    let options = one.options();
    let held = format!(in alloc; "{options:?}")?;
    Ok(same(rt, shown.as_str(), again.as_str()) && held.len() < shown.len())
}

/// Whether a function is found where another is kept, which is where the two are equal.
fn is_found(alloc: Global, kept: Function, sought: Function) -> VortexResult<bool> {
    let equal = kept == sought;
    let mut functions = HashMap::new(alloc);
    functions.insert(kept, 1u8)?;
    Ok(functions.get(&sought).is_some() && equal)
}

fn bounds(lower_strict: StrictComparison, upper_strict: StrictComparison) -> BetweenOptions {
    BetweenOptions {
        lower_strict,
        upper_strict,
    }
}

/// NOT LIKE with an escape of four bytes.
const NOT_LIKE: LikeOptions = LikeOptions {
    negated: true,
    case_insensitive: false,
    escape: Some('\u{1f600}'),
};

/// A caller's function.
fn own() -> Function {
    ScalarFnRef::custom(NoCustom, EmptyOptions)
}

#[test]
fn options_come_back(rt: HostRuntime) {
    sure(&rt, keeps(rt, Like, NOT_LIKE, &[5, 0, 1, 246, 0]));
    sure(&rt, keeps(rt, Levelled, Level { level: 3 }, &[3]));
}

#[test]
fn values_write_their_options(rt: HostRuntime) {
    let levelled = ScalarFnRef::custom(Levelled, Level { level: 7 });
    sure(&rt, writes(rt, levelled, &[7]));
}

#[test]
fn values_print(rt: HostRuntime) {
    let text = "lower_strict: <, upper_strict: <=";
    let between = "vortex.between(lower_strict: <, upper_strict: <=)";
    let function = Between.bind(bounds(Strict, NonStrict));
    sure(&rt, is_shown(rt, function, between, text));
    sure(&rt, debugs_alike(rt, own(), own()));
}

#[test]
fn equal_values_are_found(rt: HostRuntime) {
    let alloc = rt.alloc();
    sure(
        &rt,
        is_found(alloc, Like.bind(NOT_LIKE), Like.bind(NOT_LIKE)),
    );
}
