//! Patterns of LIKE and their shapes, made once.

use crate::questions::sure;
use fixtures::same;
use std::alloc::Global;
use std::borrow::CowStr;
use vortex_columns::VortexResult;
use vortex_like::{LikeForm, LikePattern, LikeVariant};

/// Whether a pattern, which looks past case or not, has this form for texts that are ASCII.
fn has_form(rt: HostRuntime, pattern: &str, folds: bool, expected: LikeForm) -> VortexResult<bool> {
    let pattern = LikePattern::compile(rt.alloc(), pattern, folds, true)?;
    Ok(same(rt, pattern.form(), expected))
}

#[test]
fn patterns_have_forms(rt: HostRuntime) {
    sure(&rt, has_form(rt, "abc%", true, LikeForm::IStartsWithAscii));
}

/// Whether a pattern says yes to a text, with at least so many looks.
fn looks(alloc: Global, pattern: &str, text: &str, least: u128) -> VortexResult<bool> {
    let pattern = LikePattern::compile(alloc, pattern, false, false)?;
    let (found, count) = pattern.matches_counted(text.as_bytes());
    Ok(found && least <= count.count())
}

#[test]
fn counts_its_looks(rt: HostRuntime) {
    sure(&rt, looks(rt.alloc(), "%a_b", "aaxaab", 3));
}

/// Whether a pattern with the escape `%` is one text that is not its own.
fn is_exact(rt: HostRuntime, pattern: &str, expected: &str) -> VortexResult<bool> {
    match LikeVariant::from_str_with(rt.alloc(), pattern, Some('%'))? {
        Some(LikeVariant::Exact(CowStr::Owned(text))) => Ok(same(rt, text.as_str(), expected)),
        _ => Ok(false),
    }
}

/// Whether two patterns have equal shapes.
fn are_equal(alloc: Global, left: &str, right: &str) -> VortexResult<bool> {
    Ok(LikeVariant::from_str(alloc, left)? == LikeVariant::from_str(alloc, right)?)
}

#[test]
fn patterns_have_simple_shapes(rt: HostRuntime) {
    let alloc = rt.alloc();
    sure(&rt, is_exact(rt, "%a", "a"));
    sure(&rt, are_equal(alloc, "ab", "\\ab"));
}
