//! Patterns, their simple shapes, and LIKE over columns.

use crate::comparing::Sides;
use crate::seen::Tally;
use fixtures::{Made, bools, kept, texts};
use std::alloc::Global;
use std::borrow::CowStr;
use vortex_columns::*;
use vortex_like::*;

/// Whether a pattern, which may ignore case, matches the first text and not the second.
fn matches(
    alloc: Global,
    pattern: &str,
    past_case: bool,
    matching: &str,
    other: &str,
) -> VortexResult<bool> {
    let pattern = LikePattern::compile(alloc, pattern, past_case, false)?;
    Ok(pattern.matches(matching.as_bytes()) && !pattern.matches(other.as_bytes()))
}

/// Whether the simple shape of a pattern is that it begins with that text, which has its own form.
fn begins_with(alloc: Global, pattern: &str, expected: &str) -> VortexResult<bool> {
    match LikeVariant::from_str(alloc, pattern)? {
        Some(LikeVariant::Prefix(CowStr::Owned(text))) => Ok(text.as_str() == expected),
        _ => Ok(false),
    }
}

/// LIKE of two columns of texts of one length.
fn like_of(alloc: Global, sides: &Sides, options: LikeOptions) -> Made {
    let (input, pattern) = (&*sides.left, &*sides.right);
    if !input.dtype().is_utf8() || !pattern.dtype().is_utf8() || input.len() != pattern.len() {
        return Err(VortexError::InvalidColumn);
    }
    kept(
        alloc,
        execute_like(input, pattern, options, &mut ExecutionCtx::new(alloc)),
    )
}

/// Whether LIKE of three texts and their patterns is true, false, true.
fn likes(alloc: Global, patterns: Made) -> VortexResult<bool> {
    let expected = bools(alloc, &[true, false, true])?;
    let words = texts(alloc, &["hello", "world", "help"], Validity::NonNullable);
    let sides = Sides::new(alloc, words, patterns)?;
    let answer = like_of(alloc, &sides, LikeOptions::default());
    sides.answer(answer, &*expected)
}

/// A pattern for each of three rows.
fn each(alloc: Global) -> Made {
    texts(alloc, &["h%o", "w_d", "help"], Validity::NonNullable)
}

/// One pattern for three rows.
fn one(alloc: Global) -> Made {
    let pattern = Scalar::try_from_str(alloc, "h_l%")?;
    kept(alloc, Column::constant(alloc, pattern, 3))
}

pub fn ask(alloc: Global, tally: &mut Tally) {
    tally.note(
        "LikePattern::compile",
        matches(alloc, "a\\%_c%", false, "a%bcd", "aab"),
    );
    tally.note(
        "LikePattern::compile, one text",
        matches(alloc, "a\\%", false, "a%", "a"),
    );
    tally.note(
        "LikePattern::compile, a text within",
        matches(alloc, "%b%", false, "abc", "ac"),
    );
    tally.note(
        "LikePattern::compile, past case",
        matches(alloc, "A_%", true, "ab", "bb"),
    );
    tally.note("LikeVariant::from_str", begins_with(alloc, "a\\%b%", "a%b"));
    tally.note("execute_like, one pattern", likes(alloc, one(alloc)));
    tally.note("execute_like, many patterns", likes(alloc, each(alloc)));
}
