//! Texts in which what matches a pattern is replaced.
ghost use Rattle.std.specs.Prelude.{◌≡◌, ◌≤◌, true, false, IfOk, IsCharBoundary, string_bytes};
ghost use Rattle.regex.specs.Strings.{matcher_pattern};
ghost use Rattle.vortex_sql_patterns.specs.Replacing.{found_at, replaced};
ghost use Rattle.vortex_sql_patterns.specs.Matched.{IsFoundAt};

use crate::replacements::push_written;
use crate::searches::behind;
use regex::Matcher;
use std::alloc::{AllocError, Global};

/// Appends a text from `at` up to the first match that begins at `start` or behind it, and what the
/// replacement writes for that match. Where the match ends, and where the next begins at the
/// earliest; none where there is none.
fn push_match(
    made: &mut String,
    matcher: &mut Matcher<'_>,
    text: &str,
    at: usize,
    start: usize,
    replacement: &str,
) -> Result<Option<(usize, usize)>, AllocError>
    requires cut { IsCharBoundary text.now at }
    requires order { at ≤ start }
    ensures same { matcher_pattern matcher.new ≡ matcher_pattern matcher.old }
    ensures value { IfOk result (IsFoundAt (matcher_pattern matcher.old) text.now at start
        replacement.now (string_bytes made.old) (string_bytes made.new)) }
{
    let Some(groups) = matcher.captures_at(text, start) else {
        return Ok(None);
    };
    let found = groups.get_match();
    made.push_str(&text[at..found.start()])?;
    push_written(made, &groups, replacement)?;
    Ok(Some((found.end(), behind(&found))))
}

/// The text with what the replacement writes in place of the first match.
pub(crate) fn replaced_first(
    alloc: Global,
    matcher: &mut Matcher<'_>,
    text: &str,
    replacement: &str,
) -> Result<String, AllocError>
    ensures same { matcher_pattern matcher.new ≡ matcher_pattern matcher.old }
    ensures value { IfOk result (λ made. string_bytes made ≡ replaced false text.now
        replacement.now (found_at (matcher_pattern matcher.old) text.now)) }
{
    let mut made = String::new(alloc);
    if let Some((end, _)) = push_match(&mut made, matcher, text, 0, 0, replacement)? {
        made.push_str(&text[end..])?;
        return Ok(made);
    }
    made.push_str(text)?;
    Ok(made)
}

/// The text with what the replacement writes in place of each match.
pub(crate) fn replaced_all(
    alloc: Global,
    matcher: &mut Matcher<'_>,
    text: &str,
    replacement: &str,
) -> Result<String, AllocError>
    ensures same { matcher_pattern matcher.new ≡ matcher_pattern matcher.old }
    ensures value { IfOk result (λ made. string_bytes made ≡ replaced true text.now
        replacement.now (found_at (matcher_pattern matcher.old) text.now)) }
{
    let mut made = String::new(alloc);
    let mut at = 0;
    let mut start = 0;
    'matches: while let Some((end, next)) = push_match(
        &mut made,
        matcher,
        text,
        at,
        start,
        replacement,
    )? {
        at = end;
        start = next;
    }
    made.push_str(&text[at..])?;
    Ok(made)
}
