//! What is found by a compiled pattern.
ghost use Rattle.std.specs.Prelude.{◌≡◌, length, pos};
ghost use Rattle.std.specs.Str.{chars};
ghost use Rattle.regex.specs.Strings.{match_span, matcher_pattern};
ghost use Rattle.vortex_sql_patterns.specs.PatternFunctions.{behind, count_in, place, span_at};

use regex::{Match, Matcher};

/// How many characters a text has.
fn count_chars(text: &str) -> usize
    ensures { result ≡ length (chars text.now) }
{
    text.chars().count()
}

/// With which character the first match begins, from 1 on; 0 where there is none.
pub(crate) fn place(matcher: &mut Matcher<'_>, text: &str) -> i128
    ensures same { matcher_pattern matcher.new ≡ matcher_pattern matcher.old }
    ensures value { result ≡ pos (place text.now
        (span_at (matcher_pattern matcher.old) text.now 0)) }
{
    match matcher.find(text) {
        Some(found) => count_chars(&text[..found.start()]) as i128 + 1,
        None => 0,
    }
}

/// Where the search for the next match begins: behind an empty one a byte further.
pub(crate) fn behind(found: &Match<'_>) -> usize
    ensures { result ≡ behind (match_span found.now) }
{
    if found.is_empty() {
        found.end() + 1
    } else {
        found.end()
    }
}

/// How many matches there are, one after the other.
pub(crate) fn count_matches(matcher: &mut Matcher<'_>, text: &str) -> usize
    ensures same { matcher_pattern matcher.new ≡ matcher_pattern matcher.old }
    ensures value { result ≡ count_in text.now (span_at (matcher_pattern matcher.old) text.now) }
{
    let mut count = 0;
    let mut start = 0;
    while let Some(found) = matcher.find_at(text, start) {
        start = behind(&found);
        count += 1;
    }
    count
}
