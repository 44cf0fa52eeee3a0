//! The result of a function by a compiled pattern.
ghost use Rattle.std.specs.Prelude.{◌≡◌, ℕ, List, IfSome, option_map};
ghost use Rattle.regex.specs.Strings.{captures_haystack, match_haystack, match_span, matcher_pattern};
ghost use Rattle.vortex_sql_rows.specs.AnsweredRows.{AnswersRow};
ghost use Rattle.vortex_sql_texts.specs.MadeTexts.{text_or_fault};
ghost use Rattle.vortex_sql_patterns.specs.PatternFunctions.{asked, first_group, group_at, part, span_at};
ghost use Rattle.vortex_sql_patterns.specs.PatternFunctions.{IsReadBy};
ghost use Rattle.vortex_sql_patterns.specs.Lookups.{answer_for, function_of, span_by};

use crate::functions::PatternFunction;
use crate::lookups::{GroupNumber, Lookup};
use crate::searches::{count_matches, place};
use regex::{Captures, Match, Matcher};
use vortex_columns::{Cell, PType, VortexError, VortexResult};
use vortex_sql_rows::cells::int_or_fault;
use vortex_sql_rows::faults::RowFault;
use vortex_sql_rows::ranges::checked;

/// The text, or the fault where it is too long.
fn text_or_fault<'a>(text: &'a str) -> VortexResult<Cell<'a>>
    ensures { AnswersRow (text_or_fault text.now) result }
{
    if text.len() <= 4294967295 {
        Ok(Cell::Text(text))
    } else {
        Err(VortexError::Custom(RowFault::TextTooLong.number()))
    }
}

/// The first part that matches; null where none does.
fn part<'a>(matcher: &mut Matcher<'_>, text: &'a str) -> VortexResult<Cell<'a>>
    ensures same { matcher_pattern matcher.new ≡ matcher_pattern matcher.old }
    ensures value { AnswersRow (part text.now
        (span_at (matcher_pattern matcher.old) text.now 0)) result }
{
    match matcher.find(text) {
        Some(found) => text_or_fault(found.as_str()),
        None => Ok(Cell::Null),
    }
}

/// What a group takes, where group 0 is the match.
fn group_in<'h>(groups: &Captures<'_, 'h>, group: GroupNumber) -> Option<Match<'h>>
    ensures within { IfSome result (λ m. match_haystack m ≡ captures_haystack groups.now) }
    ensures found { option_map match_span result ≡ span_by group.number groups.now }
{
    if group.number < 0 || group.number >= groups.len() as i128 {
        return None;
    }
    groups.get(group.number as usize)
}

/// The part of a text that was found; null where none was.
fn found_part<'a>(text: &'a str, found: Option<Match<'a>>) -> VortexResult<Cell<'a>>
    requires { IfSome found (λ m. match_haystack m ≡ text.now) }
    ensures { AnswersRow (part text.now (option_map match_span found.entry)) result }
{
    let Some(found) = found else {
        return Ok(Cell::Null);
    };
    text_or_fault(found.as_str())
}

/// What a group takes in the first match; null where it takes no part.
fn group_part<'a>(
    matcher: &mut Matcher<'_>,
    text: &'a str,
    group: GroupNumber,
) -> VortexResult<Cell<'a>>
    ensures same { matcher_pattern matcher.new ≡ matcher_pattern matcher.old }
    ensures value { AnswersRow (part text.now
        (group_at group.number (matcher_pattern matcher.old) text.now)) result }
{
    let Some(groups) = matcher.captures(text) else {
        return Ok(Cell::Null);
    };
    found_part(text, group_in(&groups, group))
}

/// What is asked of a text, by the pattern as it was compiled, and by the number of a group.
fn asked<'a>(
    function: PatternFunction,
    matcher: &mut Matcher<'_>,
    text: &'a str,
    group: GroupNumber,
) -> VortexResult<Cell<'a>>
    ensures same { matcher_pattern matcher.new ≡ matcher_pattern matcher.old }
    ensures value { AnswersRow (asked function group.number text.now (matcher_pattern matcher.old))
        result }
{
    let count = match function {
        PatternFunction::Like | PatternFunction::AnyCase => {
            return Ok(Cell::Bool(matcher.is_match(text)));
        }
        PatternFunction::NotLike | PatternFunction::NotAnyCase => {
            return Ok(Cell::Bool(!matcher.is_match(text)));
        }
        PatternFunction::Substr => return part(matcher, text),
        PatternFunction::Part => return group_part(matcher, text, group),
        PatternFunction::Instr => place(matcher, text),
        PatternFunction::Count => count_matches(matcher, text) as i128,
    };
    int_or_fault(checked(PType::I64, count), RowFault::TextTooLong)
}

/// What is asked of a text, by the pattern that was compiled, by its first group, and by the number
/// of the row.
pub(crate) fn answer<'a>(
    lookup: Lookup,
    first: GroupNumber,
    matcher: &mut Matcher<'_>,
    text: &'a str,
    number: GroupNumber,
) -> VortexResult<Cell<'a>>
    ensures same { matcher_pattern matcher.new ≡ matcher_pattern matcher.old }
    ensures value { (ps : List ℕ) → IsReadBy (function_of lookup) ps (matcher_pattern matcher.old)
        → first.number ≡ first_group (function_of lookup) ps
        → AnswersRow (answer_for lookup text.now ps number.number) result }
{
    match lookup {
        Lookup::Function(function) => asked(function, matcher, text, first),
        Lookup::Group => asked(PatternFunction::Part, matcher, text, number),
    }
}
