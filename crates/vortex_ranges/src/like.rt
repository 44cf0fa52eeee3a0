//! The range of a call of Like.
ghost use Rattle.std.specs.Prelude.{◌≡◌, map, not, true, false, IfSome, IsUtf8, Some};
ghost use Rattle.std.specs.Option.{option_map};
ghost use Rattle.std.specs.Str.{chars};
ghost use Rattle.vortex_types.specs.Values.{text};
ghost use Rattle.vortex_errors.specs.Answers.{AnswersUnlessMemory};
ghost use Rattle.vortex_types.specs.TypeOf.{type_of};
ghost use Rattle.vortex_like.specs.Tokens.{tokens_of, is_match, Match};
ghost use Rattle.vortex_like.specs.Variants.{AreLiteralThenWildcard, IsVariantOf};
ghost use Rattle.vortex_interface.specs.Shipped.{Like, shipped_type, shipped_means};
ghost use Rattle.vortex_ranges.specs.BoundViews.{end_of, range_of};
ghost use Rattle.vortex_ranges.specs.Calls.{AdmitsCalls};
ghost use Rattle.vortex_ranges.specs.Prefixes.{is_past, excludes_prefix, begins_with};
ghost use Rattle.vortex_ranges.specs.Prefixes.{shares_prefix, IsOnlyText, NoneBegins, NoneEquals};
ghost use Rattle.vortex_ranges.specs.Prefixes.{NoneIs, AllAreLike, AreLike, AreMatches, likeness};
ghost use Rattle.vortex_ranges.specs.Prefixes.{AdmitsLike, IsPrefixPattern, IsPrefixRange};
ghost use Rattle.vortex_ranges.specs.Prefixes.{ArePrefixRange};
ghost use Rattle.vortex_ranges.specs.PrefixTests.{text_in, FindsOnly, TellsBegun, TellsShared};
ghost use Rattle.vortex_ranges.specs.PrefixTests.{TellsPrefix, TellsPattern};

use crate::bound::Bound;
use crate::range::Range;
use std::alloc::Global;
use std::borrow::CowStr;
use std::str;
use vortex_like::{LikeOptions, LikePattern, LikeVariant};
use vortex_types::{DType, VortexResult};

/// Whether some text may match a pattern, and whether each does.
#[derive(Clone, Copy)]
struct Matches {
    possible: bool,
    certain: bool,
}

/// Whether a low end is above each text that begins with the prefix.
fn is_past(prefix: &[u8], low: &Option<Bound<'_>>) -> bool
    ensures { result ≡ is_past prefix.now (end_of low.now) }
{
    match low {
        Some(Bound::Text(low)) => {
            Bound::Text(low).is_above(&Bound::Text(prefix)) && !low.starts_with(prefix)
        }
        _ => false,
    }
}

/// Whether no text between the ends begins with the prefix.
fn excludes_prefix(text: &Range<'_>, prefix: &[u8]) -> bool
    ensures { result ≡ excludes_prefix (range_of text.now) prefix.now }
{
    Bound::Text(prefix).is_over(&text.high) || is_past(prefix, &text.low)
}

/// Whether an end begins with the prefix.
fn begins_with(prefix: &[u8], end: &Option<Bound<'_>>) -> bool
    ensures { result ≡ begins_with prefix.now (end_of end.now) }
{
    match end {
        Some(Bound::Text(end)) => end.starts_with(prefix),
        _ => false,
    }
}

/// Whether both ends begin with the prefix, and so each text between them.
fn shares_prefix(text: &Range<'_>, prefix: &[u8]) -> bool
    ensures { result ≡ shares_prefix (range_of text.now) prefix.now }
{
    begins_with(prefix, &text.low) && begins_with(prefix, &text.high)
}

/// The text of an end, if it is one.
fn text_of<'a>(end: &Option<Bound<'a>>) -> Option<&'a [u8]>
    ensures is { IfSome result (λ bytes. end_of end.now ≡ Some (text bytes.now)) }
    ensures found { option_map (λ bytes. bytes.now) result ≡ text_in (end_of end.now) }
{
    match end {
        Some(Bound::Text(bytes)) => Some(*bytes),
        _ => None,
    }
}

/// The only text that a range admits, if its ends are one.
fn only_text<'a>(range: &Range<'a>) -> Option<&'a str>
    ensures only { IfSome result (λ t. IsOnlyText (range_of range.now) t.now) }
    ensures found { FindsOnly (range_of range.now) (option_map (λ t. t.now) result) }
{
    let low = text_of(&range.low)?;
    let high = text_of(&range.high)?;
    if low != high {
        return None;
    }
    match str::from_utf8(low) {
        Ok(text) => Some(text),
        Err(_) => None,
    }
}

/// Whether some text may begin with the prefix.
fn may_begin(text: &Range<'_>, prefix: &str) -> bool
    ensures none { result ≡ false → NoneBegins (range_of text.now) prefix.now }
    ensures exact { result ≡ not (excludes_prefix (range_of text.now) prefix.now) }
    ensures utf8 { IsUtf8 prefix.now }
{
    !excludes_prefix(text, prefix.as_bytes())
}

/// Whether some text may be that one.
fn may_equal(text: &Range<'_>, exact: &str) -> bool
    ensures { result ≡ false → NoneEquals (range_of text.now) exact.now }
{
    text.may_be(&Bound::Text(exact.as_bytes()))
}

/// Whether some text may be the one that a pattern stands for, or begin with its prefix.
fn may_be_variant(text: &Range<'_>, variant: &LikeVariant<'_>) -> bool
    ensures none { result ≡ false → NoneIs (range_of text.now) variant.now }
    ensures exact { TellsBegun (range_of text.now) variant.now result }
{
    match variant {
        LikeVariant::Exact(CowStr::Borrowed(exact)) => may_equal(text, exact),
        LikeVariant::Exact(CowStr::Owned(exact)) => may_equal(text, exact.as_str()),
        LikeVariant::Prefix(CowStr::Borrowed(prefix)) => may_begin(text, prefix),
        LikeVariant::Prefix(CowStr::Owned(prefix)) => may_begin(text, prefix.as_str()),
    }
}

/// Whether the pattern matches a text, in that case.
fn is_matched(alloc: Global, escape: Option<char>, pattern: &str, text: &str) -> VortexResult<bool>
    ensures matches { AnswersUnlessMemory result (λ b. b ≡ true
        → Match false (tokens_of escape (chars pattern.now)) (chars text.now)) }
    ensures test { AnswersUnlessMemory result (λ b. b
        ≡ is_match false (tokens_of escape (chars pattern.now)) (chars text.now)) }
{
    let options = LikeOptions {
        negated: false,
        case_insensitive: false,
        escape,
    };
    let compiled = LikePattern::compile_with(alloc, pattern, options, false)?;
    Ok(compiled.matches(text.as_bytes()))
}

/// Whether each text matches a pattern that has a wildcard after that prefix, as far as that is
/// seen: each text begins with the prefix, and the pattern, as it matches the prefix alone, has
/// only `%` after it.
fn must_begin(
    alloc: Global,
    escape: Option<char>,
    text: &Range<'_>,
    pattern: &str,
    prefix: &str,
) -> VortexResult<bool>
    requires { AreLiteralThenWildcard (tokens_of escape (chars pattern.now)) (chars prefix.now) }
    ensures all { AnswersUnlessMemory result
        (λ b. b ≡ true → AllAreLike escape (range_of text.now) pattern.now) }
    ensures exact { AnswersUnlessMemory result (λ b. IsPrefixPattern escape pattern.now prefix.now
        → b ≡ shares_prefix (range_of text.now) prefix.now) }
    ensures utf8 { IsUtf8 prefix.now }
{
    if shares_prefix(text, prefix.as_bytes()) {
        Ok(is_matched(alloc, escape, pattern, prefix)?)
    } else {
        Ok(false)
    }
}

/// Whether each text is that one.
fn must_equal(text: &Range<'_>, exact: &str) -> bool
    ensures { result ≡ true → IsOnlyText (range_of text.now) exact.now }
{
    match only_text(text) {
        Some(known) => known == exact,
        None => false,
    }
}

/// Whether each text matches the pattern of that variant, as far as that is seen.
fn must_be_variant(
    alloc: Global,
    escape: Option<char>,
    text: &Range<'_>,
    pattern: &str,
    variant: &LikeVariant<'_>,
) -> VortexResult<bool>
    requires { IsVariantOf escape (chars pattern.now) (Some variant.now) }
    ensures all { AnswersUnlessMemory result
        (λ b. b ≡ true → AllAreLike escape (range_of text.now) pattern.now) }
    ensures exact { AnswersUnlessMemory result
        (TellsShared escape (range_of text.now) pattern.now variant.now) }
{
    match variant {
        LikeVariant::Exact(CowStr::Borrowed(exact)) => Ok(must_equal(text, exact)),
        LikeVariant::Exact(CowStr::Owned(exact)) => Ok(must_equal(text, exact.as_str())),
        LikeVariant::Prefix(CowStr::Borrowed(prefix)) => {
            Ok(must_begin(alloc, escape, text, pattern, prefix)?)
        }
        LikeVariant::Prefix(CowStr::Owned(prefix)) => {
            Ok(must_begin(alloc, escape, text, pattern, prefix.as_str())?)
        }
    }
}

/// Whether texts match a pattern of that case, as far as that is seen: where the pattern is one
/// text, or a prefix and `%`, or `%` alone.
fn matches_of(
    alloc: Global,
    escape: Option<char>,
    text: &Range<'_>,
    pattern: &str,
) -> VortexResult<Matches>
    ensures like { AnswersUnlessMemory result (AreLike escape (range_of text.now) pattern.now) }
    ensures exact { AnswersUnlessMemory result
        (TellsPrefix escape (range_of text.now) pattern.now) }
{
    match LikeVariant::from_str_with(alloc, pattern, escape)? {
        Some(variant) => Ok(Matches {
            possible: may_be_variant(text, &variant),
            certain: must_be_variant(alloc, escape, text, pattern, &variant)?,
        }),
        None => Ok(Matches {
            possible: true,
            certain: is_matched(alloc, escape, pattern, "")?,
        }),
    }
}

/// Whether texts match the pattern, as far as that is seen: of a pattern that is known, and is not
/// matched regardless of case.
fn matches_of_two(
    alloc: Global,
    options: LikeOptions,
    text: &Range<'_>,
    pattern: &Range<'_>,
) -> VortexResult<Matches>
    ensures matches { AnswersUnlessMemory result
        (AreMatches options (range_of text.now) (range_of pattern.now)) }
    ensures exact { AnswersUnlessMemory result
        (TellsPattern options (range_of text.now) (range_of pattern.now)) }
{
    let unknown = Matches {
        possible: true,
        certain: false,
    };
    if options.case_insensitive {
        return Ok(unknown);
    }
    match only_text(pattern) {
        Some(pattern) => Ok(matches_of(alloc, options.escape, text, pattern)?),
        None => Ok(unknown),
    }
}

/// The results of Like where texts may match, or must.
fn likeness<'a>(
    options: LikeOptions,
    matches: Matches,
    text: &Range<'_>,
    pattern: &Range<'_>,
) -> Range<'a>
    ensures { range_of result ≡ likeness options matches.possible matches.certain
        (range_of text.now) (range_of pattern.now) }
{
    let null = text.may_be_null || pattern.may_be_null;
    let value = text.may_be_value && pattern.may_be_value;
    if options.negated {
        Range::truths(null, value && matches.possible, value && !matches.certain)
    } else {
        Range::truths(null, value && !matches.certain, value && matches.possible)
    }
}

/// The range of a call of Like, of texts and their pattern. Fails only where memory runs out.
fn like_of_two<'a>(
    alloc: Global,
    options: LikeOptions,
    text: &Range<'_>,
    pattern: &Range<'_>,
) -> VortexResult<Range<'a>>
    ensures admits { AnswersUnlessMemory result
        (λ r. AdmitsLike options (range_of text.now) (range_of pattern.now) (range_of r)) }
    ensures prefix { AnswersUnlessMemory result
        (λ r. IsPrefixRange options (range_of text.now) (range_of pattern.now) (range_of r)) }
{
    let matches = matches_of_two(alloc, options, text, pattern)?;
    Ok(likeness(options, matches, text, pattern))
}

/// The range of a call of Like: the texts, and their pattern. Where the pattern is known, and is a
/// prefix and `%`, a text may match exactly where one between the ends may begin with the prefix, and
/// each does where both ends do. Fails only where memory runs out.
pub fn like_range<'a>(
    alloc: Global,
    options: LikeOptions,
    dtype: &DType,
    inputs: &[Range<'_>],
) -> VortexResult<Range<'a>>
    ensures admits { AnswersUnlessMemory result (λ r. AdmitsCalls (shipped_type (Like options))
        (shipped_means (Like options)) (type_of dtype.now) (map range_of inputs.now)
        (range_of r)) }
    ensures prefix { AnswersUnlessMemory result
        (λ r. ArePrefixRange options (map range_of inputs.now) (range_of r)) }
{
    let [text, pattern] = inputs else {
        return Ok(Range::of_type(dtype, false));
    };
    Ok(like_of_two(alloc, options, text, pattern)?)
}
