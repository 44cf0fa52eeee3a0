//! LIKE over whole columns.
ghost use Rattle.std.specs.Prelude.{◌≡◌, true, length};
ghost use Rattle.vortex_like.specs.Words.{AnswersUnlessMemory, is_text_type, AreLikeBits, like};
ghost use Rattle.vortex_like.specs.Words.{IsConstantOf, text, texts_of, AreTexts, HasLikeRows};
ghost use Rattle.vortex_like.specs.Words.{AreTold, IsSaid, is_match, tokens_of, row, IsTextColumn};
ghost use Rattle.vortex_like.specs.Words.{front_tokens};
ghost use Rattle.std.specs.Str.{chars};

use crate::any_prefix::AnyPrefixTest;
use crate::column_test::any_prefix_results;
use crate::each_pattern::{SideBySide, each_bits};
use crate::form::{PatternShape, shape_of};
use crate::form_test::tokens_test;
use crate::options::LikeOptions;
use crate::pattern::LikePattern;
use crate::texts::{OneText, TextColumn, Texts, text_column};
use std::alloc::Global;
use vortex_bits::{SameBit, collect_words};
use vortex_columns::{BitBuffer, Column, ExecutionCtx, Scalar, VortexResult, both_valid};

/// The result of LIKE for a text and a pattern that is compiled only for it.
fn like_once(alloc: Global, text: &str, pattern: &str, options: LikeOptions) -> VortexResult<bool>
    ensures { AnswersUnlessMemory result (λ b. b ≡ like options text.now pattern.now) }
{
    let pattern = LikePattern::compile_with(alloc, pattern, options, false)?;
    Ok(pattern.matches(text.as_bytes()) != options.negated)
}

/// LIKE for the same text and the same pattern in each row.
fn like_of_constants(
    alloc: Global,
    input: &Column,
    pattern: &Column,
    chars: (&str, &str),
    options: LikeOptions,
) -> VortexResult<Column>
    requires lengths { length input.now.rows ≡ length pattern.now.rows }
    requires input { IsConstantOf (text chars.0.now) input.now }
    requires pattern { IsConstantOf (text chars.1.now) pattern.now }
    ensures { AnswersUnlessMemory result (HasLikeRows options input.now pattern.now) }
{
    let nullability = input.dtype().nullability() | pattern.dtype().nullability();
    let found = like_once(alloc, chars.0, chars.1, options)?;
    Column::constant(alloc, Scalar::bool(found, nullability), input.len())
}

/// The results of ILIKE for the texts of a column and a pattern that is this literal part and `%`.
fn prefix_bits(
    alloc: Global,
    column: &Column,
    texts: Texts<'_>,
    both: (&str, &str),
    options: LikeOptions,
) -> VortexResult<BitBuffer>
    requires texts { AreTexts column.now (texts_of texts) }
    requires tokens { tokens_of options.escape (chars both.0.now)
        ≡ front_tokens (chars both.1.now) }
    ensures { AnswersUnlessMemory result (AreTold (length column.now.rows)
        (λ i b. IsSaid (λ bytes. is_match true
        (tokens_of options.escape (chars both.entry.0.now)) (chars bytes))
        options.negated (row column.now.rows i) b)) }
{
    let tokens = tokens_test(alloc, both.0, options.escape, true)?;
    let test = AnyPrefixTest::new(alloc, tokens, both.1)?;
    any_prefix_results(alloc, column, texts, &test, options.negated)
}

/// The results of LIKE for the texts of a column and one pattern, compiled once. For a prefix,
/// ignoring case, the texts' first bytes decide; other ILIKEs test whether all texts are ASCII, if
/// the pattern has a form for such texts.
fn one_pattern_bits(
    alloc: Global,
    column: &Column,
    texts: Texts<'_>,
    pattern: &str,
    options: LikeOptions,
) -> VortexResult<BitBuffer>
    requires { AreTexts column.now (texts_of texts) }
    ensures { AnswersUnlessMemory result (AreTold (length column.now.rows)
        (λ i b. IsSaid (λ bytes. is_match options.case_insensitive
        (tokens_of options.escape (chars pattern.now)) (chars bytes))
        options.negated (row column.now.rows i) b)) }
{
    let shape = shape_of(pattern, options.escape);
    if options.case_insensitive {
        if let PatternShape::Front(literal) = shape {
            return prefix_bits(alloc, column, texts, (pattern, literal), options);
        }
    }
    let past_case = options.case_insensitive && pattern.is_ascii() && !shape.is_other();
    let ascii = texts.fold_as_ascii(column, past_case);
    let pattern = LikePattern::compile_with(alloc, pattern, options, ascii)?;
    pattern.matched_rows(alloc, column, texts, options.negated)
}

/// The results of LIKE for the texts of a column, each with its own pattern.
fn each_pattern_bits(
    alloc: Global,
    input: &Column,
    texts: Texts<'_>,
    pattern: &Column,
    patterns: Texts<'_>,
    options: LikeOptions,
) -> VortexResult<BitBuffer>
    requires lengths { length input.now.rows ≡ length pattern.now.rows }
    requires texts { AreTexts input.now (texts_of texts) }
    requires patterns { AreTexts pattern.now (texts_of patterns) }
    ensures { AnswersUnlessMemory result (AreLikeBits options input.now pattern.now) }
{
    let ascii = texts.fold_as_ascii(input, options.case_insensitive);
    let columns = SideBySide {
        texts: input,
        patterns: pattern,
        options,
        ascii,
    };
    each_bits(alloc, columns, &texts, patterns)
}

/// The results of LIKE for a column of texts and a column of patterns. If all patterns are equal,
/// they are one pattern.
fn pattern_column_bits(
    alloc: Global,
    input: &Column,
    texts: Texts<'_>,
    pattern: &Column,
    patterns: Texts<'_>,
    options: LikeOptions,
) -> VortexResult<BitBuffer>
    requires lengths { length input.now.rows ≡ length pattern.now.rows }
    requires texts { AreTexts input.now (texts_of texts) }
    requires patterns { AreTexts pattern.now (texts_of patterns) }
    ensures { AnswersUnlessMemory result (AreLikeBits options input.now pattern.now) }
{
    if let Some(chars) = patterns.repeated(pattern) {
        return one_pattern_bits(alloc, input, texts, chars, options);
    }
    each_pattern_bits(alloc, input, texts, pattern, patterns, options)
}

/// The results of LIKE for one text in each row, each with its own pattern.
fn one_text_bits(
    alloc: Global,
    input: &Column,
    own: &str,
    pattern: &Column,
    patterns: Texts<'_>,
    options: LikeOptions,
) -> VortexResult<BitBuffer>
    requires lengths { length input.now.rows ≡ length pattern.now.rows }
    requires text { IsConstantOf (text own.now) input.now }
    requires patterns { AreTexts pattern.now (texts_of patterns) }
    ensures { AnswersUnlessMemory result (AreLikeBits options input.now pattern.now) }
{
    let ascii = options.case_insensitive && own.is_ascii();
    let columns = SideBySide {
        texts: input,
        patterns: pattern,
        options,
        ascii,
    };
    each_bits(alloc, columns, &OneText { text: own }, patterns)
}

/// The results of LIKE for each row, by how the two sides are read. Arbitrary for a null row.
fn like_bits(
    alloc: Global,
    input: &Column,
    pattern: &Column,
    options: LikeOptions,
) -> VortexResult<BitBuffer>
    requires texts { is_text_type input.now.dtype ≡ true }
    requires patterns { is_text_type pattern.now.dtype ≡ true }
    requires lengths { length input.now.rows ≡ length pattern.now.rows }
    ensures { AnswersUnlessMemory result (AreLikeBits options input.now pattern.now) }
{
    match (text_column(input), text_column(pattern)) {
        (TextColumn::Rows(texts), TextColumn::One(chars)) => {
            one_pattern_bits(alloc, input, texts, chars, options)
        }
        (TextColumn::Rows(texts), TextColumn::Rows(patterns)) => {
            pattern_column_bits(alloc, input, texts, pattern, patterns, options)
        }
        (TextColumn::One(text), TextColumn::Rows(patterns)) => {
            one_text_bits(alloc, input, text, pattern, patterns, options)
        }
        (TextColumn::One(text), TextColumn::One(chars)) => {
            let bit = like_once(alloc, text, chars, options)?;
            collect_words(alloc, &SameBit { bit }, input.len())
        }
        (TextColumn::Null, _) => collect_words(alloc, &SameBit { bit: false }, input.len()),
        (_, TextColumn::Null) => collect_words(alloc, &SameBit { bit: false }, input.len()),
    }
}

/// LIKE row by row.
fn like_rows(
    alloc: Global,
    input: &Column,
    pattern: &Column,
    options: LikeOptions,
) -> VortexResult<Column>
    requires input { is_text_type input.now.dtype ≡ true }
    requires pattern { is_text_type pattern.now.dtype ≡ true }
    requires lengths { length input.now.rows ≡ length pattern.now.rows }
    ensures { AnswersUnlessMemory result (HasLikeRows options input.now pattern.now) }
{
    // each row has its column's type
    let _ = input.dtype();
    let _ = pattern.dtype();
    let bits = like_bits(alloc, input, pattern, options)?;
    let validity = both_valid(alloc, input, pattern)?;
    Column::try_bool(alloc, bits, validity)
}

/// Whether the text in each row matches the pattern in that row, negated if `options.negated`:
/// SQL's LIKE with the options' escape, or none, and ILIKE by Unicode's simple case folding, one
/// character at a time. Null if either is null. A column of Bool of as many rows, nullable if
/// either column is.
///
/// Fails only where memory runs out (E9).
pub fn execute_like(
    input: &Column,
    pattern: &Column,
    options: LikeOptions,
    ctx: &mut ExecutionCtx,
) -> VortexResult<Column>
    requires input { is_text_type input.now.dtype ≡ true }
    requires pattern { is_text_type pattern.now.dtype ≡ true }
    requires lengths { length input.now.rows ≡ length pattern.now.rows }
    ensures { AnswersUnlessMemory result (HasLikeRows options input.now pattern.now) }
{
    match (text_column(input), text_column(pattern)) {
        (TextColumn::One(text), TextColumn::One(chars)) => {
            like_of_constants(ctx.alloc(), input, pattern, (text, chars), options)
        }
        _ => like_rows(ctx.alloc(), input, pattern, options),
    }
}
