//! A pattern for each row.
ghost use Rattle.std.specs.Prelude.{◌≡◌, ◌<◌, ◌≤◌, ℕ, true, false, length, IsTrue, IsUtf8, IfSome};
ghost use Rattle.std.specs.Prelude.{string_bytes};
ghost use Rattle.std.specs.List.{All, HoldsAt};
ghost use Rattle.std.specs.Str.{chars, IsAscii};
ghost use Rattle.vortex_like.specs.Words.{AnswersUnlessMemory, is_null, row, is_match, turned};
ghost use Rattle.vortex_like.specs.Words.{AreLikeBits};
ghost use Rattle.vortex_like.specs.Words.{IsTextOf, AreTexts, texts_of, IsCompiled, AreBothValid};
ghost use Rattle.vortex_like.specs.Words.{IsKept, IsKeptAt};
ghost use Rattle.vortex_views.specs.BorrowedValue.{row_value};

use crate::options::LikeOptions;
use crate::pattern::LikePattern;
use crate::texts::{RowTexts, Texts};
use std::alloc::Global;
use vortex_columns::{BitBuffer, Column, VortexResult};
use vortex_views::{Row, WordsOfBytes, equal};

/// Texts and patterns row by row, and the options.
#[derive(Clone, Copy)]
pub(crate) struct SideBySide<'a> {
    pub(crate) texts: &'a Column,
    pub(crate) patterns: &'a Column,
    pub(crate) options: LikeOptions,
    /// Whether each text that is not null is ASCII.
    pub(crate) ascii: bool,
}

impl SideBySide<'_> {
    /// Whether neither side is null.
    fn are_both_valid(&self, i: usize) -> bool
        requires texts { i < length self.now.texts.now.rows }
        requires patterns { i < length self.now.patterns.now.rows }
        ensures yes { result ≡ true → AreBothValid self.now i }
        ensures no { AreBothValid self.now i → result ≡ true }
    {
        self.texts.is_valid(i) && self.patterns.is_valid(i)
    }
}

/// A pattern, and the text that it was compiled from.
#[derive(Drop)]
struct CompiledPattern {
    text: String,
    pattern: LikePattern,
}

/// How many compiled patterns are cached.
const KEPT: usize = 8;

/// The pattern of this text.
fn compiled(
    alloc: Global,
    text: &str,
    options: LikeOptions,
    ascii: bool,
) -> VortexResult<CompiledPattern>
    ensures pattern { AnswersUnlessMemory result (IsCompiled options ascii) }
    ensures text { AnswersUnlessMemory result (λ own. string_bytes own.text ≡ text.now) }
{
    let pattern = LikePattern::compile_with(alloc, text, options, ascii)?;
    let text = String::from_str(alloc, text)?;
    Ok(CompiledPattern { text, pattern })
}

/// Whether the pattern of these bytes is cached at that index.
#[inline(always)]
fn is_kept_at(kept: &[CompiledPattern], at: usize, bytes: &[u8]) -> bool
    ensures { IsTrue result → IsKeptAt bytes.now kept.now at }
{
    at < kept.len() && kept[at].text.as_bytes() == bytes
}

/// The index of the pattern of these bytes in the cache, if it is there: searched from index `from`
/// on, then before it.
fn place_of(kept: &[CompiledPattern], from: usize, bytes: &[u8]) -> Option<usize>
    requires { from ≤ length kept.now }
    ensures { IfSome result (IsKeptAt bytes.now kept.now) }
{
    let behind = kept.len() - from;
    for step in 0..kept.len() {
        let at = if step < behind {
            from + step
        } else {
            step - behind
        };
        if is_kept_at(kept, at, bytes) {
            return Some(at);
        }
    }
    None
}

/// Caches a pattern and returns its index. If the cache is full, it replaces the one after the last
/// that was used.
fn keep(
    kept: &mut Vec<CompiledPattern>,
    last: usize,
    pattern: CompiledPattern,
) -> VortexResult<usize>
    ensures { AnswersUnlessMemory result (λ at. IsKept pattern at kept.old.items kept.new.items) }
{
    if kept.len() < KEPT {
        let at = kept.len();
        kept.push(pattern)?;
        return Ok(at);
    }
    let at = if last < kept.len() - 1 { last + 1 } else { 0 };
    kept[at] = pattern;
    Ok(at)
}

/// The index of the pattern of these bytes. A cached pattern is reused.
#[inline(never)]
fn turn_further(
    alloc: Global,
    kept: &mut Vec<CompiledPattern>,
    last: usize,
    bytes: &[u8],
    options: LikeOptions,
    ascii: bool,
) -> VortexResult<usize>
    requires utf8 { IsUtf8 bytes.now }
    requires last { last ≤ length kept.old.items }
    requires patterns { All (IsCompiled options ascii) kept.old.items }
    ensures patterns { AnswersUnlessMemory result
        (λ _. All (IsCompiled options ascii) kept.new.items) }
    ensures place { AnswersUnlessMemory result (IsKeptAt bytes.now kept.new.items) }
{
    let next = kept.len().min(last + 1);
    if let Some(at) = place_of(kept.as_slice(), next, bytes) {
        return Ok(at);
    }
    let text = unsafe { str::from_utf8_unchecked(bytes) };
    let pattern = compiled(alloc, text, options, ascii)?;
    keep(kept, last, pattern)
}

/// The index of a row's pattern. If the row has the same text as the last one, by their views, that
/// pattern is reused.
#[inline(always)]
fn turn_to(
    alloc: Global,
    kept: &mut Vec<CompiledPattern>,
    last: (Option<Row<'_>>, usize),
    row: Row<'_>,
    options: LikeOptions,
    ascii: bool,
) -> VortexResult<usize>
    requires utf8 { IsUtf8 (row_value row) }
    requires last { last.1 ≤ length kept.old.items }
    requires place { IfSome last.0 (λ own. IsKeptAt (row_value own) kept.old.items last.1) }
    requires patterns { All (IsCompiled options ascii) kept.old.items }
    ensures patterns { AnswersUnlessMemory result
        (λ _. All (IsCompiled options ascii) kept.new.items) }
    ensures place { AnswersUnlessMemory result
        (IsKeptAt (row_value row.entry) kept.new.items) }
{
    let (own, at) = last;
    if let Some(own) = own {
        if equal(&own, &row) {
            return Ok(at);
        }
    }
    turn_further(alloc, kept, at, row.value_bytes(), options, ascii)
}

/// The pattern at an index.
fn pattern_at(kept: &[CompiledPattern], at: usize) -> &CompiledPattern
    requires { at < length kept.now }
    ensures { HoldsAt (λ own. own ≡ result.now) kept.now at }
{
    &kept[at]
}

/// The result of the pattern for a text, negated if `negated`.
fn said(own: &CompiledPattern, bytes: &[u8], negated: bool) -> bool
    requires utf8 { IsUtf8 bytes.now }
    requires ascii { IsTrue own.now.pattern.ascii_haystack → IsAscii bytes.now }
    ensures { result ≡ turned negated (is_match own.now.pattern.case_insensitive
        own.now.pattern.tokens (chars bytes.now)) }
{
    own.pattern.matches(bytes) != negated
}

/// The result of LIKE for each text and its row's pattern. A null row's pattern is not read, and
/// its result is arbitrary. The last few compiled patterns are reused where their bytes occur
/// again.
pub(crate) fn each_bits<R: RowTexts>(
    alloc: Global,
    columns: SideBySide<'_>,
    texts: &R,
    patterns: Texts<'_>,
) -> VortexResult<BitBuffer>
    requires lengths { length columns.texts.now.rows ≡ length columns.patterns.now.rows }
    requires patterns { AreTexts columns.patterns.now (texts_of patterns) }
    requires there { (i : ℕ) → i < length columns.texts.now.rows → R.has_row texts.now i }
    requires texts { (i : ℕ) → i < length columns.texts.now.rows
        → IsTextOf (row columns.texts.now.rows i) (R.bytes_at texts.now i) }
    requires ascii { IsTrue columns.ascii → (i : ℕ) → i < length columns.texts.now.rows
        → is_null (row columns.texts.now.rows i) ≡ false → IsAscii (R.bytes_at texts.now i) }
    ensures { AnswersUnlessMemory result
        (AreLikeBits columns.entry.options columns.entry.texts.now columns.entry.patterns.now) }
{
    let options = columns.options;
    let len = columns.texts.len();
    let mut kept = Vec::with_capacity(alloc, KEPT)?;
    let mut at = 0;
    let mut last = None;
    let mut bits = Vec::with_capacity(alloc, len)?;
    for i in 0..len {
        if !columns.are_both_valid(i) {
            bits.push_reserved(false);
            continue;
        }
        let row = patterns.row(i);
        at = turn_to(alloc, &mut kept, (last, at), row, options, columns.ascii)?;
        last = Some(row);
        let own = pattern_at(kept.as_slice(), at);
        bits.push_reserved(said(own, texts.bytes(i), options.negated));
    }
    BitBuffer::from_bools(alloc, bits.as_slice())
}
