//! Texts by offsets that are cut from one text, which is checked whole.
ghost use Rattle.std.specs.Prelude.{◌≡◌, ◌<◌, ◌≤◌, ◌+◌, ◌^◌, ℕ, Bool, true, false, [], IsUtf8, pos};
ghost use Rattle.std.specs.Prelude.{map, length, slice_index_or, slice_range, if◌then◌else◌, ⊤};
ghost use Rattle.std.specs.Prelude.{MatchResult, IfSome};
ghost use Rattle.std.specs.List.{range_with_len};
ghost use Rattle.std.specs.Str.{IsCharBoundary};
ghost use Rattle.vortex_columns.specs.ValidityView.{validity_of, FitsRows};
ghost use Rattle.vortex_arrow.specs.Values.{offset_at, bytes_between, LieWithin};
ghost use Rattle.vortex_arrow.specs.Columns.{values_from};
ghost use Rattle.vortex_arrow.specs.Refusals.{OnlyMemory};

use crate::error::ArrowError;
use crate::offsets::{IndexType, Spans};
use std::alloc::Global;
use vortex_columns::{BitBuffer, Validity};

/// Which rows have their bytes; the others have none.
trait KeptRows {
    ghost has_row: { Self → ℕ → Type 0 };

    ghost is_kept: { Self → ℕ → Bool };

    fn is_kept(&self, i: usize) -> bool
        requires { has_row self.now i }
        ensures { result ≡ is_kept self.now i };
}

/// Each row.
#[derive(Clone, Copy)]
struct EveryRow {}

impl KeptRows for EveryRow {
    ghost has_row = { λ r i. ⊤ };

    ghost is_kept = { λ r i. true };

    fn is_kept(&self, _i: usize) -> bool {
        true
    }
}

/// The rows whose bit is set.
#[derive(Clone, Copy)]
struct ListedRows<'a> {
    bits: &'a BitBuffer,
}

impl KeptRows for ListedRows<'_> {
    ghost has_row = { λ r i. i < length r.bits.now };

    ghost is_kept = { λ r i. slice_index_or r.bits.now i false };

    fn is_kept(&self, i: usize) -> bool {
        self.bits.value(i)
    }
}

/// The text that rows make together, and where it begins; none where that is out of place, or no
/// UTF-8.
fn spanned_text<'a, O: IndexType>(
    rows: &Spans<'a, O>,
    offset: usize,
    count: usize,
) -> Option<(usize, &'a str)>
    requires place { offset + count < 2 ^ 64 }
    requires items { offset + count < length rows.now.offsets.now }
    ensures { IfSome result (λ found.
        (offset_at (map O.number rows.now.offsets.now) offset ≡ pos found.0)
        × (found.0 + length found.1.now ≤ length rows.now.data.now)
        × (found.1.now ≡ slice_range rows.now.data.now found.0 (found.0 + length found.1.now))
        × IsUtf8 found.1.now) }
{
    let from = match rows.offsets[offset].place() {
        Some(from) => from,
        None => return None,
    };
    let to = match rows.offsets[offset + count].place() {
        Some(to) => to,
        None => return None,
    };
    if to < from || to > rows.data.len() {
        return None;
    }
    match simdutf8::basic::from_utf8(&rows.data[from..to]) {
        Ok(text) => Some((from, text)),
        Err(_) => None,
    }
}

/// Where the row ends that an offset ends, in a text that begins at byte `base`, and in which the
/// row begins at byte `from`; none where the row falls, or ends past the text or within a character.
fn end_within<O: IndexType>(
    offsets: &[O],
    place: usize,
    base: usize,
    from: usize,
    text: &str,
) -> Option<usize>
    requires { place < length offsets.now }
    ensures { IfSome result (λ to.
        (offset_at (map O.number offsets.now) place ≡ pos (base + to)) × (from ≤ to)
        × IsCharBoundary text.now to) }
{
    let end = match offsets[place].place() {
        Some(end) => end,
        None => return None,
    };
    if end < base {
        return None;
    }
    let to = end - base;
    if to >= from && text.is_char_boundary(to) {
        Some(to)
    } else {
        None
    }
}

/// The bytes of a row that is kept; none of another.
#[inline(always)]
fn cut(keep: bool, text: &str, from: usize, to: usize) -> &str
    requires order { from ≤ to }
    requires start { IsCharBoundary text.now from }
    requires end { IsCharBoundary text.now to }
    ensures { result.now ≡ (if keep then slice_range text.now from to else []) }
{
    if keep { &text[from..to] } else { "" }
}

/// The text of each row, cut from the text that begins at byte `base`; none of a row that is not
/// kept. None where a row falls, or ends past the text or within a character.
fn cut_texts<'a, O: IndexType, K: KeptRows>(
    alloc: Global,
    rows: &Spans<'a, O>,
    offset: usize,
    count: usize,
    base: usize,
    text: &'a str,
    kept: &K,
) -> Result<Option<Vec<&'a str>>, ArrowError>
    requires place { offset + count < 2 ^ 64 }
    requires items { offset + count < length rows.now.offsets.now }
    requires begins { offset_at (map O.number rows.now.offsets.now) offset ≡ pos base }
    requires fits { base + length text.now ≤ length rows.now.data.now }
    requires utf8 { IsUtf8 text.now }
    requires text { text.now ≡ slice_range rows.now.data.now base (base + length text.now) }
    requires kept { (i : ℕ) → i < count → K.has_row kept.now i }
    ensures { let os = map O.number rows.now.offsets.now in
        let item = λ (p : ℕ). bytes_between rows.now.data.now (offset_at os p)
        (offset_at os (p + 1)) in
        MatchResult result (λ found. IfSome found (λ texts.
        ((i : ℕ) → i < count → LieWithin rows.now.data.now (offset_at os (offset + i))
        (offset_at os (offset + i + 1)) × IsUtf8 (item (offset + i)))
        × (map (λ t. t.now) texts.items
        ≡ map (λ i. if K.is_kept kept.now i then item (offset + i) else []) (range_with_len 0 count))))
        OnlyMemory }
{
    let mut texts = Vec::with_capacity(alloc, count)?;
    let mut from = 0;
    for i in 0..count {
        let to = match end_within(rows.offsets, offset + i + 1, base, from, text) {
            Some(to) => to,
            None => return Ok(None),
        };
        texts.push_reserved(cut(kept.is_kept(i), text, from, to));
        from = to;
    }
    Ok(Some(texts))
}

/// The text of each row, from item `offset` on, and none of a row that is null, where the bytes of
/// all rows are one text and each row begins and ends between two of its characters. None where
/// that is not so, which does not tell that a row is to be refused.
pub(crate) fn whole_texts<'a, O: IndexType>(
    alloc: Global,
    rows: &Spans<'a, O>,
    validity: &Validity,
    offset: usize,
    count: usize,
) -> Result<Option<Vec<&'a str>>, ArrowError>
    requires fits { FitsRows (validity_of validity.now) count }
    requires place { offset + count < 2 ^ 64 }
    requires items { 0 < count → offset + count < length rows.now.offsets.now }
    ensures { let os = map O.number rows.now.offsets.now in
        let item = λ (p : ℕ). bytes_between rows.now.data.now (offset_at os p)
        (offset_at os (p + 1)) in
        MatchResult result (λ found. IfSome found (λ texts.
        ((i : ℕ) → i < count → LieWithin rows.now.data.now (offset_at os (offset + i))
        (offset_at os (offset + i + 1)) × IsUtf8 (item (offset + i)))
        × (map (λ t. t.now) texts.items
        ≡ values_from item (validity_of validity.now) offset count)))
        OnlyMemory }
{
    if count == 0 {
        return Ok(None);
    }
    let (base, text) = match spanned_text(rows, offset, count) {
        Some(found) => found,
        None => return Ok(None),
    };
    match validity {
        Validity::NonNullable => { cut_texts(alloc, rows, offset, count, base, text, &EveryRow {}) }
        Validity::AllValid => cut_texts(alloc, rows, offset, count, base, text, &EveryRow {}),
        Validity::Array(bits) => {
            cut_texts(alloc, rows, offset, count, base, text, &ListedRows { bits })
        }
        Validity::AllInvalid => Ok(None),
    }
}
