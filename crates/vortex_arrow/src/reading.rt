//! A `Column` of a caller's buffers.
ghost use Rattle.std.specs.Prelude.{◌≡◌, ◌≢◌, ◌≤◌, ◌<◌, ◌+◌, ◌*◌, ◌^◌, ◌↔◌, ℕ, IsTrue, IsUtf8};
ghost use Rattle.std.specs.Prelude.{true, false, ⊤, length, map, MatchResult, IfErr};
ghost use Rattle.vortex_types.specs.LogicalTypes.{text_type, bytes_type};
ghost use Rattle.vortex_types.specs.Values.{text, bytes};
ghost use Rattle.vortex_views.specs.Collected.{HaveRoom};
ghost use Rattle.vortex_columns.specs.ValidityView.{validity_of, is_valid_row, FitsRows};
ghost use Rattle.vortex_columns.specs.ValidityView.{form_allows_null};
ghost use Rattle.vortex_columns.specs.Stored.{made_of};
ghost use Rattle.vortex_columns.specs.Made.{MakeBorrowedTexts, borrowed_texts, text_rows};
ghost use Rattle.vortex_arrow.specs.Layouts.{bits, numbers, layout_of, HasItems, has_offsets};
ghost use Rattle.vortex_arrow.specs.Columns.{column_from, values_from, AreValues, HasBitsFor};
ghost use Rattle.vortex_arrow.specs.Columns.{IsWellFormed, arrow_column};
ghost use Rattle.vortex_arrow.specs.Values.{offset_at, bytes_between, LieWithin, IsOffsetFault};
ghost use Rattle.vortex_arrow.specs.Refusals.{OnlyMemory, TellsOfBytes, TellsOfValues, TellsOf};
ghost use Rattle.vortex_arrow.specs.Refusals.{AreLongEnough, TellsOfLength, RefusesPush};

use crate::byte_rows::{ByteRows, collect_byte_strings, collect_texts};
use crate::column::{ArrowColumn, ArrowValues};
use crate::error::ArrowError;
use crate::floats::{read_narrow_floats, read_wide_floats};
use crate::offsets::{IndexType, Spans};
use crate::validity::{read_bits, read_validity};
use crate::views::BorrowedViews;
use crate::whole_texts::whole_texts;
use std::alloc::Global;
use vortex_columns::{Column, NativePType, Validity, VortexError};

/// A column of truth values.
fn read_bools(
    alloc: Global,
    values: &[u8],
    from: usize,
    count: usize,
    validity: Validity,
) -> Result<Column, ArrowError>
    requires items { from + count ≤ 8 * length values.now }
    requires fits { FitsRows (validity_of validity) count }
    ensures { MatchResult result
        (λ c. c ≡ column_from (bits values.now) (validity_of validity) from count) OnlyMemory }
{
    let values = read_bits(alloc, values, from, count)?;
    match Column::try_bool(alloc, values, validity) {
        Ok(column) => Ok(column),
        Err(_) => Err(ArrowError::OutOfMemory),
    }
}

/// A column of integers of one type.
fn read_integers<T: NativePType>(
    alloc: Global,
    values: &[T],
    from: usize,
    count: usize,
    validity: Validity,
) -> Result<Column, ArrowError>
    requires copies { (x y : T) → T.is_clone x y → y ≡ x }
    requires items { from + count ≤ length values.now }
    requires fits { FitsRows (validity_of validity) count }
    ensures { MatchResult result
        (λ c. c ≡ column_from (numbers T.ptype (map T.number values.now)) (validity_of validity)
        from count) OnlyMemory }
{
    let values = values[from..from + count].to_vec(alloc)?;
    match Column::try_primitive(alloc, values, validity) {
        Ok(column) => Ok(column),
        Err(_) => Err(ArrowError::OutOfMemory),
    }
}

/// A column of byte strings.
fn read_byte_strings<R: ByteRows>(
    alloc: Global,
    rows: &R,
    from: usize,
    count: usize,
    validity: Validity,
) -> Result<Column, ArrowError>
    requires place { from + count < 2 ^ 64 }
    requires items { (i : ℕ) → i < count → R.has_item rows.now (from + i) }
    requires fits { FitsRows (validity_of validity) count }
    ensures { let v = validity_of validity in
        let lies = λ (i : ℕ). R.lies rows.now (from + i) (is_valid_row v i) in
        let values = values_from (R.item rows.now) v from count in MatchResult result
        (λ c. ((i : ℕ) → i < count → lies i) × HaveRoom values
        × (c ≡ made_of (bytes_type (form_allows_null v.form)) v count
        (λ i. bytes (R.item rows.now (from + i)))))
        (TellsOfBytes count lies (λ i. ⊤) (λ i. R.is_fault rows.now (from + i)) (HaveRoom values)) }
{
    let values = collect_byte_strings(alloc, rows, &validity, from, count)?;
    match Column::try_binary_values(alloc, values, validity) {
        Ok(column) => Ok(column),
        Err(_) => Err(ArrowError::OutOfMemory),
    }
}

/// A column of these texts.
fn column_of_texts(alloc: Global, texts: &[&str], validity: Validity) -> Result<Column, ArrowError>
    ensures { MatchResult result
        (λ c. MakeBorrowedTexts texts.now (validity_of validity)
        × (c ≡ text_rows (borrowed_texts texts.now) (validity_of validity)))
        (RefusesPush (MakeBorrowedTexts texts.now (validity_of validity))) }
{
    match Column::try_texts(alloc, texts, validity) {
        Ok(column) => Ok(column),
        Err(VortexError::OutOfMemory) => Err(ArrowError::OutOfMemory),
        Err(_) => Err(ArrowError::TooLong),
    }
}

/// A column of texts.
fn read_texts<R: ByteRows>(
    alloc: Global,
    rows: &R,
    from: usize,
    count: usize,
    validity: Validity,
) -> Result<Column, ArrowError>
    requires place { from + count < 2 ^ 64 }
    requires items { (i : ℕ) → i < count → R.has_item rows.now (from + i) }
    requires fits { FitsRows (validity_of validity) count }
    ensures { let v = validity_of validity in
        let lies = λ (i : ℕ). R.lies rows.now (from + i) (is_valid_row v i) in
        let texts = λ (i : ℕ). is_valid_row v i ≡ true → IsUtf8 (R.item rows.now (from + i)) in
        let values = values_from (R.item rows.now) v from count in MatchResult result
        (λ c. ((i : ℕ) → i < count → lies i × texts i) × HaveRoom values
        × (c ≡ made_of (text_type (form_allows_null v.form)) v count
        (λ i. text (R.item rows.now (from + i)))))
        (TellsOfBytes count lies texts (λ i. R.is_fault rows.now (from + i)) (HaveRoom values)) }
{
    let texts = collect_texts(alloc, rows, &validity, from, count)?;
    match column_of_texts(alloc, &texts, validity) {
        Ok(column) => Ok(column),
        Err(error) => Err(error),
    }
}

/// A column of texts by offsets: cut from one text where that tells them, and else one by one.
fn read_spanned_texts<O: IndexType>(
    alloc: Global,
    rows: &Spans<'_, O>,
    from: usize,
    count: usize,
    validity: Validity,
) -> Result<Column, ArrowError>
    requires place { from + count < 2 ^ 64 }
    requires items { (i : ℕ) → i < count → from + i + 1 < length rows.now.offsets.now }
    requires fits { FitsRows (validity_of validity) count }
    ensures { let v = validity_of validity in
        let os = map O.number rows.now.offsets.now in
        let item = λ (p : ℕ). bytes_between rows.now.data.now (offset_at os p)
        (offset_at os (p + 1)) in
        let lies = λ (i : ℕ). LieWithin rows.now.data.now (offset_at os (from + i))
        (offset_at os (from + i + 1)) in
        let texts = λ (i : ℕ). is_valid_row v i ≡ true → IsUtf8 (item (from + i)) in
        let values = values_from item v from count in MatchResult result
        (λ c. ((i : ℕ) → i < count → lies i × texts i) × HaveRoom values
        × (c ≡ made_of (text_type (form_allows_null v.form)) v count (λ i. text (item (from + i)))))
        (TellsOfBytes count lies texts (λ i fault. IsOffsetFault rows.now.data.now
        (offset_at os (from + i)) (offset_at os (from + i + 1)) fault) (HaveRoom values)) }
{
    let found = whole_texts(alloc, rows, &validity, from, count)?;
    match found {
        Some(texts) => column_of_texts(alloc, &texts, validity),
        None => read_texts(alloc, rows, from, count, validity),
    }
}

/// Whether the buffers have so many items from one on.
fn has_items(values: ArrowValues<'_>, from: usize, count: usize) -> bool
    ensures { IsTrue result ↔ HasItems (layout_of values.entry) from count }
{
    let items = from as u128 + count as u128;
    match values {
        ArrowValues::Bool(bits) => items <= 8 * bits.len() as u128,
        ArrowValues::Int8(values) => items <= values.len() as u128,
        ArrowValues::Int16(values) => items <= values.len() as u128,
        ArrowValues::Int32(values) => items <= values.len() as u128,
        ArrowValues::Int64(values) => items <= values.len() as u128,
        ArrowValues::UInt8(values) => items <= values.len() as u128,
        ArrowValues::UInt16(values) => items <= values.len() as u128,
        ArrowValues::UInt32(values) => items <= values.len() as u128,
        ArrowValues::UInt64(values) => items <= values.len() as u128,
        ArrowValues::Date(values) => items <= values.len() as u128,
        ArrowValues::Timestamp(values) => items <= values.len() as u128,
        ArrowValues::Decimal { values, .. } => items <= values.len() as u128,
        ArrowValues::Float64(patterns) => items <= patterns.len() as u128,
        ArrowValues::Float32(patterns) => items <= patterns.len() as u128,
        ArrowValues::Utf8 { offsets, .. } => count == 0 || items < offsets.len() as u128,
        ArrowValues::LargeUtf8 { offsets, .. } => count == 0 || items < offsets.len() as u128,
        ArrowValues::Binary { offsets, .. } => count == 0 || items < offsets.len() as u128,
        ArrowValues::LargeBinary { offsets, .. } => count == 0 || items < offsets.len() as u128,
        ArrowValues::Utf8View { views, .. } => items <= views.len() as u128,
        ArrowValues::BinaryView { views, .. } => items <= views.len() as u128,
    }
}

/// Whether the values are told by offsets.
fn has_offsets(values: ArrowValues<'_>) -> bool
    ensures { result ≡ has_offsets (layout_of values.entry) }
{
    match values {
        ArrowValues::Utf8 { .. }
        | ArrowValues::LargeUtf8 { .. }
        | ArrowValues::Binary { .. }
        | ArrowValues::LargeBinary { .. } => true,
        _ => false,
    }
}

/// Whether the validity has a bit for each row.
fn has_bits(validity: Option<&[u8]>, from: usize, count: usize) -> bool
    ensures { IsTrue result ↔ HasBitsFor validity.entry from count }
{
    match validity {
        Some(bitmap) => from as u128 + count as u128 <= 8 * bitmap.len() as u128,
        None => true,
    }
}

/// Refuses buffers that are too short for the rows.
fn check_lengths(column: &ArrowColumn<'_>) -> Result<(), ArrowError>
    ensures { MatchResult result (λ _. AreLongEnough column.now) (TellsOfLength column.now) }
{
    if !has_bits(column.validity, column.offset, column.length) {
        return Err(ArrowError::ValidityTooShort);
    }
    if has_items(column.values, column.offset, column.length) {
        Ok(())
    } else if has_offsets(column.values) {
        Err(ArrowError::OffsetsTooShort)
    } else {
        Err(ArrowError::ValuesTooShort)
    }
}

/// A column of these values.
fn read_values(
    alloc: Global,
    values: ArrowValues<'_>,
    from: usize,
    count: usize,
    validity: Validity,
) -> Result<Column, ArrowError>
    requires items { HasItems (layout_of values) from count }
    requires fits { FitsRows (validity_of validity) count }
    ensures { let l = layout_of values.entry in let v = validity_of validity in MatchResult result
        (λ c. AreValues l v from count × (c ≡ column_from l v from count))
        (TellsOfValues l v from count) }
{
    match values {
        ArrowValues::Bool(bits) => read_bools(alloc, bits, from, count, validity),
        ArrowValues::Int8(values) => read_integers(alloc, values, from, count, validity),
        ArrowValues::Int16(values) => read_integers(alloc, values, from, count, validity),
        ArrowValues::Int32(values) => read_integers(alloc, values, from, count, validity),
        ArrowValues::Int64(values) => read_integers(alloc, values, from, count, validity),
        ArrowValues::UInt8(values) => read_integers(alloc, values, from, count, validity),
        ArrowValues::UInt16(values) => read_integers(alloc, values, from, count, validity),
        ArrowValues::UInt32(values) => read_integers(alloc, values, from, count, validity),
        ArrowValues::UInt64(values) => read_integers(alloc, values, from, count, validity),
        ArrowValues::Date(days) => read_integers(alloc, days, from, count, validity),
        ArrowValues::Timestamp(times) => read_integers(alloc, times, from, count, validity),
        ArrowValues::Decimal { values, .. } => read_integers(alloc, values, from, count, validity),
        ArrowValues::Float64(patterns) => {
            read_wide_floats(alloc, patterns, from, count, validity)
        }
        ArrowValues::Float32(patterns) => {
            read_narrow_floats(alloc, patterns, from, count, validity)
        }
        ArrowValues::Utf8 { offsets, data } => {
            read_spanned_texts(alloc, &Spans { offsets, data }, from, count, validity)
        }
        ArrowValues::LargeUtf8 { offsets, data } => {
            read_spanned_texts(alloc, &Spans { offsets, data }, from, count, validity)
        }
        ArrowValues::Binary { offsets, data } => {
            read_byte_strings(alloc, &Spans { offsets, data }, from, count, validity)
        }
        ArrowValues::LargeBinary { offsets, data } => {
            read_byte_strings(alloc, &Spans { offsets, data }, from, count, validity)
        }
        ArrowValues::Utf8View { views, buffers } => {
            read_texts(
                alloc,
                &BorrowedViews { views, buffers },
                from,
                count,
                validity,
            )
        }
        ArrowValues::BinaryView { views, buffers } => {
            read_byte_strings(
                alloc,
                &BorrowedViews { views, buffers },
                from,
                count,
                validity,
            )
        }
    }
}

/// The column that a caller's buffers say, copied once: nothing of the caller's is kept. What lies
/// under a null may be anything, but for offsets: there too they are not negative, do not fall, and
/// do not pass the end of the data.
///
/// Refuses what `ArrowError` names, and nothing else: of the validity and the values the first that
/// is too short, then the first null in a column that is not nullable, then the first row whose
/// bytes are not where its offsets or its view say or are no UTF-8, then texts that are too long. A
/// byte string that is too long is refused before what is wrong in a row behind it.
pub fn to_column(alloc: Global, column: &ArrowColumn<'_>) -> Result<Column, ArrowError>
    ensures answer { MatchResult result
        (λ c. IsWellFormed column.now × (c ≡ arrow_column column.now))
        (TellsOf column.now) }
    ensures refused { IfErr result (λ e. e ≢ ArrowError.OutOfMemory
        → ¬ IsWellFormed column.now) }
{
    check_lengths(column)?;
    let validity = read_validity(alloc, column)?;
    read_values(alloc, column.values, column.offset, column.length, validity)
}
