//! Texts and byte strings that lie in a caller's buffers, whichever layout they have.
ghost use Rattle.std.specs.Prelude.{◌≡◌, ◌<◌, ◌+◌, ◌^◌, ◌++◌, ◌∷◌, ℕ, Bool, List, [], ⊤};
ghost use Rattle.std.specs.Prelude.{MatchResult, IsUtf8, if◌then◌else◌, map, true};
ghost use Rattle.vortex_views.specs.Built.{HasRoomFor};
ghost use Rattle.vortex_views.specs.Collected.{HaveRoom};
ghost use Rattle.vortex_columns.specs.ValidityView.{validity_of, is_valid_row, FitsRows};
ghost use Rattle.vortex_arrow.specs.declared.error.ValueFault.{ValueFault};
ghost use Rattle.vortex_arrow.specs.Columns.{values_from};
ghost use Rattle.vortex_arrow.specs.Refusals.{IsFirstMisfit, RefusesPush, TellsOfBytes};

use crate::error::{ArrowError, ValueFault};
use std::alloc::Global;
use vortex_columns::{BinaryViews, Validity, ViewsBuilder, VortexError};

/// A byte string for each item.
pub(crate) trait ByteRows {
    /// The buffers have what is read of this item.
    ghost has_item: { Self → ℕ → Type 0 };

    ghost item: { Self → ℕ → List ℕ };

    /// It lies where the buffers say, which is asked of a valid item or of any.
    ghost lies: { Self → ℕ → Bool → Type 0 };

    ghost is_fault: { Self → ℕ → ValueFault → Type 0 };

    /// The bytes of item `place`, where they lie; none of an item that is not valid.
    fn value(&self, place: usize, valid: bool) -> Result<&[u8], ValueFault>
        requires { has_item self.now place }
        ensures { MatchResult result
            (λ bytes. lies self.now place valid
            × (bytes.now ≡ (if valid then item self.now place else [])))
            (λ fault. (¬ lies self.now place valid) × is_fault self.now place fault) };
}

/// Adds a value.
fn push_value(builder: &mut ViewsBuilder, value: &[u8]) -> Result<(), ArrowError>
    ensures { MatchResult result
        (λ _. HasRoomFor builder.old value.now × (builder.new ≡ builder.old ++ value.now ∷ []))
        (RefusesPush (HasRoomFor builder.old value.now)) }
{
    match builder.push(value) {
        Ok(()) => Ok(()),
        Err(VortexError::OutOfMemory) => Err(ArrowError::OutOfMemory),
        Err(_) => Err(ArrowError::TooLong),
    }
}

/// The bytes of each row, from item `offset` on; none of a row that is null. Refuses the first row
/// whose bytes do not lie where the buffers say.
pub(crate) fn collect_byte_strings<R: ByteRows>(
    alloc: Global,
    rows: &R,
    validity: &Validity,
    offset: usize,
    length: usize,
) -> Result<BinaryViews, ArrowError>
    requires fits { FitsRows (validity_of validity.now) length }
    requires place { offset + length < 2 ^ 64 }
    requires items { (i : ℕ) → i < length → R.has_item rows.now (offset + i) }
    ensures { let v = validity_of validity.now in
        let lies = λ (i : ℕ). R.lies rows.now (offset + i) (is_valid_row v i) in
        let values = values_from (R.item rows.now) v offset length in MatchResult result
        (λ bytes. ((i : ℕ) → i < length → lies i) × HaveRoom values × (bytes ≡ values))
        (TellsOfBytes length lies (λ i. ⊤) (λ i. R.is_fault rows.now (offset + i))
        (HaveRoom values)) }
{
    let mut builder = ViewsBuilder::new(alloc);
    for i in 0..length {
        match rows.value(offset + i, validity.is_valid(i)) {
            Ok(value) => match push_value(&mut builder, value) {
                Ok(()) => {}
                Err(error) => return Err(error),
            },
            Err(fault) => return Err(ArrowError::InvalidValue { row: i, fault }),
        }
    }
    match builder.finish() {
        Ok(values) => Ok(values),
        Err(_) => Err(ArrowError::OutOfMemory),
    }
}

/// The text of each row, where it lies, from item `offset` on; none of a row that is null. Refuses
/// the first row whose bytes do not lie where the buffers say, or are no UTF-8.
pub(crate) fn collect_texts<'a, R: ByteRows>(
    alloc: Global,
    rows: &'a R,
    validity: &Validity,
    offset: usize,
    length: usize,
) -> Result<Vec<&'a str>, ArrowError>
    requires fits { FitsRows (validity_of validity.now) length }
    requires place { offset + length < 2 ^ 64 }
    requires items { (i : ℕ) → i < length → R.has_item rows.now (offset + i) }
    ensures { let v = validity_of validity.now in
        let lies = λ (i : ℕ). R.lies rows.now (offset + i) (is_valid_row v i) in
        let texts = λ (i : ℕ). is_valid_row v i ≡ true → IsUtf8 (R.item rows.now (offset + i)) in
        let values = values_from (R.item rows.now) v offset length in MatchResult result
        (λ found. ((i : ℕ) → i < length → lies i × texts i)
        × (map (λ t. t.now) found.items ≡ values))
        (TellsOfBytes length lies texts (λ i. R.is_fault rows.now (offset + i)) (HaveRoom values)) }
{
    let mut texts = Vec::with_capacity(alloc, length)?;
    for i in 0..length {
        match rows.value(offset + i, validity.is_valid(i)) {
            Ok(bytes) => match str::from_utf8(bytes) {
                Ok(text) => texts.push_reserved(text),
                Err(_) => return Err(ArrowError::NotUtf8 { row: i }),
            },
            Err(fault) => return Err(ArrowError::InvalidValue { row: i, fault }),
        }
    }
    Ok(texts)
}
