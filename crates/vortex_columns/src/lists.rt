//! Lists in a column: whether they fit, and copies of them.
ghost use Rattle.std.specs.Prelude.{◌≡◌, ◌*◌, ◌<◌, ◌↔◌, ℕ, IsTrue, IsUtf8, All, [], length, true};
ghost use Rattle.std.specs.Prelude.{slice_index_or};
ghost use Rattle.vortex_columns.specs.ColumnView.{LieWithin};
ghost use Rattle.vortex_columns.specs.ValidityView.{FitsRows, is_valid_row, validity_of};

use crate::typing::are_bytes;
use crate::validity::Validity;
use vortex_views::BinaryViews;

/// Whether each value of a row that is not null is UTF-8.
pub(crate) fn are_texts(values: &BinaryViews, validity: &Validity) -> bool
    requires { FitsRows (validity_of validity.now) (length values.now) }
    ensures { IsTrue result ↔ ((i : ℕ) → i < length values.now
        → is_valid_row (validity_of validity.now) i ≡ true
        → IsUtf8 (slice_index_or values.now i [])) }
{
    let rows = values.resolved();
    for i in 0..rows.len() {
        if validity.is_valid(i) && str::from_utf8(rows.bytes(i)).is_err() {
            return false;
        }
    }
    true
}

/// Proves to the caller that a text is UTF-8.
fn learn_text(text: &str)
    ensures { IsUtf8 text.now }
{}

/// Proves to the caller that each text is UTF-8.
pub(crate) fn learn_texts(texts: &[&str])
    ensures { All (λ t. IsUtf8 t.now) texts.now }
{
    for text in texts {
        learn_text(text);
    }
}

/// Proves to the caller that the bytes of each value are below 256.
pub(crate) fn learn_bytes(values: &BinaryViews)
    ensures { All (All (λ b. b < 256)) values.now }
{
    let rows = values.resolved();
    for i in 0..rows.len() {
        let _ = are_bytes(rows.bytes(i));
    }
}

/// Whether each range is within that many elements.
pub(crate) fn lie_within(elements: usize, offsets: &[usize], sizes: &[usize]) -> bool
    requires { length offsets.now ≡ length sizes.now }
    ensures { IsTrue result ↔ LieWithin elements offsets.now sizes.now }
{
    for (offset, size) in offsets.iter().zip(sizes) {
        if *offset > elements || *size > elements - *offset {
            return false;
        }
    }
    true
}

/// Whether there are that many elements for that many lists of one size.
pub(crate) fn is_product(elements: usize, size: u32, len: usize) -> bool
    ensures { IsTrue result ↔ elements ≡ size * len }
{
    match (size as usize).checked_mul(len) {
        Some(count) => elements == count,
        None => false,
    }
}
