//! Texts and byte strings by 16-byte views.
ghost use Rattle.std.specs.Prelude.{◌≡◌, ◌<◌, ◌≤◌, ◌+◌, ◌↔◌, ℕ, [], true, length, IsTrue};
ghost use Rattle.std.specs.Prelude.{MatchResult, slice_index_or, take, drop};
ghost use Rattle.vortex_views.specs.ViewBytes.{view_bytes, view_len, view_offset, inlined_value};
ghost use Rattle.vortex_arrow.specs.Values.{buffers_of, buffer_named, IsInBuffer, IsPadded};
ghost use Rattle.vortex_arrow.specs.Values.{TellsPrefix, IsBufferFault, IsView, IsViewFault};
ghost use Rattle.vortex_arrow.specs.Values.{view_value};

use crate::byte_rows::ByteRows;
use crate::error::ValueFault;
use vortex_views::BinaryView;
use vortex_views::laws::equal_words_say_equal_views;

/// Item `k` is what view `k` says, over buffers.
#[derive(Clone, Copy)]
pub(crate) struct BorrowedViews<'a> {
    pub views: &'a [[u8; 16]],
    pub buffers: &'a [&'a [u8]],
}

/// The value within a view.
fn inlined(view: &[u8; 16]) -> Result<&[u8], ValueFault>
    requires { view_len view.now ≤ 12 }
    ensures { MatchResult result
        (λ bytes. IsPadded view.now × (bytes.now ≡ inlined_value view.now))
        (λ fault. (fault ≡ ValueFault.NotPadded) × ¬ IsPadded view.now) }
{
    let read = BinaryView::from_bytes(*view);
    let value = &view[4..][..read.len() as usize];
    let padded = BinaryView::new_inlined(value);
    equal_words_say_equal_views(&read, &padded);
    if read.as_u128() == padded.as_u128() {
        Ok(value)
    } else {
        Err(ValueFault::NotPadded)
    }
}

/// The bytes of a buffer that a view names.
fn within<'a>(view: &BinaryView, buffer: &'a [u8]) -> Result<&'a [u8], ValueFault>
    requires { 12 < view_len (view_bytes view.now) }
    ensures { let v = view_bytes view.now in MatchResult result
        (λ bytes. IsInBuffer buffer.now v × TellsPrefix buffer.now v
        × (bytes.now ≡ take (view_len v) (drop (view_offset v) buffer.now)))
        (IsBufferFault buffer.now v) }
{
    let at = view.offset() as usize;
    let len = view.len() as usize;
    if at > buffer.len() || len > buffer.len() - at {
        return Err(ValueFault::ViewOutOfRange);
    }
    let rest = &buffer[at..];
    if view.as_bytes()[4..8] != rest[..4] {
        return Err(ValueFault::PrefixDiffers);
    }
    Ok(&rest[..len])
}

impl ByteRows for BorrowedViews<'_> {
    ghost has_item = { λ r p. p < length r.views.now };

    ghost item = { λ r p. view_value (buffers_of r.buffers.now)
        (slice_index_or r.views.now p []) };

    ghost lies = { λ r p valid. valid ≡ true
        → IsView (buffers_of r.buffers.now) (slice_index_or r.views.now p []) };

    ghost is_fault = { λ r p fault. IsViewFault (buffers_of r.buffers.now)
        (slice_index_or r.views.now p []) fault };

    fn value(&self, place: usize, valid: bool) -> Result<&[u8], ValueFault> {
        if !valid {
            return Ok(&[]);
        }
        let bytes = &self.views[place];
        let view = BinaryView::from_bytes(*bytes);
        if view.is_inlined() {
            return inlined(bytes);
        }
        let number = view.buffer() as usize;
        if number >= self.buffers.len() {
            return Err(ValueFault::ViewOutOfRange);
        }
        within(&view, self.buffers[number])
    }
}
