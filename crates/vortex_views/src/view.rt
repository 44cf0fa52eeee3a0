//! A view of a text or a byte string.
ghost use Rattle.std.specs.Prelude.{◌≡◌, ◌≤◌, ◌<◌, ◌↔◌, ◌++◌, IsTrue, length, take, drop};
ghost use Rattle.std.specs.Int.{w32, w64, w128, from_le_bytes, from_be_bytes, to_le_bytes};
ghost use Rattle.vortex_views.specs.ViewBytes.{view_bytes, view_len, view_buffer, view_offset};
ghost use Rattle.vortex_views.specs.ViewBytes.{inlined_view, long_view, padded, IsInlined};
ghost use Rattle.vortex_views.specs.ValueWords.{head_word, order_prefix_word, order_tail_word};

use crate::words::{eight_at, first_four, four_at, next_eight};

/// The 16 bytes of a view: the length of a value (four bytes, little-endian), then a value of at
/// most 12 bytes, zero padded; or a longer value's first four bytes, the number of its buffer and
/// its offset there, four bytes each.
#[derive(Clone, Copy)]
pub struct BinaryView {
    bytes: [u8; 16],
}

impl BinaryView {
    /// The greatest size of an inlined value.
    pub const MAX_INLINED_SIZE: usize = 12;

    /// The greatest size of a value that a view can have.
    pub const MAX_SIZE: usize = 4294967295;

    /// The view of a short value, which is inlined.
    #[inline]
    pub fn new_inlined(value: &[u8]) -> BinaryView
        requires { length value.now ≤ 12 }
        ensures { view_bytes result ≡ inlined_view value.now }
    {
        let [l0, l1, l2, l3] = (value.len() as u32).to_le_bytes();
        let [a, b, c, d] = first_four(value);
        let [t0, t1, t2, t3, t4, t5, t6, t7] = next_eight(value, 4);
        BinaryView {
            bytes: [l0, l1, l2, l3, a, b, c, d, t0, t1, t2, t3, t4, t5, t6, t7],
        }
    }

    /// The view of a value of `len` bytes, more than 12, that begins with `prefix` and is at
    /// `offset` of a buffer.
    #[inline]
    pub fn new_long(len: u32, prefix: [u8; 4], buffer: u32, offset: u32) -> BinaryView
        requires { 12 < len }
        ensures { view_bytes result ≡ long_view len prefix buffer offset }
    {
        let [l0, l1, l2, l3] = len.to_le_bytes();
        let [a, b, c, d] = prefix;
        let [b0, b1, b2, b3] = buffer.to_le_bytes();
        let [o0, o1, o2, o3] = offset.to_le_bytes();
        BinaryView {
            bytes: [l0, l1, l2, l3, a, b, c, d, b0, b1, b2, b3, o0, o1, o2, o3],
        }
    }

    /// A view with these bytes, unchecked.
    #[inline(always)]
    pub fn from_bytes(bytes: [u8; 16]) -> BinaryView
        ensures { view_bytes result ≡ bytes }
    {
        BinaryView { bytes }
    }

    /// The bytes, unchanged.
    #[inline(always)]
    pub fn as_bytes(&self) -> &[u8]
        ensures value { result.now ≡ view_bytes self.now }
        ensures len { length result.now ≡ 16 }
    {
        &self.bytes
    }

    /// The length of the value, in bytes.
    #[inline(always)]
    pub fn len(&self) -> u32
        ensures { result ≡ view_len (view_bytes self.now) }
    {
        u32::from_le_bytes(four_at(&self.bytes, 0))
    }

    /// Whether the value is inlined.
    #[inline(always)]
    pub fn is_inlined(&self) -> bool
        ensures { IsTrue result ↔ IsInlined (view_bytes self.now) }
    {
        self.len() <= 12
    }

    /// The first eight bytes, length and prefix, little-endian.
    #[inline(always)]
    pub fn head(&self) -> u64
        ensures { result ≡ from_le_bytes w64 (view_bytes self.now) }
    {
        u64::from_le_bytes(eight_at(&self.bytes, 0))
    }

    /// The last eight bytes, little-endian.
    #[inline(always)]
    pub fn rest(&self) -> u64
        ensures { result ≡ from_le_bytes w64 (drop 8 (view_bytes self.now)) }
    {
        u64::from_le_bytes(eight_at(&self.bytes, 8))
    }

    /// Bytes 4 to 7, unchanged.
    #[inline(always)]
    pub fn prefix(&self) -> [u8; 4]
        ensures { result ≡ take 4 (drop 4 (view_bytes self.now)) }
    {
        four_at(&self.bytes, 4)
    }

    /// Bytes 4 to 7, big-endian: those of the value, zero padded.
    #[inline(always)]
    pub fn order_prefix(&self) -> u32
        ensures { result ≡ from_be_bytes w32 (drop 4 (view_bytes self.now)) }
    {
        u32::from_be_bytes(four_at(&self.bytes, 4))
    }

    /// Bytes 8 to 15, big-endian: those of an inlined value, zero padded.
    #[inline(always)]
    pub fn order_tail(&self) -> u64
        requires { IsInlined (view_bytes self.now) }
        ensures { result ≡ from_be_bytes w64 (drop 8 (view_bytes self.now)) }
    {
        u64::from_be_bytes(eight_at(&self.bytes, 8))
    }

    /// All 16 bytes, little-endian.
    #[inline(always)]
    pub fn as_u128(&self) -> u128
        ensures { result ≡ from_le_bytes w128 (view_bytes self.now) }
    {
        u128::from_le_bytes(self.bytes)
    }

    /// The number of the buffer of a long value.
    #[inline(always)]
    pub fn buffer(&self) -> u32
        ensures { result ≡ view_buffer (view_bytes self.now) }
    {
        u32::from_le_bytes(four_at(&self.bytes, 8))
    }

    /// The offset of a long value in its buffer.
    #[inline(always)]
    pub fn offset(&self) -> u32
        ensures { result ≡ view_offset (view_bytes self.now) }
    {
        u32::from_le_bytes(four_at(&self.bytes, 12))
    }

    /// The first eight bytes of a value's views.
    #[inline]
    pub fn head_of(value: &[u8]) -> u64
        requires { length value.now ≤ 4294967295 }
        ensures { result ≡ head_word value.now }
    {
        let [l0, l1, l2, l3] = (value.len() as u32).to_le_bytes();
        let [a, b, c, d] = first_four(value);
        u64::from_le_bytes([l0, l1, l2, l3, a, b, c, d])
    }

    /// The first four bytes of a value, zero padded.
    #[inline]
    pub fn prefix_of(value: &[u8]) -> [u8; 4]
        requires { length value.now ≤ 4294967295 }
        ensures { result ≡ padded 4 value.now }
    {
        first_four(value)
    }

    /// The first four bytes of a value, zero padded, big-endian.
    #[inline]
    pub fn order_prefix_of(value: &[u8]) -> u32
        requires { length value.now ≤ 4294967295 }
        ensures { result ≡ order_prefix_word value.now }
    {
        u32::from_be_bytes(first_four(value))
    }

    /// The next eight bytes of a value, likewise.
    #[inline]
    pub fn order_tail_of(value: &[u8]) -> u64
        requires { length value.now ≤ 4294967295 }
        ensures { result ≡ order_tail_word value.now }
    {
        u64::from_be_bytes(next_eight(value, 4))
    }
}
