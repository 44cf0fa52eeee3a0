//! Lists of bits, stored in bytes.
ghost use Rattle.std.specs.Prelude.{◌≡◌, ◌≤◌, ◌<◌, ◌+◌, ◌*◌, length, false, slice_index_or};
ghost use Rattle.vortex_errors.specs.Answers.{AnswersUnlessMemory, MadeWhere};
ghost use Rattle.vortex_errors.specs.declared.error.VortexError.TheVariants.{InvalidColumn};
ghost use Rattle.std.specs.Prelude.{IfSome};
ghost use Rattle.vortex_bits.specs.Bits.{bits_from};
ghost use Rattle.vortex_bits.specs.Forms.{aligned_there, aligned_bit, shifted_there, shifted_bit};
ghost use Rattle.vortex_bits.specs.Rows.{AreRows, ReadsBits};

use crate::rows::{AlignedBits, RowBits, ShiftedBits, collect_rows};
use crate::view::BitView;
use crate::words::bytes_from;
use std::alloc::{AllocError, Global};
use std::marker::Model;
use vortex_errors::{VortexError, VortexResult};

/// One bit for each truth value of a list.
#[derive(Clone, Copy)]
struct ListedBools<'a> {
    bools: &'a [bool],
}

impl RowBits for ListedBools<'_> {
    ghost has_row = { λ b i. i < length b.bools.now };

    ghost row_bit = { λ b i. slice_index_or b.bools.now i false };

    fn bit(&self, i: usize) -> bool {
        self.bools[i]
    }
}

/// A list of bits. Bit `i` is bit `(offset + i) mod 8` of byte `(offset + i) / 8`, from the least
/// significant, as in Arrow's layout. All other bits are ignored.
#[derive(Drop)]
pub struct BitBuffer {
    bytes: Vec<u8>,
    offset: usize,
    len: usize,
}

impl Model for BitBuffer {
    ghost use Rattle.std.specs.Prelude.{List, Bool, ◌≤◌, ◌+◌, ◌*◌, length};
    ghost use Rattle.vortex_bits.specs.Bits.{bits_from};

    ghost Value = { List Bool };

    ghost view = { λ a. bits_from a.bytes.items a.offset a.len };

    ghost invariant = { λ a. a.offset + a.len ≤ 8 * length a.bytes.items };
}

impl BitBuffer {
    /// The `len` bits of the bytes from bit `offset` on. Allocates nothing.
    ///
    /// E12 exactly where `offset + len` is more than eight times the number of bytes.
    pub fn new(bytes: Vec<u8>, offset: usize, len: usize) -> VortexResult<BitBuffer>
        ensures { MadeWhere result (offset + len ≤ 8 * length bytes.items)
            (λ b. b ≡ bits_from bytes.items offset len) InvalidColumn }
    {
        if offset as u128 + len as u128 <= 8 * bytes.len() as u128 {
            Ok(BitBuffer { bytes, offset, len })
        } else {
            Err(VortexError::InvalidColumn)
        }
    }

    /// A bit for each truth value, in their order. Fails only where memory runs out (E9).
    pub fn from_bools(alloc: Global, bools: &[bool]) -> VortexResult<BitBuffer>
        ensures { AnswersUnlessMemory result (λ b. b ≡ bools.now) }
    {
        collect_rows(alloc, &ListedBools { bools }, bools.len())
    }

    /// The first `len` bits of bytes that hold them.
    pub(crate) fn from_words(bytes: Vec<u8>, len: usize) -> BitBuffer
        requires { len ≤ 8 * length bytes.items }
        ensures { result ≡ bits_from bytes.items 0 len }
    {
        BitBuffer {
            bytes,
            offset: 0,
            len,
        }
    }

    /// How many bits there are, one for each row.
    pub fn len(&self) -> usize
        ensures { result ≡ length self.now }
    {
        self.len
    }

    /// The bit of row `i`.
    pub fn value(&self, i: usize) -> bool
        requires { i < length self.now }
        ensures { result ≡ slice_index_or self.now i false }
    {
        // so written, no sum overflows a usize
        let within = self.offset % 8 + i % 8;
        let byte = self.offset / 8 + i / 8 + within / 8;
        (self.bytes[byte] >> (within % 8)) & 1 == 1
    }

    /// The `len` bits from bit `from` on, borrowed. Allocates nothing.
    pub fn slice(&self, from: usize, len: usize) -> BitView<'_>
        requires { from + len ≤ length self.now }
        ensures { AreRows len (λ i. slice_index_or self.now (from + i) false) result }
    {
        // so written, no sum overflows a usize
        let within = self.offset % 8 + from % 8;
        let byte = self.offset / 8 + from / 8 + within / 8;
        BitView::new(bytes_from(&self.bytes, byte), within % 8, len)
    }

    /// The bits in the form that kernels read, where they begin with a byte.
    pub fn aligned(&self) -> Option<AlignedBits<'_>>
        ensures { IfSome result (λ b. ReadsBits (aligned_there b) (aligned_bit b) self.now) }
    {
        if self.offset % 8 == 0 {
            Some(AlignedBits::new(bytes_from(&self.bytes, self.offset / 8)))
        } else {
            None
        }
    }

    /// The bits in the form that kernels read, at any offset.
    pub fn shifted(&self) -> ShiftedBits<'_>
        ensures { ReadsBits (shifted_there result) (shifted_bit result) self.now }
    {
        ShiftedBits::new(bytes_from(&self.bytes, self.offset / 8), self.offset % 8)
    }

    /// A copy with the same view.
    pub fn try_clone(&self, _alloc: Global) -> VortexResult<BitBuffer>
        ensures { AnswersUnlessMemory result (λ b. b ≡ self.now) }
    {
        Ok(self.clone()?)
    }
}

/// The same bits; the bytes are copied unchanged.
impl Clone for BitBuffer {
    ghost is_clone = { λ bits copy. copy ≡ bits };

    fn clone(&self) -> Result<BitBuffer, AllocError> {
        let bytes = self.bytes.as_slice().to_vec(*self.bytes.allocator())?;
        Ok(BitBuffer {
            bytes,
            offset: self.offset,
            len: self.len,
        })
    }
}
