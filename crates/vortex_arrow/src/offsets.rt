//! Integers that name places, and texts and byte strings by offsets into data.
ghost use Rattle.std.specs.Prelude.{◌≡◌, ◌<◌, ◌≤◌, ◌+◌, ◌<ℤ◌, ℕ, ℤ, pos, map, length, MatchOption};
ghost use Rattle.vortex_arrow.specs.Values.{offset_at, bytes_between, LieWithin, IsOffsetFault};

use crate::byte_rows::ByteRows;
use crate::error::ValueFault;

/// An integer that names places: an offset into data, or the number of a row.
pub trait IndexType: Copy + Drop {
    ghost number: { Self → ℤ };

    ghost most: { ℕ };

    /// The place that it names; none where it is negative.
    fn place(self) -> Option<usize>
        ensures { MatchOption result (number self <ℤ pos 0) (λ n. number self ≡ pos n) };

    /// The greatest place that it can name.
    fn most() -> usize
        ensures { result ≡ most };

    /// The integer that names a place.
    fn of_place(place: usize) -> Self
        requires { place ≤ most }
        ensures { number result ≡ pos place };
}

impl IndexType for i32 {
    ghost number = { λ x. x };

    ghost most = { 2147483647 };

    fn place(self) -> Option<usize> {
        usize::try_from(self).ok()
    }

    fn most() -> usize {
        2147483647
    }

    fn of_place(place: usize) -> i32 {
        place as i32
    }
}

impl IndexType for i64 {
    ghost number = { λ x. x };

    ghost most = { 9223372036854775807 };

    fn place(self) -> Option<usize> {
        usize::try_from(self).ok()
    }

    fn most() -> usize {
        9223372036854775807
    }

    fn of_place(place: usize) -> i64 {
        place as i64
    }
}

impl IndexType for u32 {
    ghost number = { pos };

    ghost most = { 4294967295 };

    fn place(self) -> Option<usize> {
        Some(self as usize)
    }

    fn most() -> usize {
        4294967295
    }

    fn of_place(place: usize) -> u32 {
        place as u32
    }
}

impl IndexType for u64 {
    ghost number = { pos };

    ghost most = { 18446744073709551615 };

    fn place(self) -> Option<usize> {
        Some(self as usize)
    }

    fn most() -> usize {
        usize::MAX
    }

    fn of_place(place: usize) -> u64 {
        place as u64
    }
}

/// Item `k` is the bytes from offset `k` to the next one.
#[derive(Clone, Copy)]
pub(crate) struct Spans<'a, O: IndexType> {
    pub offsets: &'a [O],
    pub data: &'a [u8],
}

impl<O: IndexType> ByteRows for Spans<'_, O> {
    ghost has_item = { λ s p. p + 1 < length s.offsets.now };

    ghost item = { λ s p. bytes_between s.data.now
        (offset_at (map O.number s.offsets.now) p)
        (offset_at (map O.number s.offsets.now) (p + 1)) };

    ghost lies = { λ s p valid. LieWithin s.data.now
        (offset_at (map O.number s.offsets.now) p)
        (offset_at (map O.number s.offsets.now) (p + 1)) };

    ghost is_fault = { λ s p fault. IsOffsetFault s.data.now
        (offset_at (map O.number s.offsets.now) p)
        (offset_at (map O.number s.offsets.now) (p + 1)) fault };

    fn value(&self, place: usize, valid: bool) -> Result<&[u8], ValueFault> {
        let from = match self.offsets[place].place() {
            Some(from) => from,
            None => return Err(ValueFault::OffsetsFall),
        };
        let to = match self.offsets[place + 1].place() {
            Some(to) => to,
            None => return Err(ValueFault::OffsetsFall),
        };
        if to < from {
            return Err(ValueFault::OffsetsFall);
        }
        if to > self.data.len() {
            return Err(ValueFault::PastData);
        }
        if valid {
            Ok(&self.data[from..to])
        } else {
            Ok(&[])
        }
    }
}
