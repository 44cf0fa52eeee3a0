//! Words of bytes, zero past the end.
ghost use Rattle.std.specs.Prelude.{◌≡◌, ◌≤◌, ◌<◌, ◌+◌, ◌^◌, ◌↔◌, ℕ, IsTrue};
ghost use Rattle.std.specs.Prelude.{length, slice_index, take, drop};
ghost use Rattle.std.specs.Int.{w32, w64, from_le_bytes, from_be_bytes};
ghost use Rattle.vortex_views.specs.ViewBytes.{padded};

/// Byte `at`, or zero where there is none.
#[inline(always)]
pub(crate) fn byte_at(bytes: &[u8], at: usize) -> u8
    ensures { result ≡ slice_index bytes.now at }
{
    if at < bytes.len() { bytes[at] } else { 0 }
}

/// The four bytes from byte `at` on.
#[inline(always)]
pub(crate) fn four_at(bytes: &[u8], at: usize) -> [u8; 4]
    requires { at + 4 ≤ length bytes.now }
    ensures { result ≡ padded 4 (drop at bytes.now) }
{
    [bytes[at], bytes[at + 1], bytes[at + 2], bytes[at + 3]]
}

/// The eight bytes from byte `at` on.
#[inline(always)]
pub(crate) fn eight_at(bytes: &[u8], at: usize) -> [u8; 8]
    requires { at + 8 ≤ length bytes.now }
    ensures { result ≡ padded 8 (drop at bytes.now) }
{
    [
        bytes[at],
        bytes[at + 1],
        bytes[at + 2],
        bytes[at + 3],
        bytes[at + 4],
        bytes[at + 5],
        bytes[at + 6],
        bytes[at + 7],
    ]
}

/// The first four bytes, zero past the end.
#[inline]
pub(crate) fn first_four(bytes: &[u8]) -> [u8; 4]
    ensures { result ≡ padded 4 bytes.now }
{
    if bytes.len() >= 4 {
        four_at(bytes, 0)
    } else {
        [byte_at(bytes, 0), byte_at(bytes, 1), byte_at(bytes, 2), 0]
    }
}

/// The eight bytes from byte `at` on, zero past the end.
#[inline]
pub(crate) fn next_eight(bytes: &[u8], at: usize) -> [u8; 8]
    requires { at < 2 ^ 63 }
    ensures { result ≡ padded 8 (drop at bytes.now) }
{
    if bytes.len() >= at + 8 {
        eight_at(bytes, at)
    } else {
        [
            byte_at(bytes, at),
            byte_at(bytes, at + 1),
            byte_at(bytes, at + 2),
            byte_at(bytes, at + 3),
            byte_at(bytes, at + 4),
            byte_at(bytes, at + 5),
            byte_at(bytes, at + 6),
            byte_at(bytes, at + 7),
        ]
    }
}

/// Whether the four bytes of `a` from byte `i` on are those of `b` from byte `j` on.
#[inline(always)]
pub(crate) fn same_four(a: &[u8], i: usize, b: &[u8], j: usize) -> bool
    requires a_room { i + 4 ≤ length a.now }
    requires b_room { j + 4 ≤ length b.now }
    ensures { IsTrue result ↔ (take 4 (drop i a.now) ≡ take 4 (drop j b.now)) }
{
    u32::from_be_bytes(four_at(a, i)) == u32::from_be_bytes(four_at(b, j))
}
