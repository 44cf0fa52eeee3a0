//! Bits written into a caller's bytes, from the first on.
ghost use Rattle.std.specs.Prelude.{◌≡◌, ◌≤◌, ◌<◌, ◌+◌, ◌*◌, ◌-◌, ℕ, length, false, take, drop};
ghost use Rattle.std.specs.Prelude.{slice_index_or};
ghost use Rattle.std.specs.Int.{w64, to_le_bytes};
ghost use Rattle.vortex_bits.specs.Bits.{bit, bit_of};
ghost use Rattle.vortex_arrow.specs.Written.{bytes_for, SameBehind};

use vortex_bits::{BitWords, SameBit};
use vortex_columns::BitBuffer;

/// How many bytes hold so many bits.
pub fn bytes_for(bits: usize) -> usize
    ensures { result ≡ bytes_for bits }
{
    bits / 8 + (bits % 8).min(1)
}

/// The first bits of a word, and zero above them.
pub(crate) fn first_bits(word: u64, count: usize) -> u64
    requires { count ≤ 64 }
    ensures first { (j : ℕ) → j < count → bit result j ≡ bit word j }
    ensures above { (j : ℕ) → count ≤ j → j < 64 → bit result j ≡ false }
{
    if count < 64 {
        word & ((1 << count) - 1)
    } else {
        word
    }
}

/// Writes bytes from a place on.
pub(crate) fn write_at(out: &mut [u8], at: usize, bytes: &[u8])
    requires { at + length bytes.now ≤ length out.old }
    ensures before { take at out.new ≡ take at out.old }
    ensures here { take (length bytes.now) (drop at out.new) ≡ bytes.now }
    ensures behind { SameBehind (at + length bytes.now) out.old out.new }
{
    out[at..at + bytes.len()].copy_from_slice(bytes);
}

/// Writes the first bytes of a word.
fn write_word(out: &mut [u8], at: usize, word: u64, count: usize)
    requires count { count ≤ 8 }
    requires room { at + count ≤ length out.old }
    ensures before { take at out.new ≡ take at out.old }
    ensures here { take count (drop at out.new) ≡ take count (to_le_bytes w64 word) }
    ensures behind { SameBehind (at + count) out.old out.new }
{
    let bytes = word.to_le_bytes();
    write_at(out, at, &bytes[..count]);
}

/// Writes the bit of each row, and zeros behind the last in its byte.
pub(crate) fn write_words<W: BitWords>(rows: &W, count: usize, out: &mut [u8])
    requires rows { (i : ℕ) → i < count → W.has_row rows.now i }
    requires room { bytes_for count ≤ length out.old }
    ensures bits { (i : ℕ) → i < count → bit_of out.new i ≡ W.row_bit rows.now i }
    ensures behind { SameBehind (bytes_for count) out.old out.new }
{
    if count == 0 {
        return;
    }
    let whole = (count - 1) / 64;
    for k in 0..whole {
        write_word(out, 8 * k, rows.word(k), 8);
    }
    let rest = count - 64 * whole;
    let last = first_bits(rows.last(whole, rest), rest);
    write_word(out, 8 * whole, last, bytes_for(rest));
}

/// Writes bits.
pub(crate) fn write_bits(bits: &BitBuffer, out: &mut [u8])
    requires { bytes_for (length bits.now) ≤ length out.old }
    ensures bits { (i : ℕ) → i < length bits.now
        → bit_of out.new i ≡ slice_index_or bits.now i false }
    ensures behind { SameBehind (bytes_for (length bits.now)) out.old out.new }
{
    match bits.aligned() {
        Some(aligned) => write_words(&aligned, bits.len(), out),
        None => write_words(&bits.shifted(), bits.len(), out),
    }
}

/// Writes the same bit so many times.
pub(crate) fn write_same(bit: bool, count: usize, out: &mut [u8])
    requires { bytes_for count ≤ length out.old }
    ensures bits { (i : ℕ) → i < count → bit_of out.new i ≡ bit }
    ensures behind { SameBehind (bytes_for count) out.old out.new }
{
    write_words(&SameBit { bit }, count, out);
}
