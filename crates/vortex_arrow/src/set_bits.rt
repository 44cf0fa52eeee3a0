//! The numbers of the bits that are set, and a byte for each bit, 64 bits at a time.
ghost use Rattle.std.specs.Prelude.{◌≡◌, ◌≤◌, ◌<◌, ◌+◌, ◌*◌, ◌-◌, ◌^◌, ◌++◌, ℕ, true, length, pos};
ghost use Rattle.std.specs.Prelude.{map, take, if◌then◌else◌, slice_index};
ghost use Rattle.std.specs.List.{range_with_len};
ghost use Rattle.vortex_bits.specs.Bits.{bit};
ghost use Rattle.vortex_arrow.specs.Written.{SameBehind, places, flag};

use crate::bits_out::first_bits;
use crate::offsets::IndexType;
use vortex_bits::BitWords;

/// As many bits of a word as are written run by run, and not bit by bit.
const MANY: usize = 56;

/// How many bits are set.
pub(crate) fn count_set<W: BitWords>(rows: &W, count: usize) -> usize
    requires rows { (i : ℕ) → i < count → W.has_row rows.now i }
    ensures { result ≡ length (places (W.row_bit rows.now) count) }
{
    if count == 0 {
        return 0;
    }
    let whole = (count - 1) / 64;
    let mut set = 0;
    for k in 0..whole {
        set += rows.word(k).count_ones() as usize;
    }
    let rest = count - 64 * whole;
    let last = first_bits(rows.last(whole, rest), rest);
    set + last.count_ones() as usize
}

/// Writes the numbers from one on, one after another, and returns where they end.
fn write_run<I: IndexType>(
    first: usize,
    at: usize,
    to: usize,
    numbers: &mut [I],
    from: usize,
) -> usize
    requires order { at ≤ to }
    requires room { from + (to - at) ≤ length numbers.old }
    requires end { from + (to - at) < 2 ^ 64 }
    requires most { (j : ℕ) → at ≤ j → j < to → first + j ≤ I.most }
    requires fits { (j : ℕ) → at ≤ j → j < to → first + j < 2 ^ 64 }
    ensures end { result ≡ from + (to - at) }
    ensures numbers { map I.number (take result numbers.new) ≡ map I.number (take from numbers.old)
        ++ map (λ j. pos (first + j)) (range_with_len at (to - at)) }
    ensures behind { SameBehind result numbers.old numbers.new }
{
    let mut end = from;
    for j in at..to {
        numbers[end] = I::of_place(first + j);
        end += 1;
    }
    end
}

/// Writes a number for each bit of a word that is set, that of bit 0 being the first, bit by bit,
/// and returns where they end.
fn write_few<I: IndexType>(word: u64, first: usize, numbers: &mut [I], from: usize) -> usize
    requires room { from + length (places (bit word) 64) ≤ length numbers.old }
    requires end { from + length (places (bit word) 64) < 2 ^ 64 }
    requires most { (j : ℕ) → j < 64 → bit word j ≡ true → first + j ≤ I.most }
    requires fits { (j : ℕ) → j < 64 → bit word j ≡ true → first + j < 2 ^ 64 }
    ensures end { result ≡ from + length (places (bit word) 64) }
    ensures numbers { map I.number (take result numbers.new) ≡ map I.number (take from numbers.old)
        ++ map (λ j. pos (first + j)) (places (bit word) 64) }
    ensures behind { SameBehind result numbers.old numbers.new }
{
    let last = from + word.count_ones() as usize;
    let mut rest = word;
    let mut end = from;
    while end < last {
        numbers[end] = I::of_place(first + rest.trailing_zeros() as usize);
        rest &= rest - 1;
        end += 1;
    }
    end
}

/// The same from gap to gap, for words with few gaps.
fn write_many<I: IndexType>(word: u64, first: usize, numbers: &mut [I], from: usize) -> usize
    requires room { from + length (places (bit word) 64) ≤ length numbers.old }
    requires end { from + length (places (bit word) 64) < 2 ^ 64 }
    requires most { (j : ℕ) → j < 64 → bit word j ≡ true → first + j ≤ I.most }
    requires fits { (j : ℕ) → j < 64 → bit word j ≡ true → first + j < 2 ^ 64 }
    ensures end { result ≡ from + length (places (bit word) 64) }
    ensures numbers { map I.number (take result numbers.new) ≡ map I.number (take from numbers.old)
        ++ map (λ j. pos (first + j)) (places (bit word) 64) }
    ensures behind { SameBehind result numbers.old numbers.new }
{
    let mut gaps = !word;
    let mut at = 0;
    let mut end = from;
    while gaps != 0 {
        let gap = gaps.trailing_zeros() as usize;
        end = write_run(first, at, gap, numbers, end);
        at = gap + 1;
        gaps &= gaps - 1;
    }
    write_run(first, at, 64, numbers, end)
}

/// The same in the way that suits the word.
fn write_places<I: IndexType>(word: u64, first: usize, numbers: &mut [I], from: usize) -> usize
    requires room { from + length (places (bit word) 64) ≤ length numbers.old }
    requires end { from + length (places (bit word) 64) < 2 ^ 64 }
    requires most { (j : ℕ) → j < 64 → bit word j ≡ true → first + j ≤ I.most }
    requires fits { (j : ℕ) → j < 64 → bit word j ≡ true → first + j < 2 ^ 64 }
    ensures end { result ≡ from + length (places (bit word) 64) }
    ensures numbers { map I.number (take result numbers.new) ≡ map I.number (take from numbers.old)
        ++ map (λ j. pos (first + j)) (places (bit word) 64) }
    ensures behind { SameBehind result numbers.old numbers.new }
{
    if word.count_ones() as usize >= MANY {
        write_many(word, first, numbers, from)
    } else {
        write_few(word, first, numbers, from)
    }
}

/// Writes the numbers of the bits that are set, and returns how many they are.
pub(crate) fn write_set<W: BitWords, I: IndexType>(
    rows: &W,
    count: usize,
    numbers: &mut [I],
) -> usize
    requires rows { (i : ℕ) → i < count → W.has_row rows.now i }
    requires room { length (places (W.row_bit rows.now) count) ≤ length numbers.old }
    requires most { count ≤ I.most + 1 }
    ensures end { result ≡ length (places (W.row_bit rows.now) count) }
    ensures numbers { map I.number (take result numbers.new)
        ≡ map pos (places (W.row_bit rows.now) count) }
    ensures behind { SameBehind result numbers.old numbers.new }
{
    if count == 0 {
        return 0;
    }
    let whole = (count - 1) / 64;
    let mut end = 0;
    for k in 0..whole {
        end = write_places(rows.word(k), 64 * k, numbers, end);
    }
    let rest = count - 64 * whole;
    let last = first_bits(rows.last(whole, rest), rest);
    write_places(last, 64 * whole, numbers, end)
}

/// Writes 1 for each of the first bits of a word that is set, and 0 for each other.
fn write_word_flags(word: u64, count: usize, out: &mut [u8], at: usize)
    requires count { count ≤ 64 }
    requires room { at + count ≤ length out.old }
    ensures before { take at out.new ≡ take at out.old }
    ensures here { (j : ℕ) → j < count → slice_index out.new (at + j) ≡ flag (bit word j) }
    ensures behind { SameBehind (at + count) out.old out.new }
{
    for j in 0..count {
        out[at + j] = u8::from((word >> j) & 1 == 1);
    }
}

/// Writes 1 for each bit that is set, and 0 for each other.
pub(crate) fn write_flags<W: BitWords>(rows: &W, count: usize, out: &mut [u8])
    requires rows { (i : ℕ) → i < count → W.has_row rows.now i }
    requires room { count ≤ length out.old }
    ensures flags { (i : ℕ) → i < count
        → slice_index out.new i ≡ flag (W.row_bit rows.now i) }
    ensures behind { SameBehind count out.old out.new }
{
    if count == 0 {
        return;
    }
    let whole = (count - 1) / 64;
    for k in 0..whole {
        write_word_flags(rows.word(k), 64, out, 64 * k);
    }
    let rest = count - 64 * whole;
    write_word_flags(rows.last(whole, rest), rest, out, 64 * whole);
}
