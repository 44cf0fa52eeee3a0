//! Tests of values against one byte string, whose words are precomputed. The words of a value's
//! view decide first; its buffer is read only where they do not.
ghost use Rattle.std.specs.Prelude.{◌≡◌, ◌≤◌, ◌<◌, ◌-◌, ◌/◌, ◌^◌, ◌↔◌, ℕ, List, Bool, IsTrue};
ghost use Rattle.std.specs.Prelude.{length, slice_index, take, drop, nat_eq};
ghost use Rattle.std.specs.Int.{w128, from_le_bytes};
ghost use Rattle.std.specs.List.{starts_with, ends_with};
ghost use Rattle.std.specs.Str.{bytes_eq};
ghost use Rattle.vortex_views.specs.ViewBytes.{view_bytes, inlined_view};
ghost use Rattle.vortex_views.specs.ValueWords.{head_word, order_prefix_word, order_tail_word};
ghost use Rattle.vortex_views.specs.BorrowedValue.{row_value};

use crate::byte_words::equal_after;
use crate::laws::{learn_bytes, words_tell_equal_values};
use crate::ordered::{Row, WordsOfBytes};
use crate::resolved::is_same_view;
use crate::view::BinaryView;
use crate::words::{first_four, next_eight};

/// A test of values, each in place.
pub trait ValueTest {
    /// The values that the test may read.
    ghost can_read: { Self → List ℕ → Type 0 };

    /// The result for a value.
    ghost said: { Self → List ℕ → Bool };

    fn passes(&self, row: &Row<'_>) -> bool
        requires { can_read self.now (row_value row.now) }
        ensures { result ≡ said self.now (row_value row.now) };
}

/// Equality with a literal of at most twelve bytes: by the two words of the view.
#[derive(Clone, Copy)]
pub struct ShortWhole<'a> {
    literal: &'a [u8],
    view: BinaryView,
    ghost short: { length literal.now ≤ 12 },
    ghost view_is: { view_bytes view ≡ inlined_view literal.now },
}

impl<'a> ShortWhole<'a> {
    pub fn new(literal: &'a [u8]) -> ShortWhole<'a>
        requires { length literal.now ≤ 12 }
        ensures { result.literal.now ≡ literal.now }
    {
        ShortWhole {
            literal,
            view: BinaryView::new_inlined(literal),
        }
    }
}

impl ValueTest for ShortWhole<'_> {
    ghost can_read = { λ t value. Unit {0} };

    ghost said = { λ t value. bytes_eq t.literal.now value };

    #[inline(always)]
    fn passes(&self, row: &Row<'_>) -> bool {
        is_same_view(row.view(), &self.view)
    }
}

/// Equality with a longer literal: by the length and the first four bytes, which are one word, then
/// by the bytes.
#[derive(Clone, Copy)]
pub struct LongWhole<'a> {
    literal: &'a [u8],
    head: u64,
    ghost long: { 12 < length literal.now },
    ghost most: { length literal.now ≤ 4294967295 },
    ghost head_is: { head ≡ head_word literal.now },
}

impl<'a> LongWhole<'a> {
    pub fn new(literal: &'a [u8]) -> LongWhole<'a>
        requires long { 12 < length literal.now }
        requires most { length literal.now ≤ 4294967295 }
        ensures { result.literal.now ≡ literal.now }
    {
        LongWhole {
            literal,
            head: BinaryView::head_of(literal),
        }
    }
}

impl ValueTest for LongWhole<'_> {
    ghost can_read = { λ t value. Unit {0} };

    ghost said = { λ t value. bytes_eq t.literal.now value };

    #[inline(always)]
    fn passes(&self, row: &Row<'_>) -> bool {
        let view = row.view();
        if view.head() != self.head {
            return false;
        }
        learn_bytes(view.as_bytes());
        learn_bytes(self.literal);
        let value = row.value_bytes();
        words_tell_equal_values(value, self.literal);
        equal_after(value, self.literal, 4)
    }
}

/// The first `len` of four bytes, as a number.
#[inline(always)]
fn first_of_four(word: u32, len: usize) -> u64
    requires { len ≤ 4 }
    ensures { result ≡ word / 256 ^ (4 - len) }
{
    u64::from(word) >> (32 - 8 * len)
}

/// The first `len` of eight bytes, at least one, as a number.
#[inline(always)]
fn first_of_eight(word: u64, len: usize) -> u64
    requires some { 0 < len }
    requires most { len ≤ 8 }
    ensures { result ≡ word / 256 ^ (8 - len) }
{
    word >> (64 - 8 * len)
}

/// Whether a value begins with these bytes, at most four: by its length and its first four bytes.
#[derive(Clone, Copy)]
pub struct ShortPrefix<'a> {
    literal: &'a [u8],
    first: u64,
    ghost short: { length literal.now ≤ 4 },
    ghost first_is: { first ≡ order_prefix_word literal.now / 256 ^ (4 - length literal.now) },
}

impl<'a> ShortPrefix<'a> {
    pub fn new(literal: &'a [u8]) -> ShortPrefix<'a>
        requires { length literal.now ≤ 4 }
        ensures { result.literal.now ≡ literal.now }
    {
        let prefix = u32::from_be_bytes(first_four(literal));
        ShortPrefix {
            literal,
            first: first_of_four(prefix, literal.len()),
        }
    }
}

impl ValueTest for ShortPrefix<'_> {
    ghost can_read = { λ t value. Unit {0} };

    ghost said = { λ t value. starts_with nat_eq value t.literal.now };

    #[inline(always)]
    fn passes(&self, row: &Row<'_>) -> bool {
        learn_bytes(row.value_bytes());
        learn_bytes(self.literal);
        let len = self.literal.len();
        let first = first_of_four(row.order_prefix(), len);
        (len <= row.value_len()) & (first == self.first)
    }
}

/// Whether a value begins with these bytes, more than four: by its length and its first four
/// bytes, then by its next eight where these are enough, else by its bytes.
#[derive(Clone, Copy)]
pub struct LongPrefix<'a> {
    literal: &'a [u8],
    prefix: u32,
    tail: u64,
    ghost long: { 4 < length literal.now },
    ghost prefix_is: { prefix ≡ order_prefix_word literal.now },
    ghost tail_is: { tail ≡ order_tail_word literal.now },
}

impl<'a> LongPrefix<'a> {
    pub fn new(literal: &'a [u8]) -> LongPrefix<'a>
        requires { 4 < length literal.now }
        ensures { result.literal.now ≡ literal.now }
    {
        LongPrefix {
            literal,
            prefix: u32::from_be_bytes(first_four(literal)),
            tail: u64::from_be_bytes(next_eight(literal, 4)),
        }
    }
}

/// Whether a value begins with the literal, given that it is at least as long and has the same
/// first four bytes.
#[inline]
fn begins_after(value: &[u8], literal: &[u8]) -> bool
    requires within { length literal.now ≤ length value.now }
    requires room { 8 ≤ length literal.now }
    requires alike { take 4 value.now ≡ take 4 literal.now }
    ensures { IsTrue result ↔ (take (length literal.now) value.now ≡ literal.now) }
{
    equal_after(&value[..literal.len()], literal, 4)
}

impl ValueTest for LongPrefix<'_> {
    ghost can_read = { λ t value. Unit {0} };

    ghost said = { λ t value. starts_with nat_eq value t.literal.now };

    #[inline(always)]
    fn passes(&self, row: &Row<'_>) -> bool {
        words_tell_equal_values(row.value_bytes(), self.literal);
        learn_bytes(row.value_bytes());
        learn_bytes(self.literal);
        let len = self.literal.len();
        if row.value_len() < len {
            return false;
        }
        if row.order_prefix() != self.prefix {
            return false;
        }
        if len <= 12 {
            return first_of_eight(row.order_tail(), len - 4) == first_of_eight(self.tail, len - 4);
        }
        begins_after(row.value_bytes(), self.literal)
    }
}

/// The bytes of an inlined value from byte `at` on, as a little-endian number.
#[inline(always)]
fn inlined_from(view: &BinaryView, at: usize) -> u128
    requires { at ≤ 12 }
    ensures { result ≡ from_le_bytes w128 (view_bytes view.now) / 2 ^ 32 / 256 ^ at }
{
    (view.as_u128() >> 32) >> (8 * at)
}

/// The bytes of a short literal, likewise.
fn short_number(literal: &[u8]) -> u128
    ensures { length literal.now ≤ 12
        → result ≡ from_le_bytes w128 (inlined_view literal.now) / 2 ^ 32 / 256 ^ 0 }
{
    if literal.len() > 12 {
        return 0;
    }
    inlined_from(&BinaryView::new_inlined(literal), 0)
}

/// Whether a value ends with these bytes: by its length, then by the words of its view where it is
/// inlined, else by its last bytes.
#[derive(Clone, Copy)]
pub struct WholeEnd<'a> {
    literal: &'a [u8],
    number: u128,
    ghost number_is: { length literal.now ≤ 12
        → number ≡ from_le_bytes w128 (inlined_view literal.now) / 2 ^ 32 / 256 ^ 0 },
}

impl<'a> WholeEnd<'a> {
    pub fn new(literal: &'a [u8]) -> WholeEnd<'a>
        ensures { result.literal.now ≡ literal.now }
    {
        WholeEnd {
            literal,
            number: short_number(literal),
        }
    }
}

impl ValueTest for WholeEnd<'_> {
    ghost can_read = { λ t value. Unit {0} };

    ghost said = { λ t value. ends_with nat_eq value t.literal.now };

    #[inline(always)]
    fn passes(&self, row: &Row<'_>) -> bool {
        learn_bytes(row.value_bytes());
        learn_bytes(self.literal);
        let len = row.value_len();
        if len < self.literal.len() {
            return false;
        }
        let at = len - self.literal.len();
        let view = row.view();
        if view.is_inlined() {
            return inlined_from(view, at) == self.number;
        }
        self.literal == &row.value_bytes()[at..]
    }
}
