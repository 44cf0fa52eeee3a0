//! Values compared by their words, and by their bytes where words do not decide.
ghost use Rattle.std.specs.Prelude.{◌≡◌, ◌≤◌, ◌↔◌, ℕ, List, IsTrue, length, map};
ghost use Rattle.vortex_views.specs.ViewBytes.{view_bytes};
ghost use Rattle.vortex_views.specs.Resolved.{IsViewIn, IsViewOf};
ghost use Rattle.vortex_views.specs.ValueWords.{compare_bytes, head_word};
ghost use Rattle.vortex_views.specs.ValueWords.{order_prefix_word, order_tail_word};

use crate::byte_words::{compare_after, equal_after, order_word};
use crate::laws::{words_order_values, words_tell_equal_values};
use crate::resolved::value_of;
use crate::view::BinaryView;
use std::cmp::Ordering;

/// A byte string with the words that order it.
pub trait WordsOfBytes {
    ghost value: { Self → List ℕ };

    /// How many bytes there are.
    fn value_len(&self) -> usize
        ensures { result ≡ length (value self.now) };

    /// The first four bytes, zero padded, big-endian.
    fn order_prefix(&self) -> u32
        ensures { result ≡ order_prefix_word (value self.now) };

    /// The next eight bytes, likewise.
    fn order_tail(&self) -> u64
        ensures { result ≡ order_tail_word (value self.now) };

    /// The bytes, borrowed.
    fn value_bytes(&self) -> &[u8]
        ensures { result.now ≡ value self.now };
}

/// One value of a list of views, in place.
#[derive(Clone, Copy)]
pub struct Row<'a> {
    view: &'a BinaryView,
    buffers: &'a [Vec<u8>],
    ghost fit: { IsViewIn (map (λ b. b.items) buffers.now) (view_bytes view.now) },
}

/// A byte string whose words are precomputed.
#[derive(Clone, Copy)]
pub struct ConstantBytes<'a> {
    bytes: &'a [u8],
    prefix: u32,
    tail: u64,
    ghost prefix_is: { prefix ≡ order_prefix_word bytes.now },
    ghost tail_is: { tail ≡ order_tail_word bytes.now },
}

impl<'a> Row<'a> {
    ghost use Rattle.vortex_views.specs.BorrowedValue.{row_value};
    ghost use Rattle.vortex_views.specs.Resolved.{value_in};

    #[inline(always)]
    pub(crate) fn new(view: &'a BinaryView, buffers: &'a [Vec<u8>]) -> Row<'a>
        requires { IsViewIn (map (λ b. b.items) buffers.now) (view_bytes view.now) }
        ensures { row_value result ≡ value_in (map (λ b. b.items) buffers.now)
            (view_bytes view.now) }
    {
        Row { view, buffers }
    }

    /// The view, of 16 bytes.
    #[inline(always)]
    pub(crate) fn view(&self) -> &'a BinaryView
        ensures { IsViewOf (row_value self.now) (view_bytes result.now) }
    {
        self.view
    }
}

impl<'a> ConstantBytes<'a> {
    ghost use Rattle.vortex_views.specs.BorrowedValue.{constant_value};

    /// These bytes, with their words.
    pub fn new(bytes: &'a [u8]) -> ConstantBytes<'a>
        requires { length bytes.now ≤ 4294967295 }
        ensures { constant_value result ≡ bytes.now }
    {
        ConstantBytes {
            bytes,
            prefix: BinaryView::order_prefix_of(bytes),
            tail: BinaryView::order_tail_of(bytes),
        }
    }
}

impl<'a> WordsOfBytes for ConstantBytes<'a> {
    ghost use Rattle.vortex_views.specs.BorrowedValue.{constant_value};

    ghost value = { constant_value };

    #[inline(always)]
    fn value_len(&self) -> usize {
        self.bytes.len()
    }

    #[inline(always)]
    fn order_prefix(&self) -> u32 {
        self.prefix
    }

    #[inline(always)]
    fn order_tail(&self) -> u64 {
        self.tail
    }

    #[inline(always)]
    fn value_bytes(&self) -> &[u8] {
        self.bytes
    }
}

/// The first words of a view among buffers, and its length.
#[inline(always)]
fn long_tail(bytes: &[u8]) -> u64
    requires { 12 ≤ length bytes.now }
    ensures { result ≡ order_tail_word bytes.now }
{
    order_word(bytes, 4)
}

impl<'a> WordsOfBytes for Row<'a> {
    ghost use Rattle.vortex_views.specs.BorrowedValue.{row_value};

    ghost value = { row_value };

    #[inline(always)]
    fn value_len(&self) -> usize {
        self.view.len() as usize
    }

    #[inline(always)]
    fn order_prefix(&self) -> u32 {
        self.view.order_prefix()
    }

    #[inline(always)]
    fn order_tail(&self) -> u64 {
        if self.view.is_inlined() {
            self.view.order_tail()
        } else {
            long_tail(value_of(self.view, self.buffers))
        }
    }

    #[inline(always)]
    fn value_bytes(&self) -> &[u8] {
        value_of(self.view, self.buffers)
    }
}

/// The order of two byte strings: by their first four bytes; then, if both have more than twelve,
/// by words of eight bytes, else by the next eight, then by lengths.
#[inline]
pub fn compare<A: WordsOfBytes, B: WordsOfBytes>(a: &A, b: &B) -> Ordering
    ensures { result ≡ compare_bytes (A.value a.now) (B.value b.now) }
{
    words_order_values(a.value_bytes(), b.value_bytes());
    words_tell_equal_values(a.value_bytes(), b.value_bytes());
    let left_prefix = a.order_prefix();
    let right_prefix = b.order_prefix();
    if left_prefix != right_prefix {
        return left_prefix.cmp(&right_prefix);
    }
    let left_len = a.value_len();
    let right_len = b.value_len();
    if left_len > 12 && right_len > 12 {
        return compare_after(a.value_bytes(), b.value_bytes(), 4);
    }
    let left_tail = a.order_tail();
    let right_tail = b.order_tail();
    if left_tail != right_tail {
        return left_tail.cmp(&right_tail);
    }
    left_len.cmp(&right_len)
}

/// Whether two byte strings are equal: by their lengths and first four bytes, then by their next
/// eight if they have no more than twelve, else by words of eight bytes.
#[inline]
pub fn equal<A: WordsOfBytes, B: WordsOfBytes>(a: &A, b: &B) -> bool
    ensures { IsTrue result ↔ (A.value a.now ≡ B.value b.now) }
{
    words_tell_equal_values(a.value_bytes(), b.value_bytes());
    let len = a.value_len();
    if len != b.value_len() || a.order_prefix() != b.order_prefix() {
        return false;
    }
    if len <= 12 {
        return a.order_tail() == b.order_tail();
    }
    equal_after(a.value_bytes(), b.value_bytes(), 4)
}
