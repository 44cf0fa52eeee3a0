//! Laws of the words of values and of views. The functions are empty: their contracts are the laws,
//! proved.
ghost use Rattle.std.specs.Prelude.{◌≡◌, ◌≢◌, ◌≤◌, ◌<◌, ◌⊎◌, ◌↔◌, ℕ, length, take, drop};
ghost use Rattle.std.specs.Prelude.{slice_index};
ghost use Rattle.std.specs.Int.{w32, w64, w128, from_le_bytes, from_be_bytes};
ghost use Rattle.std.specs.Ordering.{nat_cmp, ordering_then};
ghost use Rattle.vortex_views.specs.ViewBytes.{view_bytes, inlined_view, long_view, padded};
ghost use Rattle.vortex_views.specs.ViewBytes.{view_len, view_buffer, view_offset, inlined_value};
ghost use Rattle.vortex_views.specs.ValueWords.{compare_bytes, head_word};
ghost use Rattle.vortex_views.specs.ValueWords.{order_prefix_word, order_tail_word};
ghost use Rattle.vortex_views.specs.declared.view.BinaryView.{BinaryView};

use crate::view::BinaryView;

/// Where one of two values has at most twelve bytes, their first four bytes order them, then their
/// next eight, then their lengths; a prefix is below what continues it.
pub fn order_words_then_lengths_order_values(a: &[u8], b: &[u8])
    requires { (length a.now ≤ 12) ⊎ (length b.now ≤ 12) }
    ensures { compare_bytes a.now b.now
        ≡ ordering_then (nat_cmp (order_prefix_word a.now) (order_prefix_word b.now))
        (ordering_then (nat_cmp (order_tail_word a.now) (order_tail_word b.now))
        (nat_cmp (length a.now) (length b.now))) }
{}

/// Two values of at least twelve bytes are ordered by their first four bytes, then by their next
/// eight, then by the bytes after these.
pub fn order_words_then_rests_order_long_values(a: &[u8], b: &[u8])
    requires a_long { 12 ≤ length a.now }
    requires b_long { 12 ≤ length b.now }
    ensures { compare_bytes a.now b.now
        ≡ ordering_then (nat_cmp (order_prefix_word a.now) (order_prefix_word b.now))
        (ordering_then (nat_cmp (order_tail_word a.now) (order_tail_word b.now))
        (compare_bytes (drop 12 a.now) (drop 12 b.now))) }
{}

/// Different first four bytes decide the order of any two values.
pub fn different_order_prefixes_order_values(a: &[u8], b: &[u8])
    requires { order_prefix_word a.now ≢ order_prefix_word b.now }
    ensures { compare_bytes a.now b.now
        ≡ nat_cmp (order_prefix_word a.now) (order_prefix_word b.now) }
{}

/// Equal heads mean equal lengths and equal first four bytes.
pub fn equal_heads_say_equal_lengths_and_starts(a: &[u8], b: &[u8])
    requires a_len { length a.now ≤ 4294967295 }
    requires b_len { length b.now ≤ 4294967295 }
    requires heads { head_word a.now ≡ head_word b.now }
    ensures lengths { length a.now ≡ length b.now }
    ensures starts { padded 4 a.now ≡ padded 4 b.now }
{}

/// Sixteen bytes are equal where their words are.
fn equal_words_are_of_equal_bytes(a: &[u8], b: &[u8])
    requires a_len { length a.now ≡ 16 }
    requires b_len { length b.now ≡ 16 }
    ensures words { from_le_bytes w64 a.now ≡ from_le_bytes w64 b.now
        → from_le_bytes w64 (drop 8 a.now) ≡ from_le_bytes w64 (drop 8 b.now) → a.now ≡ b.now }
    ensures as_u128 { from_le_bytes w128 a.now ≡ from_le_bytes w128 b.now → a.now ≡ b.now }
{}

/// Two views with equal words have equal bytes, and back.
pub fn equal_words_say_equal_views(a: &BinaryView, b: &BinaryView)
    ensures words { let x = view_bytes a.now in let y = view_bytes b.now in
        from_le_bytes w64 x ≡ from_le_bytes w64 y
        → from_le_bytes w64 (drop 8 x) ≡ from_le_bytes w64 (drop 8 y) → x ≡ y }
    ensures as_u128 { let x = view_bytes a.now in let y = view_bytes b.now in
        (from_le_bytes w128 x ≡ from_le_bytes w128 y) ↔ (x ≡ y) }
{
    equal_words_are_of_equal_bytes(a.as_bytes(), b.as_bytes());
}

/// The view of a short value has the value's words, and the value.
pub fn inlined_views_have_the_words_of_their_values(value: &[u8])
    requires { length value.now ≤ 12 }
    ensures len { view_len (inlined_view value.now) ≡ length value.now }
    ensures value { inlined_value (inlined_view value.now) ≡ value.now }
    ensures head { from_le_bytes w64 (inlined_view value.now) ≡ head_word value.now }
    ensures order_prefix { from_be_bytes w32 (drop 4 (inlined_view value.now))
        ≡ order_prefix_word value.now }
    ensures order_tail { from_be_bytes w64 (drop 8 (inlined_view value.now))
        ≡ order_tail_word value.now }
{}

/// The view of a longer value has the value's words, and its position.
pub fn long_views_have_the_words_of_their_values(value: &[u8], buffer: u32, offset: u32)
    requires { length value.now ≤ 4294967295 }
    ensures len { view_len (long_view (length value.now) value.now buffer offset)
        ≡ length value.now }
    ensures head { from_le_bytes w64 (long_view (length value.now) value.now buffer offset)
        ≡ head_word value.now }
    ensures order_prefix { from_be_bytes w32 (drop 4
        (long_view (length value.now) value.now buffer offset))
        ≡ order_prefix_word value.now }
    ensures buffer { view_buffer (long_view (length value.now) value.now buffer offset) ≡ buffer }
    ensures offset { view_offset (long_view (length value.now) value.now buffer offset) ≡ offset }
{}

/// Short values are equal exactly where their views are.
pub fn inlined_views_are_equal_where_values_are(a: &[u8], b: &[u8])
    requires a_short { length a.now ≤ 12 }
    requires b_short { length b.now ≤ 12 }
    ensures { (inlined_view a.now ≡ inlined_view b.now) ↔ (a.now ≡ b.now) }
{}

/// A short value and a longer one have different heads, and so different views.
pub fn short_and_long_values_have_different_heads(short: &[u8], long: &[u8])
    requires short { length short.now ≤ 12 }
    requires long { 12 < length long.now }
    requires in_u32 { length long.now ≤ 4294967295 }
    ensures { head_word short.now ≢ head_word long.now }
{}

/// Bytes are below 256.
#[inline(always)]
pub(crate) fn learn_bytes(bytes: &[u8])
    ensures { (i : ℕ) → slice_index bytes.now i < 256 }
{}

/// How the words of two values order them, step by step.
pub fn words_order_values(a: &[u8], b: &[u8])
    ensures prefix { order_prefix_word a.now ≢ order_prefix_word b.now
        → compare_bytes a.now b.now ≡ nat_cmp (order_prefix_word a.now) (order_prefix_word b.now) }
    ensures tail { order_prefix_word a.now ≡ order_prefix_word b.now
        → order_tail_word a.now ≢ order_tail_word b.now
        → compare_bytes a.now b.now ≡ nat_cmp (order_tail_word a.now) (order_tail_word b.now) }
    ensures short { order_prefix_word a.now ≡ order_prefix_word b.now
        → order_tail_word a.now ≡ order_tail_word b.now
        → (length a.now ≤ 12) ⊎ (length b.now ≤ 12)
        → compare_bytes a.now b.now ≡ nat_cmp (length a.now) (length b.now) }
    ensures long { order_prefix_word a.now ≡ order_prefix_word b.now
        → order_tail_word a.now ≡ order_tail_word b.now
        → 12 ≤ length a.now → 12 ≤ length b.now → take 12 a.now ≡ take 12 b.now }
{}

/// How the words of two values show that they are equal, or begin alike.
pub fn words_tell_equal_values(a: &[u8], b: &[u8])
    ensures short { length a.now ≡ length b.now → length a.now ≤ 12
        → order_prefix_word a.now ≡ order_prefix_word b.now
        → order_tail_word a.now ≡ order_tail_word b.now → a.now ≡ b.now }
    ensures long { 4 ≤ length a.now → 4 ≤ length b.now
        → order_prefix_word a.now ≡ order_prefix_word b.now → take 4 a.now ≡ take 4 b.now }
{}
