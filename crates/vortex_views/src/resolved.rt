//! Views and the buffers of their long values, borrowed together.
ghost use Rattle.std.specs.Prelude.{◌≡◌, ◌<◌, ◌≤◌, ◌+◌, ◌↔◌, [], IsTrue, length, map};
ghost use Rattle.std.specs.Prelude.{slice_index_or};
ghost use Rattle.std.specs.Prelude.{take, drop};
ghost use Rattle.vortex_views.specs.ViewBytes.{view_bytes, view_len, inlined_value, inlined_view};
ghost use Rattle.vortex_views.specs.ViewBytes.{IsInlined};
ghost use Rattle.vortex_views.specs.Resolved.{AreViewsIn, IsViewIn, IsViewOf, values_in};
ghost use Rattle.vortex_views.specs.Resolved.{LiesIn, LiesInBuffer, long_value, value_in};

use crate::laws::equal_words_say_equal_views;
use crate::ordered::Row;
use crate::view::BinaryView;
use crate::words::same_four;

/// The values of a list of views, in place. Allocates nothing.
#[derive(Clone, Copy)]
pub struct ResolvedViews<'a> {
    views: &'a [BinaryView],
    buffers: &'a [Vec<u8>],
    ghost fit: { AreViewsIn (map (λ b. b.items) buffers.now) views.now },
}

impl<'a> ResolvedViews<'a> {
    ghost use Rattle.vortex_views.specs.BorrowedValues.{borrowed_values, borrowed_views, borrowed_buffers};
    ghost use Rattle.vortex_views.specs.BorrowedValue.{row_value};

    /// These views over the buffers that they refer to.
    pub fn new(views: &'a [BinaryView], buffers: &'a [Vec<u8>]) -> ResolvedViews<'a>
        requires { AreViewsIn (map (λ b. b.items) buffers.now) views.now }
        ensures values { borrowed_values result
            ≡ values_in (map (λ b. b.items) buffers.now) views.now }
        ensures views { borrowed_views result ≡ views.now }
        ensures buffers { borrowed_buffers result ≡ map (λ b. b.items) buffers.now }
    {
        ResolvedViews { views, buffers }
    }

    /// How many values there are.
    #[inline(always)]
    pub fn len(&self) -> usize
        ensures { result ≡ length (borrowed_values self.now) }
    {
        self.views.len()
    }

    /// The view of value `i`, unchanged: a longer value's with the number of its buffer and its
    /// offset there.
    #[inline(always)]
    pub fn view(&self, i: usize) -> &'a BinaryView
        requires { i < length (borrowed_values self.now) }
        ensures borrowed { view_bytes result.now
            ≡ slice_index_or (map view_bytes (borrowed_views self.now)) i [] }
        ensures fits { IsViewIn (borrowed_buffers self.now) (view_bytes result.now) }
        ensures value { IsViewOf (slice_index_or (borrowed_values self.now) i [])
            (view_bytes result.now) }
    {
        view_at(self.views, i)
    }

    /// Value `i`, with its words.
    #[inline(always)]
    pub fn row(&self, i: usize) -> Row<'a>
        requires { i < length (borrowed_values self.now) }
        ensures { row_value result ≡ slice_index_or (borrowed_values self.now) i [] }
    {
        Row::new(view_at(self.views, i), self.buffers)
    }

    /// The bytes of value `i`, borrowed from its view or from a buffer.
    #[inline]
    pub fn bytes(&self, i: usize) -> &'a [u8]
        requires { i < length (borrowed_values self.now) }
        ensures { result.now ≡ slice_index_or (borrowed_values self.now) i [] }
    {
        value_of(view_at(self.views, i), self.buffers)
    }
}

/// View `i`.
#[inline(always)]
fn view_at<'a>(views: &'a [BinaryView], i: usize) -> &'a BinaryView
    requires { i < length views.now }
    ensures { result.now ≡ slice_index_or views.now i result.now }
{
    &views[i]
}

/// The `len` bytes from byte `at` on.
#[inline(always)]
fn part(buffer: &[u8], at: usize, len: usize) -> &[u8]
    requires { at + len ≤ length buffer.now }
    ensures { result.now ≡ take len (drop at buffer.now) }
{
    &buffer[at..at + len]
}

/// The bytes of buffer `k`.
#[inline(always)]
fn buffer_at<'a>(buffers: &'a [Vec<u8>], k: usize) -> &'a [u8]
    requires { k < length (map (λ b. b.items) buffers.now) }
    ensures { result.now ≡ slice_index_or (map (λ b. b.items) buffers.now) k [] }
{
    buffers[k].as_slice()
}

/// The bytes that a long view refers to.
#[inline(always)]
fn long_value<'a>(view: &BinaryView, buffers: &'a [Vec<u8>]) -> &'a [u8]
    requires { LiesIn (map (λ b. b.items) buffers.now) (view_bytes view.now) }
    ensures { result.now ≡ long_value (map (λ b. b.items) buffers.now) (view_bytes view.now) }
{
    part(
        buffer_at(buffers, view.buffer() as usize),
        view.offset() as usize,
        view.len() as usize,
    )
}

/// The bytes of a view.
#[inline(always)]
pub(crate) fn value_of<'a>(view: &'a BinaryView, buffers: &'a [Vec<u8>]) -> &'a [u8]
    requires { IsViewIn (map (λ b. b.items) buffers.now) (view_bytes view.now) }
    ensures { result.now ≡ value_in (map (λ b. b.items) buffers.now) (view_bytes view.now) }
{
    if view.is_inlined() {
        part(view.as_bytes(), 4, view.len() as usize)
    } else {
        long_value(view, buffers)
    }
}

/// Whether two views have the same words.
#[inline(always)]
pub(crate) fn is_same_view(a: &BinaryView, b: &BinaryView) -> bool
    ensures { IsTrue result ↔ (view_bytes a.now ≡ view_bytes b.now) }
{
    equal_words_say_equal_views(a, b);
    a.as_u128() == b.as_u128()
}

/// Whether a view of a short value is padded with zeros.
fn is_padded(view: &BinaryView) -> bool
    requires { IsInlined (view_bytes view.now) }
    ensures { IsTrue result
        ↔ (view_bytes view.now ≡ inlined_view (inlined_value (view_bytes view.now))) }
{
    let padded = BinaryView::new_inlined(part(view.as_bytes(), 4, view.len() as usize));
    is_same_view(view, &padded)
}

/// Whether the bytes of a long view are in this buffer, and begin as in the view.
fn lies_in_buffer(view: &BinaryView, buffer: &[u8]) -> bool
    requires { 12 < view_len (view_bytes view.now) }
    ensures { IsTrue result ↔ LiesInBuffer buffer.now (view_bytes view.now) }
{
    let at = view.offset() as usize;
    let len = view.len() as usize;
    if at > buffer.len() || len > buffer.len() - at {
        return false;
    }
    same_four(view.as_bytes(), 4, buffer, at)
}

/// Whether a long view refers to bytes in the buffers.
fn lies_in(view: &BinaryView, buffers: &[Vec<u8>]) -> bool
    requires { 12 < view_len (view_bytes view.now) }
    ensures { IsTrue result ↔ LiesIn (map (λ b. b.items) buffers.now) (view_bytes view.now) }
{
    let number = view.buffer() as usize;
    if number >= buffers.len() {
        return false;
    }
    lies_in_buffer(view, buffer_at(buffers, number))
}

/// Whether a view is valid for the buffers.
pub fn fits(view: &BinaryView, buffers: &[Vec<u8>]) -> bool
    ensures { IsTrue result ↔ IsViewIn (map (λ b. b.items) buffers.now) (view_bytes view.now) }
{
    if view.is_inlined() {
        is_padded(view)
    } else {
        lies_in(view, buffers)
    }
}

/// Whether each view is valid for the buffers. Allocates nothing.
pub fn check_views(views: &[BinaryView], buffers: &[Vec<u8>]) -> bool
    ensures { IsTrue result ↔ AreViewsIn (map (λ b. b.items) buffers.now) views.now }
{
    for view in views {
        if !fits(view, buffers) {
            return false;
        }
    }
    true
}
