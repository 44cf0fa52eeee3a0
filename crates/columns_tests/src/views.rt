//! Views and their words, and the values that they stand for.

use crate::questions::sure;
use fixtures::same;
use std::alloc::Global;
use std::cmp::Ordering;
use vortex_columns::VortexResult;
use vortex_views::{BinaryView, ConstantBytes, ResolvedViews, check_views, compare, equal};

/// Whether a view of `hello` has the words of its value.
fn says_hello(rt: HostRuntime, view: BinaryView) -> bool {
    let words = same(rt, view.as_u128(), 0x6f_6c6c_6568_0000_0005)
        && view.head() == BinaryView::head_of(b"hello")
        && view.prefix() == BinaryView::prefix_of(b"hello")
        && view.order_prefix() == BinaryView::order_prefix_of(b"hello");
    let tail = BinaryView::order_tail_of(b"hello");
    words && view.is_inlined() && same(rt, [view.order_tail(), tail], [0x6f00_0000_0000_0000; 2])
}

/// The place of a view in the buffers.
fn place_of(view: BinaryView) -> (u32, u32, u32) {
    (view.len(), view.buffer(), view.offset())
}

#[test]
fn views_have_the_words_of_their_values(rt: HostRuntime) {
    assert!(rt; says_hello(rt, BinaryView::new_inlined(b"hello")));
    let bytes = *b"\x0d\0\0\0hell\x01\0\0\0\x02\0\0\0";
    assert!(rt; same(rt, place_of(BinaryView::from_bytes(bytes)), (13, 1, 2)));
}

/// Whether the one value, `hello, world!` in a buffer, is above `hello` and equal to its own bytes.
fn is_above(alloc: Global, view: BinaryView) -> VortexResult<bool> {
    let mut buffers = Vec::new(alloc);
    buffers.push(b"hello, world!".to_vec(alloc)?)?;
    let views = [view];
    if !check_views(&views, &buffers) {
        return Ok(false);
    }
    let rows = ResolvedViews::new(&views, &buffers);
    let row = rows.row(0);
    Ok(
        compare(&ConstantBytes::new(b"hello"), &row) == Ordering::Less
            && equal(&row, &ConstantBytes::new(b"hello, world!"))
            && rows.bytes(0).len() == 13
            && rows.view(0).len() == 13,
    )
}

#[test]
fn values_are_in_buffers(rt: HostRuntime) {
    let alloc = rt.alloc();
    sure(
        &rt,
        is_above(alloc, BinaryView::new_long(13, *b"hell", 0, 0)),
    );
}
