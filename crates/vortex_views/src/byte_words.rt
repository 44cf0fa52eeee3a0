//! Byte strings compared by words of eight bytes.
ghost use Rattle.std.specs.Prelude.{◌≡◌, ◌≤◌, ◌+◌, ◌↔◌, IsTrue, length, take, drop};
ghost use Rattle.std.specs.Int.{w64, from_be_bytes};
ghost use Rattle.vortex_views.specs.ViewBytes.{padded};
ghost use Rattle.vortex_views.specs.ValueWords.{compare_bytes};

use crate::words::eight_at;
use std::cmp::Ordering;

/// The eight bytes from byte `at` on, big-endian.
#[inline(always)]
pub(crate) fn order_word(bytes: &[u8], at: usize) -> u64
    requires { at + 8 ≤ length bytes.now }
    ensures { result ≡ from_be_bytes w64 (padded 8 (drop at bytes.now)) }
{
    u64::from_be_bytes(eight_at(bytes, at))
}

/// Whether two byte strings of one length, at least eight, are equal, given that their first
/// `start` bytes are: by words; the last eight bytes are compared again instead of a remainder.
pub(crate) fn equal_after(a: &[u8], b: &[u8], start: usize) -> bool
    requires lengths { length a.now ≡ length b.now }
    requires room { 8 ≤ length a.now }
    requires within { start ≤ length a.now }
    requires alike { take start a.now ≡ take start b.now }
    ensures { IsTrue result ↔ (a.now ≡ b.now) }
{
    let last = a.len() - 8;
    let mut at = start;
    while at <= last {
        let left = order_word(a, at);
        let right = order_word(b, at);
        if left != right {
            return false;
        }
        at += 8;
    }
    let last_left = order_word(a, last);
    let last_right = order_word(b, last);
    last_left == last_right
}

/// The order of two byte strings of at least eight bytes whose first `start` bytes are equal.
pub(crate) fn compare_after(a: &[u8], b: &[u8], start: usize) -> Ordering
    requires a_room { 8 ≤ length a.now }
    requires b_room { 8 ≤ length b.now }
    requires a_within { start ≤ length a.now }
    requires b_within { start ≤ length b.now }
    requires alike { take start a.now ≡ take start b.now }
    ensures { result ≡ compare_bytes a.now b.now }
{
    let last = a.len().min(b.len()) - 8;
    let mut at = start;
    while at <= last {
        let left = order_word(a, at);
        let right = order_word(b, at);
        if left != right {
            return left.cmp(&right);
        }
        at += 8;
    }
    let last_left = order_word(a, last);
    let last_right = order_word(b, last);
    if last_left != last_right {
        return last_left.cmp(&last_right);
    }
    a.len().cmp(&b.len())
}
