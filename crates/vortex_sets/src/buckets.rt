//! Buckets of four slots, each slot with an item. A free slot has an item that is elsewhere too, so
//! no slot is empty, and a look-up reads its four slots without a branch.
ghost use Rattle.std.specs.Prelude.{◌≡◌, ◌≤◌, ◌+◌, ◌*◌, ◌<◌, ◌^◌, Bool, IfSome, true, length, map};
ghost use Rattle.std.specs.Prelude.{slice_index_or};
ghost use Rattle.std.specs.List.{list_all};
ghost use Rattle.vortex_errors.specs.Answers.{AnswersUnlessMemory};
ghost use Rattle.vortex_sets.specs.ItemSets.{bucket_of, has_at, is_found, is_member, is_same_item};
ghost use Rattle.vortex_types.specs.Values.{null};

use crate::item::SetItem;
use std::alloc::Global;
use vortex_types::VortexResult;

/// 2 to the power of 64, over the golden ratio: products with it differ in their upper bits.
const SPREAD: u64 = 0x9e37_79b9_7f4a_7c15;

/// The bucket of a key; `last` is that of the last bucket, a power of two less 1.
#[inline(always)]
fn bucket_of(last: usize, key: u64) -> usize
    ensures value { result ≡ bucket_of last key }
    ensures within { result ≤ last }
{
    (key.wrapping_mul(SPREAD) >> 40) as usize & last
}

/// Whether slot `i` has the item.
#[inline(always)]
fn is_at<I: SetItem>(slots: &[I], i: usize, item: I) -> bool
    requires { i < length slots.now }
    ensures { result
        ≡ is_same_item (I.value item) (slice_index_or (map I.value slots.now) i null) }
{
    item.is_same(slots[i])
}

/// Whether one of the four slots from there on has the item.
#[inline(always)]
fn has_at<I: SetItem>(slots: &[I], at: usize, item: I) -> bool
    requires { at + 3 < length slots.now }
    ensures { result ≡ has_at (map I.value slots.now) at (I.value item) }
{
    (is_at(slots, at, item) | is_at(slots, at + 1, item))
        | (is_at(slots, at + 2, item) | is_at(slots, at + 3, item))
}

/// Whether the bucket of the item has it.
#[inline(always)]
pub(crate) fn is_found<I: SetItem>(last: usize, slots: &[I], item: I) -> bool
    requires { length slots.now ≡ 4 * last + 4 }
    ensures { result ≡ is_found I.key last (map I.value slots.now) (I.value item) }
{
    has_at(slots, 4 * bucket_of(last, item.key()), item)
}

/// Puts an item in the place of the first free slot of its bucket, if there is one.
#[tactic(auto, using(crate::proofs::SetLemmas::all_set))]
fn put<I: SetItem>(last: usize, slots: &mut Vec<I>, free: I, item: I)
    requires { length slots.old.items ≡ 4 * last + 4 }
    ensures room { length slots.new.items ≡ length slots.old.items }
    ensures others { (p : I → Bool) → list_all p slots.old.items ≡ true → p item ≡ true
        → list_all p slots.new.items ≡ true }
{
    if is_found(last, slots, item) {
        return;
    }
    let at = 4 * bucket_of(last, item.key());
    for j in 0..4 {
        if slots[at + j].is_same(free) {
            slots[at + j] = item;
            return;
        }
    }
}

/// An item so many times.
#[tactic(auto, using(crate::proofs::SetLemmas::all_pushed))]
fn repeated<I: SetItem>(alloc: Global, count: usize, item: I) -> VortexResult<Vec<I>>
    ensures count { AnswersUnlessMemory result (λ slots. length slots.items ≡ count) }
    ensures each { (p : I → Bool) → p item ≡ true
        → AnswersUnlessMemory result (λ slots. list_all p slots.items ≡ true) }
{
    let mut slots = Vec::new(alloc);
    for _ in 0..count {
        slots.push(item)?;
    }
    Ok(slots)
}

/// Slots with the items, each in its bucket where that has room.
#[tactic(auto, using(crate::proofs::SetLemmas::item_member))]
fn filled<I: SetItem>(alloc: Global, last: usize, items: &[I], first: I) -> VortexResult<Vec<I>>
    requires few { last < 2 ^ 40 }
    requires member { is_member (map I.value items.now) (I.value first) ≡ true }
    ensures room { AnswersUnlessMemory result (λ slots. length slots.items ≡ 4 * last + 4) }
    ensures sound { AnswersUnlessMemory result (λ slots.
        list_all (λ y. is_member (map I.value items.now) (I.value y)) slots.items ≡ true) }
{
    let mut slots = repeated(alloc, 4 * last + 4, first)?;
    for item in items {
        put(last, &mut slots, first, *item);
    }
    Ok(slots)
}

/// Whether each item is found.
fn are_found<I: SetItem>(last: usize, slots: &[I], items: &[I]) -> bool
    requires { length slots.now ≡ 4 * last + 4 }
    ensures { result
        ≡ list_all (λ x. is_found I.key last (map I.value slots.now) (I.value x)) items.now }
{
    for item in items {
        if !is_found(last, slots, *item) {
            return false;
        }
    }
    true
}

/// Slots in which each item is found, if all buckets have room.
pub(crate) fn slots_of<I: SetItem>(
    alloc: Global,
    last: usize,
    items: &[I],
    first: I,
) -> VortexResult<Option<Vec<I>>>
    requires few { last < 2 ^ 40 }
    requires member { is_member (map I.value items.now) (I.value first) ≡ true }
    ensures room { AnswersUnlessMemory result
        (λ o. IfSome o (λ slots. length slots.items ≡ 4 * last + 4)) }
    ensures sound { AnswersUnlessMemory result (λ o. IfSome o (λ slots.
        list_all (λ y. is_member (map I.value items.now) (I.value y)) slots.items ≡ true)) }
    ensures complete { AnswersUnlessMemory result (λ o. IfSome o (λ slots.
        list_all (λ x. is_found I.key last (map I.value slots.items) (I.value x)) items.now
        ≡ true)) }
{
    let slots = filled(alloc, last, items, first)?;
    if !are_found(last, &slots, items) {
        return Ok(None);
    }
    Ok(Some(slots))
}
