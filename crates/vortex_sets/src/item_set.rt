//! A set of values of one type.
ghost use Rattle.std.specs.Prelude.{◌≡◌, ◌+◌, ◌*◌, ◌<◌, ◌^◌, IfSome, true, length, map};
ghost use Rattle.std.specs.List.{list_all};
ghost use Rattle.vortex_errors.specs.Answers.{AnswersUnlessMemory};
ghost use Rattle.vortex_sets.specs.ItemSets.{is_found, is_member};

use crate::buckets::{is_found, slots_of};
use crate::item::SetItem;
use std::alloc::Global;
use vortex_types::VortexResult;

/// No set has more items, and none more buckets than 16 times as many.
const MOST_ITEMS: usize = 1048576;

const MOST_BUCKETS: usize = 16777216;

/// Buckets of four slots, of which each has an item.
#[derive(Drop)]
struct Buckets<I: SetItem> {
    slots: Vec<I>,
    /// The number of the last bucket.
    last: usize,
    ghost room: { length slots.items ≡ 4 * last + 4 },
}

/// A set of values. A look-up compares with four slots, whatever the number of items.
#[derive(Drop)]
pub struct ItemSet<I: SetItem> {
    pub items: Vec<I>,
    buckets: Buckets<I>,
    ghost sound: { list_all
        (λ y. is_member (map I.value items.items) (I.value y)) buckets.slots.items ≡ true },
    ghost complete: { list_all
        (λ x. is_found I.key buckets.last (map I.value buckets.slots.items) (I.value x)) items.items
        ≡ true },
}

/// The number of the last bucket, for so many items: a power of two less 1, so that there are two
/// to four buckets for each item.
fn last_bucket(count: usize) -> usize
    requires { count < 2 ^ 31 }
    ensures { result < 2 ^ 32 }
{
    let zeros = ((2 * count) as u32).leading_zeros().min(31);
    (u32::MAX >> zeros) as usize
}

/// Buckets in which each item is found, if there are any of a size that is allowed.
fn buckets_of<I: SetItem>(alloc: Global, items: &[I], first: I) -> VortexResult<Option<Buckets<I>>>
    requires few { length items.now < 2 ^ 31 }
    requires member { is_member (map I.value items.now) (I.value first) ≡ true }
    ensures sound { AnswersUnlessMemory result (λ o. IfSome o (λ made. list_all
        (λ y. is_member (map I.value items.now) (I.value y)) made.slots.items ≡ true)) }
    ensures complete { AnswersUnlessMemory result (λ o. IfSome o (λ made. list_all
        (λ x. is_found I.key made.last (map I.value made.slots.items) (I.value x)) items.now
        ≡ true)) }
{
    let mut last = last_bucket(items.len());
    for _ in 0..4 {
        if last >= MOST_BUCKETS {
            return Ok(None);
        }
        if let Some(slots) = slots_of(alloc, last, items, first)? {
            return Ok(Some(Buckets { slots, last }));
        }
        last = 2 * last + 1;
    }
    Ok(None)
}

impl<I: SetItem> ItemSet<I> {
    /// The set of the items; none where there are none, more than 1,048,576, or so many in a few
    /// buckets that these have no room.
    #[tactic(auto, using(crate::proofs::SetLemmas::item_member))]
    pub fn try_new(alloc: Global, items: Vec<I>) -> VortexResult<Option<ItemSet<I>>>
        ensures { AnswersUnlessMemory result
            (λ made. IfSome made (λ set. set.items.items ≡ items.items)) }
    {
        if items.is_empty() || items.len() > MOST_ITEMS {
            return Ok(None);
        }
        let made = buckets_of(alloc, &items, items[0])?;
        match made {
            Some(buckets) => Ok(Some(ItemSet { items, buckets })),
            None => Ok(None),
        }
    }

    /// Whether the set has the value.
    #[inline(always)]
    pub fn contains(&self, value: I) -> bool
        ensures { result ≡ is_member (map I.value self.now.items.items) (I.value value) }
    {
        is_found(self.buckets.last, &self.buckets.slots, value)
    }
}
