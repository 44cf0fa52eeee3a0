//! The order of two sequences. Inner sequences are compared recursively, without allocating, down
//! to a depth. For deeper ones the enclosing pairs are kept in a list, so they use no more stack;
//! where that list cannot grow, recursion continues.
ghost use Rattle.std.specs.Prelude.{◌≡◌, ◌<◌, ◌≤◌, ◌++◌, [], ◌∷◌, if◌then◌else◌, MatchOption};
ghost use Rattle.vortex_columns.specs.Words.{sequence_value, sequence_values, IsSequence, row};
ghost use Rattle.vortex_columns.specs.PairOrder.{ArePaired, shared, order_at, order_from, on_end};
ghost use Rattle.vortex_columns.specs.PairOrder.{size_left, size_at, pairs_in, AreFound};
ghost use Rattle.vortex_columns.specs.PairOrder.{found_order, found_size};

use crate::cell::{Cell, LEVELS, Sequence};
use std::alloc::Global;
use std::cmp::Ordering;

/// Two sequences that are compared from an index on, with the order if no value differs from there.
#[derive(Clone, Copy)]
pub(super) struct Comparing<'a> {
    pub(super) left: Sequence<'a>,
    pub(super) right: Sequence<'a>,
    pub(super) next: usize,
    pub(super) on_equal: Ordering,
}

/// The state of a comparison of two sequences.
enum Found<'a> {
    /// Their order.
    Order(Ordering),
    /// They are ordered as these two, which are the last.
    Last(Comparing<'a>),
    /// What is left of them, and before it two sequences at one index.
    Before(Comparing<'a>, Comparing<'a>),
}

/// The pairs that enclose two sequences, the outermost first; no list while there are none.
#[derive(Drop)]
struct Around<'a> {
    pairs: Option<Vec<Comparing<'a>>>,
}

impl Sequence<'_> {
    /// An allocator for a list of enclosing pairs; none where nothing is inside, except for entries
    /// of a map.
    pub(crate) fn allocator(&self) -> Option<Global> {
        match self {
            Sequence::Items(items) => Some(*items.allocator()),
            Sequence::Fields(fields, _) => Some(*fields.allocator()),
            Sequence::Elements(elements, _, _) => elements.allocator(),
            Sequence::Entries(keys, values, _, _) => keys.allocator().or(values.allocator()),
            Sequence::Entry(keys, values, _) => keys.allocator().or(values.allocator()),
        }
    }
}

impl<'a> Around<'a> {
    /// Adds a pair, inside the others; returns whether the allocation succeeded.
    fn push(&mut self, pair: Comparing<'a>) -> bool
        ensures { pairs_in self.new
            ≡ (if result then pairs_in self.old ++ pair.entry ∷ [] else pairs_in self.old) }
    {
        if self.pairs.is_none() {
            self.pairs = match pair.left.allocator() {
                Some(alloc) => Some(Vec::new(alloc)),
                None => None,
            };
        }
        match &mut self.pairs {
            Some(pairs) => pairs.push(pair).is_ok(),
            None => false,
        }
    }

    /// Takes the innermost pair.
    fn pop(&mut self) -> Option<Comparing<'a>>
        ensures { MatchOption result (pairs_in self.old ≡ [])
            (λ pair. pairs_in self.old ≡ pairs_in self.new ++ pair ∷ []) }
    {
        match &mut self.pairs {
            Some(pairs) => pairs.pop(),
            None => None,
        }
    }
}

impl<'a> Comparing<'a> {
    /// The order of what is left. A sequence that is not the last value is compared recursively
    /// while levels are left, else with the list, or recursively again where that cannot grow.
    pub(super) fn order(&self, levels: usize) -> Ordering
        requires { ArePaired self.now }
        ensures { result ≡ order_from self.now }
    {
        let mut above = Around { pairs: None };
        let mut here = *self;
        loop {
            match here.advance() {
                Found::Order(Ordering::Equal) => match above.pop() {
                    Some(outer) => here = outer,
                    None => return Ordering::Equal,
                },
                Found::Order(order) => return order,
                Found::Last(inner) => here = inner,
                Found::Before(outer, inner) => {
                    if levels == 0 && above.push(outer) {
                        here = inner;
                    } else {
                        match inner.order(levels.checked_sub(1).unwrap_or(LEVELS)) {
                            Ordering::Equal => here = outer,
                            order => return order,
                        }
                    }
                }
            }
        }
    }

    /// Compares what is left, up to the next index at which both have a sequence.
    fn advance(&self) -> Found<'a>
        requires { ArePaired self.now }
        ensures paired { AreFound result }
        ensures order { found_order result ≡ order_from self.now }
        ensures falls { found_size result ≤ size_left self.now }
    {
        let shared = self.shared();
        for k in self.next..shared {
            let one = self.left.get(k);
            let other = self.right.get(k);
            if let (Cell::Sequence(left), Cell::Sequence(right)) = (one, other) {
                return self.enter(k, left, right);
            }
            let order = one.compare_single(&other);
            if order.is_ne() {
                return Found::Order(order);
            }
        }
        Found::Order(self.on_end())
    }

    /// What is left if no value before index `k` differs and these two are there.
    fn enter(&self, k: usize, left: Sequence<'a>, right: Sequence<'a>) -> Found<'a>
        requires paired { ArePaired self.now }
        requires k_in { k < shared self.now }
        requires left_whole { IsSequence left }
        requires right_whole { IsSequence right }
        requires left_there { sequence_value left ≡ row (sequence_values self.now.left) k }
        requires right_there { sequence_value right ≡ row (sequence_values self.now.right) k }
        ensures paired { AreFound result }
        ensures order { found_order result ≡ order_at k self.now }
        ensures falls { found_size result ≤ size_at k self.now }
    {
        let shared = self.shared();
        if k + 1 == shared {
            return Found::Last(Comparing {
                left,
                right,
                next: 0,
                on_equal: self.on_end(),
            });
        }
        let outer = Comparing {
            left: self.left,
            right: self.right,
            next: k + 1,
            on_equal: self.on_equal,
        };
        let inner = Comparing {
            left,
            right,
            next: 0,
            on_equal: Ordering::Equal,
        };
        Found::Before(outer, inner)
    }

    /// How many indices have a value on both sides.
    fn shared(&self) -> usize
        requires { ArePaired self.now }
        ensures { result ≡ shared self.now }
    {
        self.left.len().min(self.right.len())
    }

    /// The order where no value differs.
    fn on_end(&self) -> Ordering
        requires { ArePaired self.now }
        ensures { result ≡ on_end self.now }
    {
        self.left.len().cmp(&self.right.len()).then(self.on_equal)
    }
}
