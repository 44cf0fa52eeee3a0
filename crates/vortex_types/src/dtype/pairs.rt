//! Pairs of types compared recursively, without allocating, down to a depth. Deeper pairs are put
//! into a list, so they use no more stack.
ghost use Rattle.std.specs.Prelude.{◌≡◌, ◌<◌, ◌≤◌, ◌+◌, ◌∷◌, ◌++◌, [], ◌&&◌, MatchOption};
ghost use Rattle.vortex_types.specs.Agreement.{types_agree, fields_agree};
ghost use Rattle.vortex_types.specs.TypeOf.{type_of, struct_fields};
ghost use Rattle.vortex_types.specs.TypeParts.{type_weight, type_weights};
ghost use Rattle.vortex_types.specs.TypePairs.{all_agree, pair_agrees, waiting, weight_of};

use crate::dtype::{DType, StructFields};
use std::alloc::Global;

/// The depth down to which types are compared recursively: deeper than known types, in less than a
/// megabyte of stack.
pub(super) const LEVELS: usize = 1_000;

/// A type, and the type that it is compared with.
#[derive(Clone, Copy)]
pub(super) struct Pair<'a> {
    pub(super) own: &'a DType,
    pub(super) other: &'a DType,
}

/// Pairs that are still to be compared. The first is stored without allocating.
#[derive(Drop)]
pub(super) struct Pairs<'a> {
    first: Option<Pair<'a>>,
    others: Vec<Pair<'a>>,
}

impl<'a> Pairs<'a> {
    /// No pairs. Allocates nothing.
    pub(super) fn new(alloc: Global) -> Pairs<'a>
        ensures { waiting result ≡ [] }
    {
        Pairs {
            first: None,
            others: Vec::new(alloc),
        }
    }

    /// Only that pair. Allocates nothing.
    pub(super) fn one(alloc: Global, pair: Pair<'a>) -> Pairs<'a>
        ensures { waiting result ≡ pair.entry ∷ [] }
    {
        Pairs {
            first: Some(pair),
            others: Vec::new(alloc),
        }
    }

    /// The last of the pairs.
    fn pop(&mut self) -> Option<Pair<'a>>
        ensures { MatchOption result (waiting self.old ≡ [])
            (λ pair. waiting self.old ≡ waiting self.new ++ pair ∷ []) }
    {
        match self.others.pop() {
            Some(pair) => Some(pair),
            None => self.first.take(),
        }
    }

    /// Whether every pair agrees.
    pub(super) fn agree(self, exactly: bool) -> bool
        ensures { result ≡ all_agree exactly (waiting self.entry) }
    {
        let mut pairs = self;
        while let Some(pair) = pairs.pop() {
            if !pairs.step(pair, exactly, LEVELS) {
                return false;
            }
        }
        true
    }

    /// Compares the pair; pairs deeper than `levels` are added to the list. False only where some
    /// pair differs.
    #[cycle(agree)]
    fn step(&mut self, pair: Pair<'a>, exactly: bool, levels: usize) -> bool
        ensures agree { (result && all_agree exactly (waiting self.new))
            ≡ (pair_agrees exactly pair.entry && all_agree exactly (waiting self.old)) }
        ensures fewer { weight_of (waiting self.new)
            < weight_of (waiting self.old) + type_weight pair.entry.own.now }
    {
        match (pair.own, pair.other) {
            (DType::Struct(fs, n), DType::Struct(gs, m)) => {
                n.agrees(*m, exactly) && self.put_fields(fs, gs, exactly, levels)
            }
            (DType::List(t, n), DType::List(u, m)) => {
                n.agrees(*m, exactly) && self.put(t, u, exactly, levels)
            }
            (DType::FixedSizeList(t, s, n), DType::FixedSizeList(u, r, m)) => {
                if *s != *r {
                    return false;
                }
                n.agrees(*m, exactly) && self.put(t, u, exactly, levels)
            }
            (DType::Map(k, v, n), DType::Map(l, w, m)) => {
                if !n.agrees(*m, exactly) {
                    return false;
                }
                self.put(k, l, exactly, levels) && self.put(v, w, exactly, levels)
            }
            // types without types inside, or of two kinds
            (own, other) => own.agrees_as_leaf(other, exactly),
        }
    }

    /// Adds a pair. It is compared recursively where levels are left, at once where the type has no
    /// types inside, and recursively where the list cannot grow. False only where it differs.
    #[cycle(agree)]
    fn put(&mut self, own: &'a DType, other: &'a DType, exactly: bool, levels: usize) -> bool
        ensures agree { (result && all_agree exactly (waiting self.new))
            ≡ (types_agree exactly (type_of own.now) (type_of other.now)
            && all_agree exactly (waiting self.old)) }
        ensures fewer { weight_of (waiting self.new)
            ≤ weight_of (waiting self.old) + type_weight own.now }
    {
        let pair = Pair { own, other };
        if levels > 0 {
            return self.step(pair, exactly, levels - 1);
        }
        if own.parts_allocator().is_none() {
            return own.agrees_as_leaf(other, exactly);
        }
        if self.first.is_none() {
            self.first = Some(pair);
            return true;
        }
        match self.others.push(pair) {
            Ok(()) => true,
            Err(_) => self.step(pair, exactly, LEVELS),
        }
    }

    /// Adds the types of the fields as pairs, with that many levels left. False only where a name,
    /// a pair or the field count differs.
    #[cycle(agree)]
    pub(super) fn put_fields(
        &mut self,
        own: &'a StructFields,
        other: &'a StructFields,
        exactly: bool,
        levels: usize,
    ) -> bool
        ensures agree { (result && all_agree exactly (waiting self.new))
            ≡ (fields_agree exactly (struct_fields own.now) (struct_fields other.now)
            && all_agree exactly (waiting self.old)) }
        ensures fewer { weight_of (waiting self.new)
            ≤ weight_of (waiting self.old) + type_weights own.now.fields.items }
    {
        if own.fields.len() != other.fields.len() {
            return false;
        }
        for k in 0..own.fields.len() {
            let field = &own.fields[k];
            let others = &other.fields[k];
            if field.0.as_str() != others.0.as_str() {
                return false;
            }
            if !self.put(&field.1, &others.1, exactly, levels) {
                return false;
            }
        }
        true
    }
}
