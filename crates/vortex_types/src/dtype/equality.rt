//! Equality of types, and agreement apart from nullability.
ghost use Rattle.std.specs.Prelude.{◌≡◌};
ghost use Rattle.vortex_types.specs.TypeEquality.{alike_types};
ghost use Rattle.vortex_types.specs.Agreement.{nulls_agree, types_agree, fields_agree};
ghost use Rattle.vortex_types.specs.Agreement.{leaves_agree};

use super::pairs::{LEVELS, Pair, Pairs};
use super::{DType, Nullability, StructFields};
use std::alloc::Global;

/// Equal types, nullability included.
impl PartialEq for DType {
    ghost use Rattle.std.specs.Cmp.{on_per, decided, partial_equiv_from_equiv};
    ghost use Rattle.vortex_types.specs.TypeOf.{type_of};
    ghost use Rattle.vortex_types.specs.TypeEquality.{type_eq, type_eq-decides};

    ghost eq = { λ a b. type_eq (type_of a) (type_of b) };

    ghost laws = { on_per type_of (partial_equiv_from_equiv (decided type_eq type_eq-decides)) };

    fn eq(&self, other: &DType) -> bool {
        self.agrees(other, true)
    }
}

impl Eq for DType {
    ghost use Rattle.std.specs.Cmp.{on_equiv, decided};
    ghost use Rattle.vortex_types.specs.TypeOf.{type_of};
    ghost use Rattle.vortex_types.specs.TypeEquality.{type_eq, type_eq-decides};

    ghost laws = { on_equiv type_of (decided type_eq type_eq-decides) };
}

/// The same names in their order with equal types, nullability included.
impl PartialEq for StructFields {
    ghost use Rattle.std.specs.Cmp.{on_per, decided, partial_equiv_from_equiv};
    ghost use Rattle.vortex_types.specs.TypeOf.{struct_fields};
    ghost use Rattle.vortex_types.specs.TypeEquality.{fields_eq, fields_eq-decides};

    ghost eq = { λ a b. fields_eq (struct_fields a) (struct_fields b) };

    ghost laws = { on_per struct_fields (partial_equiv_from_equiv
        (decided fields_eq fields_eq-decides)) };

    fn eq(&self, other: &StructFields) -> bool {
        self.agrees(other, true)
    }
}

impl Eq for StructFields {
    ghost use Rattle.std.specs.Cmp.{on_equiv, decided};
    ghost use Rattle.vortex_types.specs.TypeOf.{struct_fields};
    ghost use Rattle.vortex_types.specs.TypeEquality.{fields_eq, fields_eq-decides};

    ghost laws = { on_equiv struct_fields (decided fields_eq fields_eq-decides) };
}

impl Nullability {
    ghost use Rattle.vortex_types.specs.TypeOf.{allows_null};

    /// Whether they are equal; always true unless `exactly`.
    pub(super) fn agrees(self, other: Nullability, exactly: bool) -> bool
        ensures { result ≡ nulls_agree exactly (allows_null self) (allows_null other) }
    {
        !exactly || self.is_nullable() == other.is_nullable()
    }
}

impl DType {
    ghost use Rattle.std.specs.Prelude.{MatchOption};
    ghost use Rattle.vortex_types.specs.TypeCopies.{HasParts};
    ghost use Rattle.vortex_types.specs.TypeOf.{type_of};

    /// Whether the types agree; with `exactly`, nullability counts. Allocates nothing down to a
    /// thousand levels. Deeper types are kept in a list, and use stack where that cannot grow; a
    /// type with one type inside at each level uses neither.
    pub(super) fn agrees(&self, other: &DType, exactly: bool) -> bool
        ensures { result ≡ types_agree exactly (type_of self.now) (type_of other.now) }
    {
        match self.parts_allocator() {
            Some(alloc) => Pairs::one(alloc, Pair { own: self, other }).agree(exactly),
            None => self.agrees_as_leaf(other, exactly),
        }
    }

    /// Whether the types agree and have no types inside.
    pub(super) fn agrees_as_leaf(&self, other: &DType, exactly: bool) -> bool
        ensures { result ≡ leaves_agree exactly (type_of self.now) (type_of other.now) }
    {
        match (self, other) {
            (DType::Null, DType::Null) => true,
            (DType::Bool(n), DType::Bool(m)) => n.agrees(*m, exactly),
            (DType::Primitive(p, n), DType::Primitive(q, m)) => *p == *q && n.agrees(*m, exactly),
            (DType::Utf8(n), DType::Utf8(m)) => n.agrees(*m, exactly),
            (DType::Binary(n), DType::Binary(m)) => n.agrees(*m, exactly),
            _ => false,
        }
    }

    /// The allocator of the types inside; none for a type without them.
    pub(super) fn parts_allocator(&self) -> Option<Global>
        ensures { MatchOption result (¬ HasParts (type_of self.now))
            (λ _. HasParts (type_of self.now)) }
    {
        match self {
            DType::Struct(fields, _) => Some(*fields.fields.allocator()),
            DType::List(element, _) => Some(*Box::allocator(element)),
            DType::FixedSizeList(element, _, _) => Some(*Box::allocator(element)),
            DType::Map(key, _, _) => Some(*Box::allocator(key)),
            _ => None,
        }
    }

    /// Whether the types agree apart from nullability, which is ignored at every level.
    pub fn eq_ignore_nullability(&self, other: &DType) -> bool
        ensures { result ≡ alike_types (type_of self.now) (type_of other.now) }
    {
        self.agrees(other, false)
    }
}

impl StructFields {
    ghost use Rattle.vortex_types.specs.TypeOf.{struct_fields};

    /// Whether the names are the same and the types agree, field by field.
    fn agrees(&self, other: &StructFields, exactly: bool) -> bool
        ensures { result ≡ fields_agree exactly (struct_fields self.now) (struct_fields other.now) }
    {
        let mut pairs = Pairs::new(*self.fields.allocator());
        pairs.put_fields(self, other, exactly, LEVELS) && pairs.agree(exactly)
    }
}
