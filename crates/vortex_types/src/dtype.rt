//! The types of columns and scalars.
ghost use Rattle.std.specs.Prelude.{◌≡◌, false, IfOk};
ghost use Rattle.vortex_errors.specs.Answers.{AnswersUnlessMemory};
ghost use Rattle.vortex_types.specs.LogicalTypes.{is_nullable, with_nullability, is_bool_type};
ghost use Rattle.vortex_types.specs.LogicalTypes.{is_text_type, is_integer_type};

mod copying;
mod dropping;
mod equality;
mod fields;
mod integer_types;
mod pairs;
pub mod text;

use dropping::Within;
use std::alloc::{AllocError, Global};
use std::ops::BitOr;
use vortex_errors::VortexResult;

/// Whether a type has null.
#[derive(Clone, Copy, Debug, PartialEq, Eq)]
pub enum Nullability {
    /// Null is not one of the type's values.
    NonNullable,
    /// Null is one of the type's values.
    Nullable,
}

/// Nullable if either is.
impl BitOr for Nullability {
    ghost use Rattle.std.specs.Prelude.{◌≡◌, ◌||◌};
    ghost use Rattle.vortex_types.specs.TypeOf.{allows_null};

    type Output = Nullability;

    ghost bitor_gives = { λ a b c. allows_null c ≡ (allows_null a || allows_null b) };

    fn bitor(self, other: Nullability) -> Nullability {
        match self {
            Nullability::Nullable => Nullability::Nullable,
            Nullability::NonNullable => other,
        }
    }
}

impl Nullability {
    ghost use Rattle.vortex_types.specs.TypeOf.{allows_null};

    /// Whether a type of this nullability has null.
    pub fn is_nullable(&self) -> bool
        ensures { result ≡ allows_null self.now }
    {
        match self {
            Nullability::NonNullable => false,
            Nullability::Nullable => true,
        }
    }
}

/// An integer type, by its sign and width.
#[derive(Clone, Copy, Debug, PartialEq, Eq)]
pub enum PType {
    I8,
    I16,
    I32,
    I64,
    U8,
    U16,
    U32,
    U64,
}

/// The type of a column or a scalar.
#[cycle(dtype)]
pub enum DType {
    /// Only null, which counts as nullable.
    Null,
    /// Truth values.
    Bool(Nullability),
    /// Integers.
    Primitive(PType, Nullability),
    /// Texts.
    Utf8(Nullability),
    /// Bytes.
    Binary(Nullability),
    /// Records, with a value for each field.
    Struct(StructFields, Nullability),
    /// Lists of any length.
    List(Box<DType>, Nullability),
    /// Lists of that many elements.
    FixedSizeList(Box<DType>, u32, Nullability),
    /// Lists of keys, each with a value.
    Map(Box<DType>, Box<DType>, Nullability),
}

/// Names and types of fields, in declared order; names are distinct.
#[cycle(dtype)]
#[derive(Drop)]
pub struct StructFields {
    fields: Vec<(String, DType)>,
}

/// A type is dropped with a work list, so deep nesting uses no stack, and lists within lists
/// allocate nothing. If the list cannot grow, the remaining types are dropped recursively.
impl Drop for DType {
    #[tactic(auto, using(crate::proofs::TypeWeights::weights))]
    fn drop(self) {
        let within = match self.within() {
            Some(within) => within,
            None => return,
        };
        let alloc = within.allocator();
        let mut list = Vec::new(alloc);
        let mut next = Some(within);
        loop {
            let here = match next {
                Some(Within::One(element)) => Box::into_inner(element),
                Some(Within::Two(key, value)) => {
                    if let Err(failed) = list.push((String::new(alloc), Box::into_inner(value))) {
                        drop(failed.value);
                    }
                    Box::into_inner(key)
                }
                Some(Within::Many(fields)) => {
                    let mut fields = fields;
                    let last = match fields.pop() {
                        Some((_name, last)) => last,
                        None => DType::Null,
                    };
                    // what did not fit is dropped with `fields`
                    let _grown = list.append(&mut fields);
                    last
                }
                None => match list.pop() {
                    Some((_name, last)) => last,
                    None => return,
                },
            };
            next = here.within();
        }
    }
}

impl DType {
    ghost use Rattle.vortex_types.specs.TypeOf.{allows_null, type_of};

    /// The nullability at the top; Null counts as nullable.
    pub fn nullability(&self) -> Nullability
        ensures { allows_null result ≡ is_nullable (type_of self.now) }
    {
        match self {
            DType::Null => Nullability::Nullable,
            DType::Bool(n) => *n,
            DType::Primitive(_, n) => *n,
            DType::Utf8(n) => *n,
            DType::Binary(n) => *n,
            DType::Struct(_, n) => *n,
            DType::List(_, n) => *n,
            DType::FixedSizeList(_, _, n) => *n,
            DType::Map(_, _, n) => *n,
        }
    }

    /// Whether null is one of the type's values.
    pub fn is_nullable(&self) -> bool
        ensures { result ≡ is_nullable (type_of self.now) }
    {
        self.nullability().is_nullable()
    }

    /// The type with another nullability at the top; Null is unchanged.
    pub fn with_nullability(self, nullability: Nullability) -> DType
        ensures { type_of result ≡ with_nullability (type_of self) (allows_null nullability) }
    {
        match self {
            DType::Null => DType::Null,
            DType::Bool(_) => DType::Bool(nullability),
            DType::Primitive(ptype, _) => DType::Primitive(ptype, nullability),
            DType::Utf8(_) => DType::Utf8(nullability),
            DType::Binary(_) => DType::Binary(nullability),
            DType::Struct(fields, _) => DType::Struct(fields, nullability),
            DType::List(element, _) => DType::List(element, nullability),
            DType::FixedSizeList(element, size, _) => {
                DType::FixedSizeList(element, size, nullability)
            }
            DType::Map(key, value, _) => DType::Map(key, value, nullability),
        }
    }

    /// The type non-nullable at the top.
    pub fn as_nonnullable(self) -> DType
        ensures { type_of result ≡ with_nullability (type_of self) false }
    {
        self.with_nullability(Nullability::NonNullable)
    }

    /// Whether the values are truth values.
    pub fn is_boolean(&self) -> bool
        ensures { result ≡ is_bool_type (type_of self.now) }
    {
        match self {
            DType::Bool(_) => true,
            _ => false,
        }
    }

    /// Whether the values are texts.
    pub fn is_utf8(&self) -> bool
        ensures { result ≡ is_text_type (type_of self.now) }
    {
        match self {
            DType::Utf8(_) => true,
            _ => false,
        }
    }

    /// Whether the values are integers.
    pub fn is_primitive(&self) -> bool
        ensures { result ≡ is_integer_type (type_of self.now) }
    {
        match self {
            DType::Primitive(_, _) => true,
            _ => false,
        }
    }

    /// A copy with the same view.
    pub fn try_clone(&self, _alloc: Global) -> VortexResult<DType>
        ensures { AnswersUnlessMemory result (λ t. type_of t ≡ type_of self.now) }
    {
        Ok(self.copy()?)
    }

    fn copy(&self) -> Result<DType, AllocError>
        ensures { IfOk result (λ t. type_of t ≡ type_of self.now) }
    {
        match self.leaf() {
            Ok(leaf) => Ok(leaf),
            Err(alloc) => self.copy_by_steps(alloc),
        }
    }
}

/// A copy with the same view.
impl Clone for DType {
    ghost use Rattle.vortex_types.specs.TypeOf.{type_of};

    ghost is_clone = { λ dtype copy. type_of copy ≡ type_of dtype };

    fn clone(&self) -> Result<DType, AllocError> {
        self.copy()
    }
}

impl StructFields {
    ghost use Rattle.vortex_types.specs.TypeOf.{struct_fields};

    /// A copy with the same view.
    pub fn try_clone(&self, _alloc: Global) -> VortexResult<StructFields>
        ensures { AnswersUnlessMemory result (λ f. struct_fields f ≡ struct_fields self.now) }
    {
        Ok(self.copy()?)
    }

    fn copy(&self) -> Result<StructFields, AllocError>
        ensures { IfOk result (λ f. struct_fields f ≡ struct_fields self.now) }
    {
        let mut fields = Vec::new(*self.fields.allocator());
        for field in &self.fields {
            let name = field.0.clone()?;
            fields.push((name, field.1.copy()?))?;
        }
        Ok(StructFields { fields })
    }
}

/// The same names, with types that have the same views.
impl Clone for StructFields {
    ghost use Rattle.vortex_types.specs.TypeOf.{struct_fields};

    ghost is_clone = { λ fields copy. struct_fields copy ≡ struct_fields fields };

    fn clone(&self) -> Result<StructFields, AllocError> {
        self.copy()
    }
}
