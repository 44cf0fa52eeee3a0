//! The parts of a type while it is dropped.
ghost use Rattle.std.specs.Prelude.{◌<◌};
ghost use Rattle.vortex_types.specs.TypeParts.{type_weight, weight_within, deepest_within};
ghost use Rattle.vortex_types.specs.declared.dtype.DType.{size-DType};

use crate::dtype::{DType, StructFields};
use std::alloc::Global;

/// The types inside a type.
pub(super) enum Within {
    One(Box<DType>),
    Two(Box<DType>, Box<DType>),
    Many(Vec<(String, DType)>),
}

impl Within {
    /// The allocator that they use.
    pub(super) fn allocator(&self) -> Global {
        match self {
            Within::One(element) => *Box::allocator(element),
            Within::Two(key, _) => *Box::allocator(key),
            Within::Many(fields) => *fields.allocator(),
        }
    }
}

impl DType {
    /// Takes a type apart; no parts for a type without types inside.
    pub(super) fn within(self) -> Option<Within>
        ensures fewer { weight_within result < type_weight self }
        ensures falls { deepest_within result < size-DType self }
    {
        match self {
            DType::Null => None,
            DType::Bool(_) => None,
            DType::Primitive(_, _) => None,
            DType::Utf8(_) => None,
            DType::Binary(_) => None,
            DType::Struct(StructFields { fields }, _) => Some(Within::Many(fields)),
            DType::List(element, _) => Some(Within::One(element)),
            DType::FixedSizeList(element, _, _) => Some(Within::One(element)),
            DType::Map(key, value, _) => Some(Within::Two(key, value)),
        }
    }
}
