//! The parts of a column while it is dropped.
ghost use Rattle.std.specs.Prelude.{◌<◌, ◌≤◌};
ghost use Rattle.vortex_types.specs.LogicalTypes.{type_depth};
ghost use Rattle.vortex_columns.specs.ColumnParts.{type_weight, weight_within, deepest_within};

use super::{Column, Elements, Storage};
use std::alloc::Global;

/// The columns inside a column.
pub(super) enum Within {
    One(Box<Column>),
    Two(Box<Column>, Box<Column>),
    Many(Vec<Column>),
}

impl Within {
    /// The allocator that they use.
    pub(super) fn allocator(&self) -> Global {
        match self {
            Within::One(column) => *Box::allocator(column),
            Within::Two(keys, _) => *Box::allocator(keys),
            Within::Many(fields) => *fields.allocator(),
        }
    }
}

impl Column {
    /// Takes a column apart; no parts for a column without columns inside.
    pub(super) fn within(self) -> Option<Within>
        ensures fewer { weight_within result < type_weight self.dtype }
        ensures falls { deepest_within result ≤ type_depth self.dtype }
    {
        let Column {
            dtype: _dtype,
            len: _len,
            storage,
        } = self;
        let elements = match storage {
            Storage::Null => return None,
            Storage::Constant(_scalar) => return None,
            Storage::Rows(elements, _validity) => elements,
        };
        match elements {
            Elements::Bool(_bits) => None,
            Elements::Primitive(_ints) => None,
            Elements::Utf8(_values) => None,
            Elements::Binary(_values) => None,
            Elements::Struct(fields) => Some(Within::Many(fields)),
            Elements::List(elements, _offsets, _sizes) => Some(Within::One(elements)),
            Elements::FixedSizeList(elements, _size) => Some(Within::One(elements)),
            Elements::Map(keys, values, _offsets, _sizes) => Some(Within::Two(keys, values)),
        }
    }
}
