//! The stored rows of a column, borrowed.
ghost use Rattle.std.specs.Prelude.{◌≡◌, ◌≢◌, ◌+◌, ◌*◌, ◌<◌, ◌≤◌, MatchOption, length, map};
ghost use Rattle.std.specs.Prelude.{[], true, slice_index_or};
ghost use Rattle.vortex_columns.specs.Words.{cell_value, IsCell, borrowed_values, part};

use super::{Column, Elements, Storage};
use crate::cell::{Cell, Sequence};
use crate::valid_rows::ValidRows;
use crate::validity::Validity;
use std::alloc::Global;
use vortex_bits::BitBuffer;
use vortex_types::{NativePType, ScalarValue, VortexResult};
use vortex_views::{BinaryViews, ResolvedViews};

/// List `i` of lists of one size.
fn fixed_cell(elements: &Column, size: usize, i: usize) -> Cell<'_>
    requires { size * i + size ≤ length elements.now.rows }
    ensures whole { IsCell result }
    ensures value { cell_value result ≡ part elements.now.rows (size * i) size }
{
    // so that the index is known not to overflow
    let _ = elements.len();
    Cell::Sequence(Sequence::Elements(elements, size * i, size))
}

/// The bytes of value `i`.
fn bytes_of(values: &BinaryViews, i: usize) -> &[u8]
    requires { i < length values.now }
    ensures { result.now ≡ slice_index_or values.now i [] }
{
    values.resolved().bytes(i)
}

impl Elements {
    ghost use Rattle.vortex_columns.specs.Stored.{bools, integers, lists, fixed_size_lists, maps};
    ghost use Rattle.vortex_columns.specs.Stored.{kept_of, kept_at, HasPlace, IsTextAt};
    ghost use Rattle.vortex_columns.specs.KeptParts.{KeptBits, KeptInts, KeptBytes, KeptField};
    ghost use Rattle.vortex_columns.specs.KeptParts.{IsKeptField, KeptLists, KeptFixedSizeLists};
    ghost use Rattle.vortex_columns.specs.KeptParts.{KeptMaps, kept_bytes};

    /// The value at index `i`.
    pub(super) fn cell(&self, i: usize) -> Cell<'_>
        requires place { HasPlace i (kept_of self.now) }
        requires text { IsTextAt i (kept_of self.now) }
        ensures whole { IsCell result }
        ensures value { cell_value result ≡ kept_at (kept_of self.now) i }
    {
        match self {
            Elements::Bool(bits) => Cell::Bool(bits.value(i)),
            Elements::Primitive(ints) => Cell::Int(ints.at(i)),
            Elements::Utf8(values) => {
                Cell::Text(unsafe { str::from_utf8_unchecked(bytes_of(values, i)) })
            }
            Elements::Binary(values) => Cell::Bytes(bytes_of(values, i)),
            Elements::Struct(fields) => Cell::Sequence(Sequence::Fields(fields, i)),
            Elements::List(elements, offsets, sizes) => {
                Cell::Sequence(Sequence::Elements(elements, offsets[i], sizes[i]))
            }
            Elements::FixedSizeList(elements, size) => fixed_cell(elements, *size as usize, i),
            Elements::Map(keys, values, offsets, sizes) => {
                Cell::Sequence(Sequence::Entries(keys, values, offsets[i], sizes[i]))
            }
        }
    }

    /// The allocator of the columns inside; none if there are none.
    fn allocator(&self) -> Option<Global> {
        match self {
            Elements::Struct(fields) => Some(*fields.allocator()),
            Elements::List(elements, _, _) => Some(*Box::allocator(elements)),
            Elements::FixedSizeList(elements, _) => Some(*Box::allocator(elements)),
            Elements::Map(keys, _, _, _) => Some(*Box::allocator(keys)),
            _ => None,
        }
    }

    pub(super) fn bits(&self) -> Option<&BitBuffer>
        ensures { MatchOption result (¬ KeptBits (kept_of self.now))
            (λ bits. kept_of self.now ≡ bools bits.now) }
    {
        match self {
            Elements::Bool(bits) => Some(bits),
            _ => None,
        }
    }

    pub(super) fn ints<T: NativePType>(&self) -> Option<&[T]>
        ensures { MatchOption result (¬ KeptInts T.ptype (kept_of self.now))
            (λ xs. kept_of self.now ≡ integers T.ptype (map T.number xs.now)) }
    {
        match self {
            Elements::Primitive(ints) => T::of(ints),
            _ => None,
        }
    }

    pub(super) fn views(&self) -> Option<ResolvedViews<'_>>
        ensures { MatchOption result (¬ KeptBytes (kept_of self.now))
            (λ views. KeptBytes (kept_of self.now)
            × (kept_bytes (kept_of self.now) ≡ borrowed_values views)) }
    {
        match self {
            Elements::Utf8(values) => Some(values.resolved()),
            Elements::Binary(values) => Some(values.resolved()),
            _ => None,
        }
    }

    pub(super) fn field(&self, k: usize) -> Option<&Column>
        ensures { MatchOption result (¬ KeptField k (kept_of self.now))
            (λ c. IsKeptField k (kept_of self.now) c.now) }
    {
        match self {
            Elements::Struct(fields) => fields.get(k),
            _ => None,
        }
    }

    pub(super) fn list_parts(&self) -> Option<(&Column, &[usize], &[usize])>
        ensures { MatchOption result (¬ KeptLists (kept_of self.now))
            (λ p. kept_of self.now ≡ lists p.0.now p.1.now p.2.now) }
    {
        match self {
            Elements::List(elements, offsets, sizes) => {
                Some((elements, offsets.as_slice(), sizes.as_slice()))
            }
            _ => None,
        }
    }

    pub(super) fn fixed_parts(&self) -> Option<(&Column, u32)>
        ensures { MatchOption result (¬ KeptFixedSizeLists (kept_of self.now))
            (λ p. kept_of self.now ≡ fixed_size_lists p.0.now p.1) }
    {
        match self {
            Elements::FixedSizeList(elements, size) => Some((elements, *size)),
            _ => None,
        }
    }

    pub(super) fn map_parts(&self) -> Option<(&Column, &Column, &[usize], &[usize])>
        ensures { MatchOption result (¬ KeptMaps (kept_of self.now))
            (λ p. kept_of self.now ≡ maps p.0.now p.1.now p.2.now p.3.now) }
    {
        match self {
            Elements::Map(keys, values, offsets, sizes) => {
                Some((keys, values, offsets.as_slice(), sizes.as_slice()))
            }
            _ => None,
        }
    }
}

impl Storage {
    ghost use Rattle.vortex_columns.specs.Words.{AnswersUnlessMemory, array, is_valid_row};
    ghost use Rattle.vortex_columns.specs.Words.{validity_of};
    ghost use Rattle.vortex_columns.specs.ValidRows.{valid_view, IsAsValid, IsListed};
    ghost use Rattle.vortex_columns.specs.Stored.{stored_of, stored_validity, value_at, HasRow};

    pub(super) fn is_valid(&self, i: usize) -> bool
        requires { HasRow i (stored_of self.now) }
        ensures { result ≡ is_valid_row (stored_validity (stored_of self.now)) i }
    {
        match self {
            Storage::Null => false,
            Storage::Constant(scalar) => !scalar.is_null(),
            Storage::Rows(_, validity) => validity.is_valid(i),
        }
    }

    /// The value of a row that is valid.
    pub(super) fn cell(&self, i: usize) -> Cell<'_>
        requires row { HasRow i (stored_of self.now) }
        requires valid { is_valid_row (stored_validity (stored_of self.now)) i ≡ true }
        ensures whole { IsCell result }
        ensures value { cell_value result ≡ value_at (stored_of self.now) i }
    {
        match self {
            Storage::Null => Cell::Null,
            Storage::Constant(scalar) => scalar.cell(),
            Storage::Rows(elements, _) => elements.cell(i),
        }
    }

    /// The allocator of the values inside the rows; none if there are none.
    pub(super) fn allocator(&self) -> Option<Global> {
        match self {
            Storage::Null => None,
            Storage::Constant(scalar) => match scalar.value() {
                Some(ScalarValue::List(items)) => Some(*items.allocator()),
                _ => None,
            },
            Storage::Rows(elements, _) => elements.allocator(),
        }
    }

    /// A copy of the validity.
    pub(super) fn validity(&self, alloc: Global) -> VortexResult<Validity>
        ensures { AnswersUnlessMemory result
            (λ v. validity_of v ≡ stored_validity (stored_of self.now)) }
    {
        match self {
            Storage::Null => Ok(Validity::AllInvalid),
            Storage::Constant(scalar) => Ok(scalar.validity()),
            Storage::Rows(_, validity) => validity.try_clone(alloc),
        }
    }

    /// The rows that are not null, borrowed.
    pub(super) fn valid_rows(&self) -> ValidRows<'_>
        ensures rows { IsAsValid (stored_validity (stored_of self.now)) (valid_view result) }
        ensures listed { IsListed result → (stored_validity (stored_of self.now)).form ≡ array }
    {
        match self {
            Storage::Null => ValidRows::No,
            Storage::Constant(scalar) if scalar.is_null() => ValidRows::No,
            Storage::Constant(_) => ValidRows::Every,
            Storage::Rows(_, validity) => ValidRows::of(validity),
        }
    }

    /// The bits of the validity, if it is an array.
    pub(super) fn valid_bits(&self) -> Option<&BitBuffer>
        ensures { MatchOption result ((stored_validity (stored_of self.now)).form ≢ array)
            (λ bits. stored_validity (stored_of self.now)
            ≡ record { form = array; bits = bits.now }) }
    {
        match self {
            Storage::Rows(_, validity) => validity.bits(),
            _ => None,
        }
    }
}
