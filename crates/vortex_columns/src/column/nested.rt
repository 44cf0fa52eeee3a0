//! Columns that contain columns: whether the parts make one, their types, and values with boxed
//! parts.
ghost use Rattle.std.specs.Prelude.{◌≡◌, ◌↔◌, IfOk, IsTrue, length};
ghost use Rattle.vortex_columns.specs.Words.{AnswersUnlessMemory, AnswersWhere, InvalidColumn};
ghost use Rattle.vortex_columns.specs.Words.{AreTyped, type_of, validity_of};
ghost use Rattle.vortex_columns.specs.Words.{MakeFixedSizeLists, MakeLists, MakeMaps};
ghost use Rattle.vortex_types.specs.LogicalTypes.{list_type, fixed_size_list_type, map_type};
ghost use Rattle.vortex_columns.specs.ValidityView.{form_allows_null};
ghost use Rattle.vortex_columns.specs.Stored.{kept_of, lists, fixed_size_lists, maps};

use super::{Column, Elements};
use crate::lists::{is_product, lie_within};
use crate::validity::Validity;
use std::alloc::{AllocError, Global};
use vortex_types::{DType, VortexError, VortexResult};

/// Whether these make lists of that many elements.
fn make_lists(
    elements: usize,
    offsets: &Vec<usize>,
    sizes: &Vec<usize>,
    validity: &Validity,
) -> bool
    ensures { IsTrue result
        ↔ MakeLists elements offsets.now.items sizes.now.items (validity_of validity.now) }
{
    let len = offsets.len();
    sizes.len() == len && validity.fits(len) && lie_within(elements, offsets, sizes)
}

/// Whether these make that many lists of one size.
fn make_fixed_size_lists(elements: &Column, size: u32, len: usize, validity: &Validity) -> bool
    ensures { IsTrue result ↔ MakeFixedSizeLists elements.now size len (validity_of validity.now) }
{
    is_product(elements.len(), size, len) && validity.fits(len)
}

/// Whether these make maps.
fn make_maps(
    keys: &Column,
    values: &Column,
    offsets: &Vec<usize>,
    sizes: &Vec<usize>,
    validity: &Validity,
) -> bool
    ensures { IsTrue result
        ↔ MakeMaps keys.now values.now offsets.now.items sizes.now.items
        (validity_of validity.now) }
{
    let count = keys.len();
    count == values.len() && make_lists(count, offsets, sizes, validity)
}

/// A copy of the type.
fn boxed_type(alloc: Global, column: &Column) -> VortexResult<Box<DType>>
    ensures { AnswersUnlessMemory result (λ b. type_of b.value ≡ column.now.dtype) }
{
    Ok(Box::new(alloc, column.dtype().try_clone(alloc)?)?)
}

/// The type of lists of these elements. E12 exactly where the parts do not make lists.
pub(super) fn list_type_of(
    alloc: Global,
    elements: &Column,
    offsets: &Vec<usize>,
    sizes: &Vec<usize>,
    validity: &Validity,
) -> VortexResult<DType>
    ensures made { AnswersWhere result
        (MakeLists (length elements.now.rows) offsets.now.items sizes.now.items
        (validity_of validity.now))
        (λ t. type_of t ≡ list_type elements.now.dtype
        (form_allows_null (validity_of validity.now).form))
        InvalidColumn }
    ensures typed { AreTyped elements.now.dtype elements.now.rows }
{
    let _ = elements.dtype();
    if !make_lists(elements.len(), offsets, sizes, validity) {
        return Err(VortexError::InvalidColumn);
    }
    Ok(DType::List(boxed_type(alloc, elements)?, validity.nullability()))
}

/// The type of lists of one size. E12 exactly where the parts do not make them.
pub(super) fn fixed_size_list_type_of(
    alloc: Global,
    elements: &Column,
    size: u32,
    len: usize,
    validity: &Validity,
) -> VortexResult<DType>
    ensures made { AnswersWhere result
        (MakeFixedSizeLists elements.now size len (validity_of validity.now))
        (λ t. type_of t ≡ fixed_size_list_type elements.now.dtype size
        (form_allows_null (validity_of validity.now).form))
        InvalidColumn }
    ensures typed { AreTyped elements.now.dtype elements.now.rows }
{
    let _ = elements.dtype();
    if !make_fixed_size_lists(elements, size, len, validity) {
        return Err(VortexError::InvalidColumn);
    }
    Ok(DType::FixedSizeList(boxed_type(alloc, elements)?, size, validity.nullability()))
}

/// The type of maps of these keys and values. E12 exactly where the parts do not make maps.
pub(super) fn map_type_of(
    alloc: Global,
    keys: &Column,
    values: &Column,
    offsets: &Vec<usize>,
    sizes: &Vec<usize>,
    validity: &Validity,
) -> VortexResult<DType>
    ensures made { AnswersWhere result
        (MakeMaps keys.now values.now offsets.now.items sizes.now.items
        (validity_of validity.now))
        (λ t. type_of t ≡ map_type keys.now.dtype values.now.dtype
        (form_allows_null (validity_of validity.now).form))
        InvalidColumn }
    ensures keys { AreTyped keys.now.dtype keys.now.rows }
    ensures values { AreTyped values.now.dtype values.now.rows }
{
    let _ = keys.dtype();
    let _ = values.dtype();
    if !make_maps(keys, values, offsets, sizes, validity) {
        return Err(VortexError::InvalidColumn);
    }
    let key = boxed_type(alloc, keys)?;
    Ok(DType::Map(key, boxed_type(alloc, values)?, validity.nullability()))
}

/// Lists of these elements.
pub(super) fn of_lists(
    alloc: Global,
    elements: Column,
    offsets: Vec<usize>,
    sizes: Vec<usize>,
) -> Result<Elements, AllocError>
    ensures { IfOk result (λ e. kept_of e ≡ lists elements offsets.items sizes.items) }
{
    Ok(Elements::List(Box::new(alloc, elements)?, offsets, sizes))
}

/// Maps of these keys and values.
pub(super) fn of_maps(
    alloc: Global,
    keys: Column,
    values: Column,
    offsets: Vec<usize>,
    sizes: Vec<usize>,
) -> Result<Elements, AllocError>
    ensures { IfOk result (λ e. kept_of e ≡ maps keys values offsets.items sizes.items) }
{
    let keys = Box::new(alloc, keys)?;
    Ok(Elements::Map(keys, Box::new(alloc, values)?, offsets, sizes))
}
