//! Constructors of columns.
ghost use Rattle.std.specs.Prelude.{◌≡◌, ◌↔◌, IsTrue, All, map, length};
ghost use Rattle.vortex_columns.specs.Words.{AnswersUnlessMemory, AnswersWhere, InvalidColumn};
ghost use Rattle.vortex_columns.specs.Words.{AreTyped, FitsRows, type_of, validity_of};

use super::nested::{fixed_size_list_type_of, list_type_of, map_type_of, of_lists, of_maps};
use super::{Column, Elements, Storage};
use crate::lists::{are_texts, learn_bytes, learn_texts};
use crate::scalar::Scalar;
use crate::validity::Validity;
use std::alloc::Global;
use vortex_bits::BitBuffer;
use vortex_types::ints::learn_ranges;
use vortex_types::{DType, NativePType, StructFields, VortexError, VortexResult};
use vortex_views::{BinaryView, BinaryViews, collect_views};

/// Proves to the caller that the rows of each column have its type.
fn learn_types(columns: &Vec<Column>)
    ensures { All (λ c. AreTyped c.dtype c.rows) columns.now.items }
{
    for column in columns {
        let _ = column.dtype();
    }
}

/// Whether each column has that many rows.
fn all_have_len(fields: &Vec<Column>, len: usize) -> bool
    ensures { IsTrue result ↔ All (λ c. length c.rows ≡ len) fields.now.items }
{
    for field in fields {
        if field.len() != len {
            return false;
        }
    }
    true
}

/// The types of columns.
fn types_of(alloc: Global, columns: &Vec<Column>) -> VortexResult<Vec<DType>>
    ensures { AnswersUnlessMemory result
        (λ types. map type_of types.items ≡ map (λ c. c.dtype) columns.now.items) }
{
    let mut types = Vec::new(alloc);
    for column in columns {
        types.push(column.dtype().try_clone(alloc)?)?;
    }
    Ok(types)
}

/// Each constructor but `null` takes an allocator and may run out of memory (E9), even where the
/// current form keeps its arguments unchanged.
impl Column {
    ghost use Rattle.vortex_columns.specs.Words.{constant_column, null_column, bool_column};
    ghost use Rattle.vortex_columns.specs.Words.{int_column, text_column, byte_string_column};
    ghost use Rattle.vortex_columns.specs.Words.{struct_column, list_column, map_column};
    ghost use Rattle.vortex_columns.specs.Words.{fixed_size_list_column, MakeTexts, text_rows};
    ghost use Rattle.vortex_columns.specs.Words.{byte_string_rows, byte_strings_of, MakeTextRows};
    ghost use Rattle.vortex_columns.specs.Words.{MakeTextViews, MakeByteStringViews, MakeBorrowedTexts};
    ghost use Rattle.vortex_columns.specs.Words.{borrowed_texts};
    ghost use Rattle.vortex_columns.specs.Words.{values_among};
    ghost use Rattle.vortex_columns.specs.Words.{MakeByteStrings, MakeStructs, MakeLists};
    ghost use Rattle.vortex_columns.specs.Words.{MakeFixedSizeLists, MakeMaps};

    /// The scalar in each of `len` rows.
    pub fn constant(alloc: Global, scalar: Scalar, len: usize) -> VortexResult<Column>
        ensures { AnswersUnlessMemory result (λ c. c ≡ constant_column scalar len) }
    {
        let dtype = scalar.dtype().try_clone(alloc)?;
        Ok(Column {
            dtype,
            len,
            storage: Storage::Constant(scalar),
        })
    }

    /// That many rows of type Null. Allocates nothing.
    pub fn null(len: usize) -> Column
        ensures { result ≡ null_column len }
    {
        Column {
            dtype: DType::Null,
            len,
            storage: Storage::Null,
        }
    }

    /// A column of truth values. E12 exactly where a list of valid bits has another length.
    pub fn try_bool(_alloc: Global, bits: BitBuffer, validity: Validity) -> VortexResult<Column>
        ensures { AnswersWhere result
            (FitsRows (validity_of validity) (length bits))
            (λ c. c ≡ bool_column bits (validity_of validity))
            InvalidColumn }
    {
        let len = bits.len();
        if !validity.fits(len) {
            return Err(VortexError::InvalidColumn);
        }
        let dtype = DType::Bool(validity.nullability());
        Ok(Column {
            dtype,
            len,
            storage: Storage::Rows(Elements::Bool(bits), validity),
        })
    }

    /// A column of integers of one type. E12 exactly where a list of valid bits has another length.
    pub fn try_primitive<T: NativePType>(
        _alloc: Global,
        values: Vec<T>,
        validity: Validity,
    ) -> VortexResult<Column>
        ensures { AnswersWhere result
            (FitsRows (validity_of validity) (length values.items))
            (λ c. c ≡ int_column T.ptype T.number values.items (validity_of validity))
            InvalidColumn }
    {
        let len = values.len();
        if !validity.fits(len) {
            return Err(VortexError::InvalidColumn);
        }
        learn_ranges(values.as_slice());
        let ints = T::wrap(values);
        let dtype = DType::Primitive(ints.ptype(), validity.nullability());
        Ok(Column {
            dtype,
            len,
            storage: Storage::Rows(Elements::Primitive(ints), validity),
        })
    }

    /// A column of texts. E12 exactly where a list of valid bits has another length, a text is
    /// longer than 4,294,967,295 bytes, or more than 4,294,967,296 buffers of that many bytes would
    /// be needed.
    pub fn try_utf8(alloc: Global, values: Vec<String>, validity: Validity) -> VortexResult<Column>
        ensures { AnswersWhere result
            (MakeTexts values.items (validity_of validity))
            (λ c. c ≡ text_column values.items (validity_of validity))
            InvalidColumn }
    {
        if !validity.fits(values.len()) {
            return Err(VortexError::InvalidColumn);
        }
        let views = collect_views(alloc, values.as_slice())?;
        Ok(Column::of_text_values(views, validity))
    }

    /// A column of borrowed texts, which are copied once. E12 as for `try_utf8`.
    pub fn try_texts(alloc: Global, values: &[&str], validity: Validity) -> VortexResult<Column>
        ensures { AnswersWhere result
            (MakeBorrowedTexts values.now (validity_of validity))
            (λ c. c ≡ text_rows (borrowed_texts values.now) (validity_of validity))
            InvalidColumn }
    {
        if !validity.fits(values.len()) {
            return Err(VortexError::InvalidColumn);
        }
        learn_texts(values);
        let views = collect_views(alloc, values)?;
        Ok(Column::of_text_values(views, validity))
    }

    /// A column of bytes. E12 as for texts.
    pub fn try_binary(
        alloc: Global,
        values: Vec<Vec<u8>>,
        validity: Validity,
    ) -> VortexResult<Column>
        ensures { AnswersWhere result
            (MakeByteStrings values.items (validity_of validity))
            (λ c. c ≡ byte_string_column values.items (validity_of validity))
            InvalidColumn }
    {
        if !validity.fits(values.len()) {
            return Err(VortexError::InvalidColumn);
        }
        let views = collect_views(alloc, values.as_slice())?;
        Ok(Column::of_byte_strings(views, validity))
    }

    /// A column of texts given as views over buffers, which are kept unchanged. E12 exactly where a
    /// list of valid bits has another length, a view is not valid for the buffers, even under a
    /// null, or a value of a row that is not null is not UTF-8.
    pub fn try_utf8_views(
        alloc: Global,
        views: Vec<BinaryView>,
        buffers: Vec<Vec<u8>>,
        validity: Validity,
    ) -> VortexResult<Column>
        ensures { AnswersWhere result
            (MakeTextViews views.items buffers.items (validity_of validity))
            (λ c. c ≡ text_rows (values_among (byte_strings_of buffers.items) views.items)
            (validity_of validity))
            InvalidColumn }
    {
        Column::try_utf8_values(alloc, BinaryViews::try_new(views, buffers)?, validity)
    }

    /// A column of bytes given as views over buffers, which are kept unchanged. E12 exactly where a
    /// list of valid bits has another length, or a view is not valid for the buffers, even under a
    /// null.
    pub fn try_binary_views(
        alloc: Global,
        views: Vec<BinaryView>,
        buffers: Vec<Vec<u8>>,
        validity: Validity,
    ) -> VortexResult<Column>
        ensures { AnswersWhere result
            (MakeByteStringViews views.items buffers.items (validity_of validity))
            (λ c. c ≡ byte_string_rows (values_among (byte_strings_of buffers.items) views.items)
            (validity_of validity))
            InvalidColumn }
    {
        Column::try_binary_values(alloc, BinaryViews::try_new(views, buffers)?, validity)
    }

    /// A column of the texts of a builder. E12 exactly where a list of valid bits has another
    /// length, or a value of a row that is not null is not UTF-8.
    pub fn try_utf8_values(
        _alloc: Global,
        values: BinaryViews,
        validity: Validity,
    ) -> VortexResult<Column>
        ensures { AnswersWhere result
            (MakeTextRows values (validity_of validity))
            (λ c. c ≡ text_rows values (validity_of validity))
            InvalidColumn }
    {
        if !validity.fits(values.len()) || !are_texts(&values, &validity) {
            return Err(VortexError::InvalidColumn);
        }
        Ok(Column::of_text_values(values, validity))
    }

    /// A column of the bytes of a builder. E12 exactly where a list of valid bits has another
    /// length.
    pub fn try_binary_values(
        _alloc: Global,
        values: BinaryViews,
        validity: Validity,
    ) -> VortexResult<Column>
        ensures { AnswersWhere result
            (FitsRows (validity_of validity) (length values))
            (λ c. c ≡ byte_string_rows values (validity_of validity))
            InvalidColumn }
    {
        if !validity.fits(values.len()) {
            return Err(VortexError::InvalidColumn);
        }
        Ok(Column::of_byte_strings(values, validity))
    }

    /// A column of these texts.
    fn of_text_values(values: BinaryViews, validity: Validity) -> Column
        requires { MakeTextRows values (validity_of validity) }
        ensures { result ≡ text_rows values (validity_of validity) }
    {
        let len = values.len();
        let dtype = DType::Utf8(validity.nullability());
        Column {
            dtype,
            len,
            storage: Storage::Rows(Elements::Utf8(values), validity),
        }
    }

    /// A column of these byte strings.
    fn of_byte_strings(values: BinaryViews, validity: Validity) -> Column
        requires { FitsRows (validity_of validity) (length values) }
        ensures { result ≡ byte_string_rows values (validity_of validity) }
    {
        let len = values.len();
        learn_bytes(&values);
        let dtype = DType::Binary(validity.nullability());
        Column {
            dtype,
            len,
            storage: Storage::Rows(Elements::Binary(values), validity),
        }
    }

    /// A column of records. E12 exactly where there are not as many names as fields, a name occurs
    /// twice, or a field or a list of valid bits has another length.
    pub fn try_struct(
        alloc: Global,
        names: Vec<String>,
        fields: Vec<Column>,
        len: usize,
        validity: Validity,
    ) -> VortexResult<Column>
        ensures { AnswersWhere result
            (MakeStructs names.items fields.items len (validity_of validity))
            (λ c. c ≡ struct_column names.items fields.items len (validity_of validity))
            InvalidColumn }
    {
        if !all_have_len(&fields, len) || !validity.fits(len) {
            return Err(VortexError::InvalidColumn);
        }
        learn_types(&fields);
        let types = StructFields::try_new(alloc, names, types_of(alloc, &fields)?)?;
        let dtype = DType::Struct(types, validity.nullability());
        Ok(Column {
            dtype,
            len,
            storage: Storage::Rows(Elements::Struct(fields), validity),
        })
    }

    /// A column of lists, each a range of the elements. E12 exactly where offsets and sizes differ
    /// in length, a list of valid bits has another, or a range of any row ends past the elements.
    pub fn try_list(
        alloc: Global,
        elements: Column,
        offsets: Vec<usize>,
        sizes: Vec<usize>,
        validity: Validity,
    ) -> VortexResult<Column>
        ensures { AnswersWhere result
            (MakeLists (length elements.rows) offsets.items sizes.items (validity_of validity))
            (λ c. c ≡ list_column elements offsets.items sizes.items (validity_of validity))
            InvalidColumn }
    {
        let len = offsets.len();
        let dtype = list_type_of(alloc, &elements, &offsets, &sizes, &validity)?;
        let lists = of_lists(alloc, elements, offsets, sizes)?;
        Ok(Column {
            dtype,
            len,
            storage: Storage::Rows(lists, validity),
        })
    }

    /// A column of lists of one size, one after another. E12 exactly where the elements are not
    /// `size * len`, or a list of valid bits has another length.
    pub fn try_fixed_size_list(
        alloc: Global,
        elements: Column,
        size: u32,
        len: usize,
        validity: Validity,
    ) -> VortexResult<Column>
        ensures { AnswersWhere result
            (MakeFixedSizeLists elements size len (validity_of validity))
            (λ c. c ≡ fixed_size_list_column elements size len (validity_of validity))
            InvalidColumn }
    {
        let dtype = fixed_size_list_type_of(alloc, &elements, size, len, &validity)?;
        let elements = Box::new(alloc, elements)?;
        Ok(Column {
            dtype,
            len,
            storage: Storage::Rows(Elements::FixedSizeList(elements, size), validity),
        })
    }

    /// A column of maps, each a range of keys and values. E12 as for lists, and where keys and
    /// values differ in length.
    pub fn try_map(
        alloc: Global,
        keys: Column,
        values: Column,
        offsets: Vec<usize>,
        sizes: Vec<usize>,
        validity: Validity,
    ) -> VortexResult<Column>
        ensures { AnswersWhere result
            (MakeMaps keys values offsets.items sizes.items (validity_of validity))
            (λ c. c ≡ map_column keys values offsets.items sizes.items (validity_of validity))
            InvalidColumn }
    {
        let len = offsets.len();
        let dtype = map_type_of(alloc, &keys, &values, &offsets, &sizes, &validity)?;
        let maps = of_maps(alloc, keys, values, offsets, sizes)?;
        Ok(Column {
            dtype,
            len,
            storage: Storage::Rows(maps, validity),
        })
    }
}
