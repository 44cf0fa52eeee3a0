//! Reads of a column: its rows, and its parts, borrowed.
ghost use Rattle.std.specs.Prelude.{◌≡◌, ◌≢◌, ◌<◌, MatchOption, length, map, not};
ghost use Rattle.vortex_columns.specs.Words.{row, is_null, type_of, AnswersUnlessMemory};

use super::{Column, Storage};
use crate::cell::Cell;
use crate::scalar::Scalar;
use crate::valid_rows::ValidRows;
use crate::validity::Validity;
use std::alloc::Global;
use std::cmp::Ordering;
use vortex_bits::BitBuffer;
use vortex_types::{DType, NativePType, VortexResult};
use vortex_views::ResolvedViews;

impl Column {
    ghost use Rattle.vortex_columns.specs.Words.{AreTyped, TellsNulls, TypeInvariant, FitsRows};
    ghost use Rattle.vortex_columns.specs.Words.{validity_of};
    ghost use Rattle.vortex_columns.specs.Words.{cell_value, IsCell, scalar_in, compare_values};
    ghost use Rattle.vortex_columns.specs.Words.{constant_column, array};
    ghost use Rattle.vortex_columns.specs.ValidRows.{valid_view, AreValid, IsListed};

    /// The type, borrowed. Each row has it, null included: a row is null only where the type is
    /// nullable.
    pub fn dtype(&self) -> &DType
        ensures dtype { type_of result.now ≡ self.now.dtype }
        ensures typed { AreTyped self.now.dtype self.now.rows }
    {
        &self.dtype
    }

    /// How many rows there are.
    pub fn len(&self) -> usize
        ensures { result ≡ length self.now.rows }
    {
        self.len
    }

    /// A copy of the validity.
    pub fn validity(&self, alloc: Global) -> VortexResult<Validity>
        ensures form { AnswersUnlessMemory result (λ v. (validity_of v).form ≡ self.now.form) }
        ensures fits { AnswersUnlessMemory result
            (λ v. FitsRows (validity_of v) (length self.now.rows)) }
        ensures rows { AnswersUnlessMemory result (λ v. TellsNulls self.now.rows (validity_of v)) }
    {
        self.storage.validity(alloc)
    }

    /// Which rows are not null, borrowed: a list only if the validity is an array of bits.
    /// Allocates nothing.
    pub fn valid_rows(&self) -> ValidRows<'_>
        ensures rows { AreValid (valid_view result) self.now.rows }
        ensures listed { IsListed result → self.now.form ≡ array }
    {
        self.storage.valid_rows()
    }

    /// Does nothing. Its contract is what is known of every column: the form of its validity is
    /// right for each row, and the scalar of a constant column has its type, even with no rows.
    pub fn type_invariant(&self)
        ensures { TypeInvariant self.now }
    {
        let _opened = &self.storage;
    }

    /// Whether row `i` is not null.
    pub fn is_valid(&self, i: usize) -> bool
        requires { i < length self.now.rows }
        ensures { result ≡ not (is_null (row self.now.rows i)) }
    {
        self.storage.is_valid(i)
    }

    /// The value of row `i`, borrowed. Allocates nothing.
    pub fn cell(&self, i: usize) -> Cell<'_>
        requires { i < length self.now.rows }
        ensures whole { IsCell result }
        ensures value { cell_value result ≡ row self.now.rows i }
    {
        if self.storage.is_valid(i) {
            self.storage.cell(i)
        } else {
            Cell::Null
        }
    }

    /// The value of row `i`.
    pub fn scalar_at(&self, alloc: Global, i: usize) -> VortexResult<Scalar>
        requires { i < length self.now.rows }
        ensures { AnswersUnlessMemory result (λ s. s ≡ scalar_in self.now i) }
    {
        let dtype = self.dtype.try_clone(alloc)?;
        let value = self.cell(i).try_to_value(alloc)?;
        Scalar::try_new(dtype, value)
    }

    /// The order of row `i` and row `j` of another column. Allocates as `Cell::compare` does.
    pub fn compare_rows(&self, i: usize, other: &Column, j: usize) -> Ordering
        requires i_in { i < length self.now.rows }
        requires j_in { j < length other.now.rows }
        ensures { result ≡ compare_values (row self.now.rows i) (row other.now.rows j) }
    {
        self.cell(i).compare(&other.cell(j))
    }

    /// The allocator of the values inside its rows; none if there are none.
    pub(crate) fn allocator(&self) -> Option<Global> {
        self.storage.allocator()
    }

    /// The scalar of a constant column, even of one without rows.
    pub fn as_constant(&self) -> Option<&Scalar>
        ensures { MatchOption result (self.now.constant ≡ None)
            (λ s. self.now ≡ constant_column s.now (length self.now.rows)) }
    {
        match &self.storage {
            Storage::Constant(scalar) => Some(scalar),
            _ => None,
        }
    }
}

/// The parts of a column that is not constant, borrowed. Allocates nothing.
impl Column {
    ghost use Rattle.vortex_columns.specs.Words.{HasBits, AreBits, HasInts, AreInts, HasBytes};
    ghost use Rattle.vortex_columns.specs.Words.{AreBytes, AreBytesAt, borrowed_values, array};
    ghost use Rattle.vortex_columns.specs.Words.{valid_rows};
    ghost use Rattle.vortex_columns.specs.Words.{HasField, IsField, HasKind, AreLists, AreMaps};
    ghost use Rattle.vortex_columns.specs.Words.{AreFixedSizeLists, is_list_type, is_map_type};
    ghost use Rattle.vortex_columns.specs.Words.{is_fixed_size_list_type};

    /// The bits, one a row, of a column of truth values that is not constant. Bits under a null are
    /// arbitrary.
    pub fn bits(&self) -> Option<&BitBuffer>
        ensures { MatchOption result (¬ HasBits self.now)
            (λ bits. HasBits self.now × AreBits self.now bits.now) }
    {
        match &self.storage {
            Storage::Rows(elements, _) => elements.bits(),
            _ => None,
        }
    }

    /// The integers, one a row, of a column of this integer type that is not constant. Values under
    /// a null are arbitrary.
    pub fn ints<T: NativePType>(&self) -> Option<&[T]>
        ensures { MatchOption result (¬ HasInts T.ptype self.now)
            (λ xs. HasInts T.ptype self.now × AreInts self.now (map T.number xs.now)) }
    {
        match &self.storage {
            Storage::Rows(elements, _) => elements.ints(),
            _ => None,
        }
    }

    /// The texts or byte strings, one a row, of a column of texts or bytes that is not constant, as
    /// views with their buffers. Values under a null are arbitrary, and need not be UTF-8.
    pub fn views(&self) -> Option<ResolvedViews<'_>>
        ensures { MatchOption result (¬ HasBytes self.now)
            (λ views. HasBytes self.now × AreBytes self.now (borrowed_values views)) }
    {
        match &self.storage {
            Storage::Rows(elements, _) => elements.views(),
            _ => None,
        }
    }

    /// The bytes of row `i` of a column of texts or bytes that is not constant. Bytes under a null
    /// are arbitrary.
    pub fn bytes_at(&self, i: usize) -> Option<&[u8]>
        requires { i < length self.now.rows }
        ensures { MatchOption result (¬ HasBytes self.now)
            (λ bs. HasBytes self.now × AreBytesAt i self.now bs.now) }
    {
        let views = self.views()?;
        Some(views.bytes(i))
    }

    /// The rows that are not null, if the validity is an array of bits.
    pub fn valid_bits(&self) -> Option<&BitBuffer>
        ensures { MatchOption result (self.now.form ≢ array)
            (λ bits. (self.now.form ≡ array) × (bits.now ≡ valid_rows self.now.rows)) }
    {
        self.storage.valid_bits()
    }

    /// The column of a field of a struct column that is not constant.
    pub fn field(&self, k: usize) -> Option<&Column>
        ensures { MatchOption result (¬ HasField k self.now)
            (λ c. HasField k self.now × IsField k self.now c.now) }
    {
        match &self.storage {
            Storage::Rows(elements, _) => elements.field(k),
            _ => None,
        }
    }

    /// The elements, offsets and sizes of a list column that is not constant.
    pub fn list_parts(&self) -> Option<(&Column, &[usize], &[usize])>
        ensures { MatchOption result (¬ HasKind is_list_type self.now)
            (λ p. HasKind is_list_type self.now × AreLists self.now p.0.now p.1.now p.2.now) }
    {
        match &self.storage {
            Storage::Rows(elements, _) => elements.list_parts(),
            _ => None,
        }
    }

    /// The elements and the size of a column of fixed-size lists that is not constant.
    pub fn fixed_parts(&self) -> Option<(&Column, u32)>
        ensures { MatchOption result (¬ HasKind is_fixed_size_list_type self.now)
            (λ p. HasKind is_fixed_size_list_type self.now
            × AreFixedSizeLists self.now p.0.now p.1) }
    {
        match &self.storage {
            Storage::Rows(elements, _) => elements.fixed_parts(),
            _ => None,
        }
    }

    /// The keys, values, offsets and sizes of a map column that is not constant.
    pub fn map_parts(&self) -> Option<(&Column, &Column, &[usize], &[usize])>
        ensures { MatchOption result (¬ HasKind is_map_type self.now)
            (λ p. HasKind is_map_type self.now
            × AreMaps self.now p.0.now p.1.now p.2.now p.3.now) }
    {
        match &self.storage {
            Storage::Rows(elements, _) => elements.map_parts(),
            _ => None,
        }
    }
}
