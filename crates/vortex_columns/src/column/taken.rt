//! Rows of a column, taken by their row numbers: by words of bits and by gathering, depending on
//! the storage.
ghost use Rattle.std.specs.Prelude.{◌≡◌, ◌+◌, ◌*◌, ◌^◌, ◌<◌, ◌≤◌, ◌++◌, ℕ, All, IfOk, map, length};
ghost use Rattle.std.specs.Prelude.{pos, false};
ghost use Rattle.std.specs.Prelude.{[], slice_index, slice_index_or};
ghost use Rattle.vortex_columns.specs.Words.{AnswersUnlessMemory, type_of, validity_of};
ghost use Rattle.vortex_columns.specs.ValidityView.{Reaches};
ghost use Rattle.vortex_columns.specs.Stored.{kept, kept_of, lists, maps};
ghost use Rattle.vortex_columns.specs.Taken.{taken_kept, taken_validity};
ghost use Rattle.vortex_columns.specs.Taken.{element_places, ArePlaces};
ghost use Rattle.vortex_columns.specs.ColumnParts.{type_weight};
ghost use Rattle.vortex_columns.specs.CopyFrames.{IsStoredUnder, stored_view};
ghost use Rattle.vortex_columns.specs.TakenFrames.{rows_in, IsSound, step_taking, step_weight};
ghost use Rattle.vortex_views.specs.Places.{places_of};
ghost use Rattle.vortex_types.specs.Numbers.{numbers, ptype_of};
ghost use Rattle.std.specs.List.{range_with_len};
ghost use Rattle.std.specs.Vec.{vec_len, vec_capacity};

use super::copies::Head;
use super::nested::{of_lists, of_maps};
use super::taken_frames::{Rows, Step};
use super::{Column, Elements, Storage};
use crate::validity::Validity;
use std::alloc::{AllocError, Global};
use vortex_bits::{BitBuffer, RowBits, collect_rows};
use vortex_types::{ExecutionCtx, Ints, VortexError, VortexResult};
use vortex_views::{Place, Places, gather};

/// The bit at each index.
#[derive(Clone, Copy)]
struct BitsAt<'a, P: Place> {
    bits: &'a BitBuffer,
    places: &'a [P],
}

impl<P: Place> RowBits for BitsAt<'_, P> {
    ghost use Rattle.std.specs.Prelude.{◌<◌, map, length, false, slice_index, slice_index_or};

    ghost has_row = { λ b i. (i < length b.places.now)
        × (slice_index (map P.number b.places.now) i < length b.bits.now) };

    ghost row_bit = { λ b i. slice_index_or b.bits.now (slice_index (map P.number b.places.now) i)
        false };

    fn bit(&self, i: usize) -> bool {
        self.bits.value(self.places[i].index())
    }
}

/// The bits at these indices.
fn bits_at<P: Place>(alloc: Global, bits: &BitBuffer, places: &[P]) -> VortexResult<BitBuffer>
    requires { All (λ i. i < length bits.now) (map P.number places.now) }
    ensures { AnswersUnlessMemory result
        (λ b. b ≡ map (λ i. slice_index_or bits.now i false) (map P.number places.now)) }
{
    collect_rows(alloc, &BitsAt { bits, places }, places.len())
}

/// The bits at these indices, 64 to a word.
fn take_bits(alloc: Global, bits: &BitBuffer, places: &Places<'_>) -> VortexResult<BitBuffer>
    requires { All (λ i. i < length bits.now) (places_of places.now) }
    ensures { AnswersUnlessMemory result
        (λ b. b ≡ map (λ i. slice_index_or bits.now i false) (places_of places.now)) }
{
    match places {
        Places::Codes(codes) => bits_at(alloc, bits, *codes),
        Places::Indices(indices) => bits_at(alloc, bits, *indices),
    }
}

/// The integers at these indices: one loop for each type.
fn take_ints(alloc: Global, ints: &Ints, places: &Places<'_>) -> Result<Ints, AllocError>
    requires { All (λ i. i < length (numbers ints.now)) (places_of places.now) }
    ensures { IfOk result (λ xs. (ptype_of xs ≡ ptype_of ints.now)
        × (numbers xs ≡ map (λ i. slice_index_or (numbers ints.now) i (pos 0))
        (places_of places.now))) }
{
    match ints {
        Ints::I8(xs) => Ok(Ints::I8(gather(alloc, xs, places)?)),
        Ints::I16(xs) => Ok(Ints::I16(gather(alloc, xs, places)?)),
        Ints::I32(xs) => Ok(Ints::I32(gather(alloc, xs, places)?)),
        Ints::I64(xs) => Ok(Ints::I64(gather(alloc, xs, places)?)),
        Ints::U8(xs) => Ok(Ints::U8(gather(alloc, xs, places)?)),
        Ints::U16(xs) => Ok(Ints::U16(gather(alloc, xs, places)?)),
        Ints::U32(xs) => Ok(Ints::U32(gather(alloc, xs, places)?)),
        Ints::U64(xs) => Ok(Ints::U64(gather(alloc, xs, places)?)),
    }
}

/// Adds the indices of one list's elements, within the capacity.
fn push_range(places: &mut Vec<usize>, from: usize, count: usize)
    requires room { vec_len places.old + count ≤ vec_capacity places.old }
    requires fits { from + count < 2 ^ 64 }
    ensures items { places.new.items ≡ places.old.items ++ range_with_len from count }
    ensures len { vec_len places.new ≡ vec_len places.old + count }
    ensures room { vec_capacity places.new ≡ vec_capacity places.old }
{
    for i in 0..count {
        places.push_reserved(from + i);
    }
}

/// The indices of the elements of lists of one size. E9 also where there are more than a usize can
/// count.
fn elements_at<P: Place>(alloc: Global, size: usize, places: &[P]) -> VortexResult<Vec<usize>>
    requires { All (λ i. size * i + size < 2 ^ 64) (map P.number places.now) }
    ensures { AnswersUnlessMemory result
        (λ es. es.items ≡ element_places size (map P.number places.now)) }
{
    let count = match size.checked_mul(places.len()) {
        Some(count) => count,
        None => return Err(VortexError::OutOfMemory),
    };
    let mut elements = Vec::with_capacity(alloc, count)?;
    for place in places {
        push_range(&mut elements, size * place.index(), size);
    }
    Ok(elements)
}

/// The indices of the elements of the lists of one size at these indices. E9 as above.
fn element_places(alloc: Global, size: usize, places: &Places<'_>) -> VortexResult<Vec<usize>>
    requires { All (λ i. size * i + size < 2 ^ 64) (places_of places.now) }
    ensures { AnswersUnlessMemory result
        (λ es. es.items ≡ element_places size (places_of places.now)) }
{
    match places {
        Places::Codes(codes) => elements_at(alloc, size, *codes),
        Places::Indices(indices) => elements_at(alloc, size, *indices),
    }
}

/// Which rows at these indices are null.
fn take_validity(alloc: Global, validity: &Validity, places: &Places<'_>) -> VortexResult<Validity>
    requires { All (λ i. Reaches (validity_of validity.now) i) (places_of places.now) }
    ensures { AnswersUnlessMemory result
        (λ v. validity_of v ≡ taken_validity (places_of places.now) (validity_of validity.now)) }
{
    match validity {
        Validity::NonNullable => Ok(Validity::NonNullable),
        Validity::AllValid => Ok(Validity::AllValid),
        Validity::AllInvalid => Ok(Validity::AllInvalid),
        Validity::Array(bits) => Ok(Validity::Array(take_bits(alloc, bits, places)?)),
    }
}

/// The lists at these indices, over a copy of the elements.
fn take_lists(
    alloc: Global,
    elements: &Column,
    offsets: &Vec<usize>,
    sizes: &Vec<usize>,
    places: &Places<'_>,
) -> VortexResult<Elements>
    requires offsets { All (λ i. i < length offsets.now.items) (places_of places.now) }
    requires sizes { All (λ i. i < length sizes.now.items) (places_of places.now) }
    ensures { AnswersUnlessMemory result (λ e. kept_of e ≡ lists elements.now
        (map (slice_index offsets.now.items) (places_of places.now))
        (map (slice_index sizes.now.items) (places_of places.now))) }
{
    let taken_offsets = gather(alloc, offsets, places)?;
    let taken_sizes = gather(alloc, sizes, places)?;
    Ok(of_lists(
        alloc,
        elements.try_clone(alloc)?,
        taken_offsets,
        taken_sizes,
    )?)
}

/// The maps at these indices, over copies of the keys and values.
fn take_maps(
    alloc: Global,
    keys: &Column,
    values: &Column,
    offsets: &Vec<usize>,
    sizes: &Vec<usize>,
    places: &Places<'_>,
) -> VortexResult<Elements>
    requires offsets { All (λ i. i < length offsets.now.items) (places_of places.now) }
    requires sizes { All (λ i. i < length sizes.now.items) (places_of places.now) }
    ensures { AnswersUnlessMemory result (λ e. kept_of e ≡ maps keys.now values.now
        (map (slice_index offsets.now.items) (places_of places.now))
        (map (slice_index sizes.now.items) (places_of places.now))) }
{
    let taken_offsets = gather(alloc, offsets, places)?;
    let taken_sizes = gather(alloc, sizes, places)?;
    let keys = keys.try_clone(alloc)?;
    let values = values.try_clone(alloc)?;
    Ok(of_maps(alloc, keys, values, taken_offsets, taken_sizes)?)
}

impl Elements {
    /// Takes rows of everything but columns, and stops at the first column inside. For lists and
    /// maps only the ranges are taken: their elements are unchanged.
    fn open_rows<'a>(
        &'a self,
        alloc: Global,
        head: Head,
        validity: Validity,
        rows: Rows<'a>,
    ) -> VortexResult<Step<'a>>
        requires stored { IsStoredUnder head
            (kept (taken_kept (rows_in rows) (kept_of self.now)) (validity_of validity)) }
        requires places { ArePlaces (rows_in rows) (kept_of self.now) }
        ensures sound { AnswersUnlessMemory result IsSound }
        ensures column { AnswersUnlessMemory result (λ step. (step_taking step).column
            ≡ stored_view head
            (kept (taken_kept (rows_in rows.entry) (kept_of self.now)) (validity_of validity))) }
        ensures rows { AnswersUnlessMemory result
            (λ step. (step_taking step).rows ≡ rows_in rows.entry) }
        ensures falls { AnswersUnlessMemory result
            (λ step. step_weight step < 2 * type_weight (type_of head.dtype)) }
    {
        let places = rows.places();
        let elements = match self {
            Elements::Bool(bits) => Elements::Bool(take_bits(alloc, bits, &places)?),
            Elements::Primitive(ints) => Elements::Primitive(take_ints(alloc, ints, &places)?),
            Elements::Utf8(values) => Elements::Utf8(values.gather(alloc, &places)?),
            Elements::Binary(values) => Elements::Binary(values.gather(alloc, &places)?),
            Elements::Struct(fields) => {
                let taken = Vec::new(alloc);
                return Ok(head.with_taken_fields(validity, taken, fields.as_slice(), rows));
            }
            Elements::List(elements, offsets, sizes) => {
                take_lists(alloc, elements, offsets, sizes, &places)?
            }
            Elements::FixedSizeList(elements, size) => {
                // so that the indices are known not to overflow
                let _ = elements.len();
                let places = element_places(alloc, *size as usize, &places)?;
                return Ok(head.with_taken_elements(validity, *size, rows, elements, places));
            }
            Elements::Map(keys, values, offsets, sizes) => {
                take_maps(alloc, keys, values, offsets, sizes, &places)?
            }
        };
        Ok(Step::Whole(head.with_rows(validity, elements), rows))
    }
}

impl Column {
    ghost use Rattle.vortex_columns.specs.Words.{AnswersUnlessMemory, AreRowsOf, IsTaken};
    ghost use Rattle.vortex_columns.specs.Taken.{taken};

    /// The rows with these numbers, in the order of the codes, repeats allowed: a column of the
    /// same type with one row for each code. A constant stays a constant, and a column whose
    /// validity is no list of bits keeps its form. All elements of lists and maps are copied, used
    /// or not.
    ///
    /// Fails only where memory runs out (E9), also where lists of one size would have more elements
    /// than a usize can count.
    pub fn take(&self, codes: &[u32], ctx: &mut ExecutionCtx) -> VortexResult<Column>
        requires { AreRowsOf self.now codes.now }
        ensures { AnswersUnlessMemory result (IsTaken self.now codes.now) }
    {
        self.take_rows(ctx.alloc(), Rows::Codes(codes))
    }

    /// Columns inside get their own frames.
    fn take_rows<'a>(&'a self, alloc: Global, rows: Rows<'a>) -> VortexResult<Column>
        requires { AreRowsOf self.now (rows_in rows) }
        ensures { AnswersUnlessMemory result (λ c. c ≡ taken (rows_in rows.entry) self.now) }
    {
        let mut frames = Vec::new(alloc);
        let mut step = self.open_rows(alloc, rows)?;
        loop {
            step = match step {
                Step::Part(frame, inside, rows) => {
                    frames.push(frame)?;
                    inside.open_rows(alloc, rows)?
                }
                Step::Whole(column, rows) => match frames.pop() {
                    Some(frame) => frame.fill(alloc, column, rows)?,
                    None => return Ok(column),
                },
            };
        }
    }

    /// Takes rows of everything but columns, and stops at the first column inside.
    fn open_rows<'a>(&'a self, alloc: Global, rows: Rows<'a>) -> VortexResult<Step<'a>>
        requires { AreRowsOf self.now (rows_in rows) }
        ensures sound { AnswersUnlessMemory result IsSound }
        ensures column { AnswersUnlessMemory result
            (λ step. (step_taking step).column ≡ taken (rows_in rows.entry) self.now) }
        ensures rows { AnswersUnlessMemory result
            (λ step. (step_taking step).rows ≡ rows_in rows.entry) }
        ensures falls { AnswersUnlessMemory result
            (λ step. step_weight step < 2 * type_weight self.now.dtype) }
    {
        let places = rows.places();
        let dtype = self.dtype.try_clone(alloc)?;
        let head = Head {
            dtype,
            len: places.len(),
        };
        let storage = match &self.storage {
            Storage::Null => Storage::Null,
            Storage::Constant(scalar) => Storage::Constant(scalar.try_clone(alloc)?),
            Storage::Rows(elements, validity) => {
                let validity = take_validity(alloc, validity, &places)?;
                return elements.open_rows(alloc, head, validity, rows);
            }
        };
        Ok(Step::Whole(head.with(storage), rows))
    }
}
