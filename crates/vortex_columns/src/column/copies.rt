//! Copies of columns, with frames on the heap, so deep nesting uses no stack.
ghost use Rattle.std.specs.Prelude.{◌≡◌, ◌+◌, ◌*◌, ◌<◌, ◌≤◌, ◌++◌, IfOk};
ghost use Rattle.vortex_columns.specs.Words.{AnswersUnlessMemory, type_of, validity_of};
ghost use Rattle.vortex_columns.specs.Stored.{kept, kept_of, stored_of, structs};
ghost use Rattle.vortex_columns.specs.ColumnParts.{type_weight, column_weights};
ghost use Rattle.vortex_columns.specs.CopyFrames.{IsStoredUnder, stored_view, Fits, filled};
ghost use Rattle.vortex_columns.specs.CopyFrames.{IsSound, step_view, step_weight, hole_weight};
ghost use Rattle.vortex_columns.specs.CopyFrames.{plugged};

use super::{Column, Elements, Storage};
use crate::validity::Validity;
use std::alloc::{AllocError, Global};
use vortex_types::{DType, VortexResult};

/// A column without its storage.
#[derive(Drop)]
pub(super) struct Head {
    pub(super) dtype: DType,
    pub(super) len: usize,
}

/// The copied parts of a column, and those still to be copied, except the next one; with the
/// allocator of the column's parts.
#[derive(Drop)]
enum Hole<'a> {
    /// The fields before it, and those after it.
    Field(Vec<Column>, &'a [Column]),
    /// The offsets and sizes of lists.
    Element(Global, Vec<usize>, Vec<usize>),
    /// The size of each list.
    FixedElement(Global, u32),
    /// The values, offsets and sizes.
    Key(Global, &'a Column, Vec<usize>, Vec<usize>),
    /// The keys, offsets and sizes.
    Value(Global, Column, Vec<usize>, Vec<usize>),
}

/// A column that is being copied.
#[derive(Drop)]
struct Frame<'a> {
    head: Head,
    validity: Validity,
    hole: Hole<'a>,
}

/// The state of a copy.
#[derive(Drop)]
enum Step<'a> {
    /// It is complete.
    Whole(Column),
    /// It is complete once the frame has a copy of that column.
    Part(Frame<'a>, &'a Column),
}

impl Head {
    /// The column with this storage.
    pub(super) fn with(self, storage: Storage) -> Column
        requires { IsStoredUnder self (stored_of storage) }
        ensures { result ≡ stored_view self (stored_of storage) }
    {
        let Head { dtype, len } = self;
        Column {
            dtype,
            len,
            storage,
        }
    }

    /// The column with these values.
    pub(super) fn with_rows(self, validity: Validity, elements: Elements) -> Column
        requires { IsStoredUnder self (kept (kept_of elements) (validity_of validity)) }
        ensures { result ≡ stored_view self (kept (kept_of elements) (validity_of validity)) }
    {
        self.with(Storage::Rows(elements, validity))
    }

    /// A copy that still needs one of that column.
    fn with_hole<'a>(self, validity: Validity, hole: Hole<'a>, inside: &'a Column) -> Step<'a>
        requires { IsStoredUnder self (kept (plugged hole inside.now) (validity_of validity)) }
        ensures sound { IsSound result }
        ensures view { step_view result
            ≡ stored_view self (kept (plugged hole.entry inside.now) (validity_of validity)) }
        ensures weight { step_weight result
            ≡ hole_weight hole.entry + 2 * type_weight inside.now.dtype }
    {
        let frame = Frame {
            head: self,
            validity,
            hole,
        };
        Step::Part(frame, inside)
    }

    /// A copy of a struct with these fields; the rest are still to be copied.
    fn with_fields<'a>(
        self,
        validity: Validity,
        copies: Vec<Column>,
        rest: &'a [Column],
    ) -> Step<'a>
        requires { IsStoredUnder self
            (kept (structs (copies.items ++ rest.now)) (validity_of validity)) }
        ensures sound { IsSound result }
        ensures view { step_view result
            ≡ stored_view self (kept (structs (copies.items ++ rest.now)) (validity_of validity)) }
        ensures falls { step_weight result ≤ 1 + 2 * column_weights rest.now }
    {
        if rest.is_empty() {
            return Step::Whole(self.with_rows(validity, Elements::Struct(copies)));
        }
        self.with_hole(validity, Hole::Field(copies, &rest[1..]), &rest[0])
    }
}

/// A copy of offsets or sizes.
fn copy_places(places: &Vec<usize>) -> Result<Vec<usize>, AllocError>
    ensures { IfOk result (λ copy. copy.items ≡ places.now.items) }
{
    places.as_slice().to_vec(*places.allocator())
}

impl Frame<'_> {
    /// The allocator of the column's parts.
    fn allocator(&self) -> Global {
        match &self.hole {
            Hole::Field(copies, _) => *copies.allocator(),
            Hole::Element(alloc, _, _) => *alloc,
            Hole::FixedElement(alloc, _) => *alloc,
            Hole::Key(alloc, _, _, _) => *alloc,
            Hole::Value(alloc, _, _, _) => *alloc,
        }
    }
}

impl<'a> Frame<'a> {
    /// The copy that the frame is for.
    fn fill(self, copy: Column) -> Result<Step<'a>, AllocError>
        requires { Fits self copy }
        ensures sound { IfOk result IsSound }
        ensures view { IfOk result (λ step. step_view step ≡ filled self.entry copy) }
        ensures falls { IfOk result (λ step. step_weight step ≤ hole_weight self.entry.hole) }
    {
        let Frame {
            head,
            validity,
            hole,
        } = self;
        let elements = match hole {
            Hole::Field(copies, rest) => {
                let mut copies = copies;
                copies.push(copy)?;
                return Ok(head.with_fields(validity, copies, rest));
            }
            Hole::Key(alloc, values, offsets, sizes) => {
                let hole = Hole::Value(alloc, copy, offsets, sizes);
                return Ok(head.with_hole(validity, hole, values));
            }
            Hole::Element(alloc, offsets, sizes) => {
                Elements::List(Box::new(alloc, copy)?, offsets, sizes)
            }
            Hole::FixedElement(alloc, size) => {
                Elements::FixedSizeList(Box::new(alloc, copy)?, size)
            }
            Hole::Value(alloc, keys, offsets, sizes) => {
                let keys = Box::new(alloc, keys)?;
                Elements::Map(keys, Box::new(alloc, copy)?, offsets, sizes)
            }
        };
        Ok(Step::Whole(head.with_rows(validity, elements)))
    }
}

impl Elements {
    /// Copies everything but columns, and stops at the first column inside.
    fn open(&self, head: Head, validity: Validity) -> Result<Step<'_>, AllocError>
        requires { IsStoredUnder head (kept (kept_of self.now) (validity_of validity)) }
        ensures sound { IfOk result IsSound }
        ensures view { IfOk result (λ step. step_view step
            ≡ stored_view head (kept (kept_of self.now) (validity_of validity))) }
        ensures falls { IfOk result
            (λ step. step_weight step < 2 * type_weight (type_of head.dtype)) }
    {
        let elements = match self {
            Elements::Bool(bits) => Elements::Bool(bits.clone()?),
            Elements::Primitive(ints) => Elements::Primitive(ints.clone()?),
            Elements::Utf8(values) => Elements::Utf8(values.clone()?),
            Elements::Binary(values) => Elements::Binary(values.clone()?),
            Elements::Struct(fields) => {
                let copies = Vec::new(*fields.allocator());
                return Ok(head.with_fields(validity, copies, fields.as_slice()));
            }
            Elements::List(elements, offsets, sizes) => {
                let offsets = copy_places(offsets)?;
                let sizes = copy_places(sizes)?;
                let hole = Hole::Element(*Box::allocator(elements), offsets, sizes);
                return Ok(head.with_hole(validity, hole, elements));
            }
            Elements::FixedSizeList(elements, size) => {
                let hole = Hole::FixedElement(*Box::allocator(elements), *size);
                return Ok(head.with_hole(validity, hole, elements));
            }
            Elements::Map(keys, values, offsets, sizes) => {
                let offsets = copy_places(offsets)?;
                let sizes = copy_places(sizes)?;
                let hole = Hole::Key(*Box::allocator(keys), values, offsets, sizes);
                return Ok(head.with_hole(validity, hole, keys));
            }
        };
        Ok(Step::Whole(head.with_rows(validity, elements)))
    }
}

/// Fills a frame with a copy of that column; columns inside get their own frames.
fn copy_into(frame: Frame<'_>, inside: &Column) -> Result<Column, AllocError>
    requires { Fits frame inside.now }
    ensures { IfOk result (λ c. c ≡ filled frame.entry inside.now) }
{
    let mut frames = Vec::new(frame.allocator());
    let mut step = Step::Part(frame, inside);
    loop {
        step = match step {
            Step::Part(frame, inside) => {
                frames.push(frame)?;
                inside.open()?
            }
            Step::Whole(copy) => match frames.pop() {
                Some(frame) => frame.fill(copy)?,
                None => return Ok(copy),
            },
        };
    }
}

impl Column {
    /// A copy with the same view.
    pub fn try_clone(&self, _alloc: Global) -> VortexResult<Column>
        ensures { AnswersUnlessMemory result (λ c. c ≡ self.now) }
    {
        Ok(self.copy()?)
    }

    fn copy(&self) -> Result<Column, AllocError>
        ensures { IfOk result (λ c. c ≡ self.now) }
    {
        match self.open()? {
            Step::Whole(copy) => Ok(copy),
            Step::Part(frame, inside) => copy_into(frame, inside),
        }
    }

    /// Copies everything but columns, and stops at the first column inside.
    fn open(&self) -> Result<Step<'_>, AllocError>
        ensures sound { IfOk result IsSound }
        ensures view { IfOk result (λ step. step_view step ≡ self.now) }
        ensures falls { IfOk result (λ step. step_weight step < 2 * type_weight self.now.dtype) }
    {
        let dtype = self.dtype.clone()?;
        let head = Head {
            len: self.len,
            dtype,
        };
        match &self.storage {
            Storage::Null => Ok(Step::Whole(head.with(Storage::Null))),
            Storage::Constant(scalar) => {
                let scalar = scalar.clone()?;
                Ok(Step::Whole(head.with(Storage::Constant(scalar))))
            }
            Storage::Rows(elements, validity) => elements.open(head, validity.clone()?),
        }
    }
}

/// A copy with the same view: the same type and rows.
impl Clone for Column {
    ghost is_clone = { λ column copy. copy ≡ column };

    fn clone(&self) -> Result<Column, AllocError> {
        self.copy()
    }
}
