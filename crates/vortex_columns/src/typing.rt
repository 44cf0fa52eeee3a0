//! Whether values have types.
ghost use Rattle.std.specs.Prelude.{◌≡◌, ◌↔◌, ◌<◌, ◌++◌, [], ◌∷◌, IsTrue, All, MatchOption};
ghost use Rattle.vortex_columns.specs.Words.{cell_value, sequence_value, sequence_values};
ghost use Rattle.vortex_columns.specs.Words.{IsCell, IsSequence, HasType, type_of};
ghost use Rattle.vortex_columns.specs.Shapes.{shape_type};
ghost use Rattle.vortex_columns.specs.Questions.{HasSingleType, IsMadeOf, part_type, frames_in};
ghost use Rattle.vortex_columns.specs.Questions.{LiesBehind, IsAsking, IsOpened, asked_count};

use crate::cell::{Cell, LEVELS, Sequence};
use crate::value_text::Shape;
use vortex_types::DType;

/// Whether each is a byte, which is always true.
pub(crate) fn are_bytes(bytes: &[u8]) -> bool
    ensures yes { IsTrue result }
    ensures fit { All (λ b. b < 256) bytes.now }
{
    // the body reads a slice, so the range of its items is known
    let _ = bytes.len();
    true
}

impl Cell<'_> {
    /// Whether the value has the type. Allocates nothing down to a thousand levels. For deeper
    /// lists the enclosing ones are kept in memory, or on the stack where an allocation fails.
    pub fn has_type(&self, dtype: &DType) -> bool
        requires { IsCell self.now }
        ensures { IsTrue result ↔ HasType (type_of dtype.now) (cell_value self.now) }
    {
        match self {
            Cell::Sequence(values) => has_shape(values, Shape::Of(dtype), LEVELS),
            _ => self.has_single_type(Shape::Of(dtype)),
        }
    }

    /// Whether the value has the type and is no sequence.
    fn has_single_type(&self, shape: Shape<'_>) -> bool
        requires { IsCell self.now }
        ensures { IsTrue result ↔ HasSingleType (shape_type shape.entry) (cell_value self.now) }
    {
        match (self, shape) {
            (Cell::Null, Shape::Of(dtype)) => dtype.is_nullable(),
            (Cell::Bool(_), Shape::Of(DType::Bool(_))) => true,
            (Cell::Int(n), Shape::Of(DType::Primitive(p, _))) => p.holds(*n),
            (Cell::Text(_), Shape::Of(DType::Utf8(_))) => true,
            (Cell::Bytes(bytes), Shape::Of(DType::Binary(_))) => are_bytes(bytes),
            _ => false,
        }
    }
}

impl Shape<'_> {
    /// Whether a value of the type can have that many values.
    fn is_made_of(self, count: usize) -> bool
        ensures { IsTrue result ↔ IsMadeOf (shape_type self.entry) count }
    {
        match self {
            Shape::Of(DType::Struct(fields, _)) => count == fields.len(),
            Shape::Of(DType::List(_, _)) => true,
            Shape::Of(DType::FixedSizeList(_, size, _)) => count == *size as usize,
            Shape::Of(DType::Map(_, _, _)) => true,
            Shape::Of(_) => false,
            Shape::Entry(_, _) => count == 2,
        }
    }
}

/// A sequence whose values from index `next` on are still to be checked, and the type of the whole.
#[derive(Clone, Copy)]
struct SequenceCheck<'a, 't> {
    values: Sequence<'a>,
    shape: Shape<'t>,
    next: usize,
}

impl<'a, 't> SequenceCheck<'a, 't> {
    /// Begins with the first value; none if the type does not allow that many values.
    fn open(values: &Sequence<'a>, shape: Shape<'t>) -> Option<SequenceCheck<'a, 't>>
        requires { IsSequence values.now }
        ensures { MatchOption result
            (¬ HasType (shape_type shape.entry) (sequence_value values.now))
            (λ f. IsOpened f values.now (shape_type shape.entry)) }
    {
        if shape.is_made_of(values.len()) {
            Some(SequenceCheck {
                values: *values,
                shape,
                next: 0,
            })
        } else {
            None
        }
    }

    /// The type of the next value.
    fn next_shape(&self) -> Shape<'t>
        requires whole { IsAsking self.now }
        requires more { self.now.next < asked_count self.now }
        ensures { shape_type result ≡ part_type (shape_type self.now.shape) self.now.next }
    {
        match self.shape {
            Shape::Of(DType::Struct(fields, _)) => Shape::Of(fields.dtype(self.next)),
            Shape::Of(DType::List(element, _)) => Shape::Of(element),
            Shape::Of(DType::FixedSizeList(element, _, _)) => Shape::Of(element),
            Shape::Of(DType::Map(key, value, _)) => Shape::Entry(key, value),
            Shape::Of(_) => self.shape,
            Shape::Entry(key, value) => {
                if self.next == 0 {
                    Shape::Of(key)
                } else {
                    Shape::Of(value)
                }
            }
        }
    }

    /// Pushes it, unless nothing is left of it. Where the list cannot grow, nothing changes.
    fn lay_by(self, above: &mut Option<Vec<SequenceCheck<'a, 't>>>) -> bool
        requires { IsSequence self.values }
        ensures { LiesBehind result self.entry (frames_in above.old) (frames_in above.new) }
    {
        if self.next >= self.values.len() {
            return true;
        }
        if let Some(frames) = above {
            return frames.push(self).is_ok();
        }
        let Some(alloc) = self.values.allocator() else {
            return false;
        };
        let mut frames = Vec::new(alloc);
        let grown = frames.push(self).is_ok();
        *above = Some(frames);
        grown
    }
}

/// Pops the last one.
fn take_last<'a, 't>(
    above: &mut Option<Vec<SequenceCheck<'a, 't>>>,
) -> Option<SequenceCheck<'a, 't>>
    ensures { MatchOption result (frames_in above.old ≡ [])
        (λ last. frames_in above.old ≡ frames_in above.new ++ last ∷ []) }
{
    match above {
        Some(frames) => frames.pop(),
        None => None,
    }
}

/// Whether the values are a value of the type. Inner sequences are checked recursively, without
/// allocating, while levels are left. For deeper ones the enclosing sequences are kept in a list;
/// where it cannot grow, recursion continues.
fn has_shape(root: &Sequence<'_>, shape: Shape<'_>, levels: usize) -> bool
    requires { IsSequence root.now }
    ensures { IsTrue result ↔ HasType (shape_type shape.entry) (sequence_value root.now) }
{
    let Some(mut here) = SequenceCheck::open(root, shape) else {
        return false;
    };
    let mut above = None;
    loop {
        if here.next < here.values.len() {
            let cell = here.values.get(here.next);
            let wanted = here.next_shape();
            here.next += 1;
            match cell {
                Cell::Sequence(inner) => {
                    let Some(opened) = SequenceCheck::open(&inner, wanted) else {
                        return false;
                    };
                    if levels == 0 && here.lay_by(&mut above) {
                        here = opened;
                    } else if !has_shape(&inner, wanted, levels.checked_sub(1).unwrap_or(LEVELS)) {
                        return false;
                    }
                }
                single => {
                    if !single.has_single_type(wanted) {
                        return false;
                    }
                }
            }
        } else {
            match take_last(&mut above) {
                Some(outer) => here = outer,
                None => return true,
            }
        }
    }
}
