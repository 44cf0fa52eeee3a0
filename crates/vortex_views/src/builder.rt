//! Views made value by value, with the buffers that store longer values.
ghost use Rattle.std.specs.Prelude.{◌≡◌, ◌<◌, ◌≤◌, ◌+◌, length, IfOk, OnErr};
ghost use Rattle.vortex_errors.specs.Answers.{AnswersUnlessMemory, AnswersWhere};
ghost use Rattle.vortex_errors.specs.declared.error.VortexError.TheVariants.{InvalidColumn};
ghost use Rattle.vortex_views.specs.ViewBytes.{view_bytes, long_view};
ghost use Rattle.vortex_views.specs.Placing.{most_bytes, most_buffers, placed_after};
ghost use Rattle.vortex_views.specs.Building.{filled, AreInRange, IsAppended, IsBegun, IsPlaced};
ghost use Rattle.vortex_views.specs.Building.{SameBuffers};

use crate::values::BinaryViews;
use crate::view::BinaryView;
use std::alloc::Global;
use std::marker::Model;
use std::mem;
use vortex_errors::{VortexError, VortexResult};

/// The greatest size of a value, and of a buffer that values are stored in.
const MOST_BYTES: usize = BinaryView::MAX_SIZE;

/// The most buffers.
const MOST_BUFFERS: usize = 4294967296;

/// The full buffers, and the one that still grows.
#[derive(Drop)]
struct Buffers {
    full: Vec<Vec<u8>>,
    last: Vec<u8>,
}

/// The view of a longer value that is in this buffer from byte `offset` on.
fn long_view(value: &[u8], buffer: usize, offset: usize) -> BinaryView
    requires long { 12 < length value.now }
    requires most { length value.now ≤ 4294967295 }
    requires buffer { buffer ≤ 4294967295 }
    requires offset { offset ≤ 4294967295 }
    ensures { view_bytes result ≡ long_view (length value.now) value.now buffer offset }
{
    BinaryView::new_long(
        value.len() as u32,
        BinaryView::prefix_of(value),
        buffer as u32,
        offset as u32,
    )
}

impl Buffers {
    /// Appends a value to the last buffer.
    fn append(&mut self, value: &[u8]) -> VortexResult<BinaryView>
        requires long { 12 < length value.now }
        requires most { length value.now ≤ 4294967295 }
        requires range { AreInRange (filled self.old) }
        ensures answer { AnswersUnlessMemory result
            (λ view. IsAppended value.now self.old self.new (view_bytes view)) }
        ensures kept { OnErr result (SameBuffers self.old self.new) }
    {
        let offset = self.last.len();
        self.last.extend_from_slice(value)?;
        Ok(long_view(value, self.full.len(), offset))
    }

    /// Puts a value into a new buffer.
    fn begin(&mut self, value: &[u8]) -> VortexResult<BinaryView>
        requires long { 12 < length value.now }
        requires most { length value.now ≤ 4294967295 }
        requires count { length self.old.full.items + 1 ≤ 4294967295 }
        ensures answer { AnswersUnlessMemory result
            (λ view. IsBegun value.now self.old self.new (view_bytes view)) }
        ensures kept { OnErr result (SameBuffers self.old self.new) }
    {
        let mut next = Vec::new(*self.last.allocator());
        next.extend_from_slice(value)?;
        let number = self.full.len();
        self.full.push(next)?;
        mem::swap(&mut self.last, &mut self.full[number]);
        Ok(long_view(value, number + 1, 0))
    }

    /// Stores a value. E12 exactly where that would take too many buffers.
    fn place(&mut self, value: &[u8]) -> VortexResult<BinaryView>
        requires long { 12 < length value.now }
        requires most { length value.now ≤ 4294967295 }
        requires range { AreInRange (filled self.old) }
        ensures answer { AnswersWhere result
            ((placed_after (filled self.old) (length value.now)).count ≤ most_buffers)
            (λ view. IsPlaced value.now self.old self.new (view_bytes view))
            InvalidColumn }
        ensures kept { OnErr result (SameBuffers self.old self.new) }
    {
        if value.len() <= MOST_BYTES - self.last.len() {
            return self.append(value);
        }
        if self.full.len() + 1 >= MOST_BUFFERS {
            return Err(VortexError::InvalidColumn);
        }
        self.begin(value)
    }

    /// The view of a value, which is stored in a buffer unless it is inlined.
    fn put(&mut self, value: &[u8]) -> VortexResult<BinaryView>
        requires most { length value.now ≤ 4294967295 }
        requires range { AreInRange (filled self.old) }
        ensures answer { AnswersWhere result
            ((placed_after (filled self.old) (length value.now)).count ≤ most_buffers)
            (λ view. IsPlaced value.now self.old self.new (view_bytes view))
            InvalidColumn }
        ensures kept { OnErr result (SameBuffers self.old self.new) }
    {
        if value.len() <= BinaryView::MAX_INLINED_SIZE {
            return Ok(BinaryView::new_inlined(value));
        }
        self.place(value)
    }
}

/// Views made one by one: longer values are stored in buffers, one after another.
#[derive(Drop)]
pub struct ViewsBuilder {
    views: Vec<BinaryView>,
    buffers: Buffers,
}

impl Model for ViewsBuilder {
    ghost use Rattle.std.specs.Prelude.{List, ℕ};
    ghost use Rattle.vortex_views.specs.Built.{built, IsBuilder};

    ghost Value = { List (List ℕ) };

    ghost view = { built };

    ghost invariant = { IsBuilder };
}

impl ViewsBuilder {
    ghost use Rattle.std.specs.Prelude.{◌++◌, ◌∷◌, []};
    ghost use Rattle.vortex_views.specs.Built.{HasRoomFor};

    /// No value yet. Allocates nothing.
    pub fn new(alloc: Global) -> ViewsBuilder
        ensures { result ≡ [] }
    {
        ViewsBuilder {
            views: Vec::new(alloc),
            buffers: Buffers {
                full: Vec::new(alloc),
                last: Vec::new(alloc),
            },
        }
    }

    /// No value yet, and room for the views of this many values.
    pub fn with_capacity(alloc: Global, capacity: usize) -> VortexResult<ViewsBuilder>
        ensures { AnswersUnlessMemory result (λ b. b ≡ []) }
    {
        Ok(ViewsBuilder {
            views: Vec::with_capacity(alloc, capacity)?,
            buffers: Buffers {
                full: Vec::new(alloc),
                last: Vec::new(alloc),
            },
        })
    }

    /// Adds a value. E12 exactly where it is longer than 4,294,967,295 bytes, or more than
    /// 4,294,967,296 buffers of that many bytes would be needed; an error leaves the builder
    /// unchanged.
    pub fn push(&mut self, value: &[u8]) -> VortexResult<()>
        ensures answer { AnswersWhere result
            (HasRoomFor self.old value.now)
            (λ _. self.new ≡ self.old ++ value.now ∷ [])
            InvalidColumn }
        ensures kept { OnErr result (self.new ≡ self.old) }
    {
        if value.len() > MOST_BYTES {
            return Err(VortexError::InvalidColumn);
        }
        self.views.try_reserve(1)?;
        let view = self.buffers.put(value)?;
        self.views.push_reserved(view);
        Ok(())
    }

    /// The values, as a list that holds them.
    pub fn finish(self) -> VortexResult<BinaryViews>
        ensures { AnswersUnlessMemory result (λ v. v ≡ self) }
    {
        let Buffers { full, last } = self.buffers;
        let mut buffers = full;
        buffers.push(last)?;
        Ok(BinaryViews::of_parts(self.views, buffers))
    }
}
