//! Values stored as views, with the buffers of the longer ones.
ghost use Rattle.std.specs.Prelude.{◌≡◌, ◌<◌, All, IfOk, [], length, map, slice_index_or};
ghost use Rattle.vortex_errors.specs.Answers.{MadeWhere};
ghost use Rattle.vortex_errors.specs.declared.error.VortexError.TheVariants.{InvalidColumn};
ghost use Rattle.vortex_views.specs.Places.{places_of};
ghost use Rattle.vortex_views.specs.Resolved.{AreViewsIn, values_in};
ghost use Rattle.vortex_views.specs.BorrowedValues.{borrowed_values};

use crate::places::{Places, gather};
use crate::resolved::{ResolvedViews, check_views};
use crate::view::BinaryView;
use std::alloc::{AllocError, Global};
use std::marker::Model;
use vortex_errors::{VortexError, VortexResult};

/// A list of byte strings: a view of 16 bytes for each, and the buffers of the longer ones, which
/// may share bytes and overlap.
#[derive(Drop)]
pub struct BinaryViews {
    views: Vec<BinaryView>,
    buffers: Vec<Vec<u8>>,
}

impl Model for BinaryViews {
    ghost use Rattle.std.specs.Prelude.{List, ℕ, map};
    ghost use Rattle.vortex_views.specs.Resolved.{AreViewsIn, values_in};

    ghost Value = { List (List ℕ) };

    ghost view = { λ a. values_in (map (λ b. b.items) a.buffers.items) a.views.items };

    ghost invariant = { λ a. AreViewsIn (map (λ b. b.items) a.buffers.items) a.views.items };
}

impl BinaryViews {
    /// These views over these buffers, unchanged. Allocates nothing.
    ///
    /// E12 exactly where a view refers to bytes that no buffer has, has other first bytes than its
    /// value, or is not padded with zeros.
    pub fn try_new(views: Vec<BinaryView>, buffers: Vec<Vec<u8>>) -> VortexResult<BinaryViews>
        ensures { MadeWhere result
            (AreViewsIn (map (λ b. b.items) buffers.items) views.items)
            (λ v. v ≡ values_in (map (λ b. b.items) buffers.items) views.items)
            InvalidColumn }
    {
        if check_views(views.as_slice(), buffers.as_slice()) {
            Ok(BinaryViews { views, buffers })
        } else {
            Err(VortexError::InvalidColumn)
        }
    }

    /// The same for views that are known to be valid.
    pub(crate) fn of_parts(views: Vec<BinaryView>, buffers: Vec<Vec<u8>>) -> BinaryViews
        requires { AreViewsIn (map (λ b. b.items) buffers.items) views.items }
        ensures { result ≡ values_in (map (λ b. b.items) buffers.items) views.items }
    {
        BinaryViews { views, buffers }
    }

    /// How many values there are.
    pub fn len(&self) -> usize
        ensures { result ≡ length self.now }
    {
        self.views.len()
    }

    /// The values, in place. Allocates nothing.
    pub fn resolved(&self) -> ResolvedViews<'_>
        ensures { borrowed_values result ≡ self.now }
    {
        ResolvedViews::new(self.views.as_slice(), self.buffers.as_slice())
    }

    /// The values at these indices, in their order: their views, over a copy of all buffers.
    pub fn gather(&self, alloc: Global, places: &Places<'_>) -> Result<BinaryViews, AllocError>
        requires { All (λ i. i < length self.now) (places_of places.now) }
        ensures { IfOk result
            (λ taken. taken ≡ map (λ i. slice_index_or self.now i []) (places_of places.now)) }
    {
        let views = gather(alloc, self.views.as_slice(), places)?;
        let buffers = copy_buffers(&self.buffers)?;
        Ok(BinaryViews { views, buffers })
    }
}

/// Copies of buffers, byte for byte.
fn copy_buffers(buffers: &Vec<Vec<u8>>) -> Result<Vec<Vec<u8>>, AllocError>
    ensures { IfOk result
        (λ copies. map (λ b. b.items) copies.items ≡ map (λ b. b.items) buffers.now.items) }
{
    let mut copies = Vec::new(*buffers.allocator());
    for buffer in buffers {
        copies.push(buffer.as_slice().to_vec(*buffer.allocator())?)?;
    }
    Ok(copies)
}

/// The same values; views and buffers are copied unchanged.
impl Clone for BinaryViews {
    ghost is_clone = { λ values copy. copy ≡ values };

    fn clone(&self) -> Result<BinaryViews, AllocError> {
        let views = self.views.as_slice().to_vec(*self.views.allocator())?;
        let buffers = copy_buffers(&self.buffers)?;
        Ok(BinaryViews { views, buffers })
    }
}
