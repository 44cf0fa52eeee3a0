//! Indices into a list, and the one loop that gathers items.
ghost use Rattle.std.specs.Prelude.{◌≡◌, ◌<◌, ℕ, All, IfOk, length, map, slice_index_or};
ghost use Rattle.vortex_views.specs.Places.{places_of};

use std::alloc::{AllocError, Global};

/// A number that is an index into a list.
pub trait Place: Copy + Drop {
    ghost number: { Self → ℕ };

    fn index(self) -> usize
        ensures { result ≡ number self };
}

impl Place for u32 {
    ghost number = { λ place. place };

    fn index(self) -> usize {
        self as usize
    }
}

impl Place for usize {
    ghost number = { λ place. place };

    fn index(self) -> usize {
        self
    }
}

/// Indices into a list, in any order, repeats allowed: a caller's codes, or indices of any size.
#[derive(Clone, Copy)]
pub enum Places<'a> {
    Codes(&'a [u32]),
    Indices(&'a [usize]),
}

impl Places<'_> {
    /// How many indices there are.
    pub fn len(&self) -> usize
        ensures { result ≡ length (places_of self.now) }
    {
        match self {
            Places::Codes(codes) => codes.len(),
            Places::Indices(indices) => indices.len(),
        }
    }
}

/// The items at these indices, in their order. Allocates once.
fn gather_at<T: Copy + Drop, P: Place>(
    alloc: Global,
    items: &[T],
    places: &[P],
) -> Result<Vec<T>, AllocError>
    requires { All (λ i. i < length items.now) (map P.number places.now) }
    ensures { IfOk result (λ taken. (d : T)
        → taken.items ≡ map (λ i. slice_index_or items.now i d) (map P.number places.now)) }
{
    let mut taken = Vec::with_capacity(alloc, places.len())?;
    for place in places {
        taken.push_reserved(items[place.index()]);
    }
    Ok(taken)
}

/// The items at these indices, in their order. Allocates once.
pub fn gather<T: Copy + Drop>(
    alloc: Global,
    items: &[T],
    places: &Places<'_>,
) -> Result<Vec<T>, AllocError>
    requires { All (λ i. i < length items.now) (places_of places.now) }
    ensures { IfOk result (λ taken. (d : T)
        → taken.items ≡ map (λ i. slice_index_or items.now i d) (places_of places.now)) }
{
    match places {
        Places::Codes(codes) => gather_at(alloc, items, *codes),
        Places::Indices(indices) => gather_at(alloc, items, *indices),
    }
}
