//! The ends of ranges.
ghost use Rattle.std.specs.Prelude.{◌≡◌};
ghost use Rattle.std.specs.Ordering.{is_gt, nat_cmp};
ghost use Rattle.std.specs.Cmp.Lexicographic.{slice_cmp};
ghost use Rattle.vortex_types.specs.Order.{kind_rank};
ghost use Rattle.vortex_ranges.specs.Ranges.{is_above, is_under, is_over};
ghost use Rattle.vortex_ranges.specs.BoundViews.{bound_value, end_of};

/// A value that no other is below, or none above: its text or bytes are borrowed.
#[derive(Clone, Copy)]
pub enum Bound<'a> {
    /// A truth value.
    Bool(bool),
    /// An integer of any of the eight types.
    Int(i128),
    /// A text, by its UTF-8 bytes.
    Text(&'a [u8]),
    /// Bytes.
    Bytes(&'a [u8]),
}

fn are_bytes_above(left: &[u8], right: &[u8]) -> bool
    ensures { result ≡ is_gt (slice_cmp nat_cmp left.now right.now) }
{
    left.cmp(right).is_gt()
}

impl Bound<'_> {
    /// The position of the value's kind among the kinds.
    fn rank(&self) -> u8
        ensures { result ≡ kind_rank (bound_value self.now) }
    {
        match self {
            Bound::Bool(_) => 1,
            Bound::Int(_) => 2,
            Bound::Text(_) => 3,
            Bound::Bytes(_) => 4,
        }
    }

    /// Whether it is the greater of two.
    pub fn is_above(&self, other: &Bound<'_>) -> bool
        ensures { result ≡ is_above (bound_value self.now) (bound_value other.now) }
    {
        match (self, other) {
            (Bound::Bool(left), Bound::Bool(right)) => *left && !*right,
            (Bound::Int(left), Bound::Int(right)) => left > right,
            (Bound::Text(left), Bound::Text(right)) => are_bytes_above(left, right),
            (Bound::Bytes(left), Bound::Bytes(right)) => are_bytes_above(left, right),
            _ => self.rank() > other.rank(),
        }
    }

    /// Whether it lies below a low end.
    pub(crate) fn is_under(&self, low: &Option<Bound<'_>>) -> bool
        ensures { result ≡ is_under (end_of low.now) (bound_value self.now) }
    {
        match low {
            Some(low) => low.is_above(self),
            None => false,
        }
    }

    /// Whether it lies above a high end.
    pub(crate) fn is_over(&self, high: &Option<Bound<'_>>) -> bool
        ensures { result ≡ is_over (end_of high.now) (bound_value self.now) }
    {
        match high {
            Some(high) => self.is_above(high),
            None => false,
        }
    }
}
