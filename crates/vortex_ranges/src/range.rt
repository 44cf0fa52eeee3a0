//! Ranges of values.
ghost use Rattle.std.specs.Prelude.{◌≡◌};
ghost use Rattle.vortex_types.specs.Values.{null};
ghost use Rattle.vortex_ranges.specs.Ranges.{anything, only, may_be};
ghost use Rattle.vortex_ranges.specs.BoundViews.{bound_value, range_of};

use crate::bound::Bound;

/// What is known of the values of a function in every row of a group: whether a row may fault, may
/// be null, and may be another value, which then lies between the ends. An end need not be the
/// value of a row; none is no end.
#[derive(Clone, Copy)]
pub struct Range<'a> {
    /// Whether a row may fault.
    pub may_fault: bool,
    /// Whether a row may be null.
    pub may_be_null: bool,
    /// Whether a row may be another value.
    pub may_be_value: bool,
    /// No other value is below it.
    pub low: Option<Bound<'a>>,
    /// And none is above it.
    pub high: Option<Bound<'a>>,
}

impl<'a> Range<'a> {
    /// The range that excludes nothing.
    pub fn anything() -> Range<'a>
        ensures { range_of result ≡ anything }
    {
        Range {
            may_fault: true,
            may_be_null: true,
            may_be_value: true,
            low: None,
            high: None,
        }
    }

    /// The range of one value.
    pub fn only(value: Bound<'a>) -> Range<'a>
        ensures { range_of result ≡ only (bound_value value.entry) }
    {
        Range {
            may_fault: false,
            may_be_null: false,
            may_be_value: true,
            low: Some(value),
            high: Some(value),
        }
    }

    /// The range of null alone.
    pub fn null() -> Range<'a>
        ensures { range_of result ≡ only null }
    {
        Range {
            may_fault: false,
            may_be_null: true,
            may_be_value: false,
            low: None,
            high: None,
        }
    }

    /// Whether a row may have that value.
    pub fn may_be(&self, value: &Bound<'_>) -> bool
        ensures { result ≡ may_be (range_of self.now) (bound_value value.now) }
    {
        self.may_be_value && !value.is_under(&self.low) && !value.is_over(&self.high)
    }
}
