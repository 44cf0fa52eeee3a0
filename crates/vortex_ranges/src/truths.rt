//! Ranges of truth values: Kleene's tables and the null tests.
ghost use Rattle.std.specs.Prelude.{◌≡◌};
ghost use Rattle.vortex_ranges.specs.BoundViews.{end_of, range_of};
ghost use Rattle.vortex_ranges.specs.Truths.{truths, reach_past_truths, may_be_unknown};
ghost use Rattle.vortex_ranges.specs.Truths.{may_be_true, may_be_false, negation, unknown_of_both};
ghost use Rattle.vortex_ranges.specs.Truths.{conjunction, disjunction, null_test};

use crate::bound::Bound;
use crate::range::Range;

/// Whether some value between the ends is no truth value.
fn reach_past_truths(low: &Option<Bound<'_>>, high: &Option<Bound<'_>>) -> bool
    ensures { result ≡ reach_past_truths (end_of low.now) (end_of high.now) }
{
    match (low, high) {
        (Some(low), Some(high)) => {
            Bound::Bool(false).is_above(low) || high.is_above(&Bound::Bool(true))
        }
        _ => true,
    }
}

/// Whether a row may be unknown on one side, and unknown or neutral, which decides nothing, on the
/// other.
fn unknown_of_both(unknown: bool, neutral: bool, other_unknown: bool, other_neutral: bool) -> bool
    ensures { result ≡ unknown_of_both unknown neutral other_unknown other_neutral }
{
    (unknown && (other_unknown || other_neutral)) || (neutral && other_unknown)
}

impl<'a> Range<'a> {
    /// The range of null, false and true, each if it may be.
    pub fn truths(unknown: bool, untrue: bool, sure: bool) -> Range<'a>
        ensures { range_of result ≡ truths unknown untrue sure }
    {
        Range {
            may_fault: false,
            may_be_null: unknown,
            may_be_value: untrue || sure,
            low: Some(Bound::Bool(!untrue)),
            high: Some(Bound::Bool(sure)),
        }
    }

    /// Whether a row may be true.
    pub fn may_be_true(&self) -> bool
        ensures { result ≡ may_be_true (range_of self.now) }
    {
        self.may_be(&Bound::Bool(true))
    }

    /// Whether a row may be false.
    pub fn may_be_false(&self) -> bool
        ensures { result ≡ may_be_false (range_of self.now) }
    {
        self.may_be(&Bound::Bool(false))
    }

    /// Whether a row may be null, or no truth value.
    pub fn may_be_unknown(&self) -> bool
        ensures { result ≡ may_be_unknown (range_of self.now) }
    {
        self.may_be_null || (self.may_be_value && reach_past_truths(&self.low, &self.high))
    }

    /// The range of Kleene's Not.
    pub fn negation<'b>(&self) -> Range<'b>
        ensures { range_of result ≡ negation (range_of self.now) }
    {
        Range::truths(
            self.may_be_unknown(),
            self.may_be_true(),
            self.may_be_false(),
        )
    }

    /// The range of Kleene's And.
    pub fn conjunction<'b>(&self, other: &Range<'_>) -> Range<'b>
        ensures { range_of result ≡ conjunction (range_of self.now) (range_of other.now) }
    {
        let sure = self.may_be_true();
        let other_sure = other.may_be_true();
        let unknown = self.may_be_unknown();
        let other_unknown = other.may_be_unknown();
        Range::truths(
            unknown_of_both(unknown, sure, other_unknown, other_sure),
            self.may_be_false() || other.may_be_false(),
            sure && other_sure,
        )
    }

    /// The range of Kleene's Or.
    pub fn disjunction<'b>(&self, other: &Range<'_>) -> Range<'b>
        ensures { range_of result ≡ disjunction (range_of self.now) (range_of other.now) }
    {
        let untrue = self.may_be_false();
        let other_untrue = other.may_be_false();
        let unknown = self.may_be_unknown();
        let other_unknown = other.may_be_unknown();
        Range::truths(
            unknown_of_both(unknown, untrue, other_unknown, other_untrue),
            untrue && other_untrue,
            self.may_be_true() || other.may_be_true(),
        )
    }

    /// The range of the test whether a value is null, or, if negated, whether it is not.
    pub fn null_test<'b>(&self, negated: bool) -> Range<'b>
        ensures { range_of result ≡ null_test negated (range_of self.now) }
    {
        if negated {
            Range::truths(false, self.may_be_null, self.may_be_value)
        } else {
            Range::truths(false, self.may_be_value, self.may_be_null)
        }
    }
}
