//! The ranges of IS TRUE, IS FALSE and IS UNKNOWN.
ghost use Rattle.std.specs.Prelude.{◌≡◌, map};
ghost use Rattle.vortex_ranges.specs.BoundViews.{range_of};
ghost use Rattle.vortex_sql_ranges.specs.TruthTests.{tested, test_range};

use vortex_ranges::Range;
use vortex_sql_choices::truth_tests::TruthTest;

/// The test of one value.
fn tested<'a>(test: TruthTest, value: &Range<'_>) -> Range<'a>
    ensures { range_of result ≡ tested test (range_of value.now) }
{
    let unknown = value.may_be_unknown();
    match test {
        TruthTest::IsTrue => Range::truths(
            false,
            value.may_be_false() || unknown,
            value.may_be_true(),
        ),
        TruthTest::IsFalse => Range::truths(
            false,
            value.may_be_true() || unknown,
            value.may_be_false(),
        ),
        TruthTest::IsUnknown => value.null_test(false),
    }
}

/// The range of a call of such a test.
pub fn test_range<'a>(test: TruthTest, inputs: &[Range<'_>]) -> Range<'a>
    ensures { range_of result ≡ test_range test (map range_of inputs.now) }
{
    let [value] = inputs else {
        return Range::anything();
    };
    tested(test, value)
}
