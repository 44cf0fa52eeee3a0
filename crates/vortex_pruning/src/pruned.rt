//! What pruning answers.
ghost use Rattle.std.specs.Prelude.{◌≡◌};
ghost use Rattle.vortex_ranges.specs.BoundViews.{range_of};
ghost use Rattle.vortex_pruning.specs.Pruning.{may_be_untrue, verdict_of, trues_of, pruned_of};

use vortex_ranges::Range;

/// What is known of a condition in every row of a group.
#[derive(Clone, Copy, Debug, PartialEq, Eq)]
pub enum Verdict {
    /// Nothing.
    Unknown,
    /// No row is true: the group can be skipped.
    NoneTrue,
    /// Every row is true: the group can be taken whole.
    AllTrue,
}

/// What is known of a condition over a group of rows.
#[derive(Clone, Copy, Debug, PartialEq, Eq)]
pub struct Pruned {
    pub verdict: Verdict,
    /// Where it is set, no row faults.
    pub faultless: bool,
    /// At least and at most how many rows are true.
    pub trues: (u64, u64),
}

/// Whether a row may fault, or be null or false.
fn may_be_untrue(range: &Range<'_>) -> bool
    ensures { result ≡ may_be_untrue (range_of range.now) }
{
    range.may_fault || range.may_be_unknown() || range.may_be_false()
}

fn verdict_of(range: &Range<'_>) -> Verdict
    ensures { result ≡ verdict_of (range_of range.now) }
{
    if !range.may_be_true() {
        return Verdict::NoneTrue;
    }
    if may_be_untrue(range) {
        Verdict::Unknown
    } else {
        Verdict::AllTrue
    }
}

fn trues_of(verdict: Verdict, rows: u64) -> (u64, u64)
    ensures { result ≡ trues_of verdict rows }
{
    match verdict {
        Verdict::Unknown => (0, rows),
        Verdict::NoneTrue => (0, 0),
        Verdict::AllTrue => (rows, rows),
    }
}

impl Pruned {
    /// What the range of a condition says of so many rows.
    pub(crate) fn of_range(range: &Range<'_>, rows: u64) -> Pruned
        ensures { result ≡ pruned_of rows (range_of range.now) }
    {
        let verdict = verdict_of(range);
        Pruned {
            verdict,
            faultless: !range.may_fault,
            trues: trues_of(verdict, rows),
        }
    }
}
