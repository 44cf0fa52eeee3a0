//! What the rows of calls on values of kinds mean: with the definition of a call, by which it is made
//! of what its operands become next to each other, these are the theorem of `vortex_lowering` on the
//! call itself.
ghost use Rattle.vortex_logical_calls.specs.RowLaws.{ComparisonsGoByOrder, BoundsGoByOrder};
ghost use Rattle.vortex_logical_calls.specs.RowLaws.{ComputationsAreExact, IntervalsMove};
ghost use Rattle.vortex_logical_calls.specs.RowLaws.{InstantsElapse, InstantsMove, SpansCompute};
ghost use Rattle.vortex_logical_calls.specs.RowLaws.{ValuesAreAligned, KindsMeet};

use vortex_logical::decimals::rescaling_orders;
use vortex_logical::laws::stored_values_are_ordered;

/// A comparison is true in a row by the order of what its operands mean.
pub fn comparisons_go_by_order()
    ensures { ComparisonsGoByOrder }
{
    stored_values_are_ordered();
    rescaling_orders();
}

/// So is a BETWEEN.
pub fn bounds_go_by_order()
    ensures { BoundsGoByOrder }
{
    stored_values_are_ordered();
    rescaling_orders();
}

/// Sums, differences and products that do not go by floats mean those of what the operands mean.
#[tactic(auto, using(crate::proofs::RowMeanings::computations))]
pub fn computations_are_exact()
    ensures { ComputationsAreExact }
{}

/// Values in the kind in which several meet mean what they mean next to a value of that kind.
#[tactic(auto, using(crate::proofs::AlignedMeanings::alignments))]
pub fn values_are_aligned()
    ensures { ValuesAreAligned }
{}

/// Each of several values that meet in a kind from left to right meets that kind in itself.
#[tactic(auto, using(crate::proofs::MetKinds::kinds_meet))]
pub fn kinds_meet()
    ensures { KindsMeet }
{}

/// A date or a timestamp moved by an interval is the sum, or the difference, of its days or its
/// microseconds since 1970 and those of the interval.
#[tactic(auto, using(crate::proofs::ShiftedMeanings::shifts))]
pub fn intervals_move()
    ensures { IntervalsMove }
{}

/// The microseconds from one date or timestamp to another are the difference of those since 1970.
#[tactic(auto, using(crate::proofs::ShiftedMeanings::elapses))]
pub fn instants_elapse()
    ensures { InstantsElapse }
{}

/// Sums and differences of lengths in microseconds, and the product of one and a count, are those of
/// whole numbers.
#[tactic(auto, using(crate::proofs::ShiftedMeanings::spans))]
pub fn spans_compute()
    ensures { SpansCompute }
{}

/// A timestamp moved by microseconds is the sum, or the difference, of those since 1970 and these; a
/// date begins at its midnight.
#[tactic(auto, using(crate::proofs::ShiftedMeanings::instants))]
pub fn instants_move()
    ensures { InstantsMove }
{}
