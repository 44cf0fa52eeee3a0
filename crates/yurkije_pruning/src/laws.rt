//! A law of statistics of floats. The function computes nothing: its contract is the law, proved.
ghost use Rattle.yurkije_pruning.specs.Floats.{LowEndsHoldOfNan};

use vortex_logical::keys::keys_are_ordered;

/// Files keep ends of floats that leave NaN out, in columns that have it. Such a low end is one of
/// all rows, since NaN is the greatest float; such a high end is none. So statistics of this kind
/// describe their columns once they are without their high end.
pub fn low_ends_hold_of_nan()
    ensures { LowEndsHoldOfNan }
{
    keys_are_ordered();
}
