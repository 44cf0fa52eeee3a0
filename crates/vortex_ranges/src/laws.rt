//! The laws of ranges. The functions are empty: their contracts are the laws, proved.
ghost use Rattle.vortex_ranges.specs.Reached.{PrefixesAreReached, BetweensAreReached};
ghost use Rattle.vortex_ranges.specs.Sound.{AdmitTruths, AdmitComparisons, AdmitTyped};

/// The ranges of Kleene's And, Or and Not and of the null tests admit the values of these functions
/// for all values that the ranges of their arguments admit.
pub fn truths_are_admitted()
    ensures { AdmitTruths }
{}

/// So do the ranges of comparisons and of Between.
pub fn comparisons_are_admitted()
    ensures { AdmitComparisons }
{}

/// The range of a value admits that value, and the range of a type each value of the type.
pub fn typed_values_are_admitted()
    ensures { AdmitTyped }
{}

/// A text column with two ends can hold a text that begins with a prefix, and one that does not,
/// wherever these ends leave that open: so the range of Like cannot be smaller there.
pub fn prefixes_are_reached()
    ensures { PrefixesAreReached }
{}

/// A column with two ends can hold a value between two literals, which are in order, and one that is
/// not, wherever these ends leave that open.
pub fn betweens_are_reached()
    ensures { BetweensAreReached }
{}
