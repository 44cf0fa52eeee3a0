//! That stored integers are in the order of what they mean: so what compares, sorts and looks up
//! integers does so with dates, timestamps, decimals and floats.
ghost use Rattle.vortex_logical.specs.StandsFor.{StoredValuesAreOrdered};

/// Of two stored integers of a kind the lesser one means the lesser value, and level values have
/// one integer.
pub fn stored_values_are_ordered()
    ensures { StoredValuesAreOrdered }
{}
