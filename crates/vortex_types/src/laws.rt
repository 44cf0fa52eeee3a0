//! Laws of the order of values. The function is empty; its contract is the law, proved.
ghost use Rattle.vortex_types.specs.OrderLaws.{EqualsAreSame};

/// Two values are equal in the order exactly where they are the same value.
#[tactic(auto, using(crate::specs::OrderLaws::equals_are_same))]
pub fn equal_values_are_the_same()
    ensures { EqualsAreSame }
{}
