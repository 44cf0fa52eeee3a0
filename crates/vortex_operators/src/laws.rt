//! The order of operators. The functions are empty: their contracts are the laws, proved.
ghost use Rattle.std.specs.Prelude.{◌≡◌, Some};
ghost use Rattle.std.specs.Ordering.{nat_cmp};
ghost use Rattle.vortex_operators.specs.Operators.{operator_of};
ghost use Rattle.vortex_operators.specs.Places.{place_of};
ghost use Rattle.vortex_operators.specs.declared.operators.Operator.{Operator};
ghost use Rattle.vortex_operators.specs.declared.operators.CompareOperator.{CompareOperator};

use crate::operators::{CompareOperator, Operator};

/// Operators are ordered by their index in the table: comparisons, then And and Or, then
/// arithmetic.
pub fn operators_stand_in_the_order_of_the_table()
    ensures { (a b : Operator) → ⟦<Operator as PartialOrd>⟧.partial_cmp a b
        ≡ Some (nat_cmp (place_of a) (place_of b)) }
{}

/// Comparisons are ordered as operators are.
pub fn comparisons_stand_in_the_order_of_the_table()
    ensures { (a b : CompareOperator) → ⟦<CompareOperator as PartialOrd>⟧.partial_cmp a b
        ≡ Some (nat_cmp (place_of (operator_of a)) (place_of (operator_of b))) }
{}
