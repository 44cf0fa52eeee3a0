//! Strictness of the bounds of BETWEEN.
ghost use Rattle.std.specs.Prelude.{◌≡◌};

use crate::operators::{CompareOperator, Operator};
use std::fmt;

/// Whether a bound excludes the bound itself.
#[derive(Clone, Copy, Debug, PartialEq, Eq, Hash)]
pub enum StrictComparison {
    /// `<`
    Strict,
    /// `<=`
    NonStrict,
}

impl StrictComparison {
    ghost use Rattle.vortex_operators.specs.Operators.{operator_of};
    ghost use Rattle.vortex_operators.specs.Between.{bound_operator, is_strict};

    /// The comparison: Lt if strict, else Lte.
    pub fn to_compare_operator(&self) -> CompareOperator
        ensures { result ≡ bound_operator self.now }
    {
        match self {
            StrictComparison::Strict => CompareOperator::Lt,
            StrictComparison::NonStrict => CompareOperator::Lte,
        }
    }

    /// The same as an operator.
    pub fn to_operator(&self) -> Operator
        ensures { result ≡ operator_of (bound_operator self.now) }
    {
        match self {
            StrictComparison::Strict => Operator::Lt,
            StrictComparison::NonStrict => Operator::Lte,
        }
    }

    /// Whether it is strict.
    pub fn is_strict(&self) -> bool
        ensures { result ≡ is_strict self.now }
    {
        match self {
            StrictComparison::Strict => true,
            StrictComparison::NonStrict => false,
        }
    }
}

/// The strictness of the lower and the upper bound: `lower op x and x op upper`.
#[derive(Clone, Debug, PartialEq, Eq, Hash, Drop)]
pub struct BetweenOptions {
    pub lower_strict: StrictComparison,
    pub upper_strict: StrictComparison,
}

/// `lower_strict: <, upper_strict: <=`, as chosen.
impl fmt::Display for BetweenOptions {
    ghost use Rattle.std.specs.Prelude.{Some};
    ghost use Rattle.vortex_operators.specs.Between.{between_options_text};

    ghost output = { λ options. Some (between_options_text options) };

    fn fmt<W: fmt::Write>(&self, f: &mut fmt::Formatter<W>) -> fmt::Result {
        let lower = self.lower_strict.to_operator();
        let upper = self.upper_strict.to_operator();
        write!(f, "lower_strict: {lower}, upper_strict: {upper}")
    }
}
