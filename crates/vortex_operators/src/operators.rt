//! The operators of two operands, and their laws.
ghost use Rattle.std.specs.Prelude.{◌≡◌, IfSome};
ghost use Rattle.vortex_operators.specs.Operators.{as_text, text_of, operator_named};
ghost use Rattle.vortex_operators.specs.Operators.{operator_of, compare_operator_of};
ghost use Rattle.vortex_operators.specs.Operators.{compare_inverse, compare_swap, inverse_of};
ghost use Rattle.vortex_operators.specs.Operators.{logical_inverse_of, swap_of, is_arithmetic};
ghost use Rattle.vortex_operators.specs.Operators.{is_boolean};
ghost use Rattle.vortex_operators.specs.Kleene.{AreDual, decides};
ghost use Rattle.vortex_operators.specs.Arithmetic.{numeric_operator_of};

use std::cmp::Ordering;
use std::fmt;
use vortex_types::{NumericOperator, OperatorText, VortexError, VortexResult};

/// An operator of two operands. The order is that of the variants.
#[derive(Clone, Copy, Debug, PartialEq, Eq, PartialOrd, Hash)]
pub enum Operator {
    Eq,
    NotEq,
    Gt,
    Gte,
    Lt,
    Lte,
    And,
    Or,
    Add,
    Sub,
    Mul,
    Div,
}

/// A comparison. The order is that of the variants.
#[derive(Clone, Copy, Debug, PartialEq, Eq, PartialOrd, Hash)]
pub enum CompareOperator {
    Eq,
    NotEq,
    Gt,
    Gte,
    Lt,
    Lte,
}

/// Each of them once, in their order.
const ALL: [Operator; 12] = [
    Operator::Eq,
    Operator::NotEq,
    Operator::Gt,
    Operator::Gte,
    Operator::Lt,
    Operator::Lte,
    Operator::And,
    Operator::Or,
    Operator::Add,
    Operator::Sub,
    Operator::Mul,
    Operator::Div,
];

impl Operator {
    ghost use Rattle.std.specs.Prelude.{is_some};
    ghost use Rattle.vortex_operators.specs.SwapLaws.{AreTurned};

    /// The operator by its text, as errors carry it.
    pub fn as_text(&self) -> OperatorText
        ensures { result ≡ as_text self.now }
    {
        match self {
            Operator::Eq => OperatorText::Eq,
            Operator::NotEq => OperatorText::NotEq,
            Operator::Gt => OperatorText::Gt,
            Operator::Gte => OperatorText::Gte,
            Operator::Lt => OperatorText::Lt,
            Operator::Lte => OperatorText::Lte,
            Operator::And => OperatorText::And,
            Operator::Or => OperatorText::Or,
            Operator::Add => OperatorText::Add,
            Operator::Sub => OperatorText::Sub,
            Operator::Mul => OperatorText::Mul,
            Operator::Div => OperatorText::Div,
        }
    }

    /// The operator as SQL writes it, as `<=` and `and`.
    pub fn text(&self) -> &'static str
        ensures { result.now ≡ text_of self.now }
    {
        self.as_text().as_str()
    }

    /// The operator with a text.
    pub fn from_text(text: &str) -> Option<Operator>
        ensures { result ≡ operator_named text.now }
    {
        ALL.iter().copied().find(|operator| operator.text() == text)
    }

    /// The comparison that holds where this one does not.
    pub fn inverse(&self) -> Option<Operator>
        ensures { result ≡ inverse_of self.now }
    {
        match self {
            Operator::Eq => Some(Operator::NotEq),
            Operator::NotEq => Some(Operator::Eq),
            Operator::Gt => Some(Operator::Lte),
            Operator::Gte => Some(Operator::Lt),
            Operator::Lt => Some(Operator::Gte),
            Operator::Lte => Some(Operator::Gt),
            _ => None,
        }
    }

    /// De Morgan's dual: `not(a op b)` is `not(a) dual not(b)`, for And and Or.
    #[tactic(auto, using(crate::proofs::Duals::duals))]
    pub fn logical_inverse(&self) -> Option<Operator>
        ensures table { result ≡ logical_inverse_of self.now }
        ensures dual { IfSome result (AreDual self.now) }
    {
        match self {
            Operator::And => Some(Operator::Or),
            Operator::Or => Some(Operator::And),
            _ => None,
        }
    }

    /// The operator with its operands swapped, if there is one: `a op b` is `b swap a` for all
    /// values.
    pub fn swap(&self) -> Option<Operator>
        ensures table { result ≡ swap_of self.now }
        ensures turns { IfSome result (AreTurned self.now) }
    {
        match self {
            Operator::Eq => Some(Operator::Eq),
            Operator::NotEq => Some(Operator::NotEq),
            Operator::Gt => Some(Operator::Lt),
            Operator::Gte => Some(Operator::Lte),
            Operator::Lt => Some(Operator::Gt),
            Operator::Lte => Some(Operator::Gte),
            Operator::And => Some(Operator::And),
            Operator::Or => Some(Operator::Or),
            Operator::Add => Some(Operator::Add),
            Operator::Mul => Some(Operator::Mul),
            Operator::Sub => None,
            Operator::Div => None,
        }
    }

    /// Whether it is Add, Sub, Mul or Div.
    pub fn is_arithmetic(&self) -> bool
        ensures { result ≡ is_arithmetic self.now }
    {
        match self {
            Operator::Add => true,
            Operator::Sub => true,
            Operator::Mul => true,
            Operator::Div => true,
            _ => false,
        }
    }

    /// Whether it is And or Or.
    pub fn is_boolean(&self) -> bool
        ensures { result ≡ is_boolean self.now }
    {
        match self {
            Operator::And => true,
            Operator::Or => true,
            _ => false,
        }
    }

    /// Whether this truth value of one operand decides the result, whatever the other operand:
    /// false decides And, true decides Or.
    pub fn is_decided_by(&self, value: bool) -> bool
        ensures { result ≡ decides self.now value }
    {
        match self {
            Operator::And => !value,
            Operator::Or => value,
            _ => false,
        }
    }

    /// Whether it is one of the six comparisons.
    pub fn is_comparison(&self) -> bool
        ensures { result ≡ is_some (compare_operator_of self.now) }
    {
        self.to_compare_operator().is_some()
    }

    /// The comparison, if the operator is one; the inverse of `Operator::from`.
    pub fn to_compare_operator(&self) -> Option<CompareOperator>
        ensures table { result ≡ compare_operator_of self.now }
        ensures undone { IfSome result (λ compare. operator_of compare ≡ self.now) }
    {
        match self {
            Operator::Eq => Some(CompareOperator::Eq),
            Operator::NotEq => Some(CompareOperator::NotEq),
            Operator::Gt => Some(CompareOperator::Gt),
            Operator::Gte => Some(CompareOperator::Gte),
            Operator::Lt => Some(CompareOperator::Lt),
            Operator::Lte => Some(CompareOperator::Lte),
            _ => None,
        }
    }

    /// The operator of arithmetic, if the operator is one.
    pub fn to_numeric_operator(&self) -> Option<NumericOperator>
        ensures { result ≡ numeric_operator_of self.now }
    {
        match self {
            Operator::Add => Some(NumericOperator::Add),
            Operator::Sub => Some(NumericOperator::Sub),
            Operator::Mul => Some(NumericOperator::Mul),
            Operator::Div => Some(NumericOperator::Div),
            _ => None,
        }
    }
}

impl fmt::Display for Operator {
    ghost use Rattle.std.specs.Prelude.{Some};
    ghost use Rattle.vortex_operators.specs.Operators.{text_of};

    ghost output = { λ operator. Some (text_of operator) };

    fn fmt<W: fmt::Write>(&self, f: &mut fmt::Formatter<W>) -> fmt::Result {
        write!(f, "{}", self.text())
    }
}

impl CompareOperator {
    ghost use Rattle.vortex_operators.specs.OperatorValues.{holds};
    ghost use Rattle.vortex_operators.specs.ComparisonLaws.{AreInverse, AreSwapped};

    /// The comparison that holds where this one does not: `not (a op b)` is `a inverse b` for all
    /// values, nulls included. Its own inverse.
    pub fn inverse(&self) -> CompareOperator
        ensures table { result ≡ compare_inverse self.now }
        ensures undone { compare_inverse result ≡ self.now }
        ensures negates { AreInverse self.now result }
    {
        match self {
            CompareOperator::Eq => CompareOperator::NotEq,
            CompareOperator::NotEq => CompareOperator::Eq,
            CompareOperator::Gt => CompareOperator::Lte,
            CompareOperator::Gte => CompareOperator::Lt,
            CompareOperator::Lt => CompareOperator::Gte,
            CompareOperator::Lte => CompareOperator::Gt,
        }
    }

    /// The comparison with its operands swapped: `a op b` is `b swap a` for all values. Its own
    /// inverse.
    pub fn swap(&self) -> CompareOperator
        ensures table { result ≡ compare_swap self.now }
        ensures undone { compare_swap result ≡ self.now }
        ensures turns { AreSwapped self.now result }
    {
        match self {
            CompareOperator::Eq => CompareOperator::Eq,
            CompareOperator::NotEq => CompareOperator::NotEq,
            CompareOperator::Gt => CompareOperator::Lt,
            CompareOperator::Gte => CompareOperator::Lte,
            CompareOperator::Lt => CompareOperator::Gt,
            CompareOperator::Lte => CompareOperator::Gte,
        }
    }

    /// Whether the comparison is true for that order of left and right.
    pub fn holds(&self, order: Ordering) -> bool
        ensures { result ≡ holds self.now order }
    {
        match self {
            CompareOperator::Eq => order.is_eq(),
            CompareOperator::NotEq => order.is_ne(),
            CompareOperator::Gt => order.is_gt(),
            CompareOperator::Gte => order.is_ge(),
            CompareOperator::Lt => order.is_lt(),
            CompareOperator::Lte => order.is_le(),
        }
    }
}

impl fmt::Display for CompareOperator {
    ghost use Rattle.std.specs.Prelude.{Some};
    ghost use Rattle.vortex_operators.specs.Operators.{text_of, operator_of};

    ghost output = { λ operator. Some (text_of (operator_of operator)) };

    fn fmt<W: fmt::Write>(&self, f: &mut fmt::Formatter<W>) -> fmt::Result {
        write!(f, "{}", Operator::from(*self))
    }
}

/// `to_compare_operator` gives the comparison back.
impl From<CompareOperator> for Operator {
    ghost use Rattle.std.specs.Prelude.{◌≡◌, Some};
    ghost use Rattle.vortex_operators.specs.Operators.{operator_of, compare_operator_of};

    ghost from_gives = { λ compare operator. (operator ≡ operator_of compare)
        × (compare_operator_of operator ≡ Some compare) };

    fn from(operator: CompareOperator) -> Operator {
        match operator {
            CompareOperator::Eq => Operator::Eq,
            CompareOperator::NotEq => Operator::NotEq,
            CompareOperator::Gt => Operator::Gt,
            CompareOperator::Gte => Operator::Gte,
            CompareOperator::Lt => Operator::Lt,
            CompareOperator::Lte => Operator::Lte,
        }
    }
}

/// E5 exactly for an operator that is no comparison.
impl TryFrom<Operator> for CompareOperator {
    ghost use Rattle.std.specs.Prelude.{◌≡◌, Some, None, MatchResult};
    ghost use Rattle.vortex_operators.specs.Operators.{compare_operator_of, IsNotCompare};

    type Error = VortexError;

    ghost try_from_gives = { λ operator r. MatchResult r
        (λ compare. compare_operator_of operator ≡ Some compare)
        (λ e. (compare_operator_of operator ≡ None) × IsNotCompare operator e) };

    fn try_from(operator: Operator) -> VortexResult<CompareOperator> {
        match operator.to_compare_operator() {
            Some(compare) => Ok(compare),
            None => Err(VortexError::NotCompareOperator(operator.as_text())),
        }
    }
}
