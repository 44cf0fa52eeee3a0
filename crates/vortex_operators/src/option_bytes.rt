//! The byte that options are written as and read from. No other byte string is read.
ghost use Rattle.std.specs.Prelude.{◌≡◌, [], ◌∷◌};
ghost use Rattle.vortex_operators.specs.OptionBytes.{operator_bytes, operator_read};
ghost use Rattle.vortex_operators.specs.OptionBytes.{between_bytes, between_read};

use crate::between::{BetweenOptions, StrictComparison};
use crate::operators::Operator;

impl Operator {
    /// The byte of the operator: its index in the table, 0 for Eq to 11 for Div.
    pub fn to_byte(&self) -> u8
        ensures { operator_bytes self.now ≡ result ∷ [] }
    {
        match self {
            Operator::Eq => 0,
            Operator::NotEq => 1,
            Operator::Gt => 2,
            Operator::Gte => 3,
            Operator::Lt => 4,
            Operator::Lte => 5,
            Operator::And => 6,
            Operator::Or => 7,
            Operator::Add => 8,
            Operator::Sub => 9,
            Operator::Mul => 10,
            Operator::Div => 11,
        }
    }

    /// The operator with these bytes, if there is one.
    pub fn from_bytes(bytes: &[u8]) -> Option<Operator>
        ensures { result ≡ operator_read bytes.now }
    {
        match bytes {
            [0] => Some(Operator::Eq),
            [1] => Some(Operator::NotEq),
            [2] => Some(Operator::Gt),
            [3] => Some(Operator::Gte),
            [4] => Some(Operator::Lt),
            [5] => Some(Operator::Lte),
            [6] => Some(Operator::And),
            [7] => Some(Operator::Or),
            [8] => Some(Operator::Add),
            [9] => Some(Operator::Sub),
            [10] => Some(Operator::Mul),
            [11] => Some(Operator::Div),
            _ => None,
        }
    }
}

impl BetweenOptions {
    /// The byte of the options: bit 0 where the lower bound is strict, bit 1 where the upper is.
    pub fn to_byte(&self) -> u8
        ensures { between_bytes self.now ≡ result ∷ [] }
    {
        let lower = if self.lower_strict.is_strict() { 1 } else { 0 };
        let upper = if self.upper_strict.is_strict() { 2 } else { 0 };
        lower + upper
    }

    /// The options with these bytes, if there are any.
    pub fn from_bytes(bytes: &[u8]) -> Option<BetweenOptions>
        ensures { result ≡ between_read bytes.now }
    {
        let (lower_strict, upper_strict) = match bytes {
            [0] => (StrictComparison::NonStrict, StrictComparison::NonStrict),
            [1] => (StrictComparison::Strict, StrictComparison::NonStrict),
            [2] => (StrictComparison::NonStrict, StrictComparison::Strict),
            [3] => (StrictComparison::Strict, StrictComparison::Strict),
            _ => return None,
        };
        Some(BetweenOptions {
            lower_strict,
            upper_strict,
        })
    }
}
