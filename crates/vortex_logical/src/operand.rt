//! What stands beside an operator, and how two of them meet.
use crate::kind::Kind;
use vortex_types::PType;

/// What stands beside an operator: a whole number of an integer type, or a value of a kind, where
/// `Plain` is a value of a plain column that is no whole number.
#[derive(Clone, Copy, Debug, PartialEq, Eq)]
pub enum Operand {
    Whole(PType),
    Of(Kind),
}

/// How two numbers meet.
#[derive(Clone, Copy, Debug, PartialEq, Eq)]
pub enum Meeting {
    Comparison,
    /// A sum or a difference.
    Sum,
    Product,
}
