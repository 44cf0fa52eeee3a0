//! The operators of two operands, with the tables and laws that choose kernels.
#![tactic(auto)]

pub mod between;
pub mod laws;
pub mod operators;
pub mod option_bytes;

pub use between::{BetweenOptions, StrictComparison};
pub use operators::{CompareOperator, Operator};
