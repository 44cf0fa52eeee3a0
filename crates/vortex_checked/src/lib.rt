//! Checked arithmetic on one value; overflow is a flag that a loop ORs together.
#![tactic(auto)]

pub mod arithmetic;
pub mod constants;
pub mod division;
pub mod division_16;
pub mod factor;
pub mod failure;
pub mod guess;
pub mod operations;
mod signed;
mod unsigned;

pub use arithmetic::CheckedArithmetic;
pub use constants::{ConstantArithmetic, Divisor};
pub use factor::{bounded_product, factor_ends};
pub use failure::Failure;
pub use guess::GuessedDivision;
pub use operations::{CheckedAdd, CheckedDiv, CheckedMul, CheckedPrimitiveOp, CheckedSub};
