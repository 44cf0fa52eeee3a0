//! Arithmetic of floats over whole columns of the integers that stand for them.
#![tactic(auto)]

mod execute;
pub mod keys;
mod operations;

pub use execute::execute_float_operator;
