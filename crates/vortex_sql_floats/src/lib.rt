//! Arithmetic of floats over the integers that stand for them, as functions of SQL.
#![tactic(auto)]

pub mod arithmetic;
pub mod conversions;
pub mod decimals;
pub mod floats;
pub mod integers;
pub mod keys;
pub mod negation;
mod whole;
