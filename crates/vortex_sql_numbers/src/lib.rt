//! SQL's functions of numbers, and casts of numbers and truth values.
#![tactic(auto)]

pub mod abs;
pub mod bits;
pub mod integer_casts;
pub mod remainder;
pub mod sign;
pub mod truth_casts;
