//! Dates, timestamps, decimals and floats: logical types over columns of integers.
#![tactic(auto)]

pub mod cells;
pub mod common;
pub mod conversions;
pub mod dates;
pub mod decimals;
pub mod digits;
pub mod keys;
pub mod kind;
pub mod laws;
pub mod operand;
pub mod timestamps;
