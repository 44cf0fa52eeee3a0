//! Runs functions over columns, row by row.
#![tactic(auto)]

pub mod call;
pub mod column;
pub mod maker;
