//! What a function of SQL is by its rows: its types as data, its result in one row, and the laws
//! that follow.
#![tactic(auto)]

pub mod cells;
pub mod faults;
pub mod ranges;
pub mod row;
pub mod types;
