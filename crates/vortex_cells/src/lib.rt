//! Cells: texts and bytes with one value of a type, the columns of them, and the names of types.
#![tactic(auto)]

pub mod cells;
pub mod digits;
pub mod escapes;
pub mod fields;
pub mod types;
