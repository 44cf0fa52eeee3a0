//! `in_list` over constants: the items are a set, in which the rows are looked up.
#![tactic(auto)]

mod execute;
mod found;
mod items;
mod rows;

pub use execute::execute_in_list;
