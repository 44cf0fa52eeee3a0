//! Tests of functions and of trees, for what no case of `crates/cases` says: names and marks,
//! functions as values, calls without arguments, and functions over encoded columns.
#![tactic(auto)]

#[cfg(test)]
mod encoded;
#[cfg(test)]
mod function_values;
#[cfg(test)]
mod functions;
#[cfg(test)]
mod questions;
#[cfg(test)]
mod trees;
