//! Functions of floats over the integers that stand for floats, as functions of SQL.
#![tactic(auto)]

pub mod functions;
mod keys;
pub mod places;
pub mod rows;
#[cfg(test)]
mod tests;
