//! Custom code of callers, for tests: a function with options, one that faults, one with rules, and
//! a run-length column.
#![tactic(auto)]

pub mod first;
pub mod levelled;
pub mod must_be_true;
pub mod run_length;
mod runs;
