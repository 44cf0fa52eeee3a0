//! Expressions and array trees for tests, from their parts, and short checks of their results and
//! of rules. Each function stays generic in the caller's functions; the tests pick the one they
//! run.
#![tactic(auto)]

pub mod array_makers;
pub mod makers;
pub mod rewritten;
