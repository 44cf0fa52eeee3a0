//! SQL's functions of regular expressions.
#![tactic(auto)]

mod answers;
mod compiled;
pub mod extract;
pub mod functions;
mod lookups;
mod matched;
pub mod replace;
mod replaced_rows;
mod replacements;
mod replacing;
mod requests;
mod searches;
