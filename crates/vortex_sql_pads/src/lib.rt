//! SQL's functions that make texts: filled up to a length, by capitals, and with separators.
#![tactic(auto)]

pub mod capitals;
pub mod joins;
mod made;
pub mod pads;
