//! Texts of floats: the fewest digits that are read back. The first 15 digits of a float.
#![tactic(auto)]

mod candidates;
mod layout;
pub mod leading;
pub mod places;
mod scaled;
pub mod texts;
pub mod width;
