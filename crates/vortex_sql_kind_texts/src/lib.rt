//! Texts as dates, timestamps, decimals and floats, which are stored integers, and back; decimals
//! at other scales.
#![tactic(auto)]

mod cells;
pub mod decimals;
pub mod float_decimals;
pub mod float_texts;
pub mod from_texts;
pub mod kinds;
pub mod scales;
#[cfg(test)]
mod tests;
pub mod to_texts;
pub mod tried;
