//! Lines of scripts, and their meaning.
#![tactic(auto)]

pub mod command;
pub mod laws;
pub mod parse;
pub mod text;
mod values;

pub use command::Line;
pub use text::lines;
