//! The words that `rowfn_stream` is called with.
#![tactic(auto)]

mod bytes;
mod command;
mod fields;
mod file_names;
mod indexes;
mod language;
pub mod options;
mod rows;
mod words;

pub use options::{Action, Options, Source, read_options, status};
