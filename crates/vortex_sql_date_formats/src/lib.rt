//! Dates and timestamps as texts by formats, and texts by formats as dates and timestamps, as
//! functions of SQL.
#![tactic(auto)]

mod civil;
mod digits;
pub mod faults;
mod fields;
mod formats;
pub mod from_texts;
mod instants;
mod items;
mod names;
mod read;
#[cfg(test)]
mod tests;
pub mod to_texts;
pub mod tried;
mod words;
mod written;
